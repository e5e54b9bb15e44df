use crate::{DeviceReader, FrameWriter};
use std::alloc::AllocError;
use std::fmt::Debug;
use std::io::{Error, Read, Result, Write};
use std::process::Abort;

/// The two are equal in the case of this number.
fn expect_same_in<T: PartialEq + Debug>(rt: &impl Abort, case: usize, found: &T, expected: &T) {
    assert_eq!(rt; *found, *expected, "case {case}");
}

/// What the device does at a call.
#[derive(Clone, Copy)]
enum Does {
    /// It moves at most so many bytes.
    Moves(usize),
    /// It fails with this error number.
    Fails(i32),
}

/// What a call came to.
#[derive(Clone, Copy, Debug, PartialEq, Eq)]
enum Came {
    Moved(usize),
    Failed(Option<i32>),
}

fn outcome_of(answer: Result<usize>) -> Came {
    match answer {
        Ok(count) => Came::Moved(count),
        Err(error) => Came::Failed(error.raw_os_error()),
    }
}

/// A device that does these things one after the other. Then it has no bytes to read, and takes all that is written.
#[derive(Drop)]
struct Device {
    does: &'static [Does],
    calls: usize,
    written: Vec<u8>,
    lengths: Vec<usize>,
}

impl Device {
    fn new(rt: &impl AllocGlobal, does: &'static [Does]) -> Device {
        Device {
            does,
            calls: 0,
            written: Vec::new(rt.alloc()),
            lengths: Vec::new(rt.alloc()),
        }
    }

    /// What it does now.
    fn next(&mut self) -> Option<Does> {
        let does = self.does.get(self.calls).copied();
        self.calls = self.calls.saturating_add(1);
        does
    }
}

impl Read for Device {
    fn read(&mut self, piece: &mut [u8]) -> Result<usize> {
        match self.next() {
            Some(Does::Moves(most)) => Ok(piece.len().min(most)),
            Some(Does::Fails(number)) => Err(Error::from_raw_os_error(number)),
            None => Ok(0),
        }
    }
}

impl Write for Device {
    fn write(&mut self, piece: &[u8]) -> Result<usize> {
        let count = match self.next() {
            Some(Does::Moves(most)) => piece.len().min(most),
            Some(Does::Fails(number)) => return Err(Error::from_raw_os_error(number)),
            None => piece.len(),
        };
        self.written.extend_from_slice(&piece[..count])?;
        self.lengths.push(count)?;
        Ok(count)
    }

    fn flush(&mut self) -> Result<()> {
        Ok(())
    }
}

/// What the device does, what one read of it comes to, and whether it is gone then.
const READINGS: &[(&[Does], Came, bool)] = &[
    (&[Does::Moves(3)], Came::Moved(3), false),
    (&[Does::Moves(0)], Came::Moved(0), false),
    (&[Does::Fails(19)], Came::Moved(0), true),
    (
        &[
            Does::Fails(2),
            Does::Fails(4),
            Does::Fails(11),
            Does::Moves(5),
        ],
        Came::Moved(5),
        false,
    ),
    (&[Does::Fails(4), Does::Fails(19)], Came::Moved(0), true),
    (&[Does::Fails(2), Does::Fails(103)], Came::Moved(0), true),
    (&[Does::Fails(5)], Came::Failed(Some(5)), false),
    (&[Does::Fails(9)], Came::Failed(Some(9)), false),
    (
        &[Does::Fails(11), Does::Fails(22)],
        Came::Failed(Some(22)),
        false,
    ),
];

fn expect_reading<A: AllocGlobal + Abort>(rt: &A, case: usize, row: (&'static [Does], Came, bool)) {
    let (does, answer, is_gone) = row;
    let mut reader = DeviceReader::new(Device::new(rt, does));
    let mut piece = [0; 8];
    let found = outcome_of(reader.read(&mut piece));
    expect_same_in(rt, case, &(found, reader.is_gone()), &(answer, is_gone));
}

#[test]
fn a_read_of_the_device_ends_where_it_is_gone_and_is_tried_again(rt: HostRuntime) {
    for (case, row) in READINGS.iter().enumerate() {
        expect_reading(&rt, case, *row);
    }
}

/// What the device does, and whether it gives whole messages.
const KINDS: &[(&[Does], bool)] = &[
    (&[Does::Fails(22)], true),
    (&[Does::Fails(5)], false),
    (&[Does::Moves(8)], false),
    (&[], false),
];

fn expect_kind<A: AllocGlobal + Abort>(rt: &A, case: usize, row: (&'static [Does], bool)) {
    let (does, whole) = row;
    let mut reader = DeviceReader::new(Device::new(rt, does));
    expect_same_in(rt, case, &reader.gives_whole_messages(), &whole);
}

#[test]
fn a_device_refuses_a_read_of_nothing(rt: HostRuntime) {
    for (case, row) in KINDS.iter().enumerate() {
        expect_kind(&rt, case, *row);
    }
}

/// Headers of frames of 16, 20 and 36 bytes.
const SHORT: &[u8] = &[16, 0, 0, 0, 1, 0, 0, 0, 2, 0, 0, 0, 0, 0, 0, 0];

const LONG: &[u8] = &[20, 0, 0, 0, 0, 0, 0, 0, 4, 0, 0, 0, 0, 0, 0, 0];

const LONGER: &[u8] = &[36, 0, 0, 0, 0, 0, 0, 0, 6, 0, 0, 0, 0, 0, 0, 0];

const PAYLOAD: &[u8] = &[1, 2, 3, 4];

/// What is like the header of a frame, and part of a payload.
const REST: &[u8] = &[99, 0, 0, 0, 0, 0, 0, 0, 9, 0, 0, 0, 0, 0, 0, 0];

/// What the device does, what is written, what each of these writes comes to, how many bytes each write of the device took, and
/// how many frames nobody waited for.
type Writing = (
    &'static [Does],
    &'static [&'static [u8]],
    &'static [Came],
    &'static [usize],
    u64,
);

const WRITINGS: &[Writing] = &[
    // A frame is written at once.
    (&[], &[SHORT], &[Came::Moved(16)], &[16], 0),
    (
        &[],
        &[LONG, PAYLOAD, SHORT],
        &[Came::Moved(16), Came::Moved(4), Came::Moved(16)],
        &[20, 16],
        0,
    ),
    // Nobody waits for it.
    (&[Does::Fails(2)], &[SHORT], &[Came::Moved(16)], &[], 1),
    (
        &[Does::Fails(2)],
        &[LONG, PAYLOAD, SHORT],
        &[Came::Moved(16), Came::Moved(4), Came::Moved(16)],
        &[16],
        1,
    ),
    // What is no frame is not passed over, and no other error is.
    (
        &[Does::Fails(2)],
        &[PAYLOAD],
        &[Came::Failed(Some(2))],
        &[],
        0,
    ),
    (
        &[Does::Fails(22)],
        &[SHORT],
        &[Came::Failed(Some(22))],
        &[],
        0,
    ),
    (
        &[Does::Fails(22)],
        &[LONG, PAYLOAD],
        &[Came::Moved(16), Came::Failed(Some(22))],
        &[],
        0,
    ),
    (
        &[Does::Moves(0)],
        &[LONG, PAYLOAD],
        &[Came::Moved(16), Came::Moved(0)],
        &[0],
        0,
    ),
    // A pipe may take a part.
    (
        &[Does::Moves(18)],
        &[LONG, PAYLOAD, &[3, 4]],
        &[Came::Moved(16), Came::Moved(2), Came::Moved(2)],
        &[18, 2],
        0,
    ),
    (
        &[Does::Moves(16)],
        &[LONG, PAYLOAD],
        &[Came::Moved(16), Came::Moved(4)],
        &[16, 4],
        0,
    ),
    (
        &[Does::Moves(10), Does::Moves(5)],
        &[LONG, PAYLOAD],
        &[Came::Moved(16), Came::Moved(4)],
        &[10, 5, 1, 4],
        0,
    ),
    (
        &[Does::Moves(10), Does::Fails(2)],
        &[LONG, PAYLOAD],
        &[Came::Moved(16), Came::Failed(Some(2))],
        &[10],
        0,
    ),
    // The rest of a payload is no header.
    (
        &[Does::Moves(20)],
        &[LONGER, PAYLOAD, REST],
        &[Came::Moved(16), Came::Moved(4), Came::Moved(16)],
        &[20, 16],
        0,
    ),
];

/// What each write of a piece to this device comes to, and how many frames nobody waited for.
fn writes<A: AllocGlobal>(
    rt: &A,
    device: &mut Device,
    pieces: &[&[u8]],
) -> std::result::Result<(Vec<Came>, u64), AllocError> {
    let mut frames = FrameWriter::new(rt.alloc(), device)?;
    let mut found = Vec::new(rt.alloc());
    for piece in pieces {
        found.push(outcome_of(frames.write(piece)))?;
    }
    Ok((found, frames.passed_over()))
}

fn expect_writing<A: AllocGlobal + Abort>(
    rt: &A,
    case: usize,
    writing: &Writing,
) -> std::result::Result<(), AllocError> {
    let (does, pieces, answers, lengths, passed_over) = *writing;
    let mut device = Device::new(rt, does);
    let (found, count) = writes(rt, &mut device, pieces)?;
    expect_same_in(rt, case, &found.as_slice(), &answers);
    expect_same_in(rt, case, &device.lengths.as_slice(), &lengths);
    expect_same_in(rt, case, &count, &passed_over);
    Ok(())
}

#[test]
fn a_frame_is_written_at_once(rt: HostRuntime) -> std::result::Result<(), AllocError> {
    for (case, writing) in WRITINGS.iter().enumerate() {
        expect_writing(&rt, case, writing)?;
    }
    Ok(())
}

#[test]
fn header_and_payload_are_in_order(rt: HostRuntime) -> std::result::Result<(), AllocError> {
    let mut device = Device::new(&rt, &[]);
    let (_found, count) = writes(&rt, &mut device, &[LONG, PAYLOAD])?;
    expect_same_in(&rt, 0, &count, &0);
    let whole: &[u8] = &[20, 0, 0, 0, 0, 0, 0, 0, 4, 0, 0, 0, 0, 0, 0, 0, 1, 2, 3, 4];
    expect_same_in(&rt, 0, &device.written.as_slice(), &whole);
    Ok(())
}
