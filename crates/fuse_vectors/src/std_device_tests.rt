//! Devices over a reader and a writer of std.
use crate::asserts::expect_same_in;
use fuse_wire::{ByteRead, ByteSink, ByteSource, ByteWrite, StdSink, StdSource};
use std::alloc::AllocError;
use std::io;
use std::io::ErrorKind::{BrokenPipe, Interrupted, Other, TimedOut, UnexpectedEof, WouldBlock};
use std::io::{Read, Write};
use std::process::Abort;

/// What a reader or a writer does at its first call.
#[derive(Clone, Copy)]
enum Does {
    /// It moves at most so many bytes.
    Moves(usize),
    Fails(io::ErrorKind),
}

/// A reader that does this first, has one byte then, and no more.
#[derive(Drop)]
struct Reader {
    first: Does,
    calls: usize,
}

impl Read for Reader {
    fn read(&mut self, piece: &mut [u8]) -> io::Result<usize> {
        self.calls = self.calls.saturating_add(1);
        match (self.calls, self.first) {
            (1, Does::Moves(most)) => Ok(piece.len().min(most)),
            (1, Does::Fails(kind)) => Err(io::Error::from(kind)),
            (2, _) => Ok(piece.len().min(1)),
            _ => Ok(0),
        }
    }
}

/// What a reader does first, and what that read of at most two bytes gives.
const READINGS: &[(Does, ByteRead)] = &[
    (Does::Moves(2), ByteRead::Got(2)),
    (Does::Moves(0), ByteRead::End),
    (Does::Fails(Interrupted), ByteRead::Failed),
    (Does::Fails(WouldBlock), ByteRead::Failed),
    (Does::Fails(TimedOut), ByteRead::Failed),
    (Does::Fails(UnexpectedEof), ByteRead::Failed),
    (Does::Fails(Other), ByteRead::Failed),
];

/// Each of three reads asks the reader once.
fn expect_reading(rt: &impl Abort, place: usize, first: Does, answer: ByteRead) {
    let mut reader = Reader { first, calls: 0 };
    let mut source = StdSource::new(&mut reader);
    let mut piece = [0; 2];
    let found = [
        source.read(&mut piece),
        source.read(&mut piece),
        source.read(&mut piece),
    ];
    let expected = [answer, ByteRead::Got(1), ByteRead::End];
    expect_same_in(rt, &place, &(found, reader.calls), &(expected, 3));
}

#[test]
fn a_reader_is_asked_once_for_each_read(rt: HostRuntime) {
    for (place, (first, answer)) in READINGS.iter().enumerate() {
        expect_reading(&rt, place, *first, *answer);
    }
}

/// A writer that does this first, and then takes all. It holds what it takes until it is flushed, and the flush of this
/// number fails, counted from 1.
#[derive(Drop)]
struct Writer {
    first: Does,
    fails_flush: usize,
    calls: usize,
    flushes: usize,
    held: usize,
}

impl Write for Writer {
    fn write(&mut self, piece: &[u8]) -> io::Result<usize> {
        self.calls = self.calls.saturating_add(1);
        let count = match (self.calls, self.first) {
            (1, Does::Moves(most)) => piece.len().min(most),
            (1, Does::Fails(kind)) => return Err(io::Error::from(kind)),
            _ => piece.len(),
        };
        self.held = self.held.saturating_add(count);
        Ok(count)
    }

    fn flush(&mut self) -> io::Result<()> {
        self.flushes = self.flushes.saturating_add(1);
        if self.flushes == self.fails_flush {
            return Err(io::Error::from(BrokenPipe));
        }
        self.held = 0;
        Ok(())
    }
}

/// What a writer does first and which flush fails, what the first write of two is answered, and how often the writer is
/// flushed by both. No write and no flush is tried again.
const WRITINGS: &[(Does, usize, ByteWrite, usize)] = &[
    (Does::Moves(2), 0, ByteWrite::Wrote(2), 2),
    (Does::Moves(1), 0, ByteWrite::Wrote(1), 2),
    (Does::Moves(2), 1, ByteWrite::Failed, 2),
    (Does::Moves(0), 0, ByteWrite::Failed, 1),
    (Does::Fails(Interrupted), 0, ByteWrite::Failed, 1),
    (Does::Fails(WouldBlock), 0, ByteWrite::Failed, 1),
    (Does::Fails(BrokenPipe), 0, ByteWrite::Failed, 1),
];

/// Each of two writes asks the writer once, and flushes what it took.
fn expect_writing(rt: &impl Abort, place: usize, writing: (Does, usize, ByteWrite, usize)) {
    let (first, fails_flush, answer, flushes) = writing;
    let mut writer = Writer {
        first,
        fails_flush,
        calls: 0,
        flushes: 0,
        held: 0,
    };
    let mut sink = StdSink::new(&mut writer);
    let found = [sink.write(&[1, 2]), sink.write(&[3])];
    let asked = (writer.calls, writer.flushes, writer.held);
    let expected = [answer, ByteWrite::Wrote(1)];
    expect_same_in(rt, &place, &(found, asked), &(expected, (2, flushes, 0)));
}

#[test]
fn a_writer_is_asked_once_for_each_write_and_flushed(rt: HostRuntime) {
    for (place, writing) in WRITINGS.iter().enumerate() {
        expect_writing(&rt, place, *writing);
    }
}

/// How many bytes are read at once where the reader has them, and written at once where the writer takes them.
const MANY: usize = 100_000;

#[test]
fn a_long_piece_is_read_and_written_at_once(rt: HostRuntime) -> Result<(), AllocError> {
    let bytes = vec![in rt.alloc(); 7; MANY]?;
    let mut piece = vec![in rt.alloc(); 0; MANY]?;
    let read = StdSource::new(bytes.as_slice()).read(&mut piece);
    expect_same_in(&rt, &"read", &read, &ByteRead::Got(MANY));
    let mut copy = Vec::new(rt.alloc());
    let written = StdSink::new(&mut copy).write(&piece);
    expect_same_in(&rt, &"written", &written, &ByteWrite::Wrote(MANY));
    expect_same_in(&rt, &"both", &copy.as_slice(), &bytes.as_slice());
    Ok(())
}
