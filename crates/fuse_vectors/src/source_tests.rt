//! Messages from a stream of bytes.
ghost use Rattle.std.specs.Prelude.{◌≡◌, length};
ghost use Rattle.fuse_wire.specs.declared.consts.TheConstants.{BUFFER_SIZE};

use crate::asserts::expect_same;
use fuse_wire::Received::{Failed, Gone, Message};
use fuse_wire::{MemoryBytes, NoMemory, Received, Source, StreamSource, receive_buffer};
use std::alloc::{AllocError, Global};
use std::process::Abort;

/// What a source answers, and the length field of the message, where it gives one.
type Answer = (u32, Received);

/// Puts the bytes of a message behind others.
fn push_message(bytes: &mut Vec<u8>, field: u32, size: usize) -> Result<(), AllocError> {
    bytes.extend_from_slice(&field.to_le_bytes())?;
    for place in 4..size {
        bytes.push((place % 251) as u8)?;
    }
    Ok(())
}

/// The bytes of one message.
fn message(rt: &impl Abort, alloc: Global, field: u32, size: usize) -> Vec<u8> {
    let mut bytes = Vec::new(alloc);
    push_message(&mut bytes, field, size).expect(rt, "there is memory");
    bytes
}

/// The source answers so, and a message is the bytes of its size.
fn expect_answer(
    rt: &impl Abort,
    alloc: Global,
    source: &mut StreamSource<MemoryBytes>,
    buffer: &mut [u8],
    answer: &Answer,
)
    requires { length buffer.old ≡ BUFFER_SIZE }
    ensures { length buffer.new ≡ BUFFER_SIZE }
{
    let (field, answer) = answer;
    expect_same(rt, &source.receive(buffer), answer);
    if let Message(size) = answer {
        let message = message(rt, alloc, *field, *size);
        expect_same(rt, &buffer.get(..*size), &Some(message.as_slice()));
    }
}

/// Messages whose bytes stand on a stream: one says that it is shorter than a header, one is longer than the others, and
/// the last ends where the stream does.
const MESSAGES: &[Answer] = &[
    (48, Message(48)),
    (39, Message(40)),
    (1000, Message(1000)),
    (64, Message(50)),
    (0, Gone),
];

/// The bytes of the messages, joined.
fn joined(alloc: Global, answers: &[Answer]) -> Result<Vec<u8>, AllocError> {
    let mut bytes = Vec::new(alloc);
    for (field, answer) in answers {
        if let Message(size) = answer {
            push_message(&mut bytes, *field, *size)?;
        }
    }
    Ok(bytes)
}

/// What three calls of a source give.
fn three_answers(source: &mut StreamSource<MemoryBytes>, buffer: &mut [u8]) -> [Received; 3]
    requires { length buffer.old ≡ BUFFER_SIZE }
    ensures { length buffer.new ≡ BUFFER_SIZE }
{
    [
        source.receive(buffer),
        source.receive(buffer),
        source.receive(buffer),
    ]
}

/// The length field that a stream begins with, how many bytes it has, which read fails, counted from 1, and what it
/// gives. Each read gives all that is asked for.
type Stream = (u32, usize, u64, &'static [Received]);

/// So many bytes: a length field, and zero bytes behind it.
fn plain(rt: &impl Abort, alloc: Global, field: u32, size: usize) -> Vec<u8> {
    let mut bytes = Vec::from_slice(alloc, &field.to_le_bytes()).expect(rt, "there is memory");
    bytes.resize(size, 0).expect(rt, "there is memory");
    bytes
}

/// A stream that stands so gives these answers.
fn expect_read(rt: &impl Abort, alloc: Global, buffer: &mut [u8], stream: &Stream)
    requires { length buffer.old ≡ BUFFER_SIZE }
    ensures { length buffer.new ≡ BUFFER_SIZE }
{
    let (field, size, call, answers) = stream;
    let faults = Vec::from_slice(alloc, &[*call]).expect(rt, "there is memory");
    let bytes = plain(rt, alloc, *field, *size);
    let mut source = StreamSource::new(MemoryBytes::new(bytes, usize::MAX, faults));
    let found = three_answers(&mut source, buffer);
    drop(source.into_inner());
    expect_same(
        rt,
        &(*field, *call, found.as_slice()),
        &(*field, *call, *answers),
    );
}

/// Streams that end, or whose read fails. A message is two reads, however long it is, and what the buffer can't hold is
/// cut off and stands on the stream as what comes next.
const STREAMS: &[Stream] = &[
    (48, 48, 1, &[Failed, Message(48), Gone]),
    (48, 48, 2, &[Failed, Message(8), Gone]),
    (48, 48, 3, &[Message(48), Failed, Gone]),
    (48, 48, 4, &[Message(48), Gone, Failed]),
    (100_000, 100_000, 3, &[Message(100_000), Failed, Gone]),
    (
        u32::MAX,
        16_781_313,
        0,
        &[Message(16_781_312), Message(1), Gone],
    ),
];

#[test]
fn a_stream_is_cut_into_messages(rt: HostRuntime) -> Result<(), NoMemory> {
    let mut room = receive_buffer(rt.alloc())?;
    let buffer = room.as_mut_slice();
    let bytes = joined(rt.alloc(), MESSAGES)?;
    let mut source = StreamSource::new(MemoryBytes::new(bytes, 7, Vec::new(rt.alloc())));
    for answer in MESSAGES {
        expect_answer(&rt, rt.alloc(), &mut source, buffer, answer);
    }
    drop(source.into_inner());
    Ok(())
}

#[test]
fn a_stream_ends_or_fails_where_it_is_to(rt: HostRuntime) -> Result<(), NoMemory> {
    let mut room = receive_buffer(rt.alloc())?;
    let buffer = room.as_mut_slice();
    for stream in STREAMS {
        expect_read(&rt, rt.alloc(), buffer, stream);
    }
    Ok(())
}

#[test]
fn a_receive_buffer_is_of_zero_bytes_and_takes_no_more(rt: HostRuntime) -> Result<(), NoMemory> {
    let room = receive_buffer(rt.alloc())?;
    let others = room.iter().filter(|byte| **byte != 0).count();
    let found = (room.len(), room.capacity(), others);
    expect_same(&rt, &found, &(16_781_312, 16_781_312, 0));
    Ok(())
}
