//! Frames on a stream, and devices in memory.
ghost use Rattle.std.specs.Prelude.{◌≡◌, length};

use crate::asserts::{expect_same, expect_same_in};
use fuse_wire::{
    ByteSink, ByteWrite, MemoryOut, MemorySink, Noting, RequestId, Sending, Sink, StreamSink,
};
use std::alloc::{AllocError, Global};
use std::process::Abort;
use std::test::Fail;

/// What stands on the stream where all of three frames were written.
const FRAMES: &[u8] = &[
    18, 0, 0, 0, 1, 1, 1, 1, 1, 1, 1, 1, 1, 1, 1, 1, 7, 8, 16, 0, 0, 0, 2, 2, 2, 2, 2, 2, 2, 2, 2,
    2, 2, 2, 18, 0, 0, 0, 1, 1, 1, 1, 1, 1, 1, 1, 1, 1, 1, 1, 9, 10,
];

/// How the frame is answered that ends here, where so many bytes are written.
fn sent(end: usize, written: usize) -> Sending {
    if end <= written {
        Sending::Sent
    } else {
        Sending::Failed
    }
}

/// Sends the three frames, and says how each is answered.
#[tactic(auto, unfolding(fuse_wire::specs::Numbers::number))]
fn three_frames(sink: &mut StreamSink<MemoryOut>) -> [Sending; 3] {
    let long = [18, 0, 0, 0, 1, 1, 1, 1, 1, 1, 1, 1, 1, 1, 1, 1];
    let bare = [16, 0, 0, 0, 2, 2, 2, 2, 2, 2, 2, 2, 2, 2, 2, 2];
    [
        sink.send(&long, &[7, 8]),
        sink.send(&bare, &[]),
        sink.send(&long, &[9, 10]),
    ]
}

/// Sends the three frames over a stream that takes so many bytes at once, where this write fails: the frames that end
/// in the bytes before it were sent, each later send is refused, and just these bytes stand on the stream.
fn expect_written(rt: &impl Abort, alloc: Global, step: usize, fault: u64, written: usize) {
    let faults = Vec::from_slice(alloc, &[fault]).expect(rt, "there is memory");
    let mut sink = StreamSink::new(MemoryOut::new(alloc, step.max(1), faults));
    let answers = three_frames(&mut sink);
    let broken = sink.broken();
    let found = sink.into_inner();
    let expected = [sent(18, written), sent(34, written), sent(52, written)];
    expect_same_in(
        rt,
        &(step, fault),
        &(answers, broken, Some(found.bytes())),
        &(expected, written < 52, FRAMES.get(..written)),
    );
}

/// How many bytes a stream takes at once, which write fails, and how many bytes are written before it.
const FAULTS: &[(usize, u64, usize)] = &[
    (1000, 1, 0),
    (1000, 2, 16),
    (1000, 3, 18),
    (1000, 4, 34),
    (1000, 5, 50),
    (1000, 6, 52),
    (7, 2, 7),
    (7, 4, 16),
    (7, 5, 18),
    (7, 9, 41),
    (1, 1, 0),
    (1, 18, 17),
    (1, 52, 51),
    (1, 53, 52),
];

#[test]
fn nothing_is_written_after_a_write_that_failed(rt: HostRuntime) {
    for (step, fault, written) in FAULTS {
        expect_written(&rt, rt.alloc(), *step, *fault, *written);
    }
}

/// How many bytes are written at once where nothing limits them.
const MANY: usize = 100_000;

#[test]
fn a_long_piece_finds_memory(rt: HostRuntime) -> Result<(), AllocError> {
    let piece = vec![in rt.alloc(); 7; MANY]?;
    let mut out = MemoryOut::new(rt.alloc(), usize::MAX, Vec::new(rt.alloc()));
    let found = (out.write(&piece), out.bytes().len(), out.starved());
    expect_same(&rt, &found, &(ByteWrite::Wrote(MANY), MANY, 0));
    Ok(())
}

/// Sends a frame of this payload twice.
#[tactic(auto, unfolding(fuse_wire::specs::Numbers::number))]
fn long_frame_twice<S: Sink>(sink: &mut S, payload: &[u8]) -> [Sending; 2]
    requires { length payload.now ≡ 100_000 }
{
    let header = [0xb0, 0x86, 1, 0, 1, 1, 1, 1, 1, 1, 1, 1, 1, 1, 1, 1];
    [sink.send(&header, payload), sink.send(&header, payload)]
}

#[test]
fn a_long_frame_finds_memory_and_is_two_writes(rt: HostRuntime) -> Result<(), AllocError> {
    let payload = vec![in rt.alloc(); 7; MANY]?;
    let mut kept = MemorySink::new(rt.alloc(), Vec::new(rt.alloc()));
    let answers = long_frame_twice(&mut kept, &payload);
    let noted = kept.note(RequestId(9), 1);
    let found = (answers, noted, kept.starved());
    expect_same(&rt, &found, &([Sending::Sent; 2], Noting::Sent, 0));
    let faults = Vec::from_slice(rt.alloc(), &[3])?;
    let mut sink = StreamSink::new(MemoryOut::new(rt.alloc(), usize::MAX, faults));
    let answers = long_frame_twice(&mut sink, &payload);
    let written = sink.into_inner();
    let found = (answers, written.bytes().len());
    expect_same(&rt, &found, &([Sending::Sent, Sending::Failed], 100_016));
    Ok(())
}

/// It shows nothing of its stream.
#[test]
fn a_stream_sink_shows_how_it_stands(rt: HostRuntime) -> Result<(), Fail> {
    let faults = Vec::from_slice(rt.alloc(), &[1])?;
    let mut sink = StreamSink::new(MemoryOut::new(rt.alloc(), 7, faults));
    let before = format!(in rt.alloc(); "{sink:?}")?;
    three_frames(&mut sink);
    let after = format!(in rt.alloc(); "{sink:?}")?;
    expect_same(&rt, &before.as_str(), &"StreamSink { broken: false, .. }");
    expect_same(&rt, &after.as_str(), &"StreamSink { broken: true, .. }");
    Ok(())
}
