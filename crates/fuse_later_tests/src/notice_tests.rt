// Notices, which are sent after the frame of the message that was answered last.
use crate::asserts::expect_same;
use crate::serving::{after_init, counts, serve, source_after_init, taking};
use crate::telling::Telling;
use fuse_session::{SessionError, Transcript};
use fuse_testing::Probing;
use fuse_testing::test_messages::{ENOENT, Frame, GETATTR, Given, first_other};
use fuse_wire::{MemorySink, Sending};
use std::process::Abort;
use std::sync::Wait;
use std::thread::Threads;

/// How many notices the line of a session holds.
const PLACES: u8 = 64;

/// That a file is ready for reading: `struct fuse_poll_out` with `POLLIN` of `poll.h`.
const READY: &[u8] = &[1, 0, 0, 0, 0, 0, 0, 0];

/// What a session is sent, and what it takes and sends after INIT and its reply.
struct Row {
    given: &'static [Given],
    frames: &'static [Frame],
    received: u64,
    /// How many replies are taken.
    replies: u64,
    /// How many are not.
    lost: u64,
}

const ROWS: &[Row] = &[
    // A poll that is told at once is answered before its notice, also one of the root.
    Row {
        given: &[
            Given::Poll(2, 2, [0x21, 0x43], 0),
            Given::Poll(3, 1, [0x65, 0], 0),
        ],
        frames: &[
            Frame::Payload(2, READY),
            Frame::News([0x21, 0x43]),
            Frame::Payload(3, READY),
            Frame::News([0x65, 0]),
        ],
        received: 3,
        replies: 3,
        lost: 0,
    },
    // A poll is told once there is news.
    Row {
        given: &[
            Given::Poll(2, 2, [7, 0], 1),
            Given::Asked(3, 0, GETATTR),
            Given::Asked(4, 0, GETATTR),
        ],
        frames: &[
            Frame::Payload(2, READY),
            Frame::Error(3, ENOENT),
            Frame::News([7, 0]),
            Frame::Error(4, ENOENT),
        ],
        received: 4,
        replies: 4,
        lost: 0,
    },
];

/// A notice that is not taken is counted nowhere. The sends are the reply to INIT, and then a reply and its notice for each
/// poll, of which the third, fifth and sixth are not taken.
const REFUSED: &Row = &Row {
    given: &[
        Given::Poll(2, 2, [7, 0], 0),
        Given::Poll(3, 2, [8, 0], 0),
        Given::Poll(4, 2, [9, 0], 0),
    ],
    frames: &[
        Frame::Payload(2, READY),
        Frame::Payload(3, READY),
        Frame::News([9, 0]),
    ],
    received: 4,
    replies: 3,
    lost: 1,
};

/// How a session ended, what it counted, how many polls wait, and the first place at which its frames are others.
type Found = (Result<(), SessionError>, Transcript, usize, Option<usize>);

/// What comes of a session of these messages, whose frames are to be these.
fn run_polls<R: Threads + Wait + AllocGlobal + Abort + Send + Sync + Copy>(
    rt: &R,
    given: &[Given],
    frames: &[Frame],
    sink: MemorySink,
) -> Found {
    let frames = after_init(rt, frames);
    let probe = Telling::new(*rt, rt.alloc(), None);
    let source = source_after_init(rt, given);
    let rest = serve(rt, Probing { probe }, source, sink, None);
    let found = (
        rest.outcome,
        rest.transcript,
        rest.filesystem.probe.waiting(),
        first_other(rest.sink.frames(), &frames, frames.len()),
    );
    drop(rest);
    found
}

/// A session comes to what its row says, and leaves no poll waiting.
fn expect_row<R: Threads + Wait + AllocGlobal + Abort + Send + Sync + Copy>(
    rt: &R,
    row: &Row,
    sink: MemorySink,
) {
    let mut expected = counts(row.received, row.replies);
    expected.lost = row.lost;
    let found = run_polls(rt, row.given, row.frames, sink);
    expect_same(rt, &found, &(Ok(()), expected, 0, None));
}

#[test]
fn a_poll_is_answered_before_its_notice(rt: HostRuntime) {
    for row in ROWS {
        expect_row(&rt, row, taking(&rt));
    }
}

/// A sink that does not take its third, fifth and sixth frame.
fn refusing<R: AllocGlobal + Abort>(rt: &R) -> MemorySink {
    let faults = [
        (3, Sending::Absent),
        (5, Sending::Failed),
        (6, Sending::Failed),
    ];
    let faults = faults.to_vec(rt.alloc()).expect(rt, "there is memory");
    MemorySink::new(rt.alloc(), faults)
}

#[test]
fn a_notice_that_is_not_taken_is_counted_nowhere(rt: HostRuntime) {
    expect_row(&rt, REFUSED, refusing(&rt));
}

/// Puts a frame behind the others.
fn put<R: Abort>(rt: &R, frames: &mut Vec<Frame>, frame: Frame) {
    frames.push(frame).expect(rt, "there is memory");
}

/// What is sent for one poll more than there are places, and two GETATTRs: the replies to the polls; the reply to a
/// GETATTR, and the notices for which there are places; the reply to the other one, and the notice that is left.
fn many_frames<R: AllocGlobal + Abort>(rt: &R) -> Vec<Frame> {
    let mut frames = Vec::new(rt.alloc());
    for _ in 0..=PLACES {
        put(rt, &mut frames, Frame::Payload(2, READY));
    }
    put(rt, &mut frames, Frame::Error(3, ENOENT));
    for place in 0..PLACES {
        // The filesystem tells of the newest poll first.
        put(rt, &mut frames, Frame::News([PLACES - place, 0]));
    }
    put(rt, &mut frames, Frame::Error(3, ENOENT));
    put(rt, &mut frames, Frame::News([0, 0]));
    frames
}

#[test]
fn a_notice_for_which_there_is_no_place_waits(rt: HostRuntime) {
    let mut given = Vec::new(rt.alloc());
    for handle in 0..=PLACES {
        let poll = Given::Poll(2, 2, [handle, 0], 1);
        given.push(poll).expect(&rt, "there is memory");
    }
    for _ in 0..2 {
        let getattr = Given::Asked(3, 0, GETATTR);
        given.push(getattr).expect(&rt, "there is memory");
    }
    let frames = many_frames(&rt);
    let found = run_polls(&rt, &given, &frames, taking(&rt));
    expect_same(&rt, &found, &(Ok(()), counts(68, 68), 0, None));
}
