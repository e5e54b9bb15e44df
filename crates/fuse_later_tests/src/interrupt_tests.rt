// Requests that are interrupted, in whole sessions.
use crate::asserts::expect_same;
use crate::interrupting::Interrupting;
use crate::serving::{Rest, after_init, serve, source_after_init, taking};
use fuse_request::opcode::{FUSE_INTERRUPT, FUSE_SETLKW};
use fuse_testing::Probing;
use fuse_testing::test_messages::{Asks, Frame, Given, first_other};
use fuse_wire::RequestId;
use std::process::Abort;
use std::sync::Wait;
use std::thread::Threads;

/// The numbers of Linux, in `errno-base.h`.
const EINTR: u8 = 4;

const EAGAIN: u8 = 11;

/// How often an INTERRUPT looks, at most, whether the request that it names waits.
const MOST_TURNS: u64 = 1_000_000;

/// A call for a lock that waits, with the id 2; and an INTERRUPT of it, and of the request 9, with the id 3.
const WAITS: Given = Given::Asked(2, 0, Asks(FUSE_SETLKW, 48, &[], b""));

const INTERRUPTS_IT: Given = Given::Asked(3, 0, Asks(FUSE_INTERRUPT, 8, &[(0, 2)], b""));

const INTERRUPTS_ANOTHER: Given = Given::Asked(3, 0, Asks(FUSE_INTERRUPT, 8, &[(0, 9)], b""));

/// Serves these messages after INIT on so many threads: these frames are sent, and these notes.
fn comes_to<R: Threads + Wait + AllocGlobal + Abort + Copy + Sync + Send>(
    rt: &R,
    served: (Option<usize>, u64),
    given: &[Given],
    frames: &[Frame],
    notes: &[(RequestId, u64)],
) {
    let (n_threads, turns) = served;
    let probe = Interrupting::new(*rt, rt.alloc(), turns);
    let source = source_after_init(rt, given);
    let rest = serve(rt, Probing { probe }, source, taking(rt), n_threads);
    let Rest {
        filesystem,
        sink,
        outcome,
        transcript,
    } = rest;
    let other = first_other(sink.frames(), &after_init(rt, frames), 1);
    let found = (outcome, transcript.lost, other, sink.notes());
    expect_same(rt, &found, &(Ok(()), 0, None, notes));
    drop(sink);
    filesystem.probe.close();
}

#[test]
fn an_interrupt_that_is_honoured_has_no_frame(rt: HostRuntime) {
    comes_to(
        &rt,
        (Some(2), MOST_TURNS),
        &[WAITS, INTERRUPTS_IT],
        &[Frame::Error(2, EINTR)],
        &[(RequestId(3), 2)],
    );
}

#[test]
fn an_interrupt_of_an_unknown_request_comes_again(rt: HostRuntime) {
    for n_threads in [None, Some(2)] {
        comes_to(
            &rt,
            (n_threads, 1),
            &[INTERRUPTS_ANOTHER],
            &[Frame::Error(3, EAGAIN)],
            &[],
        );
    }
}
