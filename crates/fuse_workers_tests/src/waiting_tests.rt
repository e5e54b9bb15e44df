// Runs in which messages wait for frames, or frames for calls.
use crate::asserts::expect_same;
use crate::devices::{Pace, PacedSource, WatchedSink, new_counter, share};
use crate::frames::replied_id;
use crate::runs::{WORKERS, ended, outcome_of, run_on};
use crate::turns::Piece;
use crate::works::{Answering, Hold};
use fuse_wire::Items;
use fuse_workers::{Buffers, RunEnd};
use std::process::Abort;
use std::sync::Wait;
use std::thread::Threads;

/// Whether these frames are empty replies to the ids from 0 on, in order.
fn are_in_order(frames: &[Items<u8>]) -> bool {
    let mut id: u64 = 0;
    for frame in frames {
        if replied_id(frame.as_slice()) != Some(id) {
            return false;
        }
        id = id.saturating_add(1);
    }
    true
}

/// Each of so many messages, which come at this pace, has one call and one frame. Each answer is held so, and the first
/// frame is held back until so many calls have begun. Says whether the frames are in their order.
fn expect_all<R: Threads + Wait + AllocGlobal + Abort + Sync>(
    rt: &R,
    workers: Option<usize>,
    count: u64,
    pace: Pace,
    hold: Hold,
    begun: u64,
) -> bool {
    let buffers = Buffers::new(rt.alloc()).expect(rt, "there is memory");
    let calls = new_counter(rt);
    let work = Answering::new(hold, share(rt, &calls));
    let sink = WatchedSink::new(rt, calls, begun);
    let source = PacedSource::new(rt, &[Piece::Requests(0, count)], pace, &sink);
    let RunEnd {
        end,
        transcript,
        source,
        sink,
        buffers,
    } = run_on(rt, &work, workers, source, sink, buffers);
    drop(buffers);
    drop(source);
    let became = outcome_of(rt, &end, transcript, sink.inner.frames());
    let are_in_order = are_in_order(sink.inner.frames());
    drop(sink);
    let found = (workers, became, work.calls());
    expect_same(rt, &found, &(workers, ended(b'g', count, count), count));
    are_in_order
}

#[test]
fn a_message_is_answered_before_the_next_one_comes(rt: HostRuntime) {
    for workers in WORKERS {
        let in_order = expect_all(&rt, *workers, 1000, Pace::ByFrame, Hold::No, 0);
        expect_same(&rt, &(*workers, in_order), &(*workers, true));
    }
}

/// How many messages a run takes: more than both lines hold.
const MANY: u64 = 200;

/// How many calls begin while the first frame is held back. The sender has that frame, 64 are in the line, and each of two
/// workers and the caller waits with one.
const WHILE_FULL: u64 = 68;

#[test]
fn the_caller_answers_where_the_line_of_jobs_is_full(rt: HostRuntime) {
    let _ = expect_all(&rt, Some(2), MANY, Pace::Free, Hold::UntilCalled(3), 0);
}

#[test]
fn all_wait_for_the_sender_where_the_line_of_frames_is_full(rt: HostRuntime) {
    let _ = expect_all(&rt, Some(2), MANY, Pace::Free, Hold::No, WHILE_FULL);
}
