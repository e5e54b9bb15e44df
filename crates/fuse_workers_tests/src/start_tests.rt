// Runs whose threads can't all be started.
use crate::asserts::expect_same;
use crate::devices::new_counter;
use crate::frames::replied_id;
use crate::runs::{Became, are_whole, ended, outcome_of, taking};
use crate::starts::Refusing;
use crate::turns::{Piece, source_of};
use crate::works::{Answering, Hold};
use fuse_wire::Items;
use fuse_workers::{Buffers, RunEnd, run_workers_by};
use std::process::Abort;
use std::sync::Wait;
use std::thread::Threads;

/// How many messages come before DESTROY: more than the line of jobs holds.
const COUNT: u64 = 200;

/// What became of a run, how often its work was called, whether the reply to DESTROY was the last, and how many starts
/// were asked for and not made.
type Done = (Became, u64, bool, (u64, u64));

/// Whether the last frame replies to this id.
fn is_last(frames: &[Items<u8>], id: u64) -> bool {
    match frames.last() {
        Some(frame) => replied_id(frame.as_slice()) == Some(id),
        None => false,
    }
}

/// Runs messages on so many workers, where the start of this number is refused.
fn run_refused<R: Threads + Wait + AllocGlobal + Abort + Sync>(
    rt: &R,
    workers: usize,
    number: u64,
) -> Done {
    let buffers = Buffers::new(rt.alloc()).expect(rt, "there is memory");
    let work = Answering::new(Hold::No, new_counter(rt));
    let source = source_of(rt, &[Piece::Requests(0, COUNT), Piece::Destroy(COUNT)]);
    let sink = taking(rt.alloc());
    let starter = Refusing::new(number);
    let (run, starter) = run_workers_by(rt, starter, &work, source, sink, buffers, workers);
    let RunEnd {
        end,
        transcript,
        source,
        sink,
        buffers,
    } = run;
    drop(source);
    expect_same(rt, &are_whole(buffers), &true);
    let became = outcome_of(rt, &end, transcript, sink.frames());
    let is_last = is_last(sink.frames(), COUNT);
    drop(sink);
    (became, work.calls(), is_last, starter.counts())
}

/// How many workers are asked for, and how many threads that comes to.
const ASKED: &[(usize, u64)] = &[(0, 1), (1, 2), (3, 4), (64, 65), (usize::MAX, 65)];

/// On so many workers, which come to so many threads, each message is answered once, whichever start is refused, and none is
/// asked for after it.
fn expect_refused<R: Threads + Wait + AllocGlobal + Abort + Sync>(
    rt: &R,
    workers: usize,
    threads: u64,
    number: u64,
) {
    let done = run_refused(rt, workers, number);
    let all = COUNT.saturating_add(1);
    let starts = (threads.min(number), u64::from(number <= threads));
    let expected = (ended(b'd', all, all), COUNT, true, starts);
    expect_same(rt, &(workers, number, done), &(workers, number, expected));
}

#[test]
fn a_start_that_is_refused_is_the_last(rt: HostRuntime) {
    for (workers, threads) in ASKED {
        for number in [1, 2, 3, 4, 65, 66] {
            expect_refused(&rt, *workers, *threads, number);
        }
    }
}
