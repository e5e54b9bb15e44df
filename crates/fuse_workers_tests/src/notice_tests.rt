// Notices that a work queues while it answers.
ghost use Rattle.fuse_loop.specs.Lines.{IsUnused};

use crate::asserts::expect_same;
use crate::devices::{
    Counter, Pace, PacedSource, WatchedSink, await_count, new_counter, pass_turns,
};
use crate::runs::{Became, ended, outcome_of, run_on, taking};
use crate::telling::Telling;
use crate::turns::{Piece, source_of};
use crate::works::{Answering, Hold};
use fuse_notify::Notifier;
use fuse_wire::{Items, PollHandle, u64_at};
use fuse_workers::{Buffers, RunEnd};
use std::process::Abort;
use std::sync::Wait;
use std::thread;
use std::thread::Threads;

/// The memory of a run, with a notifier of the work's own, where it is to have one.
fn with_notifier<R: AllocGlobal + Abort>(rt: &R, is_own: bool) -> (Buffers, Option<Notifier>)
    ensures { IsUnused result.0 }
{
    let mut buffers = Buffers::new(rt.alloc()).expect(rt, "there is memory");
    if is_own {
        let own = buffers.notifier().expect(rt, "there is memory");
        (buffers, Some(own))
    } else {
        (buffers, None)
    }
}

/// The handle of a notice of a poll, whose code is 1.
fn told_handle(frame: &[u8]) -> Option<u64> {
    if frame.len() == 24 && u64_at(frame, 0) == 0x1_0000_0018 && u64_at(frame, 8) == 0 {
        Some(u64_at(frame, 16))
    } else {
        None
    }
}

/// The handles of the notices among these frames, in order of their numbers.
fn told_handles<R: AllocGlobal + Abort>(rt: &R, frames: &[Items<u8>]) -> Vec<u64> {
    let mut handles = Vec::new(rt.alloc());
    for frame in frames {
        if let Some(handle) = told_handle(frame.as_slice()) {
            handles.push(handle).expect(rt, "there is memory");
        }
    }
    handles.sort_unstable();
    handles
}

/// A run whose work tells polls.
struct Row {
    /// How many messages it has.
    count: u64,
    /// How many polls are told in each answer.
    each: u64,
    /// How many notices are queued at least.
    least: usize,
    /// How many are queued on one thread.
    inline: usize,
}

/// A line has a place for twenty notices and twenty replies at once, and for 64 of 70 notices. On one thread it is emptied
/// after each message.
const ROWS: &[Row] = &[
    Row {
        count: 20,
        each: 1,
        least: 20,
        inline: 20,
    },
    Row {
        count: 100,
        each: 70,
        least: 64,
        inline: 6400,
    },
];

/// What becomes of this run, and how many notices were queued. These are the ones that were sent.
fn run_telling<R: Threads + Wait + AllocGlobal + Abort + Sync>(
    rt: &R,
    workers: Option<usize>,
    row: &Row,
    is_own: bool,
) -> (Became, usize) {
    let (buffers, own) = with_notifier(rt, is_own);
    let work = Telling::new(rt.alloc(), row.each, own);
    let source = source_of(rt, &[Piece::Requests(0, row.count)]);
    let RunEnd {
        end,
        transcript,
        source,
        sink,
        buffers,
    } = run_on(rt, &work, workers, source, taking(rt.alloc()), buffers);
    drop(buffers);
    drop(source);
    let became = outcome_of(rt, &end, transcript, sink.frames());
    let sent = told_handles(rt, sink.frames());
    drop(sink);
    let queued = work.into_queued();
    expect_same(rt, &sent, &queued);
    (became, queued.len())
}

/// In this run enough notices are queued, and each is sent beside the replies.
fn expect_told<R: Threads + Wait + AllocGlobal + Abort + Sync>(
    rt: &R,
    workers: Option<usize>,
    row: &Row,
    is_own: bool,
) {
    let (became, told) = run_telling(rt, workers, row, is_own);
    let is_enough = match workers {
        None => told == row.inline,
        Some(_) => told >= row.least,
    };
    let mut expected = ended(b'g', row.count, row.count);
    expected.said.other = told as u64;
    expect_same(
        rt,
        &(workers, is_enough, became),
        &(workers, true, expected),
    );
}

#[test]
fn each_notice_that_was_queued_is_sent(rt: HostRuntime) {
    for workers in [None, Some(0), Some(1), Some(4), Some(8)] {
        for row in ROWS {
            expect_told(&rt, workers, row, false);
            expect_told(&rt, workers, row, true);
        }
    }
}

/// How many messages a run has that come each after a notice.
const APART: u64 = 5;

/// How many notices it has: one before each message, and one before the source says that none is left.
const TOLD: u64 = APART + 1;

/// Tells so many polls, each once the frames of all notices and messages before it were sent, and some turns later, in which
/// those that wait fall asleep.
fn tell_apart<R: Wait + AllocGlobal>(rt: &R, mut notifier: Notifier, sent: &Counter) {
    for number in 0..TOLD {
        let _ = await_count(sent, number * 2);
        pass_turns(200);
        let _ = notifier.poll(rt, PollHandle(number));
    }
}

/// What becomes of such a run, and how many notices were sent.
fn run_apart<R: Threads + Wait + AllocGlobal + Abort + Sync>(
    rt: &R,
    workers: usize,
) -> (Became, usize) {
    let mut buffers = Buffers::new(rt.alloc()).expect(rt, "there is memory");
    let notifier = buffers.notifier().expect(rt, "there is memory");
    let work = Answering::new(Hold::No, new_counter(rt));
    let sink = WatchedSink::new(rt, new_counter(rt), 0);
    let source = PacedSource::new(rt, &[Piece::Requests(0, APART)], Pace::ByNotice, &sink);
    let sent = sink.sent(rt);
    let RunEnd {
        end,
        transcript,
        source,
        sink,
        buffers,
    } = thread::scope(
        thread::scope_env(),
        rt,
        |scope| -> RunEnd<PacedSource, WatchedSink>
            requires { IsUnused buffers }
        {
            let _ = scope.spawn(|| tell_apart(rt, notifier, &sent));
            run_on(rt, &work, Some(workers), source, sink, buffers)
        },
    );
    drop(buffers);
    drop(source);
    let became = outcome_of(rt, &end, transcript, sink.inner.frames());
    let told = told_handles(rt, sink.inner.frames());
    drop(sink);
    (became, told.len())
}

#[test]
fn a_notice_is_sent_while_no_message_comes(rt: HostRuntime) {
    let mut expected = ended(b'g', APART, APART);
    expected.said.other = TOLD;
    for workers in [1, 4] {
        let found = run_apart(&rt, workers);
        let expected = (expected, TOLD as usize);
        expect_same(&rt, &(workers, found), &(workers, expected));
    }
}
