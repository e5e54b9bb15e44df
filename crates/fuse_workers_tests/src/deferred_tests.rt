// Runs whose replies come later, by threads of the tests' own.
use crate::asserts::expect_same;
use crate::deferring::{Deferring, Plan, Tally};
use crate::devices::{Counter, Pace, PacedSource, WatchedSink, new_counter, share};
use crate::frames::Said;
use crate::runs::{Became, counts, line_of, outcome_of};
use crate::turns::Piece;
use fuse_line::Line;
use fuse_reply::Parcel;
use fuse_workers::{Buffers, RunEnd, run_workers};
use std::alloc::Global;
use std::process::Abort;
use std::sync::atomic::Ordering;
use std::sync::{Arc, Wait};
use std::thread;
use std::thread::Threads;

/// How many requests the long run puts off.
const MANY: u64 = 40_000;

/// How many of them are answered while it goes on.
const HALF: u64 = MANY / 2;

/// How many are put off where replies race the run's end.
const SOME: u64 = 2_000;

/// An id that no request has.
const NO_ID: u64 = u64::MAX - 1;

/// A run whose replies come later.
#[derive(Clone, Copy)]
struct Setup {
    turns: &'static [Piece],
    plan: Plan,
    workers: usize,
    /// How many threads answer late.
    threads: u64,
    /// When the messages come.
    pace: Pace,
    /// Whether the sink holds its frames back until a late one found the line full.
    is_held_back: bool,
}

/// Each reply is put off, and answered once the run has ended.
const PLAN: Plan = Plan {
    prompt: NO_ID,
    held: NO_ID,
    awaited: 0,
    least: 0,
    quota: 0,
    delay: 0,
};

/// Ten messages, which come at once, on two workers, beside one thread that answers late.
const SETUP: Setup = Setup {
    turns: &[Piece::Requests(0, 10)],
    plan: PLAN,
    workers: 2,
    threads: 1,
    pace: Pace::Free,
    is_held_back: false,
};

/// What becomes of a run once it ended for want of messages: how many were taken, how many ids have their reply, the bits of
/// these where they are known, how many frames are a second reply, how many late frames were queued, and how many came
/// after the end.
type Outcome = (u64, u64, Option<u64>, u64, u64, u64);

const ROWS: &[(Setup, Outcome)] = &[
    // A reply comes later by another thread.
    (
        Setup {
            turns: &[Piece::Requests(2, 4)],
            plan: Plan {
                held: 3,
                awaited: 1,
                quota: 1,
                ..PLAN
            },
            ..SETUP
        },
        (2, 2, Some(0b1100), 0, 1, 0),
    ),
    // Two come under one id, the second of which is counted among the others.
    (
        Setup {
            turns: &[Piece::Requests(2, 3), Piece::Requests(2, 4)],
            plan: Plan {
                held: 3,
                awaited: 2,
                quota: 2,
                ..PLAN
            },
            ..SETUP
        },
        (3, 2, Some(0b1100), 1, 2, 0),
    ),
    // Many come later from four threads. The last message is answered once half of the others were, and only then the run
    // ends.
    (
        Setup {
            turns: &[Piece::Requests(0, MANY + 1)],
            plan: Plan {
                held: MANY,
                awaited: HALF,
                quota: HALF,
                ..PLAN
            },
            threads: 4,
            ..SETUP
        },
        (MANY + 1, HALF + 1, None, 0, HALF, MANY - HALF),
    ),
    // A reply after the end is told how many were taken.
    (
        Setup {
            plan: Plan { prompt: 7, ..PLAN },
            ..SETUP
        },
        (10, 1, Some(0b1000_0000), 0, 0, 9),
    ),
    // A reply that finds the line full is sent again. With no worker the parcels come in order: the first frame, and then
    // 65 marks. Where 65 tokens lie on the shelf, 64 of the marks were pushed behind that frame, which the sender has taken.
    (
        Setup {
            turns: &[Piece::Requests(0, 67)],
            plan: Plan {
                prompt: 0,
                held: 66,
                awaited: 1,
                least: 65,
                quota: 1,
                ..PLAN
            },
            workers: 0,
            is_held_back: true,
            ..SETUP
        },
        (67, 3, None, 0, 1, 64),
    ),
    // A late frame wakes whoever sends: each message comes once the one frame of the one before it was sent, which comes some
    // turns after its mark.
    (
        Setup {
            plan: Plan {
                quota: u64::MAX,
                delay: 200,
                ..PLAN
            },
            pace: Pace::ByFrame,
            ..SETUP
        },
        (10, 10, Some(0x3ff), 0, 10, 0),
    ),
];

/// What becomes of a run, with its line of frames, and whether nobody else has a share of that of jobs.
type Left = (Became, Arc<Line<Parcel>, Global>, bool);

/// What becomes of the run of this work.
fn run_work<R: Threads + Wait + AllocGlobal + Abort + Sync>(
    rt: &R,
    work: &Deferring,
    setup: Setup,
    full: &Counter,
) -> Left {
    let sink = WatchedSink::new(rt, share(rt, full), u64::from(setup.is_held_back));
    let source = PacedSource::new(rt, setup.turns, setup.pace, &sink);
    let buffers = Buffers::new(rt.alloc()).expect(rt, "there is memory");
    let RunEnd {
        end,
        transcript,
        source,
        sink,
        buffers,
    } = run_workers(rt, work, source, sink, buffers, setup.workers);
    drop(source);
    let became = outcome_of(rt, &end, transcript, sink.inner.frames());
    drop(sink);
    let (line, is_alone) = line_of(buffers);
    (became, line, is_alone)
}

/// The same, while the threads answer late.
fn run_beside<R: Threads + Wait + AllocGlobal + Abort + Sync>(
    rt: &R,
    work: &Deferring,
    setup: Setup,
    full: &Counter,
) -> Left {
    thread::scope(thread::scope_env(), rt, |scope| {
        for seed in 1..=setup.threads {
            let _ = scope.spawn(move || work.answer_later(rt, seed));
        }
        let left = run_work(rt, work, setup, full);
        work.end();
        left
    })
}

/// What becomes of a run, and of its late replies, and whether one of these found the line full. Once all were answered
/// nobody else has a share of its lines.
fn run_later<R: Threads + Wait + AllocGlobal + Abort + Sync>(
    rt: &R,
    setup: Setup,
) -> (Became, Tally, bool) {
    let full = new_counter(rt);
    let work = Deferring::new(rt.alloc(), setup.plan, share(rt, &full));
    let (became, line, is_alone) = run_beside(rt, &work, setup, &full);
    let tally = work.finish(rt, became.transcript.received);
    let are_whole = Arc::into_inner(line).is_some() && is_alone;
    expect_same(rt, &(setup.workers, are_whole), &(setup.workers, true));
    (became, tally, full.load(Ordering::SeqCst) > 0)
}

/// This becomes of the run. Where the sink was held back, the line was full.
fn expect_outcome<R: Threads + Wait + AllocGlobal + Abort + Sync>(
    rt: &R,
    setup: Setup,
    outcome: &Outcome,
) {
    let (received, replied, first, other, sent, closed) = *outcome;
    let (mut became, tally, is_full) = run_later(rt, setup);
    if first.is_none() {
        became.said.first = 0;
    }
    let expected = Became {
        end: b'g',
        transcript: counts(received, replied.saturating_add(other), 0),
        said: Said {
            replied,
            first: first.unwrap_or(0),
            other,
        },
    };
    let is_told = true;
    let counted = Tally {
        sent,
        closed,
        is_told,
    };
    let is_as_held = is_full || !setup.is_held_back;
    expect_same(rt, &(became, tally, is_as_held), &(expected, counted, true));
}

#[test]
fn replies_come_later(rt: HostRuntime) {
    for (setup, outcome) in ROWS {
        expect_outcome(&rt, *setup, outcome);
    }
}

#[test]
fn replies_come_while_the_run_ends(rt: HostRuntime) {
    let setup = Setup {
        turns: &[Piece::Requests(0, SOME)],
        plan: Plan {
            quota: u64::MAX,
            ..PLAN
        },
        threads: 4,
        ..SETUP
    };
    let (became, tally, _) = run_later(&rt, setup);
    let Said { replied, other, .. } = became.said;
    let answered = tally.sent.saturating_add(tally.closed);
    // Each of the four threads may have looked for the end before it came, and pushed when none took any more.
    let unsent = tally.sent.saturating_sub(replied);
    let is_sent = replied <= tally.sent && unsent <= 4;
    expect_same(
        &rt,
        &(became.transcript, other, tally.is_told),
        &(counts(SOME, replied, 0), 0, true),
    );
    expect_same(&rt, &(answered, is_sent), &(SOME, true));
}
