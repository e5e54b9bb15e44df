// Lookups that are answered after their methods have returned, in whole sessions.
use crate::asserts::expect_same;
use crate::deferring::{Deferring, HELD, LAST, SOON, Shelf, Tally, close, shared_shelf};
use crate::serving::{Rest, after_init, counts, everybody, rest_of, source_after_init, taking};
use fuse_config::Config;
use fuse_session::{Ended, Filesystem, Session, SessionError, Transcript, mount};
use fuse_testing::Probing;
use fuse_testing::test_messages::{ENOENT, ENOSYS, Frame, GETATTR, Given, first_other};
use fuse_wire::{Items, MemorySink, MemorySource, u64_at};
use std::alloc::{AllocGlobal, Global};
use std::process::Abort;
use std::sync::{Arc, Wait};
use std::thread;
use std::thread::Threads;

/// By which calls a session is served.
#[derive(Clone, Copy)]
enum Way {
    Mount,
    NewAndRun,
}

/// How a session is served, and when its late frames come.
#[derive(Clone, Copy)]
struct Setup {
    way: Way,
    n_threads: usize,
    /// How many late frames are awaited by a lookup that is held.
    awaited: u64,
    /// How many lookups are held before the first late frame comes.
    least_held: u64,
    /// How many threads of the test's own answer the lookups that are put off.
    threads: u64,
}

/// A session, and what comes of it.
struct Row {
    setup: Setup,
    /// What it is sent after INIT.
    given: &'static [Given],
    /// What is sent after the reply to INIT, in some order, and on one thread in this one.
    frames: &'static [Frame],
    tally: Tally,
}

const BASE: Setup = Setup {
    way: Way::Mount,
    n_threads: 2,
    awaited: 1,
    least_held: 0,
    threads: 1,
};

const NONE: Tally = Tally {
    sent: 0,
    shut: 0,
    closed: 0,
    taken: 0,
};

const ROWS: &[Row] = &[
    // A lookup is answered by another thread.
    Row {
        setup: BASE,
        given: &[Given::Lookup(2, SOON), Given::Lookup(3, HELD)],
        frames: &[Frame::Error(2, ENOENT), Frame::Error(3, ENOENT)],
        tally: Tally { sent: 1, ..NONE },
    },
    // Two lookups under one id are answered later.
    Row {
        setup: Setup {
            way: Way::NewAndRun,
            awaited: 2,
            ..BASE
        },
        given: &[
            Given::Lookup(2, SOON),
            Given::Lookup(2, SOON),
            Given::Lookup(3, HELD),
        ],
        frames: &[
            Frame::Error(2, ENOENT),
            Frame::Error(2, ENOENT),
            Frame::Error(3, ENOENT),
        ],
        tally: Tally { sent: 2, ..NONE },
    },
    // One thread puts no lookup off.
    Row {
        setup: Setup {
            n_threads: 1,
            awaited: 0,
            ..BASE
        },
        given: &[
            Given::Lookup(2, SOON),
            Given::Lookup(3, LAST),
            Given::Lookup(4, HELD),
        ],
        frames: &[
            Frame::Error(2, ENOENT),
            Frame::Error(3, ENOENT),
            Frame::Error(4, ENOENT),
        ],
        tally: Tally { shut: 2, ..NONE },
    },
    // A lookup after the end is told how many were taken. Once both threads hold a lookup, the methods of the others have
    // returned.
    Row {
        setup: Setup {
            way: Way::NewAndRun,
            least_held: 2,
            ..BASE
        },
        given: &[
            Given::Lookup(2, SOON),
            Given::Lookup(3, LAST),
            Given::Lookup(4, HELD),
            Given::Lookup(5, HELD),
        ],
        frames: &[
            Frame::Error(2, ENOENT),
            Frame::Error(4, ENOENT),
            Frame::Error(5, ENOENT),
        ],
        tally: Tally {
            sent: 1,
            shut: 0,
            closed: 1,
            taken: 4,
        },
    },
    // What is answered at once keeps its frame.
    Row {
        setup: Setup { awaited: 2, ..BASE },
        given: &[
            Given::Lookup(2, SOON),
            Given::Asked(3, 0, GETATTR),
            Given::Lookup(4, SOON),
            Given::Lookup(5, HELD),
        ],
        frames: &[
            Frame::Error(2, ENOENT),
            Frame::Error(3, ENOSYS),
            Frame::Error(4, ENOENT),
            Frame::Error(5, ENOENT),
        ],
        tally: Tally { sent: 2, ..NONE },
    },
];

/// Serves the filesystem in this way, over pages of 4096 bytes.
fn serve_by<R: Threads + Wait + AllocGlobal + Sync, FS: Filesystem>(
    rt: &R,
    way: Way,
    filesystem: FS,
    source: MemorySource,
    sink: MemorySink,
    config: &Config,
) -> Ended<FS, MemorySource, MemorySink> {
    match way {
        Way::Mount => mount(rt, filesystem, source, sink, 0, 4096, config),
        Way::NewAndRun => match Session::new(rt, filesystem, source, sink, 0, 4096, config) {
            Ok(session) => session.run(rt),
            Err(ended) => ended,
        },
    }
}

/// How a session ended, what it did, and the sink.
type Ran = (Result<(), SessionError>, Transcript, MemorySink);

/// Serves a filesystem that has a share of the shelf.
fn serve_from<R: Threads + Wait + AllocGlobal + Abort + Send + Sync + Copy>(
    rt: &R,
    setup: Setup,
    given: &[Given],
    shelf: &Arc<Shelf, Global>,
) -> Ran {
    let shelf = Arc::try_clone(shelf).expect(rt, "there is memory");
    let probe = Deferring { rt: *rt, shelf };
    let source = source_after_init(rt, given);
    let config = everybody(rt.alloc(), Some(setup.n_threads));
    let Rest {
        filesystem: Probing { probe },
        sink,
        outcome,
        transcript,
    } = rest_of(serve_by(
        rt,
        setup.way,
        Probing { probe },
        source,
        taking(rt),
        &config,
    ));
    let Deferring { rt: _, shelf } = probe;
    let _ = close(rt, shelf);
    (outcome, transcript, sink)
}

/// The same, while threads of the test's own answer the lookups that are put off.
fn serve_beside<R: Threads + Wait + AllocGlobal + Abort + Send + Sync + Copy>(
    rt: &R,
    setup: Setup,
    given: &[Given],
    shelf: &Arc<Shelf, Global>,
) -> Ran {
    thread::scope(thread::scope_env(), rt, |scope| {
        for seed in 1..=setup.threads {
            let _ = scope.spawn(move || shelf.answer_later(rt, seed));
        }
        let ran = serve_from(rt, setup, given, shelf);
        shelf.end();
        ran
    })
}

/// Serves this. What is left of the lookups that are put off is answered after that, and this became of them all.
fn serve<R: Threads + Wait + AllocGlobal + Abort + Send + Sync + Copy>(
    rt: &R,
    setup: Setup,
    given: &[Given],
) -> (Ran, Option<Tally>) {
    let shelf = shared_shelf(rt, rt.alloc(), setup.awaited, setup.least_held);
    let shelf = shelf.expect(rt, "there is memory");
    let ran = serve_beside(rt, setup, given, &shelf);
    (ran, close(rt, shelf))
}

/// The session of a row ends well, takes its messages, and sends just its frames.
fn expect_row<R: Threads + Wait + AllocGlobal + Abort + Send + Sync + Copy>(rt: &R, row: &Row) {
    let ((outcome, transcript, sink), tally) = serve(rt, row.setup, row.given);
    let frames = after_init(rt, row.frames);
    let ordered = if row.setup.n_threads == 1 {
        frames.len()
    } else {
        1
    };
    let other = first_other(sink.frames(), &frames, ordered);
    drop(sink);
    let received = (row.given.len() as u64).saturating_add(1);
    expect_same(rt, &transcript, &counts(received, frames.len() as u64));
    expect_same(
        rt,
        &(outcome, other, tally),
        &(Ok(()), None, Some(row.tally)),
    );
}

#[test]
fn lookups_are_answered_later(rt: HostRuntime) {
    for row in ROWS {
        expect_row(&rt, row);
    }
}

/// How many lookups the long session puts off.
const MANY: u64 = 100_000;

/// The long session: lookups that are put off, and one that is held until they are answered.
const LONG: Setup = Setup {
    awaited: MANY,
    threads: 4,
    ..BASE
};

/// What it is sent.
fn many_lookups<R: AllocGlobal + Abort>(rt: &R) -> Vec<Given> {
    let mut given = Vec::new(rt.alloc());
    for id in 0..=MANY {
        let name = if id < MANY { SOON } else { HELD };
        let lookup = Given::Lookup(id, name);
        given.push(lookup).expect(rt, "there is memory");
    }
    given
}

/// The id of a request, where the frame answers it by ENOENT.
fn refused_id(frame: &[u8]) -> Option<u64> {
    if frame.len() == 16 && u64_at(frame, 0) == 0xffff_fffe_0000_0010 {
        Some(u64_at(frame, 8))
    } else {
        None
    }
}

/// Whether this is the first frame that refuses an id, which is noted.
fn is_first_refusal(is_refused: &mut [bool], frame: &[u8]) -> bool {
    let Some(id) = refused_id(frame) else {
        return false;
    };
    let Some(is_refused) = is_refused.get_mut(id as usize) else {
        return false;
    };
    !std::mem::replace(is_refused, true)
}

/// How many ids below a number these frames answer by ENOENT, and how many of the frames are another reply or a second one.
fn refusals<R: AllocGlobal + Abort>(rt: &R, frames: &[Items<u8>], ids: u64) -> (u64, u64) {
    let is_refused = vec![in rt.alloc(); false; ids as usize];
    let mut is_refused = is_refused.expect(rt, "there is memory");
    let (mut refused, mut other): (u64, u64) = (0, 0);
    for frame in frames {
        if is_first_refusal(&mut is_refused, frame.as_slice()) {
            refused = refused.saturating_add(1);
        } else {
            other = other.saturating_add(1);
        }
    }
    (refused, other)
}

#[test]
fn many_lookups_are_answered_by_four_threads(rt: HostRuntime) {
    let ((outcome, transcript, sink), tally) = serve(&rt, LONG, &many_lookups(&rt));
    let refused = refusals(&rt, sink.frames(), MANY + 1);
    drop(sink);
    // All but the handshake's reply.
    let queued = Tally { sent: MANY, ..NONE };
    expect_same(&rt, &(refused, tally), &((MANY + 1, 1), Some(queued)));
    expect_same(
        &rt,
        &(outcome, transcript),
        &(Ok(()), counts(MANY + 2, MANY + 2)),
    );
}
