// Whoever waits for the one lock is interrupted, by a kernel that asks until it is.
ghost use Rattle.std.specs.Prelude.{None};

use crate::asserts::expect_same;
use crate::lock_tests::{
    EAGAIN, GIVEN_UP, INTERRUPT, OTHER_WAITS, OTHER_WRITES, SETLK, TAKEN, THIRD_WRITES,
    serves_alone, serves_from_free, times_sent,
};
use crate::rows::{NOTHING, OPENING, Row, message};
use fuse_config::{Config, SessionACL};
use fuse_session::mount;
use fuse_wire::{
    Items, MemorySink, MemorySource, Noting, Received, RequestId, Sending, Sink, Source, Turn,
    u64_at,
};
use locks::OneLock;
use std::process::Abort;
use std::sync::Wait;
use std::sync::atomic::{AtomicBool, AtomicU64, Ordering};
use std::thread;
use std::thread::Threads;

/// How often an INTERRUPT is sent at most, and how often is looked, at most, whether it was answered.
const MOST_SENT: usize = 1_000;

const MOST_TURNS: u64 = 1_000_000;

/// The id of each INTERRUPT, which names the request 2.
const ID: u64 = 3;

const INTERRUPTS: Row<'static> = (INTERRUPT, 0, (&[2], b""), EAGAIN, NOTHING);

/// Linux's EINTR, of `errno-base.h`.
const EINTR: u8 = 4;

/// What came of the INTERRUPTs.
#[derive(Drop)]
struct Heard {
    /// How many were answered.
    answers: AtomicU64,
    is_honoured: AtomicBool,
}

impl Heard {
    /// So many were answered, or none is answered in time.
    fn awaits(&self, answers: u64) {
        for _turn in 0..MOST_TURNS {
            if self.answers.load(Ordering::SeqCst) >= answers {
                return;
            }
            thread::yield_now();
        }
    }
}

/// A source that gives an INTERRUPT once the one before was answered, until one is honoured, and tells nothing.
#[derive(Drop)]
struct Kernel<'a> {
    heard: &'a Heard,
    /// INIT, the request 2, and the INTERRUPTs.
    inner: MemorySource,
    given: u64,
    faults: u64,
}

impl Source for Kernel<'_> {
    ghost told = { λ s. record { turns = None; faults = s.faults } };

    fn receive(&mut self, buffer: &mut [u8]) -> Received {
        self.heard.awaits(self.given.saturating_sub(2));
        if self.heard.is_honoured.load(Ordering::SeqCst) {
            return Received::Gone;
        }
        match self.inner.receive(buffer) {
            Received::Message(count) => {
                self.given = self.given.saturating_add(1);
                Received::Message(count)
            }
            Received::Gone => Received::Gone,
            Received::Retry => Received::Retry,
            Received::Failed => {
                self.faults = self.faults.saturating_add(1);
                Received::Failed
            }
        }
    }
}

/// A sink that keeps what it is handed, hears what came of the INTERRUPTs, and tells nothing.
#[derive(Drop)]
struct Hearing<'a> {
    heard: &'a Heard,
    inner: MemorySink,
}

impl Sink for Hearing<'_> {
    ghost told = { λ s. record {
      frames = None;
      notes = None;
      tail = None;
      faults = 0;
      absences = 0;
      origin = record { bytes = None; faults = 0 };
    } };

    fn send(&mut self, header: &[u8; 16], payload: &[u8]) -> Sending {
        let _ = self.inner.send(header, payload);
        if u64_at(header, 8) == ID {
            self.heard.answers.fetch_add(1, Ordering::SeqCst);
        }
        Sending::Sent
    }

    fn note(&mut self, id: RequestId, mark: u64) -> Noting {
        let _ = self.inner.note(id, mark);
        if id.0 == ID {
            self.heard.is_honoured.store(true, Ordering::SeqCst);
            self.heard.answers.fetch_add(1, Ordering::SeqCst);
        }
        Noting::Sent
    }
}

/// Puts the message of this row at the end.
fn put_turn<R: AllocGlobal + Abort>(rt: &R, turns: &mut Vec<Turn>, id: u64, row: &Row) {
    let turn = Turn::Message(Items::from_vec(message(rt, rt.alloc(), id, row)));
    turns.push(turn).expect(rt, "there is memory");
}

/// A kernel that sends INIT, has the other wait for the lock, and interrupts it.
fn asking_kernel<'a, R: AllocGlobal + Abort>(rt: &R, heard: &'a Heard) -> Kernel<'a> {
    let mut turns = Vec::new(rt.alloc());
    put_turn(rt, &mut turns, 1, &OPENING);
    put_turn(rt, &mut turns, 2, &OTHER_WAITS);
    for _ in 0..MOST_SENT {
        put_turn(rt, &mut turns, ID, &INTERRUPTS);
    }
    Kernel {
        heard,
        inner: MemorySource::new(turns),
        given: 0,
        faults: 0,
    }
}

/// The request 2 was interrupted, and has its one frame, and the INTERRUPT that was honoured its note. Each before it was told
/// to come again.
fn was_interrupted<R: AllocGlobal + Abort>(rt: &R, sink: &MemorySink) {
    let sent = sink.frames();
    let (opcode, node, body, _, _) = OTHER_WAITS;
    let interrupted = (opcode, node, body, EINTR, NOTHING);
    let times = [
        times_sent(rt, sent, 1, &OPENING),
        times_sent(rt, sent, 2, &interrupted),
    ];
    expect_same(rt, &times, &[1, 1]);
    let again = times_sent(rt, sent, ID, &INTERRUPTS);
    expect_same(rt, &again.saturating_add(2), &sent.len());
    let note = (RequestId(ID), 2);
    expect_same(rt, &sink.notes(), &[note].as_slice());
}

/// Serves that kernel on two threads.
fn interrupts<R: Threads + Wait + AllocGlobal + Abort + Copy + Sync + Send>(
    rt: R,
    lock: OneLock<R>,
) -> OneLock<R> {
    let heard = Heard {
        answers: AtomicU64::new(0),
        is_honoured: AtomicBool::new(false),
    };
    let inner = MemorySink::new(rt.alloc(), Vec::new(rt.alloc()));
    let sink = Hearing {
        heard: &heard,
        inner,
    };
    let mut config = Config::new(rt.alloc());
    config.acl = SessionACL::All;
    config.n_threads = Some(2);
    let over = mount(
        &rt,
        lock,
        asking_kernel(&rt, &heard),
        sink,
        0,
        4096,
        &config,
    );
    expect_same(&rt, &(over.outcome, over.transcript.lost), &(Ok(()), 0));
    was_interrupted(&rt, &over.sink.inner);
    over.filesystem
}

#[test]
fn whoever_waits_for_the_lock_is_interrupted(rt: HostRuntime) {
    let lock = interrupts(rt, serves_from_free(rt, TAKEN));
    serves_alone(&rt, lock, THIRD_TAKES_IT).close();
}

/// The one gives the lock up, and the other, which was interrupted, does not wait for it.
const THIRD_TAKES_IT: &[Row] = &[
    OPENING,
    GIVEN_UP,
    (SETLK, 1, THIRD_WRITES, 0, NOTHING),
    (SETLK, 1, OTHER_WRITES, EAGAIN, NOTHING),
];
