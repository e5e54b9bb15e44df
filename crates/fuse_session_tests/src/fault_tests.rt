// Sessions whose sink refuses a note, and sessions that want memory.
ghost use Rattle.std.specs.Prelude.{None};

use crate::asserts::{expect_same, source_of};
use crate::counting::{Counting, run};
use crate::rows::serve;
use fuse_config::{Config, SessionACL};
use fuse_session::{SessionError, Transcript};
use fuse_testing::test_messages::{FORGET, Given};
use fuse_wire::{MemorySink, Noting, RequestId, Sending, Sink};
use std::process::Abort;
use std::sync::Wait;
use std::thread::Threads;

/// A sink that refuses its first note, and tells nothing.
#[derive(Drop)]
struct RefusingOnce {
    inner: MemorySink,
    faults: u64,
}

impl Sink for RefusingOnce {
    ghost told = { λ s. record {
      frames = None;
      notes = None;
      tail = None;
      faults = s.faults;
      absences = 0;
      origin = record { bytes = None; faults = 0 };
    } };

    fn send(&mut self, header: &[u8; 16], payload: &[u8]) -> Sending {
        match self.inner.send(header, payload) {
            Sending::Sent => Sending::Sent,
            Sending::Absent | Sending::Failed => {
                self.faults = self.faults.saturating_add(1);
                Sending::Failed
            }
        }
    }

    fn note(&mut self, id: RequestId, mark: u64) -> Noting {
        if self.faults > 0 {
            if let Noting::Sent = self.inner.note(id, mark) {
                return Noting::Sent;
            }
        }
        self.faults = self.faults.saturating_add(1);
        Noting::Failed
    }
}

#[test]
fn a_note_that_is_refused_is_lost(rt: HostRuntime) {
    let alloc = rt.alloc();
    let given = [
        Given::Opening,
        Given::Asked(2, 0, FORGET),
        Given::Asked(3, 0, FORGET),
    ];
    let sink = RefusingOnce {
        inner: MemorySink::new(alloc, Vec::new(alloc)),
        faults: 0,
    };
    let (course, source, sink) = run(&rt, source_of(&rt, &given), sink, &Config::new(alloc));
    drop(source);
    let expected = Transcript {
        received: 3,
        frames: 1,
        notes: 1,
        lost: 1,
        unrecorded: 0,
    };
    let found = (course.outcome, course.transcript, course.calls);
    expect_same(&rt, &found, &(Ok(()), expected, 2));
    expect_same(&rt, &sink.inner.notes(), &[(RequestId(3), 3)].as_slice());
    drop(sink);
}

/// A session without a message: its outcome, and how often its filesystem was destroyed.
fn serves_nothing<R: Threads + Wait + AllocGlobal + Abort + Sync>(
    rt: &R,
) -> (Result<(), SessionError>, u64) {
    let served = (SessionACL::Owner, None);
    let (course, sink) = serve(rt, Counting::new(None), &[], 0, 4096, served);
    drop(sink);
    (course.outcome, course.destroyed)
}

#[test]
fn without_a_message_is_not_connected(rt: HostRuntime) {
    let found = serves_nothing(&rt);
    expect_same(&rt, &found, &(Err(SessionError::NotConnected), 1));
}

#[test]
fn without_a_message_is_not_connected_or_wants_memory(rt: HostRuntime) {
    let (outcome, destroyed) = serves_nothing(&rt);
    let expected = match destroyed {
        0 => SessionError::Memory,
        _ => SessionError::NotConnected,
    };
    expect_same(&rt, &outcome, &Err(expected));
}
