// When a message is answered.
ghost use Rattle.std.specs.Prelude.{None};

use crate::asserts::{expect_same, source_of};
use crate::counting::run;
use fuse_config::Config;
use fuse_request::opcode::{FUSE_DESTROY, FUSE_STATFS};
use fuse_testing::test_messages::{Asks, FORGET, Given, LOOKUP, NO_OPCODE};
use fuse_wire::{MemorySource, Noting, Received, RequestId, Sending, Sink, Source};
use std::sync::atomic::{AtomicU64, Ordering};

/// A source that fails where a message before was not answered, and tells nothing.
#[derive(Drop)]
struct Awaiting<'a> {
    inner: MemorySource,
    answered: &'a AtomicU64,
    given: u64,
    faults: u64,
}

impl Source for Awaiting<'_> {
    ghost told = { λ s. record { turns = None; faults = s.faults } };

    fn receive(&mut self, buffer: &mut [u8]) -> Received {
        if self.answered.load(Ordering::SeqCst) == self.given {
            match self.inner.receive(buffer) {
                Received::Message(count) => {
                    self.given = self.given.saturating_add(1);
                    return Received::Message(count);
                }
                Received::Gone => return Received::Gone,
                Received::Retry => return Received::Retry,
                Received::Failed => {}
            }
        }
        self.faults = self.faults.saturating_add(1);
        Received::Failed
    }
}

/// A sink that counts what is handed to it, and tells nothing.
#[derive(Drop)]
struct Answering<'a> {
    answered: &'a AtomicU64,
}

impl Sink for Answering<'_> {
    ghost told = { λ s. record {
      frames = None;
      notes = None;
      tail = None;
      faults = 0;
      absences = 0;
      origin = record { bytes = None; faults = 0 };
    } };

    fn send(&mut self, _: &[u8; 16], _: &[u8]) -> Sending {
        self.answered.fetch_add(1, Ordering::SeqCst);
        Sending::Sent
    }

    fn note(&mut self, _: RequestId, _: u64) -> Noting {
        self.answered.fetch_add(1, Ordering::SeqCst);
        Noting::Sent
    }
}

const MESSAGES: &[Given] = &[
    // INIT of version 8.8, which is asked for again
    Given::Changed(40, 8),
    Given::Opening,
    Given::Asked(2, 0, LOOKUP),
    Given::Asked(3, 0, FORGET),
    Given::Asked(4, 0, Asks(NO_OPCODE, 0, &[], b"")),
    Given::Asked(5, 0, Asks(FUSE_STATFS, 0, &[], b"")),
    Given::Asked(6, 0, Asks(FUSE_DESTROY, 0, &[], b"")),
];

#[test]
fn each_message_is_answered_before_the_next_is_taken(rt: HostRuntime) {
    let answered = AtomicU64::new(0);
    let source = Awaiting {
        inner: source_of(&rt, MESSAGES),
        answered: &answered,
        given: 0,
        faults: 0,
    };
    let sink = Answering {
        answered: &answered,
    };
    let (course, source, sink) = run(&rt, source, sink, &Config::new(rt.alloc()));
    drop(sink);
    expect_same(&rt, &(course.outcome, source.faults), &(Ok(()), 0));
    drop(source);
    let found = (course.transcript.received, answered.load(Ordering::SeqCst));
    expect_same(&rt, &found, &(7, 7));
}
