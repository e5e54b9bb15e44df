// Devices that wait for each other, or for a work.
ghost use Rattle.std.specs.Prelude.{None};

use crate::runs::taking;
use crate::turns::{Piece, source_of};
use fuse_wire::{MemorySink, MemorySource, Noting, Received, RequestId, Sending, Sink, Source};
use std::alloc::Global;
use std::process::Abort;
use std::sync::Arc;
use std::sync::atomic::{AtomicU64, Ordering};
use std::thread;

/// How often in a row a device waits at most.
const MOST_TURNS: u64 = 10_000_000;

/// A counter that several share.
pub(crate) type Counter = Arc<AtomicU64, Global>;

/// A counter that is at 0.
pub(crate) fn new_counter<R: AllocGlobal + Abort>(rt: &R) -> Counter {
    Arc::new(rt.alloc(), AtomicU64::new(0)).expect(rt, "there is memory")
}

/// The same counter once more.
pub(crate) fn share<R: Abort>(rt: &R, counter: &Counter) -> Counter {
    Arc::try_clone(counter).expect(rt, "there is memory")
}

/// Lets others go on for so many turns.
pub(crate) fn pass_turns(count: u64) {
    for _turn in 0..count {
        thread::yield_now();
    }
}

/// Waits until at least so many were counted, and says whether they were in time.
pub(crate) fn await_count(counter: &AtomicU64, least: u64) -> bool {
    for _turn in 0..MOST_TURNS {
        if counter.load(Ordering::SeqCst) >= least {
            return true;
        }
        thread::yield_now();
    }
    false
}

/// When the messages of a source come.
#[derive(Clone, Copy)]
pub(crate) enum Pace {
    /// At once.
    Free,
    /// Each once the frame of the one before it was sent.
    ByFrame,
    /// Each once a notice was sent, and the frame of the one before it.
    ByNotice,
}

impl Pace {
    /// How many frames are to be sent before the first message comes, and how many more before each turn after it.
    fn frames(self) -> (u64, u64) {
        match self {
            Pace::Free => (0, 0),
            Pace::ByFrame => (0, 1),
            Pace::ByNotice => (1, 2),
        }
    }
}

/// A source that gives each message once so many frames were sent. It tells nothing.
#[derive(Drop)]
pub(crate) struct PacedSource {
    inner: MemorySource,
    awaited: u64,
    each: u64,
    retries: u64,
    sent: Counter,
}

/// A sink that counts its frames, and may hold the first back until something was counted. It tells nothing either.
#[derive(Drop)]
pub(crate) struct WatchedSink {
    pub(crate) inner: MemorySink,
    faults: u64,
    sent: Counter,
    awaited: Counter,
    least: u64,
}

impl PacedSource {
    /// A source of these turns, which come at this pace by what this sink counts.
    pub(crate) fn new<R: AllocGlobal + Abort>(
        rt: &R,
        turns: &[Piece],
        pace: Pace,
        sink: &WatchedSink,
    ) -> PacedSource {
        let (awaited, each) = pace.frames();
        PacedSource {
            inner: source_of(rt, turns),
            awaited,
            each,
            retries: 0,
            sent: share(rt, &sink.sent),
        }
    }

    /// Whether it has waited long enough for the frames that are awaited.
    fn is_tired(&mut self) -> bool {
        self.retries = self.retries.saturating_add(1);
        thread::yield_now();
        self.retries == MOST_TURNS
    }
}

impl Source for PacedSource {
    ghost told = { λ s. record { turns = None; faults = 0 } };

    /// Gives nothing until as many frames were sent as are awaited, and says that none is left where that takes too long.
    fn receive(&mut self, buffer: &mut [u8]) -> Received {
        if self.sent.load(Ordering::SeqCst) < self.awaited {
            return if self.is_tired() {
                Received::Gone
            } else {
                Received::Retry
            };
        }
        self.retries = 0;
        match self.inner.receive(buffer) {
            Received::Message(count) => {
                self.awaited = self.awaited.saturating_add(self.each);
                Received::Message(count)
            }
            Received::Retry => Received::Retry,
            _ => Received::Gone,
        }
    }
}

impl WatchedSink {
    /// An empty one, which holds its first frame back until at least so many were counted of what is awaited.
    pub(crate) fn new<R: AllocGlobal + Abort>(rt: &R, awaited: Counter, least: u64) -> WatchedSink {
        WatchedSink {
            inner: taking(rt.alloc()),
            faults: 0,
            sent: new_counter(rt),
            awaited,
            least,
        }
    }

    /// The counter of the frames that are sent.
    pub(crate) fn sent<R: Abort>(&self, rt: &R) -> Counter {
        share(rt, &self.sent)
    }

    /// Waits until so many were counted, and says whether they were in time.
    fn wait(&self) -> bool {
        await_count(&self.awaited, self.least)
    }

    /// Whether a frame may go. The first waits, and some turns more, in which those that wait for it fall asleep.
    fn lets_go(&self) -> bool {
        if self.least == 0 {
            return true;
        }
        let is_in_time = self.wait();
        pass_turns(10_000);
        is_in_time
    }
}

impl Sink for WatchedSink {
    ghost told = { λ s. record {
      frames = None;
      notes = None;
      tail = None;
      faults = s.faults;
      absences = 0;
      origin = record { bytes = None; faults = 0 };
    } };

    /// Loses the first frame where it waited too long.
    fn send(&mut self, header: &[u8; 16], payload: &[u8]) -> Sending {
        let may_go = self.lets_go();
        self.least = 0;
        let is_sent = may_go && self.inner.send(header, payload) == Sending::Sent;
        self.sent.fetch_add(1, Ordering::SeqCst);
        if is_sent {
            return Sending::Sent;
        }
        self.faults = self.faults.saturating_add(1);
        Sending::Failed
    }

    /// Takes none.
    fn note(&mut self, _id: RequestId, _mark: u64) -> Noting {
        self.faults = self.faults.saturating_add(1);
        Noting::Failed
    }
}
