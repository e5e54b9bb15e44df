// A filesystem for tests, which counts its calls, and sessions of it.
ghost use Rattle.std.specs.Prelude.{◌<◌, false};

use crate::asserts::expect_same;
use fuse_config::{Config, KernelConfig};
use fuse_reply::{Replied, ReplyAttr, ReplyData, ReplyEntry};
use fuse_request::Request;
use fuse_session::{Ended, SessionError, Transcript, mount};
use fuse_testing::{Argument, Probe, Probing};
use fuse_wire::consts::MAX_WRITE_SIZE;
use fuse_wire::{Errno, FileHandle, INodeNo, LockOwner, OpenFlags, Sink, Source};
use std::alloc::Global;
use std::process::Abort;
use std::sync::atomic::{AtomicU64, Ordering};
use std::sync::{Arc, Wait};
use std::thread;
use std::thread::Threads;

/// How often a lookup looks at most whether it may go on, where it does not wait in vain.
pub(crate) const MOST_TURNS: u64 = 1_000_000;

/// What a read gives where no other contents are said: more than a frame holds without memory.
pub(crate) const CONTENTS: &[u8] = &[0x2a; 200];

/// A count that others share, how high it has to be before a lookup goes on, and how often that looks at most.
#[derive(Drop)]
struct Gate {
    count: Arc<AtomicU64, Global>,
    awaited: u64,
    most_turns: u64,
}

impl Gate {
    /// Whether the count was as high in time. Where it was not, it is made so, and the others wait no longer.
    fn opens(&self) -> bool {
        for _turn in 0..self.most_turns {
            if self.count.load(Ordering::SeqCst) >= self.awaited {
                return true;
            }
            thread::yield_now();
        }
        self.count.fetch_add(self.awaited, Ordering::SeqCst);
        false
    }
}

/// A filesystem that counts its calls, each row of a batch of forgets as one too, and how often it was destroyed. It
/// knows no name and no attributes, and reads the same contents from every offset. Where it has a gate, it counts its
/// calls there too, and a lookup for which that does not open in time is answered EIO. Where it has a refusal, no kernel
/// is accepted.
#[derive(Drop)]
pub(crate) struct Counting {
    contents: Option<Vec<u8>>,
    gate: Option<Gate>,
    refusal: Option<Errno>,
    calls: AtomicU64,
    destroyed: u64,
}

/// How a session ended, what it did, and how often it called and destroyed its filesystem.
#[derive(Clone, Copy)]
pub(crate) struct Course {
    pub(crate) outcome: Result<(), SessionError>,
    pub(crate) transcript: Transcript,
    pub(crate) calls: u64,
    pub(crate) destroyed: u64,
}

/// So many messages were taken, and so many frames sent but for notices. Nothing was lost.
pub(crate) fn counts(received: u64, frames: u64) -> Transcript {
    Transcript {
        received,
        frames,
        notes: 0,
        lost: 0,
        unrecorded: 0,
    }
}

/// Serves a filesystem that counts, in a session of root with pages of 4096 bytes. The source and the sink come back.
pub(crate) fn run<R: Threads + Wait + AllocGlobal + Sync, S: Source, K: Sink + Send>(
    rt: &R,
    source: S,
    sink: K,
    config: &Config,
) -> (Course, S, K) {
    run_with(rt, Counting::new(None), source, sink, 0, 4096, config)
}

/// Serves this filesystem in a session of this owner, with pages of this size.
pub(crate) fn run_with<R: Threads + Wait + AllocGlobal + Sync, S: Source, K: Sink + Send>(
    rt: &R,
    counting: Counting,
    source: S,
    sink: K,
    owner: u32,
    page_size: u32,
    config: &Config,
) -> (Course, S, K)
    requires { 0 < page_size }
{
    let filesystem = Probing { probe: counting };
    let over = mount(rt, filesystem, source, sink, owner, page_size, config);
    let course = course_of(&over);
    let Ended {
        filesystem,
        source,
        sink,
        ..
    } = over;
    drop(filesystem);
    (course, source, sink)
}

/// How a session went that is over.
fn course_of<S, K>(over: &Ended<Probing<Counting>, S, K>) -> Course {
    let counting = &over.filesystem.probe;
    Course {
        outcome: over.outcome,
        transcript: over.transcript,
        calls: counting.calls.load(Ordering::SeqCst),
        destroyed: counting.destroyed,
    }
}

/// The session that shows this went as was expected.
pub(crate) fn went(rt: &impl Abort, what: &str, course: &Course, expected: &Course) {
    let found = (what, course.outcome, course.transcript);
    expect_same(rt, &found, &(what, expected.outcome, expected.transcript));
    let found = (what, course.calls, course.destroyed);
    expect_same(rt, &found, &(what, expected.calls, expected.destroyed));
}

impl Counting {
    /// It was not called yet. These are its contents, or else `CONTENTS`.
    pub(crate) fn new(contents: Option<Vec<u8>>) -> Counting {
        Counting {
            contents,
            gate: None,
            refusal: None,
            calls: AtomicU64::new(0),
            destroyed: 0,
        }
    }

    /// It counts its calls here too, and its lookups wait until this count is so high.
    pub(crate) fn waiting(count: Arc<AtomicU64, Global>, awaited: u64) -> Counting {
        Counting::waiting_for_turns(count, awaited, MOST_TURNS)
    }

    /// The same, but its lookups look no more often than this.
    pub(crate) fn waiting_for_turns(
        count: Arc<AtomicU64, Global>,
        awaited: u64,
        most_turns: u64,
    ) -> Counting {
        let mut counting = Counting::new(None);
        counting.gate = Some(Gate {
            count,
            awaited,
            most_turns,
        });
        counting
    }

    /// It refuses every kernel by this error.
    pub(crate) fn refusing(error: Errno) -> Counting {
        let mut counting = Counting::new(None);
        counting.refusal = Some(error);
        counting
    }

    /// What a lookup fails by, once it goes on.
    fn lookup_error(&self) -> Errno {
        match &self.gate {
            Some(gate) if !gate.opens() => Errno::EIO,
            _ => Errno::ENOENT,
        }
    }

    /// How often it was destroyed.
    pub(crate) fn destroyed(&self) -> u64 {
        self.destroyed
    }

    /// How often it was called.
    pub(crate) fn calls(&self) -> u64 {
        self.calls.load(Ordering::SeqCst)
    }
}

impl Probe for Counting {
    ghost own = { λ call answer. Unit {0} };

    const DEFERS: bool = false;

    ghost DEFERS = { false };

    fn started(&mut self, _: &Request, _: &mut KernelConfig) -> Result<(), Errno> {
        match self.refusal {
            Some(error) => Err(error),
            None => Ok(()),
        }
    }

    fn called(&self, _: &Request, _: &'static str, _: &[Argument], _: &[&[u8]]) {
        self.calls.fetch_add(1, Ordering::SeqCst);
        if let Some(gate) = &self.gate {
            gate.count.fetch_add(1, Ordering::SeqCst);
        }
    }

    fn lookup(&self, _: &Request, _: INodeNo, _: &[u8], reply: ReplyEntry) -> Replied {
        reply.error(self.lookup_error())
    }

    fn forget(&self, ino: INodeNo, nlookup: u64) -> u64 {
        ino.0.saturating_add(nlookup)
    }

    fn getattr(&self, _: &Request, _: INodeNo, _: Option<FileHandle>, reply: ReplyAttr) -> Replied {
        reply.unanswered()
    }

    fn read(
        &self,
        _: &Request,
        _: INodeNo,
        _: FileHandle,
        _: u64,
        size: u32,
        _: OpenFlags,
        _: Option<LockOwner>,
        reply: ReplyData,
    ) -> Replied {
        let contents = match &self.contents {
            Some(contents) => contents.as_slice(),
            None => CONTENTS,
        };
        let count = contents.len().min(size as usize).min(MAX_WRITE_SIZE);
        reply.data(&contents[..count])
    }

    fn destroyed(&mut self) {
        self.destroyed = self.destroyed.saturating_add(1);
    }

    ghost allows_default = { λ call. tt };
}
