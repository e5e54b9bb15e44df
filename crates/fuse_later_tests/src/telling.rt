// A filesystem for tests, which tells of news, and may hold a lookup.
ghost use Rattle.std.specs.Prelude.{false};

use bitflags::Flags;
use fuse_config::KernelConfig;
use fuse_notify::{Notifier, NotifyError, PollNotifier};
use fuse_reply::{Replied, ReplyAttr, ReplyEntry, ReplyPoll};
use fuse_request::Request;
use fuse_testing::{Argument, Probe};
use fuse_wire::{Errno, FileHandle, INodeNo, PollEvents, PollFlags, PollHandle};
use std::alloc::Global;
use std::sync::atomic::{AtomicBool, AtomicU64, Ordering};
use std::sync::{Arc, Mutex, Wait};
use std::thread;

/// How often an answer is held at most.
const MOST_TURNS: u64 = 1_000_000;

/// Where a filesystem finds the notifier of its session, once there is one.
pub(crate) type Slot = Arc<Mutex<Option<Notifier>>, Global>;

/// Where the notifier is found, and how many notices a lookup sends by it.
#[derive(Drop)]
pub(crate) struct Flood {
    pub(crate) slot: Slot,
    pub(crate) notices: u64,
}

/// A filesystem that is ready for reading, always. It tells of a poll at once, or where the kernel asks to be told, by the
/// next GETATTR. It answers a lookup of `a` only once one of `b` was called, by ENOENT, or where that does not come in time,
/// by EIO. In any other lookup it sends notices, where it finds a notifier, and counts those that are queued, and those for
/// which there is no place.
#[derive(Drop)]
pub(crate) struct Telling<R> {
    rt: R,
    waiting: Mutex<Vec<PollNotifier>>,
    is_b_called: AtomicBool,
    flood: Option<Flood>,
    queued: AtomicU64,
    full: AtomicU64,
}

impl<R: Wait> Telling<R> {
    /// No poll waits. A lookup sends these notices, where there are such.
    pub(crate) fn new(rt: R, alloc: Global, flood: Option<Flood>) -> Telling<R> {
        Telling {
            rt,
            waiting: Mutex::new(Vec::new(alloc)),
            is_b_called: AtomicBool::new(false),
            flood,
            queued: AtomicU64::new(0),
            full: AtomicU64::new(0),
        }
    }

    /// How many polls wait.
    pub(crate) fn waiting(&self) -> usize {
        self.waiting.lock(&self.rt).len()
    }

    /// How many notices of lookups were queued, and for how many there was no place.
    pub(crate) fn sent(&self) -> (u64, u64) {
        let queued = self.queued.load(Ordering::SeqCst);
        (queued, self.full.load(Ordering::SeqCst))
    }

    /// What a lookup of `a` is answered by, once `b` was called, or it has taken too long.
    fn await_b(&self) -> Errno {
        for _turn in 0..MOST_TURNS {
            if self.is_b_called.load(Ordering::SeqCst) {
                return Errno::ENOENT;
            }
            thread::yield_now();
        }
        Errno::EIO
    }
}

impl<R: Wait + AllocGlobal> Telling<R> {
    /// Tells of each poll that waits, the newest first, until there is no place for one.
    fn tell(&self) {
        let mut waiting = self.waiting.lock(&self.rt);
        for _ in 0..waiting.len() {
            let Some(poll) = waiting.pop() else {
                break;
            };
            if let Err(full) = poll.notify(&self.rt) {
                let _ = waiting.push(full.item);
                break;
            }
        }
    }

    /// Sends a notice, and counts what became of it.
    fn send(&self, notifier: &mut Notifier, handle: u64) {
        match notifier.poll(&self.rt, PollHandle(handle)) {
            Ok(()) => {
                self.queued.fetch_add(1, Ordering::SeqCst);
            }
            Err(NotifyError::Full(_)) => {
                self.full.fetch_add(1, Ordering::SeqCst);
            }
            Err(_) => {}
        }
    }

    /// Sends the notices of a lookup, whose handles are their places.
    fn send_all(&self, flood: &Flood) {
        if let Some(notifier) = &mut *flood.slot.lock(&self.rt) {
            for handle in 0..flood.notices {
                self.send(notifier, handle);
            }
        }
    }

    /// What a lookup of this name is answered by.
    fn answer_to(&self, name: &[u8]) -> Errno {
        if name == b"a".as_slice() {
            return self.await_b();
        }
        if name == b"b".as_slice() {
            self.is_b_called.store(true, Ordering::SeqCst);
            return Errno::ENOENT;
        }
        if let Some(flood) = &self.flood {
            self.send_all(flood);
        }
        Errno::ENOSYS
    }
}

impl<R: Wait + AllocGlobal> Probe for Telling<R> {
    ghost own = { λ call answer. Unit {0} };

    const DEFERS: bool = false;

    ghost DEFERS = { false };

    fn started(&mut self, _: &Request, _: &mut KernelConfig) -> Result<(), Errno> {
        Ok(())
    }

    fn called(&self, _: &Request, _: &'static str, _: &[Argument], _: &[&[u8]]) {}

    fn lookup(&self, _: &Request, _: INodeNo, name: &[u8], reply: ReplyEntry) -> Replied {
        reply.error(self.answer_to(name))
    }

    fn getattr(&self, _: &Request, _: INodeNo, _: Option<FileHandle>, reply: ReplyAttr) -> Replied {
        self.tell();
        reply.error(Errno::ENOENT)
    }

    fn poll(
        &self,
        _: &Request,
        _: INodeNo,
        _: FileHandle,
        ph: PollNotifier,
        _: PollEvents,
        flags: PollFlags,
        reply: ReplyPoll,
    ) -> Replied {
        if flags.contains(PollFlags::FUSE_POLL_SCHEDULE_NOTIFY) {
            let _ = self.waiting.lock(&self.rt).push(ph);
        } else {
            let _ = ph.notify(&self.rt);
        }
        reply.poll(PollEvents::POLLIN)
    }

    fn destroyed(&mut self) {}

    ghost allows_default = { λ call. tt };
}
