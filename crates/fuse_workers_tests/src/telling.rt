// What queues notices while it answers the messages of the tests.
ghost use Rattle.std.specs.Prelude.{◌≡◌, false, refl};
ghost use Rattle.fuse_reply.specs.Answer.Answer.{Empty};
ghost use Rattle.fuse_reply.specs.Frame.{reply};
ghost use Rattle.fuse_reply.specs.declared.out.Out.TheVariants.{Frame};
ghost use Rattle.fuse_loop.specs.Incoming.{id_of as id_in};

use crate::works::id_of;
use fuse_notify::Notifier;
use fuse_reply::{Door, NoDoor, Out, ReplyEmpty};
use fuse_wire::PollHandle;
use fuse_workers::Work;
use std::alloc::Global;
use std::sync::{Mutex, Wait};

/// Tells so many polls in each answer, and keeps the handles of those whose notices were queued.
#[derive(Drop)]
pub(crate) struct Telling {
    each: u64,
    own: Mutex<Option<Notifier>>,
    queued: Mutex<Vec<u64>>,
}

impl Telling {
    /// It tells them by a notifier of its own, or where there is none by what the one makes that it is given.
    pub(crate) fn new(alloc: Global, each: u64, own: Option<Notifier>) -> Telling {
        Telling {
            each,
            own: Mutex::new(own),
            queued: Mutex::new(Vec::new(alloc)),
        }
    }

    /// Tells one poll, and says whether the notice was queued.
    fn tell<R: Wait + AllocGlobal>(
        &self,
        rt: &R,
        notifier: &mut Notifier,
        handle: PollHandle,
    ) -> bool
        ensures { notifier.new.line ≡ notifier.old.line }
    {
        if let Some(own) = &mut *self.own.lock(rt) {
            return own.poll(rt, handle).is_ok();
        }
        match notifier.poll_notifier(handle) {
            Ok(poll) => poll.notify(rt).is_ok(),
            Err(_) => false,
        }
    }

    /// The handles of the polls whose notices were queued, in order of their numbers.
    pub(crate) fn into_queued(self) -> Vec<u64> {
        let mut queued = self.queued.into_inner();
        queued.sort_unstable();
        queued
    }
}

impl Work for Telling {
    ghost owed = { λ work seq m out. out ≡ Frame (reply (id_in m) Empty) };

    const DEFERS: bool = false;

    ghost DEFERS = { false };

    fn answer<R: Wait + AllocGlobal>(
        &self,
        rt: &R,
        notifier: &mut Notifier,
        _door: Result<Door, NoDoor>,
        _seq: u64,
        message: &[u8],
    ) -> Out {
        let id = id_of(message);
        for number in 0..self.each {
            let handle = id.0.wrapping_mul(self.each).wrapping_add(number);
            if self.tell(rt, notifier, PollHandle(handle)) {
                let _ = self.queued.lock(rt).push(handle);
            }
        }
        ReplyEmpty::new(rt.alloc(), id).ok().into_out()
    }

    ghost owed_to_destroy = { λ work seq m is. refl };

    ghost alone_to_destroy = { λ work seq m out is owed. owed };
}
