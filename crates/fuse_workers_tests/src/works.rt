// What answers the messages of the tests.
ghost use Rattle.std.specs.Prelude.{◌≡◌, false, refl};
ghost use Rattle.fuse_reply.specs.Answer.Answer.{Empty};
ghost use Rattle.fuse_reply.specs.Frame.{reply};
ghost use Rattle.fuse_reply.specs.declared.out.Out.TheVariants.{Frame};
ghost use Rattle.fuse_loop.specs.Answering.{IsRequest};
ghost use Rattle.fuse_loop.specs.Incoming.{id_of as id_in};

use crate::devices::{Counter, pass_turns};
use fuse_notify::Notifier;
use fuse_reply::{Door, NoDoor, Out, ReplyEmpty};
use fuse_request::AnyRequest;
use fuse_wire::RequestId;
use fuse_workers::Work;
use std::alloc::AllocGlobal;
use std::sync::Wait;
use std::sync::atomic::Ordering;
use std::thread;

/// How often an answer is held at most.
const MOST_TURNS: u64 = 1_000_000;

/// As many calls as one that was awaited too long counts for: more than any run has, so that no later one waits.
const TOO_LATE: u64 = 1 << 40;

/// The id of a message.
pub(crate) fn id_of(message: &[u8]) -> RequestId
    ensures { IsRequest message.now → result.0 ≡ id_in message.now }
{
    match AnyRequest::try_from(message) {
        Ok(request) => request.unique(),
        Err(_) => RequestId(u64::MAX),
    }
}

/// How long each answer is held.
#[derive(Clone, Copy)]
pub(crate) enum Hold {
    /// Not at all.
    No,
    /// For some turns, the longer the greater its id modulo eight.
    ById,
    /// Until so many were called. Where they are not in time, that counts as a great many calls.
    UntilCalled(u64),
    /// Until the other of its pair was called, of the first two calls, the next two, and so on. It is the same where that
    /// one is not in time.
    InPairs,
}

/// Answers each message by an empty reply, and counts its calls.
#[derive(Drop)]
pub(crate) struct Answering {
    hold: Hold,
    calls: Counter,
}

impl Answering {
    /// Holds each answer so, and counts the calls by this counter.
    pub(crate) fn new(hold: Hold, calls: Counter) -> Answering {
        Answering { hold, calls }
    }

    /// How often it was called.
    pub(crate) fn calls(&self) -> u64 {
        self.calls.load(Ordering::SeqCst)
    }

    /// Waits until so many were called, or it has taken too long, which counts as a great many calls.
    fn await_calls(&self, count: u64) {
        for _turn in 0..MOST_TURNS {
            if self.calls() >= count.min(TOO_LATE) {
                return;
            }
            thread::yield_now();
        }
        self.calls.fetch_add(TOO_LATE, Ordering::SeqCst);
    }

    /// Counts a call of this id, and holds it.
    fn hold(&self, id: u64) {
        let before = self.calls.fetch_add(1, Ordering::SeqCst);
        match self.hold {
            Hold::No => {}
            Hold::ById => pass_turns(id % 8 * 100),
            Hold::UntilCalled(count) => self.await_calls(count),
            Hold::InPairs => self.await_calls((before | 1).saturating_add(1)),
        }
    }
}

impl Work for Answering {
    ghost owed = { λ work seq m out. out ≡ Frame (reply (id_in m) Empty) };

    const DEFERS: bool = false;

    ghost DEFERS = { false };

    fn answer<R: Wait + AllocGlobal>(
        &self,
        rt: &R,
        _notifier: &mut Notifier,
        _door: Result<Door, NoDoor>,
        _seq: u64,
        message: &[u8],
    ) -> Out {
        let id = id_of(message);
        self.hold(id.0);
        ReplyEmpty::new(rt.alloc(), id).ok().into_out()
    }

    ghost owed_to_destroy = { λ work seq m is. refl };

    ghost alone_to_destroy = { λ work seq m out is owed. owed };
}
