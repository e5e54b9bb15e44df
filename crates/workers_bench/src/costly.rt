// What answers the messages, at a cost that is asked for.
ghost use Rattle.std.specs.Prelude.{◌≡◌, false, refl};
ghost use Rattle.fuse_reply.specs.Answer.Answer.{Empty};
ghost use Rattle.fuse_reply.specs.Frame.{reply};
ghost use Rattle.fuse_reply.specs.declared.out.Out.TheVariants.{Frame};
ghost use Rattle.fuse_loop.specs.Answering.{IsRequest};
ghost use Rattle.fuse_loop.specs.Incoming.{id_of as id_in};

use fuse_notify::Notifier;
use fuse_reply::{Door, NoDoor, Out, ReplyEmpty};
use fuse_request::AnyRequest;
use fuse_wire::RequestId;
use fuse_workers::Work;
use std::sync::Wait;
use std::sync::atomic::{AtomicU64, Ordering};
use std::thread;
use std::time::{Clock, Duration};

/// What each call costs.
#[derive(Clone, Copy)]
pub enum Cost {
    /// So many milliseconds of sleep.
    Sleep(u64),
    /// So many steps of a sum that can't be told beforehand.
    Steps(u64),
}

/// Answers each message by an empty reply, at this cost, and counts its calls.
#[derive(Drop)]
pub struct Costly<C> {
    clock: C,
    cost: Cost,
    calls: AtomicU64,
}

impl<C> Costly<C> {
    /// A work that sleeps by this clock.
    pub fn new(clock: C, cost: Cost) -> Costly<C> {
        Costly {
            clock,
            cost,
            calls: AtomicU64::new(0),
        }
    }

    /// How often it was called.
    pub fn calls(&self) -> u64 {
        self.calls.load(Ordering::SeqCst)
    }
}

impl<C: Clock> Costly<C> {
    /// Spends what a call about this id costs, and gives 1, which the count grows by. The steps make no 0 of a number
    /// that is not 0; the count rests on what they make, so that none can be left out.
    fn pay(&self, id: u64) -> u64 {
        match self.cost {
            Cost::Sleep(milliseconds) => {
                thread::sleep(&self.clock, Duration::from_millis(milliseconds));
                1
            }
            Cost::Steps(steps) => u64::from(stepped(id | 1, steps) != 0),
        }
    }
}

/// The number that so many steps make of another. Each step waits for the one before it.
fn stepped(start: u64, steps: u64) -> u64 {
    let mut number = start;
    for _step in 0..steps {
        number = (number ^ (number >> 29)).wrapping_mul(0xbf58_476d_1ce4_e5b9);
    }
    number
}

/// The id of a message.
fn id_of(message: &[u8]) -> RequestId
    ensures { IsRequest message.now → result.0 ≡ id_in message.now }
{
    match AnyRequest::try_from(message) {
        Ok(request) => request.unique(),
        Err(_) => RequestId(u64::MAX),
    }
}

impl<C: Clock + Sync> Work for Costly<C> {
    ghost owed = { λ work seq m out. out ≡ Frame (reply (id_in m) Empty) };

    const DEFERS: bool = false;

    ghost DEFERS = { false };

    fn answer<R: Wait + AllocGlobal>(
        &self,
        rt: &R,
        _notifier: &mut Notifier,
        _door: Result<Door, NoDoor>,
        _seq: u64,
        message: &[u8],
    ) -> Out {
        let id = id_of(message);
        self.calls.fetch_add(self.pay(id.0), Ordering::SeqCst);
        ReplyEmpty::new(rt.alloc(), id).ok().into_out()
    }

    ghost owed_to_destroy = { λ work seq m is. refl };

    ghost alone_to_destroy = { λ work seq m out is owed. owed };
}
