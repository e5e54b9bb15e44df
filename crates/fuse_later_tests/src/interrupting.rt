// A filesystem for tests, whose calls for locks wait until they are interrupted.
ghost use Rattle.std.specs.Prelude.{true};
ghost use Rattle.fuse_request.specs.Call.{Call};
ghost use Rattle.fuse_header.specs.declared.request.Request.{Request as Asks};
ghost use Rattle.fuse_testing.specs.Probing.{IsAnswered};

use fuse_config::KernelConfig;
use fuse_reply::{Later, Replied, ReplyEmpty, ReplyInterrupt};
use fuse_request::Request;
use fuse_testing::{Argument, Probe};
use fuse_wire::{Errno, FileHandle, INodeNo, LockOwner, RequestId};
use std::alloc::{AllocFailed, Global};
use std::sync::{Mutex, Wait};
use std::thread;

type Token = Later<ReplyEmpty>;

/// A filesystem that puts each call for a lock off, and answers it once it is interrupted.
pub(crate) struct Interrupting<R> {
    rt: R,
    /// How often an interrupt looks, at most, whether the request that it names was put off.
    turns: u64,
    waiting: Mutex<Vec<Token>>,
}

/// Answers a call that was put off by this error.
fn answer<R: Wait>(rt: &R, later: Token, error: Errno) {
    let (reply, token) = later.reply();
    let _ended = token.send_or_retire(rt, reply.error(error));
}

impl<R: Wait> Interrupting<R> {
    /// Nobody waits.
    pub(crate) fn new(rt: R, alloc: Global, turns: u64) -> Interrupting<R> {
        Interrupting {
            rt,
            turns,
            waiting: Mutex::new(Vec::new(alloc)),
        }
    }

    /// Puts a call off. Where it can't be put off it gets EIO.
    #[tactic(auto, using(crate::proofs::PuttingOff::fault_is_answered))]
    fn put_off(&self, reply: ReplyEmpty) -> Replied
        ensures { (request : Asks) (call : Call) →
            IsAnswered (λ c a. Unit {0}) request call reply.id reply.door result }
    {
        match reply.defer() {
            Ok((replied, later)) => {
                let put = self.waiting.lock(&self.rt).push(later);
                if let Err(AllocFailed { value: later }) = put {
                    answer(&self.rt, later, Errno::EIO);
                }
                replied
            }
            Err((reply, _)) => reply.unanswered(),
        }
    }

    /// The token of this request, where it waits.
    fn take(&self, target: RequestId) -> Option<Token> {
        let mut waiting = self.waiting.lock(&self.rt);
        let place = waiting.iter().position(|later| later.id() == target)?;
        Some(waiting.swap_remove(place))
    }

    /// Answers those that wait still, once the session is over.
    pub(crate) fn close(self)
    where
        R: Drop,
    {
        let Interrupting {
            rt,
            turns: _,
            waiting,
        } = self;
        let mut tokens = waiting.into_inner();
        while let Some(later) = tokens.pop() {
            answer(&rt, later, Errno::EIO);
        }
        tokens.destroy_empty();
    }
}

impl<R: Wait> Probe for Interrupting<R> {
    ghost own = { λ call answer. Unit {0} };

    const DEFERS: bool = true;

    ghost DEFERS = { true };

    fn started(&mut self, _: &Request, _: &mut KernelConfig) -> Result<(), Errno> {
        Ok(())
    }

    fn called(&self, _: &Request, _: &'static str, _: &[Argument], _: &[&[u8]]) {}

    fn setlk(
        &self,
        _: &Request,
        _: INodeNo,
        _: FileHandle,
        _: LockOwner,
        _: u64,
        _: u64,
        _: i32,
        _: u32,
        _: bool,
        reply: ReplyEmpty,
    ) -> Replied {
        self.put_off(reply)
    }

    fn interrupt(&self, _: &Request, target: RequestId, reply: ReplyInterrupt) -> Replied {
        for _turn in 0..self.turns {
            if let Some(later) = self.take(target) {
                answer(&self.rt, later, Errno::EINTR);
                return reply.honoured();
            }
            thread::yield_now();
        }
        reply.again()
    }

    fn destroyed(&mut self) {}

    ghost allows_default = { λ call. tt };
}
