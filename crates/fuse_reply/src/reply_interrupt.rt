// A reply to INTERRUPT.
ghost use Rattle.std.specs.Prelude.{◌≡◌};
ghost use Rattle.fuse_wire.specs.ErrorNumbers.{EAGAIN, EIO};
ghost use Rattle.fuse_reply.specs.Answer.{IsAnswer};
ghost use Rattle.fuse_reply.specs.Answer.Answer.{Error};
ghost use Rattle.fuse_reply.specs.Frame.{reply};
ghost use Rattle.fuse_reply.specs.declared.out.Out.{Out};

use crate::{Replied, Reply};
use fuse_wire::{Errno, RequestId};
use std::alloc::Global;
use std::marker::Model;

/// The kind of a reply that carries nothing: an interrupt is refused, or honoured without a frame.
pub struct Interrupts;

/// The reply to INTERRUPT, which asks that another request be cut short. It must be spent, once, before its method
/// returns. A contract sees the id of the INTERRUPT, and its target: the id of the other request.
pub struct ReplyInterrupt {
    reply: Reply<Interrupts>,
    target: RequestId,
}

impl Model for ReplyInterrupt {
    ghost use Rattle.fuse_reply.specs.Deferral.{InterruptSeen};

    ghost Value = { InterruptSeen };

    ghost view = { λ r. record { id = r.reply.id; target = r.target.0 } };
}

impl ReplyInterrupt {
    /// The reply to the INTERRUPT of this id, which asks that the request of the other id be cut short.
    #[inline(always)]
    pub fn new(alloc: Global, id: RequestId, target: RequestId) -> ReplyInterrupt
        ensures { result ≡ record { id = id.0; target = target.0 } }
    {
        ReplyInterrupt {
            reply: Reply::new(alloc, id),
            target,
        }
    }

    /// The request is cut short: it gets its own reply, EINTR by custom, and INTERRUPT gets none. What goes out for it
    /// is a note of the target, and no frame.
    pub fn honoured(self) -> Replied
        ensures { result ≡ Out.Note (record { 0 = self.id }) self.target }
    {
        let ReplyInterrupt { reply, target } = self;
        let (_, id) = reply.into_parts();
        Replied::noted(id, target.0)
    }

    /// EAGAIN: the request is not known here yet, and the kernel asks once more.
    pub fn again(self) -> Replied
        ensures reply { result ≡ Out.Frame (reply self.id (Error EAGAIN)) }
        ensures answer { IsAnswer (Error EAGAIN) }
    {
        self.error(Errno::EAGAIN)
    }

    /// It failed. The kernel takes EAGAIN for `again`, and ENOSYS for that no INTERRUPT is to be sent any more.
    pub fn error(self, error: Errno) -> Replied
        ensures reply { result ≡ Out.Frame (reply self.id (Error error)) }
        ensures answer { IsAnswer (Error error) }
    {
        let ReplyInterrupt { reply, target: _ } = self;
        reply.error(error)
    }

    /// EIO: the filesystem has no answer to it.
    pub fn unanswered(self) -> Replied
        ensures { result ≡ Out.Frame (reply self.id (Error EIO)) }
    {
        self.error(Errno::EIO)
    }
}
