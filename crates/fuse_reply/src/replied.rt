// A reply that was spent.
ghost use Rattle.std.specs.Prelude.{◌≡◌};
ghost use Rattle.fuse_reply.specs.Frame.{reply, IsReply};
ghost use Rattle.fuse_reply.specs.Answer.{IsAnswer};
ghost use Rattle.fuse_reply.specs.Answer.Answer.{Error};

use crate::{Out, Packed, ReplyFrame};
use fuse_wire::{Errno, RequestId};
use std::alloc::Global;
use std::marker::Model;

/// What a reply was spent into. It must be spent too, into what goes out. A contract sees that.
#[derive(Debug)]
pub struct Replied {
    out: Out,
}

impl Model for Replied {
    ghost use Rattle.fuse_reply.specs.declared.out.Out.{Out};

    ghost Value = { Out };

    ghost view = { λ r. r.out };
}

impl Replied {
    /// The reply came to this frame.
    #[inline(always)]
    pub(crate) fn by(packed: Packed) -> Replied
        requires { IsReply packed }
        ensures { result ≡ Out.Frame packed }
    {
        Replied {
            out: Out::Frame(ReplyFrame::new(packed)),
        }
    }

    /// The request of this id failed.
    #[inline(always)]
    pub(crate) fn failed(alloc: Global, id: RequestId, error: Errno) -> Replied
        ensures reply { result ≡ Out.Frame (reply id.0 (Error error)) }
        ensures answer { IsAnswer (Error error) }
    {
        Replied::by(Packed::bare(alloc, id, -error.code()))
    }

    /// The reply to the message of this number, of the request of this id, comes later.
    #[inline(always)]
    pub(crate) fn deferred(seq: u64, id: RequestId) -> Replied
        ensures { result ≡ Out.Deferred seq id }
    {
        Replied {
            out: Out::Deferred(seq, id),
        }
    }

    /// The INTERRUPT of this id is honoured, which asks that the request of the other id be cut short.
    #[inline(always)]
    pub(crate) fn noted(id: RequestId, target: u64) -> Replied
        ensures { result ≡ Out.Note id target }
    {
        Replied {
            out: Out::Note(id, target),
        }
    }

    /// What goes out.
    #[inline(always)]
    pub fn into_out(self) -> Out
        ensures { result ≡ self }
    {
        let Replied { out } = self;
        out
    }
}
