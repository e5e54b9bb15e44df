// The frame of a reply.
ghost use Rattle.std.specs.Prelude.{◌≡◌, false};
ghost use Rattle.fuse_wire.specs.Sink.{Sends};
ghost use Rattle.fuse_reply.specs.Frame.{IsReply, is_set_aside};

use crate::Packed;
use fuse_wire::{Sending, Sink};
use std::alloc::AllocError;
use std::marker::Model;

/// The frame that answers a request. A contract sees its bytes, and they are a reply to some request, always.
#[derive(Debug, Drop)]
pub struct ReplyFrame {
    packed: Packed,
}

impl Model for ReplyFrame {
    ghost use Rattle.std.specs.Prelude.{ℕ, List};
    ghost use Rattle.fuse_reply.specs.Frame.{IsReply};

    ghost Value = { List ℕ };

    ghost view = { λ f. f.packed };

    ghost invariant = { λ f. IsReply f.packed };
}

/// A copy is the same frame.
impl Clone for ReplyFrame {
    ghost is_clone = { λ frame copy. copy ≡ frame };

    fn clone(&self) -> Result<ReplyFrame, AllocError> {
        Ok(ReplyFrame {
            packed: self.packed.clone()?,
        })
    }
}

impl ReplyFrame {
    /// This frame, which is a reply.
    #[inline(always)]
    pub(crate) fn new(packed: Packed) -> ReplyFrame
        requires { IsReply packed }
        ensures { result ≡ packed }
    {
        ReplyFrame { packed }
    }

    /// The frame as its bytes.
    #[inline(always)]
    pub(crate) fn into_packed(self) -> Packed
        ensures frame { result ≡ self }
        ensures reply { IsReply result }
    {
        let ReplyFrame { packed } = self;
        packed
    }

    /// Does nothing. Its contract says what the frame is.
    pub(crate) fn is_reply(&self)
        ensures { IsReply self.now }
    {
        let _ = &self.packed;
    }

    /// Sends the frame, which is not set aside.
    #[inline(always)]
    pub(crate) fn send<K: Sink>(&self, sink: &mut K) -> Sending
        ensures sends { Sends result self.now (K.told sink.old) (K.told sink.new) }
        ensures kept { is_set_aside self.now ≡ false }
    {
        self.packed.send(sink)
    }
}
