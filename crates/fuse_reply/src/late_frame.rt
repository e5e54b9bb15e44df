// The frame of a reply that comes later.
ghost use Rattle.std.specs.Prelude.{◌≡◌};
ghost use Rattle.fuse_reply.specs.Late.{IsFrameFor, IsReplyTo, late};
ghost use Rattle.fuse_reply.specs.declared.out.Out.{Out};

use crate::{Out, Packed, Replied, ReplyFrame};
use fuse_wire::RequestId;
use std::alloc::AllocError;
use std::marker::Model;

/// The frame of a reply that comes later than its method has returned, with the number of the message that it is for. A
/// contract sees the number, the id of the request, and the frame's bytes, which are the reply to that request, always.
#[derive(Debug, Drop)]
pub struct LateFrame {
    seq: u64,
    id: RequestId,
    packed: Packed,
}

impl Model for LateFrame {
    ghost use Rattle.fuse_reply.specs.Late.{IsReplyTo, LateSeen, late};

    ghost Value = { LateSeen };

    ghost view = { λ f. late f.seq f.id.0 f.packed };

    ghost invariant = { λ f. IsReplyTo f.id.0 f.packed };
}

/// A copy is the same.
impl Clone for LateFrame {
    ghost is_clone = { λ frame copy. copy ≡ frame };

    fn clone(&self) -> Result<LateFrame, AllocError> {
        Ok(LateFrame {
            seq: self.seq,
            id: self.id,
            packed: self.packed.clone()?,
        })
    }
}

impl LateFrame {
    /// What this reply to the request of this id is for the message of this number: what a token would send, for whoever
    /// has no line to send it through.
    pub fn of_replied(seq: u64, id: RequestId, replied: Replied) -> LateFrame
        requires { IsFrameFor id.0 replied }
        ensures message { result.seq ≡ seq }
        ensures request { result.id ≡ id.0 }
        ensures frame { replied ≡ Out.Frame result.frame }
    {
        let Out::Frame(frame) = replied.into_out() else {
            unreachable!()
        };
        LateFrame::new(seq, id, frame.into_packed())
    }

    /// This frame, which is the reply to the request of this id, for the message of this number.
    #[inline(always)]
    pub(crate) fn new(seq: u64, id: RequestId, packed: Packed) -> LateFrame
        requires { IsReplyTo id.0 packed }
        ensures { result ≡ late seq id.0 packed }
    {
        LateFrame { seq, id, packed }
    }

    /// The number of the message.
    #[inline(always)]
    pub fn seq(&self) -> u64
        ensures { result ≡ self.now.seq }
    {
        self.seq
    }

    /// The id of the request.
    #[inline(always)]
    pub fn id(&self) -> RequestId
        ensures { result.0 ≡ self.now.id }
    {
        self.id
    }

    /// Does nothing. Its contract says what the frame is.
    pub fn is_reply(&self)
        ensures { IsReplyTo self.now.id self.now.frame }
    {
        let _ = &self.packed;
    }

    /// What goes out: the frame, which is a reply.
    pub fn into_out(self) -> Out
        ensures frame { result ≡ Out.Frame self.frame }
        ensures reply { IsReplyTo self.id self.frame }
    {
        Out::Frame(ReplyFrame::new(self.into_packed()))
    }

    /// The frame.
    #[inline(always)]
    pub(crate) fn into_packed(self) -> Packed
        ensures frame { result ≡ self.frame }
        ensures reply { IsReplyTo self.id result }
    {
        let LateFrame {
            seq: _,
            id: _,
            packed,
        } = self;
        packed
    }
}
