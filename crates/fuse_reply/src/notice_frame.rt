// The frame of a notice.
ghost use Rattle.std.specs.Prelude.{◌≡◌, true};
ghost use Rattle.fuse_wire.specs.Sink.{Sends};
ghost use Rattle.fuse_reply.specs.Frame.{frame_status, is_set_aside};
ghost use Rattle.fuse_reply.specs.Notice.{IsNoticeFrame};

use crate::Packed;
use fuse_wire::{Sending, Sink};
use std::alloc::AllocError;
use std::marker::Model;

/// The frame of a notice: what is told to the kernel unasked. A contract sees its bytes, and they are a notice in range,
/// always.
#[derive(Debug, Drop)]
pub struct NoticeFrame {
    packed: Packed,
}

impl Model for NoticeFrame {
    ghost use Rattle.std.specs.Prelude.{ℕ, List};
    ghost use Rattle.fuse_reply.specs.Notice.{IsNoticeFrame};

    ghost Value = { List ℕ };

    ghost view = { λ f. f.packed };

    ghost invariant = { λ f. IsNoticeFrame f.packed };
}

/// A copy is the same frame.
impl Clone for NoticeFrame {
    ghost is_clone = { λ frame copy. copy ≡ frame };

    fn clone(&self) -> Result<NoticeFrame, AllocError> {
        Ok(NoticeFrame {
            packed: self.packed.clone()?,
        })
    }
}

impl NoticeFrame {
    /// This frame, which is a notice.
    #[inline(always)]
    pub fn new(packed: Packed) -> NoticeFrame
        requires { IsNoticeFrame packed }
        ensures { result ≡ packed }
    {
        NoticeFrame { packed }
    }

    /// Does nothing. Its contract says what the frame is.
    pub fn is_notice(&self)
        ensures { IsNoticeFrame self.now }
    {
        let _ = &self.packed;
    }

    /// The code of the notice (`enum fuse_notify_code`), which stands where a reply has its status.
    #[inline(always)]
    pub fn code(&self) -> i32
        ensures { result ≡ frame_status self.now }
    {
        self.packed.status()
    }

    /// Sends the frame, which is set aside.
    #[inline(always)]
    pub fn send<K: Sink>(&self, sink: &mut K) -> Sending
        ensures sends { Sends result self.now (K.told sink.old) (K.told sink.new) }
        ensures aside { is_set_aside self.now ≡ true }
        ensures notice { IsNoticeFrame self.now }
    {
        self.packed.send(sink)
    }
}
