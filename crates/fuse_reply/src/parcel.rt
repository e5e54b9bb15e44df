// What is handed to whoever sends.
ghost use Rattle.std.specs.Prelude.{◌≡◌};
ghost use Rattle.fuse_reply.specs.Parcel.{is_prompt};

use crate::{LateFrame, NoticeFrame, Out};
use fuse_line::Class;
use std::alloc::AllocError;

/// What goes from whoever answers or notifies to whoever sends.
#[derive(Debug, Drop)]
pub enum Parcel {
    /// What goes out for the message of this number.
    Prompt(u64, Out),
    /// A notice.
    Notice(NoticeFrame),
    /// The frame of a reply that comes later.
    Late(LateFrame),
}

/// A copy is the same.
impl Clone for Parcel {
    ghost is_clone = { λ parcel copy. copy ≡ parcel };

    fn clone(&self) -> Result<Parcel, AllocError> {
        match self {
            Parcel::Prompt(seq, out) => Ok(Parcel::Prompt(*seq, out.clone()?)),
            Parcel::Notice(frame) => Ok(Parcel::Notice(frame.clone()?)),
            Parcel::Late(frame) => Ok(Parcel::Late(frame.clone()?)),
        }
    }
}

/// What goes out for a message is an inner item: whoever notifies, or answers later, can't push it.
impl Class for Parcel {
    ghost is_inner = { is_prompt };

    /// Whether it goes out for a message.
    fn inner(&self) -> bool
        ensures { result ≡ is_prompt self.now }
    {
        matches!(self, Parcel::Prompt(_, _))
    }
}
