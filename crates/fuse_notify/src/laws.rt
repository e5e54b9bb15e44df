//! Laws of the definitions. The function here does nothing: its contract is the law.
ghost use Rattle.fuse_wire.specs.Numbered.{SaysSame};

use crate::{NoticeError, NotifyError, Undelivered};

/// Errors are equal where they are the same.
pub fn equal_where_they_are_the_same()
    ensures making { SaysSame ⟦<NoticeError as PartialEq>⟧.eq }
    ensures delivering { SaysSame ⟦<Undelivered as PartialEq>⟧.eq }
    ensures queueing { SaysSame ⟦<NotifyError as PartialEq>⟧.eq }
{}
