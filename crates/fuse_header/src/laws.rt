//! Laws of the definitions. Each function here does nothing: its contract is the law, which holds of all its arguments.
ghost use Rattle.fuse_wire.specs.Numbered.{SaysSame};

use crate::{Request, RequestError};

/// Errors and what is told of a request are equal where they are the same.
pub fn equal_where_they_are_the_same()
    ensures errors { SaysSame ⟦<RequestError as PartialEq>⟧.eq }
    ensures requests { SaysSame ⟦<Request as PartialEq>⟧.eq }
{}
