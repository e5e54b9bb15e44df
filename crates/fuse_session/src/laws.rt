//! Laws of the definitions. Each function here does nothing, or gives a default: its contract is the law, which holds
//! of all values.
ghost use Rattle.std.specs.Prelude.{◌≡◌};
ghost use Rattle.fuse_loop.specs.Progress.{nothing_yet};
ghost use Rattle.fuse_wire.specs.Numbered.{SaysSame};

use crate::{InvalidData, SessionError, Transcript};

/// Ends of a session are equal where they are the same, and so are the numbers of what it did.
pub fn equal_where_they_are_the_same()
    ensures faults { SaysSame ⟦<InvalidData as PartialEq>⟧.eq }
    ensures errors { SaysSame ⟦<SessionError as PartialEq>⟧.eq }
    ensures transcripts { SaysSame ⟦<Transcript as PartialEq>⟧.eq }
{}

/// A transcript of which nothing is said has no message, no frame and no note.
pub fn nothing_is_done_by_default() -> Transcript
    ensures { result ≡ nothing_yet }
{
    Transcript::default()
}
