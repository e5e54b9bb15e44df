//! Laws of the definitions. The functions here do nothing: their contracts are the laws.
ghost use Rattle.std.specs.Prelude.{◌≡◌};

use crate::LINE_PLACES;

/// A line of a run has 64 places.
pub fn a_line_has_64_places()
    ensures { LINE_PLACES ≡ 64 }
{}
