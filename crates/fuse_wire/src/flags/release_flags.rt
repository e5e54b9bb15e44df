//! What a release does.
ghost use Rattle.std.specs.Prelude.{⊤, Some, decimal};
ghost use Rattle.std.specs.Fmt.{styled_decimal};
ghost use Rattle.fuse_wire.specs.FlagNames.{release_flags_table};

use crate::flags::named_flags;
use bitflags::{Flag, Flags};
use std::fmt;

/// What else a release does: `release_flags` of `struct fuse_release_in`, the bits `FUSE_RELEASE_`.
#[derive(Clone, Copy, Debug, PartialEq, Eq, Hash)]
pub struct ReleaseFlags(u32);

impl ReleaseFlags {
    /// It flushes the file.
    pub const FUSE_RELEASE_FLUSH: ReleaseFlags = ReleaseFlags(1 << 0);

    /// It gives up the locks that `flock` took on the file.
    pub const FUSE_RELEASE_FLOCK_UNLOCK: ReleaseFlags = ReleaseFlags(1 << 1);
}

impl Flags for ReleaseFlags {
    type Bits = u32;

    ghost exact = { ⊤ };

    ghost table = { release_flags_table };

    ghost set_of = { λ f. f.0 };

    fn flags<'a>() -> &'a [Flag<ReleaseFlags>] {
        named_flags![FUSE_RELEASE_FLUSH, FUSE_RELEASE_FLOCK_UNLOCK]
    }

    fn bits(&self) -> u32 {
        self.0
    }

    fn from_bits_retain(bits: u32) -> ReleaseFlags {
        ReleaseFlags(bits)
    }
}

impl fmt::Display for ReleaseFlags {
    ghost output = { λ f. Some (decimal f.0) };

    ghost styled_output = { λ f style. Some (styled_decimal style f.0) };

    fn fmt<W: fmt::Write>(&self, f: &mut fmt::Formatter<W>) -> fmt::Result {
        fmt::Display::fmt(&self.0, f)
    }
}
