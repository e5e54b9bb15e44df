//! What GETATTR says.
ghost use Rattle.std.specs.Prelude.{⊤};
ghost use Rattle.fuse_wire.specs.FlagNames.{getattr_flags_table};

use crate::flags::named_flags;
use bitflags::{Flag, Flags};

/// What GETATTR says: `getattr_flags` of `struct fuse_getattr_in`, the bits `FUSE_GETATTR_`.
#[derive(Clone, Copy, Debug, PartialEq, Eq, Hash)]
pub struct GetattrFlags(u32);

impl GetattrFlags {
    /// The field `fh` is valid.
    pub const FUSE_GETATTR_FH: GetattrFlags = GetattrFlags(1 << 0);
}

impl Flags for GetattrFlags {
    type Bits = u32;

    ghost exact = { ⊤ };

    ghost table = { getattr_flags_table };

    ghost set_of = { λ f. f.0 };

    fn flags<'a>() -> &'a [Flag<GetattrFlags>] {
        named_flags![FUSE_GETATTR_FH]
    }

    fn bits(&self) -> u32 {
        self.0
    }

    fn from_bits_retain(bits: u32) -> GetattrFlags {
        GetattrFlags(bits)
    }
}
