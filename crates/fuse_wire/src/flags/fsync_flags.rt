//! What is brought to the disk.
ghost use Rattle.std.specs.Prelude.{⊤, Some, decimal};
ghost use Rattle.std.specs.Fmt.{styled_decimal};
ghost use Rattle.fuse_wire.specs.FlagNames.{fsync_flags_table};

use crate::flags::named_flags;
use bitflags::{Flag, Flags};
use std::fmt;

/// What to bring to the disk: `fsync_flags` of `struct fuse_fsync_in`, the bits `FUSE_FSYNC_`.
#[derive(Clone, Copy, Debug, PartialEq, Eq, Hash)]
pub struct FsyncFlags(u32);

impl FsyncFlags {
    /// The contents alone, and not the attributes.
    pub const FUSE_FSYNC_FDATASYNC: FsyncFlags = FsyncFlags(1 << 0);
}

impl Flags for FsyncFlags {
    type Bits = u32;

    ghost exact = { ⊤ };

    ghost table = { fsync_flags_table };

    ghost set_of = { λ f. f.0 };

    fn flags<'a>() -> &'a [Flag<FsyncFlags>] {
        named_flags![FUSE_FSYNC_FDATASYNC]
    }

    fn bits(&self) -> u32 {
        self.0
    }

    fn from_bits_retain(bits: u32) -> FsyncFlags {
        FsyncFlags(bits)
    }
}

impl fmt::Display for FsyncFlags {
    ghost output = { λ f. Some (decimal f.0) };

    ghost styled_output = { λ f style. Some (styled_decimal style f.0) };

    fn fmt<W: fmt::Write>(&self, f: &mut fmt::Formatter<W>) -> fmt::Result {
        fmt::Display::fmt(&self.0, f)
    }
}
