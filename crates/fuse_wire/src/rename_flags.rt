//! How a file is renamed.
ghost use Rattle.std.specs.Prelude.{⊤, Some, decimal};
ghost use Rattle.std.specs.Fmt.{styled_decimal};
ghost use Rattle.fuse_wire.specs.FlagNames.{rename_flags_table};

use crate::flags::named_flags;
use bitflags::{Flag, Flags};
use std::fmt;

/// How to rename: `flags` of `struct fuse_rename2_in`, which are those of `renameat2(2)`.
#[derive(Clone, Copy, Debug, PartialEq, Eq, Hash)]
pub struct RenameFlags(u32);

impl RenameFlags {
    /// Nothing is replaced: where the new name is taken, the rename fails.
    pub const RENAME_NOREPLACE: RenameFlags = RenameFlags(1 << 0);

    /// The two names change places, and both must be there.
    pub const RENAME_EXCHANGE: RenameFlags = RenameFlags(1 << 1);

    /// A whiteout is left at the old name.
    pub const RENAME_WHITEOUT: RenameFlags = RenameFlags(1 << 2);
}

impl Flags for RenameFlags {
    type Bits = u32;

    ghost exact = { ⊤ };

    ghost table = { rename_flags_table };

    ghost set_of = { λ f. f.0 };

    fn flags<'a>() -> &'a [Flag<RenameFlags>] {
        named_flags![RENAME_NOREPLACE, RENAME_EXCHANGE, RENAME_WHITEOUT,]
    }

    fn bits(&self) -> u32 {
        self.0
    }

    fn from_bits_retain(bits: u32) -> RenameFlags {
        RenameFlags(bits)
    }
}

impl fmt::Display for RenameFlags {
    ghost output = { λ f. Some (decimal f.0) };

    ghost styled_output = { λ f style. Some (styled_decimal style f.0) };

    fn fmt<W: fmt::Write>(&self, f: &mut fmt::Formatter<W>) -> fmt::Result {
        fmt::Display::fmt(&self.0, f)
    }
}
