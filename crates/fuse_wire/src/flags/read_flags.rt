//! How a file is read.
ghost use Rattle.std.specs.Prelude.{⊤};
ghost use Rattle.fuse_wire.specs.FlagNames.{read_flags_table};

use crate::flags::named_flags;
use bitflags::{Flag, Flags};

/// How to read: `read_flags` of `struct fuse_read_in`, the bits `FUSE_READ_`.
#[derive(Clone, Copy, Debug, PartialEq, Eq, Hash)]
pub struct ReadFlags(u32);

impl ReadFlags {
    /// The field `lock_owner` is valid.
    pub const FUSE_READ_LOCKOWNER: ReadFlags = ReadFlags(1 << 1);
}

impl Flags for ReadFlags {
    type Bits = u32;

    ghost exact = { ⊤ };

    ghost table = { read_flags_table };

    ghost set_of = { λ f. f.0 };

    fn flags<'a>() -> &'a [Flag<ReadFlags>] {
        named_flags![FUSE_READ_LOCKOWNER]
    }

    fn bits(&self) -> u32 {
        self.0
    }

    fn from_bits_retain(bits: u32) -> ReadFlags {
        ReadFlags(bits)
    }
}
