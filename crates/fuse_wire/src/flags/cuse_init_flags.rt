//! What a character device may do.
ghost use Rattle.std.specs.Prelude.{⊤, Some, decimal};
ghost use Rattle.std.specs.Fmt.{styled_decimal};
ghost use Rattle.fuse_wire.specs.FlagNames.{cuse_init_flags_table};

use crate::flags::named_flags;
use bitflags::{Flag, Flags};
use std::fmt;

/// What a character device may do: `flags` of `struct cuse_init_in` and of `struct cuse_init_out`.
#[derive(Clone, Copy, Debug, PartialEq, Eq, Hash)]
pub struct CuseInitFlags(u32);

impl CuseInitFlags {
    /// Its `ioctl` need not say what it reads and writes.
    pub const CUSE_UNRESTRICTED_IOCTL: CuseInitFlags = CuseInitFlags(1 << 0);
}

impl Flags for CuseInitFlags {
    type Bits = u32;

    ghost exact = { ⊤ };

    ghost table = { cuse_init_flags_table };

    ghost set_of = { λ f. f.0 };

    fn flags<'a>() -> &'a [Flag<CuseInitFlags>] {
        named_flags![CUSE_UNRESTRICTED_IOCTL]
    }

    fn bits(&self) -> u32 {
        self.0
    }

    fn from_bits_retain(bits: u32) -> CuseInitFlags {
        CuseInitFlags(bits)
    }
}

impl fmt::Display for CuseInitFlags {
    ghost output = { λ f. Some (decimal f.0) };

    ghost styled_output = { λ f style. Some (styled_decimal style f.0) };

    fn fmt<W: fmt::Write>(&self, f: &mut fmt::Formatter<W>) -> fmt::Result {
        fmt::Display::fmt(&self.0, f)
    }
}
