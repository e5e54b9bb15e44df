//! How a range is copied.
ghost use Rattle.std.specs.Prelude.{⊤, []};

use bitflags::{Flag, Flags};

/// How to copy a range: `flags` of `struct fuse_copy_file_range_in`. No bit has a name.
#[derive(Clone, Copy, Debug, PartialEq, Eq, Hash)]
pub struct CopyFileRangeFlags(u64);

impl Flags for CopyFileRangeFlags {
    type Bits = u64;

    ghost exact = { ⊤ };

    ghost table = { [] };

    ghost set_of = { λ f. f.0 };

    fn flags<'a>() -> &'a [Flag<CopyFileRangeFlags>] {
        &[]
    }

    fn bits(&self) -> u64 {
        self.0
    }

    fn from_bits_retain(bits: u64) -> CopyFileRangeFlags {
        CopyFileRangeFlags(bits)
    }
}
