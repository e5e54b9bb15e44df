//! The flags that a BSD marks a file with.
ghost use Rattle.std.specs.Prelude.{⊤, []};

use bitflags::{Flag, Flags};

/// The flags that a BSD marks a file with. On Linux no bit has a name, and no request carries them.
#[derive(Clone, Copy, Debug, PartialEq, Eq, Hash)]
pub struct BsdFileFlags(u32);

impl Flags for BsdFileFlags {
    type Bits = u32;

    ghost exact = { ⊤ };

    ghost table = { [] };

    ghost set_of = { λ f. f.0 };

    fn flags<'a>() -> &'a [Flag<BsdFileFlags>] {
        &[]
    }

    fn bits(&self) -> u32 {
        self.0
    }

    fn from_bits_retain(bits: u32) -> BsdFileFlags {
        BsdFileFlags(bits)
    }
}
