//! How a file is polled.
ghost use Rattle.std.specs.Prelude.{⊤, Some, decimal};
ghost use Rattle.std.specs.Fmt.{styled_decimal};
ghost use Rattle.fuse_wire.specs.FlagNames.{poll_flags_table};

use crate::flags::named_flags;
use bitflags::{Flag, Flags};
use std::fmt;

/// How to poll: `flags` of `struct fuse_poll_in`, the bits `FUSE_POLL_`.
#[derive(Clone, Copy, Debug, PartialEq, Eq, Hash)]
pub struct PollFlags(u32);

impl PollFlags {
    /// The kernel wants a notice once the file is ready.
    pub const FUSE_POLL_SCHEDULE_NOTIFY: PollFlags = PollFlags(1 << 0);
}

impl Flags for PollFlags {
    type Bits = u32;

    ghost exact = { ⊤ };

    ghost table = { poll_flags_table };

    ghost set_of = { λ f. f.0 };

    fn flags<'a>() -> &'a [Flag<PollFlags>] {
        named_flags![FUSE_POLL_SCHEDULE_NOTIFY]
    }

    fn bits(&self) -> u32 {
        self.0
    }

    fn from_bits_retain(bits: u32) -> PollFlags {
        PollFlags(bits)
    }
}

impl fmt::Display for PollFlags {
    ghost output = { λ f. Some (decimal f.0) };

    ghost styled_output = { λ f style. Some (styled_decimal style f.0) };

    fn fmt<W: fmt::Write>(&self, f: &mut fmt::Formatter<W>) -> fmt::Result {
        fmt::Display::fmt(&self.0, f)
    }
}
