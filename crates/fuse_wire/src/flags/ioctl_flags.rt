//! How an `ioctl` is called.
ghost use Rattle.std.specs.Prelude.{⊤, Some, decimal};
ghost use Rattle.std.specs.Fmt.{styled_decimal};
ghost use Rattle.fuse_wire.specs.FlagNames.{ioctl_flags_table};

use crate::flags::named_flags;
use bitflags::{Flag, Flags};
use std::fmt;

/// How an `ioctl` is called: `flags` of `struct fuse_ioctl_in` and of `struct fuse_ioctl_out`, the bits `FUSE_IOCTL_`.
#[derive(Clone, Copy, Debug, PartialEq, Eq, Hash)]
pub struct IoctlFlags(u32);

impl IoctlFlags {
    /// A 32-bit program calls, on a 64-bit machine.
    pub const FUSE_IOCTL_COMPAT: IoctlFlags = IoctlFlags(1 << 0);

    /// The command need not say what it reads and writes, and may be tried again.
    pub const FUSE_IOCTL_UNRESTRICTED: IoctlFlags = IoctlFlags(1 << 1);

    /// The kernel is to try again with other pieces of memory.
    pub const FUSE_IOCTL_RETRY: IoctlFlags = IoctlFlags(1 << 2);

    /// The call is one of 32 bits.
    pub const FUSE_IOCTL_32BIT: IoctlFlags = IoctlFlags(1 << 3);

    /// It is called on a directory.
    pub const FUSE_IOCTL_DIR: IoctlFlags = IoctlFlags(1 << 4);

    /// A program of the x32 kind called, whose times have 64 bits.
    pub const FUSE_IOCTL_COMPAT_X32: IoctlFlags = IoctlFlags(1 << 5);
}

impl Flags for IoctlFlags {
    type Bits = u32;

    ghost exact = { ⊤ };

    ghost table = { ioctl_flags_table };

    ghost set_of = { λ f. f.0 };

    fn flags<'a>() -> &'a [Flag<IoctlFlags>] {
        named_flags![
            FUSE_IOCTL_COMPAT,
            FUSE_IOCTL_UNRESTRICTED,
            FUSE_IOCTL_RETRY,
            FUSE_IOCTL_32BIT,
            FUSE_IOCTL_DIR,
            FUSE_IOCTL_COMPAT_X32,
        ]
    }

    fn bits(&self) -> u32 {
        self.0
    }

    fn from_bits_retain(bits: u32) -> IoctlFlags {
        IoctlFlags(bits)
    }
}

impl fmt::Display for IoctlFlags {
    ghost output = { λ f. Some (decimal f.0) };

    ghost styled_output = { λ f style. Some (styled_decimal style f.0) };

    fn fmt<W: fmt::Write>(&self, f: &mut fmt::Formatter<W>) -> fmt::Result {
        fmt::Display::fmt(&self.0, f)
    }
}
