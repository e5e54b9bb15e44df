//! How an opened file is treated.
ghost use Rattle.std.specs.Prelude.{⊤};
ghost use Rattle.fuse_wire.specs.FlagNames.{fopen_flags_table};

use crate::flags::named_flags;
use bitflags::{Flag, Flags};

/// How an opened file or directory is treated: `open_flags` of `struct fuse_open_out`, the bits `FOPEN_`.
#[derive(Clone, Copy, Debug, PartialEq, Eq, Hash)]
pub struct FopenFlags(u32);

impl FopenFlags {
    /// Reads and writes do not go through the page cache.
    pub const FOPEN_DIRECT_IO: FopenFlags = FopenFlags(1 << 0);

    /// What is cached of the file stays valid at this open.
    pub const FOPEN_KEEP_CACHE: FopenFlags = FopenFlags(1 << 1);

    /// The file can't be read from another place: `lseek(2)` fails.
    pub const FOPEN_NONSEEKABLE: FopenFlags = FopenFlags(1 << 2);

    /// The entries of this directory may be cached.
    pub const FOPEN_CACHE_DIR: FopenFlags = FopenFlags(1 << 3);

    /// The file is a stream: it has no position at all, and no read or write waits for another because of it.
    pub const FOPEN_STREAM: FopenFlags = FopenFlags(1 << 4);

    /// Closing the file sends no FLUSH, unless `FUSE_WRITEBACK_CACHE` was granted.
    pub const FOPEN_NOFLUSH: FopenFlags = FopenFlags(1 << 5);

    /// Direct writes to the file may go on at the same time.
    pub const FOPEN_PARALLEL_DIRECT_WRITES: FopenFlags = FopenFlags(1 << 6);

    /// The kernel reads and writes another file in place of this one: one that the server registered with it.
    pub const FOPEN_PASSTHROUGH: FopenFlags = FopenFlags(1 << 7);
}

impl Flags for FopenFlags {
    type Bits = u32;

    ghost exact = { ⊤ };

    ghost table = { fopen_flags_table };

    ghost set_of = { λ f. f.0 };

    fn flags<'a>() -> &'a [Flag<FopenFlags>] {
        named_flags![
            FOPEN_DIRECT_IO,
            FOPEN_KEEP_CACHE,
            FOPEN_NONSEEKABLE,
            FOPEN_CACHE_DIR,
            FOPEN_STREAM,
            FOPEN_NOFLUSH,
            FOPEN_PARALLEL_DIRECT_WRITES,
            FOPEN_PASSTHROUGH,
        ]
    }

    fn bits(&self) -> u32 {
        self.0
    }

    fn from_bits_retain(bits: u32) -> FopenFlags {
        FopenFlags(bits)
    }
}
