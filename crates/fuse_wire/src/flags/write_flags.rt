//! How a file is written.
ghost use Rattle.std.specs.Prelude.{⊤};
ghost use Rattle.fuse_wire.specs.FlagNames.{write_flags_table};

use crate::flags::named_flags;
use bitflags::{Flag, Flags};

/// How to write: `write_flags` of `struct fuse_write_in`, the bits `FUSE_WRITE_`.
#[derive(Clone, Copy, Debug, PartialEq, Eq, Hash)]
pub struct WriteFlags(u32);

impl WriteFlags {
    /// The write comes late, from the page cache, and its file handle is a guess.
    pub const FUSE_WRITE_CACHE: WriteFlags = WriteFlags(1 << 0);

    /// The field `lock_owner` is valid.
    pub const FUSE_WRITE_LOCKOWNER: WriteFlags = WriteFlags(1 << 1);

    /// The bits of set-user-id and set-group-id are to be cleared.
    pub const FUSE_WRITE_KILL_SUIDGID: WriteFlags = WriteFlags(1 << 2);
}

impl Flags for WriteFlags {
    type Bits = u32;

    ghost exact = { ⊤ };

    ghost table = { write_flags_table };

    ghost set_of = { λ f. f.0 };

    fn flags<'a>() -> &'a [Flag<WriteFlags>] {
        named_flags![
            FUSE_WRITE_CACHE,
            FUSE_WRITE_LOCKOWNER,
            FUSE_WRITE_KILL_SUIDGID,
        ]
    }

    fn bits(&self) -> u32 {
        self.0
    }

    fn from_bits_retain(bits: u32) -> WriteFlags {
        WriteFlags(bits)
    }
}
