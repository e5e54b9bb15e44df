//! Which attributes are set.
ghost use Rattle.std.specs.Prelude.{⊤};
ghost use Rattle.fuse_wire.specs.FlagNames.{fattr_flags_table};

use crate::flags::named_flags;
use bitflags::{Flag, Flags};

/// What SETATTR is to set: `valid` of `struct fuse_setattr_in`, the bits `FATTR_`.
#[derive(Clone, Copy, Debug, PartialEq, Eq, Hash)]
pub struct FattrFlags(u32);

impl FattrFlags {
    /// The permissions.
    pub const FATTR_MODE: FattrFlags = FattrFlags(1 << 0);

    /// The user who owns it.
    pub const FATTR_UID: FattrFlags = FattrFlags(1 << 1);

    /// The group that owns it.
    pub const FATTR_GID: FattrFlags = FattrFlags(1 << 2);

    /// The size.
    pub const FATTR_SIZE: FattrFlags = FattrFlags(1 << 3);

    /// The time of the last access.
    pub const FATTR_ATIME: FattrFlags = FattrFlags(1 << 4);

    /// The time of the last change of its contents.
    pub const FATTR_MTIME: FattrFlags = FattrFlags(1 << 5);

    /// The field `fh` is valid.
    pub const FATTR_FH: FattrFlags = FattrFlags(1 << 6);

    /// The time of the last access becomes the present.
    pub const FATTR_ATIME_NOW: FattrFlags = FattrFlags(1 << 7);

    /// The time of the last change of its contents becomes the present.
    pub const FATTR_MTIME_NOW: FattrFlags = FattrFlags(1 << 8);

    /// The field `lock_owner` is valid.
    pub const FATTR_LOCKOWNER: FattrFlags = FattrFlags(1 << 9);

    /// The time of the last change of its attributes.
    pub const FATTR_CTIME: FattrFlags = FattrFlags(1 << 10);
}

impl Flags for FattrFlags {
    type Bits = u32;

    ghost exact = { ⊤ };

    ghost table = { fattr_flags_table };

    ghost set_of = { λ f. f.0 };

    fn flags<'a>() -> &'a [Flag<FattrFlags>] {
        named_flags![
            FATTR_MODE,
            FATTR_UID,
            FATTR_GID,
            FATTR_SIZE,
            FATTR_ATIME,
            FATTR_MTIME,
            FATTR_FH,
            FATTR_ATIME_NOW,
            FATTR_MTIME_NOW,
            FATTR_LOCKOWNER,
            FATTR_CTIME,
        ]
    }

    fn bits(&self) -> u32 {
        self.0
    }

    fn from_bits_retain(bits: u32) -> FattrFlags {
        FattrFlags(bits)
    }
}
