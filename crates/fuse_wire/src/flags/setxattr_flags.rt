//! What setting an extended attribute is to do beside.
ghost use Rattle.std.specs.Prelude.{⊤};
ghost use Rattle.fuse_wire.specs.FlagNames.{setxattr_flags_table};

use crate::flags::named_flags;
use bitflags::{Flag, Flags};

/// What setting an extended attribute is to do beside: `setxattr_flags` of `struct fuse_setxattr_in`, the bits
/// `FUSE_SETXATTR_`. A kernel sends them where `FUSE_SETXATTR_EXT` was granted.
#[derive(Clone, Copy, Debug, PartialEq, Eq, Hash)]
pub struct SetxattrFlags(u32);

impl SetxattrFlags {
    /// The attribute is `system.posix_acl_access`, and the bit of set-group-id is to be cleared.
    pub const FUSE_SETXATTR_ACL_KILL_SGID: SetxattrFlags = SetxattrFlags(1 << 0);
}

impl Flags for SetxattrFlags {
    type Bits = u32;

    ghost exact = { ⊤ };

    ghost table = { setxattr_flags_table };

    ghost set_of = { λ f. f.0 };

    fn flags<'a>() -> &'a [Flag<SetxattrFlags>] {
        named_flags![FUSE_SETXATTR_ACL_KILL_SGID]
    }

    fn bits(&self) -> u32 {
        self.0
    }

    fn from_bits_retain(bits: u32) -> SetxattrFlags {
        SetxattrFlags(bits)
    }
}
