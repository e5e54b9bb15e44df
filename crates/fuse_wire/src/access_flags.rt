//! What ACCESS asks.
ghost use Rattle.std.specs.Prelude.{◌≡◌, pos, Some};
ghost use Rattle.std.specs.Int.{w32, int_bit_or};
ghost use Rattle.std.specs.Fmt.{signed_decimal, styled_signed_decimal};
ghost use Rattle.fuse_wire.specs.AccessFlags.{has_access};

use std::fmt;

/// What is asked of a file: `mask` of `struct fuse_access_in`, whose bits are those of `access(2)`.
#[derive(Clone, Copy, Debug, PartialEq, Eq, Hash)]
pub struct AccessFlags(i32);

impl AccessFlags {
    /// Whether the file is there, which is no bit.
    pub const F_OK: AccessFlags = AccessFlags(0);

    /// Whether it may be run, or a directory searched.
    pub const X_OK: AccessFlags = AccessFlags(1);

    /// Whether it may be written.
    pub const W_OK: AccessFlags = AccessFlags(2);

    /// Whether it may be read.
    pub const R_OK: AccessFlags = AccessFlags(4);

    /// No bit.
    pub fn empty() -> AccessFlags
        ensures { result.0 ≡ pos 0 }
    {
        AccessFlags(0)
    }

    /// The bits as the protocol has them.
    pub fn bits(&self) -> i32
        ensures { result ≡ self.now.0 }
    {
        self.0
    }

    /// Exactly these bits, even those that have no name.
    pub fn from_bits_retain(bits: i32) -> AccessFlags
        ensures { result.0 ≡ bits }
    {
        AccessFlags(bits)
    }

    /// Whether this has every bit of `other`.
    pub fn contains(&self, other: AccessFlags) -> bool
        ensures { result ≡ has_access self.now.0 other.0 }
    {
        self.0 & other.0 == other.0
    }

    /// The bits that either has.
    pub fn union(self, other: AccessFlags) -> AccessFlags
        ensures { result.0 ≡ int_bit_or w32 self.0 other.0 }
    {
        AccessFlags(self.0 | other.0)
    }
}

impl fmt::Display for AccessFlags {
    ghost output = { λ f. Some (signed_decimal f.0) };

    ghost styled_output = { λ f style. Some (styled_signed_decimal style f.0) };

    fn fmt<W: fmt::Write>(&self, f: &mut fmt::Formatter<W>) -> fmt::Result {
        fmt::Display::fmt(&self.0, f)
    }
}
