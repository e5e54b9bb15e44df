// What is asked about extended attributes.
ghost use Rattle.std.specs.Prelude.{◌≡◌};

use bitflags::Flags;
use fuse_args::{GetXAttrArguments, SetXAttrArguments};
use fuse_wire::SetxattrFlags;
use std::marker::Model;
use std::num::NonZeroU32;

/// The size of an extended attribute is wanted.
#[derive(Clone, Copy, Debug, PartialEq, Eq)]
pub struct GetXAttrSize;

/// What GETXATTR wants.
#[derive(Clone, Copy, Debug, PartialEq, Eq)]
pub enum GetXAttrSizeEnum {
    /// The size alone.
    GetSize(GetXAttrSize),
    /// At most so many bytes of the value.
    Size(NonZeroU32),
}

/// SETXATTR: an extended attribute is set.
#[derive(Drop)]
pub struct SetXAttr<'a> {
    /// The fixed part, as it was sent.
    pub(crate) arguments: SetXAttrArguments,
    /// The name, without the zero byte that ends it.
    pub(crate) name: &'a [u8],
    /// The value, as long as the fixed part says.
    pub(crate) value: &'a [u8],
}

impl<'a> Model for SetXAttr<'a> {
    ghost use Rattle.fuse_request.specs.Carried.{NamedValue};

    ghost Value = { NamedValue };

    ghost view = { λ a. record { arguments = a.arguments; name = a.name.now; value = a.value.now } };
}

impl<'a> SetXAttr<'a> {
    /// The name, without the zero byte that ends it.
    pub fn name(&self) -> &'a [u8]
        ensures { result.now ≡ self.now.name }
    {
        self.name
    }

    /// The value.
    pub fn value(&self) -> &'a [u8]
        ensures { result.now ≡ self.now.value }
    {
        self.value
    }

    /// The flags of `setxattr(2)`.
    pub fn flags(&self) -> i32
        ensures { result ≡ self.now.arguments.flags }
    {
        self.arguments.flags
    }

    /// Where in the attribute the value goes: at its start, on Linux.
    pub fn position(&self) -> u32
        ensures { result ≡ 0 }
    {
        0
    }

    /// What else to do. It is empty where `FUSE_SETXATTR_EXT` was not granted.
    pub fn setxattr_flags(&self) -> SetxattrFlags
        ensures { result.0 ≡ self.now.arguments.setxattr_flags }
    {
        SetxattrFlags::from_bits_retain(self.arguments.setxattr_flags)
    }
}

/// GETXATTR: the value of an extended attribute.
#[derive(Drop)]
pub struct GetXAttr<'a> {
    /// The fixed part, as it was sent.
    pub(crate) arguments: GetXAttrArguments,
    /// The name, without the zero byte that ends it.
    pub(crate) name: &'a [u8],
}

impl<'a> Model for GetXAttr<'a> {
    ghost use Rattle.fuse_args.specs.declared.fixed.nodes.GetXAttrArguments.{GetXAttrArguments};
    ghost use Rattle.fuse_request.specs.Carried.{Named};

    ghost Value = { Named GetXAttrArguments };

    ghost view = { λ a. record { arguments = a.arguments; name = a.name.now } };
}

impl<'a> GetXAttr<'a> {
    ghost use Rattle.fuse_request.specs.Fields.{size_wanted};

    /// The name, without the zero byte that ends it.
    pub fn name(&self) -> &'a [u8]
        ensures { result.now ≡ self.now.name }
    {
        self.name
    }

    /// What is wanted: the value, or its size alone.
    pub fn size(&self) -> GetXAttrSizeEnum
        ensures { size_wanted result ≡ self.now.arguments.size }
    {
        match NonZeroU32::new(self.arguments.size) {
            Some(size) => GetXAttrSizeEnum::Size(size),
            None => GetXAttrSizeEnum::GetSize(GetXAttrSize),
        }
    }

    /// The most bytes that are wanted, or 0 where the size alone is.
    pub fn size_u32(&self) -> u32
        ensures { result ≡ self.now.arguments.size }
    {
        self.arguments.size
    }
}

/// LISTXATTR: the names of the extended attributes.
#[derive(Drop)]
pub struct ListXAttr {
    /// The fixed part, as it was sent.
    pub(crate) arguments: GetXAttrArguments,
}

impl Model for ListXAttr {
    ghost use Rattle.fuse_args.specs.declared.fixed.nodes.GetXAttrArguments.{GetXAttrArguments};

    ghost Value = { GetXAttrArguments };

    ghost view = { λ a. a.arguments };
}

impl ListXAttr {
    /// The most bytes that are wanted, or 0 where the size alone is.
    pub fn size(&self) -> u32
        ensures { result ≡ self.now.size }
    {
        self.arguments.size
    }
}

/// REMOVEXATTR: an extended attribute goes away.
#[derive(Drop)]
pub struct RemoveXAttr<'a> {
    /// The name, without the zero byte that ends it.
    pub(crate) name: &'a [u8],
}

impl<'a> Model for RemoveXAttr<'a> {
    ghost use Rattle.std.specs.Prelude.{ℕ, List};

    ghost Value = { List ℕ };

    ghost view = { λ a. a.name.now };
}

impl<'a> RemoveXAttr<'a> {
    /// The name, without the zero byte that ends it.
    pub fn name(&self) -> &'a [u8]
        ensures { result.now ≡ self.now }
    {
        self.name
    }
}
