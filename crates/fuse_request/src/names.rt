// What is asked about a name in a directory.
ghost use Rattle.std.specs.Prelude.{◌≡◌};

use fuse_args::{CreateArguments, MkDirArguments, MkNodArguments};
use std::marker::Model;

/// LOOKUP: which inode a name in a directory means.
#[derive(Drop)]
pub struct Lookup<'a> {
    /// The name, without the zero byte that ends it.
    pub(crate) name: &'a [u8],
}

impl<'a> Model for Lookup<'a> {
    ghost use Rattle.std.specs.Prelude.{ℕ, List};

    ghost Value = { List ℕ };

    ghost view = { λ a. a.name.now };
}

impl<'a> Lookup<'a> {
    /// The name, without the zero byte that ends it.
    pub fn name(&self) -> &'a [u8]
        ensures { result.now ≡ self.now }
    {
        self.name
    }
}

/// SYMLINK: a symbolic link is made.
#[derive(Drop)]
pub struct SymLink<'a> {
    /// The name of the link, without the zero byte that ends it.
    pub(crate) link_name: &'a [u8],
    /// The path that the link leads to.
    pub(crate) target: &'a [u8],
}

impl<'a> Model for SymLink<'a> {
    ghost use Rattle.fuse_request.specs.Carried.{LinkedPath};

    ghost Value = { LinkedPath };

    ghost view = { λ a. record { link_name = a.link_name.now; target = a.target.now } };
}

impl<'a> SymLink<'a> {
    /// The name of the link.
    pub fn link_name(&self) -> &'a [u8]
        ensures { result.now ≡ self.now.link_name }
    {
        self.link_name
    }

    /// The path that it leads to.
    pub fn target(&self) -> &'a [u8]
        ensures { result.now ≡ self.now.target }
    {
        self.target
    }
}

/// MKNOD: a file or a device is made.
#[derive(Drop)]
pub struct MkNod<'a> {
    /// The fixed part, as it was sent.
    pub(crate) arguments: MkNodArguments,
    /// The name, without the zero byte that ends it.
    pub(crate) name: &'a [u8],
}

impl<'a> Model for MkNod<'a> {
    ghost use Rattle.fuse_args.specs.declared.fixed.nodes.MkNodArguments.{MkNodArguments};
    ghost use Rattle.fuse_request.specs.Carried.{Named};

    ghost Value = { Named MkNodArguments };

    ghost view = { λ a. record { arguments = a.arguments; name = a.name.now } };
}

impl<'a> MkNod<'a> {
    /// The name, without the zero byte that ends it.
    pub fn name(&self) -> &'a [u8]
        ensures { result.now ≡ self.now.name }
    {
        self.name
    }

    /// The kind and the permissions.
    pub fn mode(&self) -> u32
        ensures { result ≡ self.now.arguments.mode }
    {
        self.arguments.mode
    }

    /// The permissions that the caller masks.
    pub fn umask(&self) -> u32
        ensures { result ≡ self.now.arguments.umask }
    {
        self.arguments.umask
    }

    /// The number of the device, where the kind is one, as `rdev` of `FileAttr` has it.
    pub fn rdev(&self) -> u32
        ensures { result ≡ self.now.arguments.rdev }
    {
        self.arguments.rdev
    }
}

/// MKDIR: a directory is made.
#[derive(Drop)]
pub struct MkDir<'a> {
    /// The fixed part, as it was sent.
    pub(crate) arguments: MkDirArguments,
    /// The name, without the zero byte that ends it.
    pub(crate) name: &'a [u8],
}

impl<'a> Model for MkDir<'a> {
    ghost use Rattle.fuse_args.specs.declared.fixed.nodes.MkDirArguments.{MkDirArguments};
    ghost use Rattle.fuse_request.specs.Carried.{Named};

    ghost Value = { Named MkDirArguments };

    ghost view = { λ a. record { arguments = a.arguments; name = a.name.now } };
}

impl<'a> MkDir<'a> {
    /// The name, without the zero byte that ends it.
    pub fn name(&self) -> &'a [u8]
        ensures { result.now ≡ self.now.name }
    {
        self.name
    }

    /// The permissions.
    pub fn mode(&self) -> u32
        ensures { result ≡ self.now.arguments.mode }
    {
        self.arguments.mode
    }

    /// The permissions that the caller masks.
    pub fn umask(&self) -> u32
        ensures { result ≡ self.now.arguments.umask }
    {
        self.arguments.umask
    }
}

/// UNLINK: a name of a file goes away.
#[derive(Drop)]
pub struct Unlink<'a> {
    /// The name, without the zero byte that ends it.
    pub(crate) name: &'a [u8],
}

impl<'a> Model for Unlink<'a> {
    ghost use Rattle.std.specs.Prelude.{ℕ, List};

    ghost Value = { List ℕ };

    ghost view = { λ a. a.name.now };
}

impl<'a> Unlink<'a> {
    /// The name, without the zero byte that ends it.
    pub fn name(&self) -> &'a [u8]
        ensures { result.now ≡ self.now }
    {
        self.name
    }
}

/// RMDIR: a directory goes away.
#[derive(Drop)]
pub struct RmDir<'a> {
    /// The name, without the zero byte that ends it.
    pub(crate) name: &'a [u8],
}

impl<'a> Model for RmDir<'a> {
    ghost use Rattle.std.specs.Prelude.{ℕ, List};

    ghost Value = { List ℕ };

    ghost view = { λ a. a.name.now };
}

impl<'a> RmDir<'a> {
    /// The name, without the zero byte that ends it.
    pub fn name(&self) -> &'a [u8]
        ensures { result.now ≡ self.now }
    {
        self.name
    }
}

/// CREATE: a file is made and opened.
#[derive(Drop)]
pub struct Create<'a> {
    /// The fixed part, as it was sent.
    pub(crate) arguments: CreateArguments,
    /// The name, without the zero byte that ends it.
    pub(crate) name: &'a [u8],
}

impl<'a> Model for Create<'a> {
    ghost use Rattle.fuse_args.specs.declared.fixed.files.CreateArguments.{CreateArguments};
    ghost use Rattle.fuse_request.specs.Carried.{Named};

    ghost Value = { Named CreateArguments };

    ghost view = { λ a. record { arguments = a.arguments; name = a.name.now } };
}

impl<'a> Create<'a> {
    /// The name, without the zero byte that ends it.
    pub fn name(&self) -> &'a [u8]
        ensures { result.now ≡ self.now.name }
    {
        self.name
    }

    /// The kind and the permissions.
    pub fn mode(&self) -> u32
        ensures { result ≡ self.now.arguments.mode }
    {
        self.arguments.mode
    }

    /// The flags of `open(2)`.
    pub fn flags(&self) -> i32
        ensures { result ≡ self.now.arguments.flags }
    {
        self.arguments.flags
    }

    /// The permissions that the caller masks.
    pub fn umask(&self) -> u32
        ensures { result ≡ self.now.arguments.umask }
    {
        self.arguments.umask
    }
}
