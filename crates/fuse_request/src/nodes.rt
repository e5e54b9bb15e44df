// What is asked about an inode.
ghost use Rattle.std.specs.Prelude.{◌≡◌};

use bitflags::Flags;
use fuse_args::{AccessArguments, GetAttrArguments};
use fuse_wire::{AccessFlags, FileHandle, GetattrFlags};
use std::marker::Model;

/// FORGET: the kernel gives back some of its lookups of an inode. It waits for no reply. A contract sees their number.
#[derive(Drop)]
pub struct Forget {
    /// How many lookups are given back.
    pub(crate) nlookup: u64,
}

impl Model for Forget {
    ghost use Rattle.std.specs.Prelude.{ℕ};

    ghost Value = { ℕ };

    ghost view = { λ a. a.nlookup };
}

impl Forget {
    /// How many lookups are given back.
    pub fn nlookup(&self) -> u64
        ensures { result ≡ self.now }
    {
        self.nlookup
    }
}

/// GETATTR: what the attributes of an inode are.
#[derive(Drop)]
pub struct GetAttr {
    /// The fixed part, as it was sent.
    pub(crate) arguments: GetAttrArguments,
}

impl Model for GetAttr {
    ghost use Rattle.fuse_args.specs.declared.fixed.nodes.GetAttrArguments.{GetAttrArguments};

    ghost Value = { GetAttrArguments };

    ghost view = { λ a. a.arguments };
}

impl GetAttr {
    ghost use Rattle.fuse_request.specs.Call.{handle_number};
    ghost use Rattle.fuse_request.specs.Fields.{getattr_handle};

    /// Which fields are valid: `FUSE_GETATTR_FH` for `fh`.
    pub fn getattr_flags(&self) -> GetattrFlags
        ensures { result.0 ≡ self.now.getattr_flags }
    {
        GetattrFlags::from_bits_retain(self.arguments.getattr_flags)
    }

    /// The open file through which it is asked, if there is one: where the flags have `FUSE_GETATTR_FH`.
    pub fn file_handle(&self) -> Option<FileHandle>
        ensures { handle_number result ≡ getattr_handle self.now }
    {
        self.getattr_flags()
            .contains(GetattrFlags::FUSE_GETATTR_FH)
            .then_some(FileHandle(self.arguments.fh))
    }
}

/// READLINK: where a symbolic link leads.
#[derive(Clone, Copy)]
pub struct ReadLink;

/// STATFS: how much room the filesystem has.
#[derive(Clone, Copy)]
pub struct StatFs;

/// ACCESS: whether the caller may use an inode so.
#[derive(Drop)]
pub struct Access {
    /// The fixed part, as it was sent.
    pub(crate) arguments: AccessArguments,
}

impl Model for Access {
    ghost use Rattle.fuse_args.specs.declared.fixed.nodes.AccessArguments.{AccessArguments};

    ghost Value = { AccessArguments };

    ghost view = { λ a. a.arguments };
}

impl Access {
    /// What the caller wants to do.
    pub fn mask(&self) -> AccessFlags
        ensures { result.0 ≡ self.now.mask }
    {
        AccessFlags::from_bits_retain(self.arguments.mask)
    }
}
