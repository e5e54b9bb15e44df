// What is asked about two places in directories.
ghost use Rattle.std.specs.Prelude.{◌≡◌};

use bitflags::Flags;
use fuse_args::Rename2Arguments;
use fuse_wire::{INodeNo, RenameFlags};
use std::marker::Model;

/// A name in a directory.
#[derive(Clone, Copy, Debug, PartialEq, Eq)]
pub struct FilenameInDir<'a> {
    /// The directory.
    pub dir: INodeNo,
    /// The name, without the zero byte that ends it.
    pub name: &'a [u8],
}

/// RENAME: a name moves to another place.
#[derive(Drop)]
pub struct Rename<'a> {
    /// The node of the request.
    pub(crate) node: INodeNo,
    /// The number of the directory that it moves to.
    pub(crate) newdir: u64,
    /// The name that it has, without the zero byte that ends it.
    pub(crate) old_name: &'a [u8],
    /// The name that it gets, without the zero byte that ends it.
    pub(crate) new_name: &'a [u8],
}

impl<'a> Model for Rename<'a> {
    ghost use Rattle.fuse_request.specs.Carried.{Moved};

    ghost Value = { Moved };

    ghost view = { λ a. record {
      node = a.node;
      newdir = a.newdir;
      old_name = a.old_name.now;
      new_name = a.new_name.now;
    } };
}

impl<'a> Rename<'a> {
    /// The place that it moves from, which is in the node of the request.
    pub fn src(&self) -> FilenameInDir<'a>
        ensures dir { result.dir ≡ self.now.node }
        ensures name { result.name.now ≡ self.now.old_name }
    {
        FilenameInDir {
            dir: self.node,
            name: self.old_name,
        }
    }

    /// The place that it moves to.
    pub fn dest(&self) -> FilenameInDir<'a>
        ensures dir { result.dir.0 ≡ self.now.newdir }
        ensures name { result.name.now ≡ self.now.new_name }
    {
        FilenameInDir {
            dir: INodeNo(self.newdir),
            name: self.new_name,
        }
    }
}

/// RENAME2: a name moves to another place, in a way that flags say.
#[derive(Drop)]
pub struct Rename2<'a> {
    /// The node of the request.
    pub(crate) node: INodeNo,
    /// The fixed part, as it was sent.
    pub(crate) arguments: Rename2Arguments,
    /// The name that it has, without the zero byte that ends it.
    pub(crate) old_name: &'a [u8],
    /// The name that it gets, without the zero byte that ends it.
    pub(crate) new_name: &'a [u8],
}

impl<'a> Model for Rename2<'a> {
    ghost use Rattle.fuse_request.specs.Carried.{MovedByFlags};

    ghost Value = { MovedByFlags };

    ghost view = { λ a. record {
      node = a.node;
      arguments = a.arguments;
      old_name = a.old_name.now;
      new_name = a.new_name.now;
    } };
}

impl<'a> Rename2<'a> {
    /// The place that it moves from, which is in the node of the request.
    pub fn from(&self) -> FilenameInDir<'a>
        ensures dir { result.dir ≡ self.now.node }
        ensures name { result.name.now ≡ self.now.old_name }
    {
        FilenameInDir {
            dir: self.node,
            name: self.old_name,
        }
    }

    /// The place that it moves to.
    pub fn to(&self) -> FilenameInDir<'a>
        ensures dir { result.dir.0 ≡ self.now.arguments.newdir }
        ensures name { result.name.now ≡ self.now.new_name }
    {
        FilenameInDir {
            dir: INodeNo(self.arguments.newdir),
            name: self.new_name,
        }
    }

    /// How it moves.
    pub fn flags(&self) -> RenameFlags
        ensures { result.0 ≡ self.now.arguments.flags }
    {
        RenameFlags::from_bits_retain(self.arguments.flags)
    }
}

/// LINK: an inode gets another name.
#[derive(Drop)]
pub struct Link<'a> {
    /// The node of the request.
    pub(crate) node: INodeNo,
    /// The number of the inode that gets the name.
    pub(crate) oldnodeid: u64,
    /// The name that it gets, without the zero byte that ends it.
    pub(crate) new_name: &'a [u8],
}

impl<'a> Model for Link<'a> {
    ghost use Rattle.fuse_request.specs.Carried.{Linked};

    ghost Value = { Linked };

    ghost view = { λ a. record { node = a.node; oldnodeid = a.oldnodeid; new_name = a.new_name.now } };
}

impl<'a> Link<'a> {
    /// The inode.
    pub fn inode_no(&self) -> INodeNo
        ensures { result.0 ≡ self.now.oldnodeid }
    {
        INodeNo(self.oldnodeid)
    }

    /// The place of the new name, which is in the node of the request.
    pub fn dest(&self) -> FilenameInDir<'a>
        ensures dir { result.dir ≡ self.now.node }
        ensures name { result.name.now ≡ self.now.new_name }
    {
        FilenameInDir {
            dir: self.node,
            name: self.new_name,
        }
    }
}
