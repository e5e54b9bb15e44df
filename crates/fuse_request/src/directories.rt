// What is asked about the entries of an open directory.
ghost use Rattle.std.specs.Prelude.{◌≡◌};

use fuse_args::ReadArguments;
use fuse_wire::FileHandle;
use std::marker::{Model, PhantomData};

/// That entries alone are wanted.
#[derive(Clone, Copy)]
pub struct Plain;

/// That their attributes are wanted too.
#[derive(Clone, Copy)]
pub struct Plus;

/// READDIR and READDIRPLUS: entries of an open directory.
#[derive(Drop)]
pub struct Listing<K> {
    /// The fixed part, as it was sent.
    pub(crate) arguments: ReadArguments,
    /// Whether the attributes of the entries are wanted too.
    pub(crate) kind: PhantomData<K>,
}

/// READDIR: entries of an open directory.
pub type ReadDir = Listing<Plain>;

/// READDIRPLUS: entries of an open directory, with their attributes.
pub type ReadDirPlus = Listing<Plus>;

impl<K> Model for Listing<K> {
    ghost use Rattle.fuse_args.specs.declared.fixed.files.ReadArguments.{ReadArguments};

    ghost Value = { ReadArguments };

    ghost view = { λ a. a.arguments };
}

impl<K> Listing<K> {
    /// The open directory.
    pub fn file_handle(&self) -> FileHandle
        ensures { result.0 ≡ self.now.fh }
    {
        FileHandle(self.arguments.fh)
    }

    /// Where in the directory the entries start.
    pub fn offset(&self) -> u64
        ensures { result ≡ self.now.offset }
    {
        self.arguments.offset
    }

    /// The most bytes that are wanted.
    pub fn size(&self) -> u32
        ensures { result ≡ self.now.size }
    {
        self.arguments.size
    }
}
