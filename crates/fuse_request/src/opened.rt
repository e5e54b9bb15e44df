// What is asked alike of an open file and of an open directory.
ghost use Rattle.std.specs.Prelude.{◌≡◌};

use bitflags::Flags;
use fuse_args::{FSyncArguments, OpenArguments, ReleaseArguments};
use fuse_wire::{FileHandle, FsyncFlags, LockOwner, OpenFlags, ReleaseFlags};
use std::marker::{Model, PhantomData};

/// That a file is meant.
#[derive(Clone, Copy)]
pub struct File;

/// That a directory is meant.
#[derive(Clone, Copy)]
pub struct Directory;

/// OPEN and OPENDIR: a file or a directory is opened.
#[derive(Drop)]
pub struct Opening<K> {
    /// The fixed part, as it was sent.
    pub(crate) arguments: OpenArguments,
    /// Whether a file or a directory is meant.
    pub(crate) kind: PhantomData<K>,
}

/// OPEN: a file is opened.
pub type Open = Opening<File>;

/// OPENDIR: a directory is opened.
pub type OpenDir = Opening<Directory>;

impl<K> Model for Opening<K> {
    ghost use Rattle.fuse_args.specs.declared.fixed.files.OpenArguments.{OpenArguments};

    ghost Value = { OpenArguments };

    ghost view = { λ a. a.arguments };
}

impl<K> Opening<K> {
    /// The flags of `open(2)`.
    pub fn flags(&self) -> OpenFlags
        ensures { result.0 ≡ self.now.flags }
    {
        OpenFlags(self.arguments.flags)
    }
}

/// RELEASE and RELEASEDIR: the last use of an open file or directory ends.
#[derive(Drop)]
pub struct Releasing<K> {
    /// The fixed part, as it was sent.
    pub(crate) arguments: ReleaseArguments,
    /// Whether a file or a directory is meant.
    pub(crate) kind: PhantomData<K>,
}

/// RELEASE: the last use of an open file ends.
pub type Release = Releasing<File>;

/// RELEASEDIR: the last use of an open directory ends.
pub type ReleaseDir = Releasing<Directory>;

impl<K> Model for Releasing<K> {
    ghost use Rattle.fuse_args.specs.declared.fixed.files.ReleaseArguments.{ReleaseArguments};

    ghost Value = { ReleaseArguments };

    ghost view = { λ a. a.arguments };
}

impl<K> Releasing<K> {
    ghost use Rattle.fuse_request.specs.Call.{owner_number};
    ghost use Rattle.fuse_request.specs.Fields.{flushes, release_lock_owner};

    /// What is to be done.
    pub fn release_flags(&self) -> ReleaseFlags
        ensures { result.0 ≡ self.now.release_flags }
    {
        ReleaseFlags::from_bits_retain(self.arguments.release_flags)
    }

    /// Whether what is held back is to be written: `FUSE_RELEASE_FLUSH`.
    pub fn flush(&self) -> bool
        ensures { result ≡ flushes self.now }
    {
        self.release_flags()
            .contains(ReleaseFlags::FUSE_RELEASE_FLUSH)
    }

    /// The open file or directory.
    pub fn file_handle(&self) -> FileHandle
        ensures { result.0 ≡ self.now.fh }
    {
        FileHandle(self.arguments.fh)
    }

    /// The flags that it was opened with.
    pub fn flags(&self) -> OpenFlags
        ensures { result.0 ≡ self.now.flags }
    {
        OpenFlags(self.arguments.flags)
    }

    /// Whose locks of `flock(2)` are given up: `lock_owner` of `struct fuse_release_in`. None where the flags have no
    /// `FUSE_RELEASE_FLOCK_UNLOCK`.
    pub fn lock_owner(&self) -> Option<LockOwner>
        ensures { owner_number result ≡ release_lock_owner self.now }
    {
        self.release_flags()
            .contains(ReleaseFlags::FUSE_RELEASE_FLOCK_UNLOCK)
            .then_some(LockOwner(self.arguments.lock_owner))
    }
}

/// FSYNC and FSYNCDIR: what an open file or directory holds back is written.
#[derive(Drop)]
pub struct Syncing<K> {
    /// The fixed part, as it was sent.
    pub(crate) arguments: FSyncArguments,
    /// Whether a file or a directory is meant.
    pub(crate) kind: PhantomData<K>,
}

/// FSYNC: what an open file holds back is written.
pub type FSync = Syncing<File>;

/// FSYNCDIR: what an open directory holds back is written.
pub type FSyncDir = Syncing<Directory>;

impl<K> Model for Syncing<K> {
    ghost use Rattle.fuse_args.specs.declared.fixed.files.FSyncArguments.{FSyncArguments};

    ghost Value = { FSyncArguments };

    ghost view = { λ a. a.arguments };
}

impl<K> Syncing<K> {
    ghost use Rattle.fuse_request.specs.Fields.{contents_alone};

    /// The open file or directory.
    pub fn file_handle(&self) -> FileHandle
        ensures { result.0 ≡ self.now.fh }
    {
        FileHandle(self.arguments.fh)
    }

    /// Whether the contents alone are to be written, and not the attributes: `FUSE_FSYNC_FDATASYNC`.
    pub fn fdatasync(&self) -> bool
        ensures { result ≡ contents_alone self.now }
    {
        FsyncFlags::from_bits_retain(self.arguments.fsync_flags).contains(
            FsyncFlags::FUSE_FSYNC_FDATASYNC,
        )
    }
}
