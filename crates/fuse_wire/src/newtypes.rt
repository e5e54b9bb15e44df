//! Numbers of the protocol under names of their own.
use std::fmt;

/// The number of a request, from 0 to the last u64: `unique` of `struct fuse_in_header`. It is unique among the
/// requests that wait for their reply, and the reply has it too.
#[derive(Clone, Copy, Debug, PartialEq, Eq, PartialOrd, Ord, Hash)]
pub struct RequestId(pub u64);

/// The number of an inode, from 0 to the last u64: `nodeid` of `struct fuse_in_header`. The filesystem gives it when a
/// name is looked up or a file is made.
#[derive(Clone, Copy, Debug, PartialEq, Eq, PartialOrd, Ord, Hash)]
pub struct INodeNo(pub u64);

impl INodeNo {
    /// The root of the filesystem: `FUSE_ROOT_ID`.
    pub const ROOT: INodeNo = INodeNo(1);
}

/// Which of the files that had the same inode number, one after another: `generation` of `struct fuse_entry_out`, from
/// 0 to the last u64.
#[derive(Clone, Copy, Debug, PartialEq, Eq, PartialOrd, Ord, Hash)]
pub struct Generation(pub u64);

/// The number that the filesystem gave to an open file or directory, from 0 to the last u64: `fh` of
/// `struct fuse_open_out`.
#[derive(Clone, Copy, Debug, PartialEq, Eq, PartialOrd, Ord, Hash)]
pub struct FileHandle(pub u64);

/// An owner of locks, who may hold none, as a number of the kernel's own, from 0 to the last u64: `owner` of
/// `struct fuse_lk_in`.
#[derive(Clone, Copy, Debug, PartialEq, Eq, PartialOrd, Ord, Hash)]
pub struct LockOwner(pub u64);

/// The number under which the kernel waits for a file to be ready, from 0 to the last u64: `kh` of
/// `struct fuse_poll_in`.
#[derive(Clone, Copy, Debug, PartialEq, Eq, PartialOrd, Ord, Hash)]
pub struct PollHandle(pub u64);

/// A version of the protocol, major and minor, each from 0 to the last u32: `major` and `minor` of
/// `struct fuse_init_in`. An earlier major version comes first, whatever its minor one.
#[derive(Clone, Copy, Debug, PartialEq, Eq, PartialOrd, Ord, Hash)]
pub struct Version(pub u32, pub u32);

impl From<RequestId> for u64 {
    ghost use Rattle.std.specs.Prelude.{◌≡◌};

    ghost from_gives = { λ id number. number ≡ id.0 };

    fn from(id: RequestId) -> u64 {
        id.0
    }
}

impl From<INodeNo> for u64 {
    ghost use Rattle.std.specs.Prelude.{◌≡◌};

    ghost from_gives = { λ node number. number ≡ node.0 };

    fn from(node: INodeNo) -> u64 {
        node.0
    }
}

impl From<Generation> for u64 {
    ghost use Rattle.std.specs.Prelude.{◌≡◌};

    ghost from_gives = { λ generation number. number ≡ generation.0 };

    fn from(generation: Generation) -> u64 {
        generation.0
    }
}

impl From<FileHandle> for u64 {
    ghost use Rattle.std.specs.Prelude.{◌≡◌};

    ghost from_gives = { λ handle number. number ≡ handle.0 };

    fn from(handle: FileHandle) -> u64 {
        handle.0
    }
}

impl fmt::Display for INodeNo {
    ghost use Rattle.std.specs.Prelude.{Some, decimal};
    ghost use Rattle.std.specs.Fmt.{styled_decimal};

    ghost output = { λ node. Some (decimal node.0) };

    ghost styled_output = { λ node style. Some (styled_decimal style node.0) };

    fn fmt<W: fmt::Write>(&self, f: &mut fmt::Formatter<W>) -> fmt::Result {
        fmt::Display::fmt(&self.0, f)
    }
}

impl fmt::Display for FileHandle {
    ghost use Rattle.std.specs.Prelude.{Some, decimal};
    ghost use Rattle.std.specs.Fmt.{styled_decimal};

    ghost output = { λ handle. Some (decimal handle.0) };

    ghost styled_output = { λ handle style. Some (styled_decimal style handle.0) };

    fn fmt<W: fmt::Write>(&self, f: &mut fmt::Formatter<W>) -> fmt::Result {
        fmt::Display::fmt(&self.0, f)
    }
}

impl fmt::Display for LockOwner {
    ghost use Rattle.std.specs.Prelude.{Some, decimal};
    ghost use Rattle.std.specs.Fmt.{styled_decimal};

    ghost output = { λ owner. Some (decimal owner.0) };

    ghost styled_output = { λ owner style. Some (styled_decimal style owner.0) };

    fn fmt<W: fmt::Write>(&self, f: &mut fmt::Formatter<W>) -> fmt::Result {
        fmt::Display::fmt(&self.0, f)
    }
}

impl fmt::Display for Version {
    ghost use Rattle.std.specs.Prelude.{Some, decimal, codes, ◌++◌};

    ghost output = { λ version. Some (decimal version.0 ++ (codes "." ++ decimal version.1)) };

    fn fmt<W: fmt::Write>(&self, f: &mut fmt::Formatter<W>) -> fmt::Result {
        write!(f, "{}.{}", self.0, self.1)
    }
}
