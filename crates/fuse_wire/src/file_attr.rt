//! Attributes of a file.
ghost use Rattle.std.specs.Prelude.{◌≡◌};
ghost use Rattle.fuse_wire.specs.FileAttr.{root_attr};

use crate::{INodeNo, SystemTime};

/// What kind of file an inode is: the type bits of a mode, `S_IFMT` of `linux/stat.h`.
#[derive(Clone, Copy, Debug, PartialEq, Eq, Hash)]
pub enum FileType {
    /// A named pipe: `S_IFIFO`.
    NamedPipe,
    /// A character device: `S_IFCHR`.
    CharDevice,
    /// A block device: `S_IFBLK`.
    BlockDevice,
    /// A directory: `S_IFDIR`.
    Directory,
    /// A regular file: `S_IFREG`.
    RegularFile,
    /// A symbolic link: `S_IFLNK`.
    Symlink,
    /// A Unix domain socket: `S_IFSOCK`.
    Socket,
}

/// Attributes of a file: what `struct fuse_attr` carries, and two more that Linux does not ask for. Each number may
/// have any value of its type; names of `fuse.h` stand where they differ.
#[derive(Clone, Copy, Debug, PartialEq, Eq)]
pub struct FileAttr {
    /// The inode's number.
    pub ino: INodeNo,
    /// The length of the contents, in bytes.
    pub size: u64,
    /// The space taken, in blocks of 512 bytes.
    pub blocks: u64,
    /// The time of the last access: `atime` and `atimensec`.
    pub atime: SystemTime,
    /// The time of the last change of the contents: `mtime` and `mtimensec`.
    pub mtime: SystemTime,
    /// The time of the last change of the inode: `ctime` and `ctimensec`.
    pub ctime: SystemTime,
    /// The time of creation, which is not sent.
    pub crtime: SystemTime,
    /// What kind of file it is: the upper bits of `mode`.
    pub kind: FileType,
    /// The permissions: the lower bits of `mode`. Bits above the low 12 are joined with those of the kind.
    pub perm: u16,
    /// How many names the inode has.
    pub nlink: u32,
    /// The number of the user who owns it.
    pub uid: u32,
    /// The number of the group that owns it.
    pub gid: u32,
    /// The number of the device that a device file stands for: the minor number in the bits 0 to 7 and 20 to 31, the
    /// major number in those between (the kernel's `new_encode_dev`).
    pub rdev: u32,
    /// The block size for input and output, in bytes.
    pub blksize: u32,
    /// Flags of BSD, which are not sent.
    pub flags: u32,
}

/// Attributes of a node that belongs to root, of this kind, with these permissions, so many names, and contents of so
/// many bytes. Its times are 0.
pub fn root_attr(ino: INodeNo, kind: FileType, perm: u16, nlink: u32, size: u64) -> FileAttr
    ensures { result ≡ root_attr ino.0 kind perm nlink size }
{
    let epoch = SystemTime(0);
    FileAttr {
        ino,
        size,
        blocks: size / 512 + (size % 512).min(1),
        atime: epoch,
        mtime: epoch,
        ctime: epoch,
        crtime: epoch,
        kind,
        perm,
        nlink,
        uid: 0,
        gid: 0,
        rdev: 0,
        blksize: 512,
        flags: 0,
    }
}
