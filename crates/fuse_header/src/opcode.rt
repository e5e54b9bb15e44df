//! The numbers of the operations that are decoded, as a header has them: `enum fuse_opcode` of `fuse.h`. Of the
//! protocol's later ones SETUPMAPPING, REMOVEMAPPING, SYNCFS, TMPFILE and STATX (48 to 52) are not.

/// LOOKUP.
pub const FUSE_LOOKUP: u32 = 1;

/// FORGET.
pub const FUSE_FORGET: u32 = 2;

/// GETATTR.
pub const FUSE_GETATTR: u32 = 3;

/// SETATTR.
pub const FUSE_SETATTR: u32 = 4;

/// READLINK.
pub const FUSE_READLINK: u32 = 5;

/// SYMLINK.
pub const FUSE_SYMLINK: u32 = 6;

/// MKNOD.
pub const FUSE_MKNOD: u32 = 8;

/// MKDIR.
pub const FUSE_MKDIR: u32 = 9;

/// UNLINK.
pub const FUSE_UNLINK: u32 = 10;

/// RMDIR.
pub const FUSE_RMDIR: u32 = 11;

/// RENAME.
pub const FUSE_RENAME: u32 = 12;

/// LINK.
pub const FUSE_LINK: u32 = 13;

/// OPEN.
pub const FUSE_OPEN: u32 = 14;

/// READ.
pub const FUSE_READ: u32 = 15;

/// WRITE.
pub const FUSE_WRITE: u32 = 16;

/// STATFS.
pub const FUSE_STATFS: u32 = 17;

/// RELEASE.
pub const FUSE_RELEASE: u32 = 18;

/// FSYNC.
pub const FUSE_FSYNC: u32 = 20;

/// SETXATTR.
pub const FUSE_SETXATTR: u32 = 21;

/// GETXATTR.
pub const FUSE_GETXATTR: u32 = 22;

/// LISTXATTR.
pub const FUSE_LISTXATTR: u32 = 23;

/// REMOVEXATTR.
pub const FUSE_REMOVEXATTR: u32 = 24;

/// FLUSH.
pub const FUSE_FLUSH: u32 = 25;

/// INIT.
pub const FUSE_INIT: u32 = 26;

/// OPENDIR.
pub const FUSE_OPENDIR: u32 = 27;

/// READDIR.
pub const FUSE_READDIR: u32 = 28;

/// RELEASEDIR.
pub const FUSE_RELEASEDIR: u32 = 29;

/// FSYNCDIR.
pub const FUSE_FSYNCDIR: u32 = 30;

/// GETLK.
pub const FUSE_GETLK: u32 = 31;

/// SETLK.
pub const FUSE_SETLK: u32 = 32;

/// SETLKW.
pub const FUSE_SETLKW: u32 = 33;

/// ACCESS.
pub const FUSE_ACCESS: u32 = 34;

/// CREATE.
pub const FUSE_CREATE: u32 = 35;

/// INTERRUPT.
pub const FUSE_INTERRUPT: u32 = 36;

/// BMAP.
pub const FUSE_BMAP: u32 = 37;

/// DESTROY.
pub const FUSE_DESTROY: u32 = 38;

/// IOCTL.
pub const FUSE_IOCTL: u32 = 39;

/// POLL.
pub const FUSE_POLL: u32 = 40;

/// NOTIFY_REPLY.
pub const FUSE_NOTIFY_REPLY: u32 = 41;

/// BATCH_FORGET.
pub const FUSE_BATCH_FORGET: u32 = 42;

/// FALLOCATE.
pub const FUSE_FALLOCATE: u32 = 43;

/// READDIRPLUS.
pub const FUSE_READDIRPLUS: u32 = 44;

/// RENAME2.
pub const FUSE_RENAME2: u32 = 45;

/// LSEEK.
pub const FUSE_LSEEK: u32 = 46;

/// COPY_FILE_RANGE.
pub const FUSE_COPY_FILE_RANGE: u32 = 47;

/// CUSE_INIT.
pub const CUSE_INIT: u32 = 4096;
