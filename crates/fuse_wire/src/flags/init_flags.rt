//! The capabilities that INIT negotiates.
ghost use Rattle.std.specs.Prelude.{⊤, ◌≡◌, ◌%◌, ◌/◌, ◌^◌};
ghost use Rattle.fuse_wire.specs.FlagNames.{init_flags_table};

use crate::flags::named_flags;
use bitflags::{Flag, Flags};

/// Capabilities of the kernel and of the filesystem: `flags` and `flags2` of `struct fuse_init_in` and of
/// `struct fuse_init_out`, where `flags2` has the bits from 32 on.
#[derive(Clone, Copy, Debug, PartialEq, Eq, Hash)]
pub struct InitFlags(u64);

impl InitFlags {
    /// Reads may be sent before the earlier ones are answered.
    pub const FUSE_ASYNC_READ: InitFlags = InitFlags(1 << 0);

    /// The filesystem keeps the locks of `fcntl(2)`.
    pub const FUSE_POSIX_LOCKS: InitFlags = InitFlags(1 << 1);

    /// Attributes are asked for with the handle of the open file: no kernel does it for this flag.
    pub const FUSE_FILE_OPS: InitFlags = InitFlags(1 << 2);

    /// The filesystem itself truncates where a file is opened with `O_TRUNC`.
    pub const FUSE_ATOMIC_O_TRUNC: InitFlags = InitFlags(1 << 3);

    /// The filesystem looks up the names `.` and `..`.
    pub const FUSE_EXPORT_SUPPORT: InitFlags = InitFlags(1 << 4);

    /// A write may carry more than 4096 bytes.
    pub const FUSE_BIG_WRITES: InitFlags = InitFlags(1 << 5);

    /// The kernel leaves the mask of `umask(2)` to the filesystem.
    pub const FUSE_DONT_MASK: InitFlags = InitFlags(1 << 6);

    /// The device can be written by `splice(2)`.
    pub const FUSE_SPLICE_WRITE: InitFlags = InitFlags(1 << 7);

    /// The device can take pages over by `splice(2)`.
    pub const FUSE_SPLICE_MOVE: InitFlags = InitFlags(1 << 8);

    /// The device can be read by `splice(2)`.
    pub const FUSE_SPLICE_READ: InitFlags = InitFlags(1 << 9);

    /// The filesystem keeps the locks of `flock(2)`.
    pub const FUSE_FLOCK_LOCKS: InitFlags = InitFlags(1 << 10);

    /// An `ioctl` may be called on a directory.
    pub const FUSE_HAS_IOCTL_DIR: InitFlags = InitFlags(1 << 11);

    /// Cached pages are dropped where the attributes say that the file changed.
    pub const FUSE_AUTO_INVAL_DATA: InitFlags = InitFlags(1 << 12);

    /// Directories are read with the attributes of their entries.
    pub const FUSE_DO_READDIRPLUS: InitFlags = InitFlags(1 << 13);

    /// The kernel chooses when a directory is read with attributes.
    pub const FUSE_READDIRPLUS_AUTO: InitFlags = InitFlags(1 << 14);

    /// Direct reads and writes may be sent before the earlier ones are answered.
    pub const FUSE_ASYNC_DIO: InitFlags = InitFlags(1 << 15);

    /// The kernel caches writes, and sends them later.
    pub const FUSE_WRITEBACK_CACHE: InitFlags = InitFlags(1 << 16);

    /// A filesystem that answers an open with `ENOSYS` is sent no more of them.
    pub const FUSE_NO_OPEN_SUPPORT: InitFlags = InitFlags(1 << 17);

    /// Lookups and reads of one directory may go on at the same time.
    pub const FUSE_PARALLEL_DIROPS: InitFlags = InitFlags(1 << 18);

    /// The filesystem clears set-user-id, set-group-id and capabilities at writes, changes of owner and truncations.
    pub const FUSE_HANDLE_KILLPRIV: InitFlags = InitFlags(1 << 19);

    /// The filesystem has POSIX access control lists.
    pub const FUSE_POSIX_ACL: InitFlags = InitFlags(1 << 20);

    /// A read of the device after an abort gives `ECONNABORTED`.
    pub const FUSE_ABORT_ERROR: InitFlags = InitFlags(1 << 21);

    /// The field `max_pages` of `struct fuse_init_out` is valid.
    pub const FUSE_MAX_PAGES: InitFlags = InitFlags(1 << 22);

    /// The targets of symbolic links may be cached.
    pub const FUSE_CACHE_SYMLINKS: InitFlags = InitFlags(1 << 23);

    /// The same as `FUSE_NO_OPEN_SUPPORT` for directories.
    pub const FUSE_NO_OPENDIR_SUPPORT: InitFlags = InitFlags(1 << 24);

    /// Cached pages are dropped only where the filesystem asks for it.
    pub const FUSE_EXPLICIT_INVAL_DATA: InitFlags = InitFlags(1 << 25);

    /// The field `map_alignment` of `struct fuse_init_out` is valid.
    pub const FUSE_MAP_ALIGNMENT: InitFlags = InitFlags(1 << 26);

    /// Directories may be mounted as filesystems of their own.
    pub const FUSE_SUBMOUNTS: InitFlags = InitFlags(1 << 27);

    /// As `FUSE_HANDLE_KILLPRIV`, but writes and truncations clear them only for a caller who may not keep them, and
    /// the one of set-group-id only where the group may execute the file.
    pub const FUSE_HANDLE_KILLPRIV_V2: InitFlags = InitFlags(1 << 28);

    /// SETXATTR has the longer form of `struct fuse_setxattr_in`.
    pub const FUSE_SETXATTR_EXT: InitFlags = InitFlags(1 << 29);

    /// INIT has the longer form of `struct fuse_init_in`, with `flags2`.
    pub const FUSE_INIT_EXT: InitFlags = InitFlags(1 << 30);

    /// Reserved: `fuse.h` gives it no meaning, and it is not to be used.
    pub const FUSE_INIT_RESERVED: InitFlags = InitFlags(1 << 31);

    /// The calls that make a file carry its security context.
    pub const FUSE_SECURITY_CTX: InitFlags = InitFlags(1 << 32);

    /// Direct access to memory is chosen for each inode.
    pub const FUSE_HAS_INODE_DAX: InitFlags = InitFlags(1 << 33);

    /// The calls that make a file carry the supplementary group of the caller that is the parent's.
    pub const FUSE_CREATE_SUPP_GROUP: InitFlags = InitFlags(1 << 34);

    /// A notice may let an entry expire without dropping it.
    pub const FUSE_HAS_EXPIRE_ONLY: InitFlags = InitFlags(1 << 35);

    /// A file opened with `FOPEN_DIRECT_IO` may be mapped and shared.
    pub const FUSE_DIRECT_IO_ALLOW_MMAP: InitFlags = InitFlags(1 << 36);

    /// Reads and writes may be passed through to a file that the server registered with the kernel.
    pub const FUSE_PASSTHROUGH: InitFlags = InitFlags(1 << 37);

    /// The filesystem can't be exported.
    pub const FUSE_NO_EXPORT_SUPPORT: InitFlags = InitFlags(1 << 38);

    /// The kernel can send again the requests that wait, with the highest bit of their number set.
    pub const FUSE_HAS_RESEND: InitFlags = InitFlags(1 << 39);

    /// A mount may map the numbers of users and groups. The flag is of a version after 7.40.
    pub const FUSE_ALLOW_IDMAP: InitFlags = InitFlags(1 << 40);

    /// Requests may come over `io_uring`. The flag is of a version after 7.40.
    pub const FUSE_OVER_IO_URING: InitFlags = InitFlags(1 << 41);

    /// Requests may time out, by the seconds of `request_timeout` in `struct fuse_init_out`. The flag is of a version
    /// after 7.40.
    pub const FUSE_REQUEST_TIMEOUT: InitFlags = InitFlags(1 << 42);

    /// The bits as the protocol has them: `flags` with those below 32, and `flags2` with the others.
    pub fn pair(self) -> (u32, u32)
        ensures low { result.0 ≡ self.0 % 2 ^ 32 }
        ensures high { result.1 ≡ self.0 / 2 ^ 32 }
    {
        (
            (self.0 % 0x1_0000_0000) as u32,
            (self.0 / 0x1_0000_0000) as u32,
        )
    }
}

impl Flags for InitFlags {
    type Bits = u64;

    ghost exact = { ⊤ };

    ghost table = { init_flags_table };

    ghost set_of = { λ f. f.0 };

    fn flags<'a>() -> &'a [Flag<InitFlags>] {
        named_flags![
            FUSE_ASYNC_READ,
            FUSE_POSIX_LOCKS,
            FUSE_FILE_OPS,
            FUSE_ATOMIC_O_TRUNC,
            FUSE_EXPORT_SUPPORT,
            FUSE_BIG_WRITES,
            FUSE_DONT_MASK,
            FUSE_SPLICE_WRITE,
            FUSE_SPLICE_MOVE,
            FUSE_SPLICE_READ,
            FUSE_FLOCK_LOCKS,
            FUSE_HAS_IOCTL_DIR,
            FUSE_AUTO_INVAL_DATA,
            FUSE_DO_READDIRPLUS,
            FUSE_READDIRPLUS_AUTO,
            FUSE_ASYNC_DIO,
            FUSE_WRITEBACK_CACHE,
            FUSE_NO_OPEN_SUPPORT,
            FUSE_PARALLEL_DIROPS,
            FUSE_HANDLE_KILLPRIV,
            FUSE_POSIX_ACL,
            FUSE_ABORT_ERROR,
            FUSE_MAX_PAGES,
            FUSE_CACHE_SYMLINKS,
            FUSE_NO_OPENDIR_SUPPORT,
            FUSE_EXPLICIT_INVAL_DATA,
            FUSE_MAP_ALIGNMENT,
            FUSE_SUBMOUNTS,
            FUSE_HANDLE_KILLPRIV_V2,
            FUSE_SETXATTR_EXT,
            FUSE_INIT_EXT,
            FUSE_INIT_RESERVED,
            FUSE_SECURITY_CTX,
            FUSE_HAS_INODE_DAX,
            FUSE_CREATE_SUPP_GROUP,
            FUSE_HAS_EXPIRE_ONLY,
            FUSE_DIRECT_IO_ALLOW_MMAP,
            FUSE_PASSTHROUGH,
            FUSE_NO_EXPORT_SUPPORT,
            FUSE_HAS_RESEND,
            FUSE_ALLOW_IDMAP,
            FUSE_OVER_IO_URING,
            FUSE_REQUEST_TIMEOUT,
        ]
    }

    fn bits(&self) -> u64 {
        self.0
    }

    fn from_bits_retain(bits: u64) -> InitFlags {
        InitFlags(bits)
    }
}
