// The parts of requests of open files.

/// The arguments of OPEN and OPENDIR: `struct fuse_open_in`.
#[derive(Clone, Copy)]
pub struct OpenArguments {
    /// The flags of `open(2)`.
    pub flags: i32,
}

/// The arguments of CREATE: `struct fuse_create_in`.
#[derive(Clone, Copy)]
pub struct CreateArguments {
    /// The flags of `open(2)`.
    pub flags: i32,
    /// The kind and the permissions.
    pub mode: u32,
    /// The permissions that the caller masks.
    pub umask: u32,
}

/// The arguments of READ, READDIR and READDIRPLUS: `struct fuse_read_in`.
#[derive(Clone, Copy)]
pub struct ReadArguments {
    /// The open file.
    pub fh: u64,
    /// Where in it the bytes start.
    pub offset: u64,
    /// The most bytes that are wanted.
    pub size: u32,
    /// `FUSE_READ_LOCKOWNER` says that `lock_owner` is valid.
    pub read_flags: u32,
    /// The caller as an owner of locks. It is valid where `read_flags` has `FUSE_READ_LOCKOWNER`.
    pub lock_owner: u64,
    /// The flags that the file was opened with.
    pub flags: i32,
}

/// The arguments of WRITE: `struct fuse_write_in`.
#[derive(Clone, Copy)]
pub struct WriteArguments {
    /// The open file.
    pub fh: u64,
    /// Where in it the bytes go.
    pub offset: i64,
    /// How many bytes follow.
    pub size: u32,
    /// `FUSE_WRITE_LOCKOWNER` says that `lock_owner` is valid.
    pub write_flags: u32,
    /// The caller as an owner of locks. It is valid where `write_flags` has `FUSE_WRITE_LOCKOWNER`.
    pub lock_owner: u64,
    /// The flags that the file was opened with.
    pub flags: i32,
}

/// The arguments of FLUSH: `struct fuse_flush_in`.
#[derive(Clone, Copy)]
pub struct FlushArguments {
    /// The open file.
    pub fh: u64,
    /// The caller as an owner of locks.
    pub lock_owner: u64,
}

/// The arguments of FSYNC and FSYNCDIR: `struct fuse_fsync_in`.
#[derive(Clone, Copy)]
pub struct FSyncArguments {
    /// The open file.
    pub fh: u64,
    /// `FUSE_FSYNC_FDATASYNC` says that the contents alone are to be written.
    pub fsync_flags: u32,
}

/// The arguments of RELEASE and RELEASEDIR: `struct fuse_release_in`.
#[derive(Clone, Copy)]
pub struct ReleaseArguments {
    /// The open file.
    pub fh: u64,
    /// The flags that the file was opened with.
    pub flags: i32,
    /// `FUSE_RELEASE_FLUSH` says that the file is to be flushed, `FUSE_RELEASE_FLOCK_UNLOCK` that `lock_owner` is
    /// valid.
    pub release_flags: u32,
    /// Whose locks of `flock(2)` are given up. It is valid where `release_flags` has `FUSE_RELEASE_FLOCK_UNLOCK`.
    pub lock_owner: u64,
}

/// The arguments of FALLOCATE: `struct fuse_fallocate_in`.
#[derive(Clone, Copy)]
pub struct FAllocateArguments {
    /// The open file.
    pub fh: u64,
    /// Where in it the space starts.
    pub offset: u64,
    /// How many bytes of space.
    pub length: u64,
    /// The mode of `fallocate(2)`.
    pub mode: i32,
}

/// The arguments of LSEEK: `struct fuse_lseek_in`.
#[derive(Clone, Copy)]
pub struct LseekArguments {
    /// The open file.
    pub fh: u64,
    /// The place from which `whence` counts, in bytes.
    pub offset: i64,
    /// The directive of `lseek(2)`.
    pub whence: i32,
}

/// The arguments of COPY_FILE_RANGE: `struct fuse_copy_file_range_in`.
#[derive(Clone, Copy)]
pub struct CopyFileRangeArguments {
    /// The open file that is read.
    pub fh_in: u64,
    /// Where in it the bytes start.
    pub off_in: i64,
    /// The node that is written.
    pub nodeid_out: u64,
    /// The open file that is written.
    pub fh_out: u64,
    /// Where in it the bytes go.
    pub off_out: i64,
    /// How many bytes.
    pub len: u64,
    /// The flags of `copy_file_range(2)`.
    pub flags: u64,
}
