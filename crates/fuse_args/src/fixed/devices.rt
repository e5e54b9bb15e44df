// The parts of requests of locks, blocks and devices.

/// The arguments of GETLK, SETLK and SETLKW: `struct fuse_lk_in`.
#[derive(Clone, Copy)]
pub struct GetLkArguments {
    /// The open file.
    pub fh: u64,
    /// Who asks for the lock.
    pub owner: u64,
    /// The first byte of the range.
    pub start: u64,
    /// The last byte of the range, `i64::MAX` where the lock has no end.
    pub end: u64,
    /// The kind of lock, the `l_type` of `fcntl(2)`: `F_RDLCK` is 0, `F_WRLCK` 1, `F_UNLCK` 2.
    pub typ: i32,
    /// The process that asks for it, and 0 where a lock is asked about or given back.
    pub pid: u32,
    /// `FUSE_LK_FLOCK` says that the lock is one of `flock(2)`.
    pub lk_flags: u32,
}

/// The arguments of BMAP: `struct fuse_bmap_in`.
#[derive(Clone, Copy)]
pub struct BMapArguments {
    /// The block of the file.
    pub block: u64,
    /// How many bytes a block has.
    pub blocksize: u32,
}

/// The arguments of IOCTL: `struct fuse_ioctl_in`.
#[derive(Clone, Copy)]
pub struct IoCtlArguments {
    /// The open file.
    pub fh: u64,
    /// The flags of the call.
    pub flags: u32,
    /// The command.
    pub cmd: u32,
    /// The argument, as the caller gave it.
    pub arg: u64,
    /// How many bytes are handed in.
    pub in_size: u32,
    /// The most bytes that the caller takes.
    pub out_size: u32,
}

/// The arguments of POLL: `struct fuse_poll_in`.
#[derive(Clone, Copy)]
pub struct PollArguments {
    /// The open file.
    pub fh: u64,
    /// Which poll a notice answers.
    pub kh: u64,
    /// `FUSE_POLL_SCHEDULE_NOTIFY` says that a notice is wanted.
    pub flags: u32,
    /// The events that are waited for.
    pub events: u32,
}
