//! Numbers of the kernel's `fuse.h`, and the limits of this library.

/// The major version of the protocol that is spoken: `FUSE_KERNEL_VERSION`.
pub const FUSE_KERNEL_VERSION: u32 = 7;

/// Its minor version: `FUSE_KERNEL_MINOR_VERSION`.
pub const FUSE_KERNEL_MINOR_VERSION: u32 = 40;

/// A bit of a lock request's `lk_flags`: the lock is one of `flock(2)`, on the whole file. `FUSE_LK_FLOCK`.
pub const FUSE_LK_FLOCK: u32 = 1;

/// The most pieces of memory that one ioctl may name, those that it reads and those that it writes together:
/// `FUSE_IOCTL_MAX_IOV`.
pub const FUSE_IOCTL_MAX_IOV: u32 = 256;

/// The least number of bytes that a buffer for the kernel's requests may have: `FUSE_MIN_READ_BUFFER`.
pub const FUSE_MIN_READ_BUFFER: usize = 8192;

/// How many bytes the header of a request has: those of `struct fuse_in_header`.
pub const REQUEST_HEADER_SIZE: usize = 40;

/// The most bytes that one WRITE may carry: 16 MiB.
pub const MAX_WRITE_SIZE: usize = 16777216;

/// How many bytes the receive buffer has: those of the longest WRITE, and 4096 for its headers.
pub const BUFFER_SIZE: usize = 16781312;
