//! Errors, flags and constants: the names and values of `errno.h`, `fuse.h`, `poll(2)`, `renameat2(2)` and `access(2)`.
use crate::asserts::{expect_same, expect_same_in};
use bitflags::Flags;
use fuse_wire::consts::{
    BUFFER_SIZE, FUSE_IOCTL_MAX_IOV, FUSE_KERNEL_MINOR_VERSION, FUSE_KERNEL_VERSION, FUSE_LK_FLOCK,
    FUSE_MIN_READ_BUFFER, MAX_WRITE_SIZE, REQUEST_HEADER_SIZE,
};
use fuse_wire::{
    AccessFlags, BsdFileFlags, CopyFileRangeFlags, CuseInitFlags, Errno, FattrFlags, FopenFlags,
    FsyncFlags, GetattrFlags, INodeNo, InitFlags, IoctlFlags, PollEvents, PollFlags, ReadFlags,
    ReleaseFlags, RenameFlags, SetxattrFlags, WriteFlags,
};
use std::alloc::Global;
use std::process::Abort;

// The error of this number, by its name. A match costs less to prove than an array of these constants.
macro_rules! errors {
    ($found:expr; $($number:literal $name:ident,)*) => {
        match $found {
            $($number => Some(Errno::$name),)*
            _ => None,
        }
    };
}

/// The error of this number, up to 43.
fn low_error(number: i32) -> Option<Errno> {
    errors![number;
        1 EPERM, 2 ENOENT, 3 ESRCH, 4 EINTR, 5 EIO, 6 ENXIO, 7 E2BIG, 8 ENOEXEC, 9 EBADF, 10 ECHILD,
        11 EAGAIN, 12 ENOMEM, 13 EACCES, 14 EFAULT, 15 ENOTBLK, 16 EBUSY, 17 EEXIST, 18 EXDEV,
        19 ENODEV, 20 ENOTDIR, 21 EISDIR, 22 EINVAL, 23 ENFILE, 24 EMFILE, 25 ENOTTY, 26 ETXTBSY,
        27 EFBIG, 28 ENOSPC, 29 ESPIPE, 30 EROFS, 31 EMLINK, 32 EPIPE, 33 EDOM, 34 ERANGE,
        35 EDEADLK, 36 ENAMETOOLONG, 37 ENOLCK, 38 ENOSYS, 39 ENOTEMPTY, 40 ELOOP, 42 ENOMSG,
        43 EIDRM,
    ]
}

/// The error of this number from 61 on.
fn high_error(number: i32) -> Option<Errno> {
    errors![number;
        61 ENODATA, 66 EREMOTE, 67 ENOLINK, 71 EPROTO, 72 EMULTIHOP, 74 EBADMSG, 75 EOVERFLOW,
        84 EILSEQ, 87 EUSERS, 88 ENOTSOCK, 89 EDESTADDRREQ, 90 EMSGSIZE, 91 EPROTOTYPE,
        92 ENOPROTOOPT, 93 EPROTONOSUPPORT, 94 ESOCKTNOSUPPORT, 95 EOPNOTSUPP, 96 EPFNOSUPPORT,
        97 EAFNOSUPPORT, 98 EADDRINUSE, 99 EADDRNOTAVAIL, 100 ENETDOWN, 101 ENETUNREACH,
        102 ENETRESET, 103 ECONNABORTED, 104 ECONNRESET, 105 ENOBUFS, 106 EISCONN, 107 ENOTCONN,
        108 ESHUTDOWN, 109 ETOOMANYREFS, 110 ETIMEDOUT, 111 ECONNREFUSED, 112 EHOSTDOWN,
        113 EHOSTUNREACH, 114 EALREADY, 115 EINPROGRESS, 116 ESTALE, 122 EDQUOT, 125 ECANCELED,
        130 EOWNERDEAD, 131 ENOTRECOVERABLE,
    ]
}

/// The error that stands beside another of this number.
fn other_error(number: i32) -> Option<Errno> {
    errors![number; 11 EWOULDBLOCK, 61 NO_XATTR, 95 ENOTSUP,]
}

/// The constants that have this number give it, and it gives them. So many have it.
fn expect_number(rt: &impl Abort, number: i32) -> usize {
    let errors = [low_error(number), high_error(number), other_error(number)];
    let mut count = 0usize;
    for errno in errors.iter().flatten() {
        let numbers = [
            errno.code(),
            i32::from(*errno),
            Errno::from_i32(number).code(),
        ];
        expect_same(rt, &numbers, &[number; 3]);
        count = count.saturating_add(1);
    }
    count
}

#[test]
fn errors_have_the_numbers_of_linux(rt: HostRuntime) {
    let mut count = 0usize;
    for number in 1..132 {
        count = count.saturating_add(expect_number(&rt, number));
    }
    expect_same(&rt, &count, &87);
}

#[test]
fn what_is_not_positive_is_eio(rt: HostRuntime) {
    for number in [0, -1, -5, i32::MIN] {
        expect_same_in(&rt, &number, &Errno::from_i32(number).code(), &5);
    }
}

/// The set has just the flags of these names, each of the bit after the one before it.
fn expect_names<F: Flags<Bits = u32>>(rt: &impl Abort, first: u32, names: &str) {
    expect_same_in(rt, &names, &F::flags().len(), &names.split(' ').count());
    let mut bits = first;
    for (flag, name) in F::flags().iter().zip(names.split(' ')) {
        expect_same(rt, &(flag.name(), flag.value().bits()), &(name, bits));
        bits = bits.wrapping_mul(2);
    }
}

#[test]
fn flags_have_their_names_and_bits(rt: HostRuntime) {
    expect_names::<RenameFlags>(&rt, 1, RENAME_FLAGS);
    expect_names::<PollEvents>(&rt, 1, POLL_EVENTS);
    expect_names::<FopenFlags>(&rt, 1, FOPEN_FLAGS);
    expect_names::<FsyncFlags>(&rt, 1, "FUSE_FSYNC_FDATASYNC");
    expect_names::<IoctlFlags>(&rt, 1, IOCTL_FLAGS);
    expect_names::<PollFlags>(&rt, 1, "FUSE_POLL_SCHEDULE_NOTIFY");
    expect_names::<WriteFlags>(&rt, 1, WRITE_FLAGS);
    expect_names::<SetxattrFlags>(&rt, 1, "FUSE_SETXATTR_ACL_KILL_SGID");
    expect_names::<ReadFlags>(&rt, 2, "FUSE_READ_LOCKOWNER");
    expect_names::<GetattrFlags>(&rt, 1, "FUSE_GETATTR_FH");
    expect_names::<CuseInitFlags>(&rt, 1, "CUSE_UNRESTRICTED_IOCTL");
    expect_names::<ReleaseFlags>(&rt, 1, RELEASE_FLAGS);
    expect_names::<FattrFlags>(&rt, 1, FATTR_FLAGS);
    let none = (
        BsdFileFlags::flags().len(),
        CopyFileRangeFlags::flags().len(),
    );
    expect_same(&rt, &none, &(0, 0));
}

const RENAME_FLAGS: &str = "RENAME_NOREPLACE RENAME_EXCHANGE RENAME_WHITEOUT";

const POLL_EVENTS: &str = "POLLIN POLLPRI POLLOUT POLLERR POLLHUP POLLNVAL POLLRDNORM POLLRDBAND \
    POLLWRNORM POLLWRBAND";

const FOPEN_FLAGS: &str = "FOPEN_DIRECT_IO FOPEN_KEEP_CACHE FOPEN_NONSEEKABLE FOPEN_CACHE_DIR \
    FOPEN_STREAM FOPEN_NOFLUSH FOPEN_PARALLEL_DIRECT_WRITES FOPEN_PASSTHROUGH";

const IOCTL_FLAGS: &str = "FUSE_IOCTL_COMPAT FUSE_IOCTL_UNRESTRICTED FUSE_IOCTL_RETRY \
    FUSE_IOCTL_32BIT FUSE_IOCTL_DIR FUSE_IOCTL_COMPAT_X32";

const WRITE_FLAGS: &str = "FUSE_WRITE_CACHE FUSE_WRITE_LOCKOWNER FUSE_WRITE_KILL_SUIDGID";

const RELEASE_FLAGS: &str = "FUSE_RELEASE_FLUSH FUSE_RELEASE_FLOCK_UNLOCK";

const FATTR_FLAGS: &str = "FATTR_MODE FATTR_UID FATTR_GID FATTR_SIZE FATTR_ATIME FATTR_MTIME \
    FATTR_FH FATTR_ATIME_NOW FATTR_MTIME_NOW FATTR_LOCKOWNER FATTR_CTIME";

const INIT_FLAGS: &str = "FUSE_ASYNC_READ FUSE_POSIX_LOCKS FUSE_FILE_OPS FUSE_ATOMIC_O_TRUNC \
    FUSE_EXPORT_SUPPORT FUSE_BIG_WRITES FUSE_DONT_MASK FUSE_SPLICE_WRITE FUSE_SPLICE_MOVE \
    FUSE_SPLICE_READ FUSE_FLOCK_LOCKS FUSE_HAS_IOCTL_DIR FUSE_AUTO_INVAL_DATA FUSE_DO_READDIRPLUS \
    FUSE_READDIRPLUS_AUTO FUSE_ASYNC_DIO FUSE_WRITEBACK_CACHE FUSE_NO_OPEN_SUPPORT \
    FUSE_PARALLEL_DIROPS FUSE_HANDLE_KILLPRIV FUSE_POSIX_ACL FUSE_ABORT_ERROR FUSE_MAX_PAGES \
    FUSE_CACHE_SYMLINKS FUSE_NO_OPENDIR_SUPPORT FUSE_EXPLICIT_INVAL_DATA FUSE_MAP_ALIGNMENT \
    FUSE_SUBMOUNTS FUSE_HANDLE_KILLPRIV_V2 FUSE_SETXATTR_EXT FUSE_INIT_EXT FUSE_INIT_RESERVED \
    FUSE_SECURITY_CTX FUSE_HAS_INODE_DAX FUSE_CREATE_SUPP_GROUP FUSE_HAS_EXPIRE_ONLY \
    FUSE_DIRECT_IO_ALLOW_MMAP FUSE_PASSTHROUGH FUSE_NO_EXPORT_SUPPORT FUSE_HAS_RESEND \
    FUSE_ALLOW_IDMAP FUSE_OVER_IO_URING FUSE_REQUEST_TIMEOUT";

#[test]
fn capabilities_have_their_names_and_bits(rt: HostRuntime) {
    let count = INIT_FLAGS.split(' ').count();
    expect_same(&rt, &InitFlags::flags().len(), &count);
    let mut bits = 1u64;
    for (flag, name) in InitFlags::flags().iter().zip(INIT_FLAGS.split(' ')) {
        expect_same(&rt, &(flag.name(), flag.value().bits()), &(name, bits));
        bits = bits.wrapping_mul(2);
    }
}

#[test]
fn constants_have_their_numbers(rt: HostRuntime) {
    let version = (FUSE_KERNEL_VERSION, FUSE_KERNEL_MINOR_VERSION);
    let kernel = (FUSE_LK_FLOCK, FUSE_IOCTL_MAX_IOV, INodeNo::ROOT.0);
    expect_same(&rt, &(version, kernel), &((7, 40), (1, 256, 1)));
    let sizes = [
        FUSE_MIN_READ_BUFFER,
        REQUEST_HEADER_SIZE,
        MAX_WRITE_SIZE,
        BUFFER_SIZE,
    ];
    expect_same(&rt, &sizes, &[8192, 40, 16_777_216, 16_781_312]);
}

#[test]
fn what_access_asks_has_the_numbers_of_linux(rt: HostRuntime) {
    let read_write = AccessFlags::R_OK.union(AccessFlags::W_OK);
    let flags = [
        AccessFlags::F_OK.bits(),
        AccessFlags::X_OK.bits(),
        AccessFlags::W_OK.bits(),
        AccessFlags::R_OK.bits(),
        read_write.bits(),
    ];
    expect_same(&rt, &flags, &[0, 1, 2, 4, 6]);
    let held = [
        read_write.contains(AccessFlags::R_OK),
        read_write.contains(AccessFlags::X_OK),
    ];
    expect_same(&rt, &held, &[true, false]);
}

/// The flags of ACCESS with this value, and each set of flags that prints, padded to a width.
fn padded(rt: &impl Abort, alloc: Global, bits: u32, mask: i32) -> String {
    format!(in alloc;
        "{:>4},{:>4},{:>4},{:>4},{:>4},{:>4},{:>4},{:>4}",
        AccessFlags::from_bits_retain(mask),
        PollEvents::from_bits_retain(bits),
        RenameFlags::from_bits_retain(bits),
        CuseInitFlags::from_bits_retain(bits),
        FsyncFlags::from_bits_retain(bits),
        IoctlFlags::from_bits_retain(bits),
        PollFlags::from_bits_retain(bits),
        ReleaseFlags::from_bits_retain(bits),
    )
    .expect(rt, "there is memory")
}

/// Bits, a mask of ACCESS, and their texts.
const TEXTS: &[(u32, i32, &str)] = &[
    (7, -2, "  -2,   7,   7,   7,   7,   7,   7,   7"),
    (
        u32::MAX,
        i32::MAX,
        "2147483647,4294967295,4294967295,4294967295,4294967295,4294967295,4294967295,4294967295",
    ),
];

#[test]
fn texts_are_decimal_and_padded(rt: HostRuntime) {
    for (bits, mask, expected) in TEXTS {
        let text = padded(&rt, rt.alloc(), *bits, *mask);
        expect_same(&rt, &text.as_str(), expected);
    }
}
