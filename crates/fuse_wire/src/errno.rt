//! Error numbers of Linux.
ghost use Rattle.std.specs.Prelude.{◌≡◌, ℕ, pos, ◌<◌, ◌^◌, map};
ghost use Rattle.fuse_wire.specs.Errno.{errno_from, named_numbers};

use std::marker::Model;

/// An error number of Linux, as in `asm-generic/errno-base.h` and `asm-generic/errno.h`: from 1 to the last value of an
/// i32. A reply carries its negative. The kernel takes 1 to 511: it refuses a reply with a greater one, and whoever
/// asked goes on waiting. A contract sees the number.
#[derive(Clone, Copy, Debug, PartialEq, Eq)]
pub struct Errno {
    code: u32,
}

impl Model for Errno {
    ghost use Rattle.std.specs.Prelude.{ℕ, ◌<◌, ◌^◌};

    ghost Value = { ℕ };

    ghost view = { λ e. e.code };

    ghost invariant = { λ e. (0 < e.code) × (e.code < 2 ^ 31) };

    ghost inverse = { λ n. record { code = n } };
}

impl Errno {
    /// The caller is not allowed to do this, whatever the permissions of the file.
    pub const EPERM: Errno = Errno { code: 1 };

    /// No file or directory has this name.
    pub const ENOENT: Errno = Errno { code: 2 };

    /// No process or thread has this number.
    pub const ESRCH: Errno = Errno { code: 3 };

    /// A signal came before the call was done.
    pub const EINTR: Errno = Errno { code: 4 };

    /// Input or output failed.
    pub const EIO: Errno = Errno { code: 5 };

    /// No device has this number or address.
    pub const ENXIO: Errno = Errno { code: 6 };

    /// The list of arguments is too long.
    pub const E2BIG: Errno = Errno { code: 7 };

    /// The file's format is none that can be run.
    pub const ENOEXEC: Errno = Errno { code: 8 };

    /// The number stands for no open file, or not for one that is open in this way.
    pub const EBADF: Errno = Errno { code: 9 };

    /// The caller has no such child process.
    pub const ECHILD: Errno = Errno { code: 10 };

    /// It can't be done now, and may be tried again.
    pub const EAGAIN: Errno = Errno { code: 11 };

    /// There is not enough memory.
    pub const ENOMEM: Errno = Errno { code: 12 };

    /// The permissions of the file or of a directory on its path forbid it.
    pub const EACCES: Errno = Errno { code: 13 };

    /// An address is not in the caller's memory.
    pub const EFAULT: Errno = Errno { code: 14 };

    /// A block device is wanted, and this is none.
    pub const ENOTBLK: Errno = Errno { code: 15 };

    /// The file or device is in use.
    pub const EBUSY: Errno = Errno { code: 16 };

    /// A file of this name is there already.
    pub const EEXIST: Errno = Errno { code: 17 };

    /// The two names are on different filesystems.
    pub const EXDEV: Errno = Errno { code: 18 };

    /// There is no such device, or it has no such operation.
    pub const ENODEV: Errno = Errno { code: 19 };

    /// A directory is wanted, and this is none.
    pub const ENOTDIR: Errno = Errno { code: 20 };

    /// This is a directory, and it can't be one here.
    pub const EISDIR: Errno = Errno { code: 21 };

    /// An argument has a value that it may not have.
    pub const EINVAL: Errno = Errno { code: 22 };

    /// The system has as many open files as it can have.
    pub const ENFILE: Errno = Errno { code: 23 };

    /// The process has as many open files as it may have.
    pub const EMFILE: Errno = Errno { code: 24 };

    /// The file has no such control: often, it is no terminal.
    pub const ENOTTY: Errno = Errno { code: 25 };

    /// The file is a program that is running.
    pub const ETXTBSY: Errno = Errno { code: 26 };

    /// The file would become too big.
    pub const EFBIG: Errno = Errno { code: 27 };

    /// The device has no room left.
    pub const ENOSPC: Errno = Errno { code: 28 };

    /// The file has no position that could be set: it is a pipe or a socket.
    pub const ESPIPE: Errno = Errno { code: 29 };

    /// The filesystem can only be read.
    pub const EROFS: Errno = Errno { code: 30 };

    /// The file has as many names as it can have.
    pub const EMLINK: Errno = Errno { code: 31 };

    /// Nobody reads from the other end.
    pub const EPIPE: Errno = Errno { code: 32 };

    /// The number is not one that the function is defined for.
    pub const EDOM: Errno = Errno { code: 33 };

    /// The result does not fit: often, the buffer is too small for it.
    pub const ERANGE: Errno = Errno { code: 34 };

    /// To wait for this lock would be to wait for ever.
    pub const EDEADLK: Errno = Errno { code: 35 };

    /// The name is too long.
    pub const ENAMETOOLONG: Errno = Errno { code: 36 };

    /// No more locks are to be had.
    pub const ENOLCK: Errno = Errno { code: 37 };

    /// There is no such operation.
    pub const ENOSYS: Errno = Errno { code: 38 };

    /// The directory is not empty.
    pub const ENOTEMPTY: Errno = Errno { code: 39 };

    /// The path goes through too many symbolic links.
    pub const ELOOP: Errno = Errno { code: 40 };

    /// The call would have to wait: another name of `EAGAIN`.
    pub const EWOULDBLOCK: Errno = Errno::EAGAIN;

    /// The queue has no message of this type.
    pub const ENOMSG: Errno = Errno { code: 42 };

    /// The queue, semaphore or memory of this number was removed.
    pub const EIDRM: Errno = Errno { code: 43 };

    /// There are no such data.
    pub const ENODATA: Errno = Errno { code: 61 };

    /// The file has no extended attribute of this name: another name of `ENODATA`.
    pub const NO_XATTR: Errno = Errno::ENODATA;

    /// The object is on another machine.
    pub const EREMOTE: Errno = Errno { code: 66 };

    /// The link to another machine is broken.
    pub const ENOLINK: Errno = Errno { code: 67 };

    /// The other side does not keep to the protocol.
    pub const EPROTO: Errno = Errno { code: 71 };

    /// The path would go through more than one other machine.
    pub const EMULTIHOP: Errno = Errno { code: 72 };

    /// The message is not one that can be read.
    pub const EBADMSG: Errno = Errno { code: 74 };

    /// The value does not fit into its type.
    pub const EOVERFLOW: Errno = Errno { code: 75 };

    /// The bytes are no character of the encoding.
    pub const EILSEQ: Errno = Errno { code: 84 };

    /// There are too many users.
    pub const EUSERS: Errno = Errno { code: 87 };

    /// A socket is wanted, and this is none.
    pub const ENOTSOCK: Errno = Errno { code: 88 };

    /// The socket has no address to send to, and none was given.
    pub const EDESTADDRREQ: Errno = Errno { code: 89 };

    /// The message is too long.
    pub const EMSGSIZE: Errno = Errno { code: 90 };

    /// The protocol is not one for this type of socket.
    pub const EPROTOTYPE: Errno = Errno { code: 91 };

    /// The protocol has no such option.
    pub const ENOPROTOOPT: Errno = Errno { code: 92 };

    /// The protocol is not supported.
    pub const EPROTONOSUPPORT: Errno = Errno { code: 93 };

    /// The type of socket is not supported.
    pub const ESOCKTNOSUPPORT: Errno = Errno { code: 94 };

    /// The operation is not supported for this file or socket.
    pub const EOPNOTSUPP: Errno = Errno { code: 95 };

    /// The operation is not supported: another name of `EOPNOTSUPP`.
    pub const ENOTSUP: Errno = Errno::EOPNOTSUPP;

    /// The family of protocols is not supported.
    pub const EPFNOSUPPORT: Errno = Errno { code: 96 };

    /// The family of addresses is not supported.
    pub const EAFNOSUPPORT: Errno = Errno { code: 97 };

    /// The address is in use already.
    pub const EADDRINUSE: Errno = Errno { code: 98 };

    /// The address is none of this machine's.
    pub const EADDRNOTAVAIL: Errno = Errno { code: 99 };

    /// The network is down.
    pub const ENETDOWN: Errno = Errno { code: 100 };

    /// No way leads to the network.
    pub const ENETUNREACH: Errno = Errno { code: 101 };

    /// The network was reset, and the connection was dropped.
    pub const ENETRESET: Errno = Errno { code: 102 };

    /// The connection was given up on this side.
    pub const ECONNABORTED: Errno = Errno { code: 103 };

    /// The connection was reset by the other side.
    pub const ECONNRESET: Errno = Errno { code: 104 };

    /// There is no room for another buffer.
    pub const ENOBUFS: Errno = Errno { code: 105 };

    /// The socket is connected already.
    pub const EISCONN: Errno = Errno { code: 106 };

    /// The socket is not connected.
    pub const ENOTCONN: Errno = Errno { code: 107 };

    /// The socket was shut down and sends no more.
    pub const ESHUTDOWN: Errno = Errno { code: 108 };

    /// There are too many references.
    pub const ETOOMANYREFS: Errno = Errno { code: 109 };

    /// No answer came in the time allowed.
    pub const ETIMEDOUT: Errno = Errno { code: 110 };

    /// The other side refuses the connection.
    pub const ECONNREFUSED: Errno = Errno { code: 111 };

    /// The other machine is down.
    pub const EHOSTDOWN: Errno = Errno { code: 112 };

    /// No way leads to the other machine.
    pub const EHOSTUNREACH: Errno = Errno { code: 113 };

    /// It was begun before, and is not done yet.
    pub const EALREADY: Errno = Errno { code: 114 };

    /// It has begun, and goes on.
    pub const EINPROGRESS: Errno = Errno { code: 115 };

    /// The handle stands for a file that is no longer there.
    pub const ESTALE: Errno = Errno { code: 116 };

    /// The user has as much room on the disk as is allowed.
    pub const EDQUOT: Errno = Errno { code: 122 };

    /// The operation was cancelled.
    pub const ECANCELED: Errno = Errno { code: 125 };

    /// The owner of the lock ended while holding it.
    pub const EOWNERDEAD: Errno = Errno { code: 130 };

    /// What the lock guards can't be mended.
    pub const ENOTRECOVERABLE: Errno = Errno { code: 131 };

    /// The error of this number. A number that is not positive is none, and gives `EIO`.
    pub fn from_i32(code: i32) -> Errno
        ensures { result ≡ errno_from code }
    {
        if code > 0 {
            Errno { code: code as u32 }
        } else {
            Errno::EIO
        }
    }

    /// Its number, from 1 on.
    pub fn code(self) -> i32
        ensures number { result ≡ pos self }
        ensures positive { 0 < self }
        ensures range { self < 2 ^ 31 }
    {
        self.code as i32
    }
}

/// The number, as by `code`.
impl From<Errno> for i32 {
    ghost use Rattle.std.specs.Prelude.{◌≡◌, pos};

    ghost from_gives = { λ errno number. number ≡ pos errno };

    fn from(errno: Errno) -> i32 {
        errno.code()
    }
}

// A row for each name: the name as a text, and the constant's number. The text is made of the name of the constant, so
// that a clause over the texts speaks of these constants.
macro_rules! rows {
    ($($name:ident),* $(,)?) => {
        [$((stringify!($name), Errno::$name.code)),*]
    };
}

/// The errors that have a name, each with that name and its number.
const NAMED_ERRORS: [(&str, u32); 87] = rows![
    EPERM,
    ENOENT,
    ESRCH,
    EINTR,
    EIO,
    ENXIO,
    E2BIG,
    ENOEXEC,
    EBADF,
    ECHILD,
    EAGAIN,
    ENOMEM,
    EACCES,
    EFAULT,
    ENOTBLK,
    EBUSY,
    EEXIST,
    EXDEV,
    ENODEV,
    ENOTDIR,
    EISDIR,
    EINVAL,
    ENFILE,
    EMFILE,
    ENOTTY,
    ETXTBSY,
    EFBIG,
    ENOSPC,
    ESPIPE,
    EROFS,
    EMLINK,
    EPIPE,
    EDOM,
    ERANGE,
    EDEADLK,
    ENAMETOOLONG,
    ENOLCK,
    ENOSYS,
    ENOTEMPTY,
    ELOOP,
    EWOULDBLOCK,
    ENOMSG,
    EIDRM,
    ENODATA,
    NO_XATTR,
    EREMOTE,
    ENOLINK,
    EPROTO,
    EMULTIHOP,
    EBADMSG,
    EOVERFLOW,
    EILSEQ,
    EUSERS,
    ENOTSOCK,
    EDESTADDRREQ,
    EMSGSIZE,
    EPROTOTYPE,
    ENOPROTOOPT,
    EPROTONOSUPPORT,
    ESOCKTNOSUPPORT,
    EOPNOTSUPP,
    ENOTSUP,
    EPFNOSUPPORT,
    EAFNOSUPPORT,
    EADDRINUSE,
    EADDRNOTAVAIL,
    ENETDOWN,
    ENETUNREACH,
    ENETRESET,
    ECONNABORTED,
    ECONNRESET,
    ENOBUFS,
    EISCONN,
    ENOTCONN,
    ESHUTDOWN,
    ETOOMANYREFS,
    ETIMEDOUT,
    ECONNREFUSED,
    EHOSTDOWN,
    EHOSTUNREACH,
    EALREADY,
    EINPROGRESS,
    ESTALE,
    EDQUOT,
    ECANCELED,
    EOWNERDEAD,
    ENOTRECOVERABLE,
];

/// Each name of an error has the number that Linux has for it.
fn errors_have_their_numbers()
    ensures { map (λ row. (row.0.now, row.1)) NAMED_ERRORS ≡ named_numbers }
{}
