// What is asked about locks.
ghost use Rattle.std.specs.Prelude.{◌≡◌};

use fuse_args::GetLkArguments;
use fuse_wire::{FileHandle, LockOwner};
use std::marker::Model;

/// A lock on a range of a file.
#[derive(Clone, Copy, Debug, PartialEq, Eq)]
pub struct Lock {
    /// The first and the last byte of the range. The last is `i64::MAX` where the lock has no end.
    pub range: (u64, u64),
    /// The kind of lock, the `l_type` of `fcntl(2)`: `F_RDLCK` is 0, `F_WRLCK` 1, and `F_UNLCK` 2, which gives a lock
    /// back.
    pub typ: i32,
    /// The process that asks for it, and 0 where a lock is asked about or given back.
    pub pid: u32,
}

/// GETLK, SETLK and SETLKW: what is asked of a lock, and of the latter two whether to wait.
#[derive(Drop)]
pub struct Locking<S> {
    /// The fixed part, as it was sent.
    pub(crate) arguments: GetLkArguments,
    /// Whether to wait, of SETLK and SETLKW; nothing, of GETLK.
    pub(crate) sleep: S,
}

/// GETLK: whether a lock could be taken.
pub type GetLk = Locking<()>;

/// SETLK and SETLKW: a lock is taken or given back.
pub type SetLk = Locking<bool>;

impl<S> Model for Locking<S> {
    ghost use Rattle.fuse_request.specs.Carried.{Locked};

    ghost Value = { Locked S };

    ghost view = { λ a. record { arguments = a.arguments; sleep = a.sleep } };
}

impl<S> Locking<S> {
    ghost use Rattle.fuse_request.specs.Fields.{lock_of};

    /// The open file.
    pub fn file_handle(&self) -> FileHandle
        ensures { result.0 ≡ self.now.arguments.fh }
    {
        FileHandle(self.arguments.fh)
    }

    /// The lock.
    pub fn lock(&self) -> Lock
        ensures { result ≡ lock_of self.now.arguments }
    {
        Lock {
            range: (self.arguments.start, self.arguments.end),
            typ: self.arguments.typ,
            pid: self.arguments.pid,
        }
    }

    /// Who asks for it.
    pub fn lock_owner(&self) -> LockOwner
        ensures { result.0 ≡ self.now.arguments.owner }
    {
        LockOwner(self.arguments.owner)
    }
}

impl Locking<bool> {
    /// Whether to wait until it can be taken: SETLKW.
    pub fn sleep(&self) -> bool
        ensures { result ≡ self.now.sleep }
    {
        self.sleep
    }
}
