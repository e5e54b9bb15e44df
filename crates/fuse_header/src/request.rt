// Who asks.
ghost use Rattle.std.specs.Prelude.{◌≡◌};

use fuse_wire::RequestId;

/// Who asks: what a filesystem is told of every request. User, group and thread are 0 where the kernel asks on its own
/// account, as in INIT, FORGET, RELEASE, or a WRITE that comes from its cache.
#[derive(Clone, Copy, Debug, PartialEq, Eq)]
pub struct Request {
    pub(crate) unique: RequestId,
    pub(crate) uid: u32,
    pub(crate) gid: u32,
    pub(crate) pid: u32,
}

impl Request {
    ghost use Rattle.fuse_header.specs.Asker.{unique_of, uid_of, gid_of, pid_of};

    /// The number of the request.
    pub fn unique(&self) -> RequestId
        ensures { result ≡ unique_of self.now }
    {
        self.unique
    }

    /// The user on whose behalf it is made.
    pub fn uid(&self) -> u32
        ensures { result ≡ uid_of self.now }
    {
        self.uid
    }

    /// The group of the caller, as for access to files (`fsgid`).
    pub fn gid(&self) -> u32
        ensures { result ≡ gid_of self.now }
    {
        self.gid
    }

    /// The number of the calling thread, as the mount's namespace has it, or 0 where it has none there.
    pub fn pid(&self) -> u32
        ensures { result ≡ pid_of self.now }
    {
        self.pid
    }
}
