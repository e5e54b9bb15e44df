// A reply of a lock.
ghost use Rattle.std.specs.Prelude.{◌≡◌};
ghost use Rattle.fuse_reply.specs.Frame.{reply};
ghost use Rattle.fuse_reply.specs.Answer.{IsAnswer};
ghost use Rattle.fuse_reply.specs.Answer.Answer.{Lock};
ghost use Rattle.fuse_reply.specs.declared.out.Out.{Out};

use crate::payloads::lock_bytes;
use crate::{Packed, Replied, Reply};

/// The kind of a reply that carries a lock.
pub struct Locks;

/// The reply to a request that asks which lock stands in the way of one.
pub type ReplyLock = Reply<Locks>;

impl Reply<Locks> {
    /// This lock stands in the way: from the byte `start` up to and with the byte `end`, of the type `typ` (`F_RDLCK`
    /// 0, `F_WRLCK` 1, or `F_UNLCK` 2 where none stands in the way), held by the process `pid`: `struct fuse_lk_out`.
    /// Each may be any number of its type; for another lock than these, or a range that ends before it starts or above
    /// `i64::MAX`, the caller gets EIO.
    #[tactic(auto, using(crate::proofs::AreReplies::lock_is_reply))]
    pub fn locked(self, start: u64, end: u64, typ: i32, pid: u32) -> Replied
        ensures reply { result ≡ Out.Frame (reply self.id (Lock start end typ pid)) }
        ensures answer { IsAnswer (Lock start end typ pid) }
    {
        let (alloc, id) = self.into_parts();
        Replied::by(Packed::short(alloc, id, &lock_bytes(start, end, typ, pid)))
    }
}
