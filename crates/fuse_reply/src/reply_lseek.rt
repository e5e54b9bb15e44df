// A reply of a place in a file.
ghost use Rattle.std.specs.Prelude.{◌≡◌};
ghost use Rattle.fuse_reply.specs.Frame.{reply};
ghost use Rattle.fuse_reply.specs.Answer.{IsAnswer};
ghost use Rattle.fuse_reply.specs.Answer.Answer.{Lseek};
ghost use Rattle.fuse_reply.specs.declared.out.Out.{Out};

use crate::{Packed, Replied, Reply};

/// The kind of a reply that carries a place in a file.
pub struct Offsets;

/// The reply to a request that looks for contents or a hole of a file.
pub type ReplyLseek = Reply<Offsets>;

impl Reply<Offsets> {
    /// It is at this offset, in bytes, any i64: `struct fuse_lseek_out`.
    #[tactic(auto, using(crate::proofs::AreReplies::lseek_is_reply))]
    pub fn offset(self, offset: i64) -> Replied
        ensures reply { result ≡ Out.Frame (reply self.id (Lseek offset)) }
        ensures answer { IsAnswer (Lseek offset) }
    {
        let (alloc, id) = self.into_parts();
        Replied::by(Packed::short(alloc, id, &offset.to_le_bytes()))
    }
}
