// A reply without a payload.
ghost use Rattle.std.specs.Prelude.{◌≡◌};
ghost use Rattle.fuse_reply.specs.Frame.{reply};
ghost use Rattle.fuse_reply.specs.Answer.Answer.{Empty};
ghost use Rattle.fuse_reply.specs.declared.out.Out.{Out};

use crate::{Packed, Replied, Reply};

/// The kind of a reply that carries nothing but its status.
pub struct Nothing;

/// The reply to a request that is answered by a status alone.
pub type ReplyEmpty = Reply<Nothing>;

impl Reply<Nothing> {
    /// It is done.
    #[tactic(auto, using(crate::proofs::AreReplies::empty_is_reply))]
    pub fn ok(self) -> Replied
        ensures { result ≡ Out.Frame (reply self.id Empty) }
    {
        let (alloc, id) = self.into_parts();
        Replied::by(Packed::bare(alloc, id, 0))
    }
}
