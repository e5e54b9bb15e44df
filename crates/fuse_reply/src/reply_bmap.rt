// A reply of a block.
ghost use Rattle.std.specs.Prelude.{◌≡◌};
ghost use Rattle.fuse_reply.specs.Frame.{reply};
ghost use Rattle.fuse_reply.specs.Answer.{IsAnswer};
ghost use Rattle.fuse_reply.specs.Answer.Answer.{Bmap};
ghost use Rattle.fuse_reply.specs.declared.out.Out.{Out};

use crate::{Packed, Replied, Reply};

/// The kind of a reply that carries a block of a device.
pub struct Blocks;

/// The reply to a request that asks where a block of a file lies.
pub type ReplyBmap = Reply<Blocks>;

impl Reply<Blocks> {
    /// It lies in this block of the device, any u64: `struct fuse_bmap_out`.
    #[tactic(auto, using(crate::proofs::AreReplies::bmap_is_reply))]
    pub fn bmap(self, block: u64) -> Replied
        ensures reply { result ≡ Out.Frame (reply self.id (Bmap block)) }
        ensures answer { IsAnswer (Bmap block) }
    {
        let (alloc, id) = self.into_parts();
        Replied::by(Packed::short(alloc, id, &block.to_le_bytes()))
    }
}
