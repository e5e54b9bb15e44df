// A reply of how much was written.
ghost use Rattle.std.specs.Prelude.{◌≡◌};
ghost use Rattle.fuse_reply.specs.Frame.{reply};
ghost use Rattle.fuse_reply.specs.Answer.{IsAnswer};
ghost use Rattle.fuse_reply.specs.Answer.Answer.{Write};
ghost use Rattle.fuse_reply.specs.declared.out.Out.{Out};

use crate::payloads::word_bytes;
use crate::{Packed, Replied, Reply};

/// The kind of a reply that carries how many bytes were written.
pub struct ByteCounts;

/// The reply to a request that writes, or copies from file to file.
pub type ReplyWrite = Reply<ByteCounts>;

impl Reply<ByteCounts> {
    /// So many bytes were written, any u32: `struct fuse_write_out`.
    #[tactic(auto, using(crate::proofs::AreReplies::write_is_reply))]
    pub fn written(self, size: u32) -> Replied
        ensures reply { result ≡ Out.Frame (reply self.id (Write size)) }
        ensures answer { IsAnswer (Write size) }
    {
        let (alloc, id) = self.into_parts();
        Replied::by(Packed::short(alloc, id, &word_bytes(size)))
    }
}
