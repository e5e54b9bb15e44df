// A reply of bytes.
ghost use Rattle.std.specs.Prelude.{◌≡◌, ◌≤◌, length};
ghost use Rattle.fuse_reply.specs.Sizes.{max_payload, inline_size};
ghost use Rattle.fuse_reply.specs.Frame.{reply};
ghost use Rattle.fuse_reply.specs.Reply.{RepliesWith};
ghost use Rattle.fuse_reply.specs.Answer.{IsAnswer};
ghost use Rattle.fuse_reply.specs.Answer.Answer.{Data};
ghost use Rattle.fuse_reply.specs.declared.out.Out.{Out};

use crate::packed::INLINE_SIZE;
use crate::{Packed, Replied, Reply};
use fuse_wire::Errno;
use smallvec::SmallVec;

/// The kind of a reply that carries bytes.
pub struct Bytes;

/// The reply to a request that is answered by bytes.
pub type ReplyData = Reply<Bytes>;

impl Reply<Bytes> {
    /// These are the bytes, at most `u32::MAX - 16` of them. More than 144 take memory; where none is to be had, the
    /// reply is ENOMEM.
    #[tactic(auto, using(crate::proofs::AreReplies::data_is_reply))]
    pub fn data(self, bytes: &[u8]) -> Replied
        requires { length bytes.now ≤ max_payload }
        ensures replies { RepliesWith self.id (Data bytes.now) result }
        ensures answer { IsAnswer (Data bytes.now) }
        ensures inline { length bytes.now ≤ inline_size → result ≡ Out.Frame (reply self.id (Data bytes.now)) }
    {
        let (alloc, id) = self.into_parts();
        if bytes.len() <= INLINE_SIZE {
            return Replied::by(Packed::new(alloc, id, 0, bytes).unwrap());
        }
        let Ok(held) = Vec::from_slice(alloc, bytes) else {
            return Replied::failed(alloc, id, Errno::ENOMEM);
        };
        Replied::by(Packed::of_held(id, SmallVec::from_vec(held)))
    }
}
