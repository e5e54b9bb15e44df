// A reply of an extended attribute.
ghost use Rattle.std.specs.Prelude.{◌≡◌, ◌≤◌, length};
ghost use Rattle.fuse_reply.specs.Sizes.{max_payload, inline_size};
ghost use Rattle.fuse_reply.specs.Frame.{reply};
ghost use Rattle.fuse_reply.specs.Reply.{RepliesWith};
ghost use Rattle.fuse_reply.specs.Answer.{IsAnswer};
ghost use Rattle.fuse_reply.specs.Answer.Answer.{Data, XattrSize};
ghost use Rattle.fuse_reply.specs.declared.out.Out.{Out};

use crate::payloads::word_bytes;
use crate::{Packed, Replied, Reply, ReplyData};

/// The kind of a reply that carries an extended attribute, or its size.
pub struct Xattrs;

/// The reply to a request for an extended attribute, or for the names of all.
pub type ReplyXattr = Reply<Xattrs>;

impl Reply<Xattrs> {
    /// It has so many bytes, any u32: `struct fuse_getxattr_out`. A request that asks for 0 bytes is answered so.
    #[tactic(auto, using(crate::proofs::AreReplies::xattr_size_is_reply))]
    pub fn size(self, size: u32) -> Replied
        ensures reply { result ≡ Out.Frame (reply self.id (XattrSize size)) }
        ensures answer { IsAnswer (XattrSize size) }
    {
        let (alloc, id) = self.into_parts();
        Replied::by(Packed::short(alloc, id, &word_bytes(size)))
    }

    /// These are the bytes: the attribute, or the names, a zero byte after each; at most `u32::MAX - 16` of them. More
    /// than 144 take memory; where none is to be had, the reply is ENOMEM.
    pub fn data(self, bytes: &[u8]) -> Replied
        requires { length bytes.now ≤ max_payload }
        ensures replies { RepliesWith self.id (Data bytes.now) result }
        ensures answer { IsAnswer (Data bytes.now) }
        ensures inline { length bytes.now ≤ inline_size → result ≡ Out.Frame (reply self.id (Data bytes.now)) }
    {
        let (alloc, id) = self.into_parts();
        ReplyData::new(alloc, id).data(bytes)
    }
}
