// A reply of attributes.
ghost use Rattle.std.specs.Prelude.{◌≡◌};
ghost use Rattle.fuse_reply.specs.Frame.{reply};
ghost use Rattle.fuse_reply.specs.Answer.{IsAnswer};
ghost use Rattle.fuse_reply.specs.Answer.Answer.{Attr};
ghost use Rattle.fuse_reply.specs.declared.out.Out.{Out};

use crate::attributes::attr_out_bytes;
use crate::{Packed, Replied, Reply};
use fuse_wire::{Duration, FileAttr};

/// The kind of a reply that carries attributes.
pub struct Attrs;

/// The reply to a request that is answered by attributes.
pub type ReplyAttr = Reply<Attrs>;

impl Reply<Attrs> {
    /// The inode has these attributes, which hold for so long: `struct fuse_attr_out`.
    #[tactic(auto, using(crate::proofs::AreReplies::attr_is_reply))]
    pub fn attr(self, ttl: &Duration, attr: &FileAttr) -> Replied
        ensures reply { result ≡ Out.Frame (reply self.id (Attr ttl.now attr.now)) }
        ensures answer { IsAnswer (Attr ttl.now attr.now) }
    {
        let (alloc, id) = self.into_parts();
        let payload = attr_out_bytes(ttl, attr);
        Replied::by(Packed::short(alloc, id, &payload))
    }
}
