// A reply of what a name leads to.
ghost use Rattle.std.specs.Prelude.{◌≡◌};
ghost use Rattle.fuse_reply.specs.Frame.{reply};
ghost use Rattle.fuse_reply.specs.Answer.{IsAnswer};
ghost use Rattle.fuse_reply.specs.Answer.Answer.{Entry};
ghost use Rattle.fuse_reply.specs.declared.out.Out.{Out};

use crate::attributes::entry_bytes;
use crate::{Packed, Replied, Reply};
use fuse_wire::{Duration, FileAttr, Generation};

/// The kind of a reply that carries what a name leads to.
pub struct Entries;

/// The reply to a request that is answered by an inode under a name.
pub type ReplyEntry = Reply<Entries>;

impl Reply<Entries> {
    /// The name leads to the inode of these attributes, and both hold for so long: `struct fuse_entry_out`. To LOOKUP,
    /// `attr.ino` 0 says that there is no such name, and the kernel keeps that for so long.
    pub fn entry(self, ttl: &Duration, attr: &FileAttr, generation: Generation) -> Replied
        ensures reply { result ≡ Out.Frame (reply self.id (Entry ttl.now ttl.now generation.0 attr.now)) }
        ensures answer { IsAnswer (Entry ttl.now ttl.now generation.0 attr.now) }
    {
        self.entry_with_ttls(ttl, ttl, attr, generation)
    }

    /// The same, where the attributes hold for `attr_ttl`, and the name for `entry_ttl`.
    #[tactic(auto, using(crate::proofs::AreReplies::entry_is_reply))]
    pub fn entry_with_ttls(
        self,
        attr_ttl: &Duration,
        entry_ttl: &Duration,
        attr: &FileAttr,
        generation: Generation,
    ) -> Replied
        ensures reply { result ≡ Out.Frame (reply self.id (Entry entry_ttl.now attr_ttl.now generation.0 attr.now)) }
        ensures answer { IsAnswer (Entry entry_ttl.now attr_ttl.now generation.0 attr.now) }
    {
        let (alloc, id) = self.into_parts();
        let payload = entry_bytes(entry_ttl, attr_ttl, generation, attr);
        Replied::by(Packed::short(alloc, id, &payload))
    }
}
