// A reply of a new file.
ghost use Rattle.std.specs.Prelude.{◌≡◌, bit_and};
ghost use Rattle.fuse_wire.specs.Flags.{FOPEN_PASSTHROUGH};
ghost use Rattle.fuse_reply.specs.Frame.{reply};
ghost use Rattle.fuse_reply.specs.Answer.{IsAnswer};
ghost use Rattle.fuse_reply.specs.Answer.Answer.{Create};
ghost use Rattle.fuse_reply.specs.declared.out.Out.{Out};

use crate::attributes::entry_bytes;
use crate::payloads::open_bytes;
use crate::{Packed, Replied, Reply};
use bitflags::Flags;
use fuse_wire::{Duration, FileAttr, FileHandle, FopenFlags, Generation};

/// The kind of a reply that carries a new file, opened.
pub struct NewFiles;

/// The reply to a request that makes a file and opens it.
pub type ReplyCreate = Reply<NewFiles>;

impl Reply<NewFiles> {
    /// The name leads to the new inode of these attributes, and both hold for so long: `struct fuse_entry_out`. The
    /// file is open under this number, and is treated as the flags say: `struct fuse_open_out`, behind the entry.
    /// `FOPEN_PASSTHROUGH` may not be among them, as in `ReplyOpen::opened`.
    #[tactic(auto, using(crate::proofs::AreReplies::create_is_reply), unfolding(crate::specs::Payload::create_payload))]
    pub fn created(
        self,
        ttl: &Duration,
        attr: &FileAttr,
        generation: Generation,
        fh: FileHandle,
        flags: FopenFlags,
    ) -> Replied
        requires { bit_and flags.0 FOPEN_PASSTHROUGH ≡ 0 }
        ensures reply { result ≡ Out.Frame (reply self.id (Create ttl.now generation.0 attr.now fh.0 flags.0)) }
        ensures answer { IsAnswer (Create ttl.now generation.0 attr.now fh.0 flags.0) }
    {
        let (alloc, id) = self.into_parts();
        let entry = entry_bytes(ttl, ttl, generation, attr);
        let file = open_bytes(fh, flags.bits());
        Replied::by(Packed::short_parts(alloc, id, &entry, &file))
    }
}
