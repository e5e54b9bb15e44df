// A reply of how full a filesystem is.
ghost use Rattle.std.specs.Prelude.{◌≡◌};
ghost use Rattle.fuse_reply.specs.Frame.{reply};
ghost use Rattle.fuse_reply.specs.Answer.{IsAnswer};
ghost use Rattle.fuse_reply.specs.Answer.Answer.{Statfs};
ghost use Rattle.fuse_reply.specs.declared.out.Out.{Out};

use crate::payloads::{statfs_count_bytes, statfs_size_bytes};
use crate::{Packed, Replied, Reply};

/// The kind of a reply that carries how full a filesystem is.
pub struct Fills;

/// The reply to a request that asks how full the filesystem is.
pub type ReplyStatfs = Reply<Fills>;

impl Reply<Fills> {
    /// The fill, as `statvfs(3)` has it: blocks in all, free ones, and those that are free for users; inodes in all,
    /// and free ones; the size of a block that reads and writes do best with, in bytes; the longest name, in bytes;
    /// and the size of a block that is counted, in bytes. Each may be any number of its type. They are
    /// `struct fuse_kstatfs`.
    #[tactic(auto, using(crate::proofs::AreReplies::statfs_is_reply), unfolding(crate::specs::Payload::statfs_payload))]
    pub fn statfs(
        self,
        blocks: u64,
        bfree: u64,
        bavail: u64,
        files: u64,
        ffree: u64,
        bsize: u32,
        namelen: u32,
        frsize: u32,
    ) -> Replied
        ensures reply { result
            ≡ Out.Frame (reply self.id (Statfs blocks bfree bavail files ffree bsize namelen frsize)) }
        ensures answer { IsAnswer (Statfs blocks bfree bavail files ffree bsize namelen frsize) }
    {
        let (alloc, id) = self.into_parts();
        let counts = statfs_count_bytes(blocks, bfree, bavail, files, ffree);
        let sizes = statfs_size_bytes(bsize, namelen, frsize);
        Replied::by(Packed::short_parts(alloc, id, &counts, &sizes))
    }
}
