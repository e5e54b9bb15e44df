// A reply of entries of a directory, with what a lookup answers.
ghost use Rattle.std.specs.Prelude.{◌≡◌, ◌<◌, ◌≤◌, ◌^◌, ◌+◌, List, IsOk, length};
ghost use Rattle.std.specs.List.{AllByRecursion};
ghost use Rattle.fuse_reply.specs.Sizes.{inline_size};
ghost use Rattle.fuse_reply.specs.Frame.{reply};
ghost use Rattle.fuse_reply.specs.Adding.{Adds};
ghost use Rattle.fuse_reply.specs.Listing.{PlusEntry, direntplus, plus_listing};
ghost use Rattle.fuse_reply.specs.Answer.{IsAnswer, IsPlusEntry, IsPlusListing};
ghost use Rattle.fuse_reply.specs.Answer.Answer.{DirectoryPlus};
ghost use Rattle.fuse_reply.specs.declared.out.Out.{Out};

use crate::attributes::{entry_bytes, type_of};
use crate::entries::put_entry;
use crate::payloads::dirent_head_bytes;
use crate::{EntryKind, Packed, Replied, ReplyListing};
use fuse_wire::{Duration, FileAttr, Generation, INodeNo, NoMemory};

/// The kind of a reply that carries entries of a directory, each with what a lookup answers.
pub struct PlusEntries;

impl EntryKind for PlusEntries {
    ghost use Rattle.std.specs.Prelude.{[], refl};
    ghost use Rattle.fuse_reply.specs.Answer.{IsPlusListing};

    ghost lists = { IsPlusListing };

    ghost none = { record { entries = []; in_range = tt; are = refl } };
}

/// The reply to a request that lists a directory and looks up each name.
pub type ReplyDirectoryPlus = ReplyListing<PlusEntries>;

impl ReplyListing<PlusEntries> {
    /// Adds an entry behind the others: the offset at which the listing goes on after it, its name, and what a lookup
    /// of the name answers. The inode and the kind are those of the attributes; the first argument is not sent. Of a
    /// name the kernel takes 1 to 1024 bytes (4095 since Linux 6.14), none of them `/`; here it may have `u32::MAX`.
    ///
    /// Ok(false): it was added. Ok(true): it does not fit, and nothing changed; a shorter one may fit still. An error:
    /// there was no memory, and nothing changed.
    #[tactic(auto, unfolding(crate::specs::Listing::direntplus, crate::specs::Listing::dirent))]
    pub fn add(
        &mut self,
        _ino: INodeNo,
        offset: u64,
        name: &[u8],
        ttl: &Duration,
        attr: &FileAttr,
        generation: Generation,
    ) -> Result<bool, NoMemory>
        requires { length name.now < 2 ^ 32 }
        ensures adds { let e : PlusEntry = record {
          valid = ttl.now;
          generation = generation.0;
          attr = attr.now;
          offset = offset;
          name = name.now;
        } in Adds result (direntplus e) self.old self.new }
        ensures entry { IsPlusEntry (record {
          valid = ttl.now;
          generation = generation.0;
          attr = attr.now;
          offset = offset;
          name = name.now;
        }) }
        ensures inline { let e : PlusEntry = record {
          valid = ttl.now;
          generation = generation.0;
          attr = attr.now;
          offset = offset;
          name = name.now;
        } in
            length self.old.held + length (direntplus e) ≤ inline_size → IsOk result }
    {
        let lookup = entry_bytes(ttl, ttl, generation, attr);
        let head = dirent_head_bytes(attr.ino.0, offset, name.len() as u32, type_of(attr.kind));
        put_entry(&mut self.held, self.size, &lookup, &head, name)
    }

    /// These are the entries. Those that were added are the payload of the frame; they are not copied again.
    #[tactic(auto, using(crate::proofs::AreReplies::plus_listing_is_reply))]
    pub fn ok(self) -> Replied
        ensures reply { (entries : List PlusEntry) → self.held ≡ plus_listing entries
            → result ≡ Out.Frame (reply self.id (DirectoryPlus entries)) }
        ensures answer { (entries : List PlusEntry) → AllByRecursion IsPlusEntry entries
            → self.held ≡ plus_listing entries → IsAnswer (DirectoryPlus entries) }
        ensures entries { IsPlusListing self.held }
        ensures within { length self.held ≤ self.size }
    {
        let ReplyListing {
            reply,
            size: _,
            held,
        } = self;
        let (_, id) = reply.into_parts();
        Replied::by(Packed::of_held(id, held))
    }
}
