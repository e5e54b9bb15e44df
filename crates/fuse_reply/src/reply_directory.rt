// A reply of entries of a directory.
ghost use Rattle.std.specs.Prelude.{◌≡◌, ◌<◌, ◌≤◌, ◌^◌, ◌+◌, List, IsOk, length};
ghost use Rattle.std.specs.List.{AllByRecursion};
ghost use Rattle.fuse_reply.specs.Sizes.{inline_size};
ghost use Rattle.fuse_reply.specs.Frame.{reply};
ghost use Rattle.fuse_reply.specs.Adding.{Adds};
ghost use Rattle.fuse_reply.specs.Listing.{DirEntry, dirent, listing};
ghost use Rattle.fuse_reply.specs.Answer.{IsAnswer, IsDirEntry, IsListing};
ghost use Rattle.fuse_reply.specs.Answer.Answer.{Directory};
ghost use Rattle.fuse_reply.specs.declared.out.Out.{Out};

use crate::attributes::type_of;
use crate::entries::put_entry;
use crate::payloads::dirent_head_bytes;
use crate::{EntryKind, Packed, Replied, ReplyListing};
use fuse_wire::{FileType, INodeNo, NoMemory};

/// The kind of a reply that carries entries of a directory.
pub struct DirEntries;

impl EntryKind for DirEntries {
    ghost use Rattle.std.specs.Prelude.{[], refl};
    ghost use Rattle.fuse_reply.specs.Answer.{IsListing};

    ghost lists = { IsListing };

    ghost none = { record { entries = []; in_range = tt; are = refl } };
}

/// The reply to a request that lists a directory.
pub type ReplyDirectory = ReplyListing<DirEntries>;

impl ReplyListing<DirEntries> {
    /// Adds an entry behind the others: its inode, the offset at which the listing goes on after it, what kind of file
    /// it is, and its name. Of a name the kernel takes 1 to 1024 bytes (4095 since Linux 6.14), none of them `/`; here
    /// it may have `u32::MAX`.
    ///
    /// Ok(false): it was added. Ok(true): it does not fit, and nothing changed; a shorter one may fit still. An error:
    /// there was no memory, and nothing changed.
    #[tactic(auto, unfolding(crate::specs::Listing::dirent))]
    pub fn add(
        &mut self,
        ino: INodeNo,
        offset: u64,
        kind: FileType,
        name: &[u8],
    ) -> Result<bool, NoMemory>
        requires { length name.now < 2 ^ 32 }
        ensures adds { let e : DirEntry = record { ino = ino.0; offset = offset; kind = kind; name = name.now } in
            Adds result (dirent e) self.old self.new }
        ensures entry { IsDirEntry (record { ino = ino.0; offset = offset; kind = kind; name = name.now }) }
        ensures inline { let e : DirEntry = record { ino = ino.0; offset = offset; kind = kind; name = name.now } in
            length self.old.held + length (dirent e) ≤ inline_size → IsOk result }
    {
        let head = dirent_head_bytes(ino.0, offset, name.len() as u32, type_of(kind));
        put_entry(&mut self.held, self.size, &[], &head, name)
    }

    /// These are the entries. Those that were added are the payload of the frame; they are not copied again.
    #[tactic(auto, using(crate::proofs::AreReplies::listing_is_reply))]
    pub fn ok(self) -> Replied
        ensures reply { (entries : List DirEntry) → self.held ≡ listing entries
            → result ≡ Out.Frame (reply self.id (Directory entries)) }
        ensures answer { (entries : List DirEntry) → AllByRecursion IsDirEntry entries → self.held ≡ listing entries
            → IsAnswer (Directory entries) }
        ensures entries { IsListing self.held }
        ensures within { length self.held ≤ self.size }
    {
        let ReplyListing {
            reply,
            size: _,
            held,
        } = self;
        let (_, id) = reply.into_parts();
        Replied::by(Packed::of_held(id, held))
    }
}
