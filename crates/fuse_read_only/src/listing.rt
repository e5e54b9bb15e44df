// The entries of a directory, added to a reply.
ghost use Rattle.std.specs.Prelude.{◌≡◌, ◌<◌, ◌≤◌, ◌+◌, Ok, false, [], length, IfErr, IfOk, IsOk};
ghost use Rattle.std.specs.List.{AllByRecursion};
ghost use Rattle.fuse_reply.specs.Answer.{IsDirEntry};
ghost use Rattle.fuse_reply.specs.Adding.{Adds};
ghost use Rattle.fuse_reply.specs.Listing.{dirent, listing};
ghost use Rattle.fuse_reply.specs.Sizes.{inline_size};
ghost use Rattle.fuse_read_only.specs.Tree.{followed_by, member_of};
ghost use Rattle.fuse_read_only.specs.ReadOnly.{listing_of};

use crate::{Entry, Files};
use fuse_reply::ReplyDirectory;
use fuse_wire::{INodeNo, NoMemory};

/// Adds the entries of a directory from the place `offset` on, up to the first that does not fit, to a reply that has none
/// yet: what a READDIR is answered. Each has the place behind it as the offset at which the listing goes on. Up to 144
/// bytes of them take no memory; `NoMemory` where they are more and there is no memory for one. What the reply answers, its
/// size and its door stay.
pub fn add_entries<T: Files>(
    files: &T,
    ino: INodeNo,
    offset: u64,
    reply: &mut ReplyDirectory,
) -> Result<(), NoMemory>
    requires { reply.old.held ≡ [] }
    ensures listed { let entries = listing_of (T.tree files.now) ino.0 offset reply.old.size in
        IfOk result (λ _. (reply.new ≡ record reply.old { held = listing entries })
        × AllByRecursion IsDirEntry entries) }
    ensures starved { IfErr result (λ _.
        inline_size < length (listing (listing_of (T.tree files.now) ino.0 offset reply.old.size))) }
    ensures same { reply.new ≡ record reply.old { held = reply.new.held } }
{
    for place in offset as usize..usize::MAX {
        let Some(entry) = files.entry(ino, place) else {
            return Ok(());
        };
        if add_entry(&entry, place as u64 + 1, reply)? {
            return Ok(());
        }
    }
    Ok(())
}

/// Adds an entry, with the offset after it. Ok(true) says that it does not fit.
fn add_entry(entry: &Entry<'_>, offset: u64, reply: &mut ReplyDirectory) -> Result<bool, NoMemory>
    ensures adds { Adds result (dirent (followed_by offset (member_of entry.now))) reply.old reply.new }
    ensures in_range { result ≡ Ok false → IsDirEntry (followed_by offset (member_of entry.now)) }
    ensures inline { length reply.old.held + length (dirent (followed_by offset (member_of entry.now))) ≤ inline_size
        → IsOk result }
{
    // No frame can carry a longer name.
    if entry.name.len() > u32::MAX as usize {
        return Ok(true);
    }
    reply.add(entry.ino, offset, entry.kind, entry.name)
}
