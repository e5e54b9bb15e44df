// A reply of entries of a directory, of either kind.
ghost use Rattle.std.specs.Prelude.{◌≡◌, [], Err, MatchResult};
ghost use Rattle.fuse_wire.specs.ErrorNumbers.{EIO};
ghost use Rattle.fuse_reply.specs.Frame.{reply};
ghost use Rattle.fuse_reply.specs.Answer.{IsAnswer};
ghost use Rattle.fuse_reply.specs.Answer.Answer.{Error};
ghost use Rattle.fuse_reply.specs.Deferral.{PutsOff};
ghost use Rattle.fuse_reply.specs.declared.door.NoDoor.TheVariants.{Shut};
ghost use Rattle.fuse_reply.specs.declared.out.Out.{Out};

use crate::later::{Held, Later};
use crate::packed::INLINE_SIZE;
use crate::{Door, NoDoor, Replied, Reply};
use fuse_wire::{Errno, RequestId};
use smallvec::SmallVec;
use std::alloc::Global;
use std::marker::Model;

/// A kind of entries of a directory.
pub trait EntryKind {
    ghost use Rattle.std.specs.Prelude.{ℕ, List, []};

    /// The bytes are entries of this kind, one after the other.
    ghost lists: { List ℕ → Type 0 };

    /// No bytes are no entries.
    ghost none: { lists [] };
}

/// The reply to a request that is answered by entries of a directory. It holds the entries that were added, of at most
/// `size` bytes, and of no more than a frame can carry, which is `u32::MAX - 16`. Up to 144 bytes take no memory. It
/// must be spent, once: by its answer, or by `defer`, where it may come later. A contract sees the request's id, what the
/// reply may go through later, the size, and the bytes of the entries.
pub struct ReplyListing<Kind: EntryKind> {
    pub(crate) reply: Reply<Kind>,
    pub(crate) size: usize,
    pub(crate) held: SmallVec<u8, INLINE_SIZE>,
}

impl<Kind: EntryKind> Model for ReplyListing<Kind> {
    ghost use Rattle.std.specs.Prelude.{◌≤◌, length, min};
    ghost use Rattle.fuse_reply.specs.Sizes.{max_payload};
    ghost use Rattle.fuse_reply.specs.Adding.{ListingSeen};

    ghost Value = { ListingSeen };

    ghost view = { λ r. record { id = r.reply.id; door = r.reply.door; size = r.size; held = r.held.items } };

    ghost invariant = { λ r. Kind.lists r.held.items × (length r.held.items ≤ min r.size max_payload) };
}

impl<Kind: EntryKind> Held for ReplyListing<Kind> {
    ghost use Rattle.fuse_reply.specs.Deferral.{has_door};

    ghost id_or = { λ r _. r.id };

    ghost may_wait = { λ r. has_door r.door };
}

impl<Kind: EntryKind> ReplyListing<Kind> {
    /// The reply to the request of this id, with no entries yet. `size` is in bytes: as many as the request asks for. It
    /// may not come later, unless it is given a door.
    pub fn new(alloc: Global, id: RequestId, size: usize) -> ReplyListing<Kind>
        ensures { result ≡ record { id = id.0; door = Err Shut; size = size; held = [] } }
    {
        ReplyListing {
            reply: Reply::new(alloc, id),
            size,
            held: SmallVec::new(alloc),
        }
    }

    /// The same reply, which may come later through this door, or may not.
    pub fn with_door(self, door: Result<Door, NoDoor>) -> ReplyListing<Kind>
        ensures { result ≡ record self { door = door } }
    {
        let ReplyListing { reply, size, held } = self;
        let reply = reply.with_door(door);
        ReplyListing { reply, size, held }
    }

    /// Puts the reply off, where it has a door, with the entries that it holds: what goes out now says that its frame
    /// comes later, and the token is to be kept. Where it has none, the reply comes back, and why.
    pub fn defer(self) -> Result<(Replied, Later<ReplyListing<Kind>>), (ReplyListing<Kind>, NoDoor)>
        ensures { MatchResult result
            (λ put. PutsOff self.id self.door put.0 put.1.id.0 put.1.door
            × (put.1.reply ≡ record self { door = Err Shut }))
            (λ back. (self.door ≡ Err back.1) × (back.0 ≡ self)) }
    {
        let ReplyListing { reply, size, held } = self;
        match reply.defer() {
            Ok((replied, later)) => {
                let Later { id, reply, door } = later;
                let reply = ReplyListing { reply, size, held };
                Ok((replied, Later { id, reply, door }))
            }
            Err((reply, none)) => Err((ReplyListing { reply, size, held }, none)),
        }
    }

    /// How many bytes its entries may have, as it was given.
    pub fn size(&self) -> usize
        ensures { result ≡ self.now.size }
    {
        self.size
    }

    /// It failed.
    pub fn error(self, error: Errno) -> Replied
        ensures reply { result ≡ Out.Frame (reply self.id (Error error)) }
        ensures answer { IsAnswer (Error error) }
    {
        let ReplyListing {
            reply,
            size: _,
            held: _,
        } = self;
        reply.error(error)
    }

    /// EIO: the filesystem has no answer to it.
    pub fn unanswered(self) -> Replied
        ensures { result ≡ Out.Frame (reply self.id (Error EIO)) }
    {
        self.error(Errno::EIO)
    }
}
