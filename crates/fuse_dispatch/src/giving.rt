// How a reply may be given.
ghost use Rattle.std.specs.Prelude.{◌≡◌, [], Result, Err};
ghost use Rattle.fuse_reply.specs.Answer.Answer.{Error};
ghost use Rattle.fuse_reply.specs.Door.{DoorSeen};
ghost use Rattle.fuse_reply.specs.Frame.{reply};
ghost use Rattle.fuse_reply.specs.declared.door.NoDoor.{NoDoor as Reason};
ghost use Rattle.fuse_reply.specs.declared.door.NoDoor.TheVariants.{Shut};
ghost use Rattle.fuse_reply.specs.declared.out.Out.{Out};

use crate::asked::Asked;
use fuse_reply::{Door, EntryKind, NoDoor, Out, Reply, ReplyListing};
use fuse_wire::Errno;

/// How the reply to a request may be given: before its method returns, or later too. It is a parameter of what serves,
/// so that one thread runs code in which there are no doors. No bound lets it be dropped: a reply that is made in
/// another way, without the door, leaves it unspent.
pub(crate) trait Giving {
    /// What the reply may go through later, or why it may not.
    ghost door: { Self → Result DoorSeen Reason };

    /// The reply to a request, of a fixed size or of data.
    fn reply<Kind>(self, asked: &Asked) -> Reply<Kind>
        ensures { result ≡ record { id = asked.now.id.0; door = door self } };

    /// The reply to a request, of entries that have at most so many bytes.
    fn listing<Kind: EntryKind>(self, asked: &Asked, size: u32) -> ReplyListing<Kind>
        ensures { result ≡ record { id = asked.now.id.0; door = door self; size = size; held = [] } };

    /// The reply of an error that no method answers.
    fn refusal(self, asked: &Asked, error: Errno) -> Out
        ensures { result ≡ Out.Frame (reply asked.now.id.0 (Error error)) };

    /// No method gives a reply by it.
    fn unused(self);
}

/// Before its method returns.
#[derive(Clone, Copy)]
pub(crate) struct AtOnce;

impl Giving for AtOnce {
    ghost door = { λ giving. Err Shut };

    #[inline(always)]
    fn reply<Kind>(self, asked: &Asked) -> Reply<Kind> {
        Reply::new(asked.alloc, asked.id)
    }

    #[inline(always)]
    fn listing<Kind: EntryKind>(self, asked: &Asked, size: u32) -> ReplyListing<Kind> {
        ReplyListing::new(asked.alloc, asked.id, size as usize)
    }

    #[inline(always)]
    fn refusal(self, asked: &Asked, error: Errno) -> Out {
        asked.refusal(error)
    }

    #[inline(always)]
    fn unused(self) {}
}

/// Later too, where there is a door.
pub(crate) struct ByDoor {
    pub(crate) door: Result<Door, NoDoor>,
}

impl Giving for ByDoor {
    ghost door = { λ giving. giving.door };

    #[inline(always)]
    fn reply<Kind>(self, asked: &Asked) -> Reply<Kind> {
        let ByDoor { door } = self;
        AtOnce.reply::<Kind>(asked).with_door(door)
    }

    #[inline(always)]
    fn listing<Kind: EntryKind>(self, asked: &Asked, size: u32) -> ReplyListing<Kind> {
        let ByDoor { door } = self;
        AtOnce.listing::<Kind>(asked, size).with_door(door)
    }

    #[inline(always)]
    fn refusal(self, asked: &Asked, error: Errno) -> Out {
        let ByDoor { door: _ } = self;
        asked.refusal(error)
    }

    #[inline(always)]
    fn unused(self) {
        let ByDoor { door: _ } = self;
    }
}
