// A reply, of any kind.
ghost use Rattle.std.specs.Prelude.{◌≡◌, Err, MatchResult};
ghost use Rattle.fuse_wire.specs.ErrorNumbers.{EIO};
ghost use Rattle.fuse_reply.specs.Frame.{reply};
ghost use Rattle.fuse_reply.specs.Answer.{IsAnswer};
ghost use Rattle.fuse_reply.specs.Answer.Answer.{Error};
ghost use Rattle.fuse_reply.specs.Deferral.{PutsOff, prompt_reply};
ghost use Rattle.fuse_reply.specs.declared.out.Out.{Out};

use crate::door::LateDoor;
use crate::later::{Held, Later};
use crate::{Door, NoDoor, Replied};
use fuse_wire::{Errno, RequestId};
use std::alloc::Global;
use std::marker::{Model, PhantomData};

/// The reply to one request. Its kind says what it may be answered by; each kind may be answered by an error. It must
/// be spent, once: by its answer, or by `defer`, where it may come later. A contract sees the request's id, and what
/// the reply may go through later.
pub struct Reply<Kind> {
    id: RequestId,
    alloc: Global,
    door: Result<Door, NoDoor>,
    kind: PhantomData<Kind>,
}

impl<Kind> Model for Reply<Kind> {
    ghost use Rattle.fuse_reply.specs.Deferral.{ReplySeen};

    ghost Value = { ReplySeen };

    ghost view = { λ r. record { id = r.id.0; door = r.door } };
}

impl<Kind> Held for Reply<Kind> {
    ghost use Rattle.fuse_reply.specs.Deferral.{has_door};

    ghost id_or = { λ r _. r.id };

    ghost may_wait = { λ r. has_door r.door };
}

impl<Kind> Reply<Kind> {
    /// The reply to the request of this id. It may not come later, unless it is given a door.
    #[inline(always)]
    pub fn new(alloc: Global, id: RequestId) -> Reply<Kind>
        ensures { result ≡ prompt_reply id.0 }
    {
        Reply {
            id,
            alloc,
            door: Err(NoDoor::Shut),
            kind: PhantomData,
        }
    }

    /// The same reply, which may come later through this door, or may not.
    #[inline(always)]
    pub fn with_door(self, door: Result<Door, NoDoor>) -> Reply<Kind>
        ensures { result ≡ record { id = self.id; door = door } }
    {
        let (alloc, id) = self.into_parts();
        Reply {
            id,
            alloc,
            door,
            kind: PhantomData,
        }
    }

    /// Puts the reply off, where it has a door: what goes out now says that its frame comes later, and the token is to
    /// be kept. Where it has none, the reply comes back, and why.
    pub fn defer(self) -> Result<(Replied, Later<Reply<Kind>>), (Reply<Kind>, NoDoor)>
        ensures { MatchResult result
            (λ put. PutsOff self.id self.door put.0 put.1.id.0 put.1.door × (put.1.reply ≡ prompt_reply self.id))
            (λ back. (self.door ≡ Err back.1) × (back.0 ≡ self)) }
    {
        let (reply, door) = self.part_from_door();
        let id = reply.id;
        match door {
            Ok(door) => {
                let replied = Replied::deferred(door.seq(), id);
                let door = LateDoor::new(door);
                Ok((replied, Later { id, reply, door }))
            }
            Err(none) => Err((reply.with_door(Err(none)), none)),
        }
    }

    /// It failed.
    pub fn error(self, error: Errno) -> Replied
        ensures reply { result ≡ Out.Frame (reply self.id (Error error)) }
        ensures answer { IsAnswer (Error error) }
    {
        let (alloc, id) = self.into_parts();
        Replied::failed(alloc, id, error)
    }

    /// EIO: the filesystem has no answer to it.
    pub fn unanswered(self) -> Replied
        ensures { result ≡ Out.Frame (reply self.id (Error EIO)) }
    {
        self.error(Errno::EIO)
    }

    /// Where an answer's memory comes from, and the id of the request.
    #[inline(always)]
    pub(crate) fn into_parts(self) -> (Global, RequestId)
        ensures { result.1.0 ≡ self.id }
    {
        let Reply {
            id,
            alloc,
            door: _,
            kind: _,
        } = self;
        (alloc, id)
    }

    /// The reply without its door, and the door.
    #[inline(always)]
    pub(crate) fn part_from_door(self) -> (Reply<Kind>, Result<Door, NoDoor>)
        ensures { (result.0 ≡ prompt_reply self.id) × (result.1 ≡ self.door) }
    {
        let Reply {
            id,
            alloc,
            door,
            kind: _,
        } = self;
        (Reply::new(alloc, id), door)
    }
}
