// What is done with the token of a reply that comes later.
ghost use Rattle.std.specs.Prelude.{◌≡◌, false, IfErr, IfOk, IfSome};
ghost use Rattle.fuse_reply.specs.Door.{QueuesLate};
ghost use Rattle.fuse_reply.specs.Late.{IsFrameFor};
ghost use Rattle.fuse_reply.specs.Refusing.{GivesBack};

use crate::later::{Held, LateRefusal, Later};
use crate::{EndNote, Out, Queued, Replied};
use fuse_wire::RequestId;
use std::snapshot::Snapshot;
use std::sync::Wait;
use std::thread;

impl<R: Held> Later<R> {
    /// The id of the request that its reply is for.
    pub fn id(&self) -> RequestId
        ensures { result ≡ self.now.id }
    {
        self.id
    }

    /// The reply, which can't be put off once more, and the token to send it by.
    pub fn reply(self) -> (R, Later<()>)
        ensures reply { result.0 ≡ self.reply }
        ensures id { R.id_or result.0 result.1.id.0 ≡ result.1.id.0 }
        ensures prompt { R.may_wait result.0 ≡ false }
        ensures token { (result.1.id ≡ self.id) × (result.1.door ≡ self.door) }
    {
        let Later { id, reply, door } = self;
        let token = Later {
            id,
            reply: (),
            door,
        };
        (reply, token)
    }
}

impl Later<()> {
    /// Queues the frame that the reply was spent into, for whoever sends. Where its own push finds the line full, and
    /// where the run has ended, all comes back.
    pub fn send<R: Wait>(self, rt: &R, replied: Replied) -> Result<Queued, LateRefusal>
        requires { IsFrameFor self.id.0 replied }
        ensures queued { IfOk result (λ queued. QueuesLate self.id.0 replied self.door queued) }
        ensures back { IfErr result (λ refusal. GivesBack self.id.0 self.door replied refusal) }
    {
        let Later {
            id,
            reply: (),
            mut door,
        } = self;
        if let Some(note) = door.note() {
            let token = Later {
                id,
                reply: (),
                door,
            };
            return Err(LateRefusal::Closed(token, replied, note));
        }
        let before = Snapshot::of(&door);
        let spent = Snapshot::of(&replied);
        let Out::Frame(frame) = replied.into_out() else {
            unreachable!()
        };
        match door.push(rt, id, frame.into_packed()) {
            Ok(()) => Ok(door.let_go_after_push(id, before, spent)),
            Err(full) => {
                let token = Later {
                    id,
                    reply: (),
                    door,
                };
                let replied = Replied::by(full.item);
                Err(LateRefusal::Full(token, replied, full.line))
            }
        }
    }

    /// Queues the frame that the reply was spent into, and tries again while the line is full. Where the run has ended,
    /// nothing is sent, and what tells that it has is given.
    pub fn send_or_retire<R: Wait>(self, rt: &R, replied: Replied) -> Option<EndNote>
        requires { IsFrameFor self.id.0 replied }
        ensures { IfSome result (λ note. note.name ≡ self.door.mark.name) }
    {
        let mut left = self;
        let mut frame = replied;
        for _ in rt.forever() {
            match left.send(rt, frame) {
                Ok(_) => return None,
                Err(LateRefusal::Full(token, replied, _)) => {
                    left = token;
                    frame = replied;
                    thread::yield_now();
                }
                Err(LateRefusal::Closed(token, replied, note)) => {
                    token.retire(replied, &note);
                    return Some(note);
                }
            }
        }
        unreachable!()
    }

    /// Spends the token and what its reply was spent into, once the run has ended: nothing is sent.
    pub fn retire(self, replied: Replied, note: &EndNote)
        requires reply { IsFrameFor self.id.0 replied }
        requires ended { note.now.name ≡ self.door.mark.name }
    {
        let Later {
            id: _,
            reply: (),
            door,
        } = self;
        door.let_go_at_end(note);
        let _out = replied.into_out();
    }
}
