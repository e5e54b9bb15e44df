// What a thread answers messages with.
ghost use Rattle.std.specs.Prelude.{◌≡◌, None, IfOk};
ghost use Rattle.fuse_notify.specs.Queueing.{fresh_door};
ghost use Rattle.fuse_reply.specs.EndMark.{end_mark};
ghost use Rattle.fuse_loop.specs.Answering.{DoorFits, IsRequest, answering};

use crate::Work;
use crate::doors::Doors;
use crate::ending::Ending;
use crate::run_line::RunLine;
use fuse_notify::Notifier;
use fuse_reply::{Door, NoDoor, Out, Parcel};
use fuse_wire::NoMemory;
use std::alloc::AllocGlobal;
use std::marker::Model;
use std::sync::Wait;

/// What a thread answers messages with: its notifier, and what makes doors for replies that come later, both to the line
/// of frames.
#[derive(Drop)]
pub struct Answerer {
    pub(crate) notifier: Notifier,
    doors: Doors,
}

impl Model for Answerer {
    ghost use Rattle.std.specs.Prelude.{◌≡◌};
    ghost use Rattle.fuse_loop.specs.Lines.{AnswererSeen};

    ghost Value = { AnswererSeen };

    ghost view = { λ a. record { notifier = a.notifier; doors = a.doors } };

    ghost invariant = { λ a. a.doors.pass.line ≡ a.notifier.line };
}

/// The door that the reply to the message of this number may come later through, where replies of this work may.
#[inline(always)]
fn door_for<W: Work>(doors: &mut Doors, seq: u64) -> Result<Door, NoDoor>
    ensures same { doors.new ≡ doors.old }
    ensures fits { DoorFits W.DEFERS doors.old.pass.line seq result }
{
    if W::DEFERS {
        doors.door(seq)
    } else {
        Err(NoDoor::Shut)
    }
}

impl Answerer {
    /// What answers with doors to this line, and with shares of the mark of this end. `NoMemory` only where the count
    /// of what shares the line, or the mark, is at its end.
    pub fn new(frames: &mut RunLine<Parcel>, ending: &mut Ending) -> Result<Answerer, NoMemory>
        ensures same { (frames.new ≡ frames.old) × (ending.new ≡ ending.old) }
        ensures fresh { IfOk result (λ made. made ≡ record {
          notifier = fresh_door frames.old.line;
          doors = record { pass = fresh_door frames.old.line; mark = end_mark ending.old.name ending.old.known None };
        }) }
    {
        let notifier = frames.notifier()?;
        let doors = frames.doors(ending.share()?)?;
        Ok(Answerer { notifier, doors })
    }

    /// Answers the message of this number.
    #[inline(always)]
    pub fn answer<R: Wait + AllocGlobal, W: Work>(
        &mut self,
        rt: &R,
        work: &W,
        seq: u64,
        message: &[u8],
    ) -> Out
        requires { IsRequest message.now }
        ensures answered { answering (W.owed work.now) W.DEFERS seq message.now result }
        ensures line { self.new.notifier.line ≡ self.old.notifier.line }
        ensures doors { self.new.doors ≡ self.old.doors }
    {
        let door = door_for::<W>(&mut self.doors, seq);
        work.answer(rt, &mut self.notifier, door, seq, message)
    }

    /// What another thread answers with. `NoMemory` comes as from `new`.
    pub fn again(&mut self) -> Result<Answerer, NoMemory>
        ensures same { self.new ≡ self.old }
        ensures again { IfOk result (λ again. again ≡ record {
          notifier = fresh_door self.old.notifier.line;
          doors = record {
            pass = fresh_door self.old.doors.pass.line;
            mark = end_mark self.old.doors.mark.name self.old.doors.mark.known None;
          };
        }) }
    {
        let notifier = self.notifier.again()?;
        let doors = self.doors.again()?;
        Ok(Answerer { notifier, doors })
    }
}
