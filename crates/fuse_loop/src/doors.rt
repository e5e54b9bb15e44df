// What makes doors for replies that come later.
ghost use Rattle.std.specs.Prelude.{◌≡◌, None, IfOk, MatchResult};
ghost use Rattle.std.specs.Arc.{arc_value};
ghost use Rattle.fuse_line.specs.declared.hand.Kind.TheVariants.{Door as IsDoor};
ghost use Rattle.fuse_notify.specs.Queueing.{fresh_door};
ghost use Rattle.fuse_reply.specs.EndMark.{end_mark};
ghost use Rattle.fuse_reply.specs.declared.door.NoDoor.TheVariants.{Starved};

use fuse_line::{Line, Pass};
use fuse_reply::{Door, EndMark, NoDoor, Parcel};
use fuse_wire::NoMemory;
use std::alloc::Global;
use std::marker::Model;
use std::sync::Arc;

/// What makes doors for the replies of one thread: a share of the line of frames with a door to it, and a share of the
/// mark of the run's end. A contract sees the door and the share of the mark.
#[derive(Drop)]
pub struct Doors {
    line: Arc<Line<Parcel>, Global>,
    pass: Pass<Parcel>,
    mark: EndMark,
}

impl Model for Doors {
    ghost use Rattle.std.specs.Prelude.{◌≡◌};
    ghost use Rattle.std.specs.Arc.{arc_value};
    ghost use Rattle.fuse_line.specs.declared.hand.Kind.TheVariants.{Door as IsDoor};
    ghost use Rattle.fuse_loop.specs.Lines.{DoorsSeen};

    ghost Value = { DoorsSeen };

    ghost view = { λ d. record { pass = d.pass; mark = d.mark } };

    ghost invariant = { λ d. (d.pass.line ≡ arc_value d.line) × (d.pass.hand.kind ≡ IsDoor) };
}

impl Doors {
    /// What makes doors to this line, each with a share of this mark.
    pub fn new(line: Arc<Line<Parcel>, Global>, pass: Pass<Parcel>, mark: EndMark) -> Doors
        requires line { pass.line ≡ arc_value line }
        requires door { pass.hand.kind ≡ IsDoor }
        ensures { result ≡ record { pass = pass; mark = mark } }
    {
        Doors { line, pass, mark }
    }

    /// The door that the reply to the message of this number may come later through. The error is `Starved`, and comes
    /// where `again` has one.
    pub fn door(&mut self, seq: u64) -> Result<Door, NoDoor>
        ensures same { self.new ≡ self.old }
        ensures door { MatchResult result
            (λ door. door ≡ record {
              seq = seq;
              pass = fresh_door self.old.pass.line;
              mark = end_mark self.old.mark.name self.old.mark.known None;
            })
            (λ none. none ≡ Starved) }
    {
        match self.again() {
            Ok(Doors { line, pass, mark }) => Ok(Door::new(seq, line, pass, mark)),
            Err(NoMemory) => Err(NoDoor::Starved),
        }
    }

    /// What makes such doors for another thread. `NoMemory` only where the count of what shares the line, or the mark,
    /// is at its end.
    pub fn again(&mut self) -> Result<Doors, NoMemory>
        ensures same { self.new ≡ self.old }
        ensures again { IfOk result (λ doors. doors ≡ record {
          pass = fresh_door self.old.pass.line;
          mark = end_mark self.old.mark.name self.old.mark.known None;
        }) }
    {
        let mark = self.mark.share()?;
        let line = Arc::try_clone(&self.line)?;
        let pass = self.line.split(&mut self.pass, true);
        Ok(Doors { line, pass, mark })
    }
}
