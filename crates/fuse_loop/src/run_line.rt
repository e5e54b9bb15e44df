// A line of a run, with its first pass.
ghost use Rattle.std.specs.Prelude.{◌≡◌, [], false, IfErr, IfOk, IfSome, MatchResult};
ghost use Rattle.fuse_line.specs.Hand.{hand, with_taken};
ghost use Rattle.fuse_line.specs.declared.hand.Kind.TheVariants.{First};
ghost use Rattle.fuse_notify.specs.Queueing.{fresh_door};
ghost use Rattle.fuse_reply.specs.Parcel.{is_prompt};

use crate::doors::Doors;
use fuse_core::LINE_PLACES;
use fuse_line::{Class, Line, LineEmpty, Pass};
use fuse_notify::Notifier;
use fuse_reply::{EndMark, Parcel};
use fuse_wire::NoMemory;
use std::alloc::Global;
use std::marker::Model;
use std::sync::{Arc, Wait};

/// A line with its first pass, on which no inner item waits. A contract sees the pass.
#[derive(Drop)]
pub struct RunLine<T: Class> {
    /// The line, which those who have a pass of it share.
    pub line: Arc<Line<T>, Global>,
    /// Its first pass.
    pub pass: Pass<T>,
}

impl<T: Class> Model for RunLine<T> {
    ghost use Rattle.std.specs.Arc.{arc_value};
    ghost use Rattle.fuse_line.specs.Seen.{Seen};
    ghost use Rattle.fuse_loop.specs.Lines.{IsAlone};

    ghost Value = { Seen T };

    ghost view = { λ l. l.pass };

    ghost invariant = { λ l. IsAlone T.is_inner (arc_value l.line) l.pass };
}

impl<T: Class + Drop> RunLine<T> {
    /// An empty line of `LINE_PLACES` places, with its first pass. `NoMemory` where there is no memory for it.
    pub fn new(alloc: Global) -> Result<RunLine<T>, NoMemory>
        ensures places { IfOk result (λ made. made.line.slots ≡ LINE_PLACES) }
        ensures unused { IfOk result (λ made. made.hand ≡ hand First 0 [] []) }
    {
        let (line, pass) = Line::new(alloc, LINE_PLACES)?;
        let Ok(line) = Arc::new(alloc, line) else {
            return Err(NoMemory);
        };
        Ok(RunLine { line, pass })
    }
}

impl RunLine<Parcel> {
    /// What queues notices on it. `NoMemory` only where the count of what shares the line is at its end.
    pub fn notifier(&mut self) -> Result<Notifier, NoMemory>
        ensures same { self.new ≡ self.old }
        ensures fresh { IfOk result (λ n. n ≡ fresh_door self.old.line) }
    {
        let share = Arc::try_clone(&self.line)?;
        let door = self.line.split(&mut self.pass, true);
        Ok(Notifier::new(share, door))
    }

    /// What makes doors to it, each with a share of this mark. `NoMemory` only where the count of what shares the line
    /// is at its end.
    pub fn doors(&mut self, mark: EndMark) -> Result<Doors, NoMemory>
        ensures same { self.new ≡ self.old }
        ensures doors { IfOk result (λ doors. doors ≡ record { pass = fresh_door self.old.line; mark = mark }) }
    {
        let share = Arc::try_clone(&self.line)?;
        let pass = self.line.split(&mut self.pass, true);
        Ok(Doors::new(share, pass, mark))
    }

    /// What shows that the line was empty at a moment of this call, where it was seen so: no notice waited, and no late
    /// frame. A prompt never waits here, as for `next`.
    #[inline(always)]
    pub fn see_empty(&mut self) -> Option<LineEmpty<Parcel>>
        ensures same { self.new ≡ self.old }
        ensures found_empty { IfSome result (λ found. found ≡ self.old.line) }
    {
        self.line.see_empty(&mut self.pass)
    }

    /// Takes the parcel that waits longest. It is no prompt, since nobody has a pass that could push one. Where none
    /// waits, the error shows that the line was empty at a moment of this call.
    pub fn next<R: Wait>(&mut self, rt: &R) -> Result<Parcel, LineEmpty<Parcel>>
        ensures taken { MatchResult result
            (λ parcel. (self.new ≡ record self.old { hand = with_taken self.old.hand parcel })
            × (is_prompt parcel ≡ false))
            (λ _. self.new ≡ self.old) }
        ensures found_empty { IfErr result (λ found. found ≡ self.old.line) }
    {
        self.line.pop_or_empty(rt, &mut self.pass)
    }
}
