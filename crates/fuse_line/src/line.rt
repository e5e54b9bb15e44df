//! A line.
ghost use Rattle.std.specs.Prelude.{◌≡◌, ◌<◌, List, [], ◌∷◌, false, true, IfErr, IfNone, IfOk, IfSome, MatchBool};
ghost use Rattle.std.specs.Prelude.{MatchOption, MatchResult};
ghost use Rattle.crossbeam_queue.specs.Fifo.{Held};
ghost use Rattle.fuse_line.specs.declared.hand.Kind.TheVariants.{First, Inner, Door};
ghost use Rattle.fuse_line.specs.Hand.{hand, joined, with_other, with_put, with_taken};
ghost use Rattle.fuse_line.specs.Permits.{MayJoin, MayPop, MayPush, MaySplit};
ghost use Rattle.fuse_line.specs.Tells.{IsSettled, Tells};

use crate::gate::{Gate, Waiting};
use crate::hand::Hand;
use crate::moves::{DoorSplit, InnerSplit, Joins, LineRule, PopStep, PushStep};
use crate::{Class, Pass};
use crossbeam_queue::RuledArrayQueue;
use fuse_wire::NoMemory;
use std::alloc::Global;
use std::marker::Model;
use std::sync::Wait;
use std::sync::atomic::{AtomicBool, Ordering};
use std::thread;

/// That a push found its line full. Only a push makes one, so whoever has one has made such a push.
#[derive(Debug, Drop, PartialEq, Eq)]
pub struct LineFull {
    seen: (),
}

/// The line was full, and this is the item that was to be pushed.
#[derive(Debug, Drop, PartialEq, Eq)]
pub struct Full<T> {
    /// That item.
    pub item: T,
    /// What the push has seen.
    pub line: LineFull,
}

/// That a pass found its line empty. Only a pop that took nothing makes one, or a look that saw nothing, so whoever has
/// one has made such a pop or look. A contract sees that line's name.
#[derive(Drop)]
pub struct LineEmpty<T: Class> {
    door: Pass<T>,
}

impl<T: Class> Model for LineEmpty<T> {
    ghost use Rattle.atomic_table.specs.Seated.{TableId};

    ghost Value = { TableId };

    ghost view = { λ e. e.door.line };
}

/// A line of items, oldest first, that threads share by reference. Contracts see it as its name, which knows how many
/// places it has.
#[derive(Drop)]
pub struct Line<T: Class> {
    queue: RuledArrayQueue<T, Hand<T>, LineRule>,
    pub(crate) items: Gate,
    pub(crate) places: Gate,
}

impl<T: Class> Model for Line<T> {
    ghost use Rattle.atomic_table.specs.Seated.{TableId};

    ghost Value = { TableId };

    ghost view = { λ l. l.queue.table.shared.table_id };
}

impl<T: Class> Line<T> {
    /// A line with so many places, and its first pass. `NoMemory` where there is no memory for it.
    pub fn new(alloc: Global, places: usize) -> Result<(Line<T>, Pass<T>), NoMemory>
        requires { 0 < places }
        ensures line { IfOk result (λ r. (r.1.line ≡ r.0) × (r.0.slots ≡ places)) }
        ensures hand { IfOk result (λ r. r.1.hand ≡ hand First 0 [] []) }
    {
        match RuledArrayQueue::ruled(alloc, places) {
            Ok((queue, seat)) => {
                let line = Line {
                    queue,
                    items: Gate::new(),
                    places: Gate::new(),
                };
                Ok((line, Pass { seat }))
            }
            Err(_) => Err(NoMemory),
        }
    }

    /// Another pass: a door, which comes off any pass, or an inner one, which comes off the first, and which that one
    /// counts until it is joined back.
    pub fn split(&self, pass: &mut Pass<T>, door: bool) -> Pass<T>
        requires line { pass.old.line ≡ self.now }
        requires kind { MaySplit pass.old.hand.kind door }
        ensures line { (pass.new.line ≡ self.now) × (result.line ≡ self.now) }
        ensures hands { MatchBool door
            ((pass.new.hand ≡ pass.old.hand) × (result.hand ≡ hand Door 0 [] []))
            ((pass.new.hand ≡ with_other pass.old.hand) × (result.hand ≡ hand Inner 0 [] [])) }
    {
        let seat = if door {
            self.queue.another::<DoorSplit>(&mut pass.seat)
        } else {
            self.queue.another::<InnerSplit>(&mut pass.seat)
        };
        Pass { seat }
    }

    /// Adds what another pass knows to this one, whose items come first. The other is spent.
    pub fn join(&self, pass: &mut Pass<T>, other: Pass<T>)
        requires line { (pass.old.line ≡ self.now) × (other.line ≡ self.now) }
        requires kinds { MayJoin pass.old.hand.kind other.hand.kind }
        ensures line { pass.new.line ≡ self.now }
        ensures hand { pass.new.hand ≡ joined pass.old.hand other.hand }
    {
        let Pass { seat } = other;
        self.queue.absorb::<Joins>(&mut pass.seat, seat);
    }

    /// Pushes the item at the back. Where the line was full at a moment of this call, the item comes back.
    pub fn push<R: Wait>(&self, rt: &R, pass: &mut Pass<T>, item: T) -> Result<(), Full<T>>
        requires line { pass.old.line ≡ self.now }
        requires kind { MayPush T.is_inner pass.old.hand.kind item }
        ensures line { pass.new.line ≡ self.now }
        ensures hand { MatchResult result
            (λ _. pass.new.hand ≡ with_put pass.old.hand item)
            (λ full. (full.item ≡ item) × (pass.new.hand ≡ pass.old.hand)) }
        ensures full { IfErr result (λ _. Held self.now.slots (Tells T.is_inner pass.old.hand)) }
    {
        if let Err(item) = self.queue.push_as::<PushStep, R>(rt, &mut pass.seat, item) {
            let line = LineFull { seen: () };
            return Err(Full { item, line });
        }
        self.items.wake_one();
        Ok(())
    }

    /// Takes the item at the front, or nothing where the line was empty at a moment of this call.
    pub fn pop<R: Wait>(&self, rt: &R, pass: &mut Pass<T>) -> Option<T>
        requires line { pass.old.line ≡ self.now }
        requires kind { MayPop pass.old.hand.kind }
        ensures line { pass.new.line ≡ self.now }
        ensures hand { MatchOption result
            (pass.new.hand ≡ pass.old.hand)
            (λ item. pass.new.hand ≡ with_taken pass.old.hand item) }
        ensures front { IfSome result (λ item. (rest : List T) × Tells T.is_inner pass.old.hand (item ∷ rest)) }
        ensures empty { IfNone result (Held 0 (Tells T.is_inner pass.old.hand)) }
        ensures settled { IfNone result (IsSettled T.is_inner pass.new.hand) }
    {
        let popped = self.queue.pop_as::<PopStep, R>(rt, &mut pass.seat);
        if popped.is_some() {
            self.places.wake_one();
        }
        popped
    }

    /// Takes the item at the front, or gives what shows that the line was empty at a moment of this call.
    pub fn pop_or_empty<R: Wait>(&self, rt: &R, pass: &mut Pass<T>) -> Result<T, LineEmpty<T>>
        requires line { pass.old.line ≡ self.now }
        requires kind { MayPop pass.old.hand.kind }
        ensures line { pass.new.line ≡ self.now }
        ensures hand { MatchResult result
            (λ item. pass.new.hand ≡ with_taken pass.old.hand item)
            (λ _. pass.new.hand ≡ pass.old.hand) }
        ensures front { IfOk result (λ item. (rest : List T) × Tells T.is_inner pass.old.hand (item ∷ rest)) }
        ensures found_empty { IfErr result (λ found. (found ≡ self.now) × Held 0 (Tells T.is_inner pass.old.hand)) }
        ensures settled { IfErr result (λ _. IsSettled T.is_inner pass.new.hand) }
    {
        match self.pop(rt, pass) {
            Some(item) => Ok(item),
            None => Err(LineEmpty {
                door: self.split(pass, true),
            }),
        }
    }

    /// What shows that the line was empty at a moment of this call, where it was seen so. It costs less than a pop that
    /// takes nothing.
    #[inline(always)]
    pub fn see_empty(&self, pass: &mut Pass<T>) -> Option<LineEmpty<T>>
        requires { pass.old.line ≡ self.now }
        ensures same { pass.new ≡ pass.old }
        ensures found_empty { IfSome result (λ found. (found ≡ self.now) × Held 0 (Tells T.is_inner pass.old.hand)) }
    {
        if self.queue.is_empty_as::<PopStep>(&mut pass.seat) {
            Some(LineEmpty {
                door: self.split(pass, true),
            })
        } else {
            None
        }
    }

    /// Pushes the item at the back, and waits for a place while the line is full.
    pub fn push_waiting<R: Wait>(&self, rt: &R, pass: &mut Pass<T>, item: T)
        requires line { pass.old.line ≡ self.now }
        requires kind { MayPush T.is_inner pass.old.hand.kind item }
        ensures line { pass.new.line ≡ self.now }
        ensures hand { pass.new.hand ≡ with_put pass.old.hand item }
    {
        if let Err(full) = self.push(rt, pass, item) {
            self.push_when_free(rt, pass, full.item);
        }
    }

    // The same for an item that has found the line full: it is copied once more for each try. Before each it yields, since
    // a place comes only where another thread runs.
    fn push_when_free<R: Wait>(&self, rt: &R, pass: &mut Pass<T>, item: T)
        requires line { pass.old.line ≡ self.now }
        requires kind { MayPush T.is_inner pass.old.hand.kind item }
        ensures line { pass.new.line ≡ self.now }
        ensures hand { pass.new.hand ≡ with_put pass.old.hand item }
    {
        let mut left = item;
        let mut waiting = self.wait_for_place();
        for _ in rt.forever() {
            thread::yield_now();
            waiting.rest(rt);
            match self.push(rt, pass, left) {
                Ok(()) => return,
                Err(full) => left = full.item,
            }
        }
        unreachable!()
    }

    /// Takes the item at the front, and waits for one while the line is empty and the flag is down. Nothing comes where
    /// the flag was up, and after that the line was empty.
    pub fn pop_waiting<R: Wait>(&self, rt: &R, pass: &mut Pass<T>, stop: &AtomicBool) -> Option<T>
        requires line { pass.old.line ≡ self.now }
        requires kind { MayPop pass.old.hand.kind }
        ensures line { pass.new.line ≡ self.now }
        ensures hand { MatchOption result
            (pass.new.hand ≡ pass.old.hand)
            (λ item. pass.new.hand ≡ with_taken pass.old.hand item) }
        ensures front { IfSome result (λ item. (rest : List T) × Tells T.is_inner pass.old.hand (item ∷ rest)) }
        ensures empty { IfNone result (Held 0 (Tells T.is_inner pass.old.hand)) }
        ensures settled { IfNone result (IsSettled T.is_inner pass.new.hand) }
    {
        let mut waiting = self.wait_for_item();
        for _ in rt.forever() {
            let stopped = stop.load(Ordering::SeqCst);
            match self.pop_or_end(rt, pass, stopped) {
                Some(popped) => return popped,
                None => waiting.rest(rt),
            }
        }
        unreachable!()
    }

    // Takes the item at the front. `Some(None)` is that the line was empty after the flag had been seen up. The flag comes
    // as a value: a look at it after the pop would miss what was pushed in between.
    fn pop_or_end<R: Wait>(&self, rt: &R, pass: &mut Pass<T>, stopped: bool) -> Option<Option<T>>
        requires line { pass.old.line ≡ self.now }
        requires kind { MayPop pass.old.hand.kind }
        ensures line { pass.new.line ≡ self.now }
        ensures hand { MatchOption result
            ((pass.new.hand ≡ pass.old.hand) × (stopped ≡ false))
            (λ popped. MatchOption popped
            ((pass.new.hand ≡ pass.old.hand) × (stopped ≡ true))
            (λ item. pass.new.hand ≡ with_taken pass.old.hand item)) }
        ensures front { IfSome result (λ popped.
            IfSome popped (λ item. (rest : List T) × Tells T.is_inner pass.old.hand (item ∷ rest))) }
        ensures empty { IfSome result (λ popped. IfNone popped (Held 0 (Tells T.is_inner pass.old.hand))) }
        ensures settled { IfSome result (λ popped. IfNone popped (IsSettled T.is_inner pass.new.hand)) }
    {
        match self.pop(rt, pass) {
            None if !stopped => None,
            popped => Some(popped),
        }
    }

    /// A wait for an item, for a pop in the same loop.
    pub(crate) fn wait_for_item(&self) -> Waiting<'_> {
        self.items.wait()
    }

    /// A wait for a place, for a push in the same loop.
    pub(crate) fn wait_for_place(&self) -> Waiting<'_> {
        self.places.wait()
    }

    /// Wakes all that wait for this line. Whoever raises a flag that they look at stores it first, and then calls this.
    pub fn wake(&self) {
        self.items.wake_all();
        self.places.wake_all();
    }
}
