//! The rule of a line, and what each step of a pass does to what it knows.
ghost use Rattle.std.specs.Prelude.{◌≡◌, [], ◌∷◌, List};
ghost use Rattle.fuse_line.specs.declared.hand.Kind.TheVariants.{First, Inner, Door, Spent};
ghost use Rattle.fuse_line.specs.Hand.{hand, joined, with_other, with_put, with_taken};
ghost use Rattle.fuse_line.specs.LineRule.{LineRule};
ghost use Rattle.fuse_line.specs.Tells.{Tells};

use crate::Class;
use crate::hand::Hand;
use crossbeam_queue::protocol::{Join, Lesson, Outcome, Protocol, Split};

/// The rule of a line.
pub struct LineRule;

impl<T: Class> Protocol<T, Hand<T>> for LineRule {
    ghost holds = { LineRule T.is_inner };

    ghost first = { hand First 0 [] [] };
}

/// An inner pass comes off the first, which counts it.
pub struct InnerSplit;

impl<T> Split<Hand<T>> for InnerSplit {
    ghost left = { λ v. with_other v };

    ghost right = { λ v. hand Inner 0 [] [] };
}

/// A door comes off any pass.
pub struct DoorSplit;

impl<T> Split<Hand<T>> for DoorSplit {
    ghost left = { λ v. v };

    ghost right = { λ v. hand Door 0 [] [] };
}

/// One pass takes in what another knows.
pub struct Joins;

impl<T> Join<Hand<T>> for Joins {
    ghost both = { λ v w. joined v w };

    ghost spent = { hand Spent 0 [] [] };
}

/// An item joins the line at its back.
pub struct PushStep;

impl<T> Outcome<T, Hand<T>> for PushStep {
    ghost then = { λ v x w. w ≡ with_put v x };
}

impl<T: Class> Lesson<T, Hand<T>> for PushStep {
    ghost fact = { λ v items. Tells T.is_inner v items };
}

/// The item at the front of the line leaves it.
pub struct PopStep;

impl<T: Class> Outcome<T, Hand<T>> for PopStep {
    ghost then = { λ v x w. (w ≡ with_taken v x) × ((rest : List T) × Tells T.is_inner v (x ∷ rest)) };
}

impl<T: Class> Lesson<T, Hand<T>> for PopStep {
    ghost fact = { λ v rest. Tells T.is_inner v rest };
}
