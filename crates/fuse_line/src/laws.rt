//! Laws of the rule. Each function here does nothing: its contract is the law.
ghost use Rattle.fuse_line.specs.Laws.{EachTakenWasPushed, OthersAreIdle, TookAsOftenAsPushed};

use crate::Class;

/// While the first pass counts no other, nobody else has pushed an inner item or taken anything.
pub fn others_are_idle_while_none_is_counted<T: Class>()
    ensures { OthersAreIdle T.is_inner }
{}

/// A first pass that is settled took each inner item as often as it pushed it.
pub fn settled_took_as_often_as_it_pushed<T: Class>()
    ensures { TookAsOftenAsPushed T.is_inner }
{}

/// At any moment each item that some pass took was pushed by some pass.
pub fn what_was_taken_was_pushed<T: Class>()
    ensures { EachTakenWasPushed T.is_inner }
{}
