//! A pass of a line.
use crate::Class;
use crate::hand::Hand;
use std::marker::Model;

/// What one thread knows of a line: which line it is, what it pushed and what it took. It has no bytes. A pass that is
/// dropped is lost: what it was used for is counted all the same, but the first pass never counts it back.
#[derive(Drop)]
pub struct Pass<T: Class> {
    pub(crate) seat: crossbeam_queue::Pass<T, Hand<T>>,
}

impl<T: Class> Model for Pass<T> {
    ghost use Rattle.std.specs.Prelude.{◌≡◌, []};
    ghost use Rattle.fuse_line.specs.Seen.{Seen};

    ghost Value = { Seen T };

    ghost view = { λ p. record { line = p.seat.table_id; hand = p.seat.me.0.client } };

    ghost invariant = { λ p. p.seat.me.1 ≡ [] };
}
