// The right to set an end mark.
use crate::sight::Sight;
use atomic_table::Seat;
use std::marker::Model;

/// The right to set an end mark, once. Contracts see it as the name of the mark.
#[derive(Drop)]
pub struct Seal {
    pub(crate) seat: Seat<(), Sight>,
}

impl Model for Seal {
    ghost use Rattle.std.specs.Prelude.{◌≡◌, [], None};
    ghost use Rattle.atomic_table.specs.Seated.{TableId};
    ghost use Rattle.fuse_reply.specs.declared.sight.Sight.TheVariants.{Storing};

    ghost Value = { TableId };

    ghost view = { λ s. s.seat.table_id };

    ghost invariant = { λ s. s.seat.me ≡ (Storing None, []) };
}
