// What tells that a run has ended.
ghost use Rattle.std.specs.Prelude.{◌≡◌};

use crate::sight::Sight;
use atomic_table::Seat;
use std::marker::Model;

/// That an end mark was found set. Contracts see it as the name of the mark, and the number that was read.
#[derive(Drop)]
pub struct EndNote {
    pub(crate) seat: Seat<(), Sight>,
    pub(crate) taken: u64,
}

impl Model for EndNote {
    ghost use Rattle.std.specs.Prelude.{◌≡◌, [], Some};
    ghost use Rattle.fuse_reply.specs.EndMark.{EndNoteSeen};
    ghost use Rattle.fuse_reply.specs.declared.sight.Sight.TheVariants.{Reading};

    ghost Value = { EndNoteSeen };

    ghost view = { λ n. record { name = n.seat.table_id; taken = n.taken } };

    ghost invariant = { λ n. n.seat.me ≡ (Reading (Some n.taken), []) };
}

impl EndNote {
    /// The number that the mark was found set to: how many messages the run took.
    pub fn taken(&self) -> u64
        ensures { result ≡ self.now.taken }
    {
        self.taken
    }
}
