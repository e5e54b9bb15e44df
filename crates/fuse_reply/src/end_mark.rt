// The mark of a run's end.
ghost use Rattle.std.specs.Prelude.{◌≡◌, ◌-◌, ◌^◌, ◌⊎◌, Some, None, min, IfOk, IfSome, IfNone};
ghost use Rattle.fuse_reply.specs.EndMark.{end_mark};

use crate::sight::{FirstReader, SeatLoads, SeatStores, SetOnce, Shares, Sight};
use crate::{EndNote, Seal};
use atomic_table::{Seat, Table};
use fuse_wire::NoMemory;
use std::alloc::Global;
use std::marker::Model;
use std::sync::Arc;

/// The mark of a run's end, which threads share: it is set once, to the number of messages that the run took. Contracts
/// see its name, what this share has read, and what the Seal that this share keeps has set.
#[derive(Drop)]
pub struct EndMark {
    table: Arc<Table<(), Sight, (), SetOnce, Global>, Global>,
    seat: Seat<(), Sight>,
    // The Seal, once it has set the mark. Before, it is a seat that reads nothing: an `Option` would have bytes.
    kept: Seat<(), Sight>,
}

impl Model for EndMark {
    ghost use Rattle.std.specs.Prelude.{◌≡◌};
    ghost use Rattle.std.specs.Arc.{arc_value};
    ghost use Rattle.fuse_reply.specs.EndMark.{IsReader, EndMarkSeen, end_mark, set_by};
    ghost use Rattle.fuse_reply.specs.SetOnce.{known_of};

    ghost Value = { EndMarkSeen };

    ghost view = { λ m. end_mark m.seat.table_id (known_of m.seat.me.0) (set_by m.kept.me.0) };

    ghost invariant = { λ m. (m.seat.table_id.words ≡ 1) × IsReader (arc_value m.table).shared.table_id m.seat
        × (m.kept.table_id ≡ m.seat.table_id) };
}

impl EndMark {
    /// A mark that is not set, and its Seal. `NoMemory` where there is no memory for it.
    pub fn new(alloc: Global) -> Result<(EndMark, Seal), NoMemory>
        ensures { IfOk result (λ made. made.0 ≡ end_mark made.1 None None) }
    {
        let Ok((table, mut storing)) = Table::of_words(alloc, &[0], &()) else {
            return Err(NoMemory);
        };
        let seat = table.shared.split_seat::<FirstReader>(&mut storing);
        let kept = table.shared.split_seat::<FirstReader>(&mut storing);
        let Ok(table) = Arc::new(alloc, table) else {
            return Err(NoMemory);
        };
        Ok((EndMark { table, seat, kept }, Seal { seat: storing }))
    }

    /// Another share of the mark, which has read as much and keeps no Seal. It takes no memory: `NoMemory` comes only
    /// where the count of the shares is at its end.
    pub fn share(&mut self) -> Result<EndMark, NoMemory>
        ensures same { self.new ≡ self.old }
        ensures share { IfOk result (λ share. share ≡ end_mark self.old.name self.old.known None) }
    {
        let Ok(table) = Arc::try_clone(&self.table) else {
            return Err(NoMemory);
        };
        let seat = table.shared.split_seat::<Shares>(&mut self.seat);
        let kept = table.shared.split_seat::<Shares>(&mut self.seat);
        Ok(EndMark { table, seat, kept })
    }

    /// Sets the mark, to the number of messages that were taken, of which the last two values of a u64 count as one.
    /// The Seal is this mark's own, and this share keeps it.
    pub fn set(&mut self, seal: Seal, taken: u64)
        requires { seal ≡ self.old.name }
        ensures { self.new ≡ end_mark self.old.name self.old.known (Some (min taken (2 ^ 64 - 2))) }
    {
        let Seal { seat: mut storing } = seal;
        self.table
            .shared
            .store::<SeatStores>(&mut storing, 0, taken.min(u64::MAX - 1) + 1);
        self.kept = storing;
    }

    /// A note of the number, where the mark is found set.
    pub(crate) fn note(&mut self) -> Option<EndNote>
        ensures same { (self.new.name ≡ self.old.name) × (self.new.set ≡ self.old.set) }
        ensures set { IfSome result (λ note. (note.name ≡ self.old.name) × (self.new.known ≡ Some note.taken)) }
        ensures unset { IfNone result (self.new.known ≡ None) }
        ensures again { (self.old.known ≡ None) ⊎ (self.new.known ≡ self.old.known) }
    {
        let found = self.table.shared.load::<SeatLoads>(&mut self.seat, 0);
        if found == 0 {
            return None;
        }
        let seat = self.table.shared.split_seat::<Shares>(&mut self.seat);
        Some(EndNote {
            seat,
            taken: found - 1,
        })
    }
}
