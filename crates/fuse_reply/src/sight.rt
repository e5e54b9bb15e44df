// What is known of the word that an end mark is, its rule, and what each step does to what is known.
use atomic_table::{Play, Split, TableRule};

/// What a seat knows of the word: the number that the mark is set to, if it is known. No value of it is made.
pub enum Sight {
    /// The one seat that may store: what it has set.
    Storing(Option<u64>),
    /// A seat that may read: what it has read.
    Reading(Option<u64>),
}

/// The rule of the word.
pub struct SetOnce;

impl TableRule<(), Sight, ()> for SetOnce {
    ghost use Rattle.std.specs.Prelude.{None};
    ghost use Rattle.fuse_reply.specs.SetOnce.{IsSetOnce};
    ghost use Rattle.fuse_reply.specs.declared.sight.Sight.TheVariants.{Storing};

    ghost holds = { λ _ state. IsSetOnce state };

    ghost first = { λ _. Storing None };
}

/// The Seal stores, once.
pub struct SeatStores;

impl Play<(), Sight> for SeatStores {
    ghost use Rattle.std.specs.Prelude.{◌≡◌, []};
    ghost use Rattle.fuse_reply.specs.SetOnce.{told};
    ghost use Rattle.fuse_reply.specs.declared.sight.Sight.TheVariants.{Storing};

    ghost then = { λ _ _ word after. after ≡ (Storing (told word), []) };
}

/// A reading seat loads.
pub struct SeatLoads;

impl Play<(), Sight> for SeatLoads {
    ghost use Rattle.fuse_reply.specs.SetOnce.{HasRead};

    ghost then = { λ _ before word after. HasRead before word after };
}

/// The Seal's seat splits off the first reading one.
pub struct FirstReader;

impl Split<Sight> for FirstReader {
    ghost use Rattle.std.specs.Prelude.{None};
    ghost use Rattle.fuse_reply.specs.declared.sight.Sight.TheVariants.{Reading};

    ghost left = { λ sight. sight };

    ghost right = { λ _. Reading None };
}

/// A reading seat splits off another, which knows as much.
pub struct Shares;

impl Split<Sight> for Shares {
    ghost left = { λ sight. sight };

    ghost right = { λ sight. sight };
}
