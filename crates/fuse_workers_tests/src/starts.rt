// What lets the threads of a run be started, but for one.
ghost use Rattle.std.specs.Prelude.{◌≡◌};

use fuse_workers::Starter;

/// Refuses the start of one number, counted from 1. The sender's is the first.
#[derive(Drop)]
pub(crate) struct Refusing {
    number: u64,
    asked: u64,
    refused: u64,
}

impl Refusing {
    /// The start of this number is refused: none where it is 0.
    pub(crate) fn new(number: u64) -> Refusing
        ensures { (result.asked ≡ 0) × (result.refused ≡ 0) }
    {
        Refusing {
            number,
            asked: 0,
            refused: 0,
        }
    }

    /// How many starts were asked for, and how many of these were not made.
    pub(crate) fn counts(&self) -> (u64, u64) {
        (self.asked, self.refused)
    }
}

impl Starter for Refusing {
    ghost use Rattle.fuse_workers.specs.Starting.{starts};

    ghost told = { λ s. starts s.asked s.refused };

    fn ask(&mut self) -> bool {
        self.asked += 1;
        self.asked != self.number
    }

    fn refuse(&mut self) {
        self.refused += 1;
    }
}
