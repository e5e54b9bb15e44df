// What lets a run start its threads.
ghost use Rattle.std.specs.Prelude.{◌≡◌, ◌≤◌, ◌+◌};
ghost use Rattle.fuse_workers.specs.Starting.{starts};

use crate::threads::MOST_WORKERS;
use std::marker::Model;

/// What a run asks before it starts a thread, and tells where the thread could not be started. So whoever runs knows how
/// many threads were asked for, and tests refuse some.
pub trait Starter: Drop {
    ghost use Rattle.fuse_workers.specs.Starting.{Starts};

    /// How many starts were asked for, and how many of these were not made.
    ghost told: { Self → Starts };

    /// Asks for a start, and says whether the thread may be started. Once one was not, no more are asked for; nor are
    /// more than a sender and all workers that there may be.
    fn ask(&mut self) -> bool
        requires all_made { (told self.old).refused ≡ 0 }
        requires few { (told self.old).asked ≤ MOST_WORKERS }
        ensures { told self.new ≡ starts ((told self.old).asked + 1) (told self.old).refused };

    /// The start that was asked for last was not made: it was refused, here or by the system, or there was no memory for
    /// what the thread needs.
    fn refuse(&mut self)
        requires all_made { (told self.old).refused ≡ 0 }
        ensures { told self.new ≡ starts (told self.old).asked ((told self.old).refused + 1) };
}

/// Refuses no start: the system alone does. It serves one run.
#[derive(Drop)]
pub struct SystemStarter {
    asked: u64,
    refused: u64,
}

impl Model for SystemStarter {
    ghost use Rattle.fuse_workers.specs.Starting.{Starts, starts};

    ghost Value = { Starts };

    ghost view = { λ s. starts s.asked s.refused };
}

impl SystemStarter {
    /// No start was asked for yet.
    pub fn new() -> SystemStarter
        ensures { result ≡ starts 0 0 }
    {
        SystemStarter {
            asked: 0,
            refused: 0,
        }
    }
}

impl Starter for SystemStarter {
    ghost told = { λ s. s };

    fn ask(&mut self) -> bool {
        self.asked += 1;
        true
    }

    fn refuse(&mut self) {
        self.refused += 1;
    }
}
