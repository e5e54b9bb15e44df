//! Messages from memory.
ghost use Rattle.std.specs.Prelude.{◌≡◌, length};
ghost use Rattle.fuse_wire.specs.Source.{Receives};
ghost use Rattle.fuse_wire.specs.Turns.{TakesTurn, turns_told};

use crate::consts::BUFFER_SIZE;
use crate::pieces::put_front;
use crate::{Items, Received, Source};

/// What a source in memory gives at one turn.
#[derive(Debug, Drop)]
pub enum Turn {
    /// A message.
    Message(Items<u8>),
    /// Nothing: `Received::Retry`. No message is taken.
    Retry,
    /// A fault: `Received::Failed`. No message is taken.
    Fail,
}

/// A source that gives the turns of a list, in order, and tells them. It counts its Fail turns.
#[derive(Debug, Drop)]
pub struct MemorySource {
    turns: Vec<Turn>,
    next: usize,
    failed: u64,
}

impl std::marker::Model for MemorySource {
    ghost use Rattle.std.specs.Prelude.{◌≤◌, drop, length};
    ghost use Rattle.fuse_wire.specs.Turns.{TurnsLeft};

    ghost Value = { TurnsLeft };

    ghost view = { λ s. record { left = drop s.next s.turns.items; failed = s.failed } };

    ghost invariant = { λ s. s.next ≤ length s.turns.items };
}

impl MemorySource {
    /// A source of these turns.
    pub fn new(turns: Vec<Turn>) -> MemorySource
        ensures { result ≡ record { left = turns.items; failed = 0 } }
    {
        MemorySource {
            turns,
            next: 0,
            failed: 0,
        }
    }
}

impl Source for MemorySource {
    ghost told = { turns_told };

    /// Answers as the next turn says, and goes to the one after it.
    fn receive(&mut self, buffer: &mut [u8]) -> Received
        requires { length buffer.old ≡ BUFFER_SIZE }
        ensures received { Receives result (turns_told self.old) (turns_told self.new) buffer.new }
        ensures turn { TakesTurn self.old.left self.old.failed result self.new }
    {
        let Some(turn) = self.turns.get(self.next) else {
            return Received::Gone;
        };
        self.next += 1;
        match turn {
            Turn::Message(message) => Received::Message(put_front(message.as_slice(), buffer)),
            Turn::Retry => Received::Retry,
            Turn::Fail => {
                self.failed = self.failed.saturating_add(1);
                Received::Failed
            }
        }
    }
}
