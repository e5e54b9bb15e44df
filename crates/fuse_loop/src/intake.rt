// The end that messages come in by.
ghost use Rattle.std.specs.Prelude.{◌≡◌, ◌≤◌, take};
ghost use Rattle.fuse_loop.specs.Progress.{TakesIn};

use crate::Taken;
use fuse_wire::consts::BUFFER_SIZE;
use fuse_wire::{Received, Source};
use std::marker::Model;
use std::sync::Wait;

/// The source of a session with the receive buffer, and the messages counted. A contract sees what the source tells.
#[derive(Drop)]
pub struct Intake<S: Source> {
    /// Where messages come from.
    pub source: S,
    /// Where each is received, `BUFFER_SIZE` bytes long.
    pub buffer: Vec<u8>,
    /// How many were taken, up to `u64::MAX`.
    pub received: u64,
}

impl<S: Source> Model for Intake<S> {
    ghost use Rattle.std.specs.Prelude.{◌≡◌, length};
    ghost use Rattle.fuse_wire.specs.declared.consts.TheConstants.{BUFFER_SIZE};
    ghost use Rattle.fuse_loop.specs.Progress.{IntakeState};

    ghost Value = { IntakeState };

    ghost view = { λ i. record { source = S.told i.source; buffer = i.buffer.items; received = i.received } };

    ghost invariant = { λ i. length i.buffer.items ≡ BUFFER_SIZE };
}

impl<S: Source> Intake<S> {
    /// The message of so many bytes that was taken last.
    #[inline(always)]
    pub fn message(&self, count: usize) -> &[u8]
        requires { count ≤ BUFFER_SIZE }
        ensures { result.now ≡ take count self.now.buffer }
    {
        &self.buffer[..count]
    }

    /// Takes the next message, trying again where nothing came.
    #[inline(always)]
    pub fn take_message<R: Wait>(&mut self, rt: &R) -> Taken
        ensures { TakesIn result self.old self.new }
    {
        for _ in rt.forever() {
            match self.source.receive(&mut self.buffer) {
                Received::Retry => {}
                Received::Gone => return Taken::Gone,
                Received::Failed => return Taken::Failed,
                Received::Message(count) => {
                    self.received = self.received.saturating_add(1);
                    return Taken::Message(count);
                }
            }
        }
        unreachable!()
    }
}
