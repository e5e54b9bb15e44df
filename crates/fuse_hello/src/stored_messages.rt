// Generated messages, kept in memory and given one after the other.
ghost use Rattle.std.specs.Prelude.{◌≡◌, IfOk, length};
ghost use Rattle.fuse_wire.specs.Source.{Receives};
ghost use Rattle.fuse_hello.specs.Generated.{stream};
ghost use Rattle.fuse_hello.specs.Store.{GivesFirst, messages_told};

use crate::generator::{Message, stored_stream};
use fuse_wire::consts::BUFFER_SIZE;
use fuse_wire::{NoMemory, Received, Source};
use std::alloc::Global;
use std::marker::Model;

/// A source of generated messages, which never fails.
#[derive(Drop)]
pub struct StoredMessages {
    messages: Vec<Message>,
    next: usize,
}

impl Model for StoredMessages {
    ghost use Rattle.std.specs.Prelude.{◌≤◌, ℕ, List, drop, length};

    ghost Value = { List (List ℕ) };

    ghost view = { λ s. drop s.next s.messages.items };

    ghost invariant = { λ s. s.next ≤ length s.messages.items };
}

impl StoredMessages {
    /// The messages that the seed gives, all of them in one piece of memory. The error comes where there is none for it.
    pub fn generated(alloc: Global, seed: u32, count: u32) -> Result<StoredMessages, NoMemory>
        ensures { IfOk result (λ messages. messages ≡ stream seed count) }
    {
        Ok(StoredMessages {
            messages: stored_stream(alloc, seed, count)?,
            next: 0,
        })
    }
}

impl Source for StoredMessages {
    ghost told = { messages_told };

    /// Copies the next message to the front of the buffer.
    fn receive(&mut self, buffer: &mut [u8]) -> Received
        requires { length buffer.old ≡ BUFFER_SIZE }
        ensures received { Receives result (messages_told self.old) (messages_told self.new) buffer.new }
        ensures first { GivesFirst result self.old self.new }
    {
        let Some(message) = self.messages.get(self.next) else {
            return Received::Gone;
        };
        self.next += 1;
        Received::Message(message.put(buffer))
    }
}
