//! Where messages come from.
ghost use Rattle.std.specs.Prelude.{◌≡◌, length};
ghost use Rattle.fuse_wire.specs.Source.{SourceState, Receives};

use crate::consts::BUFFER_SIZE;

/// What one receive gave.
#[derive(Clone, Copy, Debug, PartialEq, Eq)]
pub enum Received {
    /// The next message, of so many bytes, which stand at the front of the buffer. What does not fit is cut off.
    Message(usize),
    /// No message is left.
    Gone,
    /// Nothing came, no message was taken, and the next call may give one.
    Retry,
    /// The device failed, and counted it. Whether a message was taken is not said.
    Failed,
}

/// Where messages come from: what /dev/fuse is to a read.
pub trait Source {
    /// The messages still to come, where the source tells them, and how often it has failed.
    ghost told: { Self → SourceState };

    /// Takes the next message into the front of the buffer, which is `BUFFER_SIZE` bytes long.
    fn receive(&mut self, buffer: &mut [u8]) -> Received
        requires { length buffer.old ≡ BUFFER_SIZE }
        ensures { Receives result (told self.old) (told self.new) buffer.new };
}
