//! A stream of bytes to read.
ghost use Rattle.std.specs.Prelude.{◌<◌, length};
ghost use Rattle.fuse_wire.specs.ByteSource.{ByteSourceState, Reads};

/// What one read gave.
#[derive(Clone, Copy, Debug, PartialEq, Eq)]
pub enum ByteRead {
    /// The next bytes, as many as this, which stand at the front of the piece.
    Got(usize),
    /// No byte is left.
    End,
    /// The device failed, and counted it.
    Failed,
}

/// A stream of bytes to read.
pub trait ByteSource {
    /// The bytes left, where the device tells them, and how often it has failed.
    ghost told: { Self → ByteSourceState };

    /// Reads the next bytes into the front of the piece, at least one of them where any is left.
    fn read(&mut self, piece: &mut [u8]) -> ByteRead
        requires { 0 < length piece.old }
        ensures { Reads result (told self.old) (told self.new) piece.new };
}
