//! A stream of bytes to write.
ghost use Rattle.std.specs.Prelude.{◌<◌, length};
ghost use Rattle.fuse_wire.specs.ByteSink.{ByteSinkState, Writes};
ghost use Rattle.fuse_wire.specs.StreamSink.{WritesAll};

/// What one write did.
#[derive(Clone, Copy, Debug, PartialEq, Eq)]
pub enum ByteWrite {
    /// So many bytes of the front of the piece were written, at least one.
    Wrote(usize),
    /// The device failed, and counted it. Nothing was written.
    Failed,
}

/// A stream of bytes to write.
pub trait ByteSink {
    /// The bytes written, where the device tells them, and how often it has failed.
    ghost told: { Self → ByteSinkState };

    /// Writes at least one byte of the front of the piece.
    fn write(&mut self, piece: &[u8]) -> ByteWrite
        requires { 0 < length piece.now }
        ensures { Writes result piece.now (told self.old) (told self.new) };
}

/// Writes the whole piece. False says that a write failed: then a front of it may have been written.
pub fn write_all<O: ByteSink>(output: &mut O, piece: &[u8]) -> bool
    ensures { WritesAll result piece.now (O.told output.old) (O.told output.new) }
{
    let mut count = 0;
    while count < piece.len() {
        match output.write(&piece[count..]) {
            ByteWrite::Wrote(more) => count += more,
            ByteWrite::Failed => return false,
        }
    }
    true
}
