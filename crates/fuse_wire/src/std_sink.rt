//! Bytes to a writer of std.
ghost use Rattle.std.specs.Prelude.{◌≡◌, ◌<◌, length};
ghost use Rattle.fuse_wire.specs.ByteSink.{Writes};
ghost use Rattle.fuse_wire.specs.StdDevices.{CountsWrite, WritesBelow, failed_writes, writer_below, writer_told};

use crate::{ByteSink, ByteWrite};
use std::io::Write;

/// The bytes of a writer, which is flushed after each write. It tells none of them, and counts its errors: a write that
/// takes no byte is one too. Where the flush after a write fails, the writer may still have taken the bytes.
#[derive(Debug, Drop)]
pub struct StdSink<W> {
    writer: W,
    faults: u64,
}

impl<W: Write> StdSink<W> {
    /// Writes to this writer.
    pub fn new(writer: W) -> StdSink<W>
        ensures held { writer_below result ≡ writer }
        ensures fresh { failed_writes result ≡ 0 }
    {
        StdSink { writer, faults: 0 }
    }
}

impl<W: Write> ByteSink for StdSink<W> {
    ghost told = { writer_told };

    /// Writes once, and flushes. Where a flush fails, some of the piece may stand in the writer although the write
    /// failed.
    fn write(&mut self, piece: &[u8]) -> ByteWrite
        requires { 0 < length piece.now }
        ensures writes { Writes result piece.now (writer_told self.old) (writer_told self.new) }
        ensures below { WritesBelow result piece.now
            (W.contents (writer_below self.old)) (W.contents (writer_below self.new)) }
        ensures counts { CountsWrite result (failed_writes self.old) (failed_writes self.new) }
    {
        if let Ok(count) = self.writer.write(piece) {
            if count > 0 && self.writer.flush().is_ok() {
                return ByteWrite::Wrote(count);
            }
        }
        self.faults = self.faults.saturating_add(1);
        ByteWrite::Failed
    }
}
