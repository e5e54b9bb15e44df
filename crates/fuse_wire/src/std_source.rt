//! Bytes from a reader of std.
ghost use Rattle.std.specs.Prelude.{◌≡◌, ◌<◌, length};
ghost use Rattle.fuse_wire.specs.ByteSource.{Reads};
ghost use Rattle.fuse_wire.specs.StdDevices.{CountsRead, ReadsBelow, failed_reads, reader_below, reader_told};

use crate::{ByteRead, ByteSource};
use std::io::Read;

/// The bytes of a reader. It tells none of them, and counts its errors, of which each is a fault: none is tried again.
#[derive(Debug, Drop)]
pub struct StdSource<R> {
    reader: R,
    faults: u64,
}

impl<R: Read> StdSource<R> {
    /// The bytes that this reader gives.
    pub fn new(reader: R) -> StdSource<R>
        ensures held { reader_below result ≡ reader }
        ensures fresh { failed_reads result ≡ 0 }
    {
        StdSource { reader, faults: 0 }
    }
}

impl<R: Read> ByteSource for StdSource<R> {
    ghost told = { reader_told };

    /// Reads once. A failure passes over no byte that the reader knows of.
    fn read(&mut self, piece: &mut [u8]) -> ByteRead
        requires { 0 < length piece.old }
        ensures reads { Reads result (reader_told self.old) (reader_told self.new) piece.new }
        ensures below { ReadsBelow result piece.new
            (R.remaining (reader_below self.old)) (R.remaining (reader_below self.new)) }
        ensures counts { CountsRead result (failed_reads self.old) (failed_reads self.new) }
    {
        match self.reader.read(piece) {
            Ok(0) => ByteRead::End,
            Ok(count) => ByteRead::Got(count),
            Err(_) => {
                self.faults = self.faults.saturating_add(1);
                ByteRead::Failed
            }
        }
    }
}
