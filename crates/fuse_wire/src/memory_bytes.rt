//! Bytes from memory.
ghost use Rattle.std.specs.Prelude.{◌≡◌, ◌≤◌, ◌<◌, length};
ghost use Rattle.fuse_wire.specs.ByteSource.{Reads};
ghost use Rattle.fuse_wire.specs.MemoryBytes.{ReadsMemory, bytes_left_told};

use crate::pieces::put_front;
use crate::{ByteRead, ByteSource};

/// A stream of bytes in memory, which gives at most so many at a read, fails at some reads, and tells what is left. It
/// counts the reads that failed.
#[derive(Debug, Drop)]
pub struct MemoryBytes {
    bytes: Vec<u8>,
    next: usize,
    step: usize,
    calls: u64,
    faults: Vec<u64>,
    reached: u64,
}

impl std::marker::Model for MemoryBytes {
    ghost use Rattle.std.specs.Prelude.{◌≤◌, drop, length};
    ghost use Rattle.fuse_wire.specs.MemoryBytes.{BytesLeft};

    ghost Value = { BytesLeft };

    ghost view = { λ s. record {
      left = drop s.next s.bytes.items;
      step = s.step;
      calls = s.calls;
      listed = s.faults.items;
      reached = s.reached;
    } };

    ghost invariant = { λ s. (s.next ≤ length s.bytes.items) × (1 ≤ s.step) };
}

impl MemoryBytes {
    /// A stream of these bytes, at most `step` at a read. The reads whose numbers are in `faults` fail: they are
    /// numbered from 1, those that fail too, and each after the last number of a u64 has that one.
    pub fn new(bytes: Vec<u8>, step: usize, faults: Vec<u64>) -> MemoryBytes
        requires { 1 ≤ step }
        ensures { result ≡ record { left = bytes.items; step = step; calls = 0; listed = faults.items; reached = 0 } }
    {
        MemoryBytes {
            bytes,
            next: 0,
            step,
            calls: 0,
            faults,
            reached: 0,
        }
    }
}

impl ByteSource for MemoryBytes {
    ghost told = { bytes_left_told };

    /// Fails where this read is listed, and else gives as many bytes as the step and the piece allow.
    fn read(&mut self, piece: &mut [u8]) -> ByteRead
        requires { 0 < length piece.old }
        ensures reads { Reads result (bytes_left_told self.old) (bytes_left_told self.new) piece.new }
        ensures exactly { ReadsMemory result (length piece.old) self.old self.new }
    {
        self.calls = self.calls.saturating_add(1);
        if self.faults.contains(&self.calls) {
            self.reached = self.reached.saturating_add(1);
            return ByteRead::Failed;
        }
        let rest = &self.bytes[self.next..];
        let most = rest.len().min(self.step);
        let taken = put_front(&rest[..most], piece);
        if taken == 0 {
            return ByteRead::End;
        }
        self.next += taken;
        ByteRead::Got(taken)
    }
}
