//! Bytes written to memory.
ghost use Rattle.std.specs.Prelude.{◌≡◌, ◌≤◌, ◌<◌, [], length};
ghost use Rattle.fuse_wire.specs.ByteSink.{Writes};
ghost use Rattle.fuse_wire.specs.MemoryOut.{WritesMemory, bytes_held_told};

use crate::{ByteSink, ByteWrite};
use std::alloc::Global;

/// A stream of bytes in memory, which takes at most so many at a write, fails at some writes, and tells what it holds.
/// It counts the writes that failed so, and those that found no memory.
#[derive(Debug, Drop)]
pub struct MemoryOut {
    bytes: Vec<u8>,
    step: usize,
    calls: u64,
    faults: Vec<u64>,
    reached: u64,
    starved: u64,
}

impl std::marker::Model for MemoryOut {
    ghost use Rattle.std.specs.Prelude.{◌≤◌};
    ghost use Rattle.fuse_wire.specs.MemoryOut.{BytesHeld};

    ghost Value = { BytesHeld };

    ghost view = { λ s. record {
      bytes = s.bytes.items;
      step = s.step;
      calls = s.calls;
      listed = s.faults.items;
      reached = s.reached;
      starved = s.starved;
    } };

    ghost invariant = { λ s. 1 ≤ s.step };
}

impl MemoryOut {
    /// An empty stream that takes at most `step` bytes at a write. The writes whose numbers are in `faults` fail: they
    /// are numbered from 1, those that fail too, and each after the last number of a u64 has that one. A write that
    /// finds no memory fails too.
    pub fn new(alloc: Global, step: usize, faults: Vec<u64>) -> MemoryOut
        requires { 1 ≤ step }
        ensures { result ≡ record {
          bytes = [];
          step = step;
          calls = 0;
          listed = faults.items;
          reached = 0;
          starved = 0;
        } }
    {
        MemoryOut {
            bytes: Vec::new(alloc),
            step,
            calls: 0,
            faults,
            reached: 0,
            starved: 0,
        }
    }

    /// The bytes written so far.
    pub fn bytes(&self) -> &[u8]
        ensures { result.now ≡ self.now.bytes }
    {
        self.bytes.as_slice()
    }

    /// How many writes found no memory.
    pub fn starved(&self) -> u64
        ensures { result ≡ self.now.starved }
    {
        self.starved
    }
}

impl ByteSink for MemoryOut {
    ghost told = { bytes_held_told };

    /// Fails where this write is listed or finds no memory, and else takes as many bytes as the step allows.
    fn write(&mut self, piece: &[u8]) -> ByteWrite
        requires { 0 < length piece.now }
        ensures writes { Writes result piece.now (bytes_held_told self.old) (bytes_held_told self.new) }
        ensures exactly { WritesMemory result piece.now self.old self.new }
    {
        self.calls = self.calls.saturating_add(1);
        if self.faults.contains(&self.calls) {
            self.reached = self.reached.saturating_add(1);
            return ByteWrite::Failed;
        }
        let taken = piece.len().min(self.step);
        match self.bytes.extend_from_slice(&piece[..taken]) {
            Ok(()) => ByteWrite::Wrote(taken),
            Err(_) => {
                self.starved = self.starved.saturating_add(1);
                ByteWrite::Failed
            }
        }
    }
}
