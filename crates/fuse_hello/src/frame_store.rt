// Frames and notes kept in memory, and counted.
ghost use Rattle.std.specs.Prelude.{◌≡◌, ◌+◌, ◌++◌, ◌&&◌, ◌^◌, [], length, nat_lt, OnOk, OnErr};
ghost use Rattle.fuse_wire.specs.Numbers.{number};
ghost use Rattle.fuse_wire.specs.Sink.{Notes, Sends};
ghost use Rattle.fuse_loop.specs.Progress.{replies};
ghost use Rattle.fuse_hello.specs.Store.{NotesStored, SendsStored, stored_told, summary_of};

use crate::summary::Summary;
use fuse_wire::{Noting, RequestId, Sending, Sink, u32_at};
use std::alloc::{AllocError, Global};

/// A sink that keeps its frames in one growing piece of memory, one after the other, as the length field of each splits
/// them again, and its notes beside them. It counts the frames and notes that find no memory, and fails with them alone.
#[derive(Drop)]
pub struct FrameStore {
    bytes: Vec<u8>,
    notes: Vec<(RequestId, u64)>,
    replies: usize,
    errors: usize,
    reply_bytes: usize,
    starved: u64,
}

impl std::marker::Model for FrameStore {
    ghost use Rattle.fuse_wire.specs.Frames.{frames};
    ghost use Rattle.fuse_wire.specs.MemorySink.{notes_of};
    ghost use Rattle.fuse_hello.specs.Store.{IsStored, Stored};

    ghost Value = { Stored };

    ghost view = { λ s. record {
      frames = frames s.bytes.items;
      notes = notes_of s.notes.items;
      starved = s.starved;
    } };

    ghost invariant = { λ s. IsStored s.bytes.items s.replies s.errors s.reply_bytes };
}

/// An empty vector, with so much room where there is memory for it.
fn vector_with_room(alloc: Global, room: usize) -> Vec<u8>
    ensures { result.items ≡ [] }
{
    match Vec::with_capacity(alloc, room) {
        Ok(bytes) => bytes,
        Err(_) => Vec::new(alloc),
    }
}

impl FrameStore {
    /// An empty store, with room for so many bytes where there is memory for them. Else it grows from nothing.
    pub fn with_room(alloc: Global, room: usize) -> FrameStore
        ensures { result ≡ record { frames = []; notes = []; starved = 0 } }
    {
        FrameStore {
            bytes: vector_with_room(alloc, room),
            notes: Vec::new(alloc),
            replies: 0,
            errors: 0,
            reply_bytes: 0,
            starved: 0,
        }
    }

    /// How many frames and notes found no memory.
    pub fn starved(&self) -> u64
        ensures { result ≡ self.now.starved }
    {
        self.starved
    }

    /// What so many messages and the replies and notes that are held come to.
    pub fn summary(&self, messages: u64) -> Summary
        ensures { result ≡ summary_of messages (replies self.now.frames) (length self.now.notes) }
    {
        Summary {
            messages,
            frames: self.replies,
            notes: self.notes.len(),
            errors: self.errors,
            bytes: self.reply_bytes,
        }
    }
}

/// Puts a frame at the end of the bytes.
#[inline(always)]
fn append(bytes: &mut Vec<u8>, header: &[u8; 16], payload: &[u8]) -> Result<(), AllocError>
    ensures ok { OnOk result (bytes.new.items ≡ bytes.old.items ++ (header.now ++ payload.now)) }
    ensures err { OnErr result (bytes.new.items ≡ bytes.old.items) }
{
    let held = bytes.len();
    bytes.extend_from_slice(header)?;
    if let Err(error) = bytes.extend_from_slice(payload) {
        bytes.truncate(held);
        return Err(error);
    }
    Ok(())
}

/// The least status that is negative, in two's complement.
const NEGATIVE: u32 = 1 << 31;

/// Whether a frame of this status is set aside, and no reply: its status is positive.
fn is_notice(status: u32) -> bool
    ensures { result ≡ (nat_lt 0 status && nat_lt status (2 ^ 31)) }
{
    status > 0 && status < NEGATIVE
}

impl Sink for FrameStore {
    ghost told = { stored_told };

    /// Keeps the frame, and counts it where it is a reply. It fails where it finds no memory.
    #[inline(always)]
    fn send(&mut self, header: &[u8; 16], payload: &[u8]) -> Sending
        requires { number header.now 0 4 ≡ 16 + length payload.now }
        ensures sends { Sends result (header.now ++ payload.now) (stored_told self.old) (stored_told self.new) }
        ensures exactly { SendsStored result (header.now ++ payload.now) self.old self.new }
    {
        let held = self.bytes.len();
        let Ok(()) = append(&mut self.bytes, header, payload) else {
            self.starved = self.starved.saturating_add(1);
            return Sending::Failed;
        };
        let status = u32_at(header, 4);
        if is_notice(status) {
            return Sending::Sent;
        }
        self.replies += 1;
        self.errors += usize::from(status >= NEGATIVE);
        self.reply_bytes += self.bytes.len() - held;
        Sending::Sent
    }

    /// Keeps the note. It fails where it finds no memory.
    fn note(&mut self, id: RequestId, mark: u64) -> Noting
        ensures notes { Notes result (id.0, mark) (stored_told self.old) (stored_told self.new) }
        ensures exactly { NotesStored result (id.0, mark) self.old self.new }
    {
        match self.notes.push((id, mark)) {
            Ok(()) => Noting::Sent,
            Err(_) => {
                self.starved = self.starved.saturating_add(1);
                Noting::Failed
            }
        }
    }
}
