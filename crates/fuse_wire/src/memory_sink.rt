//! Frames and notes kept in memory.
ghost use Rattle.std.specs.Prelude.{◌≡◌, ◌+◌, ◌∷◌, ◌++◌, [], length, IfOk, OnOk, OnErr};
ghost use Rattle.fuse_wire.specs.Numbers.{number};
ghost use Rattle.fuse_wire.specs.Sink.{Sends, Notes};
ghost use Rattle.fuse_wire.specs.MemorySink.{EachFails, NotesMemory, NumbersDiffer, SendsMemory};
ghost use Rattle.fuse_wire.specs.MemorySink.{absent_after, answer_at, frames_held_told, notes_of};

use crate::{Items, Noting, RequestId, Sending, Sink};
use std::alloc::{AllocError, Global};

/// A sink that keeps its frames and notes, fails at some sends, and tells what it holds. It counts the sends that
/// failed so, those of them that were answered `Absent`, and the frames and notes that found no memory.
#[derive(Debug, Drop)]
pub struct MemorySink {
    alloc: Global,
    frames: Vec<Items<u8>>,
    notes: Vec<(RequestId, u64)>,
    calls: u64,
    faults: Vec<(u64, Sending)>,
    reached: u64,
    absent: u64,
    starved: u64,
}

impl std::marker::Model for MemorySink {
    ghost use Rattle.fuse_wire.specs.MemorySink.{EachFails, FramesHeld, notes_of};

    ghost Value = { FramesHeld };

    ghost view = { λ s. record {
      frames = s.frames.items;
      notes = notes_of s.notes.items;
      calls = s.calls;
      listed = s.faults.items;
      reached = s.reached;
      absent = s.absent;
      starved = s.starved;
    } };

    ghost invariant = { λ s. EachFails s.faults.items };
}

impl MemorySink {
    /// An empty sink. The sends whose numbers are in `faults` are answered so: sends are numbered from 1, those that
    /// fail too, and each after the last number of a u64 has that one. A note is no send. A frame or a note that finds
    /// no memory is not taken either, and the answer is `Failed`.
    pub fn new(alloc: Global, faults: Vec<(u64, Sending)>) -> MemorySink
        requires numbers { NumbersDiffer faults.items }
        requires answers { EachFails faults.items }
        ensures { result ≡ record {
          frames = [];
          notes = [];
          calls = 0;
          listed = faults.items;
          reached = 0;
          absent = 0;
          starved = 0;
        } }
    {
        MemorySink {
            alloc,
            frames: Vec::new(alloc),
            notes: Vec::new(alloc),
            calls: 0,
            faults,
            reached: 0,
            absent: 0,
            starved: 0,
        }
    }

    /// The frames taken, in order.
    pub fn frames(&self) -> &[Items<u8>]
        ensures { result.now ≡ self.now.frames }
    {
        self.frames.as_slice()
    }

    /// The notes taken, in order: the forget's request, and its mark.
    pub fn notes(&self) -> &[(RequestId, u64)]
        ensures { notes_of result.now ≡ self.now.notes }
    {
        self.notes.as_slice()
    }

    /// How many frames and notes found no memory.
    pub fn starved(&self) -> u64
        ensures { result ≡ self.now.starved }
    {
        self.starved
    }
}

/// Header and payload, one after the other.
fn joined(alloc: Global, header: &[u8; 16], payload: &[u8]) -> Result<Items<u8>, AllocError>
    ensures { IfOk result (λ frame. frame ≡ header.now ++ payload.now) }
{
    let mut bytes = Vec::with_capacity(alloc, 16usize.saturating_add(payload.len()))?;
    bytes.extend_from_slice(header)?;
    bytes.extend_from_slice(payload)?;
    Ok(Items::from_vec(bytes))
}

/// Keeps one frame at the end.
fn keep(
    alloc: Global,
    frames: &mut Vec<Items<u8>>,
    header: &[u8; 16],
    payload: &[u8],
) -> Result<(), AllocError>
    ensures ok { OnOk result (frames.new.items ≡ frames.old.items ++ (header.now ++ payload.now) ∷ []) }
    ensures err { OnErr result (frames.new.items ≡ frames.old.items) }
{
    let frame = joined(alloc, header, payload)?;
    frames.push(frame)?;
    Ok(())
}

/// How the send of this number is answered, where it is listed.
fn listed_answer(faults: &[(u64, Sending)], number: u64) -> Option<Sending>
    ensures { result ≡ answer_at faults.now number }
{
    for fault in faults {
        if fault.0 == number {
            return Some(fault.1);
        }
    }
    None
}

/// How many sends were answered `Absent`, after this answer.
fn absent_after(answer: Sending, absent: u64) -> u64
    ensures { result ≡ absent_after answer absent }
{
    match answer {
        Sending::Absent => absent.saturating_add(1),
        Sending::Sent | Sending::Failed => absent,
    }
}

impl Sink for MemorySink {
    ghost told = { frames_held_told };

    /// Answers as the list says, or keeps the frame. It fails where it finds no memory.
    fn send(&mut self, header: &[u8; 16], payload: &[u8]) -> Sending
        requires { number header.now 0 4 ≡ 16 + length payload.now }
        ensures sends { Sends result (header.now ++ payload.now)
            (frames_held_told self.old) (frames_held_told self.new) }
        ensures exactly { SendsMemory result (header.now ++ payload.now) self.old self.new }
    {
        self.calls = self.calls.saturating_add(1);
        if let Some(answer) = listed_answer(&self.faults, self.calls) {
            self.reached = self.reached.saturating_add(1);
            self.absent = absent_after(answer, self.absent);
            return answer;
        }
        match keep(self.alloc, &mut self.frames, header, payload) {
            Ok(()) => Sending::Sent,
            Err(_) => {
                self.starved = self.starved.saturating_add(1);
                Sending::Failed
            }
        }
    }

    /// Keeps the note. It fails where it finds no memory.
    fn note(&mut self, id: RequestId, mark: u64) -> Noting
        ensures notes { Notes result (id.0, mark) (frames_held_told self.old) (frames_held_told self.new) }
        ensures exactly { NotesMemory result (id.0, mark) self.old self.new }
    {
        match self.notes.push((id, mark)) {
            Ok(()) => Noting::Sent,
            Err(_) => {
                self.starved = self.starved.saturating_add(1);
                Noting::Failed
            }
        }
    }
}
