// What the file of the notepad holds.
ghost use Rattle.std.specs.Prelude.{◌≡◌, ◌≤◌, ◌<◌, ◌+◌, [], IfOk, IsTrue, length, take, drop, min, false};
ghost use Rattle.std.specs.Vec.{vec_capacity};
ghost use Rattle.uses.specs.Notepad.{capacity, note, resized, written_at};

use fuse_wire::{FileAttr, FileType, INodeNo, NoMemory, root_attr};
use std::alloc::Global;

/// How many bytes the file may have.
const CAPACITY: usize = 4096;

/// The contents of the file, at most `CAPACITY` bytes, for which there is room from the start.
#[derive(Drop)]
pub(crate) struct NoteContents {
    bytes: Vec<u8>,
    ghost short: { length bytes.items ≤ capacity },
    ghost room: { capacity ≤ vec_capacity bytes },
}

impl NoteContents {
    /// No bytes. `NoMemory` where there is none for the room.
    pub(crate) fn new(alloc: Global) -> Result<NoteContents, NoMemory>
        ensures { IfOk result (λ note. note.bytes.items ≡ []) }
    {
        let bytes = Vec::with_capacity(alloc, CAPACITY)?;
        Ok(NoteContents { bytes })
    }

    /// The attributes of the file as it is.
    pub(crate) fn attr(&self) -> FileAttr
        ensures attr { result ≡ note (length self.now.bytes.items) }
        ensures short { length self.now.bytes.items ≤ capacity }
    {
        root_attr(
            INodeNo(2),
            FileType::RegularFile,
            0o644,
            1,
            self.bytes.len() as u64,
        )
    }

    /// The bytes from the offset on, at most so many.
    pub(crate) fn part(&self, offset: u64, size: u32) -> &[u8]
        ensures part { result.now ≡ take size (drop offset self.now.bytes.items) }
        ensures within { length result.now ≤ min size capacity }
    {
        let rest = self.bytes.get(offset as usize..).unwrap_or(&[]);
        rest.get(..size as usize).unwrap_or(rest)
    }

    /// Cuts it there, or makes it longer by zero bytes. False says that there is no room, and nothing changed.
    pub(crate) fn resize(&mut self, size: u64) -> bool
        ensures resized { IsTrue result → self.new.bytes.items ≡ resized size self.old.bytes.items }
        ensures fits { IsTrue result → (size ≤ capacity) × (length self.new.bytes.items ≡ size) }
        ensures full { result ≡ false → capacity < size }
        ensures kept { result ≡ false → self.new.bytes.items ≡ self.old.bytes.items }
    {
        if size > CAPACITY as u64 {
            return false;
        }
        self.bytes.resize(size as usize, 0).unwrap();
        true
    }

    /// Writes these from the offset on; no bytes change nothing. False says that there is no room, and nothing changed.
    pub(crate) fn write(&mut self, offset: u64, written: &[u8]) -> bool
        ensures written { IsTrue result → self.new.bytes.items ≡ written_at offset written.now self.old.bytes.items }
        ensures fits { IsTrue result → offset + length written.now ≤ capacity }
        ensures full { result ≡ false → capacity < offset + length written.now }
        ensures kept { result ≡ false → self.new.bytes.items ≡ self.old.bytes.items }
    {
        if offset > CAPACITY as u64 || written.len() > CAPACITY - offset as usize {
            return false;
        }
        if written.is_empty() {
            return true;
        }
        let start = offset as usize;
        let end = start + written.len();
        let size = self.bytes.len().max(end);
        self.bytes.resize(size, 0).unwrap();
        self.bytes[start..end].copy_from_slice(written);
        true
    }
}
