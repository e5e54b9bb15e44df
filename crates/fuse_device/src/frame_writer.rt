//! Frames written to the kernel's device.
ghost use Rattle.std.specs.Prelude.{◌≡◌, ◌-◌, ◌≤◌, ◌<◌, [], IfOk, None, drop, length, true, vec_len};
ghost use Rattle.std.specs.Io.{WritesAtMost};
ghost use Rattle.std.specs.Io.KnownBytes.{Keeps, WriteAppends};
ghost use Rattle.fuse_wire.specs.Frames.{IsFrame};
ghost use Rattle.fuse_device.specs.Writing.{CarriesBy, HoldsHeader, IsHeader, PutsBelow, WritesThrough, frames_below, held_back, passed_over};

use fuse_wire::u32_at;
use std::alloc::{AllocError, Global};
use std::io::{Error, Result, Write};

/// How long the header of a frame is.
const HEADER_SIZE: usize = 16;

/// How long the longest reply of fixed size is, with its header: these are joined without more memory.
const FIXED_REPLY_SIZE: usize = 160;

/// Nobody waits for this reply any more.
const ENOENT: i32 = 2;

/// A writer of frames, each of which is written at once: the device takes no frame in pieces. Of a frame that has a
/// payload the header is held until the payload comes. A frame that nobody waits for is passed over and counted. It tells
/// none of its bytes: what the device refuses so is nowhere.
#[derive(Debug, Drop)]
pub struct FrameWriter<W> {
    writer: W,
    held: Vec<u8>,
    payload_left: usize,
    passed_over: u64,
}

/// What one write below did.
#[derive(Drop)]
enum Put {
    /// So many bytes of the front were taken.
    Wrote(usize),
    /// The bytes are a frame, and nobody waits for it.
    PassedOver,
    /// None was taken.
    Failed(Error),
}

/// Whether these bytes are a frame.
fn is_frame(bytes: &[u8]) -> bool
    ensures { result ≡ true → IsFrame bytes.now }
{
    bytes.len() >= HEADER_SIZE && u32_at(bytes, 0) as usize == bytes.len()
}

/// Writes once.
#[inline(always)]
fn put_below<W: Write>(writer: &mut W, bytes: &[u8]) -> Put
    ensures { PutsBelow result bytes.now (W.contents writer.old) (W.contents writer.new) }
{
    match writer.write(bytes) {
        Ok(count) => Put::Wrote(count),
        Err(error) if error.raw_os_error() == Some(ENOENT) && is_frame(bytes) => Put::PassedOver,
        Err(error) => Put::Failed(error),
    }
}

/// Lets the first bytes go.
fn drop_front(bytes: &mut Vec<u8>, count: usize)
    requires { count ≤ vec_len bytes.old }
    ensures { bytes.new.items ≡ drop count bytes.old.items }
{
    std::mem::drop(bytes.drain(..count));
}

impl<W: Write> FrameWriter<W> {
    /// Writes to this device. The error is that there is no memory for a reply of fixed size.
    pub fn new(alloc: Global, writer: W) -> std::result::Result<FrameWriter<W>, AllocError>
    where
        W: Drop,
        ensures held { IfOk result (λ frames. frames_below frames ≡ writer) }
        ensures none_held { IfOk result (λ frames. held_back frames ≡ []) }
        ensures fresh { IfOk result (λ frames. passed_over frames ≡ 0) }
    {
        let held = Vec::with_capacity(alloc, FIXED_REPLY_SIZE)?;
        Ok(FrameWriter {
            writer,
            held,
            payload_left: 0,
            passed_over: 0,
        })
    }

    /// How many frames nobody waited for.
    pub fn passed_over(&self) -> u64
        ensures { result ≡ passed_over self.now }
    {
        self.passed_over
    }

    /// Whether this is the header of a frame, and its payload is to come.
    #[inline(always)]
    fn begins_frame(&self, piece: &[u8]) -> bool
        ensures { result ≡ true → IsHeader piece.now }
    {
        self.payload_left == 0
            && piece.len() == HEADER_SIZE
            && u32_at(piece, 0) as usize > HEADER_SIZE
    }

    /// Writes the piece, or holds it where it is a header whose payload is to come.
    #[inline(always)]
    fn write_alone(&mut self, piece: &[u8]) -> Result<usize>
        requires { held_back self.old ≡ [] }
        ensures bound { WritesAtMost result piece.now }
        ensures through { WritesThrough result piece.now (held_back self.old) (held_back self.new)
            (W.contents (frames_below self.old)) (W.contents (frames_below self.new))
            (passed_over self.old) (passed_over self.new) }
        ensures holds { IfOk result (λ taken. HoldsHeader piece.now (held_back self.new)) }
    {
        if self.begins_frame(piece) {
            self.held.extend_from_slice(piece)?;
            self.payload_left = u32_at(piece, 0) as usize - HEADER_SIZE;
            return Ok(piece.len());
        }
        match put_below(&mut self.writer, piece) {
            Put::Wrote(count) => {
                self.payload_left = self.payload_left.saturating_sub(count);
                Ok(count)
            }
            Put::PassedOver => {
                self.passed_over = self.passed_over.saturating_add(1);
                Ok(piece.len())
            }
            Put::Failed(error) => Err(error),
        }
    }

    /// Writes what is held and the piece at once; or apart where there is no memory to join them, or where the writer takes
    /// no more than of what is held.
    #[inline(always)]
    #[tactic(auto, using(crate::proofs::Carrying::carries_joined, crate::proofs::Carrying::dropped_then, crate::proofs::Carrying::writes_through_carried))]
    fn write_joined(&mut self, piece: &[u8]) -> Result<usize>
        ensures bound { WritesAtMost result piece.now }
        ensures through { WritesThrough result piece.now (held_back self.old) (held_back self.new)
            (W.contents (frames_below self.old)) (W.contents (frames_below self.new))
            (passed_over self.old) (passed_over self.new) }
        ensures holds { IfOk result (λ taken. 0 < taken → held_back self.new ≡ []) }
    {
        let front = self.held.len();
        if self.held.extend_from_slice(piece).is_err() {
            return self.write_apart(piece);
        }
        let done = put_below(&mut self.writer, &self.held);
        self.held.truncate(front);
        match done {
            Put::Wrote(count) if count > front => {
                self.held.clear();
                self.payload_left = self.payload_left.saturating_sub(count - front);
                Ok(count - front)
            }
            Put::Wrote(0) => Ok(0),
            Put::Wrote(count) => {
                drop_front(&mut self.held, count);
                self.write_apart(piece)
            }
            Put::PassedOver => {
                self.held.clear();
                self.payload_left = 0;
                self.passed_over = self.passed_over.saturating_add(1);
                Ok(piece.len())
            }
            Put::Failed(error) => Err(error),
        }
    }

    /// Writes what is held by itself, and then of the piece.
    #[tactic(auto, using(crate::proofs::Carrying::carries_emptied, crate::proofs::Carrying::carries_front))]
    fn write_apart(&mut self, piece: &[u8]) -> Result<usize>
        ensures bound { WritesAtMost result piece.now }
        ensures through { CarriesBy result piece.now (held_back self.old) (held_back self.new)
            (W.contents (frames_below self.old)) (W.contents (frames_below self.new))
            (passed_over self.old) (passed_over self.new) }
        ensures holds { IfOk result (λ taken. 0 < taken → held_back self.new ≡ []) }
    {
        for _ in 0..=HEADER_SIZE {
            if self.held.is_empty() {
                let count = self.writer.write(piece)?;
                self.payload_left = self.payload_left.saturating_sub(count);
                return Ok(count);
            }
            let count = self.writer.write(&self.held)?;
            if count == 0 {
                return Ok(0);
            }
            drop_front(&mut self.held, count);
        }
        Ok(0)
    }
}

impl<W: Write> Write for FrameWriter<W> {
    /// Writes what was held and the piece, or holds the piece.
    #[inline(always)]
    fn write(&mut self, piece: &[u8]) -> Result<usize>
        ensures bound { WritesAtMost result piece.now }
        ensures bytes { WriteAppends None None result piece.now }

        // What was taken goes below in its order, but for a frame that nobody waits for.
        ensures through { WritesThrough result piece.now (held_back self.old) (held_back self.new)
            (W.contents (frames_below self.old)) (W.contents (frames_below self.new))
            (passed_over self.old) (passed_over self.new) }

        // Nothing is held once a frame is whole: see `HoldsHeader`.
        ensures holds { IfOk result (λ taken. 0 < taken → HoldsHeader piece.now (held_back self.new)) }
    {
        if self.held.is_empty() {
            return self.write_alone(piece);
        }
        self.write_joined(piece)
    }

    /// Flushes the writer below. What is held stays held.
    fn flush(&mut self) -> Result<()>
        ensures bytes { Keeps None None }
        ensures below { Keeps (W.contents (frames_below self.old)) (W.contents (frames_below self.new)) }
        ensures held { held_back self.new ≡ held_back self.old }
        ensures counts { passed_over self.new ≡ passed_over self.old }
    {
        self.writer.flush()
    }
}
