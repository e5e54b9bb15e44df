// A whole frame.
ghost use Rattle.std.specs.Prelude.{◌≡◌, ◌≤◌, ◌+◌, ◌++◌, [], length, take, pos, IsOk, IfOk};
ghost use Rattle.fuse_wire.specs.Numbers.{number};
ghost use Rattle.fuse_wire.specs.Sink.{Sends};
ghost use Rattle.fuse_reply.specs.Sizes.{out_header_size, max_payload, inline_size};
ghost use Rattle.fuse_reply.specs.Frame.{frame, frame_status, out_header};

use fuse_wire::{NoMemory, RequestId, Sending, Sink, i32_at};
use smallvec::SmallVec;
use std::alloc::{AllocError, Global};
use std::marker::Model;

/// How many bytes a frame's header has: those of `struct fuse_out_header`.
const OUT_HEADER_SIZE: usize = 16;

/// How many payload bytes a frame can carry: its length field has 4 bytes, and counts the header's 16 too.
pub const MAX_PAYLOAD: usize = u32::MAX as usize - OUT_HEADER_SIZE;

/// How many payload bytes a frame holds without an allocation.
pub(crate) const INLINE_SIZE: usize = 144;

/// A whole frame: its header, `struct fuse_out_header`, and its payload. A contract sees its bytes.
#[derive(Debug, Drop)]
pub struct Packed {
    header: [u8; OUT_HEADER_SIZE],
    payload: SmallVec<u8, INLINE_SIZE>,
}

impl Model for Packed {
    ghost use Rattle.std.specs.Prelude.{◌≡◌, ◌+◌, ◌++◌, ℕ, List, length};
    ghost use Rattle.fuse_wire.specs.Numbers.{number};
    ghost use Rattle.fuse_reply.specs.Sizes.{out_header_size};

    ghost Value = { List ℕ };

    ghost view = { λ p. p.header ++ p.payload.items };

    ghost invariant = { λ p. number p.header 0 4 ≡ out_header_size + length p.payload.items };
}

/// A copy is the same frame.
impl Clone for Packed {
    ghost use Rattle.std.specs.Prelude.{◌≡◌};

    ghost is_clone = { λ frame copy. copy ≡ frame };

    fn clone(&self) -> Result<Packed, AllocError> {
        let payload = SmallVec::from_slice(*self.payload.allocator(), self.payload.as_slice())?;
        Ok(Packed {
            header: self.header,
            payload,
        })
    }
}

/// The header of a frame whose payload has so many bytes.
fn header_of(id: RequestId, status: i32, payload: usize) -> [u8; OUT_HEADER_SIZE]
    requires { payload ≤ max_payload }
    ensures bytes { result ≡ out_header id.0 status payload }
    ensures length { number result 0 4 ≡ out_header_size + payload }
{
    let [l0, l1, l2, l3] = ((OUT_HEADER_SIZE + payload) as u32).to_le_bytes();
    let [s0, s1, s2, s3] = status.to_le_bytes();
    let [i0, i1, i2, i3, i4, i5, i6, i7] = id.0.to_le_bytes();
    [
        l0, l1, l2, l3, s0, s1, s2, s3, i0, i1, i2, i3, i4, i5, i6, i7,
    ]
}

impl Packed {
    /// The frame of a request's id, a status and a payload of at most `MAX_PAYLOAD` bytes. A payload of up to 144
    /// bytes takes no memory. `NoMemory` where the payload is longer and there is no memory for it.
    pub fn new(
        alloc: Global,
        id: RequestId,
        status: i32,
        payload: &[u8],
    ) -> Result<Packed, NoMemory>
        requires { length payload.now ≤ max_payload }
        ensures ok { IfOk result (λ packed. packed ≡ frame id.0 status payload.now) }
        ensures inline { length payload.now ≤ inline_size → IsOk result }
    {
        let copied = SmallVec::from_slice(alloc, payload)?;
        Ok(Packed::around(id, status, copied))
    }

    /// The frame of a payload that is held already.
    #[tactic(auto, unfolding(crate::specs::Frame::frame))]
    #[inline(always)]
    fn around(id: RequestId, status: i32, payload: SmallVec<u8, INLINE_SIZE>) -> Packed
        requires { length payload.items ≤ max_payload }
        ensures { result ≡ frame id.0 status payload.items }
    {
        Packed {
            header: header_of(id, status, payload.len()),
            payload,
        }
    }

    /// The frame of status 0 and these bytes, the one part after the other, as by `new`. Each is copied once, to where
    /// the frame stands.
    #[inline(always)]
    pub(crate) fn of_parts(
        alloc: Global,
        id: RequestId,
        front: &[u8],
        back: &[u8],
    ) -> Result<Packed, NoMemory>
        requires { length front.now + length back.now ≤ max_payload }
        ensures ok { IfOk result (λ packed. packed ≡ frame id.0 (pos 0) (front.now ++ back.now)) }
        ensures inline { length front.now + length back.now ≤ inline_size → IsOk result }
    {
        let mut payload = SmallVec::new(alloc);
        payload.reserve_exact(front.len() + back.len())?;
        payload.extend_from_slice(front)?;
        payload.extend_from_slice(back)?;
        Ok(Packed::around(id, 0, payload))
    }

    /// The frame of a payload in three parts, one after the other, at most `MAX_PAYLOAD` bytes in all. Each is copied
    /// once, to where the frame stands. `NoMemory` as from `new`.
    pub fn joined(
        alloc: Global,
        id: RequestId,
        status: i32,
        front: &[u8],
        middle: &[u8],
        back: &[u8],
    ) -> Result<Packed, NoMemory>
        requires { length front.now + length middle.now + length back.now ≤ max_payload }
        ensures ok { IfOk result (λ packed. packed ≡ frame id.0 status (front.now ++ middle.now ++ back.now)) }
        ensures inline { length front.now + length middle.now + length back.now ≤ inline_size → IsOk result }
    {
        let mut payload = SmallVec::new(alloc);
        payload.reserve_exact(front.len() + middle.len() + back.len())?;
        payload.extend_from_slice(front)?;
        payload.extend_from_slice(middle)?;
        payload.extend_from_slice(back)?;
        Ok(Packed::around(id, status, payload))
    }

    /// The frame of status 0 and a payload that was put together where it lies. It is not copied.
    #[inline(always)]
    pub(crate) fn of_held(id: RequestId, payload: SmallVec<u8, INLINE_SIZE>) -> Packed
        requires { length payload.items ≤ max_payload }
        ensures { result ≡ frame id.0 (pos 0) payload.items }
    {
        Packed::around(id, 0, payload)
    }

    /// A frame without a payload.
    #[inline(always)]
    pub(crate) fn bare(alloc: Global, id: RequestId, status: i32) -> Packed
        ensures { result ≡ frame id.0 status [] }
    {
        Packed::around(id, status, SmallVec::new(alloc))
    }

    /// The frame of status 0 and a payload that is held without an allocation.
    #[inline(always)]
    pub(crate) fn short(alloc: Global, id: RequestId, payload: &[u8]) -> Packed
        requires { length payload.now ≤ inline_size }
        ensures { result ≡ frame id.0 (pos 0) payload.now }
    {
        Packed::short_parts(alloc, id, payload, &[])
    }

    /// The frame of status 0 and a payload in two parts, which is held without an allocation.
    #[inline(always)]
    pub(crate) fn short_parts(alloc: Global, id: RequestId, front: &[u8], back: &[u8]) -> Packed
        requires { length front.now + length back.now ≤ inline_size }
        ensures { result ≡ frame id.0 (pos 0) (front.now ++ back.now) }
    {
        let mut short = [0; INLINE_SIZE];
        let count = front.len() + back.len();
        put_at(&mut short, 0, front);
        put_at(&mut short, front.len(), back);
        Packed::around(id, 0, SmallVec::from_buf_and_len(alloc, short, count))
    }

    /// The status, which stands after the length.
    #[inline(always)]
    pub(crate) fn status(&self) -> i32
        ensures { result ≡ frame_status self.now }
    {
        i32_at(&self.header, 4)
    }

    /// Sends the frame.
    #[inline(always)]
    pub(crate) fn send<K: Sink>(&self, sink: &mut K) -> Sending
        ensures { Sends result self.now (K.told sink.old) (K.told sink.new) }
    {
        sink.send(&self.header, self.payload.as_slice())
    }
}

/// Writes bytes into an array, from a place on.
#[inline(always)]
fn put_at(array: &mut [u8; INLINE_SIZE], at: usize, bytes: &[u8])
    requires { at + length bytes.now ≤ inline_size }
    ensures { take (at + length bytes.now) array.new ≡ take at array.old ++ bytes.now }
{
    array[at..at + bytes.len()].copy_from_slice(bytes);
}
