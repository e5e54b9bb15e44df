// The turns that the source of a run gives.
use fuse_request::opcode::{FUSE_DESTROY, FUSE_STATFS};
use fuse_wire::{Items, MemorySource, Turn};
use std::process::Abort;

/// Some turns of a source, one after another.
#[derive(Clone, Copy)]
pub(crate) enum Piece {
    /// A STATFS of each id from the first number up to the second.
    Requests(u64, u64),
    /// The same, each of so many bytes, at least those of a header.
    Long(u64, u64, u32),
    /// A STATFS of each id below the first number, and before each as many turns that give nothing as the second says.
    Apart(u64, u64),
    /// A DESTROY of this id.
    Destroy(u64),
    /// A message that is shorter than a header.
    Short,
    /// A fault.
    Fault,
}

/// A message of so many bytes, at least those of a header.
fn message<R: AllocGlobal + Abort>(rt: &R, opcode: u32, id: u64, length: u32) -> Turn {
    let mut bytes = Vec::new(rt.alloc());
    bytes
        .extend_from_slice(&length.to_le_bytes())
        .expect(rt, "there is memory");
    bytes
        .extend_from_slice(&opcode.to_le_bytes())
        .expect(rt, "there is memory");
    bytes
        .extend_from_slice(&id.to_le_bytes())
        .expect(rt, "there is memory");
    bytes
        .resize(length as usize, 0)
        .expect(rt, "there is memory");
    Turn::Message(Items::from_vec(bytes))
}

/// A message of twenty bytes.
fn short<R: AllocGlobal + Abort>(rt: &R) -> Turn {
    let bytes = vec![in rt.alloc(); 0; 20].expect(rt, "there is memory");
    Turn::Message(Items::from_vec(bytes))
}

/// Puts a turn at the end.
fn put<R: Abort>(rt: &R, turns: &mut Vec<Turn>, turn: Turn) {
    turns.push(turn).expect(rt, "there is memory");
}

/// Puts a STATFS of so many bytes of each of these ids at the end, and before each so many turns that give nothing.
fn put_requests<R: AllocGlobal + Abort>(
    rt: &R,
    turns: &mut Vec<Turn>,
    ids: (u64, u64),
    length: u32,
    nothing: u64,
) {
    for id in ids.0..ids.1 {
        for _turn in 0..nothing {
            put(rt, turns, Turn::Retry);
        }
        put(rt, turns, message(rt, FUSE_STATFS, id, length));
    }
}

/// Puts the turns of a piece at the end.
fn put_piece<R: AllocGlobal + Abort>(rt: &R, turns: &mut Vec<Turn>, piece: Piece) {
    match piece {
        Piece::Requests(first, end) => put_requests(rt, turns, (first, end), 40, 0),
        Piece::Long(first, end, length) => put_requests(rt, turns, (first, end), length, 0),
        Piece::Apart(count, nothing) => put_requests(rt, turns, (0, count), 40, nothing),
        Piece::Destroy(id) => put(rt, turns, message(rt, FUSE_DESTROY, id, 40)),
        Piece::Short => put(rt, turns, short(rt)),
        Piece::Fault => put(rt, turns, Turn::Fail),
    }
}

/// A source of these pieces.
pub(crate) fn source_of<R: AllocGlobal + Abort>(rt: &R, pieces: &[Piece]) -> MemorySource {
    let mut turns = Vec::new(rt.alloc());
    for piece in pieces {
        put_piece(rt, &mut turns, *piece);
    }
    MemorySource::new(turns)
}
