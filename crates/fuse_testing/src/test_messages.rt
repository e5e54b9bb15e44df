//! What sessions of tests are given and what they send, as plain data and byte by byte. The numbers of errors are those of
//! Linux, in `errno-base.h` and `errno.h`.

use fuse_request::opcode::{
    FUSE_BATCH_FORGET, FUSE_FORGET, FUSE_GETATTR, FUSE_INIT, FUSE_LOOKUP, FUSE_POLL, FUSE_READ,
};
use fuse_wire::{Items, MemorySource, Turn};
use std::alloc::{AllocError, Global};

/// Not permitted.
pub const EPERM: u8 = 1;

/// No such name.
pub const ENOENT: u8 = 2;

/// A fault.
pub const EIO: u8 = 5;

/// Permission denied.
pub const EACCES: u8 = 13;

/// An invalid argument.
pub const EINVAL: u8 = 22;

/// Not implemented.
pub const ENOSYS: u8 = 38;

/// A fault of the protocol.
pub const EPROTO: u8 = 71;

/// An opcode that names no operation.
pub const NO_OPCODE: u32 = 7;

/// INIT of version 7.8, of 104 bytes.
pub const INIT_7_8: [u8; 104] = [
    0x68, 0, 0, 0, 0x1a, 0, 0, 0, 0x0d, 0xf0, 0xad, 0xba, 0xef, 0xbe, 0xad, 0xde, 0x88, 0x77, 0x66,
    0x55, 0x44, 0x33, 0x22, 0x11, 0x0d, 0xd0, 1, 0xc0, 0xfe, 0xca, 1, 0xc0, 0x5e, 0xba, 0xde, 0xc0,
    0, 0, 0, 0, 7, 0, 0, 0, 8, 0, 0, 0, 0, 0x10, 0, 0, 0, 0, 0, 0, 0, 0, 0, 0, 0, 0, 0, 0, 0, 0, 0,
    0, 0, 0, 0, 0, 0, 0, 0, 0, 0, 0, 0, 0, 0, 0, 0, 0, 0, 0, 0, 0, 0, 0, 0, 0, 0, 0, 0, 0, 0, 0, 0,
    0, 0, 0, 0, 0,
];

/// The reply that accepts it.
pub const ACCEPTED: [u8; 40] = [
    0x28, 0, 0, 0, 0, 0, 0, 0, 0x0d, 0xf0, 0xad, 0xba, 0xef, 0xbe, 0xad, 0xde, 7, 0, 0, 0, 0x28, 0,
    0, 0, 0, 0x10, 0, 0, 0, 0, 0, 0, 0x10, 0, 0x0c, 0, 0, 0, 0, 1,
];

/// What a message asks: its opcode, how many bytes of arguments it has, those of them that are not what they would be, by
/// their places, and the names and data behind them.
#[derive(Clone, Copy)]
pub struct Asks(
    pub u32,
    pub u8,
    pub &'static [(usize, u8)],
    pub &'static [u8],
);

/// A LOOKUP of the name `none`, and one whose name has no end.
pub const LOOKUP: Asks = Asks(FUSE_LOOKUP, 0, &[], b"none\0");

pub const ENDLESS_LOOKUP: Asks = Asks(FUSE_LOOKUP, 0, &[], b"none");

/// A GETATTR of no open file.
pub const GETATTR: Asks = Asks(FUSE_GETATTR, 16, &[], b"");

/// A FORGET of one lookup, and one that is cut short.
pub const FORGET: Asks = Asks(FUSE_FORGET, 8, &[(0, 1)], b"");

pub const SHORT_FORGET: Asks = Asks(FUSE_FORGET, 7, &[(0, 1)], b"");

/// A BATCH_FORGET of one lookup of the inode 2 and four of the inode 3, and one of nothing.
pub const BATCH_FORGET: Asks = Asks(
    FUSE_BATCH_FORGET,
    40,
    &[(0, 2), (8, 2), (16, 1), (24, 3), (32, 4)],
    b"",
);

pub const EMPTY_BATCH_FORGET: Asks = Asks(FUSE_BATCH_FORGET, 8, &[], b"");

/// What a source gives next.
#[derive(Clone, Copy)]
pub enum Given {
    /// INIT of version 7.8.
    Opening,
    /// The same, of which only so many bytes come.
    Cut(usize),
    /// The same with this byte at this place.
    Changed(usize, u8),
    /// INIT of this version, of user 0, with the id 1.
    Init(u8, u8),
    /// A message with this id about the node 2, of this user.
    Asked(u8, u8, Asks),
    /// A LOOKUP with this id, of a name of this one byte in the root, of user 0.
    Lookup(u64, u8),
    /// A READ with this id, of this user, with this highest byte of its offset, of so many bytes.
    Read(u8, u8, u8, u32),
    /// A POLL with this id about this node, with this handle, whose flags have this lowest byte.
    Poll(u8, u8, [u8; 2], u8),
    /// A message of this opcode, of user 5, with this id. It has 56 bytes of arguments, which are zeros, but for this byte
    /// at this place of the message, and for the byte 56, which says that a WRITE has 16 bytes.
    Argument(u32, u8, usize, u8),
    /// Another message.
    Bytes(&'static [u8]),
    /// Nothing.
    Nothing,
    /// A fault.
    Fault,
}

/// A frame that a session sends.
#[derive(Clone, Copy)]
pub enum Frame {
    /// The reply that accepts INIT of version 7.8.
    Accepted,
    /// The reply to this id is this error.
    Error(u8, u8),
    /// The reply to this id is this payload.
    Payload(u8, &'static [u8]),
    /// The notice of a poll with this handle, `struct fuse_notify_poll_wakeup_out`, whose code is 1.
    News([u8; 2]),
    /// Another frame.
    Bytes(&'static [u8]),
}

/// The header of a message, without its length and opcode.
pub fn head(id: u64, node: u8, uid: u8) -> [u8; 40] {
    let mut header = [0; 40];
    header[8..16].copy_from_slice(&id.to_le_bytes());
    header[16] = node;
    header[24] = uid;
    header
}

/// The message of this header that asks this. Its arguments are zeros, or count up from 1, but for the changes.
pub fn request(
    alloc: Global,
    mut header: [u8; 40],
    is_counted: bool,
    asks: &Asks,
) -> Result<Vec<u8>, AllocError> {
    let Asks(opcode, count, changes, tail) = *asks;
    let length = (tail.len().min(0xffff) as u32).saturating_add(count as u32);
    header[..4].copy_from_slice(&length.saturating_add(40).to_le_bytes());
    header[4..8].copy_from_slice(&opcode.to_le_bytes());
    let mut message = Vec::from_slice(alloc, &header)?;
    for place in 0..count {
        let byte = if is_counted { place.wrapping_add(1) } else { 0 };
        message.push(byte)?;
    }
    for (place, byte) in changes {
        change(&mut message, place.saturating_add(40), *byte);
    }
    message.extend_from_slice(tail)?;
    Ok(message)
}

/// Puts this byte at this place, where there is one.
fn change(message: &mut [u8], place: usize, byte: u8) {
    if let Some(slot) = message.get_mut(place) {
        *slot = byte;
    }
}

/// INIT of version 7.8 with this byte at this place.
fn changed(place: usize, byte: u8) -> [u8; 104] {
    let mut bytes = INIT_7_8;
    change(&mut bytes, place, byte);
    bytes
}

/// INIT of this version.
fn init_of(alloc: Global, major: u8, minor: u8) -> Result<Vec<u8>, AllocError> {
    let mut message = request(alloc, head(1, 0, 0), false, &Asks(FUSE_INIT, 64, &[], b""))?;
    for (place, byte) in [(40, major), (44, minor), (49, 0x10)] {
        change(&mut message, place, byte);
    }
    Ok(message)
}

/// A LOOKUP of a name of this one byte.
fn lookup_of(alloc: Global, id: u64, name: u8) -> Result<Vec<u8>, AllocError> {
    let mut message = request(
        alloc,
        head(id, 1, 0),
        false,
        &Asks(FUSE_LOOKUP, 0, &[], b"x\0"),
    )?;
    change(&mut message, 40, name);
    Ok(message)
}

/// A READ of the node 2.
fn read_of(alloc: Global, id: u8, uid: u8, highest: u8, size: u32) -> Result<Vec<u8>, AllocError> {
    let header = head(id as u64, 2, uid);
    let mut message = request(alloc, header, false, &Asks(FUSE_READ, 40, &[], b""))?;
    change(&mut message, 55, highest);
    for (place, byte) in size.to_le_bytes().iter().enumerate() {
        change(&mut message, place.saturating_add(56), *byte);
    }
    Ok(message)
}

/// A POLL of this node.
fn poll_of(
    alloc: Global,
    id: u8,
    node: u8,
    handle: [u8; 2],
    flags: u8,
) -> Result<Vec<u8>, AllocError> {
    let header = head(id as u64, node, 0);
    let mut message = request(alloc, header, false, &Asks(FUSE_POLL, 24, &[], b""))?;
    for (place, byte) in [(48, handle[0]), (49, handle[1]), (56, flags)] {
        change(&mut message, place, byte);
    }
    Ok(message)
}

/// A message of 56 bytes of arguments, of user 5.
fn with_argument(
    alloc: Global,
    opcode: u32,
    id: u8,
    place: usize,
    byte: u8,
) -> Result<Vec<u8>, AllocError> {
    let header = head(id as u64, 2, 5);
    let mut message = request(alloc, header, false, &Asks(opcode, 56, &[(16, 16)], b""))?;
    change(&mut message, place, byte);
    Ok(message)
}

/// The bytes of what is given. Nothing and a fault have none.
pub fn message_of(alloc: Global, given: &Given) -> Result<Vec<u8>, AllocError> {
    match *given {
        Given::Opening => INIT_7_8.to_vec(alloc),
        Given::Cut(length) => INIT_7_8.get(..length).unwrap_or(&[]).to_vec(alloc),
        Given::Changed(place, byte) => changed(place, byte).to_vec(alloc),
        Given::Init(major, minor) => init_of(alloc, major, minor),
        Given::Asked(id, uid, asks) => request(alloc, head(id as u64, 2, uid), false, &asks),
        Given::Lookup(id, name) => lookup_of(alloc, id, name),
        Given::Read(id, uid, highest, size) => read_of(alloc, id, uid, highest, size),
        Given::Poll(id, node, handle, flags) => poll_of(alloc, id, node, handle, flags),
        Given::Argument(opcode, id, place, byte) => with_argument(alloc, opcode, id, place, byte),
        Given::Bytes(bytes) => bytes.to_vec(alloc),
        Given::Nothing | Given::Fault => Ok(Vec::new(alloc)),
    }
}

/// The turn that gives this.
fn turn(alloc: Global, given: &Given) -> Result<Turn, AllocError> {
    match given {
        Given::Nothing => Ok(Turn::Retry),
        Given::Fault => Ok(Turn::Fail),
        message => Ok(Turn::Message(Items::from_vec(message_of(alloc, message)?))),
    }
}

/// A source that gives this.
pub fn source_of(alloc: Global, given: &[Given]) -> Result<MemorySource, AllocError> {
    let mut turns = Vec::new(alloc);
    for next in given {
        turns.push(turn(alloc, next)?)?;
    }
    Ok(MemorySource::new(turns))
}

/// The reply to this request: this error, or 0, and this payload.
pub fn reply(alloc: Global, id: u64, errno: u8, payload: &[u8]) -> Result<Vec<u8>, AllocError> {
    let mut header = [0; 16];
    header[0] = payload.len().min(239) as u8 + 16;
    if errno > 0 {
        header[4..8].copy_from_slice(&[0u8.wrapping_sub(errno), 0xff, 0xff, 0xff]);
    }
    header[8..].copy_from_slice(&id.to_le_bytes());
    let mut frame = Vec::from_slice(alloc, &header)?;
    frame.extend_from_slice(payload)?;
    Ok(frame)
}

fn news(handle: [u8; 2]) -> [u8; 24] {
    let mut frame = [0; 24];
    frame[0] = 24;
    frame[4] = 1;
    frame[16] = handle[0];
    frame[17] = handle[1];
    frame
}

/// The bytes of a frame.
fn bytes_of(alloc: Global, frame: &Frame) -> Result<Vec<u8>, AllocError> {
    match *frame {
        Frame::Accepted => ACCEPTED.to_vec(alloc),
        Frame::Error(id, errno) => reply(alloc, id as u64, errno, &[]),
        Frame::Payload(id, payload) => reply(alloc, id as u64, 0, payload),
        Frame::News(handle) => news(handle).to_vec(alloc),
        Frame::Bytes(bytes) => bytes.to_vec(alloc),
    }
}

/// The bytes of these frames.
pub fn frames_of(alloc: Global, frames: &[Frame]) -> Result<Vec<Items<u8>>, AllocError> {
    let mut all = Vec::new(alloc);
    for frame in frames {
        all.push(Items::from_vec(bytes_of(alloc, frame)?))?;
    }
    Ok(all)
}

/// How many of these are this one.
fn times<T: PartialEq>(all: &[T], one: &T) -> usize {
    let mut times = 0usize;
    for other in all {
        times = times.saturating_add(usize::from(other == one));
    }
    times
}

/// The first place at which these are not what is expected: so many in this order, and then the others in any. None: they
/// are just these.
pub fn first_other<T: PartialEq>(found: &[T], expected: &[T], ordered: usize) -> Option<usize> {
    for (place, one) in expected.iter().enumerate() {
        let is_same = if place < ordered {
            found.get(place) == Some(one)
        } else {
            times(found, one) == times(expected, one)
        };
        if !is_same {
            return Some(place);
        }
    }
    if found.len() == expected.len() {
        None
    } else {
        Some(expected.len())
    }
}
