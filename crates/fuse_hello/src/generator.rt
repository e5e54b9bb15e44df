// A stream of messages that a seed gives: an INIT, requests to the tree, and a DESTROY.
ghost use Rattle.std.specs.Prelude.{◌≡◌, ◌+◌, ◌*◌, ◌%◌, ◌^◌, ◌≤◌, ◌++◌, length, take, codes, replicate, IfOk};
ghost use Rattle.std.specs.Int.{w32, w64, to_le_bytes};
ghost use Rattle.std.specs.List.{concat};
ghost use Rattle.fuse_wire.specs.StreamSink.{WritesAll};
ghost use Rattle.fuse_hello.specs.Generated.{destroy_message, init_message, init_body, generated_message, read_body, write_body};
ghost use Rattle.fuse_hello.specs.Generated.{generated_request, stream};

use fuse_request::opcode::{
    FUSE_DESTROY, FUSE_FORGET, FUSE_GETATTR, FUSE_INIT, FUSE_LOOKUP, FUSE_READ, FUSE_READDIR,
    FUSE_WRITE,
};
use fuse_wire::consts::{
    BUFFER_SIZE, FUSE_KERNEL_MINOR_VERSION, FUSE_KERNEL_VERSION, REQUEST_HEADER_SIZE,
};
use fuse_wire::{ByteSink, write_all};
use std::alloc::{AllocError, Global};
use std::marker::Model;

/// How many bytes the longest message has, which is INIT.
const LONGEST: usize = 104;

/// The readahead that INIT offers.
const READAHEAD: u32 = 131072;

/// An opcode that names no operation.
const NO_OPERATION: u32 = 7;

/// A message, in a piece of memory of fixed size. A contract sees its bytes.
#[derive(Drop)]
pub(crate) struct Message {
    bytes: [u8; LONGEST],
    size: usize,
}

impl Model for Message {
    ghost use Rattle.std.specs.Prelude.{◌≤◌, ℕ, List, take};
    ghost use Rattle.fuse_hello.specs.declared.generator.TheConstants.{LONGEST};

    ghost Value = { List ℕ };

    ghost view = { λ m. take m.size m.bytes };

    ghost invariant = { λ m. m.size ≤ LONGEST };
}

impl Message {
    /// The message of this opcode, id, node and body. Whoever asks is 0.
    #[tactic(auto, unfolding(crate::specs::Generated::generated_message))]
    fn new(opcode: u32, id: u64, node: u64, body: &[u8]) -> Message
        requires { length body.now ≤ 64 }
        ensures { result ≡ generated_message opcode id node body.now }
    {
        let size = REQUEST_HEADER_SIZE + body.len();
        let mut bytes = [0; LONGEST];
        put_at(&mut bytes, 0, &header_bytes(size as u32, opcode, id, node));
        put_at(&mut bytes, REQUEST_HEADER_SIZE, body);
        Message { bytes, size }
    }

    /// Copies the message to the front of a receive buffer, and says how long it is. The bytes that no message fills are
    /// copied too: a copy of fixed size costs less than one of just the message.
    pub(crate) fn put(&self, buffer: &mut [u8]) -> usize
        requires { length buffer.old ≡ BUFFER_SIZE }
        ensures whole { result ≡ length self.now }
        ensures short { result ≤ LONGEST }
        ensures front { take result buffer.new ≡ self.now }
    {
        buffer[..LONGEST].copy_from_slice(&self.bytes);
        self.size
    }

    /// Writes the message, or says that a write failed.
    fn write<O: ByteSink>(&self, output: &mut O) -> bool
        ensures { WritesAll result self.now (O.told output.old) (O.told output.new) }
    {
        write_all(output, &self.bytes[..self.size])
    }
}

/// The header of a message of this size.
fn header_bytes(size: u32, opcode: u32, id: u64, node: u64) -> [u8; REQUEST_HEADER_SIZE]
    ensures { result ≡ to_le_bytes w32 size ++ to_le_bytes w32 opcode ++ to_le_bytes w64 id ++ to_le_bytes w64 node
        ++ replicate 16 0 }
{
    let [s0, s1, s2, s3] = size.to_le_bytes();
    let [o0, o1, o2, o3] = opcode.to_le_bytes();
    let [i0, i1, i2, i3, i4, i5, i6, i7] = id.to_le_bytes();
    let [n0, n1, n2, n3, n4, n5, n6, n7] = node.to_le_bytes();
    [
        s0, s1, s2, s3, o0, o1, o2, o3, i0, i1, i2, i3, i4, i5, i6, i7, n0, n1, n2, n3, n4, n5, n6,
        n7, 0, 0, 0, 0, 0, 0, 0, 0, 0, 0, 0, 0, 0, 0, 0, 0,
    ]
}

/// Puts bytes into an array, from a place on.
fn put_at(array: &mut [u8; LONGEST], at: usize, bytes: &[u8])
    requires { at + length bytes.now ≤ LONGEST }
    ensures { take (at + length bytes.now) array.new ≡ take at array.old ++ bytes.now }
{
    array[at..at + bytes.len()].copy_from_slice(bytes);
}

#[tactic(auto, unfolding(crate::specs::Generated::init_body))]
/// The body of INIT: `struct fuse_init_in`, with no flags.
fn init_bytes(major: u32, minor: u32, max_readahead: u32) -> [u8; 64]
    ensures { result ≡ init_body major minor max_readahead }
{
    let [j0, j1, j2, j3] = major.to_le_bytes();
    let [n0, n1, n2, n3] = minor.to_le_bytes();
    let [r0, r1, r2, r3] = max_readahead.to_le_bytes();
    [
        j0, j1, j2, j3, n0, n1, n2, n3, r0, r1, r2, r3, 0, 0, 0, 0, 0, 0, 0, 0, 0, 0, 0, 0, 0, 0,
        0, 0, 0, 0, 0, 0, 0, 0, 0, 0, 0, 0, 0, 0, 0, 0, 0, 0, 0, 0, 0, 0, 0, 0, 0, 0, 0, 0, 0, 0,
        0, 0, 0, 0, 0, 0, 0, 0,
    ]
}

/// The body of READ and READDIR: `struct fuse_read_in`.
#[tactic(auto, unfolding(crate::specs::Generated::read_body))]
fn read_bytes(offset: u64, size: u32) -> [u8; 40]
    ensures { result ≡ read_body offset size }
{
    let [o0, o1, o2, o3, o4, o5, o6, o7] = offset.to_le_bytes();
    let [s0, s1, s2, s3] = size.to_le_bytes();
    [
        0, 0, 0, 0, 0, 0, 0, 0, o0, o1, o2, o3, o4, o5, o6, o7, s0, s1, s2, s3, 0, 0, 0, 0, 0, 0,
        0, 0, 0, 0, 0, 0, 0, 0, 0, 0, 0, 0, 0, 0,
    ]
}

/// The body of WRITE, which writes `hello`: `struct fuse_write_in`, and these bytes.
#[tactic(auto, unfolding(crate::specs::Generated::write_body))]
fn write_bytes() -> [u8; 45]
    ensures { result ≡ write_body (codes "hello") }
{
    let [h, e, l, m, o] = *b"hello";
    [
        0, 0, 0, 0, 0, 0, 0, 0, 0, 0, 0, 0, 0, 0, 0, 0, 5, 0, 0, 0, 0, 0, 0, 0, 0, 0, 0, 0, 0, 0,
        0, 0, 0, 0, 0, 0, 0, 0, 0, 0, h, e, l, m, o,
    ]
}

/// The message that opens the stream.
fn init_message() -> Message
    ensures { result ≡ init_message }
{
    let body = init_bytes(FUSE_KERNEL_VERSION, FUSE_KERNEL_MINOR_VERSION, READAHEAD);
    Message::new(FUSE_INIT, 1, 0, &body)
}

/// The request of this id that this `x` gives.
fn request(id: u64, x: u32) -> Message
    ensures { result ≡ generated_request id x }
{
    let v = x / 65536;
    let w = u64::from(v / 8);
    match v % 8 {
        0 => Message::new(FUSE_LOOKUP, id, 1, b"hello.txt\0"),
        1 => Message::new(FUSE_LOOKUP, id, 1, b"none\0"),
        2 => Message::new(FUSE_GETATTR, id, 1 + w % 4, &[0; 16]),
        3 => Message::new(FUSE_READ, id, 3, &read_bytes(w % 256, 100)),
        4 => Message::new(FUSE_READDIR, id, 1, &read_bytes(0, 4096)),
        5 => Message::new(FUSE_FORGET, id, 2, &1u64.to_le_bytes()),
        6 => Message::new(FUSE_WRITE, id, 2, &write_bytes()),
        _ => Message::new(NO_OPERATION, id, 1, &[]),
    }
}

/// The message that ends the stream.
fn destroy_message(id: u64) -> Message
    ensures { result ≡ destroy_message id }
{
    Message::new(FUSE_DESTROY, id, 0, &[])
}

/// The `x` of the next request.
fn next(x: u32) -> u32
    ensures { result ≡ (x * 1103515245 + 12345) % 2 ^ 31 }
{
    ((u64::from(x) * 1_103_515_245 + 12_345) % 0x8000_0000) as u32
}

/// The same messages in memory, all of which is taken at once.
pub(crate) fn stored_stream(
    alloc: Global,
    seed: u32,
    count: u32,
) -> Result<Vec<Message>, AllocError>
    ensures { IfOk result (λ messages. messages.items ≡ stream seed count) }
{
    let mut messages = Vec::with_capacity(alloc, count as usize + 2)?;
    messages.push(init_message())?;
    let mut x = seed;
    for place in 0..count {
        x = next(x);
        messages.push(request(u64::from(place) + 2, x))?;
    }
    messages.push(destroy_message(u64::from(count) + 2))?;
    Ok(messages)
}

/// Writes the stream of so many requests that the seed gives, or says that a write failed.
pub fn write_stream<O: ByteSink>(output: &mut O, seed: u32, count: u32) -> bool
    ensures { WritesAll result (concat (stream seed count)) (O.told output.old) (O.told output.new) }
{
    if !init_message().write(output) {
        return false;
    }
    let mut x = seed;
    for place in 0..count {
        x = next(x);
        if !request(u64::from(place) + 2, x).write(output) {
            return false;
        }
    }
    destroy_message(u64::from(count) + 2).write(output)
}
