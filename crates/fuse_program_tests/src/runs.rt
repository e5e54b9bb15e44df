// Runs of the program over memory, and what they come to.
use crate::asserts::expect_same;
use fuse_program::{Served, serve};
use fuse_wire::{ByteRead, ByteSource, MemoryBytes, MemoryOut};
use std::process::Abort;
use std::sync::Wait;
use std::thread::Threads;

/// Bytes in parts.
pub(crate) type Parts = &'static [&'static [u8]];

/// Words of the program.
pub(crate) type Words = &'static [&'static [u8]];

const ALONE: Words = &[b"serve", b"1", b"all", b"0", b"4096"];

const ON_TWO: Words = &[b"serve", b"2", b"all", b"0", b"4096"];

/// The words that serve everybody on one thread, or on two.
pub(crate) fn words_for(is_alone: bool) -> Words {
    if is_alone { ALONE } else { ON_TWO }
}

/// These parts joined.
pub(crate) fn joined<R: AllocGlobal + Abort>(rt: &R, parts: &[&[u8]]) -> Vec<u8> {
    let mut bytes = Vec::new(rt.alloc());
    for part in parts {
        bytes.extend_from_slice(part).expect(rt, "there is memory");
    }
    bytes
}

/// What the program came to: its status, what it wrote, and what it left unread.
#[derive(Drop)]
pub(crate) struct Run {
    pub(crate) status: u8,
    pub(crate) written: Vec<u8>,
    pub(crate) unread: Vec<u8>,
}

/// What is left of the input.
fn rest_of<R: AllocGlobal + Abort>(rt: &R, input: &mut MemoryBytes) -> Vec<u8> {
    let mut rest = Vec::new(rt.alloc());
    for _ in 0..1000 {
        let mut piece = [0];
        if let ByteRead::Got(_) = input.read(&mut piece) {
            rest.push(piece[0]).expect(rt, "there is memory");
        }
    }
    rest
}

/// What was handed back.
fn left_of<R: AllocGlobal + Abort>(rt: &R, mut served: Served<MemoryBytes, MemoryOut>) -> Run {
    let written = served.output.bytes().to_vec(rt.alloc());
    let run = Run {
        status: served.status,
        written: written.expect(rt, "there is memory"),
        unread: rest_of(rt, &mut served.input),
    };
    drop(served);
    run
}

/// Runs the program by these words over these bytes, so many of which are read or written at a time, where these reads and
/// these writes fail.
pub(crate) fn run_over<R: Threads + Wait + AllocGlobal + Abort + Sync>(
    rt: &R,
    words: &[&[u8]],
    input: Vec<u8>,
    step: usize,
    reads: &[u64],
    writes: &[u64],
) -> Run {
    let alloc = rt.alloc();
    let step = step.max(1);
    let reads = reads.to_vec(alloc).expect(rt, "there is memory");
    let writes = writes.to_vec(alloc).expect(rt, "there is memory");
    let input = MemoryBytes::new(input, step, reads);
    left_of(
        rt,
        serve(rt, words, input, MemoryOut::new(alloc, step, writes)),
    )
}

/// A run came to this status, wrote these bytes, and left those unread.
pub(crate) fn ends_so(
    rt: &impl Abort,
    what: (&str, usize),
    run: &Run,
    status: u8,
    written: &[u8],
    unread: &[u8],
) {
    let found = (run.status, run.written.as_slice(), run.unread.as_slice());
    expect_same(rt, &(what, found), &(what, (status, written, unread)));
}
