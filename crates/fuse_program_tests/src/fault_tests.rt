// Runs whose output fails, and what they hand back.
use crate::runs::{Parts, Words, ends_so, joined, run_over, words_for};
use std::process::Abort;
use std::sync::Wait;
use std::thread::Threads;

/// The front of an INIT with the id 1.
const FRONT: &[u8; 40] =
    b"\x68\0\0\0\x1a\0\0\0\x01\0\0\0\0\0\0\0\0\0\0\0\0\0\0\0\0\0\0\0\0\0\0\0\0\0\0\0\0\0\0\0";

/// Its end: version 7.8 with a readahead of 4096, or version 7.5.
const NEW: &[u8; 16] = b"\x07\0\0\0\x08\0\0\0\0\x10\0\0\0\0\0\0";

const OLD: &[u8; 16] = b"\x07\0\0\0\x05\0\0\0\0\x10\0\0\0\0\0\0";

const ZEROS: &[u8; 48] = &[0; 48];

/// A header with a length field of 39.
const SHORT_LENGTH: &[u8; 40] =
    b"\x27\0\0\0\x1a\0\0\0\x01\0\0\0\0\0\0\0\0\0\0\0\0\0\0\0\0\0\0\0\0\0\0\0\0\0\0\0\0\0\0\0";

/// A DESTROY with the id 2.
const DESTROY: &[u8; 40] =
    b"\x28\0\0\0\x26\0\0\0\x02\0\0\0\0\0\0\0\0\0\0\0\0\0\0\0\0\0\0\0\0\0\0\0\0\0\0\0\0\0\0\0";

/// A LOOKUP of a name that is not there, with the id 2, and with the id 3.
const LOOKUP: &[u8; 45] =
    b"\x2d\0\0\0\x01\0\0\0\x02\0\0\0\0\0\0\0\x01\0\0\0\0\0\0\0\0\0\0\0\0\0\0\0\0\0\0\0\0\0\0\0none\0";

const NEXT_LOOKUP: &[u8; 45] =
    b"\x2d\0\0\0\x01\0\0\0\x03\0\0\0\0\0\0\0\x01\0\0\0\0\0\0\0\0\0\0\0\0\0\0\0\0\0\0\0\0\0\0\0none\0";

/// The header of the reply to the newer INIT, and the reply.
const HEADER: &[u8; 16] = b"\x28\0\0\0\0\0\0\0\x01\0\0\0\0\0\0\0";

const REPLY: &[u8; 40] =
    b"\x28\0\0\0\0\0\0\0\x01\0\0\0\0\0\0\0\x07\0\0\0\x28\0\0\0\0\x10\0\0\0\0\0\0\x10\0\x0c\0\0\0\0\x01";

/// An input, how many bytes are read or written at a time, the write that fails, or 0, the status, the parts of what was
/// written, and what was left unread.
type Row = (Parts, usize, u64, u8, Parts, &'static [u8]);

const SERVED: &[Row] = &[
    // the status is that of the session's error, though a write failed too
    (&[FRONT, OLD, ZEROS], 1000, 1, 5, &[], b""),
    (
        &[FRONT, NEW, ZEROS, LOOKUP, b"twenty bytes, and so"],
        1000,
        3,
        4,
        &[REPLY],
        b"",
    ),
    // all after a failed write is lost, and a frame may be torn behind its header
    (
        &[FRONT, NEW, ZEROS, LOOKUP, NEXT_LOOKUP],
        1000,
        3,
        8,
        &[REPLY],
        b"",
    ),
    (&[FRONT, NEW, ZEROS], 7, 4, 8, &[HEADER], b""),
    // DESTROY, a length below the header's, and a short header: what comes after the last message is unread
    (
        &[FRONT, NEW, ZEROS, DESTROY, b"what comes after it"],
        7,
        0,
        0,
        &[REPLY, b"\x10\0\0\0\0\0\0\0\x02\0\0\0\0\0\0\0"],
        b"what comes after it",
    ),
    (&[SHORT_LENGTH, b"the rest"], 7, 0, 4, &[], b"the rest"),
    (
        &[FRONT, NEW, ZEROS, b"twenty bytes, and so"],
        7,
        0,
        4,
        &[REPLY],
        b"",
    ),
];

/// The same, written once: a constant stands anew in each function that names it.
fn served() -> &'static [Row] {
    SERVED
}

/// The program so run goes as the row of this place says.
fn goes<R: Threads + Wait + AllocGlobal + Abort + Sync>(
    rt: &R,
    what: (&str, usize),
    words: Words,
    row: &Row,
) {
    let (parts, step, write, status, written, unread) = *row;
    let run = run_over(rt, words, joined(rt, parts), step, &[], &[write]);
    ends_so(rt, what, &run, status, &joined(rt, written), unread);
}

#[test]
fn a_session_hands_back_what_it_did_not_read(rt: HostRuntime) {
    for (place, row) in served().iter().enumerate() {
        goes(&rt, ("alone", place), words_for(true), row);
        goes(&rt, ("on two", place), words_for(false), row);
    }
}

/// The line of `load 1 5 1`.
const LINE: Parts = &[b"messages 7 frames 7 notes 0 errors 3 bytes 335\n"];

/// A write of the line may fail. The input is not read.
const LOADED: &[Row] = &[
    (&[b"input"], 1000, 1, 8, &[], b"input"),
    (&[b"input"], 5, 3, 8, &[b"messages 7"], b"input"),
    (&[b"input"], 1000, 2, 0, LINE, b"input"),
    (&[b"input"], 1, 0, 0, LINE, b"input"),
];

/// The words of that.
const LOAD: Words = &[b"load", b"1", b"5", b"1"];

#[test]
fn a_write_of_the_line_may_fail(rt: HostRuntime) {
    for (place, row) in LOADED.iter().enumerate() {
        goes(&rt, ("load", place), LOAD, row);
    }
}
