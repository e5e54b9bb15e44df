// What `gen 1 5` writes, and what a session answers to it.
use crate::runs::{Parts, joined};
use std::process::Abort;

/// The end of a header, where nobody asks.
const NOBODY: &[u8; 16] = &[0; 16];

/// The end of the fields of READ and WRITE.
const NO_FLAGS: &[u8; 20] = &[0; 20];

/// INIT of version 7.40 with a readahead of 128 KiB, WRITE, WRITE, LOOKUP of `none`, READ at 141 and READ at 41, and DESTROY,
/// with the ids 1 to 7.
const STREAM: Parts = &[
    b"\x68\0\0\0\x1a\0\0\0\x01\0\0\0\0\0\0\0\0\0\0\0\0\0\0\0",
    NOBODY,
    b"\x07\0\0\0\x28\0\0\0\0\0\x02\0",
    &[0; 52],
    b"\x55\0\0\0\x10\0\0\0\x02\0\0\0\0\0\0\0\x02\0\0\0\0\0\0\0",
    NOBODY,
    b"\0\0\0\0\0\0\0\0\0\0\0\0\0\0\0\0\x05\0\0\0",
    NO_FLAGS,
    b"hello",
    b"\x55\0\0\0\x10\0\0\0\x03\0\0\0\0\0\0\0\x02\0\0\0\0\0\0\0",
    NOBODY,
    b"\0\0\0\0\0\0\0\0\0\0\0\0\0\0\0\0\x05\0\0\0",
    NO_FLAGS,
    b"hello",
    b"\x2d\0\0\0\x01\0\0\0\x04\0\0\0\0\0\0\0\x01\0\0\0\0\0\0\0",
    NOBODY,
    b"none\0",
    b"\x50\0\0\0\x0f\0\0\0\x05\0\0\0\0\0\0\0\x03\0\0\0\0\0\0\0",
    NOBODY,
    b"\0\0\0\0\0\0\0\0\x8d\0\0\0\0\0\0\0\x64\0\0\0",
    NO_FLAGS,
    b"\x50\0\0\0\x0f\0\0\0\x06\0\0\0\0\0\0\0\x03\0\0\0\0\0\0\0",
    NOBODY,
    b"\0\0\0\0\0\0\0\0\x29\0\0\0\0\0\0\0\x64\0\0\0",
    NO_FLAGS,
    b"\x28\0\0\0\x26\0\0\0\x07\0\0\0\0\0\0\0\0\0\0\0\0\0\0\0",
    NOBODY,
];

/// The replies to them: to INIT, thrice an error, the numbers from 141 to 199 and from 41 to 140, and to DESTROY. Behind each
/// piece stand the numbers from the one up to the other.
const ANSWERS: &[(&[u8], u8, u8)] = &[
    (
        b"\x50\0\0\0\0\0\0\0\x01\0\0\0\0\0\0\0\x07\0\0\0\x28\0\0\0\0\0\x02\0\0\0\0\0\x10\0\x0c\0\0\0\0\x01\x01\0\0\0\0\x10\0\0",
        0,
        0,
    ),
    (&[0; 32], 0, 0),
    (b"\x10\0\0\0\xda\xff\xff\xff\x02\0\0\0\0\0\0\0", 0, 0),
    (b"\x10\0\0\0\xda\xff\xff\xff\x03\0\0\0\0\0\0\0", 0, 0),
    (b"\x10\0\0\0\xfe\xff\xff\xff\x04\0\0\0\0\0\0\0", 0, 0),
    (b"\x4b\0\0\0\0\0\0\0\x05\0\0\0\0\0\0\0", 141, 200),
    (b"\x74\0\0\0\0\0\0\0\x06\0\0\0\0\0\0\0", 41, 141),
    (b"\x10\0\0\0\0\0\0\0\x07\0\0\0\0\0\0\0", 0, 0),
];

/// Where each message ends in the stream, and where its reply ends.
const ENDS: &[(usize, usize)] = &[
    (104, 80),
    (189, 96),
    (274, 112),
    (319, 128),
    (399, 203),
    (479, 319),
    (519, 335),
];

/// The same, written once: a constant stands anew in each function that names it.
pub(crate) fn ends() -> &'static [(usize, usize)] {
    ENDS
}

/// The bytes that `gen 1 5` writes.
pub(crate) fn five_requests<R: AllocGlobal + Abort>(rt: &R) -> Vec<u8> {
    joined(rt, STREAM)
}

/// The bytes of the replies to them.
pub(crate) fn answers<R: AllocGlobal + Abort>(rt: &R) -> Vec<u8> {
    let mut bytes = Vec::new(rt.alloc());
    for (piece, first, after) in ANSWERS {
        bytes.extend_from_slice(piece).expect(rt, "there is memory");
        for number in *first..*after {
            bytes.push(number).expect(rt, "there is memory");
        }
    }
    bytes
}
