// What a kernel sends that is wrong, or at the edge of it, to the tree: one row for each, from memory to memory.
use crate::asserts::expect_same;
use fuse_config::{Config, SessionACL};
use fuse_header::RequestError;
use fuse_header::opcode::{
    CUSE_INIT, FUSE_BATCH_FORGET, FUSE_COPY_FILE_RANGE, FUSE_FALLOCATE, FUSE_FORGET, FUSE_INIT,
    FUSE_INTERRUPT, FUSE_IOCTL, FUSE_LOOKUP, FUSE_LSEEK, FUSE_READ, FUSE_RENAME, FUSE_SETXATTR,
    FUSE_SYMLINK, FUSE_WRITE,
};
use fuse_hello::Hello;
use fuse_session::{InvalidData, SessionError, mount};
use fuse_testing::test_messages::{
    Asks, EACCES, EINVAL, EIO, ENOSYS, Frame, Given, first_other, frames_of, source_of,
};
use fuse_wire::{MemorySink, RequestId};
use std::process::Abort;
use std::sync::Wait;
use std::thread::Threads;

/// What a message gets, whose id is 2.
#[derive(Clone, Copy)]
enum Gets {
    /// This error.
    Error(u8),
    /// These bytes, in a frame of status 0.
    Payload(&'static [u8]),
    /// A note with this mark, and no frame.
    Note(u64),
    /// No frame. It ends the session, since it has 48 bytes and its header counts 4294967295.
    Short,
}

/// A message after INIT, in a session of root: what it is, whose requests are served, and what it gets.
#[derive(Clone, Copy)]
struct Row(&'static str, SessionACL, Given, Gets);

use Gets::{Error, Note, Payload, Short};
use SessionACL::{All, Owner};

/// A GETATTR of node 2 of 56 bytes, and 44 behind those that its header counts.
const LONGER: &[u8] =
    b"\x38\0\0\0\x03\0\0\0\x02\0\0\0\0\0\0\0\x02\0\0\0\0\0\0\0\0\0\0\0\0\0\0\0\0\0\0\0\0\0\0\0\0\0\0\0\0\0\0\0\0\0\0\0\0\0\0\0\x07\x07\x07\x07\x07\x07\x07\x07\x07\x07\x07\x07\x07\x07\x07\x07\x07\x07\x07\x07\x07\x07\x07\x07\x07\x07\x07\x07\x07\x07\x07\x07\x07\x07\x07\x07\x07\x07\x07\x07\x07\x07\x07\x07";

/// The attributes of `hello.txt`, which hold for a second: `struct fuse_attr_out`.
const ATTRIBUTES: &[u8] =
    b"\x01\0\0\0\0\0\0\0\0\0\0\0\0\0\0\0\x02\0\0\0\0\0\0\0\x0d\0\0\0\0\0\0\0\x01\0\0\0\0\0\0\0\0\0\0\0\0\0\0\0\0\0\0\0\0\0\0\0\0\0\0\0\0\0\0\0\0\0\0\0\0\0\0\0\0\0\0\0\xa4\x81\0\0\x01\0\0\0\0\0\0\0\0\0\0\0\0\0\0\0\0\x02\0\0\0\0\0\0";

/// A READDIR of the root, of 80 bytes, with the size 0.
const NO_ROOM: &[u8] =
    b"\x50\0\0\0\x1c\0\0\0\x02\0\0\0\0\0\0\0\x01\0\0\0\0\0\0\0\0\0\0\0\0\0\0\0\0\0\0\0\0\0\0\0\0\0\0\0\0\0\0\0\0\0\0\0\0\0\0\0\0\0\0\0\0\0\0\0\0\0\0\0\0\0\0\0\0\0\0\0\0\0\0\0";

/// A GETATTR of 48 bytes whose header counts 4294967295.
const SHORTER: &[u8] =
    b"\xff\xff\xff\xff\x03\0\0\0\x02\0\0\0\0\0\0\0\x02\0\0\0\0\0\0\0\0\0\0\0\0\0\0\0\0\0\0\0\0\0\0\0\0\0\0\0\0\0\0\0";

/// What is cut short, or says two things.
const CUT: &[Row] = &[
    Row(
        "a name without an end",
        All,
        Given::Asked(2, 0, Asks(FUSE_LOOKUP, 0, &[], b"ab")),
        Error(ENOSYS),
    ),
    Row(
        "no name",
        All,
        Given::Asked(2, 0, Asks(FUSE_LOOKUP, 0, &[], b"")),
        Error(ENOSYS),
    ),
    Row(
        "the second of two names is missing",
        All,
        Given::Asked(2, 0, Asks(FUSE_RENAME, 8, &[], b"a\0")),
        Error(ENOSYS),
    ),
    Row(
        "a link without a target",
        All,
        Given::Asked(2, 0, Asks(FUSE_SYMLINK, 0, &[], b"a\0")),
        Error(ENOSYS),
    ),
    Row(
        "two forgets, of which one is there",
        All,
        Given::Asked(2, 0, Asks(FUSE_BATCH_FORGET, 24, &[(0, 2)], b"")),
        Error(ENOSYS),
    ),
    Row(
        "2^32 - 1 forgets, of which none is there",
        All,
        Given::Asked(
            2,
            0,
            Asks(
                FUSE_BATCH_FORGET,
                8,
                &[(0, 0xff), (1, 0xff), (2, 0xff), (3, 0xff)],
                b"",
            ),
        ),
        Error(ENOSYS),
    ),
    Row(
        "two forgets, the second a byte too short",
        All,
        Given::Asked(2, 0, Asks(FUSE_BATCH_FORGET, 39, &[(0, 2)], b"")),
        Error(ENOSYS),
    ),
    Row(
        "a forget of 7 bytes",
        All,
        Given::Asked(2, 5, Asks(FUSE_FORGET, 7, &[(0, 1)], b"")),
        Error(ENOSYS),
    ),
    Row(
        "a value of 2 bytes that has to have 3",
        All,
        Given::Asked(2, 0, Asks(FUSE_SETXATTR, 8, &[(0, 3)], b"n\0ab")),
        Error(ENOSYS),
    ),
    Row(
        "a value of 4 bytes that has to have 3",
        All,
        Given::Asked(2, 0, Asks(FUSE_SETXATTR, 8, &[(0, 3)], b"n\0abcd")),
        Error(ENOSYS),
    ),
    Row(
        "4 bytes to write that have to be 5",
        All,
        Given::Asked(2, 0, Asks(FUSE_WRITE, 40, &[(16, 5)], b"hell")),
        Error(ENOSYS),
    ),
    Row(
        "4 bytes of an IOCTL that has 5",
        All,
        Given::Asked(2, 0, Asks(FUSE_IOCTL, 32, &[(24, 5)], b"abcd")),
        Error(ENOSYS),
    ),
    Row(
        "another INIT of 15 bytes",
        Owner,
        Given::Asked(2, 5, Asks(FUSE_INIT, 15, &[(0, 7)], b"")),
        Error(ENOSYS),
    ),
    Row(
        "CUSE_INIT of 63 bytes",
        All,
        Given::Asked(2, 0, Asks(CUSE_INIT, 63, &[], b"")),
        Error(ENOSYS),
    ),
    Row(
        "a length beyond the message",
        All,
        Given::Bytes(SHORTER),
        Short,
    ),
];

/// What is at the edge.
const EDGES: &[Row] = &[
    Row(
        "no forgets",
        All,
        Given::Asked(2, 0, Asks(FUSE_BATCH_FORGET, 8, &[], b"")),
        Note(0),
    ),
    Row(
        "two forgets of whoever is not served",
        Owner,
        Given::Asked(
            2,
            5,
            Asks(
                FUSE_BATCH_FORGET,
                40,
                &[(0, 2), (8, 2), (16, 1), (24, 3), (32, 4)],
                b"",
            ),
        ),
        Note(2),
    ),
    Row(
        "a forget of whoever is not served",
        Owner,
        Given::Asked(2, 5, Asks(FUSE_FORGET, 8, &[(0, 1)], b"")),
        Note(1),
    ),
    Row(
        "5 bytes of an IOCTL that has 4",
        All,
        Given::Asked(2, 0, Asks(FUSE_IOCTL, 32, &[(24, 4)], b"abcde")),
        Error(ENOSYS),
    ),
    Row(
        "an IOCTL that is not restricted, of whoever is not served",
        Owner,
        Given::Asked(2, 5, Asks(FUSE_IOCTL, 32, &[(8, 2)], b"")),
        Error(EACCES),
    ),
    Row(
        "an IOCTL that is not restricted, of the owner",
        Owner,
        Given::Asked(2, 0, Asks(FUSE_IOCTL, 32, &[(8, 2)], b"")),
        Error(ENOSYS),
    ),
    Row(
        "a READ at the last offset that there is",
        All,
        Given::Asked(
            2,
            0,
            Asks(
                FUSE_READ,
                40,
                &[
                    (8, 0xff),
                    (9, 0xff),
                    (10, 0xff),
                    (11, 0xff),
                    (12, 0xff),
                    (13, 0xff),
                    (14, 0xff),
                    (15, 0x7f),
                    (16, 100),
                ],
                b"",
            ),
        ),
        Payload(b""),
    ),
    Row(
        "a length in no file",
        All,
        Given::Asked(2, 0, Asks(FUSE_FALLOCATE, 32, &[(23, 0x80)], b"")),
        Error(EINVAL),
    ),
    Row(
        "an offset of -1",
        All,
        Given::Asked(
            2,
            0,
            Asks(
                FUSE_COPY_FILE_RANGE,
                56,
                &[
                    (8, 0xff),
                    (9, 0xff),
                    (10, 0xff),
                    (11, 0xff),
                    (12, 0xff),
                    (13, 0xff),
                    (14, 0xff),
                    (15, 0xff),
                ],
                b"",
            ),
        ),
        Error(EINVAL),
    ),
    Row(
        "an LSEEK to -1",
        All,
        Given::Asked(2, 0, Asks(FUSE_LSEEK, 24, &[(15, 0xff)], b"")),
        Error(ENOSYS),
    ),
    Row(
        "another INIT",
        Owner,
        Given::Asked(2, 5, Asks(FUSE_INIT, 64, &[(0, 7), (4, 40)], b"")),
        Error(EIO),
    ),
    Row(
        "an INTERRUPT of whoever is not served",
        Owner,
        Given::Asked(2, 5, Asks(FUSE_INTERRUPT, 8, &[], b"")),
        Error(EACCES),
    ),
    Row(
        "an INTERRUPT of the owner",
        Owner,
        Given::Asked(2, 0, Asks(FUSE_INTERRUPT, 8, &[], b"")),
        Error(ENOSYS),
    ),
    Row(
        "CUSE_INIT",
        All,
        Given::Asked(2, 0, Asks(CUSE_INIT, 64, &[], b"")),
        Error(ENOSYS),
    ),
    Row(
        "a message of 100 bytes, of which its header counts 56",
        All,
        Given::Bytes(LONGER),
        Payload(ATTRIBUTES),
    ),
    Row(
        "entries for which there is no room",
        All,
        Given::Bytes(NO_ROOM),
        Payload(b""),
    ),
];

/// The frames, the notes and the outcome that this comes to.
fn expected(
    gets: Gets,
) -> (
    [Option<Frame>; 2],
    Option<(RequestId, u64)>,
    Result<(), SessionError>,
) {
    let opened = Some(Frame::Accepted);
    match gets {
        Error(errno) => ([opened, Some(Frame::Error(2, errno))], None, Ok(())),
        Payload(payload) => ([opened, Some(Frame::Payload(2, payload))], None, Ok(())),
        Note(mark) => ([opened, None], Some((RequestId(2), mark)), Ok(())),
        Short => {
            let error = RequestError::ShortRead(48, 4294967295);
            let invalid = InvalidData::Header(error);
            (
                [opened, None],
                None,
                Err(SessionError::InvalidData(invalid)),
            )
        }
    }
}

/// Serves the message of this row after INIT on so many threads: it gets what the row says.
fn goes<R: Threads + Wait + AllocGlobal + Abort + Sync>(rt: &R, row: &Row, n_threads: usize) {
    let Row(what, acl, given, gets) = *row;
    let alloc = rt.alloc();
    let mut config = Config::new(alloc);
    config.acl = acl;
    config.n_threads = Some(n_threads);
    let source = source_of(alloc, &[Given::Opening, given]).expect(rt, "there is memory");
    let sink = MemorySink::new(alloc, Vec::new(alloc));
    let over = mount(rt, Hello, source, sink, 0, 4096, &config);
    let (frames, note, outcome) = expected(gets);
    let mut wanted = Vec::new(alloc);
    for frame in frames.into_iter().flatten() {
        wanted.push(frame).expect(rt, "there is memory");
    }
    let frames = frames_of(alloc, &wanted).expect(rt, "there is memory");
    let found = (
        over.outcome,
        over.transcript.received,
        first_other(over.sink.frames(), &frames, 2),
        over.sink.notes().first().copied(),
    );
    expect_same(rt, &(what, found), &(what, (outcome, 2, None, note)));
    drop(over);
}

#[test]
fn what_is_cut_short_gets_its_error(rt: HostRuntime) {
    for row in CUT {
        goes(&rt, row, 1);
        goes(&rt, row, 2);
    }
}

#[test]
fn what_is_at_the_edge_is_answered(rt: HostRuntime) {
    for row in EDGES {
        goes(&rt, row, 1);
        goes(&rt, row, 2);
    }
}
