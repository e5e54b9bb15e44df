// SETXATTR, whose fixed part is as long as the handshake says.
use crate::asserts::{expect_same, frames_of, source_of};
use crate::recording::{Recorded, Recording};
use bitflags::Flags;
use fuse_config::{Config, SessionACL};
use fuse_request::opcode::{FUSE_INIT, FUSE_SETXATTR};
use fuse_session::{Ended, mount};
use fuse_testing::test_messages::{Asks, ENOSYS, Frame, Given, first_other};
use fuse_testing::{Argument, Probing};
use fuse_wire::{InitFlags, MemorySink, MemorySource};
use std::process::Abort;
use std::sync::Wait;
use std::thread::Threads;

/// INIT of version 7.40 with the id 1, a readahead of 131072 bytes, and ASYNC_READ, BIG_WRITES and SETXATTR_EXT.
const OFFERS: Given = Given::Asked(
    1,
    0,
    Asks(
        FUSE_INIT,
        64,
        &[(0, 7), (4, 40), (10, 2), (12, 0x21), (15, 0x20)],
        b"",
    ),
);

/// Its reply, where all three are granted.
const GRANTS: &[u8; 80] = &[
    0x50, 0, 0, 0, 0, 0, 0, 0, 1, 0, 0, 0, 0, 0, 0, 0, 7, 0, 0, 0, 0x28, 0, 0, 0, 0, 0, 2, 0, 0x21,
    0, 0, 0x20, 0x10, 0, 0x0c, 0, 0, 0, 0, 1, 1, 0, 0, 0, 0, 0x10, 0, 0, 0, 0, 0, 0, 0, 0, 0, 0, 0,
    0, 0, 0, 0, 0, 0, 0, 0, 0, 0, 0, 0, 0, 0, 0, 0, 0, 0, 0, 0, 0, 0, 0,
];

/// Its reply, where SETXATTR_EXT is not granted.
const WITHHOLDS: &[u8; 80] = &[
    0x50, 0, 0, 0, 0, 0, 0, 0, 1, 0, 0, 0, 0, 0, 0, 0, 7, 0, 0, 0, 0x28, 0, 0, 0, 0, 0, 2, 0, 0x21,
    0, 0, 0, 0x10, 0, 0x0c, 0, 0, 0, 0, 1, 1, 0, 0, 0, 0, 0x10, 0, 0, 0, 0, 0, 0, 0, 0, 0, 0, 0, 0,
    0, 0, 0, 0, 0, 0, 0, 0, 0, 0, 0, 0, 0, 0, 0, 0, 0, 0, 0, 0, 0, 0,
];

/// A SETXATTR of 3 bytes with `setxattr_flags` of 1, and one without.
const LONG: Asks = Asks(FUSE_SETXATTR, 16, &[(0, 3), (8, 1)], b"n\0abc");

const SHORT: Asks = Asks(FUSE_SETXATTR, 8, &[(0, 3)], b"n\0abc");

/// A session over a filesystem that asks for SETXATTR_EXT, or for nothing: its INIT and the reply to it, and a SETXATTR
/// with the `setxattr_flags` by which that reaches the filesystem, or None where it does not decode.
#[derive(Clone, Copy)]
struct Row {
    what: &'static str,
    asks_for: bool,
    opening: Given,
    opened: Frame,
    setxattr: Asks,
    reached: Option<i128>,
}

const ROWS: &[Row] = &[
    Row {
        what: "a long one where it was granted",
        asks_for: true,
        opening: OFFERS,
        opened: Frame::Bytes(GRANTS),
        setxattr: LONG,
        reached: Some(1),
    },
    Row {
        what: "a short one where it was granted",
        asks_for: true,
        opening: OFFERS,
        opened: Frame::Bytes(GRANTS),
        setxattr: SHORT,
        reached: None,
    },
    Row {
        what: "a long one where it was offered, and not asked for",
        asks_for: false,
        opening: OFFERS,
        opened: Frame::Bytes(WITHHOLDS),
        setxattr: LONG,
        reached: None,
    },
    Row {
        what: "a short one where it was offered, and not asked for",
        asks_for: false,
        opening: OFFERS,
        opened: Frame::Bytes(WITHHOLDS),
        setxattr: SHORT,
        reached: Some(0),
    },
    Row {
        what: "a long one where it was not offered",
        asks_for: true,
        opening: Given::Opening,
        opened: Frame::Accepted,
        setxattr: LONG,
        reached: None,
    },
    Row {
        what: "a short one where it was not offered",
        asks_for: true,
        opening: Given::Opening,
        opened: Frame::Accepted,
        setxattr: SHORT,
        reached: Some(0),
    },
];

/// A session of these messages, over a filesystem that asks for SETXATTR_EXT, or for nothing.
fn serve<R: Threads + Wait + AllocGlobal + Abort + Send + Sync + Copy>(
    rt: &R,
    asks_for: bool,
    given: &[Given],
    n_threads: Option<usize>,
) -> Ended<Probing<Recording<R>>, MemorySource, MemorySink> {
    let alloc = rt.alloc();
    let wants = if asks_for {
        InitFlags::FUSE_SETXATTR_EXT
    } else {
        InitFlags::empty()
    };
    let probe = Recording::new(*rt, alloc, wants);
    let source = source_of(rt, given);
    let sink = MemorySink::new(alloc, Vec::new(alloc));
    let mut config = Config::new(alloc);
    config.acl = SessionACL::All;
    config.n_threads = n_threads;
    mount(rt, Probing { probe }, source, sink, 0, 4096, &config)
}

/// Between INIT and the end this alone reached the filesystem: a SETXATTR of node 2 that gives `n` the value `abc`, without
/// flags of `setxattr(2)`, with these others; or nothing.
fn reached(rt: &impl Abort, what: &str, recorded: &[Recorded], setxattr_flags: Option<i128>) {
    let mut calls = recorded.iter().skip(1);
    if let Some(flags) = setxattr_flags {
        let call = calls.next().expect(rt, "a call");
        let found = (
            call.method,
            call.arguments.as_slice(),
            call.texts.as_slice(),
        );
        let [node, none] = [Argument::Number(2), Argument::Number(0)];
        let arguments = [node, none, none, Argument::Number(flags)];
        let expected = ("setxattr", arguments.as_slice(), b"n\0abc\0".as_slice());
        expect_same(rt, &(what, found), &(what, expected));
    }
    let last = calls.next().expect(rt, "the end");
    expect_same(
        rt,
        &(what, last.method, calls.next().is_none()),
        &(what, "destroy", true),
    );
}

/// The session of this row goes as it says. Each SETXATTR gets ENOSYS: one that does not decode, and one that reaches
/// this filesystem.
fn goes<R: Threads + Wait + AllocGlobal + Abort + Send + Sync + Copy>(
    rt: &R,
    row: &Row,
    n_threads: Option<usize>,
) {
    let given = [row.opening, Given::Asked(2, 0, row.setxattr)];
    let over = serve(rt, row.asks_for, &given, n_threads);
    let frames = frames_of(rt, &[row.opened, Frame::Error(2, ENOSYS)]);
    let other = first_other(over.sink.frames(), &frames, 2);
    expect_same(
        rt,
        &(row.what, over.outcome, other),
        &(row.what, Ok(()), None),
    );
    let recorded = over.filesystem.probe.take();
    reached(rt, row.what, recorded.as_slice(), row.reached);
    drop(recorded);
    drop(over);
}

#[test]
fn setxattr_is_longer_where_that_was_granted(rt: HostRuntime) {
    for row in ROWS {
        goes(&rt, row, None);
        goes(&rt, row, Some(2));
    }
}

/// INIT, and a SETXATTR of zeros of each length at which the shorter fixed part is there and the longer is not.
const CUT: &[Given] = &[
    OFFERS,
    Given::Asked(2, 0, Asks(FUSE_SETXATTR, 8, &[], b"")),
    Given::Asked(3, 0, Asks(FUSE_SETXATTR, 9, &[], b"")),
    Given::Asked(4, 0, Asks(FUSE_SETXATTR, 10, &[], b"")),
    Given::Asked(5, 0, Asks(FUSE_SETXATTR, 11, &[], b"")),
    Given::Asked(6, 0, Asks(FUSE_SETXATTR, 12, &[], b"")),
    Given::Asked(7, 0, Asks(FUSE_SETXATTR, 13, &[], b"")),
    Given::Asked(8, 0, Asks(FUSE_SETXATTR, 14, &[], b"")),
    Given::Asked(9, 0, Asks(FUSE_SETXATTR, 15, &[], b"")),
];

const CUT_REPLIES: &[Frame] = &[
    Frame::Bytes(GRANTS),
    Frame::Error(2, ENOSYS),
    Frame::Error(3, ENOSYS),
    Frame::Error(4, ENOSYS),
    Frame::Error(5, ENOSYS),
    Frame::Error(6, ENOSYS),
    Frame::Error(7, ENOSYS),
    Frame::Error(8, ENOSYS),
    Frame::Error(9, ENOSYS),
];

#[test]
fn a_longer_setxattr_that_is_cut_does_not_decode(rt: HostRuntime) {
    for n_threads in [None, Some(2)] {
        let over = serve(&rt, true, CUT, n_threads);
        let other = first_other(over.sink.frames(), &frames_of(&rt, CUT_REPLIES), 1);
        expect_same(&rt, &(over.outcome, other), &(Ok(()), None));
        let recorded = over.filesystem.probe.take();
        reached(&rt, "SETXATTRs that are cut", recorded.as_slice(), None);
        drop(recorded);
        drop(over);
    }
}
