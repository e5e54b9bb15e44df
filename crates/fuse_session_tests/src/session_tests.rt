// Whole sessions, from memory to memory.
ghost use Rattle.std.specs.Prelude.{◌<◌};

use crate::asserts::expect_same;
use crate::counting::{CONTENTS, Counting, Course, counts, went};
use crate::ends::End;
use crate::rows::{BASE, Devices, Row, serve, serve_all};
use fuse_config::SessionACL;
use fuse_request::RequestError;
use fuse_request::opcode::{FUSE_DESTROY, FUSE_INTERRUPT, FUSE_LOOKUP};
use fuse_session::SessionError;
use fuse_testing::test_messages::{
    Asks, BATCH_FORGET, EACCES, EINVAL, EIO, EMPTY_BATCH_FORGET, ENDLESS_LOOKUP, ENOENT, ENOSYS,
    EPROTO, FORGET, Frame, GETATTR, Given, INIT_7_8, LOOKUP, NO_OPCODE, SHORT_FORGET,
};
use fuse_wire::{Errno, Items, RequestId};
use std::process::Abort;
use std::sync::Wait;
use std::thread::Threads;

/// Sessions that end at a faulty header.
const FAULTY_HEADERS: &[Row] = &[
    Row {
        what: "a header that is cut short",
        given: &[Given::Cut(20)],
        received: 1,
        end: End::Header(RequestError::ShortReadHeader(20)),
        ..BASE
    },
    Row {
        what: "a message that is cut short",
        given: &[Given::Cut(48)],
        received: 1,
        end: End::Header(RequestError::ShortRead(48, 104)),
        ..BASE
    },
    Row {
        what: "a length that contradicts the opcode",
        given: &[Given::Changed(0, 0x27)],
        received: 1,
        end: End::Header(RequestError::InsufficientData),
        ..BASE
    },
    Row {
        what: "a header that is cut short after INIT",
        given: &[Given::Opening, Given::Cut(20)],
        frames: &[Frame::Accepted],
        received: 2,
        end: End::Header(RequestError::ShortReadHeader(20)),
        ..BASE
    },
];

/// INIT of version 7.40, of which the kernel asks for more than is taken.
const LATEST: &[u8] = &[
    0x68, 0, 0, 0, 0x1a, 0, 0, 0, 1, 0, 0, 0, 0, 0, 0, 0, 0, 0, 0, 0, 0, 0, 0, 0, 0, 0, 0, 0, 0, 0,
    0, 0, 0, 0, 0, 0, 0, 0, 0, 0, 7, 0, 0, 0, 0x28, 0, 0, 0, 0, 0, 2, 0, 0x21, 0, 0x40, 0x40, 0x20,
    0, 0, 0, 0, 0, 0, 0, 0, 0, 0, 0, 0, 0, 0, 0, 0, 0, 0, 0, 0, 0, 0, 0, 0, 0, 0, 0, 0, 0, 0, 0, 0,
    0, 0, 0, 0, 0, 0, 0, 0, 0, 0, 0, 0, 0, 0, 0,
];

/// The reply to it.
const FULL: &[u8] = &[
    0x50, 0, 0, 0, 0, 0, 0, 0, 1, 0, 0, 0, 0, 0, 0, 0, 7, 0, 0, 0, 0x28, 0, 0, 0, 0, 0, 2, 0, 0x21,
    0, 0x40, 0x40, 0x10, 0, 0x0c, 0, 0, 0, 0, 1, 1, 0, 0, 0, 0, 0x10, 0, 0, 0, 0, 0, 0, 0, 0, 0, 0,
    0, 0, 0, 0, 0, 0, 0, 0, 0, 0, 0, 0, 0, 0, 0, 0, 0, 0, 0, 0, 0, 0, 0, 0,
];

/// The reply that offers the version 7.40.
const OFFER: &[u8] = &[
    0x50, 0, 0, 0, 0, 0, 0, 0, 1, 0, 0, 0, 0, 0, 0, 0, 7, 0, 0, 0, 0x28, 0, 0, 0, 0, 0, 0, 0, 0, 0,
    0, 0, 0, 0, 0, 0, 0, 0, 0, 0, 0, 0, 0, 0, 0, 0, 0, 0, 0, 0, 0, 0, 0, 0, 0, 0, 0, 0, 0, 0, 0, 0,
    0, 0, 0, 0, 0, 0, 0, 0, 0, 0, 0, 0, 0, 0, 0, 0, 0, 0,
];

/// Versions that are agreed on, and one that is not.
const VERSIONS: &[Row] = &[
    Row {
        what: "the version 7.8",
        given: &[Given::Opening],
        frames: &[Frame::Accepted],
        received: 1,
        ..BASE
    },
    Row {
        what: "the version 7.40",
        given: &[Given::Bytes(LATEST)],
        frames: &[Frame::Bytes(FULL)],
        received: 1,
        ..BASE
    },
    Row {
        what: "the version 8.0, and then 7.8",
        given: &[Given::Init(8, 0), Given::Opening],
        frames: &[Frame::Bytes(OFFER), Frame::Accepted],
        received: 2,
        ..BASE
    },
    Row {
        what: "the version 7.5",
        given: &[Given::Init(7, 5)],
        frames: &[Frame::Error(1, EPROTO)],
        received: 1,
        end: End::Unsupported(7, 5),
        ..BASE
    },
    Row {
        what: "the version 6.40",
        given: &[Given::Init(6, 40)],
        frames: &[Frame::Error(1, EPROTO)],
        received: 1,
        end: End::Unsupported(6, 40),
        ..BASE
    },
];

/// Sessions without an INIT.
const WITHOUT_INIT: &[Row] = &[
    Row {
        what: "no message",
        given: &[],
        end: End::NotConnected,
        ..BASE
    },
    Row {
        what: "an opcode that names no operation, before INIT",
        given: &[Given::Asked(2, 0, Asks(NO_OPCODE, 0, &[], b""))],
        received: 1,
        end: End::Operation(RequestError::UnknownOperation(7)),
        ..BASE
    },
    Row {
        what: "DESTROY before INIT",
        given: &[Given::Asked(2, 0, Asks(FUSE_DESTROY, 0, &[], b""))],
        frames: &[Frame::Error(2, EIO)],
        received: 1,
        end: End::NotInit(FUSE_DESTROY),
        ..BASE
    },
    Row {
        what: "LOOKUP before INIT",
        given: &[Given::Asked(2, 5, LOOKUP)],
        frames: &[Frame::Error(2, EIO)],
        received: 1,
        end: End::NotInit(FUSE_LOOKUP),
        ..BASE
    },
];

/// A LOOKUP of the name `none` in the root, of user 0, with the id 2.
const NEXT: &[u8] = &[
    45, 0, 0, 0, 1, 0, 0, 0, 2, 0, 0, 0, 0, 0, 0, 0, 1, 0, 0, 0, 0, 0, 0, 0, 0, 0, 0, 0, 0, 0, 0,
    0, 0, 0, 0, 0, 0, 0, 0, 0, b'n', b'o', b'n', b'e', 0,
];

/// What follows an INIT.
const AFTER_INIT: &[Row] = &[
    Row {
        what: "an opcode that names no operation, after INIT",
        given: &[
            Given::Opening,
            Given::Asked(2, 5, Asks(NO_OPCODE, 0, &[], b"")),
        ],
        frames: &[Frame::Accepted, Frame::Error(2, ENOSYS)],
        received: 2,
        ..BASE
    },
    Row {
        what: "an INTERRUPT of whoever is not served, and of the owner",
        given: &[
            Given::Opening,
            Given::Asked(2, 5, Asks(FUSE_INTERRUPT, 8, &[], b"")),
            Given::Asked(3, 0, Asks(FUSE_INTERRUPT, 8, &[], b"")),
        ],
        frames: &[
            Frame::Accepted,
            Frame::Error(2, EACCES),
            Frame::Error(3, ENOSYS),
        ],
        received: 3,
        calls: 1,
        ..BASE
    },
    Row {
        what: "nothing is taken after DESTROY",
        devices: Devices::Holding(NEXT),
        given: &[
            Given::Opening,
            Given::Asked(2, 0, Asks(FUSE_DESTROY, 0, &[], b"")),
            Given::Bytes(NEXT),
        ],
        frames: &[Frame::Accepted, Frame::Payload(2, &[])],
        received: 2,
        ..BASE
    },
    Row {
        what: "no thread is to serve",
        threads: &[Some(0)],
        given: &[Given::Opening],
        frames: &[Frame::Accepted],
        received: 1,
        end: End::Threads,
        ..BASE
    },
];

/// How often the filesystem is called.
const CALLS: &[Row] = &[
    Row {
        what: "one call for each message",
        given: &[
            Given::Opening,
            Given::Asked(2, 0, LOOKUP),
            Given::Asked(2, 0, LOOKUP),
            Given::Asked(3, 0, GETATTR),
            Given::Read(4, 0, 0, 4096),
            Given::Asked(5, 0, FORGET),
            Given::Asked(6, 0, SHORT_FORGET),
        ],
        frames: &[
            Frame::Accepted,
            Frame::Error(2, ENOENT),
            Frame::Error(2, ENOENT),
            Frame::Error(3, EIO),
            Frame::Payload(4, CONTENTS),
            Frame::Error(6, ENOSYS),
        ],
        notes: &[(RequestId(5), 3)],
        received: 7,
        calls: 5,
        ..BASE
    },
    Row {
        what: "one call for each batch of forgets, and for each row of it",
        given: &[
            Given::Opening,
            Given::Asked(2, 0, BATCH_FORGET),
            Given::Asked(3, 0, EMPTY_BATCH_FORGET),
        ],
        frames: &[Frame::Accepted],
        // the mark of the last row, which is the sum of its numbers
        notes: &[(RequestId(2), 7), (RequestId(3), 0)],
        received: 3,
        // one for each batch, and one for each row
        calls: 4,
        ..BASE
    },
    Row {
        what: "no call for what is refused before",
        threads: &[Some(1), Some(2)],
        given: &[
            Given::Opening,
            Given::Asked(2, 5, LOOKUP),
            Given::Asked(3, 5, ENDLESS_LOOKUP),
            Given::Asked(4, 5, FORGET),
            Given::Read(5, 5, 0x80, 4096),
            Given::Read(7, 5, 0x7f, 4096),
            Given::Init(7, 8),
        ],
        frames: &[
            Frame::Accepted,
            Frame::Error(2, EACCES),
            Frame::Error(3, ENOSYS),
            Frame::Error(5, EINVAL),
            Frame::Payload(7, CONTENTS),
            Frame::Error(1, EIO),
        ],
        notes: &[(RequestId(4), 3)],
        received: 7,
        calls: 2,
        ..BASE
    },
];

/// Sources and sinks that fail.
const FAULTS: &[Row] = &[
    Row {
        what: "a sink that fails, and then a header that is cut short",
        devices: Devices::Failing,
        given: &[Given::Opening, Given::Asked(2, 0, LOOKUP), Given::Cut(20)],
        frames: &[Frame::Accepted],
        received: 3,
        lost: 1,
        calls: 1,
        end: End::Header(RequestError::ShortReadHeader(20)),
        ..BASE
    },
    Row {
        what: "a source that gives nothing at some turns",
        given: &[
            Given::Nothing,
            Given::Opening,
            Given::Nothing,
            Given::Nothing,
            Given::Asked(2, 0, LOOKUP),
            Given::Nothing,
        ],
        frames: &[Frame::Accepted, Frame::Error(2, ENOENT)],
        received: 2,
        calls: 1,
        ..BASE
    },
    Row {
        what: "a source that fails after INIT",
        devices: Devices::Holding(NEXT),
        given: &[
            Given::Opening,
            Given::Nothing,
            Given::Fault,
            Given::Bytes(NEXT),
        ],
        frames: &[Frame::Accepted],
        received: 1,
        end: End::Receive,
        ..BASE
    },
    Row {
        what: "a source that fails at once",
        devices: Devices::Holding(&INIT_7_8),
        given: &[Given::Fault, Given::Opening],
        end: End::Receive,
        ..BASE
    },
];

#[test]
fn each_session_goes_as_its_row_says(rt: HostRuntime) {
    for rows in [
        FAULTY_HEADERS,
        VERSIONS,
        WITHOUT_INIT,
        AFTER_INIT,
        CALLS,
        FAULTS,
    ] {
        serve_all(&rt, rows);
    }
}

/// Serves an INIT in a session of this owner, with pages of this size, on so many threads. The reply has these `max_pages`.
fn opens_for<R: Threads + Wait + AllocGlobal + Abort + Sync>(
    rt: &R,
    owner: u32,
    page_size: u32,
    n_threads: Option<usize>,
    max_pages: &[u8],
)
    requires { 0 < page_size }
{
    let served = (SessionACL::RootAndOwner, n_threads);
    let given = [Given::Bytes(LATEST)];
    let (course, sink) = serve(rt, Counting::new(None), &given, owner, page_size, served);
    let reply = sink.frames().first().expect(rt, "a frame").as_slice();
    let found = (course.outcome, sink.frames().len(), reply.get(44..46));
    expect_same(rt, &(owner, found), &(owner, (Ok(()), 1, Some(max_pages))));
    drop(sink);
}

#[test]
fn opens_for_any_owner_pages_and_threads(rt: HostRuntime) {
    opens_for(&rt, 0, 1, None, &[0xff, 0xff]);
    opens_for(&rt, 1000, 4096, Some(1), &[0, 0x10]);
    opens_for(&rt, u32::MAX, 65536, Some(64), &[0, 1]);
    opens_for(&rt, 1, u32::MAX, Some(usize::MAX), &[1, 0]);
}

/// The last of the frames has this header, and then these contents.
fn ends_with_contents(rt: &impl Abort, frames: &[Items<u8>], header: &[u8; 16], contents: &[u8]) {
    let frame = frames.last().expect(rt, "no frame").as_slice();
    let found = (
        frame.len(),
        frame.starts_with(header),
        frame.ends_with(contents),
    );
    let length = contents.len().saturating_add(16);
    expect_same(rt, &found, &(length, true, true));
}

/// A file of two mebibytes is read at once.
#[test]
fn reads_two_mebibytes_whole(rt: HostRuntime) {
    let header = [16, 0, 0x20, 0, 0, 0, 0, 0, 2, 0, 0, 0, 0, 0, 0, 0];
    let contents = vec![in rt.alloc(); 0x2a; 0x20_0000].expect(&rt, "there is memory");
    let full = contents.to_vec(rt.alloc()).expect(&rt, "there is memory");
    let given = [Given::Opening, Given::Read(2, 0, 0, 0x20_0000)];
    let served = (SessionACL::Owner, None);
    let (course, sink) = serve(&rt, Counting::new(Some(full)), &given, 0, 4096, served);
    expect_same(&rt, &course.outcome, &Ok(()));
    ends_with_contents(&rt, sink.frames(), &header, &contents);
    drop(sink);
}

/// The reply to INIT of version 7.8 by EACCES.
const DENIED: &[u8] = &[
    0x10, 0, 0, 0, 0xf3, 0xff, 0xff, 0xff, 0x0d, 0xf0, 0xad, 0xba, 0xef, 0xbe, 0xad, 0xde,
];

#[test]
fn a_kernel_that_is_refused_is_told_why(rt: HostRuntime) {
    let given = [Given::Opening, Given::Asked(2, 0, LOOKUP)];
    let refusing = Counting::refusing(Errno::EACCES);
    let (course, sink) = serve(&rt, refusing, &given, 0, 4096, (SessionACL::Owner, None));
    let expected = Course {
        outcome: Err(SessionError::Init(Errno::EACCES)),
        transcript: counts(1, 1),
        calls: 0,
        destroyed: 1,
    };
    went(&rt, "a kernel that is refused", &course, &expected);
    let sent = sink.frames().first().expect(&rt, "a frame").as_slice();
    expect_same(&rt, &(sink.frames().len(), sent), &(1, DENIED));
    drop(sink);
}
