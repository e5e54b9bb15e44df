// What the library itself fixes about a message, before any filesystem is asked.
use crate::asserts::{expect_same, frames_of};
use crate::calls::{Reply, Row, message_of};
use crate::counting::{Counting, Course, counts, went};
use crate::file_calls::{files, others};
use crate::node_calls::{inodes, names};
use crate::rows::serve;
use bitflags::Flags;
use fuse_config::SessionACL;
use fuse_request::opcode::{
    FUSE_BATCH_FORGET, FUSE_COPY_FILE_RANGE, FUSE_DESTROY, FUSE_FALLOCATE, FUSE_FORGET, FUSE_FSYNC,
    FUSE_FSYNCDIR, FUSE_INIT, FUSE_INTERRUPT, FUSE_IOCTL, FUSE_LSEEK, FUSE_NOTIFY_REPLY, FUSE_READ,
    FUSE_READDIR, FUSE_READDIRPLUS, FUSE_RELEASE, FUSE_RELEASEDIR, FUSE_STATFS, FUSE_WRITE,
};
use fuse_session::{Verdict, verdict};
use fuse_testing::test_messages;
use fuse_testing::test_messages::{
    EACCES, EINVAL, EIO, ENOSYS, Frame, Given, LOOKUP, NO_OPCODE, first_other,
};
use fuse_wire::InitFlags;
use std::process::Abort;
use std::sync::Wait;
use std::thread::Threads;

/// A message of user 5: its opcode, this byte at this place, and the error that it gets.
type Refusal = (u32, usize, u8, u8);

/// What is refused by what is asked.
const REFUSED: &[Refusal] = &[
    // an offset or a length in no file
    (FUSE_READ, 55, 0x80, EINVAL),
    (FUSE_WRITE, 55, 0x80, EINVAL),
    (FUSE_FALLOCATE, 55, 0x80, EINVAL),
    (FUSE_FALLOCATE, 63, 0x80, EINVAL),
    (FUSE_COPY_FILE_RANGE, 55, 0x80, EINVAL),
    (FUSE_COPY_FILE_RANGE, 79, 0x80, EINVAL),
    // NOTIFY_REPLY, and an IOCTL that is not restricted
    (FUSE_NOTIFY_REPLY, 40, 0, ENOSYS),
    (FUSE_IOCTL, 48, 2, ENOSYS),
    // another INIT
    (FUSE_INIT, 40, 7, EIO),
];

/// What the filesystem is asked, which answers it by default: what is in a file, or not looked at.
const ASKED: &[Refusal] = &[
    (FUSE_WRITE, 55, 0x7f, ENOSYS),
    (FUSE_FALLOCATE, 55, 0x7f, ENOSYS),
    (FUSE_FALLOCATE, 63, 0x7f, ENOSYS),
    (FUSE_COPY_FILE_RANGE, 55, 0x7f, ENOSYS),
    (FUSE_COPY_FILE_RANGE, 79, 0x7f, ENOSYS),
    // INTERRUPT
    (FUSE_INTERRUPT, 40, 0, ENOSYS),
    // offsets that are not looked at, and how much a COPY_FILE_RANGE copies
    (FUSE_READDIR, 55, 0x80, ENOSYS),
    (FUSE_READDIRPLUS, 55, 0x80, ENOSYS),
    (FUSE_LSEEK, 55, 0x80, ENOSYS),
    (FUSE_COPY_FILE_RANGE, 87, 0x80, ENOSYS),
];

/// What a user gets who is not served.
const UNSERVED: &[Refusal] = &[
    // READ, WRITE and INIT pass
    (FUSE_READ, 55, 0x80, EINVAL),
    (FUSE_WRITE, 55, 0x80, EINVAL),
    (FUSE_INIT, 40, 7, EIO),
    (FUSE_FALLOCATE, 55, 0x80, EACCES),
    (FUSE_COPY_FILE_RANGE, 55, 0x80, EACCES),
    (FUSE_INTERRUPT, 40, 0, EACCES),
    (FUSE_NOTIFY_REPLY, 40, 0, EACCES),
    (FUSE_IOCTL, 48, 2, EACCES),
    (FUSE_STATFS, 40, 0, EACCES),
    (FUSE_LSEEK, 40, 0, EACCES),
    // an opcode that names no operation
    (NO_OPCODE, 40, 0, ENOSYS),
];

/// Serves these messages in a session of root for these users: each gets its error, and so many calls are made.
fn refuses<R: Threads + Wait + AllocGlobal + Abort + Sync>(
    rt: &R,
    acl: SessionACL,
    rows: &[Refusal],
    calls: u64,
) {
    let mut given = vec![in rt.alloc(); Given::Opening].expect(rt, "there is memory");
    let mut frames = vec![in rt.alloc(); Frame::Accepted].expect(rt, "there is memory");
    let mut id = 1u8;
    for (opcode, place, byte, errno) in rows {
        id = id.saturating_add(1);
        let asked = Given::Argument(*opcode, id, *place, *byte);
        given.push(asked).expect(rt, "there is memory");
        frames
            .push(Frame::Error(id, *errno))
            .expect(rt, "there is memory");
    }
    let (course, sink) = serve(rt, Counting::new(None), &given, 0, 4096, (acl, None));
    let count = given.len() as u64;
    let expected = Course {
        outcome: Ok(()),
        transcript: counts(count, count),
        calls,
        destroyed: 1,
    };
    went(rt, "refusals", &course, &expected);
    let other = first_other(sink.frames(), &frames_of(rt, &frames), given.len());
    expect_same(rt, &other, &None);
    drop(sink);
}

#[test]
fn the_filesystem_is_not_asked_of_what_is_refused(rt: HostRuntime) {
    refuses(&rt, SessionACL::All, REFUSED, 0);
    refuses(&rt, SessionACL::All, ASKED, 10);
    refuses(&rt, SessionACL::Owner, UNSERVED, 0);
}

/// What a verdict is, and the number of an error, which is 0 for a header that is not good.
type Ruling = (&'static str, u8);

/// What the verdict on a message is, in a session of this owner that serves these users.
fn ruling_on(acl: SessionACL, owner: u32, message: &[u8]) -> Ruling {
    match verdict(acl, owner, InitFlags::empty(), message) {
        Verdict::Broken(_) => ("error", 0),
        Verdict::Ends => ("ends", 0),
        Verdict::Fixed(error) => ("error", error.code().to_le_bytes()[0]),
        Verdict::Forget(_) => ("forget", 0),
        Verdict::Call(_) => ("call", 0),
    }
}

/// The verdict on a LOOKUP of this user, in a session of user 5.
const USERS: &[(SessionACL, u8, Ruling)] = &[
    (SessionACL::Owner, 0, ("error", EACCES)),
    (SessionACL::Owner, 5, ("call", 0)),
    (SessionACL::RootAndOwner, 0, ("call", 0)),
    (SessionACL::RootAndOwner, 5, ("call", 0)),
    (SessionACL::RootAndOwner, 6, ("error", EACCES)),
];

#[test]
fn rules_on_users(rt: HostRuntime) {
    for (acl, user, expected) in USERS {
        let message = test_messages::message_of(rt.alloc(), &Given::Asked(2, *user, LOOKUP));
        let found = ruling_on(*acl, 5, &message.expect(&rt, "there is memory"));
        expect_same(&rt, &(*user, found), &(*user, *expected));
    }
}

/// The opcodes whose requests pass whoever sends them.
const PASSING: &[u32] = &[
    FUSE_INIT,
    FUSE_DESTROY,
    FUSE_READ,
    FUSE_READDIR,
    FUSE_READDIRPLUS,
    FUSE_BATCH_FORGET,
    FUSE_FORGET,
    FUSE_WRITE,
    FUSE_FSYNC,
    FUSE_FSYNCDIR,
    FUSE_RELEASE,
    FUSE_RELEASEDIR,
];

/// What the verdict on the message of a row is, where its user is served.
fn served(row: &Row) -> Ruling {
    if row.asks.0 == FUSE_DESTROY {
        return ("ends", 0);
    }
    match row.reply {
        Reply::Error(errno) if row.calls.is_empty() => ("error", errno),
        Reply::Note => ("forget", 0),
        _ => ("call", 0),
    }
}

/// What the verdicts on a message are, whose user is neither root nor the user 5: in a session of user 5 that serves all,
/// or root and the owner, or the owner alone; and in a session of that user, who alone is served.
fn rulings_on(message: &[u8]) -> [Ruling; 4] {
    [
        ruling_on(SessionACL::All, 5, message),
        ruling_on(SessionACL::RootAndOwner, 5, message),
        ruling_on(SessionACL::Owner, 5, message),
        ruling_on(SessionACL::Owner, 0xb4b3_b2b1, message),
    ]
}

#[test]
fn rules_on_every_opcode(rt: HostRuntime) {
    for rows in [inodes(), names(), files(), others()] {
        for (place, row) in rows.iter().enumerate() {
            let found = rulings_on(&message_of(&rt, row, 2));
            let served = served(row);
            let other = if PASSING.contains(&row.asks.0) {
                served
            } else {
                ("error", EACCES)
            };
            expect_same(
                &rt,
                &(place, found),
                &(place, [served, other, other, served]),
            );
        }
    }
}
