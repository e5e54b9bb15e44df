// The reply to each call can be given after its method has returned.
use crate::asserts::expect_same;
use crate::putting_off::PuttingOff;
use crate::serving::{after_init, counts, serve, source_after_init, taking};
use fuse_request::opcode::{
    FUSE_ACCESS, FUSE_BMAP, FUSE_COPY_FILE_RANGE, FUSE_CREATE, FUSE_FALLOCATE, FUSE_FLUSH,
    FUSE_FSYNC, FUSE_FSYNCDIR, FUSE_GETATTR, FUSE_GETLK, FUSE_GETXATTR, FUSE_IOCTL, FUSE_LINK,
    FUSE_LISTXATTR, FUSE_LOOKUP, FUSE_LSEEK, FUSE_MKDIR, FUSE_MKNOD, FUSE_OPEN, FUSE_OPENDIR,
    FUSE_POLL, FUSE_READ, FUSE_READDIR, FUSE_READDIRPLUS, FUSE_READLINK, FUSE_RELEASE,
    FUSE_RELEASEDIR, FUSE_REMOVEXATTR, FUSE_RENAME, FUSE_RENAME2, FUSE_RMDIR, FUSE_SETATTR,
    FUSE_SETLK, FUSE_SETLKW, FUSE_SETXATTR, FUSE_STATFS, FUSE_SYMLINK, FUSE_UNLINK, FUSE_WRITE,
};
use fuse_testing::test_messages::{Asks, ENOENT, Frame, Given, first_other};
use std::process::Abort;
use std::sync::Wait;
use std::thread::Threads;

/// Serves these messages on two threads: the reply to each is ENOENT, which comes by its door.
fn come_later<R: Threads + Wait + AllocGlobal + Abort + Send + Sync + Copy>(rt: &R, all: &[Asks]) {
    let (mut given, mut frames) = (Vec::new(rt.alloc()), Vec::new(rt.alloc()));
    let mut id = 1u8;
    for asks in all {
        id = id.saturating_add(1);
        given
            .push(Given::Asked(id, 0, *asks))
            .expect(rt, "there is memory");
        frames
            .push(Frame::Error(id, ENOENT))
            .expect(rt, "there is memory");
    }
    let source = source_after_init(rt, &given);
    let rest = serve(rt, PuttingOff { rt: *rt }, source, taking(rt), Some(2));
    let count = (all.len() as u64).saturating_add(1);
    let other = first_other(rest.sink.frames(), &after_init(rt, &frames), 1);
    let found = (rest.outcome, rest.transcript, other);
    drop(rest);
    expect_same(rt, &found, &(Ok(()), counts(count, count), None));
}

/// Each opcode about inodes and names, with the length of its arguments by the structs of `fuse.h`.
const NODES: &[Asks] = &[
    Asks(FUSE_LOOKUP, 0, &[], b"none\0"),
    Asks(FUSE_GETATTR, 16, &[], b""),
    Asks(FUSE_SETATTR, 88, &[], b""),
    Asks(FUSE_STATFS, 0, &[], b""),
    Asks(FUSE_ACCESS, 8, &[], b""),
    Asks(FUSE_READLINK, 0, &[], b""),
    Asks(FUSE_SYMLINK, 0, &[], b"link\0target\0"),
    Asks(FUSE_MKNOD, 16, &[], b"node\0"),
    Asks(FUSE_MKDIR, 8, &[], b"dir\0"),
    Asks(FUSE_UNLINK, 0, &[], b"file\0"),
    Asks(FUSE_RMDIR, 0, &[], b"dir\0"),
    Asks(FUSE_RENAME, 8, &[], b"old\0new\0"),
    Asks(FUSE_RENAME2, 16, &[], b"old\0new\0"),
    Asks(FUSE_LINK, 8, &[], b"name\0"),
    Asks(FUSE_SETXATTR, 8, &[(0, 5)], b"user.a\0value"),
    Asks(FUSE_GETXATTR, 8, &[], b"user.a\0"),
    Asks(FUSE_LISTXATTR, 8, &[], b""),
    Asks(FUSE_REMOVEXATTR, 0, &[], b"user.a\0"),
];

#[test]
fn what_is_asked_of_inodes_and_names_is_answered_later(rt: HostRuntime) {
    come_later(&rt, NODES);
}

/// The same about open files, directories, locks and devices.
const FILES: &[Asks] = &[
    Asks(FUSE_OPEN, 8, &[], b""),
    Asks(FUSE_READ, 40, &[], b""),
    Asks(FUSE_WRITE, 40, &[(16, 5)], b"hello"),
    Asks(FUSE_RELEASE, 24, &[], b""),
    Asks(FUSE_FSYNC, 16, &[], b""),
    Asks(FUSE_FLUSH, 24, &[], b""),
    Asks(FUSE_CREATE, 16, &[], b"file\0"),
    Asks(FUSE_FALLOCATE, 32, &[], b""),
    Asks(FUSE_LSEEK, 24, &[], b""),
    Asks(FUSE_COPY_FILE_RANGE, 56, &[], b""),
    Asks(FUSE_OPENDIR, 8, &[], b""),
    Asks(FUSE_READDIR, 40, &[], b""),
    Asks(FUSE_READDIRPLUS, 40, &[], b""),
    Asks(FUSE_RELEASEDIR, 24, &[], b""),
    Asks(FUSE_FSYNCDIR, 16, &[], b""),
    Asks(FUSE_GETLK, 48, &[], b""),
    Asks(FUSE_SETLK, 48, &[], b""),
    Asks(FUSE_SETLKW, 48, &[], b""),
    Asks(FUSE_BMAP, 16, &[], b""),
    Asks(FUSE_IOCTL, 32, &[(24, 4)], b"inputrest"),
    Asks(FUSE_POLL, 24, &[], b""),
];

#[test]
fn what_is_asked_of_open_files_is_answered_later(rt: HostRuntime) {
    come_later(&rt, FILES);
}

/// Messages of more than 128 bytes, which find no place in a job.
const LONG: &[Asks] = &[
    Asks(FUSE_WRITE, 40, &[(16, 99)], &[7; 99]),
    Asks(
        FUSE_SETXATTR,
        8,
        &[(0, 97)],
        b"a\0a value of 97 bytes, which with its name and its header are more than find a place in a job......",
    ),
];

#[test]
fn what_is_asked_by_long_messages_is_answered_later(rt: HostRuntime) {
    come_later(&rt, LONG);
}
