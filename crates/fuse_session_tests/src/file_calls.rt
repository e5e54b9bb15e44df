// Calls about open files and directories, and what no filesystem is asked.
use crate::calls::Reply::{Error, Payload};
use crate::calls::Wanted::{Absent, Flag, Long, Node, Number, Word};
use crate::calls::{OPENED, Row};
use fuse_request::opcode::{
    CUSE_INIT, FUSE_BMAP, FUSE_COPY_FILE_RANGE, FUSE_CREATE, FUSE_DESTROY, FUSE_FALLOCATE,
    FUSE_FLUSH, FUSE_FSYNC, FUSE_FSYNCDIR, FUSE_GETLK, FUSE_INIT, FUSE_INTERRUPT, FUSE_IOCTL,
    FUSE_LSEEK, FUSE_NOTIFY_REPLY, FUSE_OPEN, FUSE_OPENDIR, FUSE_POLL, FUSE_READ, FUSE_READDIR,
    FUSE_READDIRPLUS, FUSE_RELEASE, FUSE_RELEASEDIR, FUSE_SETLK, FUSE_SETLKW, FUSE_WRITE,
};
use fuse_testing::test_messages::{Asks, EIO, ENOSYS};

/// A message of each opcode that is about open files, with what it comes to.
pub(crate) fn files() -> &'static [Row] {
    &FILES
}

/// A message of each opcode that is about open directories, locks or devices or asks no filesystem, with what it comes to.
/// The last is DESTROY.
pub(crate) fn others() -> &'static [Row] {
    &OTHERS
}

static FILES: [Row; 15] = [
    Row {
        asks: Asks(FUSE_OPEN, 8, &[], b""),
        calls: &[("open", &[Node, Word(0)], b"")],
        reply: Payload(&OPENED),
    },
    // without an owner of locks, and with one
    Row {
        asks: Asks(FUSE_READ, 40, &[(20, 1)], b""),
        calls: &[(
            "read",
            &[Node, Long(0), Long(8), Word(16), Word(32), Absent],
            b"",
        )],
        reply: Error(ENOSYS),
    },
    Row {
        asks: Asks(FUSE_READ, 40, &[(20, 2)], b""),
        calls: &[(
            "read",
            &[Node, Long(0), Long(8), Word(16), Word(32), Long(24)],
            b"",
        )],
        reply: Error(ENOSYS),
    },
    Row {
        asks: Asks(
            FUSE_WRITE,
            40,
            &[(16, 5), (17, 0), (18, 0), (19, 0), (20, 5)],
            b"hello",
        ),
        calls: &[(
            "write",
            &[Node, Long(0), Long(8), Word(20), Word(32), Absent],
            b"hello\0",
        )],
        reply: Error(ENOSYS),
    },
    Row {
        asks: Asks(
            FUSE_WRITE,
            40,
            &[(16, 0), (17, 0), (18, 0), (19, 0), (20, 2)],
            b"",
        ),
        calls: &[(
            "write",
            &[Node, Long(0), Long(8), Word(20), Word(32), Long(24)],
            b"\0",
        )],
        reply: Error(ENOSYS),
    },
    // with a flush and without an owner of locks, and the reverse
    Row {
        asks: Asks(FUSE_RELEASE, 24, &[(12, 1)], b""),
        calls: &[(
            "release",
            &[Node, Long(0), Word(8), Absent, Flag(true)],
            b"",
        )],
        reply: Payload(&[]),
    },
    Row {
        asks: Asks(FUSE_RELEASE, 24, &[(12, 2)], b""),
        calls: &[(
            "release",
            &[Node, Long(0), Word(8), Long(16), Flag(false)],
            b"",
        )],
        reply: Payload(&[]),
    },
    Row {
        asks: Asks(FUSE_FSYNC, 16, &[(8, 1)], b""),
        calls: &[("fsync", &[Node, Long(0), Flag(true)], b"")],
        reply: Error(ENOSYS),
    },
    Row {
        asks: Asks(FUSE_FSYNC, 16, &[(8, 2)], b""),
        calls: &[("fsync", &[Node, Long(0), Flag(false)], b"")],
        reply: Error(ENOSYS),
    },
    Row {
        asks: Asks(FUSE_FLUSH, 24, &[], b""),
        calls: &[("flush", &[Node, Long(0), Long(16)], b"")],
        reply: Error(ENOSYS),
    },
    Row {
        asks: Asks(FUSE_CREATE, 16, &[], b"file\0"),
        calls: &[("create", &[Node, Word(4), Word(8), Word(0)], b"file\0")],
        reply: Error(ENOSYS),
    },
    Row {
        asks: Asks(FUSE_FALLOCATE, 32, &[], b""),
        calls: &[(
            "fallocate",
            &[Node, Long(0), Long(8), Long(16), Word(24)],
            b"",
        )],
        reply: Error(ENOSYS),
    },
    // an offset from the start, and one before it
    Row {
        asks: Asks(FUSE_LSEEK, 24, &[], b""),
        calls: &[("lseek", &[Node, Long(0), Long(8), Word(16)], b"")],
        reply: Error(ENOSYS),
    },
    Row {
        asks: Asks(
            FUSE_LSEEK,
            24,
            &[
                (8, 254),
                (9, 255),
                (10, 255),
                (11, 255),
                (12, 255),
                (13, 255),
                (14, 255),
                (15, 255),
            ],
            b"",
        ),
        calls: &[("lseek", &[Node, Long(0), Number(-2), Word(16)], b"")],
        reply: Error(ENOSYS),
    },
    Row {
        asks: Asks(FUSE_COPY_FILE_RANGE, 56, &[], b""),
        calls: &[(
            "copy_file_range",
            &[
                Node,
                Long(0),
                Long(8),
                Long(16),
                Long(24),
                Long(32),
                Long(40),
                Long(48),
            ],
            b"",
        )],
        reply: Error(ENOSYS),
    },
];

static OTHERS: [Row; 18] = [
    Row {
        asks: Asks(FUSE_OPENDIR, 8, &[], b""),
        calls: &[("opendir", &[Node, Word(0)], b"")],
        reply: Payload(&OPENED),
    },
    Row {
        asks: Asks(FUSE_READDIR, 40, &[], b""),
        calls: &[("readdir", &[Node, Long(0), Long(8), Word(16)], b"")],
        reply: Error(ENOSYS),
    },
    Row {
        asks: Asks(FUSE_READDIRPLUS, 40, &[], b""),
        calls: &[("readdirplus", &[Node, Long(0), Long(8), Word(16)], b"")],
        reply: Error(ENOSYS),
    },
    Row {
        asks: Asks(FUSE_RELEASEDIR, 24, &[], b""),
        calls: &[("releasedir", &[Node, Long(0), Word(8)], b"")],
        reply: Payload(&[]),
    },
    Row {
        asks: Asks(FUSE_FSYNCDIR, 16, &[(8, 1)], b""),
        calls: &[("fsyncdir", &[Node, Long(0), Flag(true)], b"")],
        reply: Error(ENOSYS),
    },
    Row {
        asks: Asks(FUSE_FSYNCDIR, 16, &[(8, 2)], b""),
        calls: &[("fsyncdir", &[Node, Long(0), Flag(false)], b"")],
        reply: Error(ENOSYS),
    },
    Row {
        asks: Asks(FUSE_GETLK, 48, &[], b""),
        calls: &[(
            "getlk",
            &[
                Node,
                Long(0),
                Long(8),
                Long(16),
                Long(24),
                Word(32),
                Word(36),
            ],
            b"",
        )],
        reply: Error(ENOSYS),
    },
    Row {
        asks: Asks(FUSE_SETLK, 48, &[], b""),
        calls: &[(
            "setlk",
            &[
                Node,
                Long(0),
                Long(8),
                Long(16),
                Long(24),
                Word(32),
                Word(36),
                Flag(false),
            ],
            b"",
        )],
        reply: Error(ENOSYS),
    },
    // a type below 0, which no kernel sends
    Row {
        asks: Asks(FUSE_SETLKW, 48, &[(35, 0xff)], b""),
        calls: &[(
            "setlk",
            &[
                Node,
                Long(0),
                Long(8),
                Long(16),
                Long(24),
                Number(-0xdc_dddf),
                Word(36),
                Flag(true),
            ],
            b"",
        )],
        reply: Error(ENOSYS),
    },
    Row {
        asks: Asks(FUSE_BMAP, 16, &[], b""),
        calls: &[("bmap", &[Node, Word(8), Long(0)], b"")],
        reply: Error(ENOSYS),
    },
    // more data than it counts; and FUSE_IOCTL_UNRESTRICTED, with which it is not asked
    Row {
        asks: Asks(
            FUSE_IOCTL,
            32,
            &[(8, 1), (24, 4), (25, 0), (26, 0), (27, 0)],
            b"inputrest",
        ),
        calls: &[(
            "ioctl",
            &[Node, Long(0), Word(8), Word(12), Word(28)],
            b"inpu\0",
        )],
        reply: Error(ENOSYS),
    },
    Row {
        asks: Asks(
            FUSE_IOCTL,
            32,
            &[(8, 2), (24, 4), (25, 0), (26, 0), (27, 0)],
            b"inputrest",
        ),
        calls: &[],
        reply: Error(ENOSYS),
    },
    Row {
        asks: Asks(FUSE_POLL, 24, &[], b""),
        calls: &[("poll", &[Node, Long(0), Long(8), Word(20), Word(16)], b"")],
        reply: Error(ENOSYS),
    },
    // what no filesystem is asked
    Row {
        asks: Asks(FUSE_INIT, 64, &[], b""),
        calls: &[],
        reply: Error(EIO),
    },
    Row {
        asks: Asks(FUSE_INTERRUPT, 8, &[], b""),
        calls: &[("interrupt", &[Long(0)], b"")],
        reply: Error(ENOSYS),
    },
    Row {
        asks: Asks(FUSE_NOTIFY_REPLY, 0, &[], b"rest"),
        calls: &[],
        reply: Error(ENOSYS),
    },
    Row {
        asks: Asks(CUSE_INIT, 64, &[], b""),
        calls: &[],
        reply: Error(ENOSYS),
    },
    Row {
        asks: Asks(FUSE_DESTROY, 0, &[], b""),
        calls: &[],
        reply: Payload(&[]),
    },
];
