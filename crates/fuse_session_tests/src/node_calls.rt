// Calls about inodes and names.
use crate::calls::Reply::{Error, Note, Payload};
use crate::calls::Wanted::{Absent, Long, Node, Now, Number, Time, Word};
use crate::calls::{Row, STATFS};
use fuse_request::opcode::{
    FUSE_ACCESS, FUSE_BATCH_FORGET, FUSE_FORGET, FUSE_GETATTR, FUSE_GETXATTR, FUSE_LINK,
    FUSE_LISTXATTR, FUSE_LOOKUP, FUSE_MKDIR, FUSE_MKNOD, FUSE_READLINK, FUSE_REMOVEXATTR,
    FUSE_RENAME, FUSE_RENAME2, FUSE_RMDIR, FUSE_SETATTR, FUSE_SETXATTR, FUSE_STATFS, FUSE_SYMLINK,
    FUSE_UNLINK,
};
use fuse_testing::test_messages::{Asks, ENOSYS, EPERM};

/// A message of each opcode that is about inodes, with what it comes to.
pub(crate) fn inodes() -> &'static [Row] {
    &INODES
}

/// A message of each opcode that is about names, links and attributes by name, with what it comes to.
pub(crate) fn names() -> &'static [Row] {
    &NAMES
}

static INODES: [Row; 16] = [
    Row {
        asks: Asks(FUSE_LOOKUP, 0, &[], b"none\0"),
        calls: &[("lookup", &[Node], b"none\0")],
        reply: Error(ENOSYS),
    },
    Row {
        asks: Asks(FUSE_FORGET, 8, &[], b""),
        calls: &[("forget", &[Node, Long(0)], b"")],
        reply: Note,
    },
    // by an open file, and not by one
    Row {
        asks: Asks(FUSE_GETATTR, 16, &[], b""),
        calls: &[("getattr", &[Node, Long(8)], b"")],
        reply: Error(ENOSYS),
    },
    Row {
        asks: Asks(FUSE_GETATTR, 16, &[(0, 2)], b""),
        calls: &[("getattr", &[Node, Absent], b"")],
        reply: Error(ENOSYS),
    },
    // all, and none
    Row {
        asks: Asks(FUSE_SETATTR, 88, &[(0, 127), (1, 4), (2, 0), (3, 0)], b""),
        calls: &[(
            "setattr",
            &[
                Node,
                Word(68),
                Word(76),
                Word(80),
                Long(16),
                Time(32),
                Time(40),
                Time(48),
                Long(8),
                Absent,
                Absent,
                Absent,
                Absent,
            ],
            b"",
        )],
        reply: Error(ENOSYS),
    },
    Row {
        asks: Asks(FUSE_SETATTR, 88, &[(0, 0), (1, 0), (2, 0), (3, 0)], b""),
        calls: &[(
            "setattr",
            &[
                Node, Absent, Absent, Absent, Absent, Absent, Absent, Absent, Absent, Absent,
                Absent, Absent, Absent,
            ],
            b"",
        )],
        reply: Error(ENOSYS),
    },
    // FATTR_MODE, FATTR_GID, FATTR_ATIME and FATTR_FH, and then the others
    Row {
        asks: Asks(FUSE_SETATTR, 88, &[(0, 85), (1, 0), (2, 0), (3, 0)], b""),
        calls: &[(
            "setattr",
            &[
                Node,
                Word(68),
                Absent,
                Word(80),
                Absent,
                Time(32),
                Absent,
                Absent,
                Long(8),
                Absent,
                Absent,
                Absent,
                Absent,
            ],
            b"",
        )],
        reply: Error(ENOSYS),
    },
    Row {
        asks: Asks(FUSE_SETATTR, 88, &[(0, 42), (1, 4), (2, 0), (3, 0)], b""),
        calls: &[(
            "setattr",
            &[
                Node,
                Absent,
                Word(76),
                Absent,
                Long(16),
                Absent,
                Time(40),
                Time(48),
                Absent,
                Absent,
                Absent,
                Absent,
                Absent,
            ],
            b"",
        )],
        reply: Error(ENOSYS),
    },
    // the present: FATTR_ATIME_NOW and FATTR_MTIME_NOW, which say nothing alone
    Row {
        asks: Asks(FUSE_SETATTR, 88, &[(0, 176), (1, 1), (2, 0), (3, 0)], b""),
        calls: &[(
            "setattr",
            &[
                Node, Absent, Absent, Absent, Absent, Now, Now, Absent, Absent, Absent, Absent,
                Absent, Absent,
            ],
            b"",
        )],
        reply: Error(ENOSYS),
    },
    Row {
        asks: Asks(FUSE_SETATTR, 88, &[(0, 176), (1, 0), (2, 0), (3, 0)], b""),
        calls: &[(
            "setattr",
            &[
                Node,
                Absent,
                Absent,
                Absent,
                Absent,
                Now,
                Time(40),
                Absent,
                Absent,
                Absent,
                Absent,
                Absent,
                Absent,
            ],
            b"",
        )],
        reply: Error(ENOSYS),
    },
    Row {
        asks: Asks(FUSE_SETATTR, 88, &[(0, 48), (1, 1), (2, 0), (3, 0)], b""),
        calls: &[(
            "setattr",
            &[
                Node,
                Absent,
                Absent,
                Absent,
                Absent,
                Time(32),
                Now,
                Absent,
                Absent,
                Absent,
                Absent,
                Absent,
                Absent,
            ],
            b"",
        )],
        reply: Error(ENOSYS),
    },
    Row {
        asks: Asks(FUSE_SETATTR, 88, &[(0, 128), (1, 1), (2, 0), (3, 0)], b""),
        calls: &[(
            "setattr",
            &[
                Node, Absent, Absent, Absent, Absent, Absent, Absent, Absent, Absent, Absent,
                Absent, Absent, Absent,
            ],
            b"",
        )],
        reply: Error(ENOSYS),
    },
    Row {
        asks: Asks(FUSE_STATFS, 0, &[], b""),
        calls: &[("statfs", &[Node], b"")],
        reply: Payload(&STATFS),
    },
    Row {
        asks: Asks(FUSE_ACCESS, 8, &[], b""),
        calls: &[("access", &[Node, Word(0)], b"")],
        reply: Error(ENOSYS),
    },
    // three rows, and no row
    Row {
        asks: Asks(
            FUSE_BATCH_FORGET,
            56,
            &[(0, 3), (1, 0), (2, 0), (3, 0)],
            b"",
        ),
        calls: &[
            ("batch_forget", &[Number(3)], b""),
            ("forget", &[Long(8), Long(16)], b""),
            ("forget", &[Long(24), Long(32)], b""),
            ("forget", &[Long(40), Long(48)], b""),
        ],
        reply: Note,
    },
    Row {
        asks: Asks(FUSE_BATCH_FORGET, 8, &[(0, 0), (1, 0), (2, 0), (3, 0)], b""),
        calls: &[("batch_forget", &[Number(0)], b"")],
        reply: Note,
    },
];

static NAMES: [Row; 14] = [
    Row {
        asks: Asks(FUSE_READLINK, 0, &[], b""),
        calls: &[("readlink", &[Node], b"")],
        reply: Error(ENOSYS),
    },
    Row {
        asks: Asks(FUSE_SYMLINK, 0, &[], b"link\0target\0"),
        calls: &[("symlink", &[Node], b"link\0target\0")],
        reply: Error(EPERM),
    },
    Row {
        asks: Asks(FUSE_MKNOD, 16, &[], b"node\0"),
        calls: &[("mknod", &[Node, Word(0), Word(8), Word(4)], b"node\0")],
        reply: Error(ENOSYS),
    },
    Row {
        asks: Asks(FUSE_MKDIR, 8, &[], b"dir\0"),
        calls: &[("mkdir", &[Node, Word(0), Word(4)], b"dir\0")],
        reply: Error(ENOSYS),
    },
    Row {
        asks: Asks(FUSE_UNLINK, 0, &[], b"file\0"),
        calls: &[("unlink", &[Node], b"file\0")],
        reply: Error(ENOSYS),
    },
    Row {
        asks: Asks(FUSE_RMDIR, 0, &[], b"dir\0"),
        calls: &[("rmdir", &[Node], b"dir\0")],
        reply: Error(ENOSYS),
    },
    Row {
        asks: Asks(FUSE_RENAME, 8, &[], b"old\0new\0"),
        calls: &[("rename", &[Node, Long(0), Number(0)], b"old\0new\0")],
        reply: Error(ENOSYS),
    },
    Row {
        asks: Asks(FUSE_RENAME2, 16, &[], b"old\0new\0"),
        calls: &[("rename", &[Node, Long(0), Word(8)], b"old\0new\0")],
        reply: Error(ENOSYS),
    },
    // without flags it is the same call as RENAME
    Row {
        asks: Asks(
            FUSE_RENAME2,
            16,
            &[(8, 0), (9, 0), (10, 0), (11, 0)],
            b"old\0new\0",
        ),
        calls: &[("rename", &[Node, Long(0), Number(0)], b"old\0new\0")],
        reply: Error(ENOSYS),
    },
    Row {
        asks: Asks(FUSE_LINK, 8, &[], b"name\0"),
        calls: &[("link", &[Long(0), Node], b"name\0")],
        reply: Error(EPERM),
    },
    Row {
        asks: Asks(
            FUSE_SETXATTR,
            8,
            &[(0, 5), (1, 0), (2, 0), (3, 0)],
            b"user.a\0value",
        ),
        calls: &[(
            "setxattr",
            &[Node, Word(4), Number(0), Number(0)],
            b"user.a\0value\0",
        )],
        reply: Error(ENOSYS),
    },
    Row {
        asks: Asks(FUSE_GETXATTR, 8, &[], b"user.a\0"),
        calls: &[("getxattr", &[Node, Word(0)], b"user.a\0")],
        reply: Error(ENOSYS),
    },
    Row {
        asks: Asks(FUSE_LISTXATTR, 8, &[], b""),
        calls: &[("listxattr", &[Node, Word(0)], b"")],
        reply: Error(ENOSYS),
    },
    Row {
        asks: Asks(FUSE_REMOVEXATTR, 0, &[], b"user.a\0"),
        calls: &[("removexattr", &[Node], b"user.a\0")],
        reply: Error(ENOSYS),
    },
];
