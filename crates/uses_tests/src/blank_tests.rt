// A session of the filesystem that wants nothing of its own.
use crate::rows::{
    ENOSYS, EPERM, FORGET, GETATTR, LOOKUP, NO_BLOCKS, NO_FLAGS, NOTHING, OPEN, OPENDIR, OPENED,
    OPENING, READ, Row, STATFS,
};
use crate::serving::{expect_noted, serve};
use fuse_wire::RequestId;
use templates::Blank;

// Linux's numbers: `include/uapi/linux/fuse.h`.
const SYMLINK: u8 = 6;

const LINK: u8 = 13;

const RELEASE: u8 = 18;

const RELEASEDIR: u8 = 29;

/// What is asked, and what the Rust crate's default methods answer. A forget leaves the mark 0.
const BY_DEFAULT: &[Row] = &[
    OPENING,
    (LOOKUP, 1, (&[], b"a\0"), ENOSYS, NOTHING),
    (GETATTR, 1, (&[0, 0], b""), ENOSYS, NOTHING),
    (SYMLINK, 1, (&[], b"a\0b\0"), EPERM, NOTHING),
    (LINK, 1, (&[2], b"a\0"), EPERM, NOTHING),
    (OPEN, 2, NO_FLAGS, 0, OPENED),
    (READ, 2, (&[0, 0, 9, 0, 0], b""), ENOSYS, NOTHING),
    (RELEASE, 2, (&[0, 0, 0], b""), 0, NOTHING),
    (OPENDIR, 1, NO_FLAGS, 0, OPENED),
    (RELEASEDIR, 1, (&[0, 0, 0], b""), 0, NOTHING),
    (STATFS, 1, NOTHING, 0, NO_BLOCKS),
    (FORGET, 2, (&[9], b""), 0, NOTHING),
];

#[test]
fn a_blank_answers_by_default(rt: HostRuntime) {
    let (_, rest) = serve(&rt, Blank, None, BY_DEFAULT);
    expect_noted(&rt, &rest, BY_DEFAULT, &[(RequestId(12), 0)]);
}
