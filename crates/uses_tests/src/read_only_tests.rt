// Sessions of a small tree and of a wide one, which are only read: each request, and what it gets.
use crate::asserts::expect_same;
use crate::pair::{LONG, Pair};
use crate::rows::{
    BATCH_FORGET, Bytes, DIR, ENOENT, ENOSYS, EROFS, FILE, FORGET, GETATTR, LOOKUP, NO_BLOCKS,
    NO_FLAGS, NOTHING, OPEN, OPENDIR, OPENED, OPENING, READ, READDIR, Row, STATFS, put,
};
use crate::serving::{ended_well, expect_noted, serve};
use crate::wide::Wide;
use fuse_read_only::ReadOnly;
use fuse_wire::RequestId;
use std::process::Abort;
use std::sync::Wait;
use std::thread::Threads;

const READLINK: u8 = 5;

const EINVAL: u8 = 22;

/// Serves these messages in one session, which sends the frames of these rows in this order, and these notes.
fn serves<R: Threads + Wait + AllocGlobal + Abort + Sync>(
    rt: &R,
    rows: &[Row],
    notes: &[(RequestId, u64)],
) {
    let (filesystem, rest) = serve(rt, ReadOnly::new(Pair), None, rows);
    expect_noted(rt, &rest, rows, notes);
    drop(rest);
    drop(filesystem);
}

/// The last offset that a signed number has, and the last that there is.
const FAR: u64 = 0x7fff_ffff_ffff_ffff;

const FARTHEST: u64 = 0xffff_ffff_ffff_ffff;

// The entry of `one` of 6 bytes, and attributes of the directory and of node 3, whose 513 bytes are two blocks: `struct
// fuse_entry_out` and `struct fuse_attr_out`, which hold for a second, with the modes 0o100444 and 0o040755.
const ENTRY: Bytes = (
    &[2, 0, 1, 1, 0, 2, 6, 1, 0, 0, 0, 0, 0x8124 << 32, 1, 0, 512],
    b"",
);

const OF_DIRECTORY: Bytes = (&[1, 0, 1, 0, 0, 0, 0, 0, 0, 0x41ed << 32, 2, 0, 512], b"");

const OF_513: Bytes = (&[1, 0, 3, 513, 2, 0, 0, 0, 0, 0x8124 << 32, 1, 0, 512], b"");

/// 159 bytes, for which memory is taken.
const DIGITS: Bytes = (
    &[],
    b"012345678901234567890123456789012345678901234567890123456789012345678901234567890123456789012345678901234567890123456789012345678901234567890123456789012345678",
);

/// The whole file is read: a READ is a `struct fuse_read_in`, with the offset and the size after the handle.
const WHOLE: Row = (READ, 2, (&[0, 0, 255, 0, 0], b""), 0, (&[], b"first\n"));

/// Names, attributes, and what is read.
const LOOKED_AT: &[Row] = &[
    OPENING,
    (LOOKUP, 1, (&[], b"one\0"), 0, ENTRY),
    (LOOKUP, 1, (&[], b"none\0"), ENOENT, NOTHING),
    (LOOKUP, 2, (&[], b"one\0"), ENOENT, NOTHING),
    (GETATTR, 1, (&[0, 0], b""), 0, OF_DIRECTORY),
    (GETATTR, 3, (&[0, 0], b""), 0, OF_513),
    (GETATTR, 5, (&[0, 0], b""), ENOENT, NOTHING),
    (OPEN, 2, NO_FLAGS, 0, OPENED),
    WHOLE,
    (READ, 2, (&[0, 2, 3, 0, 0], b""), 0, (&[], b"rst")),
    (READ, 2, (&[0, 6, 1, 0, 0], b""), 0, NOTHING),
    (READ, 2, (&[0, FAR, 1, 0, 0], b""), 0, NOTHING),
    (READ, 3, (&[0, 0, 159, 0, 0], b""), 0, DIGITS),
    (READ, 1, (&[0, 0, 1, 0, 0], b""), ENOENT, NOTHING),
    (READLINK, 4, NOTHING, 0, (&[], b"one")),
    (READLINK, 2, NOTHING, EINVAL, NOTHING),
    (READLINK, 1, NOTHING, EINVAL, NOTHING),
    (READLINK, 5, NOTHING, ENOENT, NOTHING),
];

#[test]
fn looks_up_and_reads(rt: HostRuntime) {
    serves(&rt, LOOKED_AT, &[]);
}

// The entries `.`, `..` and `one`, each a `struct fuse_dirent` with a name, filled to 8 bytes: the node, the offset after it,
// the length of its name and its type. Then all, with the long name; the second alone; and the last alone.
const THREE: Bytes = (
    &[1, 1, DIR | 1, 0x2e, 1, 2, DIR | 2, 0x2e2e, 2, 3, FILE | 3],
    b"one\0\0\0\0\0",
);

const ALL: Bytes = (
    &[
        1,
        1,
        DIR | 1,
        0x2e,
        1,
        2,
        DIR | 2,
        0x2e2e,
        2,
        3,
        FILE | 3,
        0x65_6e6f,
        3,
        4,
        FILE | 40,
    ],
    LONG,
);

const ABOVE: Bytes = (&[1, 2, DIR | 2, 0x2e2e], b"");

const LAST: Bytes = (&[3, 4, FILE | 40], LONG);

/// READDIR with offsets and sizes as a READ has them.
const LISTED: &[Row] = &[
    OPENING,
    (READDIR, 1, (&[0, 0, 160, 0, 0], b""), 0, ALL),
    (READDIR, 1, (&[0, 0, 159, 0, 0], b""), 0, THREE),
    (READDIR, 1, (&[0, 3, 159, 0, 0], b""), 0, LAST),
    (READDIR, 1, (&[0, 1, 63, 0, 0], b""), 0, ABOVE),
    (READDIR, 1, (&[0, 0, 31, 0, 0], b""), 0, NOTHING),
    (READDIR, 1, (&[0, 4, 255, 0, 0], b""), 0, NOTHING),
    (READDIR, 1, (&[0, FARTHEST, 255, 0, 0], b""), 0, NOTHING),
    (READDIR, 2, (&[0, 0, 255, 0, 0], b""), 0, NOTHING),
    (READDIR, 5, (&[0, 0, 255, 0, 0], b""), ENOENT, NOTHING),
    (OPENDIR, 1, NO_FLAGS, 0, OPENED),
];

#[test]
fn lists_what_fits(rt: HostRuntime) {
    serves(&rt, LISTED, &[]);
}

/// What is asked, how long the payload is that it gets, and the first and the last 32 bytes of it.
type Long<'a> = (Row<'a>, usize, [u64; 4], [u64; 4]);

/// The whole directory of 300 entries; from the entry 151 on the 128 that fit into 4096 bytes; and by a READ of 100,000 bytes
/// the whole file.
const LONG_ONES: &[Long] = &[
    (
        (READDIR, 1, (&[0, 0, 65536, 0, 0], b""), 0, NOTHING),
        9600,
        [2, 1, FILE | 3, 0x30_3030],
        [2, 300, FILE | 3, 0x39_3932],
    ),
    (
        (READDIR, 1, (&[0, 150, 4096, 0, 0], b""), 0, NOTHING),
        4096,
        [2, 151, FILE | 3, 0x30_3531],
        [2, 278, FILE | 3, 0x37_3732],
    ),
    (
        (READ, 2, (&[0, 0, 100_000, 0, 0], b""), 0, NOTHING),
        100_000,
        [0x61, 0, 0, 0],
        [0, 0, 0, 0x7a << 56],
    ),
];

/// The names `000` to `299`, and a file of 100,000 bytes.
fn wide<R: AllocGlobal + Abort>(rt: &R) -> Wide {
    let mut names = Vec::new(rt.alloc());
    for hundreds in b"012" {
        for tens in b"0123456789" {
            for ones in b"0123456789" {
                names
                    .push([*hundreds, *tens, *ones])
                    .expect(rt, "there is memory");
            }
        }
    }
    let mut file = Vec::new(rt.alloc());
    file.push(b'a').expect(rt, "there is memory");
    file.resize(99_999, 0).expect(rt, "there is memory");
    file.push(b'z').expect(rt, "there is memory");
    Wide { names, file }
}

/// The frame has this id, is so long behind its header, and begins and ends so.
fn expect_ends<R: AllocGlobal + Abort>(rt: &R, id: u64, found: &[u8], long: &Long) {
    let (_, length, first, last) = *long;
    let size = length.saturating_add(16);
    let mut ends = Vec::new(rt.alloc());
    put(rt, &mut ends, &[size as u64, id], b"");
    put(rt, &mut ends, &first, b"");
    put(rt, &mut ends, &last, b"");
    let end = found.len().saturating_sub(32);
    let front = found.get(..48).unwrap_or(b"too few");
    let back = found.get(end..).unwrap_or(b"too few");
    let found = (id, found.len(), front, back);
    let front = ends.get(..48).unwrap_or(b"too few");
    let back = ends.get(48..).unwrap_or(b"too few");
    expect_same(rt, &found, &(id, size, front, back));
}

/// While there is memory what takes much of it is given too.
#[test]
fn gives_what_is_long(rt: HostRuntime) {
    let rows = [OPENING, LONG_ONES[0].0, LONG_ONES[1].0, LONG_ONES[2].0];
    let (filesystem, rest) = serve(&rt, ReadOnly::new(wide(&rt)), None, &rows);
    ended_well(&rt, &rest, 4, 4, &[]);
    let frames = rest.sink.frames().iter().skip(1);
    for (place, (found, long)) in frames.zip(LONG_ONES).enumerate() {
        let id = (place as u64).saturating_add(2);
        expect_ends(&rt, id, found.as_slice(), long);
    }
    drop(rest);
    drop(filesystem);
}

/// Each call that would change something, by the number of its opcode, and the file as it is then.
const REFUSED: &[Row] = &[
    OPENING,
    (
        4,
        2,
        (&[0, 0, 0, 0, 0, 0, 0, 0, 0, 0, 0], b""),
        EROFS,
        NOTHING,
    ),
    (6, 1, (&[], b"link\0one\0"), EROFS, NOTHING),
    (8, 1, (&[0x81a4, 0], b"new\0"), EROFS, NOTHING),
    (9, 1, (&[0x1ed], b"new\0"), EROFS, NOTHING),
    (10, 1, (&[], b"one\0"), EROFS, NOTHING),
    (11, 1, (&[], b"one\0"), EROFS, NOTHING),
    (12, 1, (&[1], b"one\0two\0"), EROFS, NOTHING),
    (13, 1, (&[2], b"two\0"), EROFS, NOTHING),
    (OPEN, 2, (&[0x8001], b""), EROFS, NOTHING),
    (OPEN, 2, (&[0x8002], b""), EROFS, NOTHING),
    (16, 2, (&[0, 0, 4, 0, 0], b"\0\0\0\0"), EROFS, NOTHING),
    (21, 2, (&[4], b"a.b\0byte"), EROFS, NOTHING),
    (24, 2, (&[], b"a.b\0"), EROFS, NOTHING),
    (35, 1, (&[0x81a4_0000_0002, 0], b"new\0"), EROFS, NOTHING),
    (43, 2, (&[0, 0, 0, 0], b""), EROFS, NOTHING),
    (45, 1, (&[1, 1], b"one\0two\0"), EROFS, NOTHING),
    (47, 2, (&[0, 0, 0, 0, 0, 0, 0], b""), EROFS, NOTHING),
    WHOLE,
];

#[test]
fn changes_nothing(rt: HostRuntime) {
    serves(&rt, REFUSED, &[]);
}

/// Each other call that is answered by default, by the number of its opcode, with a body that is zero but for a name or a
/// size. A forget of nine, and a batch of two rows.
const BY_DEFAULT: &[Row] = &[
    OPENING,
    (STATFS, 1, NOTHING, 0, NO_BLOCKS),
    (18, 2, (&[0, 0, 0], b""), 0, NOTHING),
    (20, 2, (&[0, 0], b""), ENOSYS, NOTHING),
    (22, 2, (&[0], b"a.b\0"), ENOSYS, NOTHING),
    (23, 2, (&[0], b""), ENOSYS, NOTHING),
    (25, 2, (&[0, 0, 0], b""), ENOSYS, NOTHING),
    (29, 1, (&[0, 0, 0], b""), 0, NOTHING),
    (30, 1, (&[0, 0], b""), ENOSYS, NOTHING),
    (31, 2, (&[0, 0, 0, 0, 0, 0], b""), ENOSYS, NOTHING),
    (32, 2, (&[0, 0, 0, 0, 0, 0], b""), ENOSYS, NOTHING),
    (33, 2, (&[0, 0, 0, 0, 0, 0], b""), ENOSYS, NOTHING),
    (34, 2, (&[0], b""), ENOSYS, NOTHING),
    (37, 2, (&[0, 0], b""), ENOSYS, NOTHING),
    (39, 2, (&[0, 0, 0, 0], b""), ENOSYS, NOTHING),
    (40, 2, (&[0, 0, 0], b""), ENOSYS, NOTHING),
    (44, 1, (&[0, 0, 255, 0, 0], b""), ENOSYS, NOTHING),
    (46, 2, (&[0, 0, 0], b""), ENOSYS, NOTHING),
    (FORGET, 2, (&[9], b""), 0, NOTHING),
    (BATCH_FORGET, 0, (&[2, 2, 5, 3, 7], b""), 0, NOTHING),
];

#[test]
fn answers_by_default_and_notes_forgets(rt: HostRuntime) {
    let notes = [(RequestId(19), 9), (RequestId(20), 2)];
    serves(&rt, BY_DEFAULT, &notes);
}
