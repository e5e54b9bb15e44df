// A session of the one file.
use crate::rows::{
    DIR, ENOENT, EROFS, FILE, LOOKUP, MKDIR, NOTHING, OPEN, OPENING, READ, READDIR, Row,
};
use crate::serving::{expect_served, rest_of, source_of};
use fuse_wire::MemorySink;
use uses::{OneFile, serve_one_file};

const DESTROY: u8 = 38;

/// The messages, and what each gets.
const SESSION: &[Row] = &[
    OPENING,
    // the entry of `note`: `struct fuse_entry_out` with a second of each validity, and the mode 0o100444
    (
        LOOKUP,
        1,
        (&[], b"note\0"),
        0,
        (
            &[2, 0, 1, 1, 0, 2, 19, 1, 0, 0, 0, 0, 0x8124 << 32, 1, 0, 512],
            b"",
        ),
    ),
    (LOOKUP, 1, (&[], b"none\0"), ENOENT, NOTHING),
    // 4 bytes from offset 13 on: `struct fuse_read_in`
    (READ, 2, (&[0, 13, 4, 0, 0], b""), 0, (&[], b"milk")),
    // from offset 0 on, at most 4096 bytes: the entries `.`, `..` and `note`, `struct fuse_dirent` each, with the offset
    // after it, the length of its name and its type, and zero bytes behind the name
    (
        READDIR,
        1,
        (&[0, 0, 4096, 0, 0], b""),
        0,
        (
            &[1, 1, DIR | 1, 0x2e, 1, 2, DIR | 2, 0x2e2e, 2, 3, FILE | 4],
            b"note\0\0\0\0",
        ),
    ),
    // with `O_WRONLY` (1) and `O_LARGEFILE` (0x8000): `struct fuse_open_in`
    (OPEN, 2, (&[0x8001], b""), EROFS, NOTHING),
    // `new` of mode 0o755 under the mask 0o022: `struct fuse_mkdir_in`
    (MKDIR, 1, (&[0x12_0000_01ed], b"new\0"), EROFS, NOTHING),
    (DESTROY, 0, NOTHING, 0, NOTHING),
];

#[test]
fn serves_the_file(rt: HostRuntime) {
    let source = source_of(&rt, SESSION);
    let sink = MemorySink::new(rt.alloc(), Vec::new(rt.alloc()));
    let ended = serve_one_file(&rt, OneFile, source, sink);
    let (_, rest) = rest_of(ended);
    expect_served(&rt, &rest, SESSION);
}
