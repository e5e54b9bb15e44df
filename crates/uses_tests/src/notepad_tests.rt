// Sessions of the file that can be written.
use crate::rows::{
    Bytes, ENOENT, EPERM, GETATTR, LOOKUP, NOTHING, OPEN, OPENED, OPENING, READ, Row,
};
use crate::serving::{expect_served, serve};
use uses::Notepad;

// Linux's numbers: `include/uapi/linux/fuse.h` and `errno-base.h`.
const SETATTR: u8 = 4;

const WRITE: u8 = 16;

const EISDIR: u8 = 21;

const ENOSPC: u8 = 28;

/// `struct fuse_read_in` and `struct fuse_write_in` have the offset and the size after the handle: this READ asks for 99 bytes.
const ALL: Bytes = (&[0, 0, 99, 0, 0], b"");

/// The mode 0o100644, after the nanoseconds of a time.
const MODE: u64 = 0x81a4 << 32;

// Attributes of a file of 4, 6, 8 or 4096 bytes, which hold for a second: `struct fuse_attr_out`, with the size and the blocks
// behind the node. And the entry of that of 8 bytes: `struct fuse_entry_out`.
const OF_4: Bytes = (&[1, 0, 2, 4, 1, 0, 0, 0, 0, MODE, 1, 0, 512], b"");

const OF_6: Bytes = (&[1, 0, 2, 6, 1, 0, 0, 0, 0, MODE, 1, 0, 512], b"");

const OF_8: Bytes = (&[1, 0, 2, 8, 1, 0, 0, 0, 0, MODE, 1, 0, 512], b"");

const OF_4096: Bytes = (&[1, 0, 2, 4096, 8, 0, 0, 0, 0, MODE, 1, 0, 512], b"");

const ENTRY_OF_8: Bytes = (&[2, 0, 1, 1, 0, 2, 8, 1, 0, 0, 0, 0, MODE, 1, 0, 512], b"");

/// What is written and read.
const WRITTEN: &[Row] = &[
    OPENING,
    (OPEN, 2, (&[2], b""), 0, OPENED),
    (READ, 2, ALL, 0, NOTHING),
    // five bytes behind two that nobody wrote
    (WRITE, 2, (&[0, 2, 5, 0, 0], b"hello"), 0, (&[5], b"")),
    (READ, 2, ALL, 0, (&[], b"\0\0hello")),
    // over some of them, and over the end
    (WRITE, 2, (&[0, 1, 3, 0, 0], b"Yel"), 0, (&[3], b"")),
    (WRITE, 2, (&[0, 5, 3, 0, 0], b"ow!"), 0, (&[3], b"")),
    (READ, 2, ALL, 0, (&[], b"\0Yellow!")),
    (READ, 2, (&[0, 4, 2, 0, 0], b""), 0, (&[], b"lo")),
    (GETATTR, 2, (&[0, 0], b""), 0, OF_8),
    // the last byte that there is room for is at 4095
    (WRITE, 2, (&[0, 4095, 2, 0, 0], b"no"), ENOSPC, NOTHING),
    (READ, 2, ALL, 0, (&[], b"\0Yellow!")),
    // the file by its name, as it is
    (LOOKUP, 1, (&[], b"note\0"), 0, ENTRY_OF_8),
    // no bytes, behind the end: nothing changes
    (WRITE, 2, (&[0, 32, 0, 0, 0], b""), 0, (&[0], b"")),
    (READ, 2, ALL, 0, (&[], b"\0Yellow!")),
    // the last byte, and then the file is full: 4096 bytes are 8 blocks
    (WRITE, 2, (&[0, 4095, 1, 0, 0], b"."), 0, (&[1], b"")),
    (READ, 2, (&[0, 4093, 99, 0, 0], b""), 0, (&[], b"\0\0.")),
    (GETATTR, 2, (&[0, 0], b""), 0, OF_4096),
    (READ, 2, (&[0, 0, 9, 0, 0], b""), 0, (&[], b"\0Yellow!\0")),
];

// `struct fuse_setattr_in` with the flag 8 of `valid`, and a size; and with another flag, and a mode.
const TO_4: Bytes = (&[8, 0, 4, 0, 0, 0, 0, 0, 0, 0, 0], b"");

const TO_6: Bytes = (&[8, 0, 6, 0, 0, 0, 0, 0, 0, 0, 0], b"");

const TO_4097: Bytes = (&[8, 0, 4097, 0, 0, 0, 0, 0, 0, 0, 0], b"");

const TO_0: Bytes = (&[8, 0, 0, 0, 0, 0, 0, 0, 0, 0, 0], b"");

const TO_MODE: Bytes = (&[1, 0, 0, 0, 0, 0, 0, 0, 0xff << 32, 0, 0], b"");

/// A size that is set, and what the nodes that are no file get.
const RESIZED: &[Row] = &[
    OPENING,
    (WRITE, 2, (&[0, 0, 5, 0, 0], b"hello"), 0, (&[5], b"")),
    (SETATTR, 2, TO_4, 0, OF_4),
    (SETATTR, 2, TO_6, 0, OF_6),
    (READ, 2, ALL, 0, (&[], b"hell\0\0")),
    (SETATTR, 2, TO_4097, ENOSPC, NOTHING),
    // without a size nothing changes
    (SETATTR, 2, TO_MODE, 0, OF_6),
    (LOOKUP, 1, (&[], b"none\0"), ENOENT, NOTHING),
    (OPEN, 1, (&[0], b""), EISDIR, NOTHING),
    (READ, 1, ALL, EISDIR, NOTHING),
    (WRITE, 1, (&[0, 0, 1, 0, 0], b"x"), EISDIR, NOTHING),
    (SETATTR, 1, TO_0, EPERM, NOTHING),
    (READ, 3, ALL, ENOENT, NOTHING),
    (WRITE, 3, (&[0, 0, 1, 0, 0], b"x"), ENOENT, NOTHING),
];

#[test]
fn what_is_written_is_read(rt: HostRuntime) {
    for rows in [WRITTEN, RESIZED] {
        let notepad = Notepad::new(rt, rt.alloc()).expect(&rt, "there is memory");
        let (_, rest) = serve(&rt, notepad, None, rows);
        expect_served(&rt, &rest, rows);
    }
}
