//! What goes out for a reply, and that its bytes are those of a row.
ghost use Rattle.std.specs.Prelude.{◌≤◌, length};

use crate::asserts::expect_same;
use fuse_reply::{Out, OutEnd, Replied};
use fuse_wire::{
    Duration, FileAttr, FileType, Generation, INodeNo, MemorySink, RequestId, SystemTime,
};
use std::alloc::{AllocError, Global};
use std::process::Abort;

/// The request that is answered.
pub const ID: RequestId = RequestId(0xdead_beef);

/// Its bytes.
pub const ID_BYTES: &[u8] = &[0xef, 0xbe, 0xad, 0xde, 0, 0, 0, 0];

/// Bytes, as parts that stand one behind the other.
pub type Parts = &'static [&'static [u8]];

/// These parts joined.
fn joined(alloc: Global, parts: &[&[u8]]) -> Result<Vec<u8>, AllocError> {
    let mut bytes = Vec::new(alloc);
    for part in parts {
        bytes.extend_from_slice(part)?;
    }
    Ok(bytes)
}

/// Sends what goes out to an empty sink.
pub fn sent(alloc: Global, out: Out) -> (MemorySink, OutEnd) {
    let mut sink = MemorySink::new(alloc, Vec::new(alloc));
    let end = out.send(&mut sink);
    (sink, end)
}

/// How an out ended, the one frame that the sink has of it, and how many notes.
pub fn told(sink: &MemorySink, end: OutEnd) -> (OutEnd, Option<&[u8]>, usize) {
    let frame = match sink.frames() {
        [frame] => Some(frame.as_slice()),
        _ => None,
    };
    (end, frame, sink.notes().len())
}

/// So many bytes.
pub fn many(rt: &impl Abort, alloc: Global, count: usize) -> Vec<u8> {
    vec![in alloc; 7; count].expect(rt, "there is memory")
}

/// These bytes, which are at most one more than 16 mebibytes.
pub fn within<'a>(rt: &impl Abort, bytes: &'a [u8]) -> &'a [u8]
    ensures { length result.now ≤ 16777217 }
{
    assert!(rt; bytes.len() <= 16_777_217);
    bytes
}

/// The sink has one frame of these bytes, and no note, and the out ended so that it was written.
pub fn expect_sent(
    rt: &impl Abort,
    alloc: Global,
    sink: &MemorySink,
    end: OutEnd,
    parts: &[&[u8]],
) {
    let frame = joined(alloc, parts).expect(rt, "there is memory");
    let expected = (OutEnd::Written, Some(frame.as_slice()), 0);
    expect_same(rt, &told(sink, end), &expected);
}

/// One frame of these bytes goes out, and no note.
pub fn sends(rt: &impl Abort, alloc: Global, replied: Replied, parts: &[&[u8]]) {
    let (sink, end) = sent(alloc, replied.into_out());
    expect_sent(rt, alloc, &sink, end, parts);
}

/// The frame of `ENOMEM`.
const STARVED: &[u8] = &[
    16, 0, 0, 0, 0xf4, 0xff, 0xff, 0xff, 0xef, 0xbe, 0xad, 0xde, 0, 0, 0, 0,
];

/// The whole frame, or the error's, where that one went out.
pub fn whole_or_starved(frame: Option<&[u8]>, whole: Parts) -> Parts {
    if frame == Some(STARVED) {
        &[STARVED]
    } else {
        whole
    }
}

/// One frame goes out, of status 0 and this payload, and no note.
pub fn carries(rt: &impl Abort, alloc: Global, replied: Replied, parts: &[&[u8]]) {
    let payload = joined(alloc, parts).expect(rt, "there is memory");
    let [l0, l1, l2, l3, ..] = payload.len().saturating_add(16).to_le_bytes();
    let front = [l0, l1, l2, l3, 0, 0, 0, 0];
    sends(rt, alloc, replied, &[&front, ID_BYTES, &payload]);
}

/// One frame goes out, which has these bytes from `at` on.
pub fn sends_part(rt: &impl Abort, alloc: Global, replied: Replied, at: usize, part: &[u8]) {
    let (sink, end) = sent(alloc, replied.into_out());
    let (end, frame, _) = told(&sink, end);
    let found = frame.unwrap_or(&[]).get(at..at.saturating_add(part.len()));
    expect_same(rt, &(end, found), &(OutEnd::Written, Some(part)));
}

/// Attributes of a file of the permissions 0o644: the inode, size and blocks; the times of the last access, of the last
/// changes of the contents and of the inode, and of creation; and links, owner, group, device, block size and flags.
fn attributes_of(numbers: [u64; 3], times: [i128; 4], others: [u32; 6]) -> FileAttr {
    let [ino, size, blocks] = numbers;
    let [atime, mtime, ctime, crtime] = times;
    let [nlink, uid, gid, rdev, blksize, flags] = others;
    FileAttr {
        ino: INodeNo(ino),
        size,
        blocks,
        atime: SystemTime(atime),
        mtime: SystemTime(mtime),
        ctime: SystemTime(ctime),
        crtime: SystemTime(crtime),
        kind: FileType::RegularFile,
        perm: 0o644,
        nlink,
        uid,
        gid,
        rdev,
        blksize,
        flags,
    }
}

/// The attributes that are sent.
pub fn attributes() -> FileAttr {
    attributes_of(
        [0x11, 0x22, 0x33],
        [0x1234 * 1_000_000_000 + 0x5678; 4],
        [0x55, 0x66, 0x77, 0x88, 0xbb, 0x99],
    )
}

/// Their bytes up to the block size.
pub const ATTRIBUTES: &[u8] = &[
    0x11, 0, 0, 0, 0, 0, 0, 0, 0x22, 0, 0, 0, 0, 0, 0, 0, 0x33, 0, 0, 0, 0, 0, 0, 0, 0x34, 0x12, 0,
    0, 0, 0, 0, 0, 0x34, 0x12, 0, 0, 0, 0, 0, 0, 0x34, 0x12, 0, 0, 0, 0, 0, 0, 0x78, 0x56, 0, 0,
    0x78, 0x56, 0, 0, 0x78, 0x56, 0, 0, 0xa4, 0x81, 0, 0, 0x55, 0, 0, 0, 0x66, 0, 0, 0, 0x77, 0, 0,
    0, 0x88, 0, 0, 0,
];

/// The block size, and what stands behind it.
pub const BLOCK_SIZE: &[u8] = &[0xbb, 0, 0, 0, 0, 0, 0, 0];

/// What stands in front of them in an entry of the generation 0xaa, held for 0x8765 seconds and 0x4321 nanoseconds.
pub const ENTRY_FRONT: &[u8] = &[
    0x11, 0, 0, 0, 0, 0, 0, 0, 0xaa, 0, 0, 0, 0, 0, 0, 0, 0x65, 0x87, 0, 0, 0, 0, 0, 0, 0x65, 0x87,
    0, 0, 0, 0, 0, 0, 0x21, 0x43, 0, 0, 0x21, 0x43, 0, 0,
];

/// Attributes whose numbers take all their bytes, each another one.
pub fn wide_attributes() -> FileAttr {
    attributes_of(
        [
            0x1112_1314_1516_1718,
            0x2122_2324_2526_2728,
            0x3132_3334_3536_3738,
        ],
        [
            0x4142_4344_4546_4748 * 1_000_000_000 + 0x0102_0304,
            0x5152_5354_5556_5758 * 1_000_000_000 + 0x1112_1314,
            0x6162_6364_6566_6768 * 1_000_000_000 + 0x0506_0708,
            0x7172_7374_7576_7778 * 1_000_000_000 + 0x090a_0b0c,
        ],
        [
            0x7172_7374,
            0x8182_8384,
            0x9192_9394,
            0xd1d2_d3d4,
            0xe1e2_e3e4,
            0xf1f2_f3f4,
        ],
    )
}

/// Their bytes, all of them.
pub const WIDE_ATTRIBUTES: &[u8] = &[
    0x18, 0x17, 0x16, 0x15, 0x14, 0x13, 0x12, 0x11, 0x28, 0x27, 0x26, 0x25, 0x24, 0x23, 0x22, 0x21,
    0x38, 0x37, 0x36, 0x35, 0x34, 0x33, 0x32, 0x31, 0x48, 0x47, 0x46, 0x45, 0x44, 0x43, 0x42, 0x41,
    0x58, 0x57, 0x56, 0x55, 0x54, 0x53, 0x52, 0x51, 0x68, 0x67, 0x66, 0x65, 0x64, 0x63, 0x62, 0x61,
    4, 3, 2, 1, 0x14, 0x13, 0x12, 0x11, 8, 7, 6, 5, 0xa4, 0x81, 0, 0, 0x74, 0x73, 0x72, 0x71, 0x84,
    0x83, 0x82, 0x81, 0x94, 0x93, 0x92, 0x91, 0xd4, 0xd3, 0xd2, 0xd1, 0xe4, 0xe3, 0xe2, 0xe1, 0, 0,
    0, 0,
];

/// What stands in front of them in an entry of such a generation, which is held as long as they are.
pub const WIDE_ENTRY_FRONT: &[u8] = &[
    0x18, 0x17, 0x16, 0x15, 0x14, 0x13, 0x12, 0x11, 0xc8, 0xc7, 0xc6, 0xc5, 0xc4, 0xc3, 0xc2, 0xc1,
    0xb8, 0xb7, 0xb6, 0xb5, 0xb4, 0xb3, 0xb2, 0xb1, 0xb8, 0xb7, 0xb6, 0xb5, 0xb4, 0xb3, 0xb2, 0xb1,
    0x24, 0x23, 0x22, 0x21, 0x24, 0x23, 0x22, 0x21,
];

/// How long an entry is held, its attributes and its generation.
pub type Entry = (Duration, FileAttr, Generation);

/// The entry of `ENTRY_FRONT` and `ATTRIBUTES`.
pub fn entry() -> Entry {
    let ttl = Duration::new(0x8765, 0x4321);
    (ttl, attributes(), Generation(0xaa))
}

/// The entry of `WIDE_ENTRY_FRONT` and `WIDE_ATTRIBUTES`.
pub fn wide_entry() -> Entry {
    let ttl = Duration::new(0xb1b2_b3b4_b5b6_b7b8, 0x2122_2324);
    (ttl, wide_attributes(), Generation(0xc1c2_c3c4_c5c6_c7c8))
}
