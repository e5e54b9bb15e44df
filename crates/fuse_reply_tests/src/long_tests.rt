// Replies of many bytes, for which there is memory.
use crate::asserts::expect_same;
use crate::frames::{ID, attributes, carries, many, sends_part, within};
use fuse_reply::{
    Packed, Replied, ReplyData, ReplyDirectory, ReplyDirectoryPlus, ReplyIoctl, ReplyXattr,
};
use fuse_wire::{Duration, FileType, Generation, INodeNo, NoMemory};
use std::alloc::{AllocError, Global};
use std::process::Abort;

/// A kind of reply that carries any number of bytes.
#[derive(Clone, Copy)]
enum Kind {
    Data,
    Xattr,
    /// Of an ioctl whose result is 9.
    Ioctl,
    /// Of an entry of a directory, whose name is these bytes: 65,536 of them.
    Name,
}

/// Kinds of replies, and how many bytes they carry.
const LONG: &[(Kind, &[usize])] = &[
    (Kind::Data, &[1_048_576]),
    (Kind::Xattr, &[0, 1, 143, 144, 145, 200, 256, 65_536]),
    (Kind::Ioctl, &[0, 127, 128, 129, 200, 4097, 262_144]),
    (Kind::Name, &[65_536]),
];

/// The reply of one entry of a directory, which has this name.
fn named(rt: &impl Abort, alloc: Global, name: &[u8]) -> Replied {
    let mut reply = ReplyDirectory::new(alloc, ID, usize::MAX);
    let number = INodeNo(u64::MAX);
    let found = reply.add(number, u64::MAX, FileType::Socket, within(rt, name));
    expect_same(rt, &found, &Ok(false));
    reply.ok()
}

/// The reply that carries these bytes.
fn replied(rt: &impl Abort, alloc: Global, kind: Kind, bytes: &[u8]) -> Replied {
    match kind {
        Kind::Data => ReplyData::new(alloc, ID).data(within(rt, bytes)),
        Kind::Xattr => ReplyXattr::new(alloc, ID).data(within(rt, bytes)),
        Kind::Ioctl => ReplyIoctl::new(alloc, ID).ioctl(9, within(rt, bytes)),
        Kind::Name => named(rt, alloc, bytes),
    }
}

/// What stands in front of the bytes.
fn front(kind: Kind) -> &'static [u8] {
    match kind {
        Kind::Data | Kind::Xattr => &[],
        Kind::Ioctl => &[9, 0, 0, 0, 0, 0, 0, 0, 1, 0, 0, 0, 1, 0, 0, 0],
        Kind::Name => &[
            0xff, 0xff, 0xff, 0xff, 0xff, 0xff, 0xff, 0xff, 0xff, 0xff, 0xff, 0xff, 0xff, 0xff,
            0xff, 0xff, 0, 0, 1, 0, 12, 0, 0, 0,
        ],
    }
}

#[test]
fn replies_of_many_bytes_go_out_whole(rt: HostRuntime) {
    for (kind, counts) in LONG {
        for count in *counts {
            let bytes = many(&rt, rt.alloc(), *count);
            let replied = replied(&rt, rt.alloc(), *kind, &bytes);
            carries(&rt, rt.alloc(), replied, &[front(*kind), &bytes]);
        }
    }
}

/// What the frames of one byte more than 16 mebibytes have from this byte on: their headers, and their last bytes.
const LONGEST: &[(Kind, usize, &[u8])] = &[
    (Kind::Data, 0, &[17, 0, 0, 1, 0, 0, 0, 0, 0xef, 0xbe]),
    (Kind::Data, 16_777_232, &[7]),
    (Kind::Xattr, 0, &[17, 0, 0, 1, 0, 0, 0, 0, 0xef, 0xbe]),
    (Kind::Xattr, 16_777_232, &[7]),
    (Kind::Ioctl, 0, &[33, 0, 0, 1, 0, 0, 0, 0, 0xef, 0xbe]),
    (Kind::Ioctl, 16_777_248, &[7]),
];

/// A frame of the longest answers is no error, its header says how long it is, and it is as long.
#[test]
fn the_longest_replies_find_memory_where_there_is_some(rt: HostRuntime) {
    let bytes = many(&rt, rt.alloc(), 16_777_217);
    for (kind, at, part) in LONGEST {
        let replied = replied(&rt, rt.alloc(), *kind, &bytes);
        sends_part(&rt, rt.alloc(), replied, *at, part);
    }
}

/// How many bytes frames carry that are held packed, and the headers of these.
const PACKED: &[(usize, [u8; 16])] = &[
    (
        145,
        [161, 0, 0, 0, 0, 0, 0, 0, 0xef, 0xbe, 0xad, 0xde, 0, 0, 0, 0],
    ),
    (
        65_536,
        [16, 0, 1, 0, 0, 0, 0, 0, 0xef, 0xbe, 0xad, 0xde, 0, 0, 0, 0],
    ),
];

/// What `Debug` prints of a frame of this header that carries these bytes.
fn packed_text(alloc: Global, header: &[u8; 16], payload: &[u8]) -> Result<String, AllocError> {
    format!(in alloc; "Packed {{ header: {header:?}, payload: {payload:?} }}")
}

/// A frame that carries these bytes has this header, and so has a copy of it.
fn expect_packed(rt: &impl Abort, alloc: Global, header: &[u8; 16], payload: &[u8]) {
    let packed = Packed::new(alloc, ID, 0, within(rt, payload)).expect(rt, "there is memory");
    let copy = packed.clone().expect(rt, "there is memory");
    let found = format!(in alloc; "{copy:?}").expect(rt, "there is memory");
    let expected = packed_text(alloc, header, payload).expect(rt, "there is memory");
    expect_same(rt, &found, &expected);
}

#[test]
fn packs_and_copies_more_than_is_held_inline(rt: HostRuntime) {
    for (count, header) in PACKED {
        let payload = many(&rt, rt.alloc(), *count);
        expect_packed(&rt, rt.alloc(), header, &payload);
    }
}

/// Adds entries with what a lookup answers, of 160 bytes each, and tells how many were taken before the first that was
/// not.
fn fill(reply: &mut ReplyDirectoryPlus) -> Result<u64, NoMemory> {
    let ttl = Duration::new(0, 0);
    for place in 0..7000 {
        if reply.add(
            INodeNo(2),
            place,
            b"hello",
            &ttl,
            &attributes(),
            Generation(0),
        )? {
            return Ok(place);
        }
    }
    Ok(7000)
}

/// So many bytes for entries with lookups, how many are taken, where in the frame the last has its inode, behind what the
/// lookup answers, and its bytes from there on.
const CUTS: &[(usize, u64, usize, &[u8])] = &[
    (
        65_536,
        409,
        16 + 408 * 160 + 128,
        &[
            0x11, 0, 0, 0, 0, 0, 0, 0, 0x98, 1, 0, 0, 0, 0, 0, 0, 5, 0, 0, 0, 8, 0, 0, 0, 0x68,
            0x65, 0x6c, 0x6c, 0x6f, 0, 0, 0,
        ],
    ),
    (
        1_048_576,
        6553,
        16 + 6552 * 160 + 128,
        &[
            0x11, 0, 0, 0, 0, 0, 0, 0, 0x98, 0x19, 0, 0, 0, 0, 0, 0, 5, 0, 0, 0, 8, 0, 0, 0, 0x68,
            0x65, 0x6c, 0x6c, 0x6f, 0, 0, 0,
        ],
    ),
];

#[test]
fn a_long_directory_with_lookups_is_cut_at_its_size(rt: HostRuntime) {
    for (size, count, at, last) in CUTS {
        let mut reply = ReplyDirectoryPlus::new(rt.alloc(), ID, *size);
        let taken = fill(&mut reply);
        expect_same(&rt, &(*size, taken), &(*size, Ok(*count)));
        sends_part(&rt, rt.alloc(), reply.ok(), *at, last);
    }
}
