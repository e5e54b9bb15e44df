// What directory replies carry, as bytes.
use crate::asserts::expect_same;
use crate::frames::{
    ATTRIBUTES, BLOCK_SIZE, ENTRY_FRONT, Entry, ID, Parts, WIDE_ATTRIBUTES, WIDE_ENTRY_FRONT,
    carries, entry, many, wide_entry, within,
};
use fuse_reply::{ReplyDirectory, ReplyDirectoryPlus};
use fuse_wire::{FileType, INodeNo, NoMemory};
use std::alloc::{AllocError, Global};
use std::process::Abort;

/// An entry that a listing is to take: its inode, the offset after it, what kind of file it is, its name, and whether
/// it does not fit.
type Listed = (u64, u64, FileType, &'static [u8], bool);

/// How many bytes a listing may have, the entries that it is to take, and its payload then.
type Listing = (usize, &'static [Listed], Parts);

/// Listings of no entries, of one, of two, and of two of five, of which a shorter one fits where another did not.
const LISTINGS: &[Listing] = &[
    (0, &[(1, 1, FileType::Directory, b"", true)], &[]),
    (
        100,
        &[(5, 1, FileType::RegularFile, b"a", false)],
        &[&[
            5, 0, 0, 0, 0, 0, 0, 0, 1, 0, 0, 0, 0, 0, 0, 0, 1, 0, 0, 0, 8, 0, 0, 0, 0x61, 0, 0, 0,
            0, 0, 0, 0,
        ]],
    ),
    (
        4096,
        &[
            (0xaabb, 1, FileType::Directory, b"hello", false),
            (0xccdd, 2, FileType::RegularFile, b"world.rs", false),
        ],
        &[&[
            0xbb, 0xaa, 0, 0, 0, 0, 0, 0, 1, 0, 0, 0, 0, 0, 0, 0, 5, 0, 0, 0, 4, 0, 0, 0, 0x68,
            0x65, 0x6c, 0x6c, 0x6f, 0, 0, 0, 0xdd, 0xcc, 0, 0, 0, 0, 0, 0, 2, 0, 0, 0, 0, 0, 0, 0,
            8, 0, 0, 0, 8, 0, 0, 0, 0x77, 0x6f, 0x72, 0x6c, 0x64, 0x2e, 0x72, 0x73,
        ]],
    ),
    (
        56,
        &[
            (0xaabb, 1, FileType::Directory, b"hello", false),
            (0xccdd, 2, FileType::RegularFile, b"world.rs", true),
            (0x11, 3, FileType::Symlink, b"", false),
            (0x11, 4, FileType::Symlink, b"", true),
            (0xaabb, 5, FileType::Directory, b"hello", true),
        ],
        &[&[
            0xbb, 0xaa, 0, 0, 0, 0, 0, 0, 1, 0, 0, 0, 0, 0, 0, 0, 5, 0, 0, 0, 4, 0, 0, 0, 0x68,
            0x65, 0x6c, 0x6c, 0x6f, 0, 0, 0, 0x11, 0, 0, 0, 0, 0, 0, 0, 3, 0, 0, 0, 0, 0, 0, 0, 0,
            0, 0, 0, 10, 0, 0, 0,
        ]],
    ),
];

/// Kinds of files, and the types of their entries.
const TYPES: &[(FileType, u8)] = &[
    (FileType::NamedPipe, 1),
    (FileType::CharDevice, 2),
    (FileType::Directory, 4),
    (FileType::BlockDevice, 6),
    (FileType::RegularFile, 8),
    (FileType::Symlink, 10),
    (FileType::Socket, 12),
];

/// How many bytes names have, these as bytes, and how many zero bytes stand behind such a name.
const PADDED: &[(usize, [u8; 4], usize)] = &[
    (0, [0, 0, 0, 0], 0),
    (1, [1, 0, 0, 0], 7),
    (7, [7, 0, 0, 0], 1),
    (8, [8, 0, 0, 0], 0),
    (9, [9, 0, 0, 0], 7),
    (255, [255, 0, 0, 0], 1),
    (256, [0, 1, 0, 0], 0),
    (1024, [0, 4, 0, 0], 0),
];

/// The entry is taken, or does not fit, as its row says.
fn add(rt: &impl Abort, reply: &mut ReplyDirectory, listed: &Listed) {
    let (ino, offset, kind, name, full) = listed;
    let found = reply.add(INodeNo(*ino), *offset, *kind, within(rt, name));
    expect_same(rt, &(*name, found), &(*name, Ok(*full)));
}

/// The listing carries its payload.
fn expect_listing(rt: &impl Abort, alloc: Global, listing: &Listing) {
    let (size, entries, payload) = listing;
    let mut reply = ReplyDirectory::new(alloc, ID, *size);
    for listed in *entries {
        add(rt, &mut reply, listed);
    }
    carries(rt, alloc, reply.ok(), payload);
}

/// The listing of so many bytes that was to take an entry of this kind and name, and whether it did not fit.
fn list_one(
    rt: &impl Abort,
    alloc: Global,
    size: usize,
    number: u64,
    kind: FileType,
    name: &[u8],
) -> (ReplyDirectory, Result<bool, NoMemory>) {
    let mut reply = ReplyDirectory::new(alloc, ID, size);
    let found = reply.add(INodeNo(number), number, kind, within(rt, name));
    (reply, found)
}

/// An entry whose name has so many bytes fits where it does not in a byte less.
fn expect_padded(rt: &impl Abort, alloc: Global, count: usize, length: &[u8; 4], zeros: usize) {
    let name = many(rt, alloc, count);
    let size = count.saturating_add(zeros).saturating_add(24);
    let less = size.saturating_sub(1);
    let (reply, full) = list_one(rt, alloc, less, u64::MAX, FileType::Socket, &name);
    expect_same(rt, &(count, full), &(count, Ok(true)));
    carries(rt, alloc, reply.ok(), &[]);
    let (reply, full) = list_one(rt, alloc, size, u64::MAX, FileType::Socket, &name);
    expect_same(rt, &(count, full), &(count, Ok(false)));
    let head: &[u8] = &[0xff; 16];
    let zeros = [0; 8].get(..zeros).unwrap_or(&[]);
    carries(
        rt,
        alloc,
        reply.ok(),
        &[head, length, &[12, 0, 0, 0], &name, zeros],
    );
}

#[test]
fn each_listing_carries_the_entries_that_fit(rt: HostRuntime) {
    let alloc = rt.alloc();
    for listing in LISTINGS {
        expect_listing(&rt, alloc, listing);
    }
    for (kind, number) in TYPES {
        let (reply, _) = list_one(&rt, alloc, 24, 0, *kind, b"");
        carries(&rt, alloc, reply.ok(), &[&[0; 20], &[*number, 0, 0, 0]]);
    }
    for (count, length, zeros) in PADDED {
        expect_padded(&rt, alloc, *count, length, *zeros);
    }
}

/// The last four decimal digits of a number.
fn digits(i: u16) -> [u8; 4] {
    [
        b'0' + (i / 1000 % 10) as u8,
        b'0' + (i / 100 % 10) as u8,
        b'0' + (i / 10 % 10) as u8,
        b'0' + (i % 10) as u8,
    ]
}

/// The bytes of entry `i`, whose name is that number in four digits.
fn numbered(i: u16) -> [u8; 32] {
    let [low, high] = i.to_le_bytes();
    let [d0, d1, d2, d3] = digits(i);
    [
        low, high, 0, 0, 0, 0, 0, 0, low, high, 0, 0, 0, 0, 0, 0, 4, 0, 0, 0, 8, 0, 0, 0, d0, d1,
        d2, d3, 0, 0, 0, 0,
    ]
}

/// The bytes of so many entries.
fn all_numbered(alloc: Global, count: u16) -> Result<Vec<u8>, AllocError> {
    let mut entries = Vec::new(alloc);
    for i in 0..count {
        entries.extend_from_slice(&numbered(i))?;
    }
    Ok(entries)
}

/// Adds entry `i`.
fn add_numbered(reply: &mut ReplyDirectory, i: u16) -> Result<bool, NoMemory> {
    let place = u64::from(i);
    reply.add(INodeNo(place), place, FileType::RegularFile, &digits(i))
}

/// Adds 40,000 entries of 32 bytes each, and tells how many were taken before the first that was not.
fn list_many(reply: &mut ReplyDirectory) -> Result<u16, NoMemory> {
    for i in 0..40_000 {
        if add_numbered(reply, i)? {
            return Ok(i);
        }
    }
    Ok(40_000)
}

/// The listing carries so many entries.
fn carries_numbered(rt: &impl Abort, alloc: Global, reply: ReplyDirectory, count: u16) {
    let entries = all_numbered(alloc, count).expect(rt, "there is memory");
    carries(rt, alloc, reply.ok(), &[&entries]);
}

/// So many bytes for entries, and how many entries of 32 bytes each are taken.
const CUTS: &[(usize, u16)] = &[
    (31, 0),
    (32, 1),
    (63, 1),
    (143, 4),
    (144, 4),
    (145, 4),
    (160, 5),
    (4095, 127),
    (4096, 128),
    (31_999, 999),
    (32_000, 1000),
    (262_143, 8191),
    (4_294_967_295, 40_000),
    (usize::MAX, 40_000),
];

#[test]
fn a_long_directory_is_cut_at_its_size(rt: HostRuntime) {
    for (size, entries) in CUTS {
        let mut reply = ReplyDirectory::new(rt.alloc(), ID, *size);
        let taken = list_many(&mut reply);
        expect_same(&rt, &(*size, taken), &(*size, Ok(*entries)));
        carries_numbered(&rt, rt.alloc(), reply, *entries);
    }
}

/// A listing with four entries, of 128 bytes, and what became of a fifth, for which the first memory is asked.
fn list_five(alloc: Global) -> (ReplyDirectory, Result<bool, NoMemory>) {
    let mut reply = ReplyDirectory::new(alloc, ID, 4096);
    for i in 0..4 {
        let _ = add_numbered(&mut reply, i);
    }
    let fifth = add_numbered(&mut reply, 4);
    (reply, fifth)
}

#[test]
fn lists_more_than_is_held_inline(rt: HostRuntime) {
    let (reply, fifth) = list_five(rt.alloc());
    expect_same(&rt, &fifth, &Ok(false));
    carries_numbered(&rt, rt.alloc(), reply, 5);
}

/// Takes the fifth entry, and that it is left out. Where the script `checks/refused-memory` refuses the memory, it is
/// left out, and the four stay.
#[test]
fn lists_more_than_is_held_inline_or_leaves_it_out(rt: HostRuntime) {
    let (reply, fifth) = list_five(rt.alloc());
    let count = if fifth == Ok(false) { 5 } else { 4 };
    carries_numbered(&rt, rt.alloc(), reply, count);
}

/// The entry is taken, or does not fit.
fn add_plus(
    rt: &impl Abort,
    reply: &mut ReplyDirectoryPlus,
    entry: &Entry,
    offset: u64,
    name: &[u8],
    full: bool,
) {
    let (ttl, attr, generation) = entry;
    let found = reply.add(
        INodeNo(0x99),
        offset,
        within(rt, name),
        ttl,
        attr,
        *generation,
    );
    expect_same(rt, &(offset, found), &(offset, Ok(full)));
}

#[test]
fn lists_entries_with_what_a_lookup_answers(rt: HostRuntime) {
    let alloc = rt.alloc();
    let mut reply = ReplyDirectoryPlus::new(alloc, ID, 319);
    add_plus(&rt, &mut reply, &entry(), 1, b"hello", false);
    add_plus(&rt, &mut reply, &entry(), 2, b"hello", true);
    add_plus(&rt, &mut reply, &entry(), 3, b"", false);
    carries(
        &rt,
        alloc,
        reply.ok(),
        &[
            ENTRY_FRONT,
            ATTRIBUTES,
            BLOCK_SIZE,
            &[
                0x11, 0, 0, 0, 0, 0, 0, 0, 1, 0, 0, 0, 0, 0, 0, 0, 5, 0, 0, 0, 8, 0, 0, 0, 0x68,
                0x65, 0x6c, 0x6c, 0x6f, 0, 0, 0,
            ],
            ENTRY_FRONT,
            ATTRIBUTES,
            BLOCK_SIZE,
            &[
                0x11, 0, 0, 0, 0, 0, 0, 0, 3, 0, 0, 0, 0, 0, 0, 0, 0, 0, 0, 0, 8, 0, 0, 0,
            ],
        ],
    );
}

/// The listing of so many bytes that was to take an entry of wide numbers, which is taken, or does not fit.
fn list_wide(rt: &impl Abort, alloc: Global, size: usize, full: bool) -> ReplyDirectoryPlus {
    let mut reply = ReplyDirectoryPlus::new(alloc, ID, size);
    add_plus(rt, &mut reply, &wide_entry(), u64::MAX, &[7; 9], full);
    reply
}

#[test]
fn lists_wide_numbers_with_what_a_lookup_answers(rt: HostRuntime) {
    let alloc = rt.alloc();
    carries(&rt, alloc, list_wide(&rt, alloc, 167, true).ok(), &[]);
    carries(
        &rt,
        alloc,
        list_wide(&rt, alloc, 168, false).ok(),
        &[
            WIDE_ENTRY_FRONT,
            WIDE_ATTRIBUTES,
            &[0x18, 0x17, 0x16, 0x15, 0x14, 0x13, 0x12, 0x11],
            &[0xff; 8],
            &[9, 0, 0, 0, 8, 0, 0, 0],
            &[7; 9],
            &[0; 7],
        ],
    );
}
