// Answers as frames, by the structs of `fuse.h`.
ghost use Rattle.std.specs.Prelude.{◌≡◌, bit_and};
ghost use Rattle.fuse_wire.specs.Flags.{FOPEN_PASSTHROUGH};

use crate::asserts::expect_same;
use crate::frames::{
    ATTRIBUTES, BLOCK_SIZE, ENTRY_FRONT, Entry, ID, ID_BYTES, Parts, WIDE_ATTRIBUTES,
    WIDE_ENTRY_FRONT, attributes, carries, entry, expect_sent, sends, sends_part, sent, told,
    whole_or_starved, wide_entry, within,
};
use bitflags::Flags;
use fuse_reply::{
    OutEnd, Replied, ReplyAttr, ReplyBmap, ReplyCreate, ReplyData, ReplyDirectory, ReplyEmpty,
    ReplyEntry, ReplyInterrupt, ReplyIoctl, ReplyLock, ReplyLseek, ReplyOpen, ReplyPoll,
    ReplyStatfs, ReplyWrite, ReplyXattr,
};
use fuse_wire::{
    Duration, Errno, FileAttr, FileHandle, FileType, FopenFlags, PollEvents, RequestId, SystemTime,
};
use std::alloc::Global;
use std::process::Abort;

/// The numbers of errors, and their status.
const ERRORS: &[(i32, [u8; 4])] = &[
    (1, [0xff, 0xff, 0xff, 0xff]),
    (2, [0xfe, 0xff, 0xff, 0xff]),
    (4, [0xfc, 0xff, 0xff, 0xff]),
    (38, [0xda, 0xff, 0xff, 0xff]),
    (66, [0xbe, 0xff, 0xff, 0xff]),
    (0x7fff_ffff, [1, 0, 0, 0x80]),
];

/// The status goes out alone.
fn sends_status(rt: &impl Abort, alloc: Global, replied: Replied, status: &[u8; 4]) {
    sends(rt, alloc, replied, &[&[16, 0, 0, 0], status, ID_BYTES]);
}

#[test]
fn each_status_is_sent_alone(rt: HostRuntime) {
    let alloc = rt.alloc();
    for (code, status) in ERRORS {
        let replied = ReplyOpen::new(alloc, ID).error(Errno::from_i32(*code));
        sends_status(&rt, alloc, replied, status);
    }
    sends_status(&rt, alloc, ReplyEmpty::new(alloc, ID).ok(), &[0; 4]);
    let unanswered = ReplyEntry::new(alloc, ID).unanswered();
    sends_status(&rt, alloc, unanswered, &[0xfb, 0xff, 0xff, 0xff]);
    let interrupt = || ReplyInterrupt::new(alloc, ID, RequestId(9));
    sends_status(&rt, alloc, interrupt().again(), &[0xf5, 0xff, 0xff, 0xff]);
    sends_status(
        &rt,
        alloc,
        interrupt().unanswered(),
        &[0xfb, 0xff, 0xff, 0xff],
    );
    let refused = interrupt().error(Errno::ENOSYS);
    sends_status(&rt, alloc, refused, &[0xda, 0xff, 0xff, 0xff]);
    let no_listing = ReplyDirectory::new(alloc, ID, 9).error(Errno::ENOENT);
    sends_status(&rt, alloc, no_listing, &[0xfe, 0xff, 0xff, 0xff]);
}

#[test]
fn an_interrupt_that_is_honoured_is_a_note_of_its_target(rt: HostRuntime) {
    let alloc = rt.alloc();
    let replied = ReplyInterrupt::new(alloc, ID, RequestId(9)).honoured();
    let (sink, end) = sent(alloc, replied.into_out());
    let found = (end, sink.frames().len(), sink.notes());
    expect_same(&rt, &found, &(OutEnd::Noted, 0, [(ID, 9)].as_slice()));
    drop(sink);
}

/// Bytes, and how long their frame is.
const BYTES: &[(&[u8], u8)] = &[
    (&[0xde, 0xad, 0xbe, 0xef], 20),
    (&[0x12, 0x34, 0x78, 0x56], 20),
    (&[16, 0, 0], 19),
];

/// These bytes go out in a frame of this length.
fn sends_bytes(rt: &impl Abort, alloc: Global, bytes: &[u8], length: u8) {
    let front = [length, 0, 0, 0, 0, 0, 0, 0];
    let replied = ReplyData::new(alloc, ID).data(within(rt, bytes));
    sends(rt, alloc, replied, &[&front, ID_BYTES, bytes]);
}

/// So many bytes, which count up from 0, go out in a frame of this length.
fn sends_counted(rt: &impl Abort, alloc: Global, count: u8, length: u8) {
    let mut bytes = Vec::new(alloc);
    for byte in 0..count {
        bytes.push(byte).expect(rt, "there is memory");
    }
    sends_bytes(rt, alloc, &bytes, length);
}

#[test]
fn answers_by_bytes_of_any_number(rt: HostRuntime) {
    let alloc = rt.alloc();
    for (bytes, length) in BYTES {
        sends_bytes(&rt, alloc, bytes, *length);
    }
    for (count, length) in [(0, 16), (144, 160), (145, 161), (200, 216)] {
        sends_counted(&rt, alloc, count, length);
    }
}

/// The header and the payload of a frame of 145 bytes.
const LONG_FRAME: Parts = &[&[161, 0, 0, 0, 0, 0, 0, 0], ID_BYTES, &[7; 145]];

/// The reply of these bytes. The first memory that is asked for is theirs.
fn long_reply(alloc: Global) -> Replied {
    ReplyData::new(alloc, ID).data(&[7; 145])
}

#[test]
fn answers_by_many_bytes_whole(rt: HostRuntime) {
    sends(&rt, rt.alloc(), long_reply(rt.alloc()), LONG_FRAME);
}

/// Takes the whole frame, and the error's. Where the script `checks/refused-memory` refuses the memory, it is the
/// error's.
#[test]
fn answers_by_many_bytes_whole_or_by_the_want_of_memory(rt: HostRuntime) {
    let alloc = rt.alloc();
    let (sink, end) = sent(alloc, long_reply(alloc).into_out());
    let parts = whole_or_starved(told(&sink, end).1, LONG_FRAME);
    expect_sent(&rt, alloc, &sink, end, parts);
}

#[test]
fn entries_and_attributes_are_sent(rt: HostRuntime) {
    let alloc = rt.alloc();
    let (ttl, attr, generation) = entry();
    sends(
        &rt,
        alloc,
        ReplyEntry::new(alloc, ID).entry(&ttl, &attr, generation),
        &[
            &[0x90, 0, 0, 0, 0, 0, 0, 0],
            ID_BYTES,
            ENTRY_FRONT,
            ATTRIBUTES,
            BLOCK_SIZE,
        ],
    );
    sends(
        &rt,
        alloc,
        ReplyAttr::new(alloc, ID).attr(&ttl, &attr),
        &[
            &[0x78, 0, 0, 0, 0, 0, 0, 0],
            ID_BYTES,
            &[0x65, 0x87, 0, 0, 0, 0, 0, 0, 0x21, 0x43, 0, 0, 0, 0, 0, 0],
            ATTRIBUTES,
            BLOCK_SIZE,
        ],
    );
}

#[test]
fn entries_and_attributes_of_wide_numbers_are_sent(rt: HostRuntime) {
    let alloc = rt.alloc();
    let (ttl, attr, generation) = wide_entry();
    let attr_ttl = Duration::new(0xa1a2_a3a4_a5a6_a7a8, 0x3132_3334);
    carries(
        &rt,
        alloc,
        ReplyEntry::new(alloc, ID).entry_with_ttls(&ttl, &attr_ttl, &attr, generation),
        &[
            &[
                0x18, 0x17, 0x16, 0x15, 0x14, 0x13, 0x12, 0x11, 0xc8, 0xc7, 0xc6, 0xc5, 0xc4, 0xc3,
                0xc2, 0xc1, 0xa8, 0xa7, 0xa6, 0xa5, 0xa4, 0xa3, 0xa2, 0xa1, 0xb8, 0xb7, 0xb6, 0xb5,
                0xb4, 0xb3, 0xb2, 0xb1, 0x34, 0x33, 0x32, 0x31, 0x24, 0x23, 0x22, 0x21,
            ],
            WIDE_ATTRIBUTES,
        ],
    );
    carries(
        &rt,
        alloc,
        ReplyAttr::new(alloc, ID).attr(&ttl, &attr),
        &[
            &[
                0xb8, 0xb7, 0xb6, 0xb5, 0xb4, 0xb3, 0xb2, 0xb1, 0x24, 0x23, 0x22, 0x21, 0, 0, 0, 0,
            ],
            WIDE_ATTRIBUTES,
        ],
    );
}

/// Kinds of files and their permissions, and the modes that these are sent as.
const MODES: &[(FileType, u16, [u8; 4])] = &[
    (FileType::NamedPipe, 0, [0, 0x10, 0, 0]),
    (FileType::CharDevice, 0, [0, 0x20, 0, 0]),
    (FileType::Directory, 0, [0, 0x40, 0, 0]),
    (FileType::BlockDevice, 0, [0, 0x60, 0, 0]),
    (FileType::RegularFile, 0, [0, 0x80, 0, 0]),
    (FileType::Symlink, 0, [0, 0xa0, 0, 0]),
    (FileType::Socket, 0, [0, 0xc0, 0, 0]),
    (FileType::Directory, 0o755, [0xed, 0x41, 0, 0]),
    (FileType::RegularFile, 0o7777, [0xff, 0x8f, 0, 0]),
    (FileType::RegularFile, 0x81a4, [0xa4, 0x81, 0, 0]),
    (FileType::Socket, 0xffff, [0xff, 0xff, 0, 0]),
];

/// Times of the last access, and of the last changes of the contents and of the inode, and what is sent of them: those past
/// the range of their fields are cut to it.
const TIMES: &[([i128; 3], [u8; 36])] = &[
    (
        [-1_200_000_000, 1_000_000_002, -1],
        [
            0xfe, 0xff, 0xff, 0xff, 0xff, 0xff, 0xff, 0xff, 1, 0, 0, 0, 0, 0, 0, 0, 0xff, 0xff,
            0xff, 0xff, 0xff, 0xff, 0xff, 0xff, 0, 0x08, 0xaf, 0x2f, 2, 0, 0, 0, 0xff, 0xc9, 0x9a,
            0x3b,
        ],
    ),
    (
        [
            9_223_372_036_854_775_808_000_000_000,
            -9_223_372_036_854_775_808_000_000_001,
            9_223_372_036_854_775_807_999_999_999,
        ],
        [
            0xff, 0xff, 0xff, 0xff, 0xff, 0xff, 0xff, 0x7f, 0, 0, 0, 0, 0, 0, 0, 0x80, 0xff, 0xff,
            0xff, 0xff, 0xff, 0xff, 0xff, 0x7f, 0xff, 0xc9, 0x9a, 0x3b, 0, 0, 0, 0, 0xff, 0xc9,
            0x9a, 0x3b,
        ],
    ),
];

/// The reply of these attributes, which are held for a second.
fn attr_reply(alloc: Global, attr: &FileAttr) -> Replied {
    ReplyAttr::new(alloc, ID).attr(&Duration::new(1, 0), attr)
}

#[test]
fn modes_and_times_stand_in_their_places(rt: HostRuntime) {
    let alloc = rt.alloc();
    for (kind, perm, mode) in MODES {
        let attr = FileAttr {
            kind: *kind,
            perm: *perm,
            ..attributes()
        };
        sends_part(&rt, alloc, attr_reply(alloc, &attr), 92, mode);
    }
    for ([atime, mtime, ctime], sent) in TIMES {
        let attr = FileAttr {
            atime: SystemTime(*atime),
            mtime: SystemTime(*mtime),
            ctime: SystemTime(*ctime),
            ..attributes()
        };
        sends_part(&rt, alloc, attr_reply(alloc, &attr), 56, sent);
    }
}

/// Flags of an open file. None of them is `FOPEN_PASSTHROUGH`.
fn open_flags(rt: &impl Abort, bits: u32) -> FopenFlags
    ensures { bit_and result.0 FOPEN_PASSTHROUGH ≡ 0 }
{
    assert!(rt; bits & 0x80 == 0);
    FopenFlags::from_bits_retain(bits)
}

/// A new file of this entry is answered by this payload.
fn expect_created(
    rt: &impl Abort,
    alloc: Global,
    entry: &Entry,
    fh: u64,
    flags: u32,
    payload: Parts,
) {
    let (ttl, attr, generation) = entry;
    let flags = open_flags(rt, flags);
    let replied = ReplyCreate::new(alloc, ID).created(
        ttl,
        attr,
        *generation,
        FileHandle(fh),
        flags,
    );
    carries(rt, alloc, replied, payload);
}

#[test]
fn new_files_are_sent_as_an_entry_and_an_open_file(rt: HostRuntime) {
    let alloc = rt.alloc();
    let (ttl, attr, generation) = entry();
    let attr = FileAttr {
        blksize: 0xdd,
        ..attr
    };
    expect_created(
        &rt,
        alloc,
        &(ttl, attr, generation),
        0xbb,
        0x0c,
        &[
            ENTRY_FRONT,
            ATTRIBUTES,
            &[0xdd, 0, 0, 0, 0, 0, 0, 0],
            &[0xbb, 0, 0, 0, 0, 0, 0, 0, 0x0c, 0, 0, 0, 0, 0, 0, 0],
        ],
    );
    expect_created(
        &rt,
        alloc,
        &wide_entry(),
        0xf1f2_f3f4_f5f6_f7f8,
        0x5152_5354,
        &[
            WIDE_ENTRY_FRONT,
            WIDE_ATTRIBUTES,
            &[0xf8, 0xf7, 0xf6, 0xf5, 0xf4, 0xf3, 0xf2, 0xf1],
            &[0x54, 0x53, 0x52, 0x51, 0, 0, 0, 0],
        ],
    );
}

/// The handles of open files, their flags, and what is sent of them.
const OPENED: &[(u64, u32, [u8; 16])] = &[
    (
        0x1122,
        0x33,
        [0x22, 0x11, 0, 0, 0, 0, 0, 0, 0x33, 0, 0, 0, 0, 0, 0, 0],
    ),
    (
        u64::MAX,
        0xffff_ff7f,
        [
            0xff, 0xff, 0xff, 0xff, 0xff, 0xff, 0xff, 0xff, 0x7f, 0xff, 0xff, 0xff, 0, 0, 0, 0,
        ],
    ),
];

/// Locks: the start, the end, the type and the process, and what is sent of them.
const LOCKS: &[(u64, u64, i32, u32, [u8; 24])] = &[
    (
        0x11,
        0x22,
        0x33,
        0x44,
        [
            0x11, 0, 0, 0, 0, 0, 0, 0, 0x22, 0, 0, 0, 0, 0, 0, 0, 0x33, 0, 0, 0, 0x44, 0, 0, 0,
        ],
    ),
    (
        0,
        u64::MAX,
        -2,
        u32::MAX,
        [
            0, 0, 0, 0, 0, 0, 0, 0, 0xff, 0xff, 0xff, 0xff, 0xff, 0xff, 0xff, 0xff, 0xfe, 0xff,
            0xff, 0xff, 0xff, 0xff, 0xff, 0xff,
        ],
    ),
    (
        0x1112_1314_1516_1718,
        0x2122_2324_2526_2728,
        0x3132_3334,
        0x4142_4344,
        [
            0x18, 0x17, 0x16, 0x15, 0x14, 0x13, 0x12, 0x11, 0x28, 0x27, 0x26, 0x25, 0x24, 0x23,
            0x22, 0x21, 0x34, 0x33, 0x32, 0x31, 0x44, 0x43, 0x42, 0x41,
        ],
    ),
];

#[test]
fn open_files_and_locks_are_sent(rt: HostRuntime) {
    let alloc = rt.alloc();
    for (fh, flags, payload) in OPENED {
        let flags = open_flags(&rt, *flags);
        let replied = ReplyOpen::new(alloc, ID).opened(FileHandle(*fh), flags);
        carries(&rt, alloc, replied, &[payload]);
    }
    for (start, end, typ, pid, payload) in LOCKS {
        let replied = ReplyLock::new(alloc, ID).locked(*start, *end, *typ, *pid);
        carries(&rt, alloc, replied, &[payload]);
    }
}

#[test]
fn the_fill_of_a_filesystem_is_sent(rt: HostRuntime) {
    let alloc = rt.alloc();
    let replied = ReplyStatfs::new(alloc, ID).statfs(
        0x11, 0x22, 0x33, 0x44, 0x55, 0x66, 0x77, 0x88,
    );
    let numbers = [
        0x11, 0, 0, 0, 0, 0, 0, 0, 0x22, 0, 0, 0, 0, 0, 0, 0, 0x33, 0, 0, 0, 0, 0, 0, 0, 0x44, 0,
        0, 0, 0, 0, 0, 0, 0x55, 0, 0, 0, 0, 0, 0, 0, 0x66, 0, 0, 0, 0x77, 0, 0, 0, 0x88, 0, 0, 0,
    ];
    carries(&rt, alloc, replied, &[&numbers, &[0; 28]]);
    let (most, all) = (u64::MAX, u32::MAX);
    let greatest = ReplyStatfs::new(alloc, ID).statfs(most, most, most, most, most, all, all, all);
    carries(&rt, alloc, greatest, &[&[0xff; 52], &[0; 28]]);
}

/// Numbers of 32 bits, and what is sent of them: how much was written, how long an extended attribute is, and what a file
/// is ready for.
const WORDS: &[(u32, [u8; 8])] = &[
    (0, [0; 8]),
    (0x1122, [0x22, 0x11, 0, 0, 0, 0, 0, 0]),
    (0x1234_5678, [0x78, 0x56, 0x34, 0x12, 0, 0, 0, 0]),
    (u32::MAX, [0xff, 0xff, 0xff, 0xff, 0, 0, 0, 0]),
];

/// Numbers of 64 bits, and what is sent of them: where a block lies, and with a sign where data was found.
const PLACES: &[(u64, i64, [u8; 8])] = &[
    (0, 0, [0; 8]),
    (0x1234, 0x1234, [0x34, 0x12, 0, 0, 0, 0, 0, 0]),
    (
        0x7fff_ffff_ffff_ffff,
        i64::MAX,
        [0xff, 0xff, 0xff, 0xff, 0xff, 0xff, 0xff, 0x7f],
    ),
    (0x8000_0000_0000_0000, i64::MIN, [0, 0, 0, 0, 0, 0, 0, 0x80]),
    (u64::MAX, -1, [0xff; 8]),
];

#[test]
fn answers_by_one_number_are_sent(rt: HostRuntime) {
    let alloc = rt.alloc();
    for (number, payload) in WORDS {
        let events = PollEvents::from_bits_retain(*number);
        let written = ReplyWrite::new(alloc, ID).written(*number);
        carries(&rt, alloc, written, &[payload]);
        let size = ReplyXattr::new(alloc, ID).size(*number);
        carries(&rt, alloc, size, &[payload]);
        let ready = ReplyPoll::new(alloc, ID).poll(events);
        carries(&rt, alloc, ready, &[payload]);
    }
    for (block, offset, payload) in PLACES {
        let found = ReplyBmap::new(alloc, ID).bmap(*block);
        carries(&rt, alloc, found, &[payload]);
        let data = ReplyLseek::new(alloc, ID).offset(*offset);
        carries(&rt, alloc, data, &[payload]);
    }
}

/// Results of ioctls, and what is sent of them.
const RESULTS: &[(i32, [u8; 4])] = &[
    (0, [0, 0, 0, 0]),
    (i32::MAX, [0xff, 0xff, 0xff, 0x7f]),
    (-2, [0xfe, 0xff, 0xff, 0xff]),
    (i32::MIN, [0, 0, 0, 0x80]),
];

/// This is sent of the result of an ioctl that gives one byte back.
fn carries_result(rt: &impl Abort, alloc: Global, code: i32, sent: &[u8; 4]) {
    let replied = ReplyIoctl::new(alloc, ID).ioctl(code, &[7]);
    let rest = [0, 0, 0, 0, 1, 0, 0, 0, 1, 0, 0, 0, 7];
    carries(rt, alloc, replied, &[sent, &rest]);
}

#[test]
fn ioctls_and_extended_attributes_are_sent(rt: HostRuntime) {
    let alloc = rt.alloc();
    for (code, sent) in RESULTS {
        carries_result(&rt, alloc, *code, sent);
    }
    let attribute = [0x11, 0x22, 0x33, 0x44];
    let replied = ReplyXattr::new(alloc, ID).data(&attribute);
    carries(&rt, alloc, replied, &[&attribute]);
}
