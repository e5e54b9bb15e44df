// Messages of each opcode: how they are named, which are cut short, who asks, why some are none, and what INIT, SETATTR and
// GETXATTR say by their bits.
use crate::asserts::{expect_same, expect_same_in};
use crate::vectors::INIT;
use bitflags::Flags;
use fuse_request::{AnyRequest, GetXAttrSize, GetXAttrSizeEnum, Operation, RequestError, SetAttr};
use fuse_wire::{FileHandle, InitFlags, SystemTime, TimeOrNow};
use std::alloc::{AllocError, Global};
use std::process::Abort;
use std::test::Fail;

#[test]
fn tells_who_asks(rt: HostRuntime) -> Result<(), Fail> {
    let asked = AnyRequest::try_from(INIT.as_slice())?.request();
    let numbers = [asked.uid(), asked.gid(), asked.pid()];
    expect_same(&rt, &asked.unique().0, &0xdead_beef_baad_f00d);
    expect_same(&rt, &numbers, &[0xc001_d00d, 0xc001_cafe, 0xc0de_ba5e]);
    Ok(())
}

/// What a message asks.
fn operation_of(message: &[u8]) -> Option<Operation<'_>> {
    AnyRequest::try_from(message).ok()?.operation().ok()
}

/// Why a message is no request, or its operation can't be told.
fn refusal(message: &[u8]) -> Option<RequestError> {
    match AnyRequest::try_from(message) {
        Ok(request) => request.operation().err(),
        Err(error) => Some(error),
    }
}

/// What INIT says: the version, the readahead, and the capabilities.
fn offered(message: &[u8]) -> Option<(u32, u32, u32, u64)> {
    match operation_of(message) {
        Some(Operation::Init(init)) => Some((
            init.version().0,
            init.version().1,
            init.max_readahead(),
            init.capabilities().bits(),
        )),
        _ => None,
    }
}

#[test]
fn a_second_word_of_capabilities_counts_with_its_bit(rt: HostRuntime) {
    let mut second_word = INIT;
    second_word[56] = 2;
    expect_same(&rt, &offered(&second_word), &Some((7, 8, 4096, 0)));
    second_word[55] = 0x40;
    let both = Some((7, 8, 4096, 0x2_4000_0000));
    expect_same(&rt, &offered(&second_word), &both);
}

/// The lowest byte of the length field, the lowest two of the opcode and the third, and why such a message is refused.
const REFUSED: &[(u8, [u8; 3], RequestError)] = &[
    (39, [26, 0, 0], RequestError::InsufficientData),
    (104, [7, 0, 0], RequestError::UnknownOperation(7)),
    (104, [0, 0, 0], RequestError::UnknownOperation(0)),
    (104, [19, 0, 0], RequestError::UnknownOperation(19)),
    (104, [48, 0, 0], RequestError::UnknownOperation(48)),
    (104, [53, 0, 0], RequestError::UnknownOperation(53)),
    (104, [26, 1, 0], RequestError::UnknownOperation(282)),
    (104, [26, 0, 1], RequestError::UnknownOperation(65_562)),
];

#[test]
fn refuses_what_is_no_request(rt: HostRuntime) {
    for &(counted, opcode, expected) in REFUSED {
        let mut message = INIT;
        message[0] = counted;
        message[4..7].copy_from_slice(&opcode);
        expect_same(&rt, &refusal(&message), &Some(expected));
    }
}

/// Why a message is none, and the text of that.
const TEXTS: &[(RequestError, &str)] = &[
    (
        RequestError::ShortReadHeader(20),
        "Short read of FUSE request header (20 < 40)",
    ),
    (
        RequestError::ShortRead(48, 104),
        "Short read of FUSE request (48 < 104)",
    ),
    (RequestError::UnknownOperation(7), "Unknown FUSE opcode (7)"),
    (RequestError::InsufficientData, "Insufficient argument data"),
];

#[test]
fn says_why_a_message_is_none(rt: HostRuntime) -> Result<(), AllocError> {
    for (error, text) in TEXTS {
        let found = error.to_string(rt.alloc())?;
        expect_same(&rt, &found.as_str(), text);
    }
    Ok(())
}

/// The byte at this place of a body, whose fixed part has so many bytes. Each 4 of these are their number, from 1, and
/// the tail follows. After that stand ones.
fn body_byte(place: usize, fixed: usize, tail: &[u8]) -> u8 {
    if place >= fixed {
        return *tail.get(place - fixed).unwrap_or(&1);
    }
    match place % 4 {
        0 => u8::try_from(place / 4).unwrap_or(0).saturating_add(1),
        _ => 0,
    }
}

/// A message of this opcode about node 9 with such a body, of which the header counts the first bytes.
fn message(opcode: u16, fixed: usize, tail: &[u8], length: usize) -> [u8; 160] {
    let mut message = [0; 160];
    let [low, high] = opcode.to_le_bytes();
    message[0] = u8::try_from(length.saturating_add(40)).unwrap_or(160);
    message[4] = low;
    message[5] = high;
    message[16] = 9;
    for (place, byte) in message[40..].iter_mut().enumerate() {
        *byte = body_byte(place, fixed, tail);
    }
    message
}

/// Opcode, bytes of the fixed part, the tail, how many bytes of all this are needed, and what is asked.
type Row = (u16, usize, &'static [u8], usize, &'static str);

const GOOD: &[Row] = &[
    (1, 0, b"a\0", 2, "Lookup"),
    (2, 8, b"", 8, "Forget"),
    (3, 16, b"", 16, "GetAttr"),
    (4, 88, b"", 88, "SetAttr"),
    (5, 0, b"", 0, "ReadLink"),
    (6, 0, b"a\0bc\0", 5, "SymLink"),
    (8, 16, b"a\0", 18, "MkNod"),
    (9, 8, b"a\0", 10, "MkDir"),
    (10, 0, b"a\0", 2, "Unlink"),
    (11, 0, b"a\0", 2, "RmDir"),
    (12, 8, b"a\0bc\0", 13, "Rename"),
    (13, 8, b"a\0", 10, "Link"),
    (14, 8, b"", 8, "Open"),
    (15, 40, b"", 40, "Read"),
    (16, 40, b"hello", 45, "Write"),
    (17, 0, b"", 0, "StatFs"),
    (18, 24, b"", 24, "Release"),
    (20, 16, b"", 16, "FSync"),
    (21, 8, b"a\0v", 11, "SetXAttr"),
    (22, 8, b"a\0", 10, "GetXAttr"),
    (23, 8, b"", 8, "ListXAttr"),
    (24, 0, b"a\0", 2, "RemoveXAttr"),
    (25, 24, b"", 24, "Flush"),
    (26, 64, b"", 16, "Init"),
    (27, 8, b"", 8, "OpenDir"),
    (28, 40, b"", 40, "ReadDir"),
    (29, 24, b"", 24, "ReleaseDir"),
    (30, 16, b"", 16, "FSyncDir"),
    (31, 48, b"", 48, "GetLk"),
    (32, 48, b"", 48, "SetLk"),
    (33, 48, b"", 48, "SetLk"),
    (34, 8, b"", 8, "Access"),
    (35, 16, b"a\0", 18, "Create"),
    (36, 8, b"", 8, "Interrupt"),
    (37, 16, b"", 16, "BMap"),
    (38, 0, b"", 0, "Destroy"),
    (39, 32, b"abcdefgh", 39, "IoCtl"),
    (40, 24, b"", 24, "Poll"),
    (41, 0, b"any", 0, "NotifyReply"),
    (42, 8, ROW, 24, "BatchForget"),
    (43, 32, b"", 32, "FAllocate"),
    (44, 40, b"", 40, "ReadDirPlus"),
    (45, 16, b"a\0bc\0", 21, "Rename2"),
    (46, 24, b"", 24, "Lseek"),
    (47, 56, b"", 56, "CopyFileRange"),
    (4096, 64, b"", 64, "CuseInit"),
];

/// A row of BATCH_FORGET, and what is none.
const ROW: &[u8] = b"\x05\0\0\0\0\0\0\0\x06\0\0\0\0\0\0\0more";

/// Each part of a message that is shorter than is needed is cut short.
fn expect_cut(rt: &impl Abort, row: &Row) {
    let (opcode, fixed, tail, needed, _) = *row;
    for length in 0..needed {
        let found = refusal(&message(opcode, fixed, tail, length));
        let case = (opcode, length);
        expect_same_in(rt, &case, &found, &Some(RequestError::InsufficientData));
    }
}

#[test]
fn refuses_what_is_cut(rt: HostRuntime) {
    for row in GOOD {
        expect_cut(&rt, row);
    }
}

/// What a message asks, as it is printed.
fn printed(alloc: Global, message: &[u8]) -> Result<String, AllocError> {
    match AnyRequest::try_from(message) {
        Ok(request) => format!(in alloc; "{:?}", request.operation()),
        Err(error) => format!(in alloc; "{error:?}"),
    }
}

/// A message of this row that has so many bytes is printed as its name.
fn expect_name(rt: &impl Abort, alloc: Global, row: &Row, length: usize) {
    let (opcode, fixed, tail, _, name) = *row;
    let message = message(opcode, fixed, tail, length);
    let found = printed(alloc, &message).expect(rt, "there is memory");
    let expected = format!(in alloc; "Ok({name})").expect(rt, "there is memory");
    expect_same(rt, &found.as_str(), &expected.as_str());
}

#[test]
fn an_operation_is_printed_as_its_name(rt: HostRuntime) {
    for row in GOOD {
        expect_name(&rt, rt.alloc(), row, row.3);
        let whole = row.1.saturating_add(row.2.len());
        expect_name(&rt, rt.alloc(), row, whole);
    }
}

#[test]
fn refuses_a_value_of_another_size(rt: HostRuntime) {
    let written = refusal(&message(16, 40, b"hello!", 46));
    let value = refusal(&message(21, 8, b"a\0vw", 12));
    let expected = [Some(RequestError::InsufficientData); 2];
    expect_same(&rt, &[written, value], &expected);
}

/// What SETXATTR sets under these capabilities: the flags of `setxattr(2)`, `setxattr_flags`, and whether `a` gets the
/// value `v`.
fn set_under(granted: InitFlags, message: &[u8]) -> Option<(i32, u32, bool)> {
    let request = AnyRequest::try_from(message).ok()?;
    match request.operation_with(granted).ok()? {
        Operation::SetXAttr(set) => {
            let is_set = set.name() == b"a".as_slice() && set.value() == b"v".as_slice();
            Some((set.flags(), set.setxattr_flags().bits(), is_set))
        }
        _ => None,
    }
}

/// What is set under these capabilities by a fixed part of 8 bytes, and by one of 16.
fn set_by_either(granted: InitFlags) -> [Option<(i32, u32, bool)>; 2] {
    [
        set_under(granted, &message(21, 8, b"a\0v", 11)),
        set_under(granted, &message(21, 16, b"a\0v", 19)),
    ]
}

#[test]
fn the_fixed_part_of_setxattr_is_longer_where_that_was_granted(rt: HostRuntime) {
    let granted = InitFlags::FUSE_SETXATTR_EXT;
    expect_same(&rt, &set_by_either(granted), &[None, Some((2, 3, true))]);
    for others in [InitFlags::empty(), granted.complement()] {
        expect_same(&rt, &set_by_either(others), &[Some((2, 0, true)), None]);
    }
    for length in 0..19 {
        let cut = message(21, 16, b"a\0v", length);
        expect_same_in(&rt, &length, &set_under(granted, &cut), &None);
    }
}

/// What GETXATTR asks for, with this lowest byte of its size.
fn size_wanted(size: u8) -> Option<(bool, u32)> {
    let mut message = message(22, 8, b"a\0", 10);
    message[40] = size;
    match operation_of(&message) {
        Some(Operation::GetXAttr(asked)) => Some((
            asked.size() == GetXAttrSizeEnum::GetSize(GetXAttrSize),
            asked.size_u32(),
        )),
        _ => None,
    }
}

#[test]
fn the_size_alone_is_wanted_by_0(rt: HostRuntime) {
    let found = [size_wanted(0), size_wanted(1), size_wanted(0xff)];
    let expected = [Some((true, 0)), Some((false, 1)), Some((false, 0xff))];
    expect_same(&rt, &found, &expected);
}

/// SETATTR: read at -1.2 s, written at 1.000000005 s, changed at 3 s.
const TIMES: [u8; 88] = [
    0, 0, 0, 0, 0, 0, 0, 0, 7, 0, 0, 0, 0, 0, 0, 0, 8, 0, 0, 0, 0, 0, 0, 0, 0, 0, 0, 0, 0, 0, 0, 0,
    0xfe, 0xff, 0xff, 0xff, 0xff, 0xff, 0xff, 0xff, 1, 0, 0, 0, 0, 0, 0, 0, 3, 0, 0, 0, 0, 0, 0, 0,
    0, 0x08, 0xaf, 0x2f, 5, 0, 0, 0, 0, 0, 0, 0, 0xa4, 0x81, 0, 0, 0, 0, 0, 0, 10, 0, 0, 0, 11, 0,
    0, 0, 0, 0, 0, 0,
];

/// SETATTR, with these bits of `valid`.
fn setattr(valid: u16) -> Option<SetAttr> {
    let mut message = message(4, 0, &TIMES, 88);
    let bits = valid.to_le_bytes();
    message[40] = bits[0];
    message[41] = bits[1];
    match operation_of(&message) {
        Some(Operation::SetAttr(setattr)) => Some(setattr),
        _ => None,
    }
}

/// Which fields SETATTR sets: mode, uid, gid, size, atime, mtime, file handle, ctime.
fn set_fields(setattr: &SetAttr) -> [bool; 8] {
    [
        setattr.mode().is_some(),
        setattr.uid().is_some(),
        setattr.gid().is_some(),
        setattr.size().is_some(),
        setattr.atime().is_some(),
        setattr.mtime().is_some(),
        setattr.file_handle().is_some(),
        setattr.ctime().is_some(),
    ]
}

/// Bits of `valid`, and the field that they set.
const VALID: &[(u16, usize)] = &[
    (0, 8),
    (0x1, 0),
    (0x2, 1),
    (0x4, 2),
    (0x8, 3),
    (0x10, 4),
    (0x20, 5),
    (0x40, 6),
    (0x80, 8),
    (0x100, 8),
    (0x200, 8),
    (0x400, 7),
    (0x90, 4),
    (0x120, 5),
    (0x110, 4),
    (0xa0, 5),
    (0x180, 8),
];

#[test]
fn sets_what_valid_says(rt: HostRuntime) {
    for (valid, field) in VALID {
        let mut expected = [false; 8];
        if let Some(set) = expected.get_mut(*field) {
            *set = true;
        }
        let found = setattr(*valid).map(|setattr| set_fields(&setattr));
        expect_same_in(&rt, valid, &found, &Some(expected));
    }
}

/// A time to set, in nanoseconds.
fn at(nanos: i128) -> Option<TimeOrNow> {
    Some(TimeOrNow::SpecificTime(SystemTime(nanos)))
}

#[test]
fn sets_these_values_and_times(rt: HostRuntime) {
    let setattr = setattr(0x47f).expect(&rt, "SETATTR");
    let numbers = (setattr.mode(), setattr.uid(), setattr.gid());
    expect_same(&rt, &numbers, &(Some(0o100644), Some(10), Some(11)));
    let file = (setattr.size(), setattr.file_handle());
    expect_same(&rt, &file, &(Some(8), Some(FileHandle(7))));
    let times = (setattr.atime(), setattr.mtime(), setattr.ctime());
    let changed = Some(SystemTime(3_000_000_000));
    let expected = (at(-1_200_000_000), at(1_000_000_005), changed);
    expect_same(&rt, &times, &expected);
}

#[test]
fn sets_the_present(rt: HostRuntime) {
    let setattr = setattr(0x1b0).expect(&rt, "SETATTR");
    let times = (setattr.atime(), setattr.mtime(), setattr.ctime());
    let now = Some(TimeOrNow::Now);
    expect_same(&rt, &times, &(now, now, None));
}
