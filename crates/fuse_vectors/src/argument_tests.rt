// What is fetched from the bytes of a body: INIT as kernels of several ages send it, names, and parts whose words have
// their highest bit set.
use crate::asserts::{expect_same, expect_same_in};
use fuse_args::{ArgumentIterator, GetLkArguments, IoCtlArguments, SetAttrArguments};
use std::process::Abort;

/// Words of 4 bytes, each with the highest bit and 1 more in each byte than the one before, and 3 bytes of the next.
const BYTES: &[u8] = &[
    0x01, 0x41, 0x61, 0x81, 0x02, 0x42, 0x62, 0x82, 0x03, 0x43, 0x63, 0x83, 0x04, 0x44, 0x64, 0x84,
    0x05, 0x45, 0x65, 0x85, 0x06, 0x46, 0x66, 0x86, 0x07, 0x47, 0x67, 0x87, 0x08, 0x48, 0x68, 0x88,
    0x09, 0x49, 0x69, 0x89, 0x0a, 0x4a, 0x6a, 0x8a, 0x0b, 0x4b, 0x6b, 0x8b, 0x0c, 0x4c, 0x6c, 0x8c,
    0x0d, 0x4d, 0x6d, 0x8d, 0x0e, 0x4e, 0x6e, 0x8e, 0x0f, 0x4f, 0x6f, 0x8f, 0x10, 0x50, 0x70, 0x90,
    0x11, 0x51, 0x71, 0x91, 0x12, 0x52, 0x72, 0x92, 0x13, 0x53, 0x73, 0x93, 0x14, 0x54, 0x74, 0x94,
    0x15, 0x55, 0x75, 0x95, 0x16, 0x56, 0x76, 0x96, 0x17, 0x57, 0x77,
];

/// The fields of INIT: the version, the readahead, and the two words of capabilities.
fn fetched_init(arguments: &mut ArgumentIterator<'_>) -> Option<[u32; 5]> {
    let init = arguments.fetch_init()?;
    Some([
        init.major,
        init.minor,
        init.max_readahead,
        init.flags,
        init.flags2,
    ])
}

/// How many bytes of INIT are there, its second word of capabilities, and how many bytes are left.
const INITS: &[(usize, u32, usize)] = &[
    (16, 0, 0),
    (18, 0x4505, 0),
    (19, 0x65_4505, 0),
    (20, 0x8565_4505, 0),
    (63, 0x8565_4505, 0),
    (64, 0x8565_4505, 0),
    (67, 0x8565_4505, 3),
];

/// What INIT has of so many bytes.
fn expect_init(rt: &impl Abort, length: usize, flags2: u32, left: usize) {
    let mut arguments = ArgumentIterator::new(BYTES.get(..length).unwrap_or(&[]));
    let found = fetched_init(&mut arguments);
    let expected = [0x8161_4101, 0x8262_4202, 0x8363_4303, 0x8464_4404, flags2];
    expect_same_in(
        rt,
        &length,
        &(found, arguments.len()),
        &(Some(expected), left),
    );
}

#[test]
fn fetches_init_of_each_length(rt: HostRuntime) {
    for (length, flags2, left) in INITS {
        expect_init(&rt, *length, *flags2, *left);
    }
    let mut arguments = ArgumentIterator::new(BYTES.get(..15).unwrap_or(&[]));
    let found = fetched_init(&mut arguments);
    expect_same(&rt, &(found, arguments.len()), &(None, 15));
}

/// Bytes, the name that they begin with, and how many bytes are left.
const NAMES: &[(&[u8], Option<&[u8]>, usize)] = &[
    (b"bar\0ba", Some(b"bar"), 2),
    (b"bar\0", Some(b"bar"), 0),
    (b"\0ba", Some(b""), 2),
    (b"\0\0", Some(b""), 1),
    (b"bar", None, 3),
    (b"", None, 0),
];

#[test]
fn fetches_names(rt: HostRuntime) {
    for (bytes, name, left) in NAMES {
        let mut arguments = ArgumentIterator::new(bytes);
        let found = arguments.fetch_str();
        expect_same(&rt, &(found, arguments.len()), &(*name, *left));
    }
}

// A word that is read with its sign, or two of them.
macro_rules! signed {
    (one $word:literal) => {
        ($word - 0x1_0000_0000_i64) as i32
    };
    (two $words:literal) => {
        ($words - 0x1_0000_0000_0000_0000_i128) as i64
    };
}

const SIGNED_9: i32 = signed!(one 0x8969_4909);

const SIGNED_9_10: i64 = signed!(two 0x8a6a_4a0a_8969_4909);

const SIGNED_11_12: i64 = signed!(two 0x8c6c_4c0c_8b6b_4b0b);

const SIGNED_13_14: i64 = signed!(two 0x8e6e_4e0e_8d6d_4d0d);

/// Whether SETATTR has its fields at their places.
fn is_setattr_in_place(arguments: &mut ArgumentIterator<'_>) -> bool {
    matches!(
        arguments.fetch_setattr(),
        Some(SetAttrArguments {
            valid: 0x8161_4101,
            fh: 0x8464_4404_8363_4303,
            size: 0x8666_4606_8565_4505,
            lock_owner: 0x8868_4808_8767_4707,
            atime: SIGNED_9_10,
            mtime: SIGNED_11_12,
            ctime: SIGNED_13_14,
            atimensec: 0x8f6f_4f0f,
            mtimensec: 0x9070_5010,
            ctimensec: 0x9171_5111,
            mode: 0x9272_5212,
            uid: 0x9474_5414,
            gid: 0x9575_5515,
        })
    )
}

/// Whether GETLK has its fields at their places.
fn is_getlk_in_place(arguments: &mut ArgumentIterator<'_>) -> bool {
    matches!(
        arguments.fetch_getlk(),
        Some(GetLkArguments {
            fh: 0x8262_4202_8161_4101,
            owner: 0x8464_4404_8363_4303,
            start: 0x8666_4606_8565_4505,
            end: 0x8868_4808_8767_4707,
            typ: SIGNED_9,
            pid: 0x8a6a_4a0a,
            lk_flags: 0x8b6b_4b0b,
        })
    )
}

/// Whether IOCTL has its fields at their places.
fn is_ioctl_in_place(arguments: &mut ArgumentIterator<'_>) -> bool {
    matches!(
        arguments.fetch_ioctl(),
        Some(IoCtlArguments {
            fh: 0x8262_4202_8161_4101,
            flags: 0x8363_4303,
            cmd: 0x8464_4404,
            arg: 0x8666_4606_8565_4505,
            in_size: 0x8767_4707,
            out_size: 0x8868_4808,
        })
    )
}

#[test]
fn fetches_each_bit_and_sign_of_a_part(rt: HostRuntime) {
    let mut arguments = ArgumentIterator::new(BYTES);
    let found = (is_setattr_in_place(&mut arguments), arguments.len());
    expect_same(&rt, &found, &(true, 3));
    let places = [
        is_getlk_in_place(&mut ArgumentIterator::new(BYTES)),
        is_ioctl_in_place(&mut ArgumentIterator::new(BYTES)),
    ];
    expect_same(&rt, &places, &[true; 2]);
}
