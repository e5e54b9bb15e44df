// The INIT reply's bytes, and what a kernel offers.
use crate::asserts::expect_same;
use crate::setter_tests::{Step, offered, set_all};
use bitflags::Flags;
use fuse_config::version_reply;
use fuse_wire::{InitFlags, Version};
use std::process::Abort;

/// The minor version of a kernel, what it offers, how far it reads ahead, what is set then, the size of a page, the
/// length of the reply, and what the reply has from this byte on.
type Row = (
    u32,
    u64,
    u32,
    &'static [Step],
    u32,
    usize,
    usize,
    &'static [u8],
);

/// What is set before a reply.
const SET: &[Step] = &[
    Step::MaxReadahead(65536, Ok(131072)),
    Step::MaxBackground(64, Ok(16)),
    Step::Threshold(20, Ok(48)),
    Step::MaxWrite(1048576, Ok(16777216)),
    Step::Granularity(1000, Ok(1)),
    Step::StackDepth(1, Ok(0)),
    Step::Capabilities(1 << 37, Ok(())),
];

/// What is set where each byte of a field counts.
const WIDE: &[Step] = &[
    Step::MaxBackground(0x8182, Ok(16)),
    Step::Threshold(0x7172, Ok(24865)),
    Step::MaxWrite(0xc1_c2c3, Ok(16777216)),
    Step::Granularity(1_000_000_000, Ok(1)),
    Step::StackDepth(2, Ok(0)),
    Step::Capabilities(0x8182_87ff_8182_8384, Ok(())),
];

// One setter each.

const THRESHOLD: &[Step] = &[Step::Threshold(20, Ok(12))];

const ODD_WRITE: &[Step] = &[Step::MaxWrite(4097, Ok(16777216))];

const DEPTH: &[Step] = &[Step::StackDepth(2, Ok(0))];

const SHORT: &[u8] = &[
    7, 0, 0, 0, 40, 0, 0, 0, 0, 16, 0, 0, 0, 0, 0, 0, 16, 0, 12, 0, 0, 0, 0, 1,
];

const FRESH: &[u8] = &[
    7, 0, 0, 0, 40, 0, 0, 0, 0, 0, 2, 0, 0x21, 0, 0x40, 0x40, 16, 0, 12, 0, 0, 0, 0, 1, 1, 0, 0, 0,
    0, 16, 0, 0, 0, 0, 0, 0, 0, 0, 0, 0, 0, 0, 0, 0, 0, 0, 0, 0, 0, 0, 0, 0, 0, 0, 0, 0, 0, 0, 0,
    0, 0, 0, 0, 0,
];

const ALL_SET: &[u8] = &[
    7, 0, 0, 0, 40, 0, 0, 0, 0, 0, 1, 0, 0x21, 0, 0x40, 0x40, 64, 0, 20, 0, 0, 0, 16, 0, 0xe8, 3,
    0, 0, 0, 1, 0, 0, 0x20, 0, 0, 0, 1, 0, 0, 0, 0, 0, 0, 0, 0, 0, 0, 0, 0, 0, 0, 0, 0, 0, 0, 0, 0,
    0, 0, 0, 0, 0, 0, 0,
];

const EACH_BYTE: &[u8] = &[
    7, 0, 0, 0, 40, 0, 0, 0, 0xf4, 0xf3, 0xf2, 0xf1, 0xa5, 0x83, 0xc2, 0xc1, 0x82, 0x81, 0x72,
    0x71, 0xc3, 0xc2, 0xc1, 0, 0, 0xca, 0x9a, 0x3b, 0xf3, 0xf1, 0, 0, 0xff, 0x87, 0x82, 0x81, 2, 0,
    0, 0, 0, 0, 0, 0, 0, 0, 0, 0, 0, 0, 0, 0, 0, 0, 0, 0, 0, 0, 0, 0, 0, 0, 0, 0,
];

/// The short reply, and the long one: fresh, with as many pages as it counts, with a threshold above the background,
/// with what was set, and with each byte of it; where the short one ends; pages that are not filled, and those of a
/// readahead; and a stack depth without the capability that it is sent with, which is offered and not asked for.
const REPLIES: &[Row] = &[
    (8, 0, 4096, &[], 4096, 24, 0, SHORT),
    (40, 0x20_4040_0021, 131072, &[], 4096, 64, 0, FRESH),
    (40, 0x20_4040_0021, 131072, &[], 1, 64, 28, &[255, 255]),
    (40, 0, 131072, THRESHOLD, 4096, 64, 16, &[16, 0, 16, 0]),
    (40, 0x20_4040_0021, 131072, SET, 4096, 64, 0, ALL_SET),
    (40, u64::MAX, 0xf1f2_f3f4, WIDE, 65536, 64, 0, EACH_BYTE),
    (22, 0, 4096, &[], 4096, 24, 8, &[0, 16, 0, 0]),
    (23, 0, 4096, &[], 4096, 64, 8, &[0, 16, 0, 0]),
    (40, 0, 4096, ODD_WRITE, 4096, 64, 28, &[2, 0]),
    (40, 0, 1 << 25, &[], 65536, 64, 28, &[0, 2]),
    (40, 1 << 37, 131072, DEPTH, 4096, 64, 32, &[0; 8]),
];

/// The reply is that of the row.
fn expect_reply(rt: &impl Abort, row: &Row) {
    let (minor, capabilities, readahead, steps, page, length, at, bytes) = row;
    assert!(rt; *minor >= 6 && *page > 0);
    let mut config = offered(*capabilities, *readahead, *minor);
    set_all(rt, &mut config, steps);
    let flags = InitFlags::from_bits_retain(*capabilities);
    let (payload, found) = config.init_reply(flags, *minor, *page);
    let part = payload.get(*at..at.saturating_add(bytes.len()));
    expect_same(rt, &(found, part), &(*length, Some(*bytes)));
}

#[test]
fn each_reply_has_the_bytes_of_its_row(rt: HostRuntime) {
    for row in REPLIES {
        expect_reply(&rt, row);
    }
}

#[test]
fn grants_no_pages_that_were_offered_later(rt: HostRuntime) {
    let all = InitFlags::from_bits_retain(u64::MAX);
    let (payload, _) = offered(0, 131072, 40).init_reply(all, 40, 4096);
    let flags: &[u8] = &[0x21, 0, 0, 0x40];
    expect_same(&rt, &payload.get(12..16), &Some(flags));
}

/// What a kernel offers, its minor version, and what is told of what it offers.
const OFFERS: &[(u64, u32, u64)] = &[
    (u64::MAX, 40, 0x7ff_bfff_ffff),
    (
        1 << 3 | 1 << 30 | 1 << 42 | 1 << 43,
        0x8182_8384,
        1 << 3 | 1 << 42,
    ),
];

#[test]
fn tells_what_the_kernel_offers_and_speaks(rt: HostRuntime) {
    for (offers, minor, told) in OFFERS {
        let config = offered(*offers, 131072, *minor);
        let found = (config.capabilities().bits(), config.kernel_abi());
        expect_same(&rt, &found, &(*told, Version(7, *minor)));
    }
}

/// The reply to a later version.
const LATER: &[u8] = &[
    7, 0, 0, 0, 40, 0, 0, 0, 0, 0, 0, 0, 0, 0, 0, 0, 0, 0, 0, 0, 0, 0, 0, 0, 0, 0, 0, 0, 0, 0, 0,
    0, 0, 0, 0, 0, 0, 0, 0, 0, 0, 0, 0, 0, 0, 0, 0, 0, 0, 0, 0, 0, 0, 0, 0, 0, 0, 0, 0, 0, 0, 0, 0,
    0,
];

#[test]
fn answers_a_later_version(rt: HostRuntime) {
    expect_same(&rt, &version_reply().as_slice(), &LATER);
}
