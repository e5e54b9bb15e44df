//! Numbers under names of their own: their texts, the order of versions, and how a file is opened.
use crate::asserts::{expect_same, expect_same_in};
use fuse_wire::{FileHandle, INodeNo, LockOwner, OpenAccMode, OpenFlags, Version};
use std::alloc::AllocError;

/// Numbers are padded to a width. A version has one text for each width.
#[test]
fn numbers_are_padded_and_a_version_is_not(rt: HostRuntime) -> Result<(), AllocError> {
    let text = format!(in rt.alloc();
        "{:>4},{:<3},{:04},{:>8},{},{}",
        INodeNo(7),
        FileHandle(7),
        LockOwner(7),
        Version(7, 40),
        INodeNo(u64::MAX),
        Version(u32::MAX, 8),
    )?;
    let expected = "   7,7  ,0007,7.40,18446744073709551615,4294967295.8";
    expect_same(&rt, &text.as_str(), &expected);
    Ok(())
}

#[test]
fn the_major_number_of_a_version_counts_first(rt: HostRuntime) {
    let orders = [
        Version(7, 40) < Version(8, 0),
        Version(7, 9) < Version(7, 40),
        Version(8, 0) < Version(7, u32::MAX),
    ];
    expect_same(&rt, &orders, &[true, true, false]);
}

/// Flags of an open file, and how it is opened.
const MODES: &[(i32, OpenAccMode)] = &[
    (0, OpenAccMode::O_RDONLY),
    (1, OpenAccMode::O_WRONLY),
    (2, OpenAccMode::O_RDWR),
    (3, OpenAccMode::O_RDONLY),
    (0x8242, OpenAccMode::O_RDWR),
    (-1, OpenAccMode::O_RDONLY),
    (-3, OpenAccMode::O_WRONLY),
];

#[test]
fn the_low_two_bits_say_how_a_file_is_opened(rt: HostRuntime) {
    for (flags, mode) in MODES {
        expect_same_in(&rt, flags, &OpenFlags(*flags).acc_mode(), mode);
    }
}
