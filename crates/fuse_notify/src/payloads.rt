// What stands in a notice's payload in front of its name or data.
ghost use Rattle.std.specs.Prelude.{◌≡◌, ◌++◌};
ghost use Rattle.std.specs.Int.{w64, to_le_bytes, cast_unsigned};
ghost use Rattle.fuse_notify.specs.Heads.{entry_head, wide_head};

/// A range of an inode: `struct fuse_notify_inval_inode_out`.
pub fn range_bytes(ino: u64, offset: i64, length: i64) -> [u8; 24]
    ensures { result ≡ to_le_bytes w64 ino ++ to_le_bytes w64 (cast_unsigned w64 offset)
        ++ to_le_bytes w64 (cast_unsigned w64 length) }
{
    let [i0, i1, i2, i3, i4, i5, i6, i7] = ino.to_le_bytes();
    let [o0, o1, o2, o3, o4, o5, o6, o7] = offset.to_le_bytes();
    let [l0, l1, l2, l3, l4, l5, l6, l7] = length.to_le_bytes();
    [
        i0, i1, i2, i3, i4, i5, i6, i7, o0, o1, o2, o3, o4, o5, o6, o7, l0, l1, l2, l3, l4, l5, l6,
        l7,
    ]
}

/// What stands in front of a name that is no longer valid: `struct fuse_notify_inval_entry_out`.
#[tactic(auto, unfolding(crate::specs::Heads::entry_head))]
pub fn entry_head_bytes(parent: u64, namelen: u32) -> [u8; 16]
    ensures { result ≡ entry_head parent namelen }
{
    let [p0, p1, p2, p3, p4, p5, p6, p7] = parent.to_le_bytes();
    let [n0, n1, n2, n3] = namelen.to_le_bytes();
    [p0, p1, p2, p3, p4, p5, p6, p7, n0, n1, n2, n3, 0, 0, 0, 0]
}

/// What stands in front of data to keep, or of a name that is gone: `struct fuse_notify_store_out` and `struct
/// fuse_notify_delete_out`.
#[tactic(auto, unfolding(crate::specs::Heads::wide_head))]
pub fn wide_head_bytes(first: u64, second: u64, size: u32) -> [u8; 24]
    ensures { result ≡ wide_head first second size }
{
    let [f0, f1, f2, f3, f4, f5, f6, f7] = first.to_le_bytes();
    let [s0, s1, s2, s3, s4, s5, s6, s7] = second.to_le_bytes();
    let [n0, n1, n2, n3] = size.to_le_bytes();
    [
        f0, f1, f2, f3, f4, f5, f6, f7, s0, s1, s2, s3, s4, s5, s6, s7, n0, n1, n2, n3, 0, 0, 0, 0,
    ]
}
