// The payloads of fixed size that carry no attributes.
ghost use Rattle.std.specs.Prelude.{◌≡◌};
ghost use Rattle.fuse_reply.specs.Payload.{open_payload, word_payload, statfs_counts, statfs_sizes};
ghost use Rattle.fuse_reply.specs.Payload.{lock_payload, ioctl_front};
ghost use Rattle.fuse_reply.specs.Listing.{dirent_head};

use fuse_wire::FileHandle;

/// An open file: `struct fuse_open_out`.
#[tactic(auto, unfolding(crate::specs::Payload::open_payload))]
pub fn open_bytes(fh: FileHandle, open_flags: u32) -> [u8; 16]
    ensures { result ≡ open_payload fh.0 open_flags }
{
    let [h0, h1, h2, h3, h4, h5, h6, h7] = fh.0.to_le_bytes();
    let [f0, f1, f2, f3] = open_flags.to_le_bytes();
    [h0, h1, h2, h3, h4, h5, h6, h7, f0, f1, f2, f3, 0, 0, 0, 0]
}

/// A number, and 4 bytes without a use: `struct fuse_write_out` and its like.
#[tactic(auto, unfolding(crate::specs::Payload::word_payload))]
pub fn word_bytes(n: u32) -> [u8; 8]
    ensures { result ≡ word_payload n }
{
    let [n0, n1, n2, n3] = n.to_le_bytes();
    [n0, n1, n2, n3, 0, 0, 0, 0]
}

/// The counts of `struct fuse_kstatfs`, of 8 bytes each.
#[tactic(auto, unfolding(crate::specs::Payload::statfs_counts))]
pub fn statfs_count_bytes(blocks: u64, bfree: u64, bavail: u64, files: u64, ffree: u64) -> [u8; 40]
    ensures { result ≡ statfs_counts blocks bfree bavail files ffree }
{
    let [b0, b1, b2, b3, b4, b5, b6, b7] = blocks.to_le_bytes();
    let [f0, f1, f2, f3, f4, f5, f6, f7] = bfree.to_le_bytes();
    let [a0, a1, a2, a3, a4, a5, a6, a7] = bavail.to_le_bytes();
    let [n0, n1, n2, n3, n4, n5, n6, n7] = files.to_le_bytes();
    let [l0, l1, l2, l3, l4, l5, l6, l7] = ffree.to_le_bytes();
    [
        b0, b1, b2, b3, b4, b5, b6, b7, f0, f1, f2, f3, f4, f5, f6, f7, a0, a1, a2, a3, a4, a5, a6,
        a7, n0, n1, n2, n3, n4, n5, n6, n7, l0, l1, l2, l3, l4, l5, l6, l7,
    ]
}

/// The numbers of `struct fuse_kstatfs` that have 4 bytes, and the bytes after them that have no use.
#[tactic(auto, unfolding(crate::specs::Payload::statfs_sizes))]
pub fn statfs_size_bytes(bsize: u32, namelen: u32, frsize: u32) -> [u8; 40]
    ensures { result ≡ statfs_sizes bsize namelen frsize }
{
    let [b0, b1, b2, b3] = bsize.to_le_bytes();
    let [n0, n1, n2, n3] = namelen.to_le_bytes();
    let [f0, f1, f2, f3] = frsize.to_le_bytes();
    [
        b0, b1, b2, b3, n0, n1, n2, n3, f0, f1, f2, f3, 0, 0, 0, 0, 0, 0, 0, 0, 0, 0, 0, 0, 0, 0,
        0, 0, 0, 0, 0, 0, 0, 0, 0, 0, 0, 0, 0, 0,
    ]
}

/// A lock: `struct fuse_file_lock`.
#[tactic(auto, unfolding(crate::specs::Payload::lock_payload))]
pub fn lock_bytes(start: u64, end: u64, typ: i32, pid: u32) -> [u8; 24]
    ensures { result ≡ lock_payload start end typ pid }
{
    let [s0, s1, s2, s3, s4, s5, s6, s7] = start.to_le_bytes();
    let [e0, e1, e2, e3, e4, e5, e6, e7] = end.to_le_bytes();
    let [t0, t1, t2, t3] = typ.to_le_bytes();
    let [p0, p1, p2, p3] = pid.to_le_bytes();
    [
        s0, s1, s2, s3, s4, s5, s6, s7, e0, e1, e2, e3, e4, e5, e6, e7, t0, t1, t2, t3, p0, p1, p2,
        p3,
    ]
}

/// What stands in front of the bytes that an ioctl gives back: `struct fuse_ioctl_out`.
#[tactic(auto, unfolding(crate::specs::Payload::ioctl_front))]
pub fn ioctl_bytes(code: i32) -> [u8; 16]
    ensures { result ≡ ioctl_front code }
{
    let [r0, r1, r2, r3] = code.to_le_bytes();
    [r0, r1, r2, r3, 0, 0, 0, 0, 1, 0, 0, 0, 1, 0, 0, 0]
}

/// What stands in front of the name of an entry: `struct fuse_dirent`.
#[tactic(auto, unfolding(crate::specs::Listing::dirent_head))]
pub fn dirent_head_bytes(ino: u64, offset: u64, namelen: u32, typ: u32) -> [u8; 24]
    ensures { result ≡ dirent_head ino offset namelen typ }
{
    let [i0, i1, i2, i3, i4, i5, i6, i7] = ino.to_le_bytes();
    let [o0, o1, o2, o3, o4, o5, o6, o7] = offset.to_le_bytes();
    let [n0, n1, n2, n3] = namelen.to_le_bytes();
    let [t0, t1, t2, t3] = typ.to_le_bytes();
    [
        i0, i1, i2, i3, i4, i5, i6, i7, o0, o1, o2, o3, o4, o5, o6, o7, n0, n1, n2, n3, t0, t1, t2,
        t3,
    ]
}
