// The payloads that carry attributes of a file.
ghost use Rattle.std.specs.Prelude.{◌≡◌, ◌+◌, ◌++◌, ◌/◌, ◌%◌, ◌<◌, ◌^◌, length};
ghost use Rattle.fuse_reply.specs.Answer.{IsAttr, IsSpan, IsAnswer};
ghost use Rattle.fuse_reply.specs.Answer.Answer.{Entry, Attr};
ghost use Rattle.fuse_wire.specs.Times.{nanos_per_second};
ghost use Rattle.fuse_reply.specs.Attributes.{kind_bits, mode, size_fields, second_fields};
ghost use Rattle.fuse_reply.specs.Attributes.{narrow_fields, attr_block, entry_front, entry_payload};
ghost use Rattle.fuse_reply.specs.Attributes.{attr_front, attr_payload};
ghost use Rattle.fuse_reply.specs.Listing.{entry_type};

use fuse_wire::{Duration, FileAttr, FileType, Generation, INodeNo, time_from_system_time};

/// The type bits of `st_mode`.
fn bits_of(kind: FileType) -> u16
    ensures { result ≡ kind_bits kind }
{
    match kind {
        FileType::NamedPipe => 0x1000,
        FileType::CharDevice => 0x2000,
        FileType::Directory => 0x4000,
        FileType::BlockDevice => 0x6000,
        FileType::RegularFile => 0x8000,
        FileType::Symlink => 0xa000,
        FileType::Socket => 0xc000,
    }
}

/// The type of an entry of a directory: `DT_` of `dirent.h`.
pub fn type_of(kind: FileType) -> u32
    ensures { result ≡ entry_type kind }
{
    (bits_of(kind) >> 12) as u32
}

/// The whole `st_mode`.
fn mode_of(kind: FileType, perm: u16) -> u32
    ensures { result ≡ mode kind perm }
{
    (bits_of(kind) | perm) as u32
}

/// The whole seconds of a span, and the nanoseconds above them.
fn span_parts(span: &Duration) -> (u64, u32)
    ensures seconds { result.0 ≡ span.now / nanos_per_second }
    ensures nanos { result.1 ≡ span.now % nanos_per_second }
    ensures range { IsSpan span.now }
{
    (span.as_secs(), span.subsec_nanos())
}

/// The numbers of 8 bytes.
#[tactic(auto, unfolding(crate::specs::Attributes::size_fields))]
#[inline(always)]
fn size_bytes(attr: &FileAttr) -> [u8; 24]
    ensures { result ≡ size_fields attr.now }
{
    let [i0, i1, i2, i3, i4, i5, i6, i7] = attr.ino.0.to_le_bytes();
    let [s0, s1, s2, s3, s4, s5, s6, s7] = attr.size.to_le_bytes();
    let [b0, b1, b2, b3, b4, b5, b6, b7] = attr.blocks.to_le_bytes();
    [
        i0, i1, i2, i3, i4, i5, i6, i7, s0, s1, s2, s3, s4, s5, s6, s7, b0, b1, b2, b3, b4, b5, b6,
        b7,
    ]
}

/// The seconds of the three times.
#[tactic(auto, unfolding(crate::specs::Attributes::second_fields))]
#[inline(always)]
fn second_bytes(atime: i64, mtime: i64, ctime: i64) -> [u8; 24]
    ensures { result ≡ second_fields atime mtime ctime }
{
    let [a0, a1, a2, a3, a4, a5, a6, a7] = atime.to_le_bytes();
    let [m0, m1, m2, m3, m4, m5, m6, m7] = mtime.to_le_bytes();
    let [c0, c1, c2, c3, c4, c5, c6, c7] = ctime.to_le_bytes();
    [
        a0, a1, a2, a3, a4, a5, a6, a7, m0, m1, m2, m3, m4, m5, m6, m7, c0, c1, c2, c3, c4, c5, c6,
        c7,
    ]
}

/// The nanoseconds of the three times, and the numbers of 4 bytes.
#[tactic(auto, unfolding(crate::specs::Attributes::narrow_fields))]
#[inline(always)]
fn narrow_bytes(atimensec: u32, mtimensec: u32, ctimensec: u32, attr: &FileAttr) -> [u8; 40]
    ensures { result ≡ narrow_fields atimensec mtimensec ctimensec attr.now }
{
    let [a0, a1, a2, a3] = atimensec.to_le_bytes();
    let [m0, m1, m2, m3] = mtimensec.to_le_bytes();
    let [c0, c1, c2, c3] = ctimensec.to_le_bytes();
    let [p0, p1, p2, p3] = mode_of(attr.kind, attr.perm).to_le_bytes();
    let [n0, n1, n2, n3] = attr.nlink.to_le_bytes();
    let [u0, u1, u2, u3] = attr.uid.to_le_bytes();
    let [g0, g1, g2, g3] = attr.gid.to_le_bytes();
    let [r0, r1, r2, r3] = attr.rdev.to_le_bytes();
    let [z0, z1, z2, z3] = attr.blksize.to_le_bytes();
    [
        a0, a1, a2, a3, m0, m1, m2, m3, c0, c1, c2, c3, p0, p1, p2, p3, n0, n1, n2, n3, u0, u1, u2,
        u3, g0, g1, g2, g3, r0, r1, r2, r3, z0, z1, z2, z3, 0, 0, 0, 0,
    ]
}

/// Each number of attributes is in the range of its type.
fn in_range(attr: FileAttr)
    ensures { IsAttr attr }
{}

/// The attributes as a reply carries them: `struct fuse_attr`.
#[tactic(auto, unfolding(crate::specs::Attributes::attr_block))]
#[inline(always)]
fn attr_bytes(attr: &FileAttr) -> [u8; 88]
    ensures bytes { result ≡ attr_block attr.now }
    ensures ranges { IsAttr attr.now }
{
    in_range(*attr);
    let (atime, atimensec) = time_from_system_time(&attr.atime);
    let (mtime, mtimensec) = time_from_system_time(&attr.mtime);
    let (ctime, ctimensec) = time_from_system_time(&attr.ctime);
    let wide: [u8; 48] = joined(&size_bytes(attr), &second_bytes(atime, mtime, ctime));
    joined(&wide, &narrow_bytes(atimensec, mtimensec, ctimensec, attr))
}

/// The front of `struct fuse_entry_out`, before the attributes.
#[tactic(auto, unfolding(crate::specs::Attributes::entry_front))]
#[inline(always)]
fn entry_front_bytes(
    entry_ttl: &Duration,
    attr_ttl: &Duration,
    generation: Generation,
    nodeid: INodeNo,
) -> [u8; 40]
    ensures bytes { result ≡ entry_front entry_ttl.now attr_ttl.now generation.0 nodeid.0 }
    ensures entry_valid { IsSpan entry_ttl.now }
    ensures attr_valid { IsSpan attr_ttl.now }
    ensures generation { generation.0 < 2 ^ 64 }
{
    let (entry_valid, entry_valid_nsec) = span_parts(entry_ttl);
    let (attr_valid, attr_valid_nsec) = span_parts(attr_ttl);
    let [i0, i1, i2, i3, i4, i5, i6, i7] = nodeid.0.to_le_bytes();
    let [g0, g1, g2, g3, g4, g5, g6, g7] = generation.0.to_le_bytes();
    let [e0, e1, e2, e3, e4, e5, e6, e7] = entry_valid.to_le_bytes();
    let [a0, a1, a2, a3, a4, a5, a6, a7] = attr_valid.to_le_bytes();
    let [en0, en1, en2, en3] = entry_valid_nsec.to_le_bytes();
    let [an0, an1, an2, an3] = attr_valid_nsec.to_le_bytes();
    [
        i0, i1, i2, i3, i4, i5, i6, i7, g0, g1, g2, g3, g4, g5, g6, g7, e0, e1, e2, e3, e4, e5, e6,
        e7, a0, a1, a2, a3, a4, a5, a6, a7, en0, en1, en2, en3, an0, an1, an2, an3,
    ]
}

/// An inode under a name as a reply carries it: `struct fuse_entry_out`.
#[tactic(auto, unfolding(crate::specs::Attributes::entry_payload))]
#[inline(always)]
pub fn entry_bytes(
    entry_ttl: &Duration,
    attr_ttl: &Duration,
    generation: Generation,
    attr: &FileAttr,
) -> [u8; 128]
    ensures bytes { result ≡ entry_payload entry_ttl.now attr_ttl.now generation.0 attr.now }
    ensures answer { IsAnswer (Entry entry_ttl.now attr_ttl.now generation.0 attr.now) }
{
    let front = entry_front_bytes(entry_ttl, attr_ttl, generation, attr.ino);
    joined(&front, &attr_bytes(attr))
}

/// The front of `struct fuse_attr_out`, before the attributes.
#[tactic(auto, unfolding(crate::specs::Attributes::attr_front))]
#[inline(always)]
fn attr_front_bytes(ttl: &Duration) -> [u8; 16]
    ensures bytes { result ≡ attr_front ttl.now }
    ensures valid { IsSpan ttl.now }
{
    let (attr_valid, attr_valid_nsec) = span_parts(ttl);
    let [a0, a1, a2, a3, a4, a5, a6, a7] = attr_valid.to_le_bytes();
    let [n0, n1, n2, n3] = attr_valid_nsec.to_le_bytes();
    [a0, a1, a2, a3, a4, a5, a6, a7, n0, n1, n2, n3, 0, 0, 0, 0]
}

/// Attributes alone as a reply carries them: `struct fuse_attr_out`.
#[tactic(auto, unfolding(crate::specs::Attributes::attr_payload))]
#[inline(always)]
pub fn attr_out_bytes(ttl: &Duration, attr: &FileAttr) -> [u8; 104]
    ensures bytes { result ≡ attr_payload ttl.now attr.now }
    ensures answer { IsAnswer (Attr ttl.now attr.now) }
{
    joined(&attr_front_bytes(ttl), &attr_bytes(attr))
}

/// One piece, and then another.
#[inline(always)]
fn joined<const N: usize>(front: &[u8], back: &[u8]) -> [u8; N]
    requires { length front.now + length back.now ≡ N }
    ensures { result ≡ front.now ++ back.now }
{
    let mut whole = [0; N];
    let piece = &mut whole[..];
    piece[..front.len()].copy_from_slice(front);
    piece[front.len()..].copy_from_slice(back);
    whole
}
