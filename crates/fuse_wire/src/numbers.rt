//! Reading a little-endian number at an offset.
ghost use Rattle.std.specs.Prelude.{◌≡◌, ◌+◌, ◌≤◌, ◌<◌, ◌^◌, length, slice_index};
ghost use Rattle.std.specs.Int.{w32, w64};
ghost use Rattle.fuse_wire.specs.Numbers.{number, signed};

/// The little-endian `u32` in the 4 bytes from an offset on.
#[inline(always)]
#[tactic(auto, unfolding(crate::specs::Numbers::number))]
pub fn u32_at(bytes: &[u8], at: usize) -> u32
    requires { at + 4 ≤ length bytes.now }
    ensures { result ≡ number bytes.now at 4 }
{
    u32::from_le_bytes([bytes[at], bytes[at + 1], bytes[at + 2], bytes[at + 3]])
}

/// The little-endian `u64` in the 8 bytes from an offset on.
#[inline(always)]
#[tactic(auto, unfolding(crate::specs::Numbers::number))]
pub fn u64_at(bytes: &[u8], at: usize) -> u64
    requires { at + 8 ≤ length bytes.now }
    ensures { result ≡ number bytes.now at 8 }
{
    u64::from_le_bytes([
        bytes[at],
        bytes[at + 1],
        bytes[at + 2],
        bytes[at + 3],
        bytes[at + 4],
        bytes[at + 5],
        bytes[at + 6],
        bytes[at + 7],
    ])
}

/// The little-endian `i32` in the 4 bytes from an offset on, in two's complement.
#[inline(always)]
pub fn i32_at(bytes: &[u8], at: usize) -> i32
    requires { at + 4 ≤ length bytes.now }
    ensures { result ≡ signed w32 bytes.now at }
{
    u32_at(bytes, at).cast_signed()
}

/// The little-endian `i64` in the 8 bytes from an offset on, in two's complement.
#[inline(always)]
pub fn i64_at(bytes: &[u8], at: usize) -> i64
    requires { at + 8 ≤ length bytes.now }
    ensures { result ≡ signed w64 bytes.now at }
{
    u64_at(bytes, at).cast_signed()
}

/// The little-endian `u32` in the 4 bytes from an offset on, where a byte that is not there counts as 0.
#[inline(always)]
#[tactic(auto, unfolding(crate::specs::Numbers::number))]
pub fn u32_or_zero_at(bytes: &[u8], at: usize) -> u32
    requires { at + 4 < 2 ^ 64 }
    ensures { result ≡ number bytes.now at 4 }
{
    u32::from_le_bytes([
        byte_or_zero_at(bytes, at),
        byte_or_zero_at(bytes, at + 1),
        byte_or_zero_at(bytes, at + 2),
        byte_or_zero_at(bytes, at + 3),
    ])
}

/// The byte at an offset, or 0 where there is none.
#[inline(always)]
fn byte_or_zero_at(bytes: &[u8], at: usize) -> u8
    ensures { result ≡ slice_index bytes.now at }
{
    bytes.get(at).copied().unwrap_or(0)
}
