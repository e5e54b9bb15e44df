// The cursor over a body.
ghost use Rattle.std.specs.Prelude.{◌≡◌, ◌==◌, [], drop, length, position};
ghost use Rattle.fuse_args.specs.Arguments.{Fetches, FetchesSlice, at_least, cuse_init_at, exactly, fixed, init_at};
ghost use Rattle.fuse_args.specs.Arguments.{name_at, rows_at, u64_first};

mod devices;
mod files;
mod nodes;

use crate::InitArguments;
use fuse_wire::{u32_at, u32_or_zero_at, u64_at};
use memchr::memchr;
use std::marker::Model;

/// A reader of the bytes of a body. A contract sees the bytes that are left.
#[derive(Debug, Drop)]
pub struct ArgumentIterator<'a> {
    rest: &'a [u8],
}

impl<'a> Model for ArgumentIterator<'a> {
    ghost use Rattle.std.specs.Prelude.{ℕ, List};

    ghost Value = { List ℕ };

    ghost view = { λ a. a.rest.now };
}

impl<'a> ArgumentIterator<'a> {
    /// Reads these bytes.
    pub fn new(bytes: &'a [u8]) -> ArgumentIterator<'a>
        ensures { result ≡ bytes.now }
    {
        ArgumentIterator { rest: bytes }
    }

    /// How many bytes are left.
    pub fn len(&self) -> usize
        ensures { result ≡ length self.now }
    {
        self.rest.len()
    }

    /// Whether no byte is left.
    pub fn is_empty(&self) -> bool
        ensures { result ≡ (length self.now == 0) }
    {
        self.rest.is_empty()
    }

    /// The arguments of INIT, of which an old kernel sends 16 bytes and a newer one 64. What is missing is zero. None
    /// where fewer than 16 are left; nothing is taken then.
    pub fn fetch_init(&mut self) -> Option<InitArguments>
        ensures { Fetches result self.old self.new (init_at self.old) }
    {
        let all = self.rest;
        if all.len() < 16 {
            return None;
        }
        self.rest = after(all, 64);
        Some(InitArguments {
            major: u32_at(all, 0),
            minor: u32_at(all, 4),
            max_readahead: u32_at(all, 8),
            flags: u32_at(all, 12),
            flags2: u32_or_zero_at(all, 16),
        })
    }

    /// A name: the bytes up to the first zero byte, which is passed too. None where no byte is zero; nothing is taken
    /// then.
    #[inline(always)]
    pub fn fetch_str(&mut self) -> Option<&'a [u8]>
        ensures { FetchesSlice result self.old self.new (name_at self.old) }
    {
        let all = self.rest;
        let end = first_zero(all)?;
        self.rest = &all[end + 1..];
        Some(&all[..end])
    }

    /// All bytes that are left. Nothing is left after them.
    pub fn fetch_all(&mut self) -> &'a [u8]
        ensures result { result.now ≡ self.old }
        ensures left { self.new ≡ [] }
    {
        let all = self.rest;
        self.rest = &[];
        all
    }

    /// All bytes that are left, where there are exactly so many: what WRITE and SETXATTR end with. None where there
    /// are fewer or more; nothing is taken then.
    #[inline(always)]
    pub fn fetch_exactly(&mut self, size: u32) -> Option<&'a [u8]>
        ensures { FetchesSlice result self.old self.new (exactly size self.old) }
    {
        if self.len() != size as usize {
            return None;
        }
        Some(self.fetch_all())
    }

    /// The first of the bytes that are left, where there are so many: what IOCTL ends with. Those behind them are
    /// passed too. None where there are fewer; nothing is taken then.
    #[inline(always)]
    pub fn fetch_at_least(&mut self, size: u32) -> Option<&'a [u8]>
        ensures { FetchesSlice result self.old self.new (at_least size self.old) }
    {
        if self.len() < size as usize {
            return None;
        }
        Some(&self.fetch_all()[..size as usize])
    }

    /// So many rows of 16 bytes, as BATCH_FORGET has them. None where fewer are left; nothing is taken then.
    pub fn fetch_slice(&mut self, count: usize) -> Option<&'a [u8]>
        ensures { FetchesSlice result self.old self.new (rows_at count self.old) }
    {
        let all = self.rest;
        if all.len() / 16 < count {
            return None;
        }
        let size = 16 * count;
        self.rest = &all[size..];
        Some(&all[..size])
    }

    /// A number of 8 bytes: the part of FORGET, RENAME, LINK and INTERRUPT. None where fewer bytes are left; nothing
    /// is taken then.
    pub fn fetch_u64(&mut self) -> Option<u64>
        ensures { Fetches result self.old self.new (u64_first self.old) }
    {
        let all = self.fixed(8)?;
        Some(u64_at(all, 0))
    }

    /// The part of CUSE_INIT, of 64 bytes as in `fuser`, where `struct cuse_init_in` has 16. No field of it is read.
    /// None where fewer bytes are left; nothing is taken then.
    pub fn fetch_cuse_init(&mut self) -> Option<()>
        ensures { Fetches result self.old self.new (cuse_init_at self.old) }
    {
        self.fixed(64)?;
        Some(())
    }

    /// All bytes that were left, where a part of this size is there, and moves past that part.
    fn fixed(&mut self, size: usize) -> Option<&'a [u8]>
        ensures { FetchesSlice result self.old self.new (fixed size (λ bytes. bytes) self.old) }
    {
        let all = self.rest;
        if all.len() < size {
            return None;
        }
        self.rest = &all[size..];
        Some(all)
    }
}

/// The place of the first zero byte.
#[inline(always)]
#[tactic(auto, using(crate::proofs::Names::position_is_first))]
fn first_zero(bytes: &[u8]) -> Option<usize>
    ensures { result ≡ position (λ byte. byte == 0) bytes.now }
{
    memchr(0, bytes)
}

/// What comes after so many bytes, or nothing.
fn after(bytes: &[u8], count: usize) -> &[u8]
    ensures { result.now ≡ drop count bytes.now }
{
    if count < bytes.len() {
        &bytes[count..]
    } else {
        &[]
    }
}
