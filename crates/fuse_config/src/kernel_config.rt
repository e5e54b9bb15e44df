// What INIT negotiates.
ghost use Rattle.std.specs.Prelude.{◌≡◌, ◌≤◌, ◌<◌, length, take};
ghost use Rattle.std.specs.Int.RustNames.{bit_and};
ghost use Rattle.fuse_config.specs.Configuration.{start, known_without_ext, threshold_of, max_pages_of, granted_of};
ghost use Rattle.fuse_config.specs.Setters.{add_capabilities, known_not_offered, power_of_ten_below};
ghost use Rattle.fuse_config.specs.Setters.{set_congestion_threshold, set_max_background, set_max_readahead};
ghost use Rattle.fuse_config.specs.Setters.{set_max_stack_depth, set_max_write, set_time_granularity};
ghost use Rattle.fuse_config.specs.Configuration.{init_layout, init_payload, init_payload_length, version_payload};
ghost use Rattle.fuse_wire.specs.Times.{nanos_per_second};

use bitflags::Flags;
use fuse_wire::consts::{FUSE_KERNEL_MINOR_VERSION, FUSE_KERNEL_VERSION, MAX_WRITE_SIZE};
use fuse_wire::{Duration, InitFlags, Version};
use std::marker::Model;
use std::mem;

/// The bits of all capabilities that are named, but for `FUSE_INIT_EXT`.
const KNOWN_WITHOUT_EXT: u64 = 0x7ff_bfff_ffff;

/// How many requests the kernel may have waiting in the background, if nothing else is set.
const DEFAULT_MAX_BACKGROUND: u16 = 16;

/// The most bytes that a WRITE may carry, and what it may carry if nothing else is set.
const LARGEST_WRITE: u32 = MAX_WRITE_SIZE as u32;

/// How deep filesystems may be stacked, by the kernel's `fs.h`.
const FILESYSTEM_MAX_STACK_DEPTH: u32 = 2;

/// A second, in nanoseconds.
const NANOS_OF_A_SECOND: u128 = 1_000_000_000;

/// The first minor version whose INIT reply has all its fields.
const LONG_REPLY_MINOR: u32 = 23;

/// How many bytes the payload of an INIT reply has: those of `struct fuse_init_out`.
const INIT_OUT_SIZE: usize = 64;

/// How many of them an earlier minor version takes: `FUSE_COMPAT_22_INIT_OUT_SIZE`.
const COMPAT_22_INIT_OUT_SIZE: usize = 24;

/// What the kernel offers, and what the filesystem wants of it. A contract sees the record of its values.
#[derive(Debug, Drop)]
pub struct KernelConfig {
    offered: InitFlags,
    kernel_abi: Version,
    kernel_readahead: u32,
    requested: InitFlags,
    max_readahead: u32,
    max_background: u16,
    congestion_threshold: Option<u16>,
    max_write: u32,
    time_granularity: Duration,
    max_stack_depth: u32,
}

impl Model for KernelConfig {
    ghost use Rattle.std.specs.Prelude.{◌≤◌};
    ghost use Rattle.fuse_config.specs.Values.{Configuration};
    ghost use Rattle.fuse_wire.specs.Times.{nanos_per_second};

    ghost Value = { Configuration };

    ghost view = { λ c. record {
      offered = c.offered.0;
      kernel_abi = c.kernel_abi;
      kernel_readahead = c.kernel_readahead;
      requested = c.requested.0;
      max_readahead = c.max_readahead;
      max_background = c.max_background;
      congestion_threshold = c.congestion_threshold;
      max_write = c.max_write;
      time_granularity = c.time_granularity;
      max_stack_depth = c.max_stack_depth;
    } };

    ghost invariant = { λ c. c.time_granularity ≤ nanos_per_second };
}

impl KernelConfig {
    /// What is negotiated with a kernel that offers these capabilities and this readahead, and speaks this version,
    /// before the filesystem has its say.
    pub fn new(capabilities: InitFlags, max_readahead: u32, version: Version) -> KernelConfig
        ensures { result ≡ start capabilities.0 max_readahead version }
    {
        let always = InitFlags::FUSE_ASYNC_READ.union(InitFlags::FUSE_BIG_WRITES);
        let pages = capabilities.intersection(InitFlags::FUSE_MAX_PAGES);
        KernelConfig {
            offered: capabilities,
            kernel_abi: version,
            kernel_readahead: max_readahead,
            requested: always.union(pages),
            max_readahead,
            max_background: DEFAULT_MAX_BACKGROUND,
            congestion_threshold: None,
            max_write: LARGEST_WRITE,
            time_granularity: Duration::new(0, 1),
            max_stack_depth: 0,
        }
    }

    /// The capabilities that the kernel offers and this library knows, but for the one that says that there are more.
    pub fn capabilities(&self) -> InitFlags
        ensures { result.0 ≡ bit_and self.now.offered known_without_ext }
    {
        InitFlags::from_bits_retain(self.offered.bits() & KNOWN_WITHOUT_EXT)
    }

    /// The kernel's version.
    pub fn kernel_abi(&self) -> Version
        ensures { result ≡ self.now.kernel_abi }
    {
        self.kernel_abi
    }

    /// Sets how deep this filesystem counts in a stack of filesystems: `max_stack_depth` of `struct fuse_init_out`, at
    /// most 2 as the kernel's `fs.h` has it. It is sent where `FUSE_PASSTHROUGH` is granted, and else 0. Files that
    /// reads and writes are passed through to lie on filesystems that count less: with 0 there are none, with 1 they
    /// lie on one that is not stacked itself, and with 2 nothing may be stacked on this one. The answer is the value
    /// before; more than 2 is refused with 2.
    pub fn set_max_stack_depth(&mut self, depth: u32) -> Result<u32, u32>
        ensures { (self.new, result) ≡ set_max_stack_depth depth self.old }
    {
        if depth > FILESYSTEM_MAX_STACK_DEPTH {
            return Err(FILESYSTEM_MAX_STACK_DEPTH);
        }
        Ok(mem::replace(&mut self.max_stack_depth, depth))
    }

    /// Sets the granularity of times: a power of ten in nanoseconds, at most a second. The answer is the value before.
    /// A span of 0 is refused with a nanosecond, one above a second with a second, and any other that is no power of
    /// ten with the power below it.
    pub fn set_time_granularity(&mut self, granularity: Duration) -> Result<Duration, Duration>
        ensures { (self.new, result) ≡ set_time_granularity granularity self.old }
    {
        let nanos = granularity.as_nanos();
        if nanos == 0 {
            return Err(Duration::new(0, 1));
        }
        if nanos > NANOS_OF_A_SECOND {
            return Err(Duration::new(1, 0));
        }
        let power = power_of_ten_below(nanos as u32);
        if nanos != u128::from(power) {
            return Err(Duration::new(0, power));
        }
        Ok(mem::replace(&mut self.time_granularity, granularity))
    }

    /// Sets how many bytes a WRITE may carry: 1 to 16777216, and 16777216 where it is not set. The kernel takes less
    /// than 4096 as 4096, and sends no more pages at once than it allows itself: 256 if nothing else is set there, and
    /// 32 where `FUSE_MAX_PAGES` is not granted. The answer is the value before; 0 is refused with 1, and more with
    /// 16777216.
    pub fn set_max_write(&mut self, bytes: u32) -> Result<u32, u32>
        ensures { (self.new, result) ≡ set_max_write bytes self.old }
    {
        if bytes == 0 {
            return Err(1);
        }
        if bytes > LARGEST_WRITE {
            return Err(LARGEST_WRITE);
        }
        Ok(mem::replace(&mut self.max_write, bytes))
    }

    /// Sets how many bytes the kernel may read ahead: 1 to its own readahead. The answer is the value before; 0 is
    /// refused with 1, even where the kernel's own is 0, and more with the kernel's own.
    pub fn set_max_readahead(&mut self, bytes: u32) -> Result<u32, u32>
        ensures { (self.new, result) ≡ set_max_readahead bytes self.old }
    {
        if bytes == 0 {
            return Err(1);
        }
        if bytes > self.kernel_readahead {
            return Err(self.kernel_readahead);
        }
        Ok(mem::replace(&mut self.max_readahead, bytes))
    }

    /// Requests capabilities that the kernel offers, beside those requested before. Where some are not offered nothing
    /// is requested, and the error has those of them that this library knows, which may be none.
    ///
    /// With `FUSE_SETXATTR_EXT` each SETXATTR is longer, and `setxattr` gets the flags that it then has. Others change
    /// messages in ways that are not decoded here: with `FUSE_HANDLE_KILLPRIV_V2` a write alone says that the bits of
    /// set-user-id are to be cleared, and not SETATTR, OPEN or CREATE. `FUSE_ALLOW_IDMAP`, `FUSE_OVER_IO_URING` and
    /// `FUSE_REQUEST_TIMEOUT` are of versions after 7.40.
    pub fn add_capabilities(&mut self, capabilities: InitFlags) -> Result<(), InitFlags>
        ensures { (self.new, result) ≡ add_capabilities capabilities self.old }
    {
        if !self.offered.contains(capabilities) {
            return Err(capabilities.intersection(known_beside(self.offered)));
        }
        self.requested.insert(capabilities);
        Ok(())
    }

    /// Sets how many requests the kernel may have waiting in the background. The answer is the value before; 0 is
    /// refused with 1.
    pub fn set_max_background(&mut self, requests: u16) -> Result<u16, u16>
        ensures { (self.new, result) ≡ set_max_background requests self.old }
    {
        if requests == 0 {
            return Err(1);
        }
        Ok(mem::replace(&mut self.max_background, requests))
    }

    /// Sets how many requests may wait in the background before the kernel calls the filesystem congested. What is
    /// above `max_background` counts as that. The answer is the threshold before, set or not; 0 is refused with 1.
    pub fn set_congestion_threshold(&mut self, requests: u16) -> Result<u16, u16>
        ensures { (self.new, result) ≡ set_congestion_threshold requests self.old }
    {
        if requests == 0 {
            return Err(1);
        }
        let previous = self.threshold();
        self.congestion_threshold = Some(requests);
        Ok(previous)
    }

    /// How many requests may wait before the kernel calls the filesystem congested.
    fn threshold(&self) -> u16
        ensures { result ≡ threshold_of self.now }
    {
        match self.congestion_threshold {
            Some(threshold) => threshold.min(self.max_background),
            None => (self.max_background as u32 * 3 / 4) as u16,
        }
    }

    /// How many pages one request may carry.
    fn max_pages(&self, page: u32) -> u16
        requires { 0 < page }
        ensures { result ≡ max_pages_of self.now page }
    {
        let bytes = self.max_write.max(self.max_readahead);
        let pages = bytes.saturating_sub(1) / page;
        if pages >= 65535 {
            65535
        } else {
            pages as u16 + 1
        }
    }

    /// The payload of the INIT reply to a kernel that offered these capabilities and speaks this minor version, which
    /// is at least 6, where a page has so many bytes, not 0. The number is how many bytes of it are sent.
    /// (`struct fuse_init_out` of `fuse.h`.)
    #[tactic(auto, unfolding(crate::specs::Configuration::init_payload))]
    pub fn init_reply(
        &self,
        capabilities: InitFlags,
        minor: u32,
        page: u32,
    ) -> ([u8; INIT_OUT_SIZE], usize)
        requires minor { 6 ≤ minor }
        requires page { 0 < page }
        ensures payload { take result.1 result.0 ≡ init_payload self.now capabilities.0 minor page }
        ensures length { result.1 ≡ init_payload_length minor }
    {
        let granted = self.granted(capabilities);
        let (flags, flags2) = granted.pair();
        let depth = if granted.contains(InitFlags::FUSE_PASSTHROUGH) {
            self.max_stack_depth
        } else {
            0
        };
        let payload = init_bytes(&InitReply {
            max_readahead: self.max_readahead,
            flags,
            max_background: self.max_background,
            congestion_threshold: self.threshold(),
            max_write: self.max_write,
            time_gran: self.time_granularity.as_nanos() as u32,
            max_pages: self.max_pages(page),
            flags2,
            max_stack_depth: depth,
        });
        let length = if minor < LONG_REPLY_MINOR {
            COMPAT_22_INIT_OUT_SIZE
        } else {
            INIT_OUT_SIZE
        };
        (payload, length)
    }

    /// What the INIT reply grants a kernel that offered these capabilities: of them what was requested, and
    /// `FUSE_INIT_EXT`.
    pub fn granted(&self, offered: InitFlags) -> InitFlags
        ensures { result.0 ≡ granted_of self.now offered.0 }
    {
        self.requested
            .union(InitFlags::FUSE_INIT_EXT)
            .intersection(offered)
    }
}

/// The known capabilities that are not among these.
fn known_beside(offered: InitFlags) -> InitFlags
    ensures { result.0 ≡ known_not_offered offered.0 }
{
    offered.complement()
}

/// The greatest power of ten that is at most this number, which is at most 10^9.
fn power_of_ten_below(number: u32) -> u32
    requires least { 0 < number }
    requires most { number ≤ nanos_per_second }
    ensures value { result ≡ power_of_ten_below number }
    ensures below { result ≤ number }
{
    let mut power = 1_000_000_000;
    while power > number {
        power /= 10;
    }
    power
}

/// The fields of the INIT reply after the version.
#[derive(Drop)]
struct InitReply {
    max_readahead: u32,
    flags: u32,
    max_background: u16,
    congestion_threshold: u16,
    max_write: u32,
    time_gran: u32,
    max_pages: u16,
    flags2: u32,
    max_stack_depth: u32,
}

/// The whole payload of the INIT reply.
fn init_bytes(reply: &InitReply) -> [u8; INIT_OUT_SIZE]
    ensures { result ≡ init_layout (reply.now.max_readahead) reply.now.flags reply.now.max_background
        reply.now.congestion_threshold reply.now.max_write reply.now.time_gran reply.now.max_pages reply.now.flags2
        reply.now.max_stack_depth }
{
    let [r0, r1, r2, r3] = reply.max_readahead.to_le_bytes();
    let [f0, f1, f2, f3] = reply.flags.to_le_bytes();
    let [b0, b1] = reply.max_background.to_le_bytes();
    let [t0, t1] = reply.congestion_threshold.to_le_bytes();
    let [w0, w1, w2, w3] = reply.max_write.to_le_bytes();
    let [g0, g1, g2, g3] = reply.time_gran.to_le_bytes();
    let [p0, p1] = reply.max_pages.to_le_bytes();
    let [h0, h1, h2, h3] = reply.flags2.to_le_bytes();
    let [d0, d1, d2, d3] = reply.max_stack_depth.to_le_bytes();
    let major = FUSE_KERNEL_VERSION as u8;
    let minor = FUSE_KERNEL_MINOR_VERSION as u8;
    [
        major, 0, 0, 0, minor, 0, 0, 0, r0, r1, r2, r3, f0, f1, f2, f3, b0, b1, t0, t1, w0, w1, w2,
        w3, g0, g1, g2, g3, p0, p1, 0, 0, h0, h1, h2, h3, d0, d1, d2, d3, 0, 0, 0, 0, 0, 0, 0, 0,
        0, 0, 0, 0, 0, 0, 0, 0, 0, 0, 0, 0, 0, 0, 0, 0,
    ]
}

/// The payload of the reply to a kernel that speaks a later major version: the version spoken here, and zeros.
pub fn version_reply() -> [u8; INIT_OUT_SIZE]
    ensures { result ≡ version_payload }
{
    let mut payload = [0; INIT_OUT_SIZE];
    payload[0] = FUSE_KERNEL_VERSION as u8;
    payload[4] = FUSE_KERNEL_MINOR_VERSION as u8;
    payload
}
