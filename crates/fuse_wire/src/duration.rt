//! Spans of time.
ghost use Rattle.std.specs.Prelude.{◌≡◌, ◌+◌, ◌*◌, ◌/◌, ◌%◌, ◌<◌, ◌^◌};
ghost use Rattle.fuse_wire.specs.Times.{nanos_per_second};

use std::marker::Model;

/// A span of time, in whole nanoseconds: up to 2^64 seconds, without the last nanosecond of these. A reply carries it
/// as seconds and nanoseconds, as `attr_valid` and `attr_valid_nsec` of `struct fuse_attr_out`. A contract sees the
/// number of nanoseconds.
#[derive(Clone, Copy, Debug, PartialEq, Eq, PartialOrd, Ord, Hash)]
pub struct Duration {
    secs: u64,
    nanos: u32,
}

impl Model for Duration {
    ghost use Rattle.std.specs.Prelude.{ℕ, ◌<◌, ◌^◌, ◌+◌, ◌*◌, ◌/◌, ◌%◌};
    ghost use Rattle.std.proofs.Common.{arith};
    ghost use Rattle.fuse_wire.specs.Times.{nanos_per_second};

    ghost Value = { ℕ };

    ghost view = { λ d. d.secs * nanos_per_second + d.nanos };

    ghost invariant = { λ d. d.nanos < nanos_per_second };

    ghost inverse = { λ n. record { secs = n / nanos_per_second; nanos = n % nanos_per_second } };
}

impl Duration {
    /// So many seconds, any u64, and so many nanoseconds, which are below 10^9.
    pub fn new(secs: u64, nanos: u32) -> Duration
        requires { nanos < nanos_per_second }
        ensures { result ≡ secs * nanos_per_second + nanos }
    {
        Duration { secs, nanos }
    }

    /// The whole seconds of it.
    pub fn as_secs(&self) -> u64
        ensures { result ≡ self.now / nanos_per_second }
    {
        self.secs
    }

    /// The nanoseconds above the whole seconds, below 10^9.
    pub fn subsec_nanos(&self) -> u32
        ensures nanos { result ≡ self.now % nanos_per_second }
        ensures within { result < nanos_per_second }
    {
        self.nanos
    }

    /// All of it in nanoseconds, below 2^64 * 10^9.
    pub fn as_nanos(&self) -> u128
        ensures nanos { result ≡ self.now }
        ensures within { result < 2 ^ 64 * nanos_per_second }
    {
        self.secs as u128 * 1_000_000_000 + self.nanos as u128
    }
}
