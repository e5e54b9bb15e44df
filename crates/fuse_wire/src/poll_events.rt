//! What a file is ready for.
ghost use Rattle.std.specs.Prelude.{⊤, Some, decimal};
ghost use Rattle.std.specs.Fmt.{styled_decimal};
ghost use Rattle.fuse_wire.specs.FlagNames.{poll_events_table};

use crate::flags::named_flags;
use bitflags::{Flag, Flags};
use std::fmt;

/// What a file is ready for: `events` of `struct fuse_poll_in` and `revents` of `struct fuse_poll_out`, whose bits
/// are those of `poll(2)`.
#[derive(Clone, Copy, Debug, PartialEq, Eq, Hash)]
pub struct PollEvents(u32);

impl PollEvents {
    /// There is something to read.
    pub const POLLIN: PollEvents = PollEvents(1 << 0);

    /// There is something urgent to read.
    pub const POLLPRI: PollEvents = PollEvents(1 << 1);

    /// A write does not wait.
    pub const POLLOUT: PollEvents = PollEvents(1 << 2);

    /// There was an error.
    pub const POLLERR: PollEvents = PollEvents(1 << 3);

    /// The other side hung up.
    pub const POLLHUP: PollEvents = PollEvents(1 << 4);

    /// The file is not open.
    pub const POLLNVAL: PollEvents = PollEvents(1 << 5);

    /// There is something of the usual priority to read.
    pub const POLLRDNORM: PollEvents = PollEvents(1 << 6);

    /// There is something of a higher priority to read.
    pub const POLLRDBAND: PollEvents = PollEvents(1 << 7);

    /// A write of the usual priority does not wait.
    pub const POLLWRNORM: PollEvents = PollEvents(1 << 8);

    /// A write of a higher priority does not wait.
    pub const POLLWRBAND: PollEvents = PollEvents(1 << 9);
}

impl Flags for PollEvents {
    type Bits = u32;

    ghost exact = { ⊤ };

    ghost table = { poll_events_table };

    ghost set_of = { λ f. f.0 };

    fn flags<'a>() -> &'a [Flag<PollEvents>] {
        named_flags![
            POLLIN, POLLPRI, POLLOUT, POLLERR, POLLHUP, POLLNVAL, POLLRDNORM, POLLRDBAND,
            POLLWRNORM, POLLWRBAND,
        ]
    }

    fn bits(&self) -> u32 {
        self.0
    }

    fn from_bits_retain(bits: u32) -> PollEvents {
        PollEvents(bits)
    }
}

impl fmt::Display for PollEvents {
    ghost output = { λ f. Some (decimal f.0) };

    ghost styled_output = { λ f style. Some (styled_decimal style f.0) };

    fn fmt<W: fmt::Write>(&self, f: &mut fmt::Formatter<W>) -> fmt::Result {
        fmt::Display::fmt(&self.0, f)
    }
}
