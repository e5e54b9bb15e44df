// What a session did, in numbers.
ghost use Rattle.std.specs.Prelude.{◌≡◌};
ghost use Rattle.fuse_loop.specs.Progress.{added, nothing_yet};

/// What a session did, in numbers. Each is a count that stays at `u64::MAX` once it is there.
#[derive(Clone, Copy, Debug, PartialEq, Eq, Default)]
pub struct Transcript {
    /// The messages taken, those of the handshake too.
    pub received: u64,
    /// The reply frames that the sink took.
    pub frames: u64,
    /// The notes that the sink took.
    pub notes: u64,
    /// The reply frames and notes that the sink did not take.
    pub lost: u64,
    /// The marks of replies to come and the late frames that could not be kept, for want of memory. It is 0 where no reply
    /// comes later.
    pub unrecorded: u64,
}

impl Transcript {
    /// Nothing was done yet.
    pub fn new() -> Transcript
        ensures { result ≡ nothing_yet }
    {
        Transcript {
            received: 0,
            frames: 0,
            notes: 0,
            lost: 0,
            unrecorded: 0,
        }
    }

    /// What was done, and then more.
    pub fn and(self, more: Transcript) -> Transcript
        ensures { result ≡ added self more }
    {
        Transcript {
            received: self.received.saturating_add(more.received),
            frames: self.frames.saturating_add(more.frames),
            notes: self.notes.saturating_add(more.notes),
            lost: self.lost.saturating_add(more.lost),
            unrecorded: self.unrecorded.saturating_add(more.unrecorded),
        }
    }
}
