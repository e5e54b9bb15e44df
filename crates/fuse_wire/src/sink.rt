//! Where replies go.
ghost use Rattle.std.specs.Prelude.{◌≡◌, ◌+◌, ◌++◌, length};
ghost use Rattle.fuse_wire.specs.Numbers.{number};
ghost use Rattle.fuse_wire.specs.Sink.{SinkState, Sends, Notes};

use crate::RequestId;

/// What became of a frame.
#[derive(Clone, Copy, Debug, PartialEq, Eq)]
pub enum Sending {
    /// It was taken.
    Sent,
    /// It was not taken, since what it speaks of is not there (the kernel's ENOENT). The device counted it, and as
    /// such.
    Absent,
    /// It was not taken. The device failed, and counted it.
    Failed,
}

/// What became of a note.
#[derive(Clone, Copy, Debug, PartialEq, Eq)]
pub enum Noting {
    /// It was taken.
    Sent,
    /// It was not taken. The device failed, and counted it.
    Failed,
}

/// Where reply frames and notes go: what /dev/fuse is to a write.
pub trait Sink {
    /// Its frames and notes, where it tells them, how often it has failed, how often of these since what a frame spoke
    /// of was not there, and what it was made over.
    ghost told: { Self → SinkState };

    /// Sends one frame, whose length field counts the header and the payload. A frame whose status is above 0 is a
    /// notice, and its id is 0. The kernel may hold the write of one until requests are answered, and replies come by
    /// this call too: so what writes to `/dev/fuse` itself hands notices to a thread of their own, and does not wait
    /// for them here.
    fn send(&mut self, header: &[u8; 16], payload: &[u8]) -> Sending
        requires { number header.now 0 4 ≡ 16 + length payload.now }
        ensures { Sends result (header.now ++ payload.now) (told self.old) (told self.new) };

    /// Takes a note in place of a frame: a forget's request, which has no reply, and the mark that its filesystem gave.
    fn note(&mut self, id: RequestId, mark: u64) -> Noting
        ensures { Notes result (id.0, mark) (told self.old) (told self.new) };
}
