// Why a session ended early.
ghost use Rattle.std.specs.Prelude.{◌≡◌};
ghost use Rattle.fuse_session.specs.SessionEnd.{handshake_error};

use crate::InvalidData;
use crate::greeting::HandshakeError;
use fuse_wire::{Errno, Version};

/// Why a session ended early, in the order in which the causes are looked at.
#[derive(Clone, Copy, Debug, PartialEq, Eq)]
pub enum SessionError {
    /// Two of the options conflict: `first` is the least place, counted from 0, whose option conflicts with a later one,
    /// and `second` the least such later place. Nothing was received, nothing was sent, and the filesystem was not
    /// called.
    Conflict {
        /// The place of the first of the two.
        first: usize,
        /// The place of the second.
        second: usize,
    },
    /// `AutoUnmount` is listed, which asks that others than the owner are served, and they are not. Nothing was done, as
    /// for a conflict.
    AutoUnmount,
    /// `clone_fd` is set with more than one thread, and no device is opened here. Nothing was done, as for a conflict.
    CloneFd,
    /// No memory was to be had for the receive buffer, the lines of the run or the mark of its end. Nothing was done,
    /// as for a conflict.
    Memory,
    /// No message was left before an INIT was accepted.
    NotConnected,
    /// The message that was taken last is faulty.
    InvalidData(InvalidData),
    /// The kernel's INIT has this version, which is below 7.6. The error EPROTO was sent.
    Unsupported(Version),
    /// The filesystem's `init` answered this error, which was sent.
    Init(Errno),
    /// No thread was to serve: the configuration's `n_threads` is `Some(0)`. The handshake was accepted, and no
    /// message was taken after it.
    Threads,
    /// The source failed, and counted it. It is not asked again.
    Receive,
}

impl SessionError {
    /// The error of a session whose handshake ended so.
    pub(crate) fn of_handshake(error: HandshakeError) -> SessionError
        ensures { result ≡ handshake_error error }
    {
        match error {
            HandshakeError::InvalidData(invalid) => SessionError::InvalidData(invalid),
            HandshakeError::Unsupported(version) => SessionError::Unsupported(version),
            HandshakeError::Init(errno) => SessionError::Init(errno),
        }
    }
}
