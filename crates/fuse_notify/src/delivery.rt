// A notice that is sent at once.
ghost use Rattle.std.specs.Prelude.{◌≡◌};
ghost use Rattle.fuse_notify.specs.Delivering.{DeliversNotice, outcome_of};

use crate::Notice;
use crate::notice::FUSE_NOTIFY_POLL;
use fuse_wire::{Sending, Sink};

/// Why a notice did not reach the kernel.
#[derive(Clone, Copy, Debug, PartialEq, Eq)]
pub enum Undelivered {
    /// The sink knows of nobody who waits for that poll. Linux itself takes the notice of one all the same.
    Absent,
    /// The device failed.
    Failed,
}

/// Sends a notice at once. Where the kernel keeps nothing of what the notice speaks of (its ENOENT), that is well,
/// since nothing is to be dropped; only for a poll it is an error, `Absent`. `Failed` where the device failed.
pub fn deliver<K: Sink>(notice: &Notice, sink: &mut K) -> Result<(), Undelivered>
    ensures { DeliversNotice result notice.now (K.told sink.old) (K.told sink.new) }
{
    let answer = notice.frame.send(sink);
    outcome(answer, notice.frame.code() == FUSE_NOTIFY_POLL)
}

/// What a sink's answer to a notice comes to.
fn outcome(answer: Sending, of_poll: bool) -> Result<(), Undelivered>
    ensures { result ≡ outcome_of answer of_poll }
{
    match answer {
        Sending::Sent => Ok(()),
        Sending::Absent if of_poll => Err(Undelivered::Absent),
        Sending::Absent => Ok(()),
        Sending::Failed => Err(Undelivered::Failed),
    }
}
