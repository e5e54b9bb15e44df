// What comes next of a source: a request, or why no more messages are taken.
ghost use Rattle.std.specs.Prelude.{◌∷◌, ◌≤◌, [], IfOk, MatchResult, take};
ghost use Rattle.fuse_loop.specs.Answering.{IsRequest};
ghost use Rattle.fuse_workers.specs.Hearing.{HearsLast, HearsOn};
ghost use Rattle.fuse_wire.specs.declared.consts.TheConstants.{BUFFER_SIZE};

use crate::stopped::Stopped;
use fuse_loop::{Incoming, Intake, Taken};
use fuse_wire::Source;
use std::sync::Wait;

/// Takes the message of this number, and gives its length where it is a request. Else no more are taken.
#[inline(always)]
pub(crate) fn take_request<R: Wait, S: Source>(
    rt: &R,
    seq: u64,
    intake: &mut Intake<S>,
) -> Result<usize, Stopped>
    ensures bound { IfOk result (λ count. count ≤ BUFFER_SIZE) }
    ensures heard { MatchResult result
        (λ count. IsRequest (take count intake.new.buffer)
        × HearsOn (take count intake.new.buffer ∷ []) intake.old intake.new)
        (λ stopped. HearsLast stopped seq [] intake.old intake.new) }
{
    let count = match intake.take_message(rt) {
        Taken::Message(count) => count,
        Taken::Gone => return Err(Stopped::Gone),
        Taken::Failed => return Err(Stopped::Failed),
    };
    match Incoming::of(intake.message(count)) {
        Incoming::Broken(error) => Err(Stopped::Broken(error)),
        Incoming::Destroy(id) => Err(Stopped::Destroy(seq, id)),
        Incoming::Request => Ok(count),
    }
}
