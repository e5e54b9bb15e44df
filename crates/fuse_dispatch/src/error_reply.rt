// The reply of an error.
ghost use Rattle.std.specs.Prelude.{◌≡◌};
ghost use Rattle.fuse_reply.specs.Answer.Answer.{Error};
ghost use Rattle.fuse_reply.specs.Frame.{reply};

use fuse_reply::{Out, ReplyEmpty};
use fuse_wire::{Errno, RequestId};
use std::alloc::Global;

/// The error that answers the request of this id: its header alone, which takes no memory.
#[inline(always)]
pub fn refusal(alloc: Global, id: RequestId, error: Errno) -> Out
    ensures { result ≡ Out.Frame (reply id.0 (Error error)) }
{
    ReplyEmpty::new(alloc, id).error(error).into_out()
}
