// A reply of what a file is ready for.
ghost use Rattle.std.specs.Prelude.{◌≡◌};
ghost use Rattle.fuse_reply.specs.Frame.{reply};
ghost use Rattle.fuse_reply.specs.Answer.{IsAnswer};
ghost use Rattle.fuse_reply.specs.Answer.Answer.{Poll};
ghost use Rattle.fuse_reply.specs.declared.out.Out.{Out};

use crate::payloads::word_bytes;
use crate::{Packed, Replied, Reply};
use bitflags::Flags;
use fuse_wire::PollEvents;

/// The kind of a reply that carries what a file is ready for.
pub struct Events;

/// The reply to a request that asks what a file is ready for.
pub type ReplyPoll = Reply<Events>;

impl Reply<Events> {
    /// It is ready for these, now: `struct fuse_poll_out`. Bits without a name are sent as they are.
    #[tactic(auto, using(crate::proofs::AreReplies::poll_is_reply))]
    pub fn poll(self, revents: PollEvents) -> Replied
        ensures reply { result ≡ Out.Frame (reply self.id (Poll revents.0)) }
        ensures answer { IsAnswer (Poll revents.0) }
    {
        let (alloc, id) = self.into_parts();
        Replied::by(Packed::short(alloc, id, &word_bytes(revents.bits())))
    }
}
