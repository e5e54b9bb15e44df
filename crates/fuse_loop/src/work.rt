// What answers messages.
ghost use Rattle.std.specs.Prelude.{◌≡◌, ℕ, List, Bool};
ghost use Rattle.fuse_reply.specs.declared.out.Out.{Out as Goes};
ghost use Rattle.fuse_reply.specs.Answer.Answer.{Empty};
ghost use Rattle.fuse_reply.specs.Frame.{reply};
ghost use Rattle.fuse_reply.specs.declared.out.Out.TheVariants.{Frame};
ghost use Rattle.fuse_loop.specs.Answering.{DoorFits, IsRequest, MayComeLater};
ghost use Rattle.fuse_loop.specs.Incoming.{id_of, incoming};
ghost use Rattle.fuse_loop.specs.Incoming.Incoming.{Destroy};

use fuse_notify::Notifier;
use fuse_reply::{Door, NoDoor, Out};
use std::alloc::AllocGlobal;
use std::sync::Wait;

/// What answers messages. Whoever runs it knows neither a filesystem nor an access rule.
pub trait Work: Sync {
    /// What a message is owed, by its number.
    ghost owed: { Self → ℕ → List ℕ → Goes → Type 0 };

    /// Whether a reply may come after `answer` has returned.
    const DEFERS: bool;

    /// That constant, as a contract names it.
    ghost DEFERS: { Bool };

    /// Answers the message of this number, which has a good header and is no DESTROY. A poll is told of news through
    /// what the notifier makes, which stays one to the same line. The reply may come later only through the door, which
    /// is one to that line too: where there is none, the error says why, and it is `Shut` exactly where no reply of this
    /// work comes later.
    fn answer<R: Wait + AllocGlobal>(
        &self,
        rt: &R,
        notifier: &mut Notifier,
        door: Result<Door, NoDoor>,
        seq: u64,
        message: &[u8],
    ) -> Out
        requires message { IsRequest message.now }
        requires door { DoorFits DEFERS notifier.old.line seq door }
        ensures owed { owed self.now seq message.now result }
        ensures later { MayComeLater door seq message.now result }
        ensures line { notifier.new.line ≡ notifier.old.line };

    /// DESTROY is owed an empty reply, which the run gives itself.
    ghost owed_to_destroy: { (work : Self) (seq : ℕ) (m : List ℕ) → incoming m ≡ Destroy
        → owed work seq m (Frame (reply (id_of m) Empty)) };

    /// It is owed nothing else.
    ghost alone_to_destroy: { (work : Self) (seq : ℕ) (m : List ℕ) (out : Goes) → incoming m ≡ Destroy
        → owed work seq m out → out ≡ Frame (reply (id_of m) Empty) };
}
