// What a poll is told through.
ghost use Rattle.std.specs.Prelude.{◌≡◌, [], IfErr, IfOk};
ghost use Rattle.fuse_reply.specs.Notice.{notice};
ghost use Rattle.fuse_reply.specs.Notice.Notice.{Poll};
ghost use Rattle.fuse_reply.specs.declared.parcel.Parcel.TheVariants.{Notice as Told};
ghost use Rattle.fuse_reply.specs.Queueing.{FoundFull, with_parcel};

use crate::{Notice, Notifier};
use fuse_line::Full;
use fuse_wire::PollHandle;
use std::marker::Model;
use std::sync::Wait;

/// What a poll is told through when the file has news. The kernel asks to be told by the flag
/// `FUSE_POLL_SCHEDULE_NOTIFY` of the poll: then a filesystem keeps this, answers with what the file is ready for now,
/// and calls `notify` as soon as it is ready for more, also where that comes before the answer. The kernel then polls
/// again. Where the flag is not set, nobody waits, and this is dropped. Contracts see its handle, and its door to the
/// line, by which nothing was pushed yet.
#[derive(Drop)]
pub struct PollNotifier {
    handle: PollHandle,
    notifier: Notifier,
}

impl Model for PollNotifier {
    ghost use Rattle.std.specs.Prelude.{◌≡◌, []};
    ghost use Rattle.fuse_notify.specs.Queueing.{PollSeen};

    ghost Value = { PollSeen };

    ghost view = { λ p. record { handle = p.handle.0; door = p.notifier } };

    ghost invariant = { λ p. p.notifier.hand.put ≡ [] };
}

/// That a poll was told: its one notice was queued. Contracts see the door that it went through.
#[derive(Drop)]
pub struct Notified {
    notifier: Notifier,
}

impl Model for Notified {
    ghost use Rattle.fuse_line.specs.Seen.{Seen};
    ghost use Rattle.fuse_reply.specs.declared.parcel.Parcel.{Parcel};

    ghost Value = { Seen Parcel };

    ghost view = { λ t. t.notifier };
}

impl PollNotifier {
    /// For the poll with this handle.
    pub(crate) fn new(handle: PollHandle, notifier: Notifier) -> PollNotifier
        requires { notifier.hand.put ≡ [] }
        ensures { result ≡ record { handle = handle.0; door = notifier } }
    {
        PollNotifier { handle, notifier }
    }

    /// The handle that the poll came with.
    pub fn handle(&self) -> PollHandle
        ensures { result.0 ≡ self.now.handle }
    {
        self.handle
    }

    /// The file has news: queues the one notice of this poll, and waits for nobody. Where its own push found the line
    /// full the notifier comes back as it was, and can be tried again.
    pub fn notify<R: Wait + AllocGlobal>(self, rt: &R) -> Result<Notified, Full<PollNotifier>>
        ensures told { IfOk result (λ told. told ≡ with_parcel self.door (Told (notice (Poll self.handle)))) }
        ensures back { IfErr result (λ full. full.item ≡ self) }
        ensures full { IfErr result (λ full. FoundFull self.door) }
    {
        let PollNotifier {
            handle,
            mut notifier,
        } = self;
        let notice = Notice::poll(rt.alloc(), handle);
        match notifier.push(rt, notice) {
            Ok(()) => Ok(Notified { notifier }),
            Err(full) => Err(Full {
                item: PollNotifier { handle, notifier },
                line: full,
            }),
        }
    }
}
