// The last steps of a run: its end is marked once no worker is left, and then what is left of the frames is sent.
ghost use Rattle.std.specs.Prelude.{◌≡◌, ◌++◌, List, None, IsSome};
ghost use Rattle.fuse_line.specs.Hand.{hand};
ghost use Rattle.fuse_line.specs.Tells.{IsSettled};
ghost use Rattle.fuse_line.specs.declared.hand.Kind.TheVariants.{First};
ghost use Rattle.fuse_reply.specs.Parcel.{is_prompt};
ghost use Rattle.fuse_reply.specs.declared.parcel.Parcel.{Parcel as Goes};
ghost use Rattle.fuse_loop.specs.Lines.{ended_by};
ghost use Rattle.fuse_workers.specs.Relays.{Relays, relay_of};

use crate::caller::Caller;
use crate::relay::Relay;
use crate::sender::send_rest;
use fuse_line::{Line, Pass};
use fuse_loop::Ending;
use fuse_reply::Parcel;
use fuse_wire::Sink;
use std::sync::Wait;

/// What says that a run was closed: its end was marked, and then what was left of its frames was sent. `send_last` alone
/// makes it.
#[derive(Drop)]
pub(crate) struct ClosedRun(());

/// Marks the run's end, with the number of messages that were taken. No worker is left.
pub(crate) fn mark_end(caller: &Caller, ending: &mut Ending, received: u64)
    requires joined { caller.now.jobs.hand.others ≡ 0 }
    requires unmarked { ending.old.set ≡ None }
    ensures { ending.new ≡ ended_by ending.old received }
{
    let _ = caller;
    ending.set(received);
}

/// Hands on what is left in the line of frames. The run's end is marked, so that no late frame comes after this, and no
/// sender is left.
pub(crate) fn send_last<R: Wait, K: Sink>(
    rt: &R,
    frames: &Line<Parcel>,
    pass: &mut Pass<Parcel>,
    relay: &mut Relay<K>,
    ending: &Ending,
) -> ClosedRun
    requires line { pass.old.line ≡ frames.now }
    requires first { (pass.old.hand.kind ≡ First) × (pass.old.hand.others ≡ 0) }
    requires marked { IsSome ending.now.set }
    ensures line { pass.new.line ≡ frames.now }
    ensures more { (more : List Goes) × (pass.new.hand ≡ hand First pass.old.hand.others pass.old.hand.put
        (pass.old.hand.taken ++ more)) × Relays more (relay_of relay.old.outlet relay.old.book)
        (relay_of relay.new.outlet relay.new.book) }
    ensures settled { IsSettled is_prompt pass.new.hand }
{
    let _ = ending;
    send_rest(rt, frames, pass, relay);
    ClosedRun(())
}
