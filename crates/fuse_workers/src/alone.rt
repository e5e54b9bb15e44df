// The caller where no sender could be started: it answers each message, and sends.
ghost use Rattle.std.specs.Prelude.{◌≡◌, ◌++◌, List, []};
ghost use Rattle.fuse_line.specs.Hand.{hand};
ghost use Rattle.fuse_line.specs.declared.hand.Kind.TheVariants.{First};
ghost use Rattle.fuse_line.specs.Tells.{IsSettled};
ghost use Rattle.fuse_reply.specs.Parcel.{is_prompt};
ghost use Rattle.fuse_reply.specs.declared.parcel.Parcel.{Parcel as Goes};
ghost use Rattle.fuse_workers.specs.Alone.{ServesAlone, TurnAlone};
ghost use Rattle.fuse_workers.specs.Pairing.{outs_of};
ghost use Rattle.fuse_workers.specs.Relays.{RelayState, Relays, relay_of};
ghost use Rattle.fuse_loop.specs.Answering.{answering};

use crate::relay::Relay;
use crate::run_context::RunContext;
use crate::sender::send_rest;
use crate::stopped::Stopped;
use crate::taking::take_request;
use fuse_line::Pass;
use fuse_loop::{Answerer, Intake, Work, destroy_reply};
use fuse_reply::Parcel;
use fuse_wire::{Sink, Source};
use std::alloc::AllocGlobal;
use std::sync::Wait;

/// Takes the message of this number, answers it, and hands on what goes out for it. None is that the run goes on.
fn answer_next<R: Wait + AllocGlobal, W: Work, S: Source, K: Sink>(
    context: &RunContext<R, W>,
    seq: u64,
    intake: &mut Intake<S>,
    answerer: &mut Answerer,
    relay: &mut Relay<K>,
) -> Option<Stopped>
    ensures turn { TurnAlone (answering (W.owed context.now.work.now) W.DEFERS) seq result intake.old intake.new
        (relay_of relay.old.outlet relay.old.book) (relay_of relay.new.outlet relay.new.book) }
    ensures line { answerer.new.notifier.line ≡ answerer.old.notifier.line }
    ensures doors { answerer.new.doors ≡ answerer.old.doors }
{
    let stopped = match take_request(context.rt, seq, intake) {
        Ok(count) => {
            let message = intake.message(count);
            relay.deliver(answerer.answer(context.rt, context.work, seq, message));
            return None;
        }
        Err(stopped) => stopped,
    };
    if let Stopped::Destroy(_, id) = stopped {
        relay.deliver(destroy_reply(context.rt.alloc(), id));
    }
    Some(stopped)
}

/// Takes the message of this number and answers it, and hands on the notices and late frames that wait.
fn take_turn<R: Wait + AllocGlobal, W: Work, S: Source, K: Sink>(
    context: &RunContext<R, W>,
    seq: u64,
    intake: &mut Intake<S>,
    answerer: &mut Answerer,
    pass: &mut Pass<Parcel>,
    relay: &mut Relay<K>,
) -> Option<Stopped>
    requires line { pass.old.line ≡ context.now.frames.now }
    requires hand { pass.old.hand ≡ hand First 0 [] pass.old.hand.taken }
    ensures line { (pass.new.line ≡ context.now.frames.now) × (answerer.new.notifier.line ≡ answerer.old.notifier.line) }
    ensures doors { answerer.new.doors ≡ answerer.old.doors }
    ensures turn { (more : List Goes) × (pass.new.hand ≡ hand First 0 [] (pass.old.hand.taken ++ more))
        × (handed : RelayState) × Relays more handed (relay_of relay.new.outlet relay.new.book)
        × TurnAlone (answering (W.owed context.now.work.now) W.DEFERS) seq result intake.old intake.new
        (relay_of relay.old.outlet relay.old.book) handed }
    ensures settled { IsSettled is_prompt pass.new.hand }
{
    let stopped = answer_next(context, seq, intake, answerer, relay);
    send_rest(context.rt, context.frames, pass, relay);
    stopped
}

/// Answers messages until no more are to be taken. After each the notices and late frames that wait are handed on.
pub(crate) fn answer_in_turn_alone<R: Wait + AllocGlobal, W: Work, S: Source, K: Sink>(
    context: &RunContext<R, W>,
    intake: &mut Intake<S>,
    answerer: &mut Answerer,
    pass: &mut Pass<Parcel>,
    relay: &mut Relay<K>,
) -> Stopped
    requires line { pass.old.line ≡ context.now.frames.now }
    requires hand { pass.old.hand ≡ hand First 0 [] pass.old.hand.taken }
    requires unprompted { outs_of pass.old.hand.taken ≡ [] }
    ensures line { (pass.new.line ≡ context.now.frames.now) × (answerer.new.notifier.line ≡ answerer.old.notifier.line) }
    ensures doors { answerer.new.doors ≡ answerer.old.doors }
    ensures hand { (more : List Goes) × (pass.new.hand ≡ hand First 0 [] (pass.old.hand.taken ++ more))
        × ServesAlone (answering (W.owed context.now.work.now) W.DEFERS) result more intake.old intake.new
        (relay_of relay.old.outlet relay.old.book) (relay_of relay.new.outlet relay.new.book) }
    ensures settled { IsSettled is_prompt pass.new.hand }
{
    let mut seq: u64 = 0;
    for _ in context.rt.forever() {
        match take_turn(context, seq, intake, answerer, pass, relay) {
            Some(stopped) => return stopped,
            None => seq = seq.saturating_add(1),
        }
    }
    unreachable!()
}
