// The event loop: messages are taken and answered one after another.
ghost use Rattle.std.specs.Prelude.{◌≡◌, false, [], IfNone};
ghost use Rattle.fuse_reply.specs.Answer.Answer.{Empty};
ghost use Rattle.fuse_reply.specs.Frame.{reply};
ghost use Rattle.fuse_loop.specs.EventLoop.{OneTurn, Run};
ghost use Rattle.fuse_loop.specs.Lines.{IsOn, IsUnused, notices_in, unasked_of};
ghost use Rattle.fuse_core.specs.OnePerMessage.{InOrder};
ghost use Rattle.fuse_loop.specs.Progress.{NoticesAlone, PassesOnAll, Progress, Quiet, beside, nothing_yet, progress};

use crate::run_line::RunLine;
use crate::{Buffers, Channel, End, Incoming, Lines, RunEnd, Taken, Work};
use fuse_line::LineEmpty;
use fuse_notify::Notifier;
use fuse_reply::{NoDoor, Out, Parcel, ReplyEmpty};
use fuse_wire::{RequestId, Sink, Source};
use std::alloc::Global;
use std::sync::Wait;

/// What a turn of the loop came to.
struct Turn {
    /// Why the run ends. None is that it goes on.
    ended: Option<End>,
    /// What shows that the line of frames was found empty after the message was answered.
    drained: LineEmpty<Parcel>,
}

/// The reply to DESTROY, which is given by the run itself.
#[inline(always)]
pub fn destroy_reply(alloc: Global, id: RequestId) -> Out
    ensures { result ≡ Out.Frame (reply id.0 Empty) }
{
    ReplyEmpty::new(alloc, id).ok().into_out()
}

/// Takes the message of this number and answers it. None is that the run goes on. Each message but the first is taken
/// only where the line of frames was found empty after the one before.
#[inline(always)]
fn take_turn<R: Wait + AllocGlobal, W: Work, S: Source, K: Sink>(
    rt: &R,
    work: &W,
    notifier: &mut Notifier,
    seq: u64,
    _drained: Option<LineEmpty<Parcel>>,
    channel: &mut Channel<S, K>,
) -> Option<End>
    requires prompt { W.DEFERS ≡ false }
    requires drained { IfNone _drained (seq ≡ 0) }
    ensures turn { OneTurn (W.owed work.now) seq result channel.old.progress channel.new.progress }
    ensures unasked { channel.new.progress.unasked ≡ channel.old.progress.unasked }
    ensures line { notifier.new.line ≡ notifier.old.line }
{
    let count = match channel.take_message(rt) {
        Taken::Message(count) => count,
        Taken::Gone => return Some(End::Gone),
        Taken::Failed => return Some(End::Failed),
    };
    let message = channel.message(count);
    match Incoming::of(message) {
        Incoming::Broken(error) => Some(End::Broken(error)),
        Incoming::Destroy(id) => {
            channel.deliver(destroy_reply(rt.alloc(), id));
            Some(End::Destroyed)
        }
        Incoming::Request => {
            let out = work.answer(rt, notifier, Err(NoDoor::Shut), seq, message);
            channel.deliver(out);
            None
        }
    }
}

/// A turn of the loop: takes the message of this number and answers it, and then sends the notices that wait, until the
/// line of frames is found empty.
#[inline(always)]
fn next_turn<R: Wait + AllocGlobal, W: Work, S: Source, K: Sink>(
    rt: &R,
    work: &W,
    notifier: &mut Notifier,
    seq: u64,
    drained: Option<LineEmpty<Parcel>>,
    channel: &mut Channel<S, K>,
    frames: &mut RunLine<Parcel>,
) -> Turn
    requires prompt { W.DEFERS ≡ false }
    requires drained { IfNone drained (seq ≡ 0) }
    ensures turn { (between : Progress) × (between.unasked ≡ notices_in frames.old.hand.taken)
        × OneTurn (W.owed work.now) seq result.ended
        (beside channel.old.progress (notices_in frames.old.hand.taken)) between
        × NoticesAlone between (beside channel.new.progress (notices_in frames.new.hand.taken)) }
    ensures lines { (frames.new.line ≡ frames.old.line) × (notifier.new.line ≡ notifier.old.line) }
    ensures drained { result.drained ≡ frames.old.line }
{
    let ended = take_turn(rt, work, notifier, seq, drained, channel);
    let drained = channel.pass_on_notices(rt, frames);
    Turn { ended, drained }
}

/// Answers messages until the source has none left, or one ends the run.
#[inline(always)]
fn answer_in_turn<R: Wait + AllocGlobal, W: Work, S: Source, K: Sink>(
    rt: &R,
    work: &W,
    notifier: &mut Notifier,
    channel: &mut Channel<S, K>,
    frames: &mut RunLine<Parcel>,
) -> End
    requires { W.DEFERS ≡ false }
    ensures run { Run (InOrder (W.owed work.now) 0) result
        (beside channel.old.progress (notices_in frames.old.hand.taken))
        (beside channel.new.progress (notices_in frames.new.hand.taken)) }
    ensures lines { (frames.new.line ≡ frames.old.line) × (notifier.new.line ≡ notifier.old.line) }
{
    let mut seq: u64 = 0;
    let mut found = None;
    for _ in rt.forever() {
        let Turn { ended, drained } = next_turn(rt, work, notifier, seq, found, channel, frames);
        match ended {
            Some(end) => return end,
            None => seq = seq.saturating_add(1),
        }
        found = Some(drained);
    }
    unreachable!()
}

/// Answers messages on this thread, each before the next is taken, until the source has none left or one ends the run.
/// After each answer the notices that wait are sent.
pub fn run_inline<R: Wait + AllocGlobal, W: Work, S: Source, K: Sink>(
    rt: &R,
    work: &W,
    source: S,
    sink: K,
    buffers: Buffers,
) -> RunEnd<S, K>
    // No reply comes after `answer` has returned.
    requires prompt { W.DEFERS ≡ false }
    // Buffers serve one run.
    requires unused { IsUnused buffers }

    // What was taken, sent, lost and counted, in order, and why it ended so.
    ensures run { Run (InOrder (W.owed work.now) 0) result.end
        (progress (S.told source) (K.told sink) nothing_yet [])
        (progress (S.told result.source) (K.told result.sink) result.transcript (unasked_of result.buffers)) }

    // All could be recorded, since no reply comes later.
    ensures recorded { result.transcript.unrecorded ≡ 0 }

    // Where the sink refused nothing, the notices that were sent are those that were taken off the line, in order.
    ensures notices { Quiet (K.told sink) (K.told result.sink) → PassesOnAll
        (progress (S.told source) (K.told sink) nothing_yet [])
        (progress (S.told result.source) (K.told result.sink) result.transcript (unasked_of result.buffers)) }

    // The lines are those of the buffers, and what makes notifiers has a door to the line of frames.
    ensures lines { IsOn buffers.jobs.line buffers.frames.line result.buffers }
{
    let (mut channel, lines) = Channel::open(source, sink, buffers);
    let Lines {
        mut frames,
        jobs,
        mut answerer,
        ending,
    } = lines;
    let notifier = &mut answerer.notifier;
    let end = answer_in_turn(rt, work, notifier, &mut channel, &mut frames);
    let lines = Lines {
        frames,
        jobs,
        answerer,
        ending,
    };
    let (source, sink, buffers, transcript) = channel.close(lines);
    RunEnd {
        end,
        transcript,
        source,
        sink,
        buffers,
    }
}
