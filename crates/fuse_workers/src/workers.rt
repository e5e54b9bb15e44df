// Runs on several threads: the caller receives, workers answer, and one sender has the sink.
ghost use Rattle.std.specs.Prelude.{◌≡◌, ◌≤◌, ◌+◌, ◌++◌, ℕ, List, [], None, false, true, length, min};
ghost use Rattle.std.specs.Arc.{arc_value};
ghost use Rattle.std.specs.List.{All};
ghost use Rattle.std.specs.Vec.{vec_len};
ghost use Rattle.fuse_line.specs.Hand.{hand};
ghost use Rattle.fuse_line.specs.declared.hand.Kind.TheVariants.{First, Inner};
ghost use Rattle.fuse_line.specs.Tells.{IsSettled};
ghost use Rattle.fuse_reply.specs.Parcel.{is_prompt};
ghost use Rattle.fuse_reply.specs.declared.parcel.Parcel.{Parcel as Goes};
ghost use Rattle.fuse_workers.specs.Alone.{ServesAlone};
ghost use Rattle.fuse_core.specs.Book.{EachWaiting, IsBookOf};
ghost use Rattle.fuse_workers.specs.HandingOn.{answered_last};
ghost use Rattle.fuse_workers.specs.Conducting.{Conducts};
ghost use Rattle.fuse_loop.specs.EventLoop.{Run};
ghost use Rattle.fuse_workers.specs.Hearing.{Hears};
ghost use Rattle.fuse_loop.specs.Incoming.{IsBroken};
ghost use Rattle.fuse_loop.specs.Lines.{IsAlone, IsDrained, IsOn, IsUnused, ended_by, late_of, unasked_of};
ghost use Rattle.fuse_core.specs.OnePerMessage.{UpToOrder};
ghost use Rattle.fuse_workers.specs.OnePerMessageLater.{NoneHeldBack};
ghost use Rattle.fuse_workers.specs.Relays.{IsRelayed, RelayState, is_own, relay_of};
ghost use Rattle.fuse_workers.specs.Callers.{CallerOn};
ghost use Rattle.fuse_workers.specs.Promises.{PromisesFor, lines_of};
ghost use Rattle.fuse_workers.specs.Starting.{AsksUpTo, starts};
ghost use Rattle.fuse_loop.specs.Progress.{PassesOnAll, Quiet, nothing_yet, progress};
ghost use Rattle.fuse_workers.specs.Answered.{IsCaller};
ghost use Rattle.fuse_loop.specs.Answering.{answering};

use crate::alone::answer_in_turn_alone;
use crate::caller::{Caller, answer_last, answer_rest, take_messages};
use crate::closing::{ClosedRun, mark_end, send_last};
use crate::lent::{LentEnds, take_back};
use crate::relay::Relay;
use crate::run_context::RunContext;
use crate::sender::{LentRelay, send_rest};
use crate::starter::{Starter, SystemStarter};
use crate::stopped::Stopped;
use crate::threads::{MOST_WORKERS, Worker, join_workers, start_sender, start_workers};
use fuse_core::Book;
use fuse_line::Line;
use fuse_loop::{
    Buffers, End, Ending, Intake, Lines, Outlet, RequestJob, RunEnd, RunLine, Transcript, Work,
};
use fuse_reply::Parcel;
use fuse_wire::{Sink, Source};
use std::alloc::Global;
use std::sync::atomic::{AtomicBool, Ordering};
use std::sync::{Arc, Wait};
use std::thread::{Scope, Threads};
use std::{array, thread};

/// The ends of a run, the first passes of its lines, and the mark of its end.
struct RunParts<S: Source, K: Sink> {
    intake: Intake<S>,
    relay: Relay<K>,
    caller: Caller,
    ending: Ending,
}

/// Raises all flags.
fn raise(flags: &[AtomicBool]) {
    for flag in flags {
        flag.store(true, Ordering::SeqCst);
    }
}

/// Takes messages until no more are to be taken, joins the workers, marks the run's end, and answers what they left.
fn answer_all<W: Work, S: Source, R: Threads + Wait + AllocGlobal + Sync>(
    context: &RunContext<R, W>,
    flags: &[AtomicBool],
    intake: &mut Intake<S>,
    caller: &mut Caller,
    ending: &mut Ending,
    workers: Vec<Worker<W>>,
) -> Stopped
    requires lines { CallerOn context.now.jobs.now context.now.frames.now caller.old }
    requires caller { IsCaller (answering (W.owed context.now.work.now) W.DEFERS) [] caller.old.jobs.hand caller.old.frames.hand }
    requires others { (caller.old.jobs.hand.others ≡ vec_len workers)
        × (caller.old.frames.hand.others ≡ 1 + vec_len workers) }
    requires promises { All (λ h. PromisesFor context.now.work.now context.now.jobs.now context.now.frames.now h.promise) workers.items }
    requires unmarked { ending.old.set ≡ None }
    ensures lines { CallerOn context.now.jobs.now context.now.frames.now caller.new }
    ensures others { (caller.new.jobs.hand.others ≡ 0) × (caller.new.frames.hand.others ≡ 1) }
    ensures settled { IsSettled (λ _. true) caller.new.jobs.hand }
    ensures marked { ending.new ≡ ended_by ending.old intake.new.received }
    ensures answered { (ms : List (List ℕ)) × (hears : Hears result ms intake.old intake.new)
        × IsCaller (answering (W.owed context.now.work.now) W.DEFERS) (ms ++ answered_last result hears.last)
        caller.new.jobs.hand caller.new.frames.hand }
{
    let worker_count = workers.len();
    let stopped = take_messages(context, intake, worker_count, caller);
    raise(flags);
    context.jobs.wake();
    join_workers(context, caller, workers);
    mark_end(caller, ending, intake.received);
    answer_rest(context, caller, ending);
    answer_last(context, stopped, caller);
    stopped
}

/// Answers messages on this thread, which sends too, since no sender could be started.
fn answer_alone<W: Work, S: Source, K: Sink, R: Wait + AllocGlobal>(
    context: &RunContext<R, W>,
    intake: &mut Intake<S>,
    relay: &mut Relay<K>,
    caller: &mut Caller,
    ending: &mut Ending,
) -> (Stopped, ClosedRun)
    requires line { caller.old.frames.line ≡ context.now.frames.now }
    requires hand { caller.old.frames.hand ≡ hand First 0 [] caller.old.frames.hand.taken }
    requires no_worker { caller.old.jobs.hand.others ≡ 0 }
    requires unmarked { ending.old.set ≡ None }
    ensures line { caller.new.frames.line ≡ context.now.frames.now }
    ensures same { (caller.new.jobs ≡ caller.old.jobs)
        × (caller.new.answerer.notifier.line ≡ caller.old.answerer.notifier.line) }
    ensures marked { ending.new ≡ ended_by ending.old intake.new.received }
    ensures alone { (more : List Goes)
        × (caller.new.frames.hand ≡ hand First 0 [] (caller.old.frames.hand.taken ++ more))
        × ServesAlone (answering (W.owed context.now.work.now) W.DEFERS) result.0 more intake.old intake.new
        (relay_of relay.old.outlet relay.old.book) (relay_of relay.new.outlet relay.new.book) }
    ensures settled { IsSettled is_prompt caller.new.frames.hand }
{
    let (rt, frames) = (context.rt, context.frames);
    send_rest(rt, frames, &mut caller.frames, relay);
    let stopped = answer_in_turn_alone(
        context,
        intake,
        &mut caller.answerer,
        &mut caller.frames,
        relay,
    );
    mark_end(caller, ending, intake.received);
    let closed = send_last(rt, frames, &mut caller.frames, relay, ending);
    (stopped, closed)
}

/// Conducts a run on this thread, since no sender could be started. What one was to be lent came back, with its pass.
fn conduct_alone<'a, W: Work, S: Source, K: Sink, T: Starter, R: Wait + AllocGlobal>(
    context: &RunContext<R, W>,
    intake: &'a mut Intake<S>,
    back: LentRelay<'a, K>,
    starter: T,
    mut caller: Caller,
    mut ending: Ending,
) -> (Stopped, LentEnds<'a, S, K, T>, ClosedRun)
    requires lines { (caller.frames.line ≡ context.now.frames.now) × (back.pass.line ≡ context.now.frames.now) }
    requires hands { (caller.jobs.hand ≡ hand First 0 [] []) × (caller.frames.hand ≡ hand First 1 [] []) }
    requires sender { (back.pass.hand.kind ≡ Inner) × (back.pass.hand.put ≡ []) }
    requires unmarked { ending.set ≡ None }
    ensures same { (result.1.intake.ghost_name ≡ intake.entry.ghost_name)
        × (result.1.relay.ghost_name ≡ back.entry.relay.ghost_name) }
    ensures starter { result.1.starter ≡ starter }
    ensures lines { (result.1.caller.jobs.line ≡ caller.jobs.line) × (result.1.caller.frames.line ≡ context.now.frames.now)
        × (result.1.caller.answerer.notifier.line ≡ caller.answerer.notifier.line) }
    ensures marked { result.1.ending ≡ ended_by ending result.1.intake.now.received }
    ensures conducts { (before : RelayState) →
        IsRelayed back.entry.pass.hand before (relay_of back.entry.relay.now.outlet back.entry.relay.now.book) →
        Conducts (answering (W.owed context.now.work.now) W.DEFERS) result.0 intake.entry.now result.1.intake.now before
        (relay_of result.1.relay.now.outlet result.1.relay.now.book)
        result.1.caller.jobs.hand result.1.caller.frames.hand }
{
    let LentRelay { relay, pass } = back;
    context.frames.join(&mut caller.frames, pass);
    let (stopped, closed) = answer_alone(context, intake, relay, &mut caller, &mut ending);
    let lent = LentEnds {
        intake,
        relay,
        starter,
        caller,
        ending,
    };
    (stopped, lent, closed)
}

/// Conducts a run in a scope whose threads it starts: one that sends, and workers up to the number of flags. Where
/// none can be started to send, the caller answers all messages itself, and sends.
fn conduct<
    's,
    'a: 's,
    E,
    W: Work,
    S: Source,
    K: Sink + Send,
    T: Starter,
    R: Threads + Wait + AllocGlobal + Sync,
>(
    scope: &Scope<'s, E>,
    context: &RunContext<'s, R, W>,
    flags: &'s [AtomicBool],
    no_more: &'s AtomicBool,
    lent: LentEnds<'a, S, K, T>,
) -> (Stopped, LentEnds<'a, S, K, T>, ClosedRun)
    requires lines { CallerOn context.now.jobs.now context.now.frames.now lent.caller }
    requires hands { (lent.caller.jobs.hand ≡ hand First 0 [] []) × (lent.caller.frames.hand ≡ hand First 0 [] []) }
    requires few { length flags.now ≤ MOST_WORKERS }
    requires fresh { T.told lent.starter ≡ starts 0 0 }
    requires unmarked { lent.ending.set ≡ None }
    ensures same { (result.1.intake.ghost_name ≡ lent.entry.intake.ghost_name)
        × (result.1.relay.ghost_name ≡ lent.entry.relay.ghost_name) }
    ensures lines { CallerOn context.now.jobs.now context.now.frames.now result.1.caller }
    ensures marked { result.1.ending ≡ ended_by lent.entry.ending result.1.intake.now.received }
    ensures starts { (made : ℕ) × AsksUpTo (1 + length flags.now) made (T.told lent.entry.starter) (T.told result.1.starter) }
    ensures conducts { Conducts (answering (W.owed context.now.work.now) W.DEFERS) result.0 lent.entry.intake.now
        result.1.intake.now (relay_of lent.entry.relay.now.outlet lent.entry.relay.now.book)
        (relay_of result.1.relay.now.outlet result.1.relay.now.book)
        result.1.caller.jobs.hand result.1.caller.frames.hand }
{
    let LentEnds {
        intake,
        relay,
        mut starter,
        mut caller,
        mut ending,
    } = lent;
    let (rt, frames) = (context.rt, context.frames);
    let pass = frames.split(&mut caller.frames, false);
    let may_start = starter.ask();
    let lent = LentRelay { relay, pass };
    let sender = match start_sender(scope, rt, frames, lent, no_more, may_start) {
        Ok(sender) => sender,
        Err(back) => {
            starter.refuse();
            return conduct_alone(context, intake, back, starter, caller, ending);
        }
    };
    let workers = start_workers(scope, context, flags, &mut starter, &mut caller);
    let stopped = answer_all(context, flags, intake, &mut caller, &mut ending, workers);
    no_more.store(true, Ordering::SeqCst);
    frames.wake();
    let LentRelay { relay, pass } = sender.join(rt);
    frames.join(&mut caller.frames, pass);
    let closed = send_last(rt, frames, &mut caller.frames, relay, &ending);
    let lent = LentEnds {
        intake,
        relay,
        starter,
        caller,
        ending,
    };
    (stopped, lent, closed)
}

/// Conducts a run with so many workers in a scope of its own, at whose end no thread is left.
fn run_in_scope<
    'a,
    W: Work,
    S: Source,
    K: Sink + Send,
    T: Starter,
    R: Threads + Wait + AllocGlobal + Sync,
>(
    context: &RunContext<R, W>,
    count: usize,
    lent: LentEnds<'a, S, K, T>,
) -> (Stopped, LentEnds<'a, S, K, T>, ClosedRun)
    requires lines { CallerOn context.now.jobs.now context.now.frames.now lent.caller }
    requires hands { (lent.caller.jobs.hand ≡ hand First 0 [] []) × (lent.caller.frames.hand ≡ hand First 0 [] []) }
    requires few { count ≤ MOST_WORKERS }
    requires fresh { T.told lent.starter ≡ starts 0 0 }
    requires unmarked { lent.ending.set ≡ None }
    ensures same { (result.1.intake.ghost_name ≡ lent.entry.intake.ghost_name)
        × (result.1.relay.ghost_name ≡ lent.entry.relay.ghost_name) }
    ensures lines { CallerOn context.now.jobs.now context.now.frames.now result.1.caller }
    ensures marked { result.1.ending ≡ ended_by lent.entry.ending result.1.intake.now.received }
    ensures starts { (made : ℕ) × AsksUpTo (1 + count) made (T.told lent.entry.starter) (T.told result.1.starter) }
    ensures conducts { Conducts (answering (W.owed context.now.work.now) W.DEFERS) result.0 lent.entry.intake.now
        result.1.intake.now (relay_of lent.entry.relay.now.outlet lent.entry.relay.now.book)
        (relay_of result.1.relay.now.outlet result.1.relay.now.book)
        result.1.caller.jobs.hand result.1.caller.frames.hand }
{
    let all: [AtomicBool; MOST_WORKERS] = array::from_fn(|_place| AtomicBool::new(false));
    let flags = &all[..count];
    let flag = AtomicBool::new(false);
    let no_more = &flag;
    thread::scope(
        thread::scope_env(),
        context.rt,
        |scope| -> (Stopped, LentEnds<S, K, T>, ClosedRun)
            requires lines { CallerOn context.now.jobs.now context.now.frames.now lent.caller }
            requires hands { (lent.caller.jobs.hand ≡ hand First 0 [] [])
                × (lent.caller.frames.hand ≡ hand First 0 [] []) }
            requires few { length flags.now ≤ MOST_WORKERS }
            requires fresh { T.told lent.starter ≡ starts 0 0 }
            requires unmarked { lent.ending.set ≡ None }
            ensures same { (result.1.intake.ghost_name ≡ lent.entry.intake.ghost_name)
                × (result.1.relay.ghost_name ≡ lent.entry.relay.ghost_name) }
            ensures lines { CallerOn context.entry.now.jobs.now context.entry.now.frames.now result.1.caller }
            ensures marked { result.1.ending ≡ ended_by lent.entry.ending result.1.intake.now.received }
            ensures starts { (made : ℕ) × AsksUpTo (1 + length flags.entry.now) made (T.told lent.entry.starter)
                (T.told result.1.starter) }
            ensures conducts { Conducts (answering (W.owed context.entry.now.work.now) W.DEFERS) result.0
                lent.entry.intake.now result.1.intake.now
                (relay_of lent.entry.relay.now.outlet lent.entry.relay.now.book)
                (relay_of result.1.relay.now.outlet result.1.relay.now.book)
                result.1.caller.jobs.hand result.1.caller.frames.hand }
        { conduct(scope, context, flags, no_more, lent) },
    )
}

/// Conducts a run with so many workers, and gives back what its threads were started by.
fn run_with<S: Source, K: Sink + Send, W: Work, T: Starter, R: Threads + Wait + AllocGlobal + Sync>(
    context: &RunContext<R, W>,
    count: usize,
    starter: T,
    parts: RunParts<S, K>,
) -> (Stopped, RunParts<S, K>, T)
    requires lines { CallerOn context.now.jobs.now context.now.frames.now parts.caller }
    requires few { count ≤ MOST_WORKERS }
    requires hands { (parts.caller.jobs.hand ≡ hand First 0 [] []) × (parts.caller.frames.hand ≡ hand First 0 [] []) }
    requires fresh { T.told starter ≡ starts 0 0 }
    requires unmarked { parts.ending.set ≡ None }
    ensures lines { CallerOn context.now.jobs.now context.now.frames.now result.1.caller }
    ensures marked { result.1.ending ≡ ended_by parts.ending result.1.intake.received }
    ensures starts { (made : ℕ) × AsksUpTo (1 + count) made (T.told starter) (T.told result.2) }
    ensures conducts { Conducts (answering (W.owed context.now.work.now) W.DEFERS) result.0 parts.intake result.1.intake
        (relay_of parts.relay.outlet parts.relay.book) (relay_of result.1.relay.outlet result.1.relay.book)
        result.1.caller.jobs.hand result.1.caller.frames.hand }
{
    let RunParts {
        mut intake,
        mut relay,
        caller,
        ending,
    } = parts;
    let lent = LentEnds {
        intake: &mut intake,
        relay: &mut relay,
        starter,
        caller,
        ending,
    };
    let (stopped, back, _closed) = run_in_scope(context, count, lent);
    let LentEnds {
        intake: taken,
        relay: sent,
        starter,
        caller,
        ending,
    } = back;
    take_back(taken, sent);
    let parts = RunParts {
        intake,
        relay,
        caller,
        ending,
    };
    (stopped, parts, starter)
}

/// What a run of this work did: the messages taken, and what was sent. Where no reply comes later, a late frame is none
/// of this run, and what became of it is not counted.
fn tallied<W: Work>(sent: Transcript, received: u64, unrecorded: u64) -> Transcript
    ensures all { result ≡ record sent { received = received; unrecorded = result.unrecorded } }
    ensures later { W.DEFERS ≡ true → result.unrecorded ≡ unrecorded }
    ensures prompt { W.DEFERS ≡ false → result.unrecorded ≡ 0 }
{
    Transcript {
        received,
        unrecorded: if W::DEFERS { unrecorded } else { 0 },
        ..sent
    }
}

/// The end of a run on lines that nobody else uses.
fn ended<W: Work, S: Source, K: Sink>(
    end: End,
    parts: RunParts<S, K>,
    jobs: Arc<Line<RequestJob>, Global>,
    frames: Arc<Line<Parcel>, Global>,
) -> RunEnd<S, K>
    requires jobs { IsAlone (λ _. true) (arc_value jobs) parts.caller.jobs }
    requires frames { IsAlone is_prompt (arc_value frames) parts.caller.frames }
    ensures end { result.end ≡ end }
    ensures ends { (S.told result.source ≡ parts.intake.source) × (K.told result.sink ≡ parts.relay.outlet.sink) }
    ensures transcript { result.transcript ≡ record parts.relay.outlet.counts {
      received = parts.intake.received;
      unrecorded = result.transcript.unrecorded;
    } }
    ensures later { W.DEFERS ≡ true → result.transcript.unrecorded ≡ parts.relay.book.unrecorded }
    ensures prompt { W.DEFERS ≡ false → result.transcript.unrecorded ≡ 0 }
    ensures buffers { result.buffers ≡ lines_of parts.ending parts.caller }
    ensures drained { IsDrained result.buffers }
{
    let RunParts {
        intake,
        relay,
        caller,
        ending,
    } = parts;
    let Intake {
        source,
        buffer,
        received,
    } = intake;
    let Relay { outlet, book } = relay;
    let Outlet { sink, transcript } = outlet;
    let lines = Lines {
        frames: RunLine {
            line: frames,
            pass: caller.frames,
        },
        jobs: RunLine {
            line: jobs,
            pass: caller.jobs,
        },
        answerer: caller.answerer,
        ending,
    };
    RunEnd {
        end,
        transcript: tallied::<W>(transcript, received, book.unrecorded()),
        source,
        sink,
        buffers: Buffers {
            receive: buffer,
            lines,
        },
    }
}

/// Runs on these lines, which nobody has used.
fn run_on<W: Work, S: Source, K: Sink + Send, T: Starter, R: Threads + Wait + AllocGlobal + Sync>(
    rt: &R,
    work: &W,
    count: usize,
    starter: T,
    jobs: Arc<Line<RequestJob>, Global>,
    frames: Arc<Line<Parcel>, Global>,
    parts: RunParts<S, K>,
) -> (RunEnd<S, K>, T)
    requires lines { CallerOn (arc_value jobs) (arc_value frames) parts.caller }
    requires few { count ≤ MOST_WORKERS }
    requires hands { (parts.caller.jobs.hand ≡ hand First 0 [] []) × (parts.caller.frames.hand ≡ hand First 0 [] []) }
    requires nothing { (parts.intake.received ≡ 0) × (parts.relay.outlet.counts ≡ nothing_yet) }
    requires book { IsBookOf parts.relay.book [] [] [] }
    requires own { EachWaiting is_own parts.relay.book }
    requires unmarked { parts.ending.set ≡ None }
    requires fresh { T.told starter ≡ starts 0 0 }
    ensures run { W.DEFERS ≡ false → Run (UpToOrder (W.owed work.now) IsBroken) result.0.end
        (progress parts.intake.source parts.relay.outlet.sink nothing_yet [])
        (progress (S.told result.0.source) (K.told result.0.sink) result.0.transcript (unasked_of result.0.buffers)) }
    ensures later { Run (NoneHeldBack (W.owed work.now) IsBroken (late_of result.0.buffers)
        (result.0.transcript.unrecorded ≡ 0)) result.0.end
        (progress parts.intake.source parts.relay.outlet.sink nothing_yet [])
        (progress (S.told result.0.source) (K.told result.0.sink) result.0.transcript
        (unasked_of result.0.buffers)) }
    ensures recorded { W.DEFERS ≡ false → result.0.transcript.unrecorded ≡ 0 }
    ensures marked { result.0.buffers.end ≡ ended_by parts.ending result.0.transcript.received }
    ensures lines { IsOn (arc_value jobs) (arc_value frames) result.0.buffers }
    ensures drained { IsDrained result.0.buffers }
    ensures starts { (made : ℕ) × AsksUpTo (1 + count) made (T.told starter) (T.told result.1) }
{
    let context = RunContext {
        rt,
        work,
        jobs: &jobs,
        frames: &frames,
    };
    let (stopped, parts, starter) = run_with(&context, count, starter, parts);
    let run = ended::<W, S, K>(stopped.end(), parts, jobs, frames);
    (run, starter)
}

/// Answers messages on `n` threads, but at most `MOST_WORKERS`, until the source has none left or one ends the run.
/// The caller receives, and hands each message to a worker; one thread more sends. Where a message finds no place or no
/// memory on its way to a worker, or no worker could be started, the caller answers it itself; where the sender can't be
/// started, it answers and sends all.
///
/// Replies are sent in any order, but the reply to DESTROY after all others that are given at once. A reply that comes
/// later is sent once its mark, which went out in its place, has come to whoever sends; where that is the caller, which
/// receives too, it looks for such replies once it has answered the next message.
///
/// Each thread is asked for first, the sender before the workers. Once one could not be started, no more are asked for.
pub fn run_workers_by<
    T: Starter,
    R: Threads + Wait + AllocGlobal + Sync,
    W: Work,
    S: Source,
    K: Sink + Send,
>(rt: &R, starter: T, work: &W, source: S, sink: K, buffers: Buffers, n: usize) -> (RunEnd<S, K>, T)
    // Buffers serve one run.
    requires unused { IsUnused buffers }

    // What lets threads be started serves one run.
    requires fresh { T.told starter ≡ starts 0 0 }

    // Where no reply comes later: what was taken, sent, lost and counted, up to order, and why it ended so.
    ensures run { W.DEFERS ≡ false → Run (UpToOrder (W.owed work.now) IsBroken) result.0.end
        (progress (S.told source) (K.told sink) nothing_yet [])
        (progress (S.told result.0.source) (K.told result.0.sink) result.0.transcript (unasked_of result.0.buffers)) }

    // The same where replies may come later: see `OnePerMessageLater` and `NoneHeldBack`.
    ensures later { Run (NoneHeldBack (W.owed work.now) IsBroken (late_of result.0.buffers)
        (result.0.transcript.unrecorded ≡ 0)) result.0.end
        (progress (S.told source) (K.told sink) nothing_yet [])
        (progress (S.told result.0.source) (K.told result.0.sink) result.0.transcript
        (unasked_of result.0.buffers)) }

    // All could be recorded where no reply comes later.
    ensures recorded { W.DEFERS ≡ false → result.0.transcript.unrecorded ≡ 0 }

    // The end is marked with the number of messages that were taken.
    ensures marked { result.0.buffers.end ≡ ended_by buffers.end result.0.transcript.received }

    // Where the sink refused nothing, the notices that were sent are those that were taken off the line, in order.
    ensures notices { Quiet (K.told sink) (K.told result.0.sink) → PassesOnAll
        (progress (S.told source) (K.told sink) nothing_yet [])
        (progress (S.told result.0.source) (K.told result.0.sink) result.0.transcript (unasked_of result.0.buffers)) }

    // The lines are those of the buffers, and what makes notifiers has a door to the line of frames.
    ensures lines { IsOn buffers.jobs.line buffers.frames.line result.0.buffers }

    // Each job and each reply that was pushed on a line was taken off it, and no worker and no sender is left.
    ensures drained { IsDrained result.0.buffers }

    // As many threads are asked for as are to answer, and one that sends; or fewer are started, and then one that could not be.
    ensures starts { (made : ℕ) × AsksUpTo (1 + min n MOST_WORKERS) made (T.told starter) (T.told result.1) }
{
    let Buffers { receive, lines } = buffers;
    let Lines {
        frames: RunLine {
            line: frames,
            pass: frame_pass,
        },
        jobs: RunLine {
            line: jobs,
            pass: job_pass,
        },
        answerer,
        ending,
    } = lines;
    let parts = RunParts {
        intake: Intake {
            source,
            buffer: receive,
            received: 0,
        },
        relay: Relay {
            outlet: Outlet {
                sink,
                transcript: Transcript::new(),
            },
            book: Book::new(rt.alloc()),
        },
        caller: Caller {
            jobs: job_pass,
            frames: frame_pass,
            answerer,
        },
        ending,
    };
    run_on(rt, work, n.min(MOST_WORKERS), starter, jobs, frames, parts)
}

/// Answers messages as `run_workers_by` does, by threads that the system alone refuses.
pub fn run_workers<R: Threads + Wait + AllocGlobal + Sync, W: Work, S: Source, K: Sink + Send>(
    rt: &R,
    work: &W,
    source: S,
    sink: K,
    buffers: Buffers,
    n: usize,
) -> RunEnd<S, K>
    // Buffers serve one run.
    requires unused { IsUnused buffers }

    // Where no reply comes later: what was taken, sent, lost and counted, up to order, and why it ended so.
    ensures run { W.DEFERS ≡ false → Run (UpToOrder (W.owed work.now) IsBroken) result.end
        (progress (S.told source) (K.told sink) nothing_yet [])
        (progress (S.told result.source) (K.told result.sink) result.transcript (unasked_of result.buffers)) }

    // The same where replies may come later: see `OnePerMessageLater` and `NoneHeldBack`.
    ensures later { Run (NoneHeldBack (W.owed work.now) IsBroken (late_of result.buffers)
        (result.transcript.unrecorded ≡ 0)) result.end
        (progress (S.told source) (K.told sink) nothing_yet [])
        (progress (S.told result.source) (K.told result.sink) result.transcript
        (unasked_of result.buffers)) }

    // All could be recorded where no reply comes later.
    ensures recorded { W.DEFERS ≡ false → result.transcript.unrecorded ≡ 0 }

    // The end is marked with the number of messages that were taken.
    ensures marked { result.buffers.end ≡ ended_by buffers.end result.transcript.received }

    // Where the sink refused nothing, the notices that were sent are those that were taken off the line, in order.
    ensures notices { Quiet (K.told sink) (K.told result.sink) → PassesOnAll
        (progress (S.told source) (K.told sink) nothing_yet [])
        (progress (S.told result.source) (K.told result.sink) result.transcript (unasked_of result.buffers)) }

    // The lines are those of the buffers, and what makes notifiers has a door to the line of frames.
    ensures lines { IsOn buffers.jobs.line buffers.frames.line result.buffers }

    // Each job and each reply that was pushed on a line was taken off it, and no worker and no sender is left.
    ensures drained { IsDrained result.buffers }
{
    let starter = SystemStarter::new();
    let (run, _starter) = run_workers_by(rt, starter, work, source, sink, buffers, n);
    run
}
