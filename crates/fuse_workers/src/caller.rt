// The caller, which takes messages and hands them to workers.
ghost use Rattle.std.specs.Prelude.{◌≡◌, ◌++◌, ◌∷◌, ℕ, List, [], false, true, length, IsSome, MatchBool};
ghost use Rattle.fuse_line.specs.Hand.{with_put};
ghost use Rattle.fuse_line.specs.declared.hand.Kind.TheVariants.{First};
ghost use Rattle.fuse_line.specs.Tells.{IsSettled};
ghost use Rattle.fuse_loop.specs.Answering.{IsRequest, answering, job_of};
ghost use Rattle.fuse_loop.specs.Progress.{IntakeState};
ghost use Rattle.fuse_workers.specs.HandingOn.{answered_last};
ghost use Rattle.fuse_workers.specs.Hearing.{Hears};
ghost use Rattle.fuse_workers.specs.Turns.{TurnHeard};
ghost use Rattle.fuse_core.specs.OnePerMessage.{number_of};
ghost use Rattle.fuse_workers.specs.Callers.{CallerOn};
ghost use Rattle.fuse_workers.specs.Answered.{IsCaller};

use crate::run_context::RunContext;
use crate::stopped::Stopped;
use crate::taking::take_request;
use crate::worker::answer_job;
use fuse_line::Pass;
use fuse_loop::{Answerer, Ending, Intake, RequestJob, Work, destroy_reply};
use fuse_reply::Parcel;
use fuse_wire::{NoMemory, Source};
use std::alloc::AllocGlobal;
use std::sync::Wait;

/// The first passes of both lines, and what the caller answers messages with itself.
#[derive(Drop)]
pub(crate) struct Caller {
    /// The first pass of the line of jobs.
    pub jobs: Pass<RequestJob>,
    /// The first pass of the line of frames.
    pub frames: Pass<Parcel>,
    /// What the caller answers a message with.
    pub answerer: Answerer,
}

/// Pushes a request as a job, and says whether it did: whether there is a worker, and memory and a place for it.
fn push_job<R: Wait + AllocGlobal, W: Work>(
    context: &RunContext<R, W>,
    seq: u64,
    message: &[u8],
    worker_count: usize,
    pass: &mut Pass<RequestJob>,
) -> bool
    requires request { IsRequest message.now }
    requires line { pass.old.line ≡ context.now.jobs.now }
    requires first { pass.old.hand.kind ≡ First }
    requires workers { pass.old.hand.others ≡ worker_count }
    ensures line { pass.new.line ≡ context.now.jobs.now }
    ensures hand { MatchBool result
        (pass.new.hand ≡ with_put pass.old.hand (job_of seq message.now))
        (pass.new.hand ≡ pass.old.hand) }
    ensures alone { pass.old.hand.others ≡ 0 → result ≡ false }
{
    if worker_count == 0 {
        return false;
    }
    match RequestJob::copied(context.rt.alloc(), seq, message) {
        Ok(job) => context.jobs.push(context.rt, pass, job).is_ok(),
        Err(NoMemory) => false,
    }
}

/// Pushes a request as a job. Where no worker is there, or there is no memory or no place for it, answers it here.
fn hand_in<R: Wait + AllocGlobal, W: Work>(
    context: &RunContext<R, W>,
    seq: u64,
    message: &[u8],
    worker_count: usize,
    caller: &mut Caller,
)
    requires request { IsRequest message.now }
    requires lines { CallerOn context.now.jobs.now context.now.frames.now caller.old }
    requires first { (caller.old.jobs.hand.kind ≡ First) × (caller.old.frames.hand.kind ≡ First) }
    requires workers { caller.old.jobs.hand.others ≡ worker_count }
    ensures lines { CallerOn context.now.jobs.now context.now.frames.now caller.new }
    ensures others { (caller.new.jobs.hand.others ≡ caller.old.jobs.hand.others)
        × (caller.new.frames.hand.others ≡ caller.old.frames.hand.others) }
    ensures alone { caller.old.jobs.hand.others ≡ 0 → caller.new.jobs.hand ≡ caller.old.jobs.hand }
    ensures caller { (ms : List (List ℕ)) → number_of (length ms) ≡ seq →
        IsCaller (answering (W.owed context.now.work.now) W.DEFERS) ms caller.old.jobs.hand caller.old.frames.hand →
        IsCaller (answering (W.owed context.now.work.now) W.DEFERS) (ms ++ message.now ∷ []) caller.new.jobs.hand
        caller.new.frames.hand }
{
    if push_job(context, seq, message, worker_count, &mut caller.jobs) {
        return;
    }
    let (rt, work, frames) = (context.rt, context.work, context.frames);
    let out = caller.answerer.answer(rt, work, seq, message);
    frames.push_waiting(rt, &mut caller.frames, Parcel::Prompt(seq, out));
}

/// Takes a message and hands it in. None is that the run goes on.
fn take_one<R: Wait + AllocGlobal, W: Work, S: Source>(
    context: &RunContext<R, W>,
    seq: u64,
    intake: &mut Intake<S>,
    worker_count: usize,
    caller: &mut Caller,
) -> Option<Stopped>
    requires lines { CallerOn context.now.jobs.now context.now.frames.now caller.old }
    requires first { (caller.old.jobs.hand.kind ≡ First) × (caller.old.frames.hand.kind ≡ First) }
    requires workers { caller.old.jobs.hand.others ≡ worker_count }
    ensures lines { CallerOn context.now.jobs.now context.now.frames.now caller.new }
    ensures others { (caller.new.jobs.hand.others ≡ caller.old.jobs.hand.others)
        × (caller.new.frames.hand.others ≡ caller.old.frames.hand.others) }
    ensures alone { caller.old.jobs.hand.others ≡ 0 → caller.new.jobs.hand ≡ caller.old.jobs.hand }
    ensures turn { TurnHeard (answering (W.owed context.now.work.now) W.DEFERS) seq result intake.old intake.new
        caller.old.jobs.hand caller.old.frames.hand caller.new.jobs.hand caller.new.frames.hand }
{
    match take_request(context.rt, seq, intake) {
        Ok(count) => {
            hand_in(context, seq, intake.message(count), worker_count, caller);
            None
        }
        Err(stopped) => Some(stopped),
    }
}

/// Takes messages and hands them in, until no message is left or one ends the run.
pub(crate) fn take_messages<R: Wait + AllocGlobal, W: Work, S: Source>(
    context: &RunContext<R, W>,
    intake: &mut Intake<S>,
    worker_count: usize,
    caller: &mut Caller,
) -> Stopped
    requires lines { CallerOn context.now.jobs.now context.now.frames.now caller.old }
    requires caller { IsCaller (answering (W.owed context.now.work.now) W.DEFERS) [] caller.old.jobs.hand caller.old.frames.hand }
    requires workers { caller.old.jobs.hand.others ≡ worker_count }
    ensures lines { CallerOn context.now.jobs.now context.now.frames.now caller.new }
    ensures others { (caller.new.jobs.hand.others ≡ caller.old.jobs.hand.others)
        × (caller.new.frames.hand.others ≡ caller.old.frames.hand.others) }
    ensures alone { caller.old.jobs.hand.others ≡ 0 → caller.new.jobs.hand ≡ caller.old.jobs.hand }
    ensures heard { (ms : List (List ℕ)) × Hears result ms intake.old intake.new
        × IsCaller (answering (W.owed context.now.work.now) W.DEFERS) ms caller.new.jobs.hand caller.new.frames.hand }
{
    let mut seq: u64 = 0;
    for _ in context.rt.forever() {
        match take_one(context, seq, intake, worker_count, caller) {
            Some(stopped) => return stopped,
            None => seq = seq.saturating_add(1),
        }
    }
    unreachable!()
}

/// Answers the jobs that no worker took. No worker is left, and the run's end is marked: a reply that is put off from here on is
/// refused as one after the end.
pub(crate) fn answer_rest<R: Wait + AllocGlobal, W: Work>(
    context: &RunContext<R, W>,
    caller: &mut Caller,
    ending: &Ending,
)
    requires marked { IsSome ending.now.set }
    requires joined { caller.old.jobs.hand.others ≡ 0 }
    requires lines { CallerOn context.now.jobs.now context.now.frames.now caller.old }
    requires first { (caller.old.jobs.hand.kind ≡ First) × (caller.old.frames.hand.kind ≡ First) }
    ensures lines { CallerOn context.now.jobs.now context.now.frames.now caller.new }
    ensures others { (caller.new.jobs.hand.others ≡ caller.old.jobs.hand.others)
        × (caller.new.frames.hand.others ≡ caller.old.frames.hand.others) }
    ensures caller { (ms : List (List ℕ)) →
        IsCaller (answering (W.owed context.now.work.now) W.DEFERS) ms caller.old.jobs.hand caller.old.frames.hand →
        IsCaller (answering (W.owed context.now.work.now) W.DEFERS) ms caller.new.jobs.hand caller.new.frames.hand }
    ensures settled { IsSettled (λ _. true) caller.new.jobs.hand }
{
    let _ = ending;
    let (rt, jobs, frames) = (context.rt, context.jobs, context.frames);
    for _ in rt.forever() {
        let Some(job) = jobs.pop(rt, &mut caller.jobs) else {
            return;
        };
        let parcel = answer_job(context, &mut caller.answerer, job);
        frames.push_waiting(rt, &mut caller.frames, parcel);
    }
    unreachable!()
}

/// Answers DESTROY, where it was the last message. No worker is left, and no job: all other messages were answered.
pub(crate) fn answer_last<R: Wait + AllocGlobal, W: Work>(
    context: &RunContext<R, W>,
    stopped: Stopped,
    caller: &mut Caller,
)
    requires line { caller.old.frames.line ≡ context.now.frames.now }
    requires first { caller.old.frames.hand.kind ≡ First }
    requires answered { (caller.old.jobs.hand.others ≡ 0) × IsSettled (λ _. true) caller.old.jobs.hand }
    ensures line { caller.new.frames.line ≡ context.now.frames.now }
    ensures others { caller.new.frames.hand.others ≡ caller.old.frames.hand.others }
    ensures same { (caller.new.jobs ≡ caller.old.jobs) × (caller.new.answerer ≡ caller.old.answerer) }
    ensures caller { (ms : List (List ℕ)) (before : IntakeState) (after : IntakeState) →
        (hears : Hears stopped ms before after) →
        IsCaller (answering (W.owed context.now.work.now) W.DEFERS) ms caller.old.jobs.hand caller.old.frames.hand →
        IsCaller (answering (W.owed context.now.work.now) W.DEFERS) (ms ++ answered_last stopped hears.last)
        caller.new.jobs.hand caller.new.frames.hand }
{
    if let Stopped::Destroy(seq, id) = stopped {
        let (rt, frames) = (context.rt, context.frames);
        let out = destroy_reply(rt.alloc(), id);
        frames.push_waiting(rt, &mut caller.frames, Parcel::Prompt(seq, out));
    }
}
