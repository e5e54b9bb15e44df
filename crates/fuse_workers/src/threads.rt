// The threads of a run: how they are started, and how they are joined.
ghost use Rattle.std.specs.Prelude.{◌≡◌, ◌+◌, ◌-◌, ◌≤◌, ℕ, List, [], length, true, IfOk, IfSome, MatchOption, MatchResult};
ghost use Rattle.std.specs.List.{All};
ghost use Rattle.std.specs.Vec.{vec_len};
ghost use Rattle.fuse_line.specs.Hand.{hand};
ghost use Rattle.fuse_line.specs.declared.hand.Kind.TheVariants.{First, Inner};
ghost use Rattle.fuse_workers.specs.Callers.{CallerOn};
ghost use Rattle.fuse_workers.specs.Promises.{PromisesFor};
ghost use Rattle.fuse_workers.specs.Relays.{IsRelayed, relay_of};
ghost use Rattle.fuse_workers.specs.Starting.{AsksUpTo};
ghost use Rattle.fuse_workers.specs.Answered.{IsCaller, IsServed};
ghost use Rattle.fuse_loop.specs.Answering.{answering};

use crate::caller::Caller;
use crate::run_context::RunContext;
use crate::sender::{LentRelay, serve_sink};
use crate::starter::Starter;
use crate::worker::answer_jobs;
use fuse_line::{Line, Pass};
use fuse_loop::{RequestJob, Work};
use fuse_reply::Parcel;
use fuse_wire::Sink;
use std::snapshot::Snapshot;
use std::sync::Wait;
use std::sync::atomic::{AtomicBool, Ordering};
use std::thread::{Promise, PromisedHandle, Scope, SpawnError, Threads};

/// How many workers are started at most.
pub const MOST_WORKERS: usize = 64;

/// What a worker hands back: its passes, with a prompt pushed for each job that it took.
pub(crate) struct WorkerPromise<W> {
    work: Snapshot<W>,
    jobs: Snapshot<Line<RequestJob>>,
    frames: Snapshot<Line<Parcel>>,
}

impl<W> Drop for WorkerPromise<W> {
    fn drop(self) {
        let WorkerPromise {
            work: _,
            jobs: _,
            frames: _,
        } = self;
    }
}

impl<W: Work> Promise<(Pass<RequestJob>, Pass<Parcel>)> for WorkerPromise<W> {
    ghost kept_by = { λ p r. (r.0.line ≡ p.jobs.value) × (r.1.line ≡ p.frames.value)
        × IsServed (answering (W.owed p.work.value) W.DEFERS) r.0.hand r.1.hand };
}

/// What the sender hands back: the end that it was lent, with its book, to which each parcel went that it took.
pub(crate) struct SenderPromise<'a, K: Sink> {
    lent: Snapshot<LentRelay<'a, K>>,
    frames: Snapshot<Line<Parcel>>,
}

impl<'a, K: Sink> Drop for SenderPromise<'a, K> {
    fn drop(self) {
        let SenderPromise { lent: _, frames: _ } = self;
    }
}

impl<'a, K: Sink> Promise<LentRelay<'a, K>> for SenderPromise<'a, K> {
    ghost kept_by = { λ p r. (r.relay.ghost_name ≡ p.lent.value.relay.ghost_name) × (r.pass.line ≡ p.frames.value)
        × IsRelayed r.pass.hand (relay_of p.lent.value.relay.now.outlet p.lent.value.relay.now.book)
        (relay_of r.relay.now.outlet r.relay.now.book) };
}

/// A worker that was started.
pub(crate) type Worker<W> = PromisedHandle<(Pass<RequestJob>, Pass<Parcel>), WorkerPromise<W>>;

/// The sender, where it was started.
pub(crate) type Sender<'a, K> = PromisedHandle<LentRelay<'a, K>, SenderPromise<'a, K>>;

/// Starts a worker, where it may be started and there is memory for what it answers with. The closure of one that can't be
/// started is run here at once, with its flag raised.
fn start_one<'s, E, W: Work, R: Threads + Wait + AllocGlobal + Sync>(
    scope: &Scope<'s, E>,
    context: &RunContext<'s, R, W>,
    no_more: &'s AtomicBool,
    may_start: bool,
    caller: &mut Caller,
) -> Option<Worker<W>>
    requires lines { CallerOn context.now.jobs.now context.now.frames.now caller.old }
    requires caller { IsCaller (answering (W.owed context.now.work.now) W.DEFERS) [] caller.old.jobs.hand caller.old.frames.hand }
    ensures lines { CallerOn context.now.jobs.now context.now.frames.now caller.new }
    ensures caller { IsCaller (answering (W.owed context.now.work.now) W.DEFERS) [] caller.new.jobs.hand caller.new.frames.hand }
    ensures others { MatchOption result
        ((caller.new.jobs.hand.others ≡ caller.old.jobs.hand.others)
        × (caller.new.frames.hand.others ≡ caller.old.frames.hand.others))
        (λ h. PromisesFor context.now.work.now context.now.jobs.now context.now.frames.now h.promise
        × (caller.new.jobs.hand.others ≡ caller.old.jobs.hand.others + 1)
        × (caller.new.frames.hand.others ≡ caller.old.frames.hand.others + 1)) }
    ensures allowed { IfSome result (λ h. may_start ≡ true) }
{
    let Ok(answerer) = caller.answerer.again() else {
        return None;
    };
    let (rt, work, jobs, frames) = (context.rt, context.work, context.jobs, context.frames);
    let job_pass = jobs.split(&mut caller.jobs, false);
    let frame_pass = frames.split(&mut caller.frames, false);
    let promise = WorkerPromise {
        work: Snapshot::of(work),
        jobs: Snapshot::of(jobs),
        frames: Snapshot::of(frames),
    };
    let worker = move || -> (Pass<RequestJob>, Pass<Parcel>)
        requires { (job_pass.line ≡ jobs.now) × (frame_pass.line ≡ frames.now)
            × (job_pass.hand ≡ hand Inner 0 [] []) × (frame_pass.hand ≡ hand Inner 0 [] [])
            × (answerer.notifier.line ≡ frames.now) }
        ensures { (result.0.line ≡ jobs.entry.now) × (result.1.line ≡ frames.entry.now)
            × IsServed (answering (W.owed work.entry.now) W.DEFERS) result.0.hand result.1.hand }
    {
        let context = RunContext {
            rt,
            work,
            jobs,
            frames,
        };
        answer_jobs(&context, job_pass, frame_pass, answerer, no_more)
    };
    let started = if may_start {
        scope.spawn_with(promise, worker)
    } else {
        Err(SpawnError { value: worker })
    };
    match started {
        Ok(handle) => Some(handle),
        Err(refused) => {
            no_more.store(true, Ordering::SeqCst);
            let (job_pass, frame_pass) = (refused.value)();
            jobs.join(&mut caller.jobs, job_pass);
            frames.join(&mut caller.frames, frame_pass);
            None
        }
    }
}

/// Starts a worker for each flag, until one can't be started.
pub(crate) fn start_workers<'s, E, W: Work, T: Starter, R: Threads + Wait + AllocGlobal + Sync>(
    scope: &Scope<'s, E>,
    context: &RunContext<'s, R, W>,
    flags: &'s [AtomicBool],
    starter: &mut T,
    caller: &mut Caller,
) -> Vec<Worker<W>>
    requires lines { CallerOn context.now.jobs.now context.now.frames.now caller.old }
    requires caller { IsCaller (answering (W.owed context.now.work.now) W.DEFERS) [] caller.old.jobs.hand caller.old.frames.hand }
    requires few { (T.told starter.old).asked + length flags.now ≤ 1 + MOST_WORKERS }
    requires all_made { (T.told starter.old).refused ≡ 0 }
    ensures lines { CallerOn context.now.jobs.now context.now.frames.now caller.new }
    ensures caller { IsCaller (answering (W.owed context.now.work.now) W.DEFERS) [] caller.new.jobs.hand caller.new.frames.hand }
    ensures promises { All (λ h. PromisesFor context.now.work.now context.now.jobs.now context.now.frames.now h.promise) result.items }
    ensures jobs { caller.new.jobs.hand.others ≡ caller.old.jobs.hand.others + vec_len result }
    ensures frames { caller.new.frames.hand.others ≡ caller.old.frames.hand.others + vec_len result }
    ensures starts { AsksUpTo (length flags.now) (vec_len result) (T.told starter.old) (T.told starter.new) }
{
    let mut workers = Vec::new(context.rt.alloc());
    for flag in flags {
        let may_start = starter.ask() && workers.reserve(1).is_ok();
        match start_one(scope, context, flag, may_start, caller) {
            Some(worker) => workers.push_reserved(worker),
            None => {
                starter.refuse();
                return workers;
            }
        }
    }
    workers
}

/// Joins a worker, and takes its passes back.
fn join_one<W: Work, R: Threads>(context: &RunContext<R, W>, caller: &mut Caller, worker: Worker<W>)
    requires lines { CallerOn context.now.jobs.now context.now.frames.now caller.old }
    requires first { (caller.old.jobs.hand.kind ≡ First) × (caller.old.frames.hand.kind ≡ First) }
    requires promise { PromisesFor context.now.work.now context.now.jobs.now context.now.frames.now worker.promise }
    ensures lines { CallerOn context.now.jobs.now context.now.frames.now caller.new }
    ensures first { (caller.new.jobs.hand.kind ≡ First) × (caller.new.frames.hand.kind ≡ First) }
    ensures others { (caller.new.jobs.hand.others ≡ caller.old.jobs.hand.others - 1)
        × (caller.new.frames.hand.others ≡ caller.old.frames.hand.others - 1) }
    ensures caller { (ms : List (List ℕ)) →
        IsCaller (answering (W.owed context.now.work.now) W.DEFERS) ms caller.old.jobs.hand caller.old.frames.hand →
        IsCaller (answering (W.owed context.now.work.now) W.DEFERS) ms caller.new.jobs.hand caller.new.frames.hand }
{
    let (job_pass, frame_pass) = worker.join(context.rt);
    context.jobs.join(&mut caller.jobs, job_pass);
    context.frames.join(&mut caller.frames, frame_pass);
}

/// Joins the workers.
pub(crate) fn join_workers<W: Work, R: Threads>(
    context: &RunContext<R, W>,
    caller: &mut Caller,
    workers: Vec<Worker<W>>,
)
    requires lines { CallerOn context.now.jobs.now context.now.frames.now caller.old }
    requires first { (caller.old.jobs.hand.kind ≡ First) × (caller.old.frames.hand.kind ≡ First) }
    requires promises { All (λ h. PromisesFor context.now.work.now context.now.jobs.now context.now.frames.now h.promise) workers.items }
    requires others { (caller.old.jobs.hand.others ≡ vec_len workers)
        × (caller.old.frames.hand.others ≡ 1 + vec_len workers) }
    ensures lines { CallerOn context.now.jobs.now context.now.frames.now caller.new }
    ensures first { (caller.new.jobs.hand.kind ≡ First) × (caller.new.frames.hand.kind ≡ First) }
    ensures others { (caller.new.jobs.hand.others ≡ 0) × (caller.new.frames.hand.others ≡ 1) }
    ensures caller { (ms : List (List ℕ)) →
        IsCaller (answering (W.owed context.now.work.now) W.DEFERS) ms caller.old.jobs.hand caller.old.frames.hand →
        IsCaller (answering (W.owed context.now.work.now) W.DEFERS) ms caller.new.jobs.hand caller.new.frames.hand }
{
    for worker in workers {
        join_one(context, caller, worker);
    }
}

/// Starts the sender, where it may be started. Where it can't be, what it was lent comes back.
pub(crate) fn start_sender<'s, 'a: 's, E, K: Sink + Send, R: Threads + Wait + Sync>(
    scope: &Scope<'s, E>,
    rt: &'s R,
    frames: &'s Line<Parcel>,
    lent: LentRelay<'a, K>,
    no_more: &'s AtomicBool,
    may_start: bool,
) -> Result<Sender<'a, K>, LentRelay<'a, K>>
    requires line { lent.pass.line ≡ frames.now }
    requires hand { lent.pass.hand ≡ hand Inner 0 [] [] }
    ensures started { MatchResult result
        (λ h. (h.promise.lent.value ≡ lent.entry) × (h.promise.frames.value ≡ frames.now))
        (λ r. (r.relay.ghost_name ≡ lent.entry.relay.ghost_name) × (r.pass.line ≡ frames.now)
        × IsRelayed r.pass.hand (relay_of lent.entry.relay.now.outlet lent.entry.relay.now.book)
        (relay_of r.relay.now.outlet r.relay.now.book)) }
    ensures allowed { IfOk result (λ h. may_start ≡ true) }
{
    let promise = SenderPromise {
        lent: Snapshot::of(&lent),
        frames: Snapshot::of(frames),
    };
    let sender = move || -> LentRelay<K>
        requires { (lent.pass.line ≡ frames.now) × (lent.pass.hand ≡ hand Inner 0 [] []) }
        ensures { (result.relay.ghost_name ≡ lent.entry.relay.ghost_name) × (result.pass.line ≡ frames.entry.now)
            × IsRelayed result.pass.hand (relay_of lent.entry.relay.now.outlet lent.entry.relay.now.book)
            (relay_of result.relay.now.outlet result.relay.now.book) }
    { serve_sink(rt, frames, lent, no_more) };
    let started = if may_start {
        scope.spawn_with(promise, sender)
    } else {
        Err(SpawnError { value: sender })
    };
    match started {
        Ok(handle) => Ok(handle),
        Err(refused) => {
            no_more.store(true, Ordering::SeqCst);
            Err((refused.value)())
        }
    }
}
