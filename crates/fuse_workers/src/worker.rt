// A worker, which answers jobs in a thread of its own.
ghost use Rattle.std.specs.Prelude.{◌≡◌, []};
ghost use Rattle.fuse_line.specs.Hand.{hand};
ghost use Rattle.fuse_line.specs.declared.hand.Kind.TheVariants.{Inner};
ghost use Rattle.fuse_reply.specs.declared.out.Out.{Out as Goes};
ghost use Rattle.fuse_reply.specs.declared.parcel.Parcel.TheVariants.{Prompt};
ghost use Rattle.fuse_workers.specs.Answered.{IsServed};
ghost use Rattle.fuse_loop.specs.Answering.{answering};

use crate::run_context::RunContext;
use fuse_line::Pass;
use fuse_loop::{Answerer, RequestJob, Work};
use fuse_reply::Parcel;
use std::sync::Wait;
use std::sync::atomic::AtomicBool;

/// Answers a job.
pub(crate) fn answer_job<R: Wait + AllocGlobal, W: Work>(
    context: &RunContext<R, W>,
    answerer: &mut Answerer,
    job: RequestJob,
) -> Parcel
    ensures answered { (out : Goes) × (result ≡ Prompt job.seq out)
        × answering (W.owed context.now.work.now) W.DEFERS job.seq job.message out }
    ensures line { answerer.new.notifier.line ≡ answerer.old.notifier.line }
{
    let seq = job.seq();
    let out = answerer.answer(context.rt, context.work, seq, job.message());
    Parcel::Prompt(seq, out)
}

/// Answers jobs, until there is none left once it was told that no more come.
pub(crate) fn answer_jobs<R: Wait + AllocGlobal, W: Work>(
    context: &RunContext<R, W>,
    mut job_pass: Pass<RequestJob>,
    mut frame_pass: Pass<Parcel>,
    mut answerer: Answerer,
    no_more: &AtomicBool,
) -> (Pass<RequestJob>, Pass<Parcel>)
    requires lines { (job_pass.line ≡ context.now.jobs.now) × (frame_pass.line ≡ context.now.frames.now) }
    requires hands { (job_pass.hand ≡ hand Inner 0 [] []) × (frame_pass.hand ≡ hand Inner 0 [] []) }
    requires answerer { answerer.notifier.line ≡ context.now.frames.now }
    ensures lines { (result.0.line ≡ context.now.jobs.now) × (result.1.line ≡ context.now.frames.now) }
    ensures served { IsServed (answering (W.owed context.now.work.now) W.DEFERS) result.0.hand result.1.hand }
{
    let (rt, jobs, frames) = (context.rt, context.jobs, context.frames);
    for _ in rt.forever() {
        let Some(job) = jobs.pop_waiting(rt, &mut job_pass, no_more) else {
            break;
        };
        let parcel = answer_job(context, &mut answerer, job);
        frames.push_waiting(rt, &mut frame_pass, parcel);
    }
    (job_pass, frame_pass)
}
