//! Answers generated messages, on the thread of its caller or on workers, and says what was counted. `bench/workers`
//! runs it and takes the times.
//!
//! ```text
//! workers_bench PACE WORKERS COUNT COST AMOUNT
//! ```
//!
//! PACE is `paced`, where each message comes once the frame of the one before it was sent, or `free`. WORKERS is a
//! number or `inline`. COST is `sleep` or `steps`, of so many milliseconds or steps for each message.
#![tactic(auto)]

ghost use Rattle.fuse_loop.specs.Lines.{IsUnused};

mod costly;
mod devices;

use costly::{Cost, Costly};
use devices::{Counted, Generated, devices};
use fuse_wire::NoMemory;
use fuse_workers::{Buffers, run_inline, run_workers};
use std::process::ExitCode;
use std::rt::Env;
use std::sync::Wait;
use std::thread::Threads;
use std::time::Clock;
use std::{env, io};

/// What is to be run.
#[derive(Clone, Copy)]
struct Form {
    is_paced: bool,
    workers: Option<usize>,
    count: u64,
    cost: Cost,
}

/// What the words ask for.
fn form_of(words: &[String]) -> Option<Form> {
    let [pace, workers, count, cost, amount] = words else {
        return None;
    };
    let is_paced = match pace.as_str() {
        "paced" => true,
        "free" => false,
        _ => return None,
    };
    let workers = match workers.as_str() {
        "inline" => None,
        number => Some(number.parse().ok()?),
    };
    let amount = amount.parse().ok()?;
    let cost = match cost.as_str() {
        "sleep" => Cost::Sleep(amount),
        "steps" => Cost::Steps(amount),
        _ => return None,
    };
    Some(Form {
        is_paced,
        workers,
        count: count.parse().ok()?,
        cost,
    })
}

/// What was counted of a run over these devices: its messages, the frames that it sent, and the calls of its work.
fn run<R: Threads + Wait + AllocGlobal + Clock + Sync + Copy>(
    rt: &R,
    form: &Form,
    source: Generated,
    sink: Counted,
    buffers: Buffers,
) -> (u64, u64, u64)
    requires { IsUnused buffers }
{
    let work = Costly::new(*rt, form.cost);
    let ran = match form.workers {
        None => run_inline(rt, &work, source, sink, buffers),
        Some(workers) => run_workers(rt, &work, source, sink, buffers, workers),
    };
    let counted = (ran.transcript.received, ran.sink.sent(), work.calls());
    drop(ran);
    counted
}

/// The same over devices and in memory of its own.
fn counted<R: Threads + Wait + AllocGlobal + Clock + Sync + Copy>(
    rt: &R,
    form: &Form,
) -> Result<(u64, u64, u64), NoMemory> {
    let (source, sink) = devices(rt.alloc(), form.count, form.is_paced)?;
    let buffers = Buffers::new(rt.alloc())?;
    Ok(run(rt, form, source, sink, buffers))
}

fn main(rt: HostRuntime) -> io::Result<ExitCode> {
    let mut words = Vec::new(rt.alloc());
    for word in env::args(&rt)?.skip(1) {
        words.push(word)?;
    }
    let Some(form) = form_of(&words) else {
        eprintln!(rt; "workers_bench: paced|free inline|WORKERS COUNT sleep|steps AMOUNT")?;
        return Ok(ExitCode::from(2));
    };
    let Ok((received, frames, calls)) = counted(&rt, &form) else {
        eprintln!(rt; "workers_bench: no memory")?;
        return Ok(ExitCode::FAILURE);
    };
    println!(rt; "{received} messages, {frames} frames, {calls} calls")?;
    Ok(ExitCode::SUCCESS)
}
