//! Answering messages on several threads: the caller takes them and pushes them as jobs, each worker answers the jobs that
//! it takes, and the sender hands on what goes out, a late frame as its mark lets it go. `run_workers` starts the threads,
//! lends them what they need, and joins them. The run on one thread, in `fuse_loop`, and the pure core of several workers, in
//! `fuse_core`, are had from here too.
//! The layers above rely on this: what was sent for the messages that were taken is what they are owed, one frame or
//! note each.
#![tactic(auto)]

mod alone;
mod caller;
mod closing;
pub mod laws;
mod lent;
mod relay;
mod run_context;
mod sender;
mod starter;
mod stopped;
mod taking;
mod threads;
mod worker;
mod workers;

pub use fuse_core::{Event, Job, LINE_PLACES, Mark, SentOut, State, WorkerHand, run, step};
pub use fuse_loop::{Buffers, End, RunEnd, Transcript, Work, run_inline};
pub use starter::{Starter, SystemStarter};
pub use threads::MOST_WORKERS;
pub use workers::{run_workers, run_workers_by};
