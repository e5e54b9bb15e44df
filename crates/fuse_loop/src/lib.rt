//! Answering messages one after another: the work that answers them, the lines and the devices of a run with its counts,
//! and the run on one thread. What a run on several threads is made of stands here too, and the threads in `fuse_workers`.
//! The layers above rely on this: what was sent for the messages that were taken is what they are owed, in order.
#![tactic(auto)]

mod answerer;
mod buffers;
mod channel;
mod doors;
mod end;
mod ending;
mod event_loop;
mod incoming;
mod intake;
pub mod laws;
mod outlet;
mod request_job;
mod run_line;
mod taken;
mod transcript;
mod work;

pub use answerer::Answerer;
pub use buffers::{Buffers, Lines};
pub use channel::Channel;
pub use doors::Doors;
pub use end::{End, RunEnd};
pub use ending::Ending;
pub use event_loop::{destroy_reply, run_inline};
pub use incoming::Incoming;
pub use intake::Intake;
pub use outlet::Outlet;
pub use request_job::RequestJob;
pub use run_line::RunLine;
pub use taken::Taken;
pub use transcript::Transcript;
pub use work::Work;
