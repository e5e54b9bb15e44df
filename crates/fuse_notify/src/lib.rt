//! Notices: what a filesystem tells the kernel unasked.
//! The layers above rely on this: what a call queues or delivers is the frame of the notice of its arguments, and a
//! call that answers an error queues nothing.
#![tactic(auto)]

mod delivery;
pub mod laws;
mod notice;
mod notifier;
mod payloads;
mod poll_notifier;

pub use delivery::{Undelivered, deliver};
pub use notice::{Notice, NoticeError};
pub use notifier::{Notifier, NotifyError};
pub use poll_notifier::{Notified, PollNotifier};
