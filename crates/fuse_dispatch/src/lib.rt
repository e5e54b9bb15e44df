//! The trait of a filesystem, the verdict on each message, and what asks a filesystem: each operation by its own method,
//! with the arguments as they were sent. The layers above rely on this: what answers a request is what its message is
//! owed, the frame that its verdict fixes, or an answer that the filesystem's promise allows for exactly that request.
#![tactic(auto)]

mod access;
mod asked;
mod asking;
mod decision;
pub mod defaults;
mod dispatch;
mod error_reply;
mod filesystem;
mod giving;
mod handler;
mod judge;

pub use access::{AccessRule, Terms};
pub use asking::Asking;
pub use decision::Verdict;
pub use dispatch::{Service, Shared};
pub use error_reply::refusal;
pub use filesystem::Filesystem;
pub use judge::verdict;
