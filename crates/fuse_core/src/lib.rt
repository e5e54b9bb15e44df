//! What several workers may do, one step after another, over plain lists and with no thread in it, and the book of replies
//! that come later: the marks of messages that are answered later, and their late frames.
//! The layers above rely on this: each step leaves each message in one place, so that what was sent is owed to
//! different messages; and a late frame goes only to a mark of its own, with its number and id.
#![tactic(auto)]

mod book;
pub mod book_laws;
mod copied;
mod event;
pub mod laws;
mod lists;
mod marks;
mod state;
mod stepping;
mod unmatched;

pub use book::Book;
pub use event::Event;
pub use state::{Job, LINE_PLACES, Mark, SentOut, State, WorkerHand};
pub use stepping::{run, step};
