//! Filesystems that are only read. `Files` is a tree of files as plain functions, and `ReadOnly` serves it: whoever
//! writes the tree proves nothing more than these, and may rely on this: each call has the answer that
//! `specs/ReadOnly.antt` gives for that tree, or ENOMEM where a long one finds no memory, and nothing is ever changed.
//! What lists a directory and cuts out what is read is there for filesystems of one's own too.
#![tactic(auto)]

mod files;
mod listing;
mod read_only;

pub use files::{Entry, Files};
pub use listing::add_entries;
pub use read_only::{ReadOnly, part};
