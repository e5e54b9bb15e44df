//! How a crate of one's own uses the library: a tree with one file, and a session of it, which only reads it; and a
//! filesystem whose file can be written.
//! Whoever reads this may rely on it: every answer is the one that `fuse_read_only` promises for the tree `one_file` of
//! `specs/OneFile.antt`.
#![tactic(auto)]

mod note;
mod notepad;
mod notepad_listing;
mod notepad_nodes;
mod one_file;
mod session;

pub use notepad::Notepad;
pub use one_file::OneFile;
pub use session::serve_one_file;
