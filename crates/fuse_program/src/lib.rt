//! What the program does with its words, its input and its output: it serves a small tree of files, writes messages to send
//! to it, or serves these from memory and says what that came to.
//! The program relies on this: what it writes is what the messages that it read are owed, and its status says how it ended.
#![tactic(auto)]

mod arguments;
pub mod laws;
mod load;
mod program;
mod status;

pub use arguments::{GenForm, LoadForm, ServeForm, gen_form, load_form, serve_form};
pub use program::{Served, run, serve};
pub use status::failure_status;
