//! A bounded line of items that threads share. Each thread has a pass, which knows what it pushed and what it took.
//! Nothing is lost and nothing comes twice, whatever the threads do. A push and a pop take no memory, and wait for no
//! more than another thread's step; a thread that finds the line empty or full can sleep until it has moved.
#![tactic(auto)]

mod class;
mod gate;
mod hand;
pub mod laws;
mod line;
mod moves;
mod pass;
#[cfg(test)]
mod tests;

pub use class::Class;
pub use hand::{Hand, Kind};
pub use line::{Full, Line, LineEmpty, LineFull};
pub use pass::Pass;
