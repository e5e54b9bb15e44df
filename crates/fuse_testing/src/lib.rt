//! What tests of several crates share: messages and frames, byte by byte, and the plain data that stands for them; and a
//! filesystem over the few methods that one of a test has of its own, which is told of each call.
#![tactic(auto)]

mod argument;
mod probe;
mod probing;
pub mod test_messages;

pub use argument::Argument;
pub use probe::Probe;
pub use probing::Probing;
