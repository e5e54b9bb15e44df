//! What stands in front of every message, and who asks. Nothing is copied out of a message but numbers.
//! The layers above rely on this: a message has a header exactly where the definition says so, and the one that it says.
#![tactic(auto)]

mod error;
mod header;
pub mod laws;
pub mod opcode;
mod request;

pub use error::RequestError;
pub use header::{Header, body};
pub use request::Request;
