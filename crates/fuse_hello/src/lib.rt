//! The small tree of files that the program serves; the messages to it that a seed gives, written or kept in memory; and
//! a store that counts what they come to.
//! The program relies on this: each call to the tree has one answer, and a seed and a count give one stream.
#![tactic(auto)]

mod frame_store;
mod generator;
mod hello;
mod stored_messages;
mod summary;

pub use frame_store::FrameStore;
pub use generator::write_stream;
pub use hello::Hello;
pub use stored_messages::StoredMessages;
pub use summary::Summary;
