// How a run ended.
use crate::{Buffers, Transcript};
use fuse_header::RequestError;

/// How a run ended.
#[derive(Clone, Copy, Debug)]
pub enum End {
    /// No message is left.
    Gone,
    /// The last message was DESTROY.
    Destroyed,
    /// The last message has no good header.
    Broken(RequestError),
    /// The source failed.
    Failed,
}

/// The end of a run. It hands back what the run was given.
#[derive(Drop)]
pub struct RunEnd<S, K> {
    /// How it ended.
    pub end: End,
    /// What the run did, in numbers.
    pub transcript: Transcript,
    /// The source, with the messages that were not taken.
    pub source: S,
    /// The sink, with the frames and notes that it took.
    pub sink: K,
    /// The memory, on whose lines no job and no reply waits.
    pub buffers: Buffers,
}
