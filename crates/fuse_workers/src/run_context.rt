// What the threads of a run that answer requests have in common.
use fuse_line::Line;
use fuse_loop::RequestJob;
use fuse_reply::Parcel;

/// What the caller and each worker of a run work with, but for their passes: the runtime, what answers requests, and both
/// lines. Of these the sender is lent two: the runtime and the line of frames.
#[derive(Drop)]
pub(crate) struct RunContext<'s, R, W> {
    /// The runtime.
    pub rt: &'s R,
    /// What answers requests.
    pub work: &'s W,
    /// The line of jobs, from the caller to the workers.
    pub jobs: &'s Line<RequestJob>,
    /// The line of frames, to whoever sends.
    pub frames: &'s Line<Parcel>,
}
