// A job on its way to a worker.
ghost use Rattle.std.specs.Prelude.{◌≡◌, ◌≤◌, IfOk, IsOk, length, true};
ghost use Rattle.fuse_loop.specs.Answering.{IsRequest, job_of};
ghost use Rattle.fuse_loop.specs.declared.request_job.TheConstants.{INLINE_MESSAGE};

use fuse_line::Class;
use fuse_wire::NoMemory;
use smallvec::SmallVec;
use std::alloc::Global;
use std::marker::Model;

/// Messages of up to so many bytes are copied into their place on the line itself.
pub(crate) const INLINE_MESSAGE: usize = 128;

/// A job on its way to a worker. A contract sees it as a job, whose message is a request, always.
#[derive(Drop)]
pub struct RequestJob {
    seq: u64,
    message: SmallVec<u8, INLINE_MESSAGE>,
}

impl Model for RequestJob {
    ghost use Rattle.fuse_loop.specs.Answering.{IsRequest, job_of};
    ghost use Rattle.fuse_core.specs.declared.state.Job.{Job};

    ghost Value = { Job };

    ghost view = { λ j. job_of j.seq j.message.items };

    ghost invariant = { λ j. IsRequest j.message.items };
}

/// Each is an inner item: only whoever serves has a pass that may push one.
impl Class for RequestJob {
    ghost is_inner = { λ _. true };

    fn inner(&self) -> bool {
        true
    }
}

impl RequestJob {
    /// A job of a copy of this request. A short one takes no memory.
    pub fn copied(alloc: Global, seq: u64, message: &[u8]) -> Result<RequestJob, NoMemory>
        requires { IsRequest message.now }
        ensures ok { IfOk result (λ job. job ≡ job_of seq message.now) }
        ensures inline { length message.now ≤ INLINE_MESSAGE → IsOk result }
    {
        let message = SmallVec::from_slice(alloc, message)?;
        Ok(RequestJob { seq, message })
    }

    /// The message's number.
    pub fn seq(&self) -> u64
        ensures { result ≡ self.now.seq }
    {
        self.seq
    }

    /// The message.
    pub fn message(&self) -> &[u8]
        ensures message { result.now ≡ self.now.message }
        ensures request { IsRequest result.now }
    {
        self.message.as_slice()
    }
}
