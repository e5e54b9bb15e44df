// What the library fixes about a message.
use fuse_request::{Operation, RequestError};
use fuse_wire::Errno;

/// What the library itself fixes about a message after the handshake, before any filesystem is asked.
#[derive(Drop)]
pub enum Verdict<'a> {
    /// It has no good header, for this reason, and ends the run without a frame.
    Broken(RequestError),
    /// It is DESTROY, which gets an empty reply and ends the run.
    Ends,
    /// It is answered by this error.
    Fixed(Errno),
    /// It is a forget, which leaves a note in place of a frame.
    Forget(Operation<'a>),
    /// The filesystem is asked this, and its answer is the reply.
    Call(Operation<'a>),
}
