// Why no more messages are taken.
ghost use Rattle.std.specs.Prelude.{◌≡◌};
ghost use Rattle.fuse_workers.specs.Hearing.{end_of};

use fuse_header::RequestError;
use fuse_loop::End;
use fuse_wire::RequestId;

/// Why no more messages are taken.
#[derive(Clone, Copy)]
pub(crate) enum Stopped {
    /// No message is left.
    Gone,
    /// The last message was DESTROY, of this number and id.
    Destroy(u64, RequestId),
    /// The last message has no good header.
    Broken(RequestError),
    /// The source failed.
    Failed,
}

impl Stopped {
    /// How the run ended.
    pub(crate) fn end(self) -> End
        ensures { result ≡ end_of self }
    {
        match self {
            Stopped::Gone => End::Gone,
            Stopped::Destroy(_, _) => End::Destroyed,
            Stopped::Broken(error) => End::Broken(error),
            Stopped::Failed => End::Failed,
        }
    }
}
