// A request that is served.
ghost use Rattle.std.specs.Prelude.{◌≡◌};
ghost use Rattle.fuse_reply.specs.Answer.Answer.{Empty, Error};
ghost use Rattle.fuse_reply.specs.Frame.{reply};
ghost use Rattle.fuse_reply.specs.declared.out.Out.{Out};

use crate::error_reply::refusal;
use fuse_loop::destroy_reply;
use fuse_reply::Out;
use fuse_request::Request;
use fuse_wire::{Errno, INodeNo, RequestId};
use std::alloc::Global;

/// A request whose user is served: what its call is made of beside its operation, and what its reply is made with.
#[derive(Clone, Copy)]
pub(crate) struct Asked {
    pub(crate) alloc: Global,
    pub(crate) id: RequestId,
    pub(crate) node: INodeNo,
    pub(crate) request: Request,
}

impl Asked {
    /// The reply of an error. It is called, since with it in each arm the table would be too large to be inlined.
    pub(crate) fn refusal(&self, error: Errno) -> Out
        ensures { result ≡ Out.Frame (reply self.now.id.0 (Error error)) }
    {
        refusal(self.alloc, self.id, error)
    }

    /// The reply to DESTROY.
    #[inline(always)]
    pub(crate) fn destroy_reply(&self) -> Out
        ensures { result ≡ Out.Frame (reply self.now.id.0 Empty) }
    {
        destroy_reply(self.alloc, self.id)
    }
}
