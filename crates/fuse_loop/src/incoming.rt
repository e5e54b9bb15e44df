// What a message after the handshake is to the event loop.
ghost use Rattle.fuse_loop.specs.Arrives.{Arrives};

use fuse_header::opcode::FUSE_DESTROY;
use fuse_header::{Header, RequestError};
use fuse_wire::RequestId;

/// What a message after the handshake is, whoever sends it.
#[derive(Clone, Copy)]
pub enum Incoming {
    /// It has no good header, and ends the run.
    Broken(RequestError),
    /// It is DESTROY, which ends the run, under this id.
    Destroy(RequestId),
    /// It is any other request.
    Request,
}

impl Incoming {
    /// What this message is.
    #[inline(always)]
    pub fn of(message: &[u8]) -> Incoming
        ensures { Arrives result message.now }
    {
        match Header::of(message) {
            Err(error) => Incoming::Broken(error),
            Ok(header) if header.opcode == FUSE_DESTROY => Incoming::Destroy(header.unique),
            Ok(_) => Incoming::Request,
        }
    }
}
