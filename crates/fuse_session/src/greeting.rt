// What the library makes of a message in the handshake.
ghost use Rattle.std.specs.Prelude.{◌≡◌, option_map};
ghost use Rattle.fuse_request.specs.Message.{header_of};
ghost use Rattle.fuse_request.specs.InitOperation.{arguments_of};
ghost use Rattle.fuse_request.specs.Operation.{plain};
ghost use Rattle.fuse_session.specs.Handshake.{IsSpoken, greeting, greeting_by_version, init_of};

use crate::InvalidData;
use fuse_request::{AnyRequest, Init, Operation, Request};
use fuse_wire::consts::FUSE_KERNEL_VERSION;
use fuse_wire::{Errno, InitFlags, RequestId, Version};

/// The first minor version of the protocol's major version that is spoken.
const LEAST_MINOR_VERSION: u32 = 6;

/// What a kernel offers to negotiate.
#[derive(Clone, Copy)]
pub(crate) struct Offer {
    /// The capabilities that it offers.
    pub capabilities: InitFlags,
    /// The most bytes that it reads ahead.
    pub max_readahead: u32,
    /// Its version, from 7.6 on.
    pub version: Version,
}

/// Why a message ends a handshake.
#[derive(Clone, Copy)]
pub(crate) enum HandshakeError {
    /// It is no INIT, or no good message at all.
    InvalidData(InvalidData),
    /// It is an INIT of a version below 7.6.
    Unsupported(Version),
    /// The filesystem's `init` answered this error.
    Init(Errno),
}

/// What the library makes of a message in the handshake.
#[derive(Clone, Copy)]
pub(crate) enum Greeting {
    /// It is no good message, and ends the handshake without a frame.
    Silent(InvalidData),
    /// It is an operation of this opcode and no INIT, and ends the handshake with EIO.
    NotInit(RequestId, u32),
    /// It is an INIT of a version below 7.6, and ends the handshake with EPROTO.
    Old(RequestId, Version),
    /// It is an INIT of a later major version, which gets the version reply.
    Newer(RequestId),
    /// It is an INIT that the filesystem is asked about.
    Offered(Request, Offer),
}

/// What an INIT comes to, by its version.
fn greeting_by_version(request: &AnyRequest<'_>, init: &Init) -> Greeting
    ensures greeting { result ≡ greeting_by_version (header_of request.now) (arguments_of init.now) }
    ensures spoken { IsSpoken result }
{
    let version = init.version();
    if version.0 > FUSE_KERNEL_VERSION {
        return Greeting::Newer(request.unique());
    }
    if version.0 < FUSE_KERNEL_VERSION || version.1 < LEAST_MINOR_VERSION {
        return Greeting::Old(request.unique(), version);
    }
    let offer = Offer {
        capabilities: init.capabilities(),
        max_readahead: init.max_readahead(),
        version,
    };
    Greeting::Offered(request.request(), offer)
}

/// The offer of a kernel, where the operation is one.
fn init_of(operation: &Operation<'_>) -> Option<Init>
    ensures { option_map arguments_of result ≡ init_of (plain operation.now) }
{
    match operation {
        Operation::Init(init) => Some(*init),
        _ => None,
    }
}

impl Greeting {
    /// What the library makes of this message.
    pub(crate) fn of(message: &[u8]) -> Greeting
        ensures greeting { result ≡ greeting message.now }
        ensures spoken { IsSpoken result }
    {
        let request = match AnyRequest::try_from(message) {
            Ok(request) => request,
            Err(error) => return Greeting::Silent(InvalidData::Header(error)),
        };
        let operation = match request.operation() {
            Ok(operation) => operation,
            Err(error) => return Greeting::Silent(InvalidData::Operation(error)),
        };
        match init_of(&operation) {
            Some(init) => greeting_by_version(&request, &init),
            None => Greeting::NotInit(request.unique(), request.opcode()),
        }
    }
}
