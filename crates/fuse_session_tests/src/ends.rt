// How a session ends, as plain data.
use fuse_request::RequestError;
use fuse_session::{InvalidData, SessionError};
use fuse_wire::Version;

/// How a session ends. What is not Fine is the error of this name, or an `InvalidData`.
#[derive(Clone, Copy)]
pub(crate) enum End {
    Fine,
    Conflict(usize, usize),
    AutoUnmount,
    CloneFd,
    NotConnected,
    Header(RequestError),
    Operation(RequestError),
    NotInit(u32),
    Unsupported(u32, u32),
    Threads,
    Receive,
}

/// The outcome of a session that ends so.
pub(crate) fn outcome_of(end: End) -> Result<(), SessionError> {
    let error = match end {
        End::Fine => return Ok(()),
        End::Conflict(first, second) => SessionError::Conflict { first, second },
        End::AutoUnmount => SessionError::AutoUnmount,
        End::CloneFd => SessionError::CloneFd,
        End::NotConnected => SessionError::NotConnected,
        End::Header(error) => SessionError::InvalidData(InvalidData::Header(error)),
        End::Operation(error) => SessionError::InvalidData(InvalidData::Operation(error)),
        End::NotInit(opcode) => SessionError::InvalidData(InvalidData::NotInit(opcode)),
        End::Unsupported(major, minor) => SessionError::Unsupported(Version(major, minor)),
        End::Threads => SessionError::Threads,
        End::Receive => SessionError::Receive,
    };
    Err(error)
}
