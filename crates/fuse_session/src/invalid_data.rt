// What is wrong with a message.
use fuse_request::RequestError;

/// What is wrong with the message that was taken last.
#[derive(Clone, Copy, Debug, PartialEq, Eq)]
pub enum InvalidData {
    /// It has no good header. Nothing was sent for it.
    Header(RequestError),
    /// It does not decode, and came where INIT was awaited. Nothing was sent for it.
    Operation(RequestError),
    /// It has this opcode, and came where INIT was awaited. The error EIO was sent.
    NotInit(u32),
}
