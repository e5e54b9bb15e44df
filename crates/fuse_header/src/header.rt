// The header of a message, and its body.
ghost use Rattle.std.specs.Prelude.{◌≡◌, ◌≤◌, Ok, IsOk, length};
ghost use Rattle.fuse_header.specs.Header.{body, header, header_fields, request_of};

use crate::{Request, RequestError};
use fuse_wire::consts::REQUEST_HEADER_SIZE;
use fuse_wire::{INodeNo, RequestId, u32_at, u64_at};

/// What stands in front of every message: `struct fuse_in_header`.
#[derive(Clone, Copy)]
pub struct Header {
    /// The number of the operation.
    pub opcode: u32,
    /// The number of the request.
    pub unique: RequestId,
    /// The inode that it is about.
    pub nodeid: INodeNo,
    /// The user on whose behalf it is made.
    pub uid: u32,
    /// The group of the caller, as for access to files (`fsgid`).
    pub gid: u32,
    /// The number of the calling thread, as the mount's namespace has it, or 0 where it has none there.
    pub pid: u32,
}

/// The header's fields.
#[inline(always)]
fn header_at(message: &[u8]) -> Header
    requires { 40 ≤ length message.now }
    ensures { result ≡ header_fields message.now }
{
    Header {
        opcode: u32_at(message, 4),
        unique: RequestId(u64_at(message, 8)),
        nodeid: INodeNo(u64_at(message, 16)),
        uid: u32_at(message, 24),
        gid: u32_at(message, 28),
        pid: u32_at(message, 32),
    }
}

impl Header {
    /// The header of a message. What follows the bytes that it counts is ignored.
    ///
    /// `ShortReadHeader` where the message is shorter than a header, `ShortRead` where it is shorter than its header
    /// says, and `InsufficientData` where its header says fewer bytes than a header has.
    #[inline(always)]
    pub fn of(message: &[u8]) -> Result<Header, RequestError>
        ensures { result ≡ header message.now }
    {
        if message.len() < REQUEST_HEADER_SIZE {
            return Err(RequestError::ShortReadHeader(message.len()));
        }
        let len = u32_at(message, 0) as usize;
        if message.len() < len {
            return Err(RequestError::ShortRead(message.len(), len));
        }
        if len < REQUEST_HEADER_SIZE {
            return Err(RequestError::InsufficientData);
        }
        Ok(header_at(message))
    }

    /// The header of a message that is known to have a good one, as `of` gives it. It is checked no more.
    #[inline(always)]
    pub fn from_checked(message: &[u8]) -> Header
        requires { IsOk (header message.now) }
        ensures { header message.now ≡ Ok result }
    {
        header_at(message)
    }

    /// Who asks.
    pub fn request(&self) -> Request
        ensures { result ≡ request_of self.now }
    {
        Request {
            unique: self.unique,
            uid: self.uid,
            gid: self.gid,
            pid: self.pid,
        }
    }
}

/// The body of a message that is known to have a good header: the bytes after the header that it counts.
#[inline(always)]
pub fn body(message: &[u8]) -> &[u8]
    requires { IsOk (header message.now) }
    ensures { result.now ≡ body message.now }
{
    let len = u32_at(message, 0) as usize;
    &message[REQUEST_HEADER_SIZE..len]
}
