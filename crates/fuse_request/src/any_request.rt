// A message taken apart.
ghost use Rattle.std.specs.Prelude.{◌≡◌, Ok, IsOk};
ghost use Rattle.fuse_header.specs.Header.{header, request_of};
ghost use Rattle.fuse_request.specs.Decoding.{Is, Keeps, operation};
ghost use Rattle.fuse_request.specs.Message.{Decodes, body_of, header_of};

use crate::Operation;
use crate::decoding::{destroy_to_cuse_init, init_to_bmap, lookup_to_link, open_to_flush};
use bitflags::Flags;
use fuse_header::opcode::{FUSE_DESTROY, FUSE_INIT, FUSE_OPEN};
use fuse_header::{Header, Request, RequestError, body};
use fuse_wire::{INodeNo, InitFlags, RequestId};

/// A message with a good header, whose body is borrowed from it.
#[derive(Clone, Copy)]
pub struct AnyRequest<'a> {
    header: Header,
    body: &'a [u8],
}

impl<'a> AnyRequest<'a> {
    /// Takes a message apart. What follows the bytes that its header counts is ignored.
    ///
    /// `ShortReadHeader` where the message is shorter than a header, `ShortRead` where it is shorter than its header
    /// says, and `InsufficientData` where its header says fewer bytes than a header has.
    #[inline(always)]
    pub fn try_from(message: &'a [u8]) -> Result<AnyRequest<'a>, RequestError>
        ensures { Decodes result message.now }
    {
        match Header::of(message) {
            Ok(header) => Ok(AnyRequest {
                header,
                body: body(message),
            }),
            Err(error) => Err(error),
        }
    }

    /// Takes a message apart whose header is known to be good, as `try_from` does, and checks it no more.
    #[inline(always)]
    pub fn from_checked(message: &'a [u8]) -> AnyRequest<'a>
        requires { IsOk (header message.now) }
        ensures { Decodes (Ok result) message.now }
    {
        AnyRequest {
            header: Header::from_checked(message),
            body: body(message),
        }
    }

    /// The number of the request.
    pub fn unique(&self) -> RequestId
        ensures { result ≡ (header_of self.now).unique }
    {
        self.header.unique
    }

    /// The inode that it is about.
    pub fn nodeid(&self) -> INodeNo
        ensures { result ≡ (header_of self.now).nodeid }
    {
        self.header.nodeid
    }

    /// The user on whose behalf it is made.
    pub fn uid(&self) -> u32
        ensures { result ≡ (header_of self.now).uid }
    {
        self.header.uid
    }

    /// The group of the caller, as for access to files (`fsgid`).
    pub fn gid(&self) -> u32
        ensures { result ≡ (header_of self.now).gid }
    {
        self.header.gid
    }

    /// The number of the calling thread, as the mount's namespace has it, or 0 where it has none there.
    pub fn pid(&self) -> u32
        ensures { result ≡ (header_of self.now).pid }
    {
        self.header.pid
    }

    /// The number of the operation.
    pub fn opcode(&self) -> u32
        ensures { result ≡ (header_of self.now).opcode }
    {
        self.header.opcode
    }

    /// Who asks.
    pub fn request(&self) -> Request
        ensures { result ≡ request_of (header_of self.now) }
    {
        self.header.request()
    }

    /// What is asked where no capability was granted, as in the handshake: see `operation_with`.
    pub fn operation(&self) -> Result<Operation<'a>, RequestError>
        ensures operation { Is result (operation 0 (header_of self.now).opcode (body_of self.now)) }
        ensures node { Keeps result (header_of self.now).nodeid }
    {
        self.operation_with(InitFlags::empty())
    }

    /// What is asked in a session whose handshake granted these capabilities: where `FUSE_SETXATTR_EXT` is among them
    /// the fixed part of SETXATTR has 16 bytes, and else 8. An operation that has a place in the node of the request
    /// keeps that node.
    ///
    /// `UnknownOperation` where no operation has the opcode, and `InsufficientData` where the body is cut short, or the
    /// value of WRITE or SETXATTR is not as long as its fixed part says.
    #[inline(always)]
    pub fn operation_with(&self, granted: InitFlags) -> Result<Operation<'a>, RequestError>
        ensures operation { Is result (operation granted.0 (header_of self.now).opcode (body_of self.now)) }
        ensures node { Keeps result (header_of self.now).nodeid }
    {
        let Header { opcode, nodeid, .. } = self.header;
        if opcode < FUSE_OPEN {
            return lookup_to_link(opcode, nodeid, self.body);
        }
        if opcode < FUSE_INIT {
            return open_to_flush(granted, opcode, self.body);
        }
        if opcode < FUSE_DESTROY {
            return init_to_bmap(opcode, self.body);
        }
        destroy_to_cuse_init(opcode, nodeid, self.body)
    }
}
