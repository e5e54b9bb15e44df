// On what terms messages are answered: whose requests are served, and how a message decodes.
ghost use Rattle.std.specs.Prelude.{◌≡◌, IfOk};
ghost use Rattle.fuse_request.specs.Message.{body_of, header_of};
ghost use Rattle.fuse_request.specs.Decoding.{operation};
ghost use Rattle.fuse_dispatch.specs.Decided.{IsAskedBy, plain_result};
ghost use Rattle.fuse_dispatch.specs.Verdict.{admitted, admitted_operation, always_passes};

use fuse_config::SessionACL;
use fuse_request::opcode::{
    FUSE_BATCH_FORGET, FUSE_DESTROY, FUSE_FORGET, FUSE_FSYNC, FUSE_FSYNCDIR, FUSE_INIT, FUSE_READ,
    FUSE_READDIR, FUSE_READDIRPLUS, FUSE_RELEASE, FUSE_RELEASEDIR, FUSE_WRITE,
};
use fuse_request::{AnyRequest, Operation};
use fuse_wire::{Errno, InitFlags};

/// Whose requests are served.
#[derive(Clone, Copy)]
pub struct AccessRule {
    /// Who is served beside the owner.
    pub acl: SessionACL,
    /// The user whose session it is.
    pub owner: u32,
}

/// The terms on which the messages after the handshake are answered.
#[derive(Clone, Copy)]
pub struct Terms {
    /// Whose requests are served.
    pub rule: AccessRule,
    /// The capabilities that the handshake granted: a message decodes as they say.
    pub granted: InitFlags,
}

/// Whether requests of this opcode pass whoever sends them.
#[inline(always)]
fn always_passes(opcode: u32) -> bool
    ensures { result ≡ always_passes opcode }
{
    matches!(
        opcode,
        FUSE_INIT
            | FUSE_DESTROY
            | FUSE_FORGET
            | FUSE_READ
            | FUSE_WRITE
            | FUSE_RELEASE
            | FUSE_FSYNC
            | FUSE_READDIR
            | FUSE_RELEASEDIR
            | FUSE_FSYNCDIR
            | FUSE_BATCH_FORGET
            | FUSE_READDIRPLUS
    )
}

impl AccessRule {
    /// Whether a request of this user and opcode is served.
    #[inline(always)]
    pub(crate) fn admits(self, uid: u32, opcode: u32) -> bool
        ensures { result ≡ admitted self.acl self.owner uid opcode }
    {
        match self.acl {
            SessionACL::All => true,
            SessionACL::RootAndOwner => uid == 0 || uid == self.owner || always_passes(opcode),
            SessionACL::Owner => uid == self.owner || always_passes(opcode),
        }
    }
}

impl Terms {
    /// The operation of a request whose user is served. ENOSYS where it does not decode, whoever sends it, and EACCES
    /// where its user is not served.
    #[inline(always)]
    pub(crate) fn operation<'a>(self, request: &AnyRequest<'a>) -> Result<Operation<'a>, Errno>
        ensures admitted { plain_result result ≡ admitted_operation self.rule (header_of request.now)
            (operation self.granted.0 (header_of request.now).opcode (body_of request.now)) }
        ensures asked { IfOk result (IsAskedBy self.granted.0 (header_of request.now) (body_of request.now)) }
    {
        let operation = match request.operation_with(self.granted) {
            Ok(operation) => operation,
            Err(_) => return Err(Errno::ENOSYS),
        };
        if !self.rule.admits(request.uid(), request.opcode()) {
            return Err(Errno::EACCES);
        }
        Ok(operation)
    }
}
