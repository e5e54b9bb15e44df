// The verdict on a message after the handshake.
ghost use Rattle.std.specs.Prelude.{◌≡◌, ℕ};
ghost use Rattle.fuse_header.specs.Header.{header_fields};
ghost use Rattle.fuse_request.specs.Operation.{plain};
ghost use Rattle.fuse_dispatch.specs.Decided.{AsksFor, Decides, IsOf};
ghost use Rattle.fuse_dispatch.specs.Verdict.{fixed_error, is_forget, served, terms, verdict};

use crate::Verdict;
use crate::access::{AccessRule, Terms};
use fuse_config::SessionACL;
use fuse_loop::Incoming;
use fuse_request::{AnyRequest, Operation};
use fuse_wire::{Errno, InitFlags};

/// The error of an operation that no filesystem is asked.
fn fixed_error(operation: &Operation<'_>) -> Option<Errno>
    ensures { result ≡ fixed_error (plain operation.now) }
{
    match operation {
        Operation::Init(_) => Some(Errno::EIO),
        Operation::NotifyReply(_) | Operation::CuseInit(_) => Some(Errno::ENOSYS),
        Operation::IoCtl(ioctl) => ioctl.unrestricted().then_some(Errno::ENOSYS),
        Operation::Read(read) => read.offset().err(),
        Operation::Write(write) => write.offset().err(),
        Operation::FAllocate(range) => range.offset().err().or(range.len().err()),
        Operation::CopyFileRange(range) => range.src().err().or(range.dest().err()),
        _ => None,
    }
}

/// Whether it is a forget, which leaves a note.
fn is_forget(operation: &Operation<'_>) -> bool
    ensures { result ≡ is_forget (plain operation.now) }
{
    matches!(operation, Operation::Forget(_) | Operation::BatchForget(_))
}

/// The verdict on an operation of a user who is served.
fn judge(operation: Operation<'_>) -> Verdict<'_>
    ensures decides { (node : ℕ) → Decides node result (served node (plain operation.entry)) }
    ensures same { IsOf result operation.entry }
{
    if let Some(error) = fixed_error(&operation) {
        return Verdict::Fixed(error);
    }
    if is_forget(&operation) {
        return Verdict::Forget(operation);
    }
    match operation {
        Operation::Destroy(_) => Verdict::Ends,
        other => Verdict::Call(other),
    }
}

/// The verdict on a message after the handshake, of a session of this owner that serves these users and whose handshake
/// granted these capabilities. It asks no filesystem and takes no memory. The first of these that applies:
///
/// - a header that is not good: `Broken`;
/// - DESTROY: `Ends`;
/// - what does not decode under these capabilities: ENOSYS, whoever sends it;
/// - a user who is not served: EACCES. INIT, DESTROY, READ, WRITE, READDIR, READDIRPLUS, FSYNC, FSYNCDIR, RELEASE,
///   RELEASEDIR, FORGET and BATCH_FORGET pass, whoever sends them;
/// - another INIT: EIO;
/// - NOTIFY_REPLY, CUSE_INIT, and an IOCTL that is not restricted: ENOSYS;
/// - an offset or a length that is in no file, of READ, WRITE, FALLOCATE or COPY_FILE_RANGE: EINVAL;
/// - FORGET and BATCH_FORGET: `Forget`;
/// - all else: `Call`.
pub fn verdict(acl: SessionACL, owner: u32, granted: InitFlags, message: &[u8]) -> Verdict<'_>
    ensures decides { Decides (header_fields message.now).nodeid.0 result (verdict (terms acl owner granted) message.now) }
    ensures operation { AsksFor result granted.0 message.now }
{
    match Incoming::of(message) {
        Incoming::Broken(error) => return Verdict::Broken(error),
        Incoming::Destroy(_) => return Verdict::Ends,
        Incoming::Request => {}
    }
    let request = AnyRequest::from_checked(message);
    let rule = AccessRule { acl, owner };
    match (Terms { rule, granted }).operation(&request) {
        Ok(operation) => judge(operation),
        Err(error) => Verdict::Fixed(error),
    }
}
