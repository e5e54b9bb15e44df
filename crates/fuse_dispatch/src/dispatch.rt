// What a request comes to: an error that the library fixes, or what the filesystem answers.
ghost use Rattle.std.specs.Prelude.{◌≡◌, false};
ghost use Rattle.fuse_header.specs.Header.{header_fields, request_of};
ghost use Rattle.fuse_dispatch.specs.Asked.{ComesBy, IsOwed};
ghost use Rattle.fuse_dispatch.specs.OwedMessage.{OwedMessage-destroy, OwedMessage-destroy-alone, OwedMessage};
ghost use Rattle.fuse_dispatch.specs.Verdict.{verdict};
ghost use Rattle.fuse_loop.specs.Answering.{IsRequest};
ghost use Rattle.fuse_loop.specs.Incoming.{id_of};

use crate::access::Terms;
use crate::asked::Asked;
use crate::error_reply::refusal;
use crate::giving::{AtOnce, ByDoor, Giving};
use crate::handler::Handler;
use fuse_loop::Work;
use fuse_notify::Notifier;
use fuse_reply::{Door, NoDoor, Out};
use fuse_request::{AnyRequest, Operation};
use fuse_wire::Errno;
use std::alloc::Global;
use std::sync::Wait;

/// A handler, for those whom the rule admits. It is what one thread runs: no reply comes after its method has returned.
#[derive(Drop)]
pub struct Service<H> {
    /// The handler.
    pub handler: H,
    /// Whose requests it is asked, and how they decode.
    pub terms: Terms,
}

/// That service as several threads run it: a reply may come after its method has returned, where `DEFERS` of the
/// handler is true and there is a door for it.
#[derive(Drop)]
pub struct Shared<H> {
    /// The service.
    pub service: Service<H>,
}

impl<H: Handler> Service<H> {
    /// What an operation of a user who is served comes to.
    #[inline(always)]
    fn serve<G: Giving>(
        &self,
        asked: &Asked,
        giving: G,
        notifier: &mut Notifier,
        operation: &Operation<'_>,
    ) -> Out
        ensures owed { IsOwed (H.owes self.now.handler) (G.door giving) asked.now operation.now result }
        ensures line { notifier.new.line ≡ notifier.old.line }
    {
        match operation {
            Operation::Lookup(operation) => self.handler.lookup(asked, giving, operation),
            Operation::Forget(operation) => self.handler.forget(asked, giving, operation),
            Operation::GetAttr(operation) => self.handler.getattr(asked, giving, operation),
            Operation::SetAttr(operation) => self.handler.setattr(asked, giving, operation),
            Operation::ReadLink(operation) => self.handler.readlink(asked, giving, operation),
            Operation::SymLink(operation) => self.handler.symlink(asked, giving, operation),
            Operation::MkNod(operation) => self.handler.mknod(asked, giving, operation),
            Operation::MkDir(operation) => self.handler.mkdir(asked, giving, operation),
            Operation::Unlink(operation) => self.handler.unlink(asked, giving, operation),
            Operation::RmDir(operation) => self.handler.rmdir(asked, giving, operation),
            Operation::Rename(operation) => self.handler.rename(asked, giving, operation),
            Operation::Link(operation) => self.handler.link(asked, giving, operation),
            Operation::Open(operation) => self.handler.open(asked, giving, operation),
            Operation::Read(operation) => self.handler.read(asked, giving, operation),
            Operation::Write(operation) => self.handler.write(asked, giving, operation),
            Operation::StatFs(operation) => self.handler.statfs(asked, giving, operation),
            Operation::Release(operation) => self.handler.release(asked, giving, operation),
            Operation::FSync(operation) => self.handler.fsync(asked, giving, operation),
            Operation::SetXAttr(operation) => self.handler.setxattr(asked, giving, operation),
            Operation::GetXAttr(operation) => self.handler.getxattr(asked, giving, operation),
            Operation::ListXAttr(operation) => self.handler.listxattr(asked, giving, operation),
            Operation::RemoveXAttr(operation) => self.handler.removexattr(asked, giving, operation),
            Operation::Flush(operation) => self.handler.flush(asked, giving, operation),
            Operation::Init(_) => giving.refusal(asked, Errno::EIO),
            Operation::OpenDir(operation) => self.handler.opendir(asked, giving, operation),
            Operation::ReadDir(operation) => self.handler.readdir(asked, giving, operation),
            Operation::ReleaseDir(operation) => self.handler.releasedir(asked, giving, operation),
            Operation::FSyncDir(operation) => self.handler.fsyncdir(asked, giving, operation),
            Operation::GetLk(operation) => self.handler.getlk(asked, giving, operation),
            Operation::SetLk(operation) => self.handler.setlk(asked, giving, operation),
            Operation::Access(operation) => self.handler.access(asked, giving, operation),
            Operation::Create(operation) => self.handler.create(asked, giving, operation),
            Operation::Interrupt(operation) => self.handler.interrupt(asked, giving, operation),
            Operation::BMap(operation) => self.handler.bmap(asked, giving, operation),
            Operation::Destroy(_) => {
                giving.unused();
                asked.destroy_reply()
            }
            Operation::IoCtl(operation) => self.handler.ioctl(asked, giving, operation),
            Operation::Poll(operation) => self.handler.poll(asked, giving, notifier, operation),
            Operation::NotifyReply(_) => giving.refusal(asked, Errno::ENOSYS),
            Operation::BatchForget(operation) => self
                .handler
                .batch_forget(asked, giving, operation),
            Operation::FAllocate(operation) => self.handler.fallocate(asked, giving, operation),
            Operation::ReadDirPlus(operation) => self.handler.readdirplus(asked, giving, operation),
            Operation::Rename2(operation) => self.handler.rename2(asked, giving, operation),
            Operation::Lseek(operation) => self.handler.lseek(asked, giving, operation),
            Operation::CopyFileRange(operation) => self
                .handler
                .copy_file_range(asked, giving, operation),
            Operation::CuseInit(_) => giving.refusal(asked, Errno::ENOSYS),
        }
    }

    /// What a request comes to, whose reply may be given so.
    #[inline(always)]
    fn answer_by<G: Giving>(
        &self,
        alloc: Global,
        notifier: &mut Notifier,
        giving: G,
        message: &[u8],
    ) -> Out
        requires message { IsRequest message.now }
        ensures owed { ComesBy (H.owes self.now.handler) (G.door giving) (request_of (header_fields message.now))
            (verdict self.now.terms message.now) (id_of message.now) result }
        ensures line { notifier.new.line ≡ notifier.old.line }
    {
        let request = AnyRequest::from_checked(message);
        let id = request.unique();
        let operation = match self.terms.operation(&request) {
            Ok(operation) => operation,
            Err(error) => {
                giving.unused();
                return refusal(alloc, id, error);
            }
        };
        let asked = Asked {
            alloc,
            id,
            node: request.nodeid(),
            request: request.request(),
        };
        self.serve(&asked, giving, notifier, &operation)
    }
}

/// Lets a door go that no reply takes. It is a call, since on one thread no message comes with a door: what lets one go
/// would stand in what answers each message.
#[inline(never)]
fn let_go(_door: Door) {}

impl<H: Handler + Sync> Work for Service<H> {
    ghost owed = { λ service. OwedMessage (H.owes service.handler) service.terms };

    const DEFERS: bool = false;

    ghost DEFERS = { false };

    fn answer<R: Wait + AllocGlobal>(
        &self,
        rt: &R,
        notifier: &mut Notifier,
        door: Result<Door, NoDoor>,
        _seq: u64,
        message: &[u8],
    ) -> Out {
        if let Ok(door) = door {
            let_go(door);
        }
        self.answer_by(rt.alloc(), notifier, AtOnce, message)
    }

    ghost owed_to_destroy = { λ service seq m is.
        OwedMessage-destroy (H.owes service.handler) (H.owes_end service.handler)
        service.terms seq m is };

    ghost alone_to_destroy = { λ service seq m out is owed.
        OwedMessage-destroy-alone (H.owes service.handler) (H.owes_end_alone service.handler)
        service.terms seq m out is owed };
}

impl<H: Handler + Sync> Work for Shared<H> {
    ghost owed = { λ shared. OwedMessage (H.owes shared.service.handler) shared.service.terms };

    const DEFERS: bool = H::DEFERS;

    ghost DEFERS = { H.DEFERS };

    fn answer<R: Wait + AllocGlobal>(
        &self,
        rt: &R,
        notifier: &mut Notifier,
        door: Result<Door, NoDoor>,
        seq: u64,
        message: &[u8],
    ) -> Out {
        if H::DEFERS {
            self.service
                .answer_by(rt.alloc(), notifier, ByDoor { door }, message)
        } else {
            self.service.answer(rt, notifier, door, seq, message)
        }
    }

    ghost owed_to_destroy = { λ shared seq m is.
        OwedMessage-destroy (H.owes shared.service.handler) (H.owes_end shared.service.handler)
        shared.service.terms seq m is };

    ghost alone_to_destroy = { λ shared seq m out is owed.
        OwedMessage-destroy-alone (H.owes shared.service.handler) (H.owes_end_alone shared.service.handler)
        shared.service.terms seq m out is owed };
}
