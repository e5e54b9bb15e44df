// What a filesystem of a test does of its own.
ghost use Rattle.std.specs.Prelude.{◌≡◌, Bool};
ghost use Rattle.fuse_request.specs.Call.{Call, handle_number, owner_number};
ghost use Rattle.fuse_dispatch.specs.Defaults.{default_answer};
ghost use Rattle.fuse_testing.specs.Probing.{Allows, IsAnswered, IsInterrupted};

use crate::argument::Argument;
use fuse_config::KernelConfig;
use fuse_dispatch::defaults;
use fuse_notify::PollNotifier;
use fuse_reply::{
    Replied, ReplyAttr, ReplyData, ReplyEmpty, ReplyEntry, ReplyInterrupt, ReplyPoll,
};
use fuse_request::Request;
use fuse_wire::{
    Errno, FileHandle, INodeNo, LockOwner, OpenFlags, PollEvents, PollFlags, RequestId,
};

/// What a filesystem of a test does of its own. It is told of each call before it answers any.
pub trait Probe {
    /// Which answers it may give to the calls that it may answer itself.
    ghost own: { Allows };

    /// Whether it may answer a call after its method has returned.
    const DEFERS: bool;

    /// That constant, as a contract names it.
    ghost DEFERS: { Bool };

    /// A kernel opens the connection: what `init` of the filesystem sets and answers.
    fn started(&mut self, request: &Request, config: &mut KernelConfig) -> Result<(), Errno>;

    /// A method was called, with these arguments: names and data last, the others as they stand in its signature.
    fn called(
        &self,
        request: &Request,
        method: &'static str,
        arguments: &[Argument],
        texts: &[&[u8]],
    );

    /// What `lookup` of the filesystem answers.
    fn lookup(&self, request: &Request, parent: INodeNo, name: &[u8], reply: ReplyEntry) -> Replied
        ensures { IsAnswered own request.now (Call.Lookup parent.0 name.now) reply.id reply.door result }
    {
        defaults::lookup(reply)
    }

    /// The mark of one inode of which lookups are given back.
    fn forget(&self, _ino: INodeNo, _nlookup: u64) -> u64 {
        defaults::forget()
    }

    /// What `getattr` of the filesystem answers.
    fn getattr(
        &self,
        request: &Request,
        ino: INodeNo,
        fh: Option<FileHandle>,
        reply: ReplyAttr,
    ) -> Replied
        ensures { IsAnswered own request.now (Call.GetAttr ino.0 (handle_number fh)) reply.id reply.door result }
    {
        defaults::getattr(reply)
    }

    /// What `read` of the filesystem answers.
    fn read(
        &self,
        request: &Request,
        ino: INodeNo,
        fh: FileHandle,
        offset: u64,
        size: u32,
        flags: OpenFlags,
        lock_owner: Option<LockOwner>,
        reply: ReplyData,
    ) -> Replied
        ensures { IsAnswered own request.now
            (Call.Read ino.0 fh.0 offset size flags.0 (owner_number lock_owner)) reply.id reply.door result }
    {
        defaults::read(reply)
    }

    /// What `setlk` of the filesystem answers.
    fn setlk(
        &self,
        request: &Request,
        ino: INodeNo,
        fh: FileHandle,
        lock_owner: LockOwner,
        start: u64,
        end: u64,
        typ: i32,
        pid: u32,
        sleep: bool,
        reply: ReplyEmpty,
    ) -> Replied
        ensures { IsAnswered own request.now
            (Call.SetLk ino.0 fh.0 lock_owner.0 start end typ pid sleep) reply.id reply.door result }
    {
        defaults::setlk(reply)
    }

    /// What `poll` of the filesystem answers.
    fn poll(
        &self,
        request: &Request,
        ino: INodeNo,
        fh: FileHandle,
        ph: PollNotifier,
        events: PollEvents,
        flags: PollFlags,
        reply: ReplyPoll,
    ) -> Replied
        ensures { IsAnswered own request.now
            (Call.Poll ino.0 fh.0 ph.handle events.0 flags.0) reply.id reply.door result }
    {
        defaults::poll(reply)
    }

    /// What `interrupt` of the filesystem answers, which may honour any.
    fn interrupt(&self, request: &Request, target: RequestId, reply: ReplyInterrupt) -> Replied
        requires { reply.target ≡ target.0 }
        ensures { IsInterrupted own request.now target.0 reply.id result }
    {
        defaults::interrupt(reply)
    }

    /// The session is over.
    fn destroyed(&mut self);

    /// It may give the default answers.
    ghost allows_default: { (call : Call) → own call (default_answer call) };
}
