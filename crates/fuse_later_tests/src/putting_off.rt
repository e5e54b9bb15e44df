// A filesystem for tests, which puts each reply off.
ghost use Rattle.std.specs.Prelude.{true, refl};
ghost use Rattle.fuse_request.specs.Call.{Call};
ghost use Rattle.fuse_header.specs.declared.request.Request.{Request as Asks};
ghost use Rattle.fuse_dispatch.specs.OwedMessage.{Answers};
ghost use Rattle.fuse_later_tests.specs.PuttingOff.{any_answer};

use fuse_config::KernelConfig;
use fuse_notify::PollNotifier;
use fuse_reply::{
    EntryKind, Replied, Reply, ReplyAttr, ReplyBmap, ReplyCreate, ReplyData, ReplyDirectory,
    ReplyDirectoryPlus, ReplyEmpty, ReplyEntry, ReplyInterrupt, ReplyIoctl, ReplyListing,
    ReplyLock, ReplyLseek, ReplyOpen, ReplyPoll, ReplyStatfs, ReplyWrite, ReplyXattr,
};
use fuse_request::{ForgetList, Request};
use fuse_session::{Filesystem, defaults};
use fuse_wire::{
    AccessFlags, BsdFileFlags, CopyFileRangeFlags, Errno, FileHandle, INodeNo, IoctlFlags,
    LockOwner, OpenFlags, PollEvents, PollFlags, RenameFlags, RequestId, SetxattrFlags, SystemTime,
    TimeOrNow, WriteFlags,
};
use std::sync::Wait;

/// A filesystem that puts each reply off: the frame of ENOENT is queued by the door of the reply, before its method
/// returns. A reply without a door is answered by EIO.
#[derive(Drop)]
pub(crate) struct PuttingOff<R> {
    pub(crate) rt: R,
}

impl<R: Wait> PuttingOff<R> {
    /// Puts a reply off, and queues its frame.
    #[tactic(auto, using(crate::proofs::PuttingOff::fault_answers))]
    fn put_off<Kind>(&self, reply: Reply<Kind>) -> Replied
        ensures { (request : Asks) (call : Call) → Answers any_answer self.now request call reply.id reply.door result }
    {
        match reply.defer() {
            Ok((replied, later)) => {
                let (reply, token) = later.reply();
                let _ended = token.send_or_retire(&self.rt, reply.error(Errno::ENOENT));
                replied
            }
            Err((reply, _)) => reply.unanswered(),
        }
    }

    /// The same of a reply of entries.
    #[tactic(auto, using(crate::proofs::PuttingOff::fault_answers))]
    fn put_off_listing<Kind: EntryKind>(&self, reply: ReplyListing<Kind>) -> Replied
        ensures { (request : Asks) (call : Call) → Answers any_answer self.now request call reply.id reply.door result }
    {
        match reply.defer() {
            Ok((replied, later)) => {
                let (reply, token) = later.reply();
                let _ended = token.send_or_retire(&self.rt, reply.error(Errno::ENOENT));
                replied
            }
            Err((reply, _)) => reply.unanswered(),
        }
    }
}

impl<R: Wait + Send + Sync> Filesystem for PuttingOff<R> {
    ghost promise = { record {
      may_init = λ before request config result after config'. Unit {0};
      may_answer = any_answer;
      may_honour = λ fs request target. ⊥;
      may_note = λ fs request call mark. Unit {0};
      may_destroy = λ before after. Unit {0};
      defers = true;
    } };

    const DEFERS: bool = true;

    ghost DEFERS = { true };

    fn init(&mut self, _: &Request, _: &mut KernelConfig) -> Result<(), Errno> {
        defaults::init()
    }

    fn lookup(&self, _: &Request, _: INodeNo, _: &[u8], reply: ReplyEntry) -> Replied {
        self.put_off(reply)
    }

    fn forget(&self, _: &Request, _: INodeNo, _: u64) -> u64 {
        defaults::forget()
    }

    fn getattr(&self, _: &Request, _: INodeNo, _: Option<FileHandle>, reply: ReplyAttr) -> Replied {
        self.put_off(reply)
    }

    fn setattr(
        &self,
        _: &Request,
        _: INodeNo,
        _: Option<u32>,
        _: Option<u32>,
        _: Option<u32>,
        _: Option<u64>,
        _: Option<TimeOrNow>,
        _: Option<TimeOrNow>,
        _: Option<SystemTime>,
        _: Option<FileHandle>,
        _: Option<SystemTime>,
        _: Option<SystemTime>,
        _: Option<SystemTime>,
        _: Option<BsdFileFlags>,
        reply: ReplyAttr,
    ) -> Replied {
        self.put_off(reply)
    }

    fn readlink(&self, _: &Request, _: INodeNo, reply: ReplyData) -> Replied {
        self.put_off(reply)
    }

    fn symlink(&self, _: &Request, _: INodeNo, _: &[u8], _: &[u8], reply: ReplyEntry) -> Replied {
        self.put_off(reply)
    }

    fn mknod(
        &self,
        _: &Request,
        _: INodeNo,
        _: &[u8],
        _: u32,
        _: u32,
        _: u32,
        reply: ReplyEntry,
    ) -> Replied {
        self.put_off(reply)
    }

    fn mkdir(
        &self,
        _: &Request,
        _: INodeNo,
        _: &[u8],
        _: u32,
        _: u32,
        reply: ReplyEntry,
    ) -> Replied {
        self.put_off(reply)
    }

    fn unlink(&self, _: &Request, _: INodeNo, _: &[u8], reply: ReplyEmpty) -> Replied {
        self.put_off(reply)
    }

    fn rmdir(&self, _: &Request, _: INodeNo, _: &[u8], reply: ReplyEmpty) -> Replied {
        self.put_off(reply)
    }

    fn rename(
        &self,
        _: &Request,
        _: INodeNo,
        _: &[u8],
        _: INodeNo,
        _: &[u8],
        _: RenameFlags,
        reply: ReplyEmpty,
    ) -> Replied {
        self.put_off(reply)
    }

    fn link(&self, _: &Request, _: INodeNo, _: INodeNo, _: &[u8], reply: ReplyEntry) -> Replied {
        self.put_off(reply)
    }

    fn open(&self, _: &Request, _: INodeNo, _: OpenFlags, reply: ReplyOpen) -> Replied {
        self.put_off(reply)
    }

    fn read(
        &self,
        _: &Request,
        _: INodeNo,
        _: FileHandle,
        _: u64,
        _: u32,
        _: OpenFlags,
        _: Option<LockOwner>,
        reply: ReplyData,
    ) -> Replied {
        self.put_off(reply)
    }

    fn write(
        &self,
        _: &Request,
        _: INodeNo,
        _: FileHandle,
        _: u64,
        _: &[u8],
        _: WriteFlags,
        _: OpenFlags,
        _: Option<LockOwner>,
        reply: ReplyWrite,
    ) -> Replied {
        self.put_off(reply)
    }

    fn statfs(&self, _: &Request, _: INodeNo, reply: ReplyStatfs) -> Replied {
        self.put_off(reply)
    }

    fn release(
        &self,
        _: &Request,
        _: INodeNo,
        _: FileHandle,
        _: OpenFlags,
        _: Option<LockOwner>,
        _: bool,
        reply: ReplyEmpty,
    ) -> Replied {
        self.put_off(reply)
    }

    fn fsync(&self, _: &Request, _: INodeNo, _: FileHandle, _: bool, reply: ReplyEmpty) -> Replied {
        self.put_off(reply)
    }

    fn setxattr(
        &self,
        _: &Request,
        _: INodeNo,
        _: &[u8],
        _: &[u8],
        _: i32,
        _: u32,
        _: SetxattrFlags,
        reply: ReplyEmpty,
    ) -> Replied {
        self.put_off(reply)
    }

    fn getxattr(&self, _: &Request, _: INodeNo, _: &[u8], _: u32, reply: ReplyXattr) -> Replied {
        self.put_off(reply)
    }

    fn listxattr(&self, _: &Request, _: INodeNo, _: u32, reply: ReplyXattr) -> Replied {
        self.put_off(reply)
    }

    fn removexattr(&self, _: &Request, _: INodeNo, _: &[u8], reply: ReplyEmpty) -> Replied {
        self.put_off(reply)
    }

    fn flush(
        &self,
        _: &Request,
        _: INodeNo,
        _: FileHandle,
        _: LockOwner,
        reply: ReplyEmpty,
    ) -> Replied {
        self.put_off(reply)
    }

    fn opendir(&self, _: &Request, _: INodeNo, _: OpenFlags, reply: ReplyOpen) -> Replied {
        self.put_off(reply)
    }

    fn readdir(
        &self,
        _: &Request,
        _: INodeNo,
        _: FileHandle,
        _: u64,
        reply: ReplyDirectory,
    ) -> Replied {
        self.put_off_listing(reply)
    }

    fn releasedir(
        &self,
        _: &Request,
        _: INodeNo,
        _: FileHandle,
        _: OpenFlags,
        reply: ReplyEmpty,
    ) -> Replied {
        self.put_off(reply)
    }

    fn fsyncdir(
        &self,
        _: &Request,
        _: INodeNo,
        _: FileHandle,
        _: bool,
        reply: ReplyEmpty,
    ) -> Replied {
        self.put_off(reply)
    }

    fn getlk(
        &self,
        _: &Request,
        _: INodeNo,
        _: FileHandle,
        _: LockOwner,
        _: u64,
        _: u64,
        _: i32,
        _: u32,
        reply: ReplyLock,
    ) -> Replied {
        self.put_off(reply)
    }

    fn setlk(
        &self,
        _: &Request,
        _: INodeNo,
        _: FileHandle,
        _: LockOwner,
        _: u64,
        _: u64,
        _: i32,
        _: u32,
        _: bool,
        reply: ReplyEmpty,
    ) -> Replied {
        self.put_off(reply)
    }

    fn access(&self, _: &Request, _: INodeNo, _: AccessFlags, reply: ReplyEmpty) -> Replied {
        self.put_off(reply)
    }

    fn create(
        &self,
        _: &Request,
        _: INodeNo,
        _: &[u8],
        _: u32,
        _: u32,
        _: i32,
        reply: ReplyCreate,
    ) -> Replied {
        self.put_off(reply)
    }

    fn interrupt(&self, _: &Request, _: RequestId, reply: ReplyInterrupt) -> Replied {
        defaults::interrupt(reply)
    }

    fn bmap(&self, _: &Request, _: INodeNo, _: u32, _: u64, reply: ReplyBmap) -> Replied {
        self.put_off(reply)
    }

    fn ioctl(
        &self,
        _: &Request,
        _: INodeNo,
        _: FileHandle,
        _: IoctlFlags,
        _: u32,
        _: &[u8],
        _: u32,
        reply: ReplyIoctl,
    ) -> Replied {
        self.put_off(reply)
    }

    fn poll(
        &self,
        _: &Request,
        _: INodeNo,
        _: FileHandle,
        _: PollNotifier,
        _: PollEvents,
        _: PollFlags,
        reply: ReplyPoll,
    ) -> Replied {
        self.put_off(reply)
    }

    fn batch_forget(&self, _: &Request, nodes: ForgetList<'_>) -> u64 {
        defaults::batch_forget(nodes, |_ino, _nlookup| defaults::forget())
    }

    fn fallocate(
        &self,
        _: &Request,
        _: INodeNo,
        _: FileHandle,
        _: u64,
        _: u64,
        _: i32,
        reply: ReplyEmpty,
    ) -> Replied {
        self.put_off(reply)
    }

    fn readdirplus(
        &self,
        _: &Request,
        _: INodeNo,
        _: FileHandle,
        _: u64,
        reply: ReplyDirectoryPlus,
    ) -> Replied {
        self.put_off_listing(reply)
    }

    fn lseek(
        &self,
        _: &Request,
        _: INodeNo,
        _: FileHandle,
        _: i64,
        _: i32,
        reply: ReplyLseek,
    ) -> Replied {
        self.put_off(reply)
    }

    fn copy_file_range(
        &self,
        _: &Request,
        _: INodeNo,
        _: FileHandle,
        _: u64,
        _: INodeNo,
        _: FileHandle,
        _: u64,
        _: u64,
        _: CopyFileRangeFlags,
        reply: ReplyWrite,
    ) -> Replied {
        self.put_off(reply)
    }

    fn destroy(&mut self) {
        defaults::destroy()
    }

    ghost deferral = { refl };
}
