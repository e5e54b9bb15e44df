// A filesystem for tests, over the few methods that one has of its own.
ghost use Rattle.std.specs.Prelude.{refl};
ghost use Rattle.fuse_testing.specs.Probing.{own_or_default};

use crate::argument::Argument::{Flag, Number};
use crate::argument::{handle, maybe, number, owner, signed, time, time_or_now, word};
use crate::probe::Probe;
use bitflags::Flags;
use fuse_config::KernelConfig;
use fuse_dispatch::{Filesystem, defaults};
use fuse_notify::PollNotifier;
use fuse_reply::{
    Replied, ReplyAttr, ReplyBmap, ReplyCreate, ReplyData, ReplyDirectory, ReplyDirectoryPlus,
    ReplyEmpty, ReplyEntry, ReplyInterrupt, ReplyIoctl, ReplyLock, ReplyLseek, ReplyOpen,
    ReplyPoll, ReplyStatfs, ReplyWrite, ReplyXattr,
};
use fuse_request::{ForgetList, Request};
use fuse_wire::{
    AccessFlags, BsdFileFlags, CopyFileRangeFlags, Errno, FileHandle, INodeNo, IoctlFlags,
    LockOwner, OpenFlags, PollEvents, PollFlags, RenameFlags, RequestId, SetxattrFlags, SystemTime,
    TimeOrNow, WriteFlags,
};

/// A filesystem that does this of its own. All else it answers by default.
#[derive(Drop)]
pub struct Probing<P> {
    /// What it does of its own.
    pub probe: P,
}

impl<P: Probe + Send + Sync> Filesystem for Probing<P> {
    ghost promise = { record {
      may_init = λ before request config result after config'. Unit {0};
      may_answer = λ fs request call a. own_or_default P.own call a;
      may_honour = λ fs request target. Unit {0};
      may_note = λ fs request call mark. Unit {0};
      may_destroy = λ before after. Unit {0};
      defers = P.DEFERS;
    } };

    const DEFERS: bool = P::DEFERS;

    ghost DEFERS = { P.DEFERS };

    fn init(&mut self, request: &Request, config: &mut KernelConfig) -> Result<(), Errno> {
        self.probe.started(request, config)
    }

    fn lookup(
        &self,
        request: &Request,
        parent: INodeNo,
        name: &[u8],
        reply: ReplyEntry,
    ) -> Replied {
        self.probe
            .called(request, "lookup", &[number(parent.0)], &[name]);
        self.probe.lookup(request, parent, name, reply)
    }

    fn forget(&self, request: &Request, ino: INodeNo, nlookup: u64) -> u64 {
        self.probe
            .called(request, "forget", &[number(ino.0), number(nlookup)], &[]);
        self.probe.forget(ino, nlookup)
    }

    fn getattr(
        &self,
        request: &Request,
        ino: INodeNo,
        fh: Option<FileHandle>,
        reply: ReplyAttr,
    ) -> Replied {
        self.probe
            .called(request, "getattr", &[number(ino.0), handle(fh)], &[]);
        self.probe.getattr(request, ino, fh, reply)
    }

    fn setattr(
        &self,
        request: &Request,
        ino: INodeNo,
        mode: Option<u32>,
        uid: Option<u32>,
        gid: Option<u32>,
        size: Option<u64>,
        atime: Option<TimeOrNow>,
        mtime: Option<TimeOrNow>,
        ctime: Option<SystemTime>,
        fh: Option<FileHandle>,
        crtime: Option<SystemTime>,
        chgtime: Option<SystemTime>,
        bkuptime: Option<SystemTime>,
        flags: Option<BsdFileFlags>,
        reply: ReplyAttr,
    ) -> Replied {
        self.probe.called(
            request,
            "setattr",
            &[
                number(ino.0),
                word(mode),
                word(uid),
                word(gid),
                maybe(size),
                time_or_now(atime),
                time_or_now(mtime),
                time(ctime),
                handle(fh),
                time(crtime),
                time(chgtime),
                time(bkuptime),
                word(flags.map(|set| set.bits())),
            ],
            &[],
        );
        defaults::setattr(reply)
    }

    fn readlink(&self, request: &Request, ino: INodeNo, reply: ReplyData) -> Replied {
        self.probe
            .called(request, "readlink", &[number(ino.0)], &[]);
        defaults::readlink(reply)
    }

    fn symlink(
        &self,
        request: &Request,
        parent: INodeNo,
        link_name: &[u8],
        target: &[u8],
        reply: ReplyEntry,
    ) -> Replied {
        self.probe.called(
            request,
            "symlink",
            &[number(parent.0)],
            &[link_name, target],
        );
        defaults::symlink(reply)
    }

    fn mknod(
        &self,
        request: &Request,
        parent: INodeNo,
        name: &[u8],
        mode: u32,
        umask: u32,
        rdev: u32,
        reply: ReplyEntry,
    ) -> Replied {
        self.probe.called(
            request,
            "mknod",
            &[
                number(parent.0),
                number(mode as u64),
                number(umask as u64),
                number(rdev as u64),
            ],
            &[name],
        );
        defaults::mknod(reply)
    }

    fn mkdir(
        &self,
        request: &Request,
        parent: INodeNo,
        name: &[u8],
        mode: u32,
        umask: u32,
        reply: ReplyEntry,
    ) -> Replied {
        self.probe.called(
            request,
            "mkdir",
            &[number(parent.0), number(mode as u64), number(umask as u64)],
            &[name],
        );
        defaults::mkdir(reply)
    }

    fn unlink(
        &self,
        request: &Request,
        parent: INodeNo,
        name: &[u8],
        reply: ReplyEmpty,
    ) -> Replied {
        self.probe
            .called(request, "unlink", &[number(parent.0)], &[name]);
        defaults::unlink(reply)
    }

    fn rmdir(&self, request: &Request, parent: INodeNo, name: &[u8], reply: ReplyEmpty) -> Replied {
        self.probe
            .called(request, "rmdir", &[number(parent.0)], &[name]);
        defaults::rmdir(reply)
    }

    fn rename(
        &self,
        request: &Request,
        parent: INodeNo,
        name: &[u8],
        newparent: INodeNo,
        newname: &[u8],
        flags: RenameFlags,
        reply: ReplyEmpty,
    ) -> Replied {
        self.probe.called(
            request,
            "rename",
            &[
                number(parent.0),
                number(newparent.0),
                number(flags.bits() as u64),
            ],
            &[name, newname],
        );
        defaults::rename(reply)
    }

    fn link(
        &self,
        request: &Request,
        ino: INodeNo,
        newparent: INodeNo,
        newname: &[u8],
        reply: ReplyEntry,
    ) -> Replied {
        self.probe.called(
            request,
            "link",
            &[number(ino.0), number(newparent.0)],
            &[newname],
        );
        defaults::link(reply)
    }

    fn open(&self, request: &Request, ino: INodeNo, flags: OpenFlags, reply: ReplyOpen) -> Replied {
        self.probe
            .called(request, "open", &[number(ino.0), signed(flags.0)], &[]);
        defaults::open(reply)
    }

    fn read(
        &self,
        request: &Request,
        ino: INodeNo,
        fh: FileHandle,
        offset: u64,
        size: u32,
        flags: OpenFlags,
        lock_owner: Option<LockOwner>,
        reply: ReplyData,
    ) -> Replied {
        self.probe.called(
            request,
            "read",
            &[
                number(ino.0),
                number(fh.0),
                number(offset),
                number(size as u64),
                signed(flags.0),
                owner(lock_owner),
            ],
            &[],
        );
        self.probe
            .read(request, ino, fh, offset, size, flags, lock_owner, reply)
    }

    fn write(
        &self,
        request: &Request,
        ino: INodeNo,
        fh: FileHandle,
        offset: u64,
        written: &[u8],
        write_flags: WriteFlags,
        flags: OpenFlags,
        lock_owner: Option<LockOwner>,
        reply: ReplyWrite,
    ) -> Replied {
        self.probe.called(
            request,
            "write",
            &[
                number(ino.0),
                number(fh.0),
                number(offset),
                number(write_flags.bits() as u64),
                signed(flags.0),
                owner(lock_owner),
            ],
            &[written],
        );
        defaults::write(reply)
    }

    fn statfs(&self, request: &Request, ino: INodeNo, reply: ReplyStatfs) -> Replied {
        self.probe.called(request, "statfs", &[number(ino.0)], &[]);
        defaults::statfs(reply)
    }

    fn release(
        &self,
        request: &Request,
        ino: INodeNo,
        fh: FileHandle,
        flags: OpenFlags,
        lock_owner: Option<LockOwner>,
        flush: bool,
        reply: ReplyEmpty,
    ) -> Replied {
        self.probe.called(
            request,
            "release",
            &[
                number(ino.0),
                number(fh.0),
                signed(flags.0),
                owner(lock_owner),
                Flag(flush),
            ],
            &[],
        );
        defaults::release(reply)
    }

    fn fsync(
        &self,
        request: &Request,
        ino: INodeNo,
        fh: FileHandle,
        datasync: bool,
        reply: ReplyEmpty,
    ) -> Replied {
        self.probe.called(
            request,
            "fsync",
            &[number(ino.0), number(fh.0), Flag(datasync)],
            &[],
        );
        defaults::fsync(reply)
    }

    fn setxattr(
        &self,
        request: &Request,
        ino: INodeNo,
        name: &[u8],
        value: &[u8],
        flags: i32,
        position: u32,
        setxattr_flags: SetxattrFlags,
        reply: ReplyEmpty,
    ) -> Replied {
        self.probe.called(
            request,
            "setxattr",
            &[
                number(ino.0),
                signed(flags),
                number(position as u64),
                number(setxattr_flags.bits() as u64),
            ],
            &[name, value],
        );
        defaults::setxattr(reply)
    }

    fn getxattr(
        &self,
        request: &Request,
        ino: INodeNo,
        name: &[u8],
        size: u32,
        reply: ReplyXattr,
    ) -> Replied {
        self.probe.called(
            request,
            "getxattr",
            &[number(ino.0), number(size as u64)],
            &[name],
        );
        defaults::getxattr(reply)
    }

    fn listxattr(&self, request: &Request, ino: INodeNo, size: u32, reply: ReplyXattr) -> Replied {
        self.probe.called(
            request,
            "listxattr",
            &[number(ino.0), number(size as u64)],
            &[],
        );
        defaults::listxattr(reply)
    }

    fn removexattr(
        &self,
        request: &Request,
        ino: INodeNo,
        name: &[u8],
        reply: ReplyEmpty,
    ) -> Replied {
        self.probe
            .called(request, "removexattr", &[number(ino.0)], &[name]);
        defaults::removexattr(reply)
    }

    fn flush(
        &self,
        request: &Request,
        ino: INodeNo,
        fh: FileHandle,
        lock_owner: LockOwner,
        reply: ReplyEmpty,
    ) -> Replied {
        self.probe.called(
            request,
            "flush",
            &[number(ino.0), number(fh.0), number(lock_owner.0)],
            &[],
        );
        defaults::flush(reply)
    }

    fn opendir(
        &self,
        request: &Request,
        ino: INodeNo,
        flags: OpenFlags,
        reply: ReplyOpen,
    ) -> Replied {
        self.probe
            .called(request, "opendir", &[number(ino.0), signed(flags.0)], &[]);
        defaults::opendir(reply)
    }

    fn readdir(
        &self,
        request: &Request,
        ino: INodeNo,
        fh: FileHandle,
        offset: u64,
        reply: ReplyDirectory,
    ) -> Replied {
        self.probe.called(
            request,
            "readdir",
            &[
                number(ino.0),
                number(fh.0),
                number(offset),
                number(reply.size() as u64),
            ],
            &[],
        );
        defaults::readdir(reply)
    }

    fn releasedir(
        &self,
        request: &Request,
        ino: INodeNo,
        fh: FileHandle,
        flags: OpenFlags,
        reply: ReplyEmpty,
    ) -> Replied {
        self.probe.called(
            request,
            "releasedir",
            &[number(ino.0), number(fh.0), signed(flags.0)],
            &[],
        );
        defaults::releasedir(reply)
    }

    fn fsyncdir(
        &self,
        request: &Request,
        ino: INodeNo,
        fh: FileHandle,
        datasync: bool,
        reply: ReplyEmpty,
    ) -> Replied {
        self.probe.called(
            request,
            "fsyncdir",
            &[number(ino.0), number(fh.0), Flag(datasync)],
            &[],
        );
        defaults::fsyncdir(reply)
    }

    fn getlk(
        &self,
        request: &Request,
        ino: INodeNo,
        fh: FileHandle,
        lock_owner: LockOwner,
        start: u64,
        end: u64,
        typ: i32,
        pid: u32,
        reply: ReplyLock,
    ) -> Replied {
        self.probe.called(
            request,
            "getlk",
            &[
                number(ino.0),
                number(fh.0),
                number(lock_owner.0),
                number(start),
                number(end),
                signed(typ),
                number(pid as u64),
            ],
            &[],
        );
        defaults::getlk(reply)
    }

    fn setlk(
        &self,
        request: &Request,
        ino: INodeNo,
        fh: FileHandle,
        lock_owner: LockOwner,
        start: u64,
        end: u64,
        typ: i32,
        pid: u32,
        sleep: bool,
        reply: ReplyEmpty,
    ) -> Replied {
        self.probe.called(
            request,
            "setlk",
            &[
                number(ino.0),
                number(fh.0),
                number(lock_owner.0),
                number(start),
                number(end),
                signed(typ),
                number(pid as u64),
                Flag(sleep),
            ],
            &[],
        );
        self.probe.setlk(
            request, ino, fh, lock_owner, start, end, typ, pid, sleep, reply,
        )
    }

    fn access(
        &self,
        request: &Request,
        ino: INodeNo,
        mask: AccessFlags,
        reply: ReplyEmpty,
    ) -> Replied {
        self.probe.called(
            request,
            "access",
            &[number(ino.0), signed(mask.bits())],
            &[],
        );
        defaults::access(reply)
    }

    fn create(
        &self,
        request: &Request,
        parent: INodeNo,
        name: &[u8],
        mode: u32,
        umask: u32,
        flags: i32,
        reply: ReplyCreate,
    ) -> Replied {
        self.probe.called(
            request,
            "create",
            &[
                number(parent.0),
                number(mode as u64),
                number(umask as u64),
                signed(flags),
            ],
            &[name],
        );
        defaults::create(reply)
    }

    fn interrupt(&self, request: &Request, target: RequestId, reply: ReplyInterrupt) -> Replied {
        self.probe
            .called(request, "interrupt", &[number(target.0)], &[]);
        self.probe.interrupt(request, target, reply)
    }

    fn bmap(
        &self,
        request: &Request,
        ino: INodeNo,
        blocksize: u32,
        idx: u64,
        reply: ReplyBmap,
    ) -> Replied {
        self.probe.called(
            request,
            "bmap",
            &[number(ino.0), number(blocksize as u64), number(idx)],
            &[],
        );
        defaults::bmap(reply)
    }

    fn ioctl(
        &self,
        request: &Request,
        ino: INodeNo,
        fh: FileHandle,
        flags: IoctlFlags,
        cmd: u32,
        in_data: &[u8],
        out_size: u32,
        reply: ReplyIoctl,
    ) -> Replied {
        self.probe.called(
            request,
            "ioctl",
            &[
                number(ino.0),
                number(fh.0),
                number(flags.bits() as u64),
                number(cmd as u64),
                number(out_size as u64),
            ],
            &[in_data],
        );
        defaults::ioctl(reply)
    }

    fn poll(
        &self,
        request: &Request,
        ino: INodeNo,
        fh: FileHandle,
        ph: PollNotifier,
        events: PollEvents,
        flags: PollFlags,
        reply: ReplyPoll,
    ) -> Replied {
        self.probe.called(
            request,
            "poll",
            &[
                number(ino.0),
                number(fh.0),
                number(ph.handle().0),
                number(events.bits() as u64),
                number(flags.bits() as u64),
            ],
            &[],
        );
        self.probe.poll(request, ino, fh, ph, events, flags, reply)
    }

    fn batch_forget(&self, request: &Request, nodes: ForgetList<'_>) -> u64 {
        self.probe.called(request, "batch_forget", &[number(nodes.len() as u64)], &[]);
        defaults::batch_forget(nodes, |ino, nlookup| self.forget(request, ino, nlookup))
    }

    fn fallocate(
        &self,
        request: &Request,
        ino: INodeNo,
        fh: FileHandle,
        offset: u64,
        length: u64,
        mode: i32,
        reply: ReplyEmpty,
    ) -> Replied {
        self.probe.called(
            request,
            "fallocate",
            &[
                number(ino.0),
                number(fh.0),
                number(offset),
                number(length),
                signed(mode),
            ],
            &[],
        );
        defaults::fallocate(reply)
    }

    fn readdirplus(
        &self,
        request: &Request,
        ino: INodeNo,
        fh: FileHandle,
        offset: u64,
        reply: ReplyDirectoryPlus,
    ) -> Replied {
        self.probe.called(
            request,
            "readdirplus",
            &[
                number(ino.0),
                number(fh.0),
                number(offset),
                number(reply.size() as u64),
            ],
            &[],
        );
        defaults::readdirplus(reply)
    }

    fn lseek(
        &self,
        request: &Request,
        ino: INodeNo,
        fh: FileHandle,
        offset: i64,
        whence: i32,
        reply: ReplyLseek,
    ) -> Replied {
        self.probe.called(
            request,
            "lseek",
            &[
                number(ino.0),
                number(fh.0),
                Number(offset as i128),
                signed(whence),
            ],
            &[],
        );
        defaults::lseek(reply)
    }

    fn copy_file_range(
        &self,
        request: &Request,
        ino_in: INodeNo,
        fh_in: FileHandle,
        offset_in: u64,
        ino_out: INodeNo,
        fh_out: FileHandle,
        offset_out: u64,
        len: u64,
        flags: CopyFileRangeFlags,
        reply: ReplyWrite,
    ) -> Replied {
        self.probe.called(
            request,
            "copy_file_range",
            &[
                number(ino_in.0),
                number(fh_in.0),
                number(offset_in),
                number(ino_out.0),
                number(fh_out.0),
                number(offset_out),
                number(len),
                number(flags.bits()),
            ],
            &[],
        );
        defaults::copy_file_range(reply)
    }

    fn destroy(&mut self) {
        self.probe.destroyed();
        defaults::destroy()
    }

    ghost deferral = { refl };
}
