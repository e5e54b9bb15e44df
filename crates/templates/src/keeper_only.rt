// A filesystem over another: a layer, which hands on what it does not answer itself.
ghost use Rattle.std.specs.Prelude.{◌≡◌, ◌==◌, not};
ghost use Rattle.fuse_header.specs.Asker.{uid_of};
ghost use Rattle.templates.specs.KeeperOnly.{promise};

use fuse_config::KernelConfig;
use fuse_dispatch::Filesystem;
use fuse_notify::PollNotifier;
use fuse_reply::{
    Replied, ReplyAttr, ReplyBmap, ReplyCreate, ReplyData, ReplyDirectory, ReplyDirectoryPlus,
    ReplyEmpty, ReplyEntry, ReplyInterrupt, ReplyIoctl, ReplyLock, ReplyLseek, ReplyOpen,
    ReplyPoll, ReplyStatfs, ReplyWrite, ReplyXattr,
};
use fuse_request::{ForgetList, Request};
use fuse_wire::{
    AccessFlags, BsdFileFlags, CopyFileRangeFlags, Errno, FileHandle, INodeNo, IoctlFlags,
    LockOwner, OpenFlags, PollEvents, PollFlags, RenameFlags, RequestId, SetxattrFlags, SystemTime,
    TimeOrNow, WriteFlags,
};

/// A filesystem over another, in which one user alone, its keeper, takes names away or changes them: UNLINK, RMDIR and
/// RENAME of anybody else get EACCES. All else is for the filesystem below.
///
/// - It promises what that filesystem does, but for what it denies, and that its keeper stays the same.
/// - What it hands on is handed on as it came: the reply, by value, `config`, and what a poll is told through. What comes
///   back is what it gives.
/// - It puts replies off where the filesystem below does.
/// - A method that only hands on needs no proof, and one that denies an answer file of one line.
#[derive(Drop)]
pub struct KeeperOnly<FS> {
    /// The filesystem below.
    pub below: FS,
    /// The id of the user who may take names away and change them.
    pub keeper: u32,
}

impl<FS> KeeperOnly<FS> {
    /// Whether somebody else than the keeper asks.
    fn denies(&self, request: &Request) -> bool
        ensures { result ≡ not (uid_of request.now == self.now.keeper) }
    {
        request.uid() != self.keeper
    }
}

impl<FS: Filesystem> Filesystem for KeeperOnly<FS> {
    ghost promise = { promise (λ fs. fs.keeper) (λ fs. fs.below) FS.promise };

    const DEFERS: bool = FS::DEFERS;

    ghost DEFERS = { FS.DEFERS };

    fn init(&mut self, request: &Request, config: &mut KernelConfig) -> Result<(), Errno> {
        self.below.init(request, config)
    }

    fn lookup(
        &self,
        request: &Request,
        parent: INodeNo,
        name: &[u8],
        reply: ReplyEntry,
    ) -> Replied {
        self.below.lookup(request, parent, name, reply)
    }

    fn forget(&self, request: &Request, ino: INodeNo, nlookup: u64) -> u64 {
        self.below.forget(request, ino, nlookup)
    }

    fn getattr(
        &self,
        request: &Request,
        ino: INodeNo,
        fh: Option<FileHandle>,
        reply: ReplyAttr,
    ) -> Replied {
        self.below.getattr(request, ino, fh, reply)
    }

    fn setattr(
        &self,
        request: &Request,
        ino: INodeNo,
        mode: Option<u32>,
        uid: Option<u32>,
        gid: Option<u32>,
        size: Option<u64>,
        atime: Option<TimeOrNow>,
        mtime: Option<TimeOrNow>,
        ctime: Option<SystemTime>,
        fh: Option<FileHandle>,
        crtime: Option<SystemTime>,
        chgtime: Option<SystemTime>,
        bkuptime: Option<SystemTime>,
        flags: Option<BsdFileFlags>,
        reply: ReplyAttr,
    ) -> Replied {
        self.below.setattr(
            request, ino, mode, uid, gid, size, atime, mtime, ctime, fh, crtime, chgtime, bkuptime,
            flags, reply,
        )
    }

    fn readlink(&self, request: &Request, ino: INodeNo, reply: ReplyData) -> Replied {
        self.below.readlink(request, ino, reply)
    }

    fn symlink(
        &self,
        request: &Request,
        parent: INodeNo,
        link_name: &[u8],
        target: &[u8],
        reply: ReplyEntry,
    ) -> Replied {
        self.below
            .symlink(request, parent, link_name, target, reply)
    }

    fn mknod(
        &self,
        request: &Request,
        parent: INodeNo,
        name: &[u8],
        mode: u32,
        umask: u32,
        rdev: u32,
        reply: ReplyEntry,
    ) -> Replied {
        self.below
            .mknod(request, parent, name, mode, umask, rdev, reply)
    }

    fn mkdir(
        &self,
        request: &Request,
        parent: INodeNo,
        name: &[u8],
        mode: u32,
        umask: u32,
        reply: ReplyEntry,
    ) -> Replied {
        self.below.mkdir(request, parent, name, mode, umask, reply)
    }

    fn unlink(
        &self,
        request: &Request,
        parent: INodeNo,
        name: &[u8],
        reply: ReplyEmpty,
    ) -> Replied {
        if self.denies(request) {
            return reply.error(Errno::EACCES);
        }
        self.below.unlink(request, parent, name, reply)
    }

    fn rmdir(&self, request: &Request, parent: INodeNo, name: &[u8], reply: ReplyEmpty) -> Replied {
        if self.denies(request) {
            return reply.error(Errno::EACCES);
        }
        self.below.rmdir(request, parent, name, reply)
    }

    fn rename(
        &self,
        request: &Request,
        parent: INodeNo,
        name: &[u8],
        newparent: INodeNo,
        newname: &[u8],
        flags: RenameFlags,
        reply: ReplyEmpty,
    ) -> Replied {
        if self.denies(request) {
            return reply.error(Errno::EACCES);
        }
        self.below
            .rename(request, parent, name, newparent, newname, flags, reply)
    }

    fn link(
        &self,
        request: &Request,
        ino: INodeNo,
        newparent: INodeNo,
        newname: &[u8],
        reply: ReplyEntry,
    ) -> Replied {
        self.below.link(request, ino, newparent, newname, reply)
    }

    fn open(&self, request: &Request, ino: INodeNo, flags: OpenFlags, reply: ReplyOpen) -> Replied {
        self.below.open(request, ino, flags, reply)
    }

    fn read(
        &self,
        request: &Request,
        ino: INodeNo,
        fh: FileHandle,
        offset: u64,
        size: u32,
        flags: OpenFlags,
        lock_owner: Option<LockOwner>,
        reply: ReplyData,
    ) -> Replied {
        self.below
            .read(request, ino, fh, offset, size, flags, lock_owner, reply)
    }

    fn write(
        &self,
        request: &Request,
        ino: INodeNo,
        fh: FileHandle,
        offset: u64,
        written: &[u8],
        write_flags: WriteFlags,
        flags: OpenFlags,
        lock_owner: Option<LockOwner>,
        reply: ReplyWrite,
    ) -> Replied {
        self.below.write(
            request,
            ino,
            fh,
            offset,
            written,
            write_flags,
            flags,
            lock_owner,
            reply,
        )
    }

    fn statfs(&self, request: &Request, ino: INodeNo, reply: ReplyStatfs) -> Replied {
        self.below.statfs(request, ino, reply)
    }

    fn release(
        &self,
        request: &Request,
        ino: INodeNo,
        fh: FileHandle,
        flags: OpenFlags,
        lock_owner: Option<LockOwner>,
        flush: bool,
        reply: ReplyEmpty,
    ) -> Replied {
        self.below
            .release(request, ino, fh, flags, lock_owner, flush, reply)
    }

    fn fsync(
        &self,
        request: &Request,
        ino: INodeNo,
        fh: FileHandle,
        datasync: bool,
        reply: ReplyEmpty,
    ) -> Replied {
        self.below.fsync(request, ino, fh, datasync, reply)
    }

    fn setxattr(
        &self,
        request: &Request,
        ino: INodeNo,
        name: &[u8],
        value: &[u8],
        flags: i32,
        position: u32,
        setxattr_flags: SetxattrFlags,
        reply: ReplyEmpty,
    ) -> Replied {
        self.below.setxattr(
            request,
            ino,
            name,
            value,
            flags,
            position,
            setxattr_flags,
            reply,
        )
    }

    fn getxattr(
        &self,
        request: &Request,
        ino: INodeNo,
        name: &[u8],
        size: u32,
        reply: ReplyXattr,
    ) -> Replied {
        self.below.getxattr(request, ino, name, size, reply)
    }

    fn listxattr(&self, request: &Request, ino: INodeNo, size: u32, reply: ReplyXattr) -> Replied {
        self.below.listxattr(request, ino, size, reply)
    }

    fn removexattr(
        &self,
        request: &Request,
        ino: INodeNo,
        name: &[u8],
        reply: ReplyEmpty,
    ) -> Replied {
        self.below.removexattr(request, ino, name, reply)
    }

    fn flush(
        &self,
        request: &Request,
        ino: INodeNo,
        fh: FileHandle,
        lock_owner: LockOwner,
        reply: ReplyEmpty,
    ) -> Replied {
        self.below.flush(request, ino, fh, lock_owner, reply)
    }

    fn opendir(
        &self,
        request: &Request,
        ino: INodeNo,
        flags: OpenFlags,
        reply: ReplyOpen,
    ) -> Replied {
        self.below.opendir(request, ino, flags, reply)
    }

    fn readdir(
        &self,
        request: &Request,
        ino: INodeNo,
        fh: FileHandle,
        offset: u64,
        reply: ReplyDirectory,
    ) -> Replied {
        self.below.readdir(request, ino, fh, offset, reply)
    }

    fn releasedir(
        &self,
        request: &Request,
        ino: INodeNo,
        fh: FileHandle,
        flags: OpenFlags,
        reply: ReplyEmpty,
    ) -> Replied {
        self.below.releasedir(request, ino, fh, flags, reply)
    }

    fn fsyncdir(
        &self,
        request: &Request,
        ino: INodeNo,
        fh: FileHandle,
        datasync: bool,
        reply: ReplyEmpty,
    ) -> Replied {
        self.below.fsyncdir(request, ino, fh, datasync, reply)
    }

    fn getlk(
        &self,
        request: &Request,
        ino: INodeNo,
        fh: FileHandle,
        lock_owner: LockOwner,
        start: u64,
        end: u64,
        typ: i32,
        pid: u32,
        reply: ReplyLock,
    ) -> Replied {
        self.below
            .getlk(request, ino, fh, lock_owner, start, end, typ, pid, reply)
    }

    fn setlk(
        &self,
        request: &Request,
        ino: INodeNo,
        fh: FileHandle,
        lock_owner: LockOwner,
        start: u64,
        end: u64,
        typ: i32,
        pid: u32,
        sleep: bool,
        reply: ReplyEmpty,
    ) -> Replied {
        self.below.setlk(
            request, ino, fh, lock_owner, start, end, typ, pid, sleep, reply,
        )
    }

    fn access(
        &self,
        request: &Request,
        ino: INodeNo,
        mask: AccessFlags,
        reply: ReplyEmpty,
    ) -> Replied {
        self.below.access(request, ino, mask, reply)
    }

    fn create(
        &self,
        request: &Request,
        parent: INodeNo,
        name: &[u8],
        mode: u32,
        umask: u32,
        flags: i32,
        reply: ReplyCreate,
    ) -> Replied {
        self.below
            .create(request, parent, name, mode, umask, flags, reply)
    }

    fn interrupt(&self, request: &Request, target: RequestId, reply: ReplyInterrupt) -> Replied {
        self.below.interrupt(request, target, reply)
    }

    fn bmap(
        &self,
        request: &Request,
        ino: INodeNo,
        blocksize: u32,
        idx: u64,
        reply: ReplyBmap,
    ) -> Replied {
        self.below.bmap(request, ino, blocksize, idx, reply)
    }

    fn ioctl(
        &self,
        request: &Request,
        ino: INodeNo,
        fh: FileHandle,
        flags: IoctlFlags,
        cmd: u32,
        in_data: &[u8],
        out_size: u32,
        reply: ReplyIoctl,
    ) -> Replied {
        self.below
            .ioctl(request, ino, fh, flags, cmd, in_data, out_size, reply)
    }

    fn poll(
        &self,
        request: &Request,
        ino: INodeNo,
        fh: FileHandle,
        ph: PollNotifier,
        events: PollEvents,
        flags: PollFlags,
        reply: ReplyPoll,
    ) -> Replied {
        self.below.poll(request, ino, fh, ph, events, flags, reply)
    }

    fn batch_forget(&self, request: &Request, nodes: ForgetList<'_>) -> u64 {
        self.below.batch_forget(request, nodes)
    }

    fn fallocate(
        &self,
        request: &Request,
        ino: INodeNo,
        fh: FileHandle,
        offset: u64,
        length: u64,
        mode: i32,
        reply: ReplyEmpty,
    ) -> Replied {
        self.below
            .fallocate(request, ino, fh, offset, length, mode, reply)
    }

    fn readdirplus(
        &self,
        request: &Request,
        ino: INodeNo,
        fh: FileHandle,
        offset: u64,
        reply: ReplyDirectoryPlus,
    ) -> Replied {
        self.below.readdirplus(request, ino, fh, offset, reply)
    }

    fn lseek(
        &self,
        request: &Request,
        ino: INodeNo,
        fh: FileHandle,
        offset: i64,
        whence: i32,
        reply: ReplyLseek,
    ) -> Replied {
        self.below.lseek(request, ino, fh, offset, whence, reply)
    }

    fn copy_file_range(
        &self,
        request: &Request,
        ino_in: INodeNo,
        fh_in: FileHandle,
        offset_in: u64,
        ino_out: INodeNo,
        fh_out: FileHandle,
        offset_out: u64,
        len: u64,
        flags: CopyFileRangeFlags,
        reply: ReplyWrite,
    ) -> Replied {
        self.below.copy_file_range(
            request, ino_in, fh_in, offset_in, ino_out, fh_out, offset_out, len, flags, reply,
        )
    }

    fn destroy(&mut self) {
        self.below.destroy();
    }

    ghost deferral = { FS.deferral };
}
