// What a filesystem of one's own begins as.
ghost use Rattle.std.specs.Prelude.{false, refl};
ghost use Rattle.templates.specs.Blank.{promise};

use fuse_config::KernelConfig;
use fuse_dispatch::{Filesystem, defaults};
use fuse_notify::PollNotifier;
use fuse_reply::{
    Replied, ReplyAttr, ReplyBmap, ReplyCreate, ReplyData, ReplyDirectory, ReplyDirectoryPlus,
    ReplyEmpty, ReplyEntry, ReplyInterrupt, ReplyIoctl, ReplyLock, ReplyLseek, ReplyOpen,
    ReplyPoll, ReplyStatfs, ReplyWrite, ReplyXattr,
};
use fuse_request::{ForgetList, Request};
use fuse_wire::{
    AccessFlags, BsdFileFlags, CopyFileRangeFlags, Errno, FileHandle, INodeNo, IoctlFlags,
    LockOwner, OpenFlags, PollEvents, PollFlags, RenameFlags, RequestId, SetxattrFlags, SystemTime,
    TimeOrNow, WriteFlags,
};

/// Nothing of its own: each call is answered by default. A filesystem of one's own begins as a copy of this file and of
/// its promise.
#[derive(Clone, Copy, Debug, PartialEq, Eq)]
pub struct Blank;

impl Filesystem for Blank {
    ghost promise = { promise };

    const DEFERS: bool = false;

    ghost DEFERS = { false };

    fn init(&mut self, _request: &Request, _config: &mut KernelConfig) -> Result<(), Errno> {
        defaults::init()
    }

    fn lookup(
        &self,
        _request: &Request,
        _parent: INodeNo,
        _name: &[u8],
        reply: ReplyEntry,
    ) -> Replied {
        defaults::lookup(reply)
    }

    fn forget(&self, _request: &Request, _ino: INodeNo, _nlookup: u64) -> u64 {
        defaults::forget()
    }

    fn getattr(
        &self,
        _request: &Request,
        _ino: INodeNo,
        _fh: Option<FileHandle>,
        reply: ReplyAttr,
    ) -> Replied {
        defaults::getattr(reply)
    }

    fn setattr(
        &self,
        _request: &Request,
        _ino: INodeNo,
        _mode: Option<u32>,
        _uid: Option<u32>,
        _gid: Option<u32>,
        _size: Option<u64>,
        _atime: Option<TimeOrNow>,
        _mtime: Option<TimeOrNow>,
        _ctime: Option<SystemTime>,
        _fh: Option<FileHandle>,
        _crtime: Option<SystemTime>,
        _chgtime: Option<SystemTime>,
        _bkuptime: Option<SystemTime>,
        _flags: Option<BsdFileFlags>,
        reply: ReplyAttr,
    ) -> Replied {
        defaults::setattr(reply)
    }

    fn readlink(&self, _request: &Request, _ino: INodeNo, reply: ReplyData) -> Replied {
        defaults::readlink(reply)
    }

    fn symlink(
        &self,
        _request: &Request,
        _parent: INodeNo,
        _link_name: &[u8],
        _target: &[u8],
        reply: ReplyEntry,
    ) -> Replied {
        defaults::symlink(reply)
    }

    fn mknod(
        &self,
        _request: &Request,
        _parent: INodeNo,
        _name: &[u8],
        _mode: u32,
        _umask: u32,
        _rdev: u32,
        reply: ReplyEntry,
    ) -> Replied {
        defaults::mknod(reply)
    }

    fn mkdir(
        &self,
        _request: &Request,
        _parent: INodeNo,
        _name: &[u8],
        _mode: u32,
        _umask: u32,
        reply: ReplyEntry,
    ) -> Replied {
        defaults::mkdir(reply)
    }

    fn unlink(
        &self,
        _request: &Request,
        _parent: INodeNo,
        _name: &[u8],
        reply: ReplyEmpty,
    ) -> Replied {
        defaults::unlink(reply)
    }

    fn rmdir(
        &self,
        _request: &Request,
        _parent: INodeNo,
        _name: &[u8],
        reply: ReplyEmpty,
    ) -> Replied {
        defaults::rmdir(reply)
    }

    fn rename(
        &self,
        _request: &Request,
        _parent: INodeNo,
        _name: &[u8],
        _newparent: INodeNo,
        _newname: &[u8],
        _flags: RenameFlags,
        reply: ReplyEmpty,
    ) -> Replied {
        defaults::rename(reply)
    }

    fn link(
        &self,
        _request: &Request,
        _ino: INodeNo,
        _newparent: INodeNo,
        _newname: &[u8],
        reply: ReplyEntry,
    ) -> Replied {
        defaults::link(reply)
    }

    fn open(
        &self,
        _request: &Request,
        _ino: INodeNo,
        _flags: OpenFlags,
        reply: ReplyOpen,
    ) -> Replied {
        defaults::open(reply)
    }

    fn read(
        &self,
        _request: &Request,
        _ino: INodeNo,
        _fh: FileHandle,
        _offset: u64,
        _size: u32,
        _flags: OpenFlags,
        _lock_owner: Option<LockOwner>,
        reply: ReplyData,
    ) -> Replied {
        defaults::read(reply)
    }

    fn write(
        &self,
        _request: &Request,
        _ino: INodeNo,
        _fh: FileHandle,
        _offset: u64,
        _written: &[u8],
        _write_flags: WriteFlags,
        _flags: OpenFlags,
        _lock_owner: Option<LockOwner>,
        reply: ReplyWrite,
    ) -> Replied {
        defaults::write(reply)
    }

    fn statfs(&self, _request: &Request, _ino: INodeNo, reply: ReplyStatfs) -> Replied {
        defaults::statfs(reply)
    }

    fn release(
        &self,
        _request: &Request,
        _ino: INodeNo,
        _fh: FileHandle,
        _flags: OpenFlags,
        _lock_owner: Option<LockOwner>,
        _flush: bool,
        reply: ReplyEmpty,
    ) -> Replied {
        defaults::release(reply)
    }

    fn fsync(
        &self,
        _request: &Request,
        _ino: INodeNo,
        _fh: FileHandle,
        _datasync: bool,
        reply: ReplyEmpty,
    ) -> Replied {
        defaults::fsync(reply)
    }

    fn setxattr(
        &self,
        _request: &Request,
        _ino: INodeNo,
        _name: &[u8],
        _value: &[u8],
        _flags: i32,
        _position: u32,
        _setxattr_flags: SetxattrFlags,
        reply: ReplyEmpty,
    ) -> Replied {
        defaults::setxattr(reply)
    }

    fn getxattr(
        &self,
        _request: &Request,
        _ino: INodeNo,
        _name: &[u8],
        _size: u32,
        reply: ReplyXattr,
    ) -> Replied {
        defaults::getxattr(reply)
    }

    fn listxattr(
        &self,
        _request: &Request,
        _ino: INodeNo,
        _size: u32,
        reply: ReplyXattr,
    ) -> Replied {
        defaults::listxattr(reply)
    }

    fn removexattr(
        &self,
        _request: &Request,
        _ino: INodeNo,
        _name: &[u8],
        reply: ReplyEmpty,
    ) -> Replied {
        defaults::removexattr(reply)
    }

    fn flush(
        &self,
        _request: &Request,
        _ino: INodeNo,
        _fh: FileHandle,
        _lock_owner: LockOwner,
        reply: ReplyEmpty,
    ) -> Replied {
        defaults::flush(reply)
    }

    fn opendir(
        &self,
        _request: &Request,
        _ino: INodeNo,
        _flags: OpenFlags,
        reply: ReplyOpen,
    ) -> Replied {
        defaults::opendir(reply)
    }

    fn readdir(
        &self,
        _request: &Request,
        _ino: INodeNo,
        _fh: FileHandle,
        _offset: u64,
        reply: ReplyDirectory,
    ) -> Replied {
        defaults::readdir(reply)
    }

    fn releasedir(
        &self,
        _request: &Request,
        _ino: INodeNo,
        _fh: FileHandle,
        _flags: OpenFlags,
        reply: ReplyEmpty,
    ) -> Replied {
        defaults::releasedir(reply)
    }

    fn fsyncdir(
        &self,
        _request: &Request,
        _ino: INodeNo,
        _fh: FileHandle,
        _datasync: bool,
        reply: ReplyEmpty,
    ) -> Replied {
        defaults::fsyncdir(reply)
    }

    fn getlk(
        &self,
        _request: &Request,
        _ino: INodeNo,
        _fh: FileHandle,
        _lock_owner: LockOwner,
        _start: u64,
        _end: u64,
        _typ: i32,
        _pid: u32,
        reply: ReplyLock,
    ) -> Replied {
        defaults::getlk(reply)
    }

    fn setlk(
        &self,
        _request: &Request,
        _ino: INodeNo,
        _fh: FileHandle,
        _lock_owner: LockOwner,
        _start: u64,
        _end: u64,
        _typ: i32,
        _pid: u32,
        _sleep: bool,
        reply: ReplyEmpty,
    ) -> Replied {
        defaults::setlk(reply)
    }

    fn access(
        &self,
        _request: &Request,
        _ino: INodeNo,
        _mask: AccessFlags,
        reply: ReplyEmpty,
    ) -> Replied {
        defaults::access(reply)
    }

    fn create(
        &self,
        _request: &Request,
        _parent: INodeNo,
        _name: &[u8],
        _mode: u32,
        _umask: u32,
        _flags: i32,
        reply: ReplyCreate,
    ) -> Replied {
        defaults::create(reply)
    }

    fn interrupt(&self, _request: &Request, _target: RequestId, reply: ReplyInterrupt) -> Replied {
        defaults::interrupt(reply)
    }

    fn bmap(
        &self,
        _request: &Request,
        _ino: INodeNo,
        _blocksize: u32,
        _idx: u64,
        reply: ReplyBmap,
    ) -> Replied {
        defaults::bmap(reply)
    }

    fn ioctl(
        &self,
        _request: &Request,
        _ino: INodeNo,
        _fh: FileHandle,
        _flags: IoctlFlags,
        _cmd: u32,
        _in_data: &[u8],
        _out_size: u32,
        reply: ReplyIoctl,
    ) -> Replied {
        defaults::ioctl(reply)
    }

    fn poll(
        &self,
        _request: &Request,
        _ino: INodeNo,
        _fh: FileHandle,
        _ph: PollNotifier,
        _events: PollEvents,
        _flags: PollFlags,
        reply: ReplyPoll,
    ) -> Replied {
        defaults::poll(reply)
    }

    fn batch_forget(&self, _request: &Request, _nodes: ForgetList<'_>) -> u64 {
        defaults::forget()
    }

    fn fallocate(
        &self,
        _request: &Request,
        _ino: INodeNo,
        _fh: FileHandle,
        _offset: u64,
        _length: u64,
        _mode: i32,
        reply: ReplyEmpty,
    ) -> Replied {
        defaults::fallocate(reply)
    }

    fn readdirplus(
        &self,
        _request: &Request,
        _ino: INodeNo,
        _fh: FileHandle,
        _offset: u64,
        reply: ReplyDirectoryPlus,
    ) -> Replied {
        defaults::readdirplus(reply)
    }

    fn lseek(
        &self,
        _request: &Request,
        _ino: INodeNo,
        _fh: FileHandle,
        _offset: i64,
        _whence: i32,
        reply: ReplyLseek,
    ) -> Replied {
        defaults::lseek(reply)
    }

    fn copy_file_range(
        &self,
        _request: &Request,
        _ino_in: INodeNo,
        _fh_in: FileHandle,
        _offset_in: u64,
        _ino_out: INodeNo,
        _fh_out: FileHandle,
        _offset_out: u64,
        _len: u64,
        _flags: CopyFileRangeFlags,
        reply: ReplyWrite,
    ) -> Replied {
        defaults::copy_file_range(reply)
    }

    fn destroy(&mut self) {
        defaults::destroy();
    }

    ghost deferral = { refl };
}
