// Files served as a filesystem that is only read.
ghost use Rattle.std.specs.Prelude.{◌≡◌, ◌≤◌, false, refl, take, drop, length, min};
ghost use Rattle.fuse_reply.specs.Sizes.{max_payload};
ghost use Rattle.fuse_read_only.specs.ReadOnly.{is_link, promise};

use crate::Files;
use crate::listing::add_entries;
use bitflags::Flags;
use fuse_config::KernelConfig;
use fuse_dispatch::{Filesystem, defaults};
use fuse_notify::PollNotifier;
use fuse_reply::{
    MAX_PAYLOAD, Replied, ReplyAttr, ReplyBmap, ReplyCreate, ReplyData, ReplyDirectory,
    ReplyDirectoryPlus, ReplyEmpty, ReplyEntry, ReplyInterrupt, ReplyIoctl, ReplyLock, ReplyLseek,
    ReplyOpen, ReplyPoll, ReplyStatfs, ReplyWrite, ReplyXattr,
};
use fuse_request::{ForgetList, Request};
use fuse_wire::{
    AccessFlags, BsdFileFlags, CopyFileRangeFlags, Errno, FileHandle, FileType, Generation,
    INodeNo, IoctlFlags, LockOwner, NoMemory, OpenAccMode, OpenFlags, PollEvents, PollFlags,
    RenameFlags, RequestId, SetxattrFlags, SystemTime, TimeOrNow, WriteFlags,
};
use std::marker::Model;

/// A filesystem of these files. What would change something is refused with EROFS, and what the files do not say is
/// answered as `fuse_dispatch::defaults` does. It leaves what INIT negotiates as it is. A contract sees the files.
#[derive(Drop)]
pub struct ReadOnly<T> {
    files: T,
}

impl<T> Model for ReadOnly<T> {
    ghost Value = { T };

    ghost view = { λ r. r.files };
}

impl<T> ReadOnly<T> {
    /// The filesystem of these files.
    pub fn new(files: T) -> ReadOnly<T>
        ensures { result ≡ files }
    {
        ReadOnly { files }
    }

    /// The files.
    pub fn files(&self) -> &T
        ensures { result.now ≡ self.now }
    {
        &self.files
    }

    /// The files, once it is no longer used.
    pub fn into_files(self) -> T
        ensures { result ≡ self }
    {
        self.files
    }
}

/// The bytes from the offset on, at most `size`, and no more than a frame can carry: what a READ is answered.
pub fn part(all: &[u8], offset: u64, size: u32) -> &[u8]
    ensures part { result.now ≡ take (min size max_payload) (drop offset all.now) }
    ensures within { length result.now ≤ max_payload }
{
    let rest = all.get(offset as usize..).unwrap_or(&[]);
    rest.get(..(size as usize).min(MAX_PAYLOAD)).unwrap_or(rest)
}

/// Whether it is a symbolic link.
fn is_link(kind: FileType) -> bool
    ensures { result ≡ is_link kind }
{
    matches!(kind, FileType::Symlink)
}

impl<T: Files + Send + Sync> Filesystem for ReadOnly<T> {
    ghost promise = { promise T.tree };

    const DEFERS: bool = false;

    ghost DEFERS = { false };

    fn init(&mut self, _request: &Request, _config: &mut KernelConfig) -> Result<(), Errno> {
        defaults::init()
    }

    fn lookup(
        &self,
        _request: &Request,
        parent: INodeNo,
        name: &[u8],
        reply: ReplyEntry,
    ) -> Replied {
        match self.files.named(parent, name) {
            Some(found) => reply.entry(&self.files.ttl(), &found, Generation(0)),
            None => reply.error(Errno::ENOENT),
        }
    }

    fn forget(&self, _request: &Request, _ino: INodeNo, nlookup: u64) -> u64 {
        nlookup
    }

    fn getattr(
        &self,
        _request: &Request,
        ino: INodeNo,
        _fh: Option<FileHandle>,
        reply: ReplyAttr,
    ) -> Replied {
        match self.files.attr(ino) {
            Some(found) => reply.attr(&self.files.ttl(), &found),
            None => reply.error(Errno::ENOENT),
        }
    }

    fn setattr(
        &self,
        _request: &Request,
        _ino: INodeNo,
        _mode: Option<u32>,
        _uid: Option<u32>,
        _gid: Option<u32>,
        _size: Option<u64>,
        _atime: Option<TimeOrNow>,
        _mtime: Option<TimeOrNow>,
        _ctime: Option<SystemTime>,
        _fh: Option<FileHandle>,
        _crtime: Option<SystemTime>,
        _chgtime: Option<SystemTime>,
        _bkuptime: Option<SystemTime>,
        _flags: Option<BsdFileFlags>,
        reply: ReplyAttr,
    ) -> Replied {
        reply.error(Errno::EROFS)
    }

    fn readlink(&self, _request: &Request, ino: INodeNo, reply: ReplyData) -> Replied {
        match self.files.attr(ino) {
            Some(found) => {
                if !is_link(found.kind) {
                    return reply.error(Errno::EINVAL);
                }
                match self.files.contents(ino) {
                    Some(path) => reply.data(part(path, 0, u32::MAX)),
                    None => reply.error(Errno::ENOENT),
                }
            }
            None => reply.error(Errno::ENOENT),
        }
    }

    fn symlink(
        &self,
        _request: &Request,
        _parent: INodeNo,
        _link_name: &[u8],
        _target: &[u8],
        reply: ReplyEntry,
    ) -> Replied {
        reply.error(Errno::EROFS)
    }

    fn mknod(
        &self,
        _request: &Request,
        _parent: INodeNo,
        _name: &[u8],
        _mode: u32,
        _umask: u32,
        _rdev: u32,
        reply: ReplyEntry,
    ) -> Replied {
        reply.error(Errno::EROFS)
    }

    fn mkdir(
        &self,
        _request: &Request,
        _parent: INodeNo,
        _name: &[u8],
        _mode: u32,
        _umask: u32,
        reply: ReplyEntry,
    ) -> Replied {
        reply.error(Errno::EROFS)
    }

    fn unlink(
        &self,
        _request: &Request,
        _parent: INodeNo,
        _name: &[u8],
        reply: ReplyEmpty,
    ) -> Replied {
        reply.error(Errno::EROFS)
    }

    fn rmdir(
        &self,
        _request: &Request,
        _parent: INodeNo,
        _name: &[u8],
        reply: ReplyEmpty,
    ) -> Replied {
        reply.error(Errno::EROFS)
    }

    fn rename(
        &self,
        _request: &Request,
        _parent: INodeNo,
        _name: &[u8],
        _newparent: INodeNo,
        _newname: &[u8],
        _flags: RenameFlags,
        reply: ReplyEmpty,
    ) -> Replied {
        reply.error(Errno::EROFS)
    }

    fn link(
        &self,
        _request: &Request,
        _ino: INodeNo,
        _newparent: INodeNo,
        _newname: &[u8],
        reply: ReplyEntry,
    ) -> Replied {
        reply.error(Errno::EROFS)
    }

    fn open(
        &self,
        _request: &Request,
        _ino: INodeNo,
        flags: OpenFlags,
        reply: ReplyOpen,
    ) -> Replied {
        match flags.acc_mode() {
            OpenAccMode::O_RDONLY => defaults::open(reply),
            OpenAccMode::O_WRONLY => reply.error(Errno::EROFS),
            OpenAccMode::O_RDWR => reply.error(Errno::EROFS),
        }
    }

    fn read(
        &self,
        _request: &Request,
        ino: INodeNo,
        _fh: FileHandle,
        offset: u64,
        size: u32,
        _flags: OpenFlags,
        _lock_owner: Option<LockOwner>,
        reply: ReplyData,
    ) -> Replied {
        match self.files.contents(ino) {
            Some(all) => reply.data(part(all, offset, size)),
            None => reply.error(Errno::ENOENT),
        }
    }

    fn write(
        &self,
        _request: &Request,
        _ino: INodeNo,
        _fh: FileHandle,
        _offset: u64,
        _written: &[u8],
        _write_flags: WriteFlags,
        _flags: OpenFlags,
        _lock_owner: Option<LockOwner>,
        reply: ReplyWrite,
    ) -> Replied {
        reply.error(Errno::EROFS)
    }

    fn statfs(&self, _request: &Request, _ino: INodeNo, reply: ReplyStatfs) -> Replied {
        defaults::statfs(reply)
    }

    fn release(
        &self,
        _request: &Request,
        _ino: INodeNo,
        _fh: FileHandle,
        _flags: OpenFlags,
        _lock_owner: Option<LockOwner>,
        _flush: bool,
        reply: ReplyEmpty,
    ) -> Replied {
        defaults::release(reply)
    }

    fn fsync(
        &self,
        _request: &Request,
        _ino: INodeNo,
        _fh: FileHandle,
        _datasync: bool,
        reply: ReplyEmpty,
    ) -> Replied {
        defaults::fsync(reply)
    }

    fn setxattr(
        &self,
        _request: &Request,
        _ino: INodeNo,
        _name: &[u8],
        _value: &[u8],
        _flags: i32,
        _position: u32,
        _setxattr_flags: SetxattrFlags,
        reply: ReplyEmpty,
    ) -> Replied {
        reply.error(Errno::EROFS)
    }

    fn getxattr(
        &self,
        _request: &Request,
        _ino: INodeNo,
        _name: &[u8],
        _size: u32,
        reply: ReplyXattr,
    ) -> Replied {
        defaults::getxattr(reply)
    }

    fn listxattr(
        &self,
        _request: &Request,
        _ino: INodeNo,
        _size: u32,
        reply: ReplyXattr,
    ) -> Replied {
        defaults::listxattr(reply)
    }

    fn removexattr(
        &self,
        _request: &Request,
        _ino: INodeNo,
        _name: &[u8],
        reply: ReplyEmpty,
    ) -> Replied {
        reply.error(Errno::EROFS)
    }

    fn flush(
        &self,
        _request: &Request,
        _ino: INodeNo,
        _fh: FileHandle,
        _lock_owner: LockOwner,
        reply: ReplyEmpty,
    ) -> Replied {
        defaults::flush(reply)
    }

    fn opendir(
        &self,
        _request: &Request,
        _ino: INodeNo,
        _flags: OpenFlags,
        reply: ReplyOpen,
    ) -> Replied {
        defaults::opendir(reply)
    }

    fn readdir(
        &self,
        _request: &Request,
        ino: INodeNo,
        _fh: FileHandle,
        offset: u64,
        mut reply: ReplyDirectory,
    ) -> Replied {
        let Some(_) = self.files.attr(ino) else {
            return reply.error(Errno::ENOENT);
        };
        match add_entries(&self.files, ino, offset, &mut reply) {
            Ok(()) => reply.ok(),
            Err(NoMemory) => reply.error(Errno::ENOMEM),
        }
    }

    fn releasedir(
        &self,
        _request: &Request,
        _ino: INodeNo,
        _fh: FileHandle,
        _flags: OpenFlags,
        reply: ReplyEmpty,
    ) -> Replied {
        defaults::releasedir(reply)
    }

    fn fsyncdir(
        &self,
        _request: &Request,
        _ino: INodeNo,
        _fh: FileHandle,
        _datasync: bool,
        reply: ReplyEmpty,
    ) -> Replied {
        defaults::fsyncdir(reply)
    }

    fn getlk(
        &self,
        _request: &Request,
        _ino: INodeNo,
        _fh: FileHandle,
        _lock_owner: LockOwner,
        _start: u64,
        _end: u64,
        _typ: i32,
        _pid: u32,
        reply: ReplyLock,
    ) -> Replied {
        defaults::getlk(reply)
    }

    fn setlk(
        &self,
        _request: &Request,
        _ino: INodeNo,
        _fh: FileHandle,
        _lock_owner: LockOwner,
        _start: u64,
        _end: u64,
        _typ: i32,
        _pid: u32,
        _sleep: bool,
        reply: ReplyEmpty,
    ) -> Replied {
        defaults::setlk(reply)
    }

    fn access(
        &self,
        _request: &Request,
        _ino: INodeNo,
        _mask: AccessFlags,
        reply: ReplyEmpty,
    ) -> Replied {
        defaults::access(reply)
    }

    fn create(
        &self,
        _request: &Request,
        _parent: INodeNo,
        _name: &[u8],
        _mode: u32,
        _umask: u32,
        _flags: i32,
        reply: ReplyCreate,
    ) -> Replied {
        reply.error(Errno::EROFS)
    }

    fn interrupt(&self, _request: &Request, _target: RequestId, reply: ReplyInterrupt) -> Replied {
        defaults::interrupt(reply)
    }

    fn bmap(
        &self,
        _request: &Request,
        _ino: INodeNo,
        _blocksize: u32,
        _idx: u64,
        reply: ReplyBmap,
    ) -> Replied {
        defaults::bmap(reply)
    }

    fn ioctl(
        &self,
        _request: &Request,
        _ino: INodeNo,
        _fh: FileHandle,
        _flags: IoctlFlags,
        _cmd: u32,
        _in_data: &[u8],
        _out_size: u32,
        reply: ReplyIoctl,
    ) -> Replied {
        defaults::ioctl(reply)
    }

    fn poll(
        &self,
        _request: &Request,
        _ino: INodeNo,
        _fh: FileHandle,
        _ph: PollNotifier,
        _events: PollEvents,
        _flags: PollFlags,
        reply: ReplyPoll,
    ) -> Replied {
        defaults::poll(reply)
    }

    fn batch_forget(&self, _request: &Request, nodes: ForgetList<'_>) -> u64 {
        nodes.len() as u64
    }

    fn fallocate(
        &self,
        _request: &Request,
        _ino: INodeNo,
        _fh: FileHandle,
        _offset: u64,
        _length: u64,
        _mode: i32,
        reply: ReplyEmpty,
    ) -> Replied {
        reply.error(Errno::EROFS)
    }

    fn readdirplus(
        &self,
        _request: &Request,
        _ino: INodeNo,
        _fh: FileHandle,
        _offset: u64,
        reply: ReplyDirectoryPlus,
    ) -> Replied {
        defaults::readdirplus(reply)
    }

    fn lseek(
        &self,
        _request: &Request,
        _ino: INodeNo,
        _fh: FileHandle,
        _offset: i64,
        _whence: i32,
        reply: ReplyLseek,
    ) -> Replied {
        defaults::lseek(reply)
    }

    fn copy_file_range(
        &self,
        _request: &Request,
        _ino_in: INodeNo,
        _fh_in: FileHandle,
        _offset_in: u64,
        _ino_out: INodeNo,
        _fh_out: FileHandle,
        _offset_out: u64,
        _len: u64,
        _flags: CopyFileRangeFlags,
        reply: ReplyWrite,
    ) -> Replied {
        reply.error(Errno::EROFS)
    }

    fn destroy(&mut self) {}

    ghost deferral = { refl };
}
