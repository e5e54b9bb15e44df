// A filesystem whose file can be written.
ghost use Rattle.std.specs.Prelude.{◌≡◌, false, length, refl};
ghost use Rattle.uses.specs.Notepad.{IsNote, IsSet, Wrote, promise};

use crate::note::NoteContents;
use crate::notepad_listing::Listed;
use crate::notepad_nodes::{Node, directory, is_note, node_of, ttl};
use fuse_config::KernelConfig;
use fuse_notify::PollNotifier;
use fuse_read_only::ReadOnly;
use fuse_reply::{
    Replied, ReplyAttr, ReplyBmap, ReplyCreate, ReplyData, ReplyDirectory, ReplyDirectoryPlus,
    ReplyEmpty, ReplyEntry, ReplyInterrupt, ReplyIoctl, ReplyLock, ReplyLseek, ReplyOpen,
    ReplyPoll, ReplyStatfs, ReplyWrite, ReplyXattr,
};
use fuse_request::{ForgetList, Request};
use fuse_session::{Filesystem, defaults};
use fuse_wire::{
    AccessFlags, BsdFileFlags, CopyFileRangeFlags, Errno, FileAttr, FileHandle, Generation,
    INodeNo, IoctlFlags, LockOwner, NoMemory, OpenFlags, PollEvents, PollFlags, RenameFlags,
    RequestId, SetxattrFlags, SystemTime, TimeOrNow, WriteFlags,
};
use std::alloc::Global;
use std::sync::{Mutex, Wait};

/// A directory with one file, `note`, of at most 4096 bytes, which can be read, written and cut. What it holds stands
/// behind a lock.
///
/// - No promise sees what is behind a lock. So the promise says which answers each call may have, by the kind of its
///   node, and what becomes of the bytes is said by the clauses of `NoteContents`. That each call of the filesystem
///   comes to the right one of these is seen by tests alone.
/// - What locks takes no reply: `attr`, `put` and `set` give what the answer is made of, each with one relation, which
///   the promise says too.
/// - The memory for all that the file may hold is taken at the start, so that none is wanting while it is served.
/// - Modes, owners and times are not kept: where they are set the call succeeds, without an effect.
/// - READDIR is left to a `ReadOnly`, and needs no proof.
#[derive(Drop)]
pub struct Notepad<R> {
    rt: R,
    note: Mutex<NoteContents>,
    listed: ReadOnly<Listed>,
}

impl<R: Wait> Notepad<R> {
    /// The file is empty. `NoMemory` where there is none for all that it may hold.
    pub fn new(rt: R, alloc: Global) -> Result<Notepad<R>, NoMemory>
    where
        R: Drop,
    {
        let note = NoteContents::new(alloc)?;
        Ok(Notepad {
            rt,
            note: Mutex::new(note),
            listed: ReadOnly::new(Listed),
        })
    }

    /// The attributes of the file as it is.
    fn attr(&self) -> FileAttr
        ensures { IsNote result }
    {
        self.note.lock(&self.rt).attr()
    }

    /// Writes these from the offset on, and tells how many they are. None is that there is no room.
    fn put(&self, offset: u64, written: &[u8]) -> Option<u32>
        ensures { Wrote offset (length written.now) result }
    {
        if self.note.lock(&self.rt).write(offset, written) {
            Some(written.len() as u32)
        } else {
            None
        }
    }

    /// Sets the size, where it is given, and tells the attributes. None is that there is no room.
    fn set(&self, size: Option<u64>) -> Option<FileAttr>
        ensures { IsSet size result }
    {
        let mut note = self.note.lock(&self.rt);
        let Some(size) = size else {
            return Some(note.attr());
        };
        if note.resize(size) {
            Some(note.attr())
        } else {
            None
        }
    }
}

impl<R: Wait + Send + Sync> Filesystem for Notepad<R> {
    ghost promise = { promise };

    const DEFERS: bool = false;

    ghost DEFERS = { false };

    fn init(&mut self, _request: &Request, _config: &mut KernelConfig) -> Result<(), Errno> {
        defaults::init()
    }

    fn lookup(
        &self,
        _request: &Request,
        parent: INodeNo,
        name: &[u8],
        reply: ReplyEntry,
    ) -> Replied {
        if is_note(parent, name) {
            let attr = self.attr();
            reply.entry(&ttl(), &attr, Generation(0))
        } else {
            reply.error(Errno::ENOENT)
        }
    }

    fn forget(&self, _request: &Request, _ino: INodeNo, _nlookup: u64) -> u64 {
        defaults::forget()
    }

    fn getattr(
        &self,
        _request: &Request,
        ino: INodeNo,
        _fh: Option<FileHandle>,
        reply: ReplyAttr,
    ) -> Replied {
        match node_of(ino) {
            Node::File => {
                let attr = self.attr();
                reply.attr(&ttl(), &attr)
            }
            Node::Root => reply.attr(&ttl(), &directory()),
            Node::Absent => reply.error(Errno::ENOENT),
        }
    }

    fn setattr(
        &self,
        _request: &Request,
        ino: INodeNo,
        _mode: Option<u32>,
        _uid: Option<u32>,
        _gid: Option<u32>,
        size: Option<u64>,
        _atime: Option<TimeOrNow>,
        _mtime: Option<TimeOrNow>,
        _ctime: Option<SystemTime>,
        _fh: Option<FileHandle>,
        _crtime: Option<SystemTime>,
        _chgtime: Option<SystemTime>,
        _bkuptime: Option<SystemTime>,
        _flags: Option<BsdFileFlags>,
        reply: ReplyAttr,
    ) -> Replied {
        match node_of(ino) {
            Node::File => match self.set(size) {
                Some(attr) => reply.attr(&ttl(), &attr),
                None => reply.error(Errno::ENOSPC),
            },
            Node::Root => reply.error(Errno::EPERM),
            Node::Absent => reply.error(Errno::ENOENT),
        }
    }

    fn readlink(&self, _request: &Request, _ino: INodeNo, reply: ReplyData) -> Replied {
        defaults::readlink(reply)
    }

    fn symlink(
        &self,
        _request: &Request,
        _parent: INodeNo,
        _link_name: &[u8],
        _target: &[u8],
        reply: ReplyEntry,
    ) -> Replied {
        defaults::symlink(reply)
    }

    fn mknod(
        &self,
        _request: &Request,
        _parent: INodeNo,
        _name: &[u8],
        _mode: u32,
        _umask: u32,
        _rdev: u32,
        reply: ReplyEntry,
    ) -> Replied {
        defaults::mknod(reply)
    }

    fn mkdir(
        &self,
        _request: &Request,
        _parent: INodeNo,
        _name: &[u8],
        _mode: u32,
        _umask: u32,
        reply: ReplyEntry,
    ) -> Replied {
        defaults::mkdir(reply)
    }

    fn unlink(
        &self,
        _request: &Request,
        _parent: INodeNo,
        _name: &[u8],
        reply: ReplyEmpty,
    ) -> Replied {
        defaults::unlink(reply)
    }

    fn rmdir(
        &self,
        _request: &Request,
        _parent: INodeNo,
        _name: &[u8],
        reply: ReplyEmpty,
    ) -> Replied {
        defaults::rmdir(reply)
    }

    fn rename(
        &self,
        _request: &Request,
        _parent: INodeNo,
        _name: &[u8],
        _newparent: INodeNo,
        _newname: &[u8],
        _flags: RenameFlags,
        reply: ReplyEmpty,
    ) -> Replied {
        defaults::rename(reply)
    }

    fn link(
        &self,
        _request: &Request,
        _ino: INodeNo,
        _newparent: INodeNo,
        _newname: &[u8],
        reply: ReplyEntry,
    ) -> Replied {
        defaults::link(reply)
    }

    fn open(
        &self,
        _request: &Request,
        ino: INodeNo,
        _flags: OpenFlags,
        reply: ReplyOpen,
    ) -> Replied {
        match node_of(ino) {
            Node::File => defaults::open(reply),
            Node::Root => reply.error(Errno::EISDIR),
            Node::Absent => reply.error(Errno::ENOENT),
        }
    }

    fn read(
        &self,
        _request: &Request,
        ino: INodeNo,
        _fh: FileHandle,
        offset: u64,
        size: u32,
        _flags: OpenFlags,
        _lock_owner: Option<LockOwner>,
        reply: ReplyData,
    ) -> Replied {
        match node_of(ino) {
            Node::File => reply.data(self.note.lock(&self.rt).part(offset, size)),
            Node::Root => reply.error(Errno::EISDIR),
            Node::Absent => reply.error(Errno::ENOENT),
        }
    }

    fn write(
        &self,
        _request: &Request,
        ino: INodeNo,
        _fh: FileHandle,
        offset: u64,
        written: &[u8],
        _write_flags: WriteFlags,
        _flags: OpenFlags,
        _lock_owner: Option<LockOwner>,
        reply: ReplyWrite,
    ) -> Replied {
        match node_of(ino) {
            Node::File => match self.put(offset, written) {
                Some(n) => reply.written(n),
                None => reply.error(Errno::ENOSPC),
            },
            Node::Root => reply.error(Errno::EISDIR),
            Node::Absent => reply.error(Errno::ENOENT),
        }
    }

    fn statfs(&self, _request: &Request, _ino: INodeNo, reply: ReplyStatfs) -> Replied {
        defaults::statfs(reply)
    }

    fn release(
        &self,
        _request: &Request,
        _ino: INodeNo,
        _fh: FileHandle,
        _flags: OpenFlags,
        _lock_owner: Option<LockOwner>,
        _flush: bool,
        reply: ReplyEmpty,
    ) -> Replied {
        defaults::release(reply)
    }

    fn fsync(
        &self,
        _request: &Request,
        _ino: INodeNo,
        _fh: FileHandle,
        _datasync: bool,
        reply: ReplyEmpty,
    ) -> Replied {
        defaults::fsync(reply)
    }

    fn setxattr(
        &self,
        _request: &Request,
        _ino: INodeNo,
        _name: &[u8],
        _value: &[u8],
        _flags: i32,
        _position: u32,
        _setxattr_flags: SetxattrFlags,
        reply: ReplyEmpty,
    ) -> Replied {
        defaults::setxattr(reply)
    }

    fn getxattr(
        &self,
        _request: &Request,
        _ino: INodeNo,
        _name: &[u8],
        _size: u32,
        reply: ReplyXattr,
    ) -> Replied {
        defaults::getxattr(reply)
    }

    fn listxattr(
        &self,
        _request: &Request,
        _ino: INodeNo,
        _size: u32,
        reply: ReplyXattr,
    ) -> Replied {
        defaults::listxattr(reply)
    }

    fn removexattr(
        &self,
        _request: &Request,
        _ino: INodeNo,
        _name: &[u8],
        reply: ReplyEmpty,
    ) -> Replied {
        defaults::removexattr(reply)
    }

    fn flush(
        &self,
        _request: &Request,
        _ino: INodeNo,
        _fh: FileHandle,
        lock_owner: LockOwner,
        reply: ReplyEmpty,
    ) -> Replied {
        defaults::flush(reply)
    }

    fn opendir(
        &self,
        _request: &Request,
        _ino: INodeNo,
        _flags: OpenFlags,
        reply: ReplyOpen,
    ) -> Replied {
        defaults::opendir(reply)
    }

    fn readdir(
        &self,
        request: &Request,
        ino: INodeNo,
        fh: FileHandle,
        offset: u64,
        reply: ReplyDirectory,
    ) -> Replied {
        self.listed.readdir(request, ino, fh, offset, reply)
    }

    fn releasedir(
        &self,
        _request: &Request,
        _ino: INodeNo,
        _fh: FileHandle,
        _flags: OpenFlags,
        reply: ReplyEmpty,
    ) -> Replied {
        defaults::releasedir(reply)
    }

    fn fsyncdir(
        &self,
        _request: &Request,
        _ino: INodeNo,
        _fh: FileHandle,
        _datasync: bool,
        reply: ReplyEmpty,
    ) -> Replied {
        defaults::fsyncdir(reply)
    }

    fn getlk(
        &self,
        _request: &Request,
        _ino: INodeNo,
        _fh: FileHandle,
        _lock_owner: LockOwner,
        _start: u64,
        _end: u64,
        _typ: i32,
        _pid: u32,
        reply: ReplyLock,
    ) -> Replied {
        defaults::getlk(reply)
    }

    fn setlk(
        &self,
        _request: &Request,
        _ino: INodeNo,
        _fh: FileHandle,
        lock_owner: LockOwner,
        _start: u64,
        _end: u64,
        typ: i32,
        _pid: u32,
        sleep: bool,
        reply: ReplyEmpty,
    ) -> Replied {
        defaults::setlk(reply)
    }

    fn access(
        &self,
        _request: &Request,
        _ino: INodeNo,
        _mask: AccessFlags,
        reply: ReplyEmpty,
    ) -> Replied {
        defaults::access(reply)
    }

    fn create(
        &self,
        _request: &Request,
        _parent: INodeNo,
        _name: &[u8],
        _mode: u32,
        _umask: u32,
        _flags: i32,
        reply: ReplyCreate,
    ) -> Replied {
        defaults::create(reply)
    }

    fn interrupt(&self, _request: &Request, _target: RequestId, reply: ReplyInterrupt) -> Replied {
        defaults::interrupt(reply)
    }

    fn bmap(
        &self,
        _request: &Request,
        _ino: INodeNo,
        _blocksize: u32,
        _idx: u64,
        reply: ReplyBmap,
    ) -> Replied {
        defaults::bmap(reply)
    }

    fn ioctl(
        &self,
        _request: &Request,
        _ino: INodeNo,
        _fh: FileHandle,
        _flags: IoctlFlags,
        _cmd: u32,
        _in_data: &[u8],
        _out_size: u32,
        reply: ReplyIoctl,
    ) -> Replied {
        defaults::ioctl(reply)
    }

    fn poll(
        &self,
        _request: &Request,
        _ino: INodeNo,
        _fh: FileHandle,
        _ph: PollNotifier,
        _events: PollEvents,
        _flags: PollFlags,
        reply: ReplyPoll,
    ) -> Replied {
        defaults::poll(reply)
    }

    fn batch_forget(&self, _request: &Request, _nodes: ForgetList<'_>) -> u64 {
        defaults::forget()
    }

    fn fallocate(
        &self,
        _request: &Request,
        _ino: INodeNo,
        _fh: FileHandle,
        _offset: u64,
        _length: u64,
        _mode: i32,
        reply: ReplyEmpty,
    ) -> Replied {
        defaults::fallocate(reply)
    }

    fn readdirplus(
        &self,
        _request: &Request,
        _ino: INodeNo,
        _fh: FileHandle,
        _offset: u64,
        reply: ReplyDirectoryPlus,
    ) -> Replied {
        defaults::readdirplus(reply)
    }

    fn lseek(
        &self,
        _request: &Request,
        _ino: INodeNo,
        _fh: FileHandle,
        _offset: i64,
        _whence: i32,
        reply: ReplyLseek,
    ) -> Replied {
        defaults::lseek(reply)
    }

    fn copy_file_range(
        &self,
        _request: &Request,
        _ino_in: INodeNo,
        _fh_in: FileHandle,
        _offset_in: u64,
        _ino_out: INodeNo,
        _fh_out: FileHandle,
        _offset_out: u64,
        _len: u64,
        _flags: CopyFileRangeFlags,
        reply: ReplyWrite,
    ) -> Replied {
        defaults::copy_file_range(reply)
    }

    fn destroy(&mut self) {}

    ghost deferral = { refl };
}
