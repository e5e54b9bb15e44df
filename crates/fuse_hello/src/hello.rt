// The tree that the program serves.
ghost use Rattle.std.specs.Prelude.{◌≡◌, ◌<◌, ◌+◌, [], Some, false, refl, take, drop, option_map, slice_get};
ghost use Rattle.fuse_wire.specs.Times.{nanos_per_second};
ghost use Rattle.fuse_reply.specs.Listing.{fitting, listing};
ghost use Rattle.fuse_hello.specs.Tree.{attr, contents, member, members, tree_named, node_attr, tree_promise};

use fuse_config::KernelConfig;
use fuse_dispatch::{Filesystem, defaults};
use fuse_notify::PollNotifier;
use fuse_reply::{
    Replied, ReplyAttr, ReplyBmap, ReplyCreate, ReplyData, ReplyDirectory, ReplyDirectoryPlus,
    ReplyEmpty, ReplyEntry, ReplyInterrupt, ReplyIoctl, ReplyLock, ReplyLseek, ReplyOpen,
    ReplyPoll, ReplyStatfs, ReplyWrite, ReplyXattr,
};
use fuse_request::{ForgetList, Request};
use fuse_wire::{
    AccessFlags, BsdFileFlags, CopyFileRangeFlags, Duration, Errno, FileAttr, FileHandle, FileType,
    Generation, INodeNo, IoctlFlags, LockOwner, OpenFlags, PollEvents, PollFlags, RenameFlags,
    RequestId, SetxattrFlags, SystemTime, TimeOrNow, WriteFlags,
};

/// What `hello.txt` holds.
const GREETING: &[u8; 13] = b"Hello World!\n";

/// What `big` holds: the numbers from 0 to 199.
const NUMBERS: &[u8; 200] = &[
    0, 1, 2, 3, 4, 5, 6, 7, 8, 9, 10, 11, 12, 13, 14, 15, 16, 17, 18, 19, 20, 21, 22, 23, 24, 25,
    26, 27, 28, 29, 30, 31, 32, 33, 34, 35, 36, 37, 38, 39, 40, 41, 42, 43, 44, 45, 46, 47, 48, 49,
    50, 51, 52, 53, 54, 55, 56, 57, 58, 59, 60, 61, 62, 63, 64, 65, 66, 67, 68, 69, 70, 71, 72, 73,
    74, 75, 76, 77, 78, 79, 80, 81, 82, 83, 84, 85, 86, 87, 88, 89, 90, 91, 92, 93, 94, 95, 96, 97,
    98, 99, 100, 101, 102, 103, 104, 105, 106, 107, 108, 109, 110, 111, 112, 113, 114, 115, 116,
    117, 118, 119, 120, 121, 122, 123, 124, 125, 126, 127, 128, 129, 130, 131, 132, 133, 134, 135,
    136, 137, 138, 139, 140, 141, 142, 143, 144, 145, 146, 147, 148, 149, 150, 151, 152, 153, 154,
    155, 156, 157, 158, 159, 160, 161, 162, 163, 164, 165, 166, 167, 168, 169, 170, 171, 172, 173,
    174, 175, 176, 177, 178, 179, 180, 181, 182, 183, 184, 185, 186, 187, 188, 189, 190, 191, 192,
    193, 194, 195, 196, 197, 198, 199,
];

/// A small tree of files: the directory 1 with `hello.txt`, node 2, and `big`, node 3. It leaves what INIT negotiates
/// as it is, and has nothing to do when the session is over.
#[derive(Clone, Copy, Debug, PartialEq, Eq)]
pub struct Hello;

/// Attributes of a node, whose owner and whose times are 0.
fn attr(ino: u64, kind: FileType, perm: u16, nlink: u32, size: u64, blocks: u64) -> FileAttr
    ensures { result ≡ attr ino kind perm nlink size blocks }
{
    let epoch = SystemTime(0);
    FileAttr {
        ino: INodeNo(ino),
        size,
        blocks,
        atime: epoch,
        mtime: epoch,
        ctime: epoch,
        crtime: epoch,
        kind,
        perm,
        nlink,
        uid: 0,
        gid: 0,
        rdev: 0,
        blksize: 512,
        flags: 0,
    }
}

/// How many entries the directory has.
const MEMBERS: usize = 4;

/// The entry at this place of the directory: its node, its kind and its name.
fn member(place: usize) -> (INodeNo, FileType, &'static [u8])
    requires { place < MEMBERS }
    ensures { slice_get members place ≡ Some (member result.0.0 (place + 1) result.1 result.2.now) }
{
    match place {
        0 => (INodeNo::ROOT, FileType::Directory, b"."),
        1 => (INodeNo::ROOT, FileType::Directory, b".."),
        2 => (INodeNo(2), FileType::RegularFile, b"hello.txt"),
        _ => (INodeNo(3), FileType::RegularFile, b"big"),
    }
}

/// Adds the entries after the first so many, up to the first that does not fit.
fn add_members(reply: &mut ReplyDirectory, offset: u64)
    requires { reply.old.held ≡ [] }
    ensures { reply.new ≡ record reply.old { held = listing (fitting reply.old.size 0 (drop offset members)) } }
{
    let first = offset.min(MEMBERS as u64) as usize;
    for place in first..MEMBERS {
        let (ino, kind, name) = member(place);
        // All entries are held without memory, so that each one which fits is taken.
        let Ok(full) = reply.add(ino, place as u64 + 1, kind, name) else {
            return;
        };
        if full {
            return;
        }
    }
}

/// The attributes of a node.
fn node_attr(ino: u64) -> Option<FileAttr>
    ensures { result ≡ node_attr ino }
{
    match ino {
        1 => Some(attr(1, FileType::Directory, 0o755, 2, 0, 0)),
        2 => Some(attr(2, FileType::RegularFile, 0o644, 1, 13, 1)),
        3 => Some(attr(3, FileType::RegularFile, 0o644, 1, 200, 1)),
        _ => None,
    }
}

/// The attributes of the node of this name in the directory.
fn named(name: &[u8]) -> Option<FileAttr>
    ensures { result ≡ tree_named name.now }
{
    if name == b"hello.txt".as_slice() {
        node_attr(2)
    } else if name == b"big".as_slice() {
        node_attr(3)
    } else {
        None
    }
}

/// What a file holds.
fn contents(ino: u64) -> Option<&'static [u8]>
    ensures { option_map (λ all. all.now) result ≡ contents ino }
{
    match ino {
        2 => Some(GREETING),
        3 => Some(NUMBERS),
        _ => None,
    }
}

/// The bytes from the offset on, at most so many.
fn part(all: &[u8], offset: u64, size: u32) -> &[u8]
    ensures { result.now ≡ take size (drop offset all.now) }
{
    let rest = all.get(offset as usize..).unwrap_or(&[]);
    rest.get(..size as usize).unwrap_or(rest)
}

/// How long entries and attributes hold.
fn a_second() -> Duration
    ensures { result ≡ nanos_per_second }
{
    Duration::new(1, 0)
}

impl Filesystem for Hello {
    ghost promise = { tree_promise };

    const DEFERS: bool = false;

    ghost DEFERS = { false };

    fn init(&mut self, _request: &Request, _config: &mut KernelConfig) -> Result<(), Errno> {
        defaults::init()
    }

    fn lookup(
        &self,
        _request: &Request,
        parent: INodeNo,
        name: &[u8],
        reply: ReplyEntry,
    ) -> Replied {
        if parent != INodeNo::ROOT {
            return reply.error(Errno::ENOENT);
        }
        let Some(found) = named(name) else {
            return reply.error(Errno::ENOENT);
        };
        reply.entry(&a_second(), &found, Generation(0))
    }

    fn forget(&self, _request: &Request, _ino: INodeNo, nlookup: u64) -> u64 {
        nlookup
    }

    fn getattr(
        &self,
        _request: &Request,
        ino: INodeNo,
        _fh: Option<FileHandle>,
        reply: ReplyAttr,
    ) -> Replied {
        let Some(found) = node_attr(ino.0) else {
            return reply.error(Errno::ENOENT);
        };
        reply.attr(&a_second(), &found)
    }

    fn setattr(
        &self,
        _request: &Request,
        _ino: INodeNo,
        _mode: Option<u32>,
        _uid: Option<u32>,
        _gid: Option<u32>,
        _size: Option<u64>,
        _atime: Option<TimeOrNow>,
        _mtime: Option<TimeOrNow>,
        _ctime: Option<SystemTime>,
        _fh: Option<FileHandle>,
        _crtime: Option<SystemTime>,
        _chgtime: Option<SystemTime>,
        _bkuptime: Option<SystemTime>,
        _flags: Option<BsdFileFlags>,
        reply: ReplyAttr,
    ) -> Replied {
        defaults::setattr(reply)
    }

    fn readlink(&self, _request: &Request, _ino: INodeNo, reply: ReplyData) -> Replied {
        defaults::readlink(reply)
    }

    fn symlink(
        &self,
        _request: &Request,
        _parent: INodeNo,
        _link_name: &[u8],
        _target: &[u8],
        reply: ReplyEntry,
    ) -> Replied {
        defaults::symlink(reply)
    }

    fn mknod(
        &self,
        _request: &Request,
        _parent: INodeNo,
        _name: &[u8],
        _mode: u32,
        _umask: u32,
        _rdev: u32,
        reply: ReplyEntry,
    ) -> Replied {
        defaults::mknod(reply)
    }

    fn mkdir(
        &self,
        _request: &Request,
        _parent: INodeNo,
        _name: &[u8],
        _mode: u32,
        _umask: u32,
        reply: ReplyEntry,
    ) -> Replied {
        defaults::mkdir(reply)
    }

    fn unlink(
        &self,
        _request: &Request,
        _parent: INodeNo,
        _name: &[u8],
        reply: ReplyEmpty,
    ) -> Replied {
        defaults::unlink(reply)
    }

    fn rmdir(
        &self,
        _request: &Request,
        _parent: INodeNo,
        _name: &[u8],
        reply: ReplyEmpty,
    ) -> Replied {
        defaults::rmdir(reply)
    }

    fn rename(
        &self,
        _request: &Request,
        _parent: INodeNo,
        _name: &[u8],
        _newparent: INodeNo,
        _newname: &[u8],
        _flags: RenameFlags,
        reply: ReplyEmpty,
    ) -> Replied {
        defaults::rename(reply)
    }

    fn link(
        &self,
        _request: &Request,
        _ino: INodeNo,
        _newparent: INodeNo,
        _newname: &[u8],
        reply: ReplyEntry,
    ) -> Replied {
        defaults::link(reply)
    }

    fn open(
        &self,
        _request: &Request,
        _ino: INodeNo,
        _flags: OpenFlags,
        reply: ReplyOpen,
    ) -> Replied {
        defaults::open(reply)
    }

    #[inline(always)]
    fn read(
        &self,
        _request: &Request,
        ino: INodeNo,
        _fh: FileHandle,
        offset: u64,
        size: u32,
        _flags: OpenFlags,
        _lock_owner: Option<LockOwner>,
        reply: ReplyData,
    ) -> Replied {
        let Some(all) = contents(ino.0) else {
            return reply.error(Errno::ENOENT);
        };
        reply.data(part(all, offset, size))
    }

    fn write(
        &self,
        _request: &Request,
        _ino: INodeNo,
        _fh: FileHandle,
        _offset: u64,
        _written: &[u8],
        _write_flags: WriteFlags,
        _flags: OpenFlags,
        _lock_owner: Option<LockOwner>,
        reply: ReplyWrite,
    ) -> Replied {
        defaults::write(reply)
    }

    fn statfs(&self, _request: &Request, _ino: INodeNo, reply: ReplyStatfs) -> Replied {
        defaults::statfs(reply)
    }

    fn release(
        &self,
        _request: &Request,
        _ino: INodeNo,
        _fh: FileHandle,
        _flags: OpenFlags,
        _lock_owner: Option<LockOwner>,
        _flush: bool,
        reply: ReplyEmpty,
    ) -> Replied {
        defaults::release(reply)
    }

    fn fsync(
        &self,
        _request: &Request,
        _ino: INodeNo,
        _fh: FileHandle,
        _datasync: bool,
        reply: ReplyEmpty,
    ) -> Replied {
        defaults::fsync(reply)
    }

    fn setxattr(
        &self,
        _request: &Request,
        _ino: INodeNo,
        _name: &[u8],
        _value: &[u8],
        _flags: i32,
        _position: u32,
        _setxattr_flags: SetxattrFlags,
        reply: ReplyEmpty,
    ) -> Replied {
        defaults::setxattr(reply)
    }

    fn getxattr(
        &self,
        _request: &Request,
        _ino: INodeNo,
        _name: &[u8],
        _size: u32,
        reply: ReplyXattr,
    ) -> Replied {
        defaults::getxattr(reply)
    }

    fn listxattr(
        &self,
        _request: &Request,
        _ino: INodeNo,
        _size: u32,
        reply: ReplyXattr,
    ) -> Replied {
        defaults::listxattr(reply)
    }

    fn removexattr(
        &self,
        _request: &Request,
        _ino: INodeNo,
        _name: &[u8],
        reply: ReplyEmpty,
    ) -> Replied {
        defaults::removexattr(reply)
    }

    fn flush(
        &self,
        _request: &Request,
        _ino: INodeNo,
        _fh: FileHandle,
        _lock_owner: LockOwner,
        reply: ReplyEmpty,
    ) -> Replied {
        defaults::flush(reply)
    }

    fn opendir(
        &self,
        _request: &Request,
        _ino: INodeNo,
        _flags: OpenFlags,
        reply: ReplyOpen,
    ) -> Replied {
        defaults::opendir(reply)
    }

    fn readdir(
        &self,
        _request: &Request,
        ino: INodeNo,
        _fh: FileHandle,
        offset: u64,
        mut reply: ReplyDirectory,
    ) -> Replied {
        if ino != INodeNo::ROOT {
            return reply.error(Errno::ENOENT);
        }
        add_members(&mut reply, offset);
        reply.ok()
    }

    fn releasedir(
        &self,
        _request: &Request,
        _ino: INodeNo,
        _fh: FileHandle,
        _flags: OpenFlags,
        reply: ReplyEmpty,
    ) -> Replied {
        defaults::releasedir(reply)
    }

    fn fsyncdir(
        &self,
        _request: &Request,
        _ino: INodeNo,
        _fh: FileHandle,
        _datasync: bool,
        reply: ReplyEmpty,
    ) -> Replied {
        defaults::fsyncdir(reply)
    }

    fn getlk(
        &self,
        _request: &Request,
        _ino: INodeNo,
        _fh: FileHandle,
        _lock_owner: LockOwner,
        _start: u64,
        _end: u64,
        _typ: i32,
        _pid: u32,
        reply: ReplyLock,
    ) -> Replied {
        defaults::getlk(reply)
    }

    fn setlk(
        &self,
        _request: &Request,
        _ino: INodeNo,
        _fh: FileHandle,
        _lock_owner: LockOwner,
        _start: u64,
        _end: u64,
        _typ: i32,
        _pid: u32,
        _sleep: bool,
        reply: ReplyEmpty,
    ) -> Replied {
        defaults::setlk(reply)
    }

    fn access(
        &self,
        _request: &Request,
        _ino: INodeNo,
        _mask: AccessFlags,
        reply: ReplyEmpty,
    ) -> Replied {
        defaults::access(reply)
    }

    fn create(
        &self,
        _request: &Request,
        _parent: INodeNo,
        _name: &[u8],
        _mode: u32,
        _umask: u32,
        _flags: i32,
        reply: ReplyCreate,
    ) -> Replied {
        defaults::create(reply)
    }

    fn interrupt(&self, _request: &Request, _target: RequestId, reply: ReplyInterrupt) -> Replied {
        defaults::interrupt(reply)
    }

    fn bmap(
        &self,
        _request: &Request,
        _ino: INodeNo,
        _blocksize: u32,
        _idx: u64,
        reply: ReplyBmap,
    ) -> Replied {
        defaults::bmap(reply)
    }

    fn ioctl(
        &self,
        _request: &Request,
        _ino: INodeNo,
        _fh: FileHandle,
        _flags: IoctlFlags,
        _cmd: u32,
        _in_data: &[u8],
        _out_size: u32,
        reply: ReplyIoctl,
    ) -> Replied {
        defaults::ioctl(reply)
    }

    fn poll(
        &self,
        _request: &Request,
        _ino: INodeNo,
        _fh: FileHandle,
        _ph: PollNotifier,
        _events: PollEvents,
        _flags: PollFlags,
        reply: ReplyPoll,
    ) -> Replied {
        defaults::poll(reply)
    }

    fn batch_forget(&self, _request: &Request, nodes: ForgetList<'_>) -> u64 {
        nodes.len() as u64
    }

    fn fallocate(
        &self,
        _request: &Request,
        _ino: INodeNo,
        _fh: FileHandle,
        _offset: u64,
        _length: u64,
        _mode: i32,
        reply: ReplyEmpty,
    ) -> Replied {
        defaults::fallocate(reply)
    }

    fn readdirplus(
        &self,
        _request: &Request,
        _ino: INodeNo,
        _fh: FileHandle,
        _offset: u64,
        reply: ReplyDirectoryPlus,
    ) -> Replied {
        defaults::readdirplus(reply)
    }

    fn lseek(
        &self,
        _request: &Request,
        _ino: INodeNo,
        _fh: FileHandle,
        _offset: i64,
        _whence: i32,
        reply: ReplyLseek,
    ) -> Replied {
        defaults::lseek(reply)
    }

    fn copy_file_range(
        &self,
        _request: &Request,
        _ino_in: INodeNo,
        _fh_in: FileHandle,
        _offset_in: u64,
        _ino_out: INodeNo,
        _fh_out: FileHandle,
        _offset_out: u64,
        _len: u64,
        _flags: CopyFileRangeFlags,
        reply: ReplyWrite,
    ) -> Replied {
        defaults::copy_file_range(reply)
    }

    fn destroy(&mut self) {
        defaults::destroy()
    }

    ghost deferral = { refl };
}
