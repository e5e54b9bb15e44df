//! What a filesystem answers where it wants nothing of its own: one function for each method, by its name.
ghost use Rattle.std.specs.Prelude.{◌≡◌, Ok};
ghost use Rattle.fuse_reply.specs.Answer.{IsAnswer};
ghost use Rattle.fuse_reply.specs.Answer.Answer.{Empty, Error, Open, Statfs};
ghost use Rattle.fuse_reply.specs.Frame.{reply as reply_of};
ghost use Rattle.fuse_reply.specs.declared.out.Out.{Out};
ghost use Rattle.fuse_request.specs.Forgets.{rows_of};
ghost use Rattle.fuse_wire.specs.ErrorNumbers.{ENOSYS, EPERM};
ghost use Rattle.fuse_dispatch.specs.Defaults.{IsMarkAfter, default_mark};

use bitflags::Flags;
use fuse_reply::{
    Replied, ReplyAttr, ReplyBmap, ReplyCreate, ReplyData, ReplyDirectory, ReplyDirectoryPlus,
    ReplyEmpty, ReplyEntry, ReplyInterrupt, ReplyIoctl, ReplyLock, ReplyLseek, ReplyOpen,
    ReplyPoll, ReplyStatfs, ReplyWrite, ReplyXattr,
};
use fuse_request::ForgetList;
use fuse_wire::{Errno, FileHandle, FopenFlags, INodeNo};

/// Accepts each kernel, and leaves the configuration as it is: of what is offered `FUSE_ASYNC_READ`, `FUSE_BIG_WRITES`,
/// `FUSE_MAX_PAGES` and `FUSE_INIT_EXT` are granted.
pub fn init() -> Result<(), Errno>
    ensures { result ≡ Ok tt }
{
    Ok(())
}

/// ENOSYS, which the caller gets.
pub fn lookup(reply: ReplyEntry) -> Replied
    ensures reply { result ≡ Out.Frame (reply_of reply.id (Error ENOSYS)) }
    ensures answer { IsAnswer (Error ENOSYS) }
{
    reply.error(Errno::ENOSYS)
}

/// The mark 0.
pub fn forget() -> u64
    ensures { result ≡ default_mark }
{
    0
}

/// ENOSYS, which the caller gets.
pub fn getattr(reply: ReplyAttr) -> Replied
    ensures reply { result ≡ Out.Frame (reply_of reply.id (Error ENOSYS)) }
    ensures answer { IsAnswer (Error ENOSYS) }
{
    reply.error(Errno::ENOSYS)
}

/// ENOSYS, which the caller gets.
pub fn setattr(reply: ReplyAttr) -> Replied
    ensures reply { result ≡ Out.Frame (reply_of reply.id (Error ENOSYS)) }
    ensures answer { IsAnswer (Error ENOSYS) }
{
    reply.error(Errno::ENOSYS)
}

/// ENOSYS, which the caller gets.
pub fn readlink(reply: ReplyData) -> Replied
    ensures reply { result ≡ Out.Frame (reply_of reply.id (Error ENOSYS)) }
    ensures answer { IsAnswer (Error ENOSYS) }
{
    reply.error(Errno::ENOSYS)
}

/// EPERM: there are no symbolic links.
pub fn symlink(reply: ReplyEntry) -> Replied
    ensures reply { result ≡ Out.Frame (reply_of reply.id (Error EPERM)) }
    ensures answer { IsAnswer (Error EPERM) }
{
    reply.error(Errno::EPERM)
}

/// ENOSYS, which the caller gets.
pub fn mknod(reply: ReplyEntry) -> Replied
    ensures reply { result ≡ Out.Frame (reply_of reply.id (Error ENOSYS)) }
    ensures answer { IsAnswer (Error ENOSYS) }
{
    reply.error(Errno::ENOSYS)
}

/// ENOSYS, which the caller gets.
pub fn mkdir(reply: ReplyEntry) -> Replied
    ensures reply { result ≡ Out.Frame (reply_of reply.id (Error ENOSYS)) }
    ensures answer { IsAnswer (Error ENOSYS) }
{
    reply.error(Errno::ENOSYS)
}

/// ENOSYS, which the caller gets.
pub fn unlink(reply: ReplyEmpty) -> Replied
    ensures reply { result ≡ Out.Frame (reply_of reply.id (Error ENOSYS)) }
    ensures answer { IsAnswer (Error ENOSYS) }
{
    reply.error(Errno::ENOSYS)
}

/// ENOSYS, which the caller gets.
pub fn rmdir(reply: ReplyEmpty) -> Replied
    ensures reply { result ≡ Out.Frame (reply_of reply.id (Error ENOSYS)) }
    ensures answer { IsAnswer (Error ENOSYS) }
{
    reply.error(Errno::ENOSYS)
}

/// ENOSYS, which the caller of a rename without flags gets. With flags it gets EINVAL, and so do all later ones.
pub fn rename(reply: ReplyEmpty) -> Replied
    ensures reply { result ≡ Out.Frame (reply_of reply.id (Error ENOSYS)) }
    ensures answer { IsAnswer (Error ENOSYS) }
{
    reply.error(Errno::ENOSYS)
}

/// EPERM: there are no hard links.
pub fn link(reply: ReplyEntry) -> Replied
    ensures reply { result ≡ Out.Frame (reply_of reply.id (Error EPERM)) }
    ensures answer { IsAnswer (Error EPERM) }
{
    reply.error(Errno::EPERM)
}

/// Open under the number 0, with no flags.
pub fn open(reply: ReplyOpen) -> Replied
    ensures reply { result ≡ Out.Frame (reply_of reply.id (Open 0 0)) }
    ensures answer { IsAnswer (Open 0 0) }
{
    reply.opened(FileHandle(0), FopenFlags::empty())
}

/// ENOSYS, which the caller gets.
pub fn read(reply: ReplyData) -> Replied
    ensures reply { result ≡ Out.Frame (reply_of reply.id (Error ENOSYS)) }
    ensures answer { IsAnswer (Error ENOSYS) }
{
    reply.error(Errno::ENOSYS)
}

/// ENOSYS, which the caller gets.
pub fn write(reply: ReplyWrite) -> Replied
    ensures reply { result ≡ Out.Frame (reply_of reply.id (Error ENOSYS)) }
    ensures answer { IsAnswer (Error ENOSYS) }
{
    reply.error(Errno::ENOSYS)
}

/// No blocks and no inodes; blocks of 512 bytes, and names of at most 255.
pub fn statfs(reply: ReplyStatfs) -> Replied
    ensures reply { result ≡ Out.Frame (reply_of reply.id (Statfs 0 0 0 0 0 512 255 0)) }
    ensures answer { IsAnswer (Statfs 0 0 0 0 0 512 255 0) }
{
    reply.statfs(0, 0, 0, 0, 0, 512, 255, 0)
}

/// Done.
pub fn release(reply: ReplyEmpty) -> Replied
    ensures reply { result ≡ Out.Frame (reply_of reply.id Empty) }
    ensures answer { IsAnswer Empty }
{
    reply.ok()
}

/// ENOSYS: each call succeeds, and the kernel asks no more.
pub fn fsync(reply: ReplyEmpty) -> Replied
    ensures reply { result ≡ Out.Frame (reply_of reply.id (Error ENOSYS)) }
    ensures answer { IsAnswer (Error ENOSYS) }
{
    reply.error(Errno::ENOSYS)
}

/// ENOSYS: the caller gets EOPNOTSUPP, and the kernel asks no more.
pub fn setxattr(reply: ReplyEmpty) -> Replied
    ensures reply { result ≡ Out.Frame (reply_of reply.id (Error ENOSYS)) }
    ensures answer { IsAnswer (Error ENOSYS) }
{
    reply.error(Errno::ENOSYS)
}

/// ENOSYS: the caller gets EOPNOTSUPP, and the kernel asks no more.
pub fn getxattr(reply: ReplyXattr) -> Replied
    ensures reply { result ≡ Out.Frame (reply_of reply.id (Error ENOSYS)) }
    ensures answer { IsAnswer (Error ENOSYS) }
{
    reply.error(Errno::ENOSYS)
}

/// ENOSYS: the caller gets EOPNOTSUPP, and the kernel asks no more.
pub fn listxattr(reply: ReplyXattr) -> Replied
    ensures reply { result ≡ Out.Frame (reply_of reply.id (Error ENOSYS)) }
    ensures answer { IsAnswer (Error ENOSYS) }
{
    reply.error(Errno::ENOSYS)
}

/// ENOSYS: the caller gets EOPNOTSUPP, and the kernel asks no more.
pub fn removexattr(reply: ReplyEmpty) -> Replied
    ensures reply { result ≡ Out.Frame (reply_of reply.id (Error ENOSYS)) }
    ensures answer { IsAnswer (Error ENOSYS) }
{
    reply.error(Errno::ENOSYS)
}

/// ENOSYS: each close succeeds, and the kernel asks no more.
pub fn flush(reply: ReplyEmpty) -> Replied
    ensures reply { result ≡ Out.Frame (reply_of reply.id (Error ENOSYS)) }
    ensures answer { IsAnswer (Error ENOSYS) }
{
    reply.error(Errno::ENOSYS)
}

/// Open under the number 0, with no flags.
pub fn opendir(reply: ReplyOpen) -> Replied
    ensures reply { result ≡ Out.Frame (reply_of reply.id (Open 0 0)) }
    ensures answer { IsAnswer (Open 0 0) }
{
    reply.opened(FileHandle(0), FopenFlags::empty())
}

/// ENOSYS, which the caller gets.
pub fn readdir(reply: ReplyDirectory) -> Replied
    ensures reply { result ≡ Out.Frame (reply_of reply.id (Error ENOSYS)) }
    ensures answer { IsAnswer (Error ENOSYS) }
{
    reply.error(Errno::ENOSYS)
}

/// Done.
pub fn releasedir(reply: ReplyEmpty) -> Replied
    ensures reply { result ≡ Out.Frame (reply_of reply.id Empty) }
    ensures answer { IsAnswer Empty }
{
    reply.ok()
}

/// ENOSYS: each call succeeds, and the kernel asks no more.
pub fn fsyncdir(reply: ReplyEmpty) -> Replied
    ensures reply { result ≡ Out.Frame (reply_of reply.id (Error ENOSYS)) }
    ensures answer { IsAnswer (Error ENOSYS) }
{
    reply.error(Errno::ENOSYS)
}

/// ENOSYS, which the caller gets.
pub fn getlk(reply: ReplyLock) -> Replied
    ensures reply { result ≡ Out.Frame (reply_of reply.id (Error ENOSYS)) }
    ensures answer { IsAnswer (Error ENOSYS) }
{
    reply.error(Errno::ENOSYS)
}

/// ENOSYS, which the caller gets.
pub fn setlk(reply: ReplyEmpty) -> Replied
    ensures reply { result ≡ Out.Frame (reply_of reply.id (Error ENOSYS)) }
    ensures answer { IsAnswer (Error ENOSYS) }
{
    reply.error(Errno::ENOSYS)
}

/// ENOSYS: each access is allowed, and the kernel asks no more.
pub fn access(reply: ReplyEmpty) -> Replied
    ensures reply { result ≡ Out.Frame (reply_of reply.id (Error ENOSYS)) }
    ensures answer { IsAnswer (Error ENOSYS) }
{
    reply.error(Errno::ENOSYS)
}

/// ENOSYS: the kernel sends MKNOD and then OPEN, and no more CREATE.
pub fn create(reply: ReplyCreate) -> Replied
    ensures reply { result ≡ Out.Frame (reply_of reply.id (Error ENOSYS)) }
    ensures answer { IsAnswer (Error ENOSYS) }
{
    reply.error(Errno::ENOSYS)
}

/// ENOSYS: the request goes on, and the kernel sends no INTERRUPT any more.
pub fn interrupt(reply: ReplyInterrupt) -> Replied
    ensures reply { result ≡ Out.Frame (reply_of reply.id (Error ENOSYS)) }
    ensures answer { IsAnswer (Error ENOSYS) }
{
    reply.error(Errno::ENOSYS)
}

/// ENOSYS: the kernel asks no more.
pub fn bmap(reply: ReplyBmap) -> Replied
    ensures reply { result ≡ Out.Frame (reply_of reply.id (Error ENOSYS)) }
    ensures answer { IsAnswer (Error ENOSYS) }
{
    reply.error(Errno::ENOSYS)
}

/// ENOSYS, which newer kernels turn into ENOTTY.
pub fn ioctl(reply: ReplyIoctl) -> Replied
    ensures reply { result ≡ Out.Frame (reply_of reply.id (Error ENOSYS)) }
    ensures answer { IsAnswer (Error ENOSYS) }
{
    reply.error(Errno::ENOSYS)
}

/// ENOSYS: the kernel takes every file for ready, and asks no more.
pub fn poll(reply: ReplyPoll) -> Replied
    ensures reply { result ≡ Out.Frame (reply_of reply.id (Error ENOSYS)) }
    ensures answer { IsAnswer (Error ENOSYS) }
{
    reply.error(Errno::ENOSYS)
}

/// Calls `forget` for each row, in order. The mark that it gave for the last one, or 0 where there is no row.
pub fn batch_forget<F: FnMut(INodeNo, u64) -> u64>(nodes: ForgetList<'_>, mut forget: F) -> u64
    requires { F.IsAlwaysCallable forget }
    ensures { IsMarkAfter (λ f ino nlookup. F.step f (record { 0 = ino }) nlookup) forget (rows_of nodes.entry)
        default_mark result }
{
    let mut mark = 0;
    for place in 0..nodes.len() {
        if let Some(row) = nodes.get(place) {
            mark = forget(row.nodeid(), row.nlookup());
        }
    }
    mark
}

/// ENOSYS: the caller gets EOPNOTSUPP, and the kernel asks no more.
pub fn fallocate(reply: ReplyEmpty) -> Replied
    ensures reply { result ≡ Out.Frame (reply_of reply.id (Error ENOSYS)) }
    ensures answer { IsAnswer (Error ENOSYS) }
{
    reply.error(Errno::ENOSYS)
}

/// ENOSYS, which the caller gets.
pub fn readdirplus(reply: ReplyDirectoryPlus) -> Replied
    ensures reply { result ≡ Out.Frame (reply_of reply.id (Error ENOSYS)) }
    ensures answer { IsAnswer (Error ENOSYS) }
{
    reply.error(Errno::ENOSYS)
}

/// ENOSYS: the kernel takes a file for contents up to its end, and asks no more.
pub fn lseek(reply: ReplyLseek) -> Replied
    ensures reply { result ≡ Out.Frame (reply_of reply.id (Error ENOSYS)) }
    ensures answer { IsAnswer (Error ENOSYS) }
{
    reply.error(Errno::ENOSYS)
}

/// ENOSYS: the kernel copies by reads and writes, and asks no more.
pub fn copy_file_range(reply: ReplyWrite) -> Replied
    ensures reply { result ≡ Out.Frame (reply_of reply.id (Error ENOSYS)) }
    ensures answer { IsAnswer (Error ENOSYS) }
{
    reply.error(Errno::ENOSYS)
}

/// Does nothing.
pub fn destroy() {}
