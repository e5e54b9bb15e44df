// How a filesystem is asked.
ghost use Rattle.std.proofs.Common.{◌∙◌, inl, inr, refl};
ghost use Rattle.fuse_dispatch.specs.OwedMessage.{OwedBy};

use crate::Filesystem;
use crate::asked::Asked;
use crate::giving::Giving;
use crate::handler::Handler;
use bitflags::Flags;
use fuse_notify::Notifier;
use fuse_reply::{Out, ReplyInterrupt};
use fuse_request::{
    Access, BMap, BatchForget, CopyFileRange, Create, FAllocate, FSync, FSyncDir, Flush, Forget,
    GetAttr, GetLk, GetXAttr, Interrupt, IoCtl, Link, ListXAttr, Lookup, Lseek, MkDir, MkNod, Open,
    OpenDir, Poll, Read, ReadDir, ReadDirPlus, ReadLink, Release, ReleaseDir, RemoveXAttr, Rename,
    Rename2, RmDir, SetAttr, SetLk, SetXAttr, StatFs, SymLink, Unlink, Write,
};
use fuse_wire::{Errno, RenameFlags};

/// A filesystem, which is asked what reaches it. Each of its methods here is inlined into the table of operations: the
/// frame of an arm that is called would stay in memory for all arms.
#[derive(Drop)]
pub struct Asking<FS> {
    /// The filesystem.
    pub filesystem: FS,
}

impl<FS: Filesystem> Handler for Asking<FS> {
    ghost owes = { λ handler. OwedBy FS.promise handler.filesystem };

    const DEFERS: bool = FS::DEFERS;

    ghost DEFERS = { FS.DEFERS };

    #[inline(always)]
    fn lookup<G: Giving>(&self, asked: &Asked, giving: G, operation: &Lookup<'_>) -> Out {
        let reply = giving.reply(asked);
        self.filesystem
            .lookup(&asked.request, asked.node, operation.name(), reply)
            .into_out()
    }

    #[inline(always)]
    fn forget<G: Giving>(&self, asked: &Asked, giving: G, operation: &Forget) -> Out {
        giving.unused();
        let mark = self
            .filesystem
            .forget(&asked.request, asked.node, operation.nlookup());
        Out::note(asked.id, mark)
    }

    #[inline(always)]
    fn getattr<G: Giving>(&self, asked: &Asked, giving: G, operation: &GetAttr) -> Out {
        let reply = giving.reply(asked);
        self.filesystem
            .getattr(&asked.request, asked.node, operation.file_handle(), reply)
            .into_out()
    }

    #[inline(always)]
    fn setattr<G: Giving>(&self, asked: &Asked, giving: G, operation: &SetAttr) -> Out {
        let (mode, uid, gid, size) = (
            operation.mode(),
            operation.uid(),
            operation.gid(),
            operation.size(),
        );
        let (atime, mtime, ctime) = (operation.atime(), operation.mtime(), operation.ctime());
        let (crtime, chgtime, bkuptime) = (
            operation.crtime(),
            operation.chgtime(),
            operation.bkuptime(),
        );
        let (fh, flags) = (operation.file_handle(), operation.flags());
        let reply = giving.reply(asked);
        self.filesystem
            .setattr(
                &asked.request,
                asked.node,
                mode,
                uid,
                gid,
                size,
                atime,
                mtime,
                ctime,
                fh,
                crtime,
                chgtime,
                bkuptime,
                flags,
                reply,
            )
            .into_out()
    }

    #[inline(always)]
    fn readlink<G: Giving>(&self, asked: &Asked, giving: G, _readlink: &ReadLink) -> Out {
        let reply = giving.reply(asked);
        self.filesystem
            .readlink(&asked.request, asked.node, reply)
            .into_out()
    }

    #[inline(always)]
    fn symlink<G: Giving>(&self, asked: &Asked, giving: G, operation: &SymLink<'_>) -> Out {
        let (link_name, target) = (operation.link_name(), operation.target());
        let reply = giving.reply(asked);
        self.filesystem
            .symlink(&asked.request, asked.node, link_name, target, reply)
            .into_out()
    }

    #[inline(always)]
    fn mknod<G: Giving>(&self, asked: &Asked, giving: G, operation: &MkNod<'_>) -> Out {
        let (mode, umask, rdev) = (operation.mode(), operation.umask(), operation.rdev());
        let reply = giving.reply(asked);
        self.filesystem
            .mknod(
                &asked.request,
                asked.node,
                operation.name(),
                mode,
                umask,
                rdev,
                reply,
            )
            .into_out()
    }

    #[inline(always)]
    fn mkdir<G: Giving>(&self, asked: &Asked, giving: G, operation: &MkDir<'_>) -> Out {
        let (mode, umask) = (operation.mode(), operation.umask());
        let reply = giving.reply(asked);
        self.filesystem
            .mkdir(
                &asked.request,
                asked.node,
                operation.name(),
                mode,
                umask,
                reply,
            )
            .into_out()
    }

    #[inline(always)]
    fn unlink<G: Giving>(&self, asked: &Asked, giving: G, operation: &Unlink<'_>) -> Out {
        let reply = giving.reply(asked);
        self.filesystem
            .unlink(&asked.request, asked.node, operation.name(), reply)
            .into_out()
    }

    #[inline(always)]
    fn rmdir<G: Giving>(&self, asked: &Asked, giving: G, operation: &RmDir<'_>) -> Out {
        let reply = giving.reply(asked);
        self.filesystem
            .rmdir(&asked.request, asked.node, operation.name(), reply)
            .into_out()
    }

    #[inline(always)]
    fn rename<G: Giving>(&self, asked: &Asked, giving: G, operation: &Rename<'_>) -> Out {
        let (src, dest) = (operation.src(), operation.dest());
        let no_flags = RenameFlags::empty();
        let reply = giving.reply(asked);
        self.filesystem
            .rename(
                &asked.request,
                asked.node,
                src.name,
                dest.dir,
                dest.name,
                no_flags,
                reply,
            )
            .into_out()
    }

    #[inline(always)]
    fn link<G: Giving>(&self, asked: &Asked, giving: G, operation: &Link<'_>) -> Out {
        let reply = giving.reply(asked);
        self.filesystem
            .link(
                &asked.request,
                operation.inode_no(),
                asked.node,
                operation.dest().name,
                reply,
            )
            .into_out()
    }

    #[inline(always)]
    fn open<G: Giving>(&self, asked: &Asked, giving: G, operation: &Open) -> Out {
        let reply = giving.reply(asked);
        self.filesystem
            .open(&asked.request, asked.node, operation.flags(), reply)
            .into_out()
    }

    #[inline(always)]
    fn read<G: Giving>(&self, asked: &Asked, giving: G, operation: &Read) -> Out {
        let offset = match operation.offset() {
            Ok(offset) => offset,
            Err(error) => return giving.refusal(asked, error),
        };
        let (fh, size, flags, owner) = (
            operation.file_handle(),
            operation.size(),
            operation.flags(),
            operation.lock_owner(),
        );
        let reply = giving.reply(asked);
        self.filesystem
            .read(
                &asked.request,
                asked.node,
                fh,
                offset,
                size,
                flags,
                owner,
                reply,
            )
            .into_out()
    }

    #[inline(always)]
    fn write<G: Giving>(&self, asked: &Asked, giving: G, operation: &Write<'_>) -> Out {
        let offset = match operation.offset() {
            Ok(offset) => offset,
            Err(error) => return giving.refusal(asked, error),
        };
        let (fh, written, write_flags) = (
            operation.file_handle(),
            operation.data(),
            operation.write_flags(),
        );
        let (flags, owner) = (operation.flags(), operation.lock_owner());
        let reply = giving.reply(asked);
        self.filesystem
            .write(
                &asked.request,
                asked.node,
                fh,
                offset,
                written,
                write_flags,
                flags,
                owner,
                reply,
            )
            .into_out()
    }

    #[inline(always)]
    fn statfs<G: Giving>(&self, asked: &Asked, giving: G, _statfs: &StatFs) -> Out {
        let reply = giving.reply(asked);
        self.filesystem
            .statfs(&asked.request, asked.node, reply)
            .into_out()
    }

    #[inline(always)]
    fn release<G: Giving>(&self, asked: &Asked, giving: G, operation: &Release) -> Out {
        let (fh, flags) = (operation.file_handle(), operation.flags());
        let (owner, flush) = (operation.lock_owner(), operation.flush());
        let reply = giving.reply(asked);
        self.filesystem
            .release(&asked.request, asked.node, fh, flags, owner, flush, reply)
            .into_out()
    }

    #[inline(always)]
    fn fsync<G: Giving>(&self, asked: &Asked, giving: G, operation: &FSync) -> Out {
        let reply = giving.reply(asked);
        self.filesystem
            .fsync(
                &asked.request,
                asked.node,
                operation.file_handle(),
                operation.fdatasync(),
                reply,
            )
            .into_out()
    }

    #[inline(always)]
    fn setxattr<G: Giving>(&self, asked: &Asked, giving: G, operation: &SetXAttr<'_>) -> Out {
        let (name, value) = (operation.name(), operation.value());
        let (flags, position) = (operation.flags(), operation.position());
        let setxattr_flags = operation.setxattr_flags();
        let reply = giving.reply(asked);
        self.filesystem
            .setxattr(
                &asked.request,
                asked.node,
                name,
                value,
                flags,
                position,
                setxattr_flags,
                reply,
            )
            .into_out()
    }

    #[inline(always)]
    fn getxattr<G: Giving>(&self, asked: &Asked, giving: G, operation: &GetXAttr<'_>) -> Out {
        let reply = giving.reply(asked);
        self.filesystem
            .getxattr(
                &asked.request,
                asked.node,
                operation.name(),
                operation.size_u32(),
                reply,
            )
            .into_out()
    }

    #[inline(always)]
    fn listxattr<G: Giving>(&self, asked: &Asked, giving: G, operation: &ListXAttr) -> Out {
        let reply = giving.reply(asked);
        self.filesystem
            .listxattr(&asked.request, asked.node, operation.size(), reply)
            .into_out()
    }

    #[inline(always)]
    fn removexattr<G: Giving>(&self, asked: &Asked, giving: G, operation: &RemoveXAttr<'_>) -> Out {
        let reply = giving.reply(asked);
        self.filesystem
            .removexattr(&asked.request, asked.node, operation.name(), reply)
            .into_out()
    }

    #[inline(always)]
    fn flush<G: Giving>(&self, asked: &Asked, giving: G, operation: &Flush) -> Out {
        let reply = giving.reply(asked);
        self.filesystem
            .flush(
                &asked.request,
                asked.node,
                operation.file_handle(),
                operation.lock_owner(),
                reply,
            )
            .into_out()
    }

    #[inline(always)]
    fn opendir<G: Giving>(&self, asked: &Asked, giving: G, operation: &OpenDir) -> Out {
        let reply = giving.reply(asked);
        self.filesystem
            .opendir(&asked.request, asked.node, operation.flags(), reply)
            .into_out()
    }

    #[inline(always)]
    fn readdir<G: Giving>(&self, asked: &Asked, giving: G, operation: &ReadDir) -> Out {
        let (fh, offset) = (operation.file_handle(), operation.offset());
        let reply = giving.listing(asked, operation.size());
        self.filesystem
            .readdir(&asked.request, asked.node, fh, offset, reply)
            .into_out()
    }

    #[inline(always)]
    fn releasedir<G: Giving>(&self, asked: &Asked, giving: G, operation: &ReleaseDir) -> Out {
        let (fh, flags) = (operation.file_handle(), operation.flags());
        let reply = giving.reply(asked);
        self.filesystem
            .releasedir(&asked.request, asked.node, fh, flags, reply)
            .into_out()
    }

    #[inline(always)]
    fn fsyncdir<G: Giving>(&self, asked: &Asked, giving: G, operation: &FSyncDir) -> Out {
        let (fh, datasync) = (operation.file_handle(), operation.fdatasync());
        let reply = giving.reply(asked);
        self.filesystem
            .fsyncdir(&asked.request, asked.node, fh, datasync, reply)
            .into_out()
    }

    #[inline(always)]
    fn getlk<G: Giving>(&self, asked: &Asked, giving: G, operation: &GetLk) -> Out {
        let (fh, owner, lock) = (
            operation.file_handle(),
            operation.lock_owner(),
            operation.lock(),
        );
        let (start, end) = lock.range;
        let reply = giving.reply(asked);
        self.filesystem
            .getlk(
                &asked.request,
                asked.node,
                fh,
                owner,
                start,
                end,
                lock.typ,
                lock.pid,
                reply,
            )
            .into_out()
    }

    #[inline(always)]
    fn setlk<G: Giving>(&self, asked: &Asked, giving: G, operation: &SetLk) -> Out {
        let (fh, owner, lock) = (
            operation.file_handle(),
            operation.lock_owner(),
            operation.lock(),
        );
        let (start, end) = lock.range;
        let reply = giving.reply(asked);
        self.filesystem
            .setlk(
                &asked.request,
                asked.node,
                fh,
                owner,
                start,
                end,
                lock.typ,
                lock.pid,
                operation.sleep(),
                reply,
            )
            .into_out()
    }

    #[inline(always)]
    fn access<G: Giving>(&self, asked: &Asked, giving: G, operation: &Access) -> Out {
        let reply = giving.reply(asked);
        self.filesystem
            .access(&asked.request, asked.node, operation.mask(), reply)
            .into_out()
    }

    #[inline(always)]
    fn create<G: Giving>(&self, asked: &Asked, giving: G, operation: &Create<'_>) -> Out {
        let (mode, umask) = (operation.mode(), operation.umask());
        let reply = giving.reply(asked);
        self.filesystem
            .create(
                &asked.request,
                asked.node,
                operation.name(),
                mode,
                umask,
                operation.flags(),
                reply,
            )
            .into_out()
    }

    #[inline(always)]
    fn interrupt<G: Giving>(&self, asked: &Asked, giving: G, operation: &Interrupt) -> Out {
        giving.unused();
        let target = operation.unique();
        let reply = ReplyInterrupt::new(asked.alloc, asked.id, target);
        self.filesystem
            .interrupt(&asked.request, target, reply)
            .into_out()
    }

    #[inline(always)]
    fn bmap<G: Giving>(&self, asked: &Asked, giving: G, operation: &BMap) -> Out {
        let reply = giving.reply(asked);
        self.filesystem
            .bmap(
                &asked.request,
                asked.node,
                operation.block_size(),
                operation.block(),
                reply,
            )
            .into_out()
    }

    #[inline(always)]
    fn ioctl<G: Giving>(&self, asked: &Asked, giving: G, operation: &IoCtl<'_>) -> Out {
        if operation.unrestricted() {
            return giving.refusal(asked, Errno::ENOSYS);
        }
        let (fh, flags, command) = (
            operation.file_handle(),
            operation.flags(),
            operation.command(),
        );
        let (in_data, out_size) = (operation.in_data(), operation.out_size());
        let reply = giving.reply(asked);
        self.filesystem
            .ioctl(
                &asked.request,
                asked.node,
                fh,
                flags,
                command,
                in_data,
                out_size,
                reply,
            )
            .into_out()
    }

    #[inline(always)]
    fn poll<G: Giving>(
        &self,
        asked: &Asked,
        giving: G,
        notifier: &mut Notifier,
        operation: &Poll,
    ) -> Out {
        let ph = match notifier.poll_notifier(operation.kernel_handle()) {
            Ok(ph) => ph,
            Err(_) => return giving.refusal(asked, Errno::ENOMEM),
        };
        let (fh, events, flags) = (
            operation.file_handle(),
            operation.events(),
            operation.flags(),
        );
        let reply = giving.reply(asked);
        self.filesystem
            .poll(&asked.request, asked.node, fh, ph, events, flags, reply)
            .into_out()
    }

    #[inline(always)]
    fn batch_forget<G: Giving>(
        &self,
        asked: &Asked,
        giving: G,
        operation: &BatchForget<'_>,
    ) -> Out {
        giving.unused();
        let mark = self
            .filesystem
            .batch_forget(&asked.request, operation.nodes());
        Out::note(asked.id, mark)
    }

    #[inline(always)]
    fn fallocate<G: Giving>(&self, asked: &Asked, giving: G, operation: &FAllocate) -> Out {
        let offset = match operation.offset() {
            Ok(offset) => offset,
            Err(error) => return giving.refusal(asked, error),
        };
        let length = match operation.len() {
            Ok(length) => length,
            Err(error) => return giving.refusal(asked, error),
        };
        let (fh, mode) = (operation.file_handle(), operation.mode());
        let reply = giving.reply(asked);
        self.filesystem
            .fallocate(&asked.request, asked.node, fh, offset, length, mode, reply)
            .into_out()
    }

    #[inline(always)]
    fn readdirplus<G: Giving>(&self, asked: &Asked, giving: G, operation: &ReadDirPlus) -> Out {
        let (fh, offset) = (operation.file_handle(), operation.offset());
        let reply = giving.listing(asked, operation.size());
        self.filesystem
            .readdirplus(&asked.request, asked.node, fh, offset, reply)
            .into_out()
    }

    #[inline(always)]
    fn rename2<G: Giving>(&self, asked: &Asked, giving: G, operation: &Rename2<'_>) -> Out {
        let (from, to) = (operation.from(), operation.to());
        let reply = giving.reply(asked);
        self.filesystem
            .rename(
                &asked.request,
                asked.node,
                from.name,
                to.dir,
                to.name,
                operation.flags(),
                reply,
            )
            .into_out()
    }

    #[inline(always)]
    fn lseek<G: Giving>(&self, asked: &Asked, giving: G, operation: &Lseek) -> Out {
        let (offset, whence) = (operation.offset(), operation.whence());
        let reply = giving.reply(asked);
        self.filesystem
            .lseek(
                &asked.request,
                asked.node,
                operation.file_handle(),
                offset,
                whence,
                reply,
            )
            .into_out()
    }

    #[inline(always)]
    fn copy_file_range<G: Giving>(
        &self,
        asked: &Asked,
        giving: G,
        operation: &CopyFileRange,
    ) -> Out {
        let src = match operation.src() {
            Ok(src) => src,
            Err(error) => return giving.refusal(asked, error),
        };
        let dest = match operation.dest() {
            Ok(dest) => dest,
            Err(error) => return giving.refusal(asked, error),
        };
        let (len, flags) = (operation.len(), operation.flags());
        let reply = giving.reply(asked);
        self.filesystem
            .copy_file_range(
                &asked.request,
                asked.node,
                src.file_handle,
                src.offset,
                dest.inode,
                dest.file_handle,
                dest.offset,
                len,
                flags,
                reply,
            )
            .into_out()
    }

    ghost owes_fixed = { λ handler request errno seq id. refl };

    ghost owes_end = { λ handler request seq id. refl };

    ghost owes_end_alone = { λ handler request seq id out is. is };

    ghost owes_later = { λ handler request call seq id later. inr (inr (inl (FS.deferral ∙ later, refl))) };
}
