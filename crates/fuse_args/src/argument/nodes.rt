// The fetches of the parts of requests of nodes and their names.
ghost use Rattle.fuse_args.specs.Arguments.{Fetches};
ghost use Rattle.fuse_args.specs.NodeParts.{access_at, batch_forget_at, getattr_at, getxattr_at, mkdir_at, mknod_at};
ghost use Rattle.fuse_args.specs.NodeParts.{rename2_at, setattr_at, setxattr_at, setxattr_ext_at};

use crate::{
    AccessArguments, ArgumentIterator, BatchForgetArguments, GetAttrArguments, GetXAttrArguments,
    MkDirArguments, MkNodArguments, Rename2Arguments, SetAttrArguments, SetXAttrArguments,
};
use fuse_wire::{i32_at, i64_at, u32_at, u64_at};

impl<'a> ArgumentIterator<'a> {
    /// The arguments of GETATTR, of 16 bytes. None where fewer bytes are left; nothing is taken then.
    pub fn fetch_getattr(&mut self) -> Option<GetAttrArguments>
        ensures { Fetches result self.old self.new (getattr_at self.old) }
    {
        let all = self.fixed(16)?;
        Some(GetAttrArguments {
            getattr_flags: u32_at(all, 0),
            fh: u64_at(all, 8),
        })
    }

    /// The arguments of SETATTR, of 88 bytes. None where fewer bytes are left; nothing is taken then.
    pub fn fetch_setattr(&mut self) -> Option<SetAttrArguments>
        ensures { Fetches result self.old self.new (setattr_at self.old) }
    {
        let all = self.fixed(88)?;
        Some(SetAttrArguments {
            valid: u32_at(all, 0),
            fh: u64_at(all, 8),
            size: u64_at(all, 16),
            lock_owner: u64_at(all, 24),
            atime: i64_at(all, 32),
            mtime: i64_at(all, 40),
            ctime: i64_at(all, 48),
            atimensec: u32_at(all, 56),
            mtimensec: u32_at(all, 60),
            ctimensec: u32_at(all, 64),
            mode: u32_at(all, 68),
            uid: u32_at(all, 76),
            gid: u32_at(all, 80),
        })
    }

    /// The arguments of MKNOD, of 16 bytes. None where fewer bytes are left; nothing is taken then.
    pub fn fetch_mknod(&mut self) -> Option<MkNodArguments>
        ensures { Fetches result self.old self.new (mknod_at self.old) }
    {
        let all = self.fixed(16)?;
        Some(MkNodArguments {
            mode: u32_at(all, 0),
            rdev: u32_at(all, 4),
            umask: u32_at(all, 8),
        })
    }

    /// The arguments of MKDIR, of 8 bytes. None where fewer bytes are left; nothing is taken then.
    pub fn fetch_mkdir(&mut self) -> Option<MkDirArguments>
        ensures { Fetches result self.old self.new (mkdir_at self.old) }
    {
        let all = self.fixed(8)?;
        Some(MkDirArguments {
            mode: u32_at(all, 0),
            umask: u32_at(all, 4),
        })
    }

    /// The arguments of RENAME2, of 16 bytes. None where fewer bytes are left; nothing is taken then.
    pub fn fetch_rename2(&mut self) -> Option<Rename2Arguments>
        ensures { Fetches result self.old self.new (rename2_at self.old) }
    {
        let all = self.fixed(16)?;
        Some(Rename2Arguments {
            newdir: u64_at(all, 0),
            flags: u32_at(all, 8),
        })
    }

    /// The arguments of ACCESS, of 8 bytes. None where fewer bytes are left; nothing is taken then.
    pub fn fetch_access(&mut self) -> Option<AccessArguments>
        ensures { Fetches result self.old self.new (access_at self.old) }
    {
        let all = self.fixed(8)?;
        Some(AccessArguments {
            mask: i32_at(all, 0),
        })
    }

    /// The arguments of SETXATTR, of 8 bytes, with no `setxattr_flags`. None where fewer bytes are left; nothing is
    /// taken then.
    pub fn fetch_setxattr(&mut self) -> Option<SetXAttrArguments>
        ensures { Fetches result self.old self.new (setxattr_at self.old) }
    {
        let all = self.fixed(8)?;
        Some(SetXAttrArguments {
            size: u32_at(all, 0),
            flags: i32_at(all, 4),
            setxattr_flags: 0,
        })
    }

    /// The arguments of SETXATTR where `FUSE_SETXATTR_EXT` was granted, of 16 bytes. None where fewer bytes are left;
    /// nothing is taken then.
    pub fn fetch_setxattr_ext(&mut self) -> Option<SetXAttrArguments>
        ensures { Fetches result self.old self.new (setxattr_ext_at self.old) }
    {
        let all = self.fixed(16)?;
        Some(SetXAttrArguments {
            size: u32_at(all, 0),
            flags: i32_at(all, 4),
            setxattr_flags: u32_at(all, 8),
        })
    }

    /// The arguments of GETXATTR and LISTXATTR, of 8 bytes. None where fewer bytes are left; nothing is taken then.
    pub fn fetch_getxattr(&mut self) -> Option<GetXAttrArguments>
        ensures { Fetches result self.old self.new (getxattr_at self.old) }
    {
        let all = self.fixed(8)?;
        Some(GetXAttrArguments {
            size: u32_at(all, 0),
        })
    }

    /// The arguments of BATCH_FORGET, of 8 bytes. None where fewer bytes are left; nothing is taken then.
    pub fn fetch_batch_forget(&mut self) -> Option<BatchForgetArguments>
        ensures { Fetches result self.old self.new (batch_forget_at self.old) }
    {
        let all = self.fixed(8)?;
        Some(BatchForgetArguments {
            count: u32_at(all, 0),
        })
    }
}
