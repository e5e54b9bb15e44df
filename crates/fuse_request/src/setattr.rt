// Attributes that are set.
ghost use Rattle.std.specs.Prelude.{◌≡◌};

use bitflags::Flags;
use fuse_args::SetAttrArguments;
use fuse_wire::{
    BsdFileFlags, FattrFlags, FileHandle, SystemTime, TimeOrNow, system_time_from_time,
};
use std::marker::Model;

/// SETATTR: attributes of an inode are set, each where its flag of `valid` says so.
#[derive(Drop)]
pub struct SetAttr {
    /// The fixed part, as it was sent.
    pub(crate) arguments: SetAttrArguments,
}

impl Model for SetAttr {
    ghost use Rattle.fuse_args.specs.declared.fixed.nodes.SetAttrArguments.{SetAttrArguments};

    ghost Value = { SetAttrArguments };

    ghost view = { λ a. a.arguments };
}

impl SetAttr {
    ghost use Rattle.fuse_request.specs.Call.{handle_number};
    ghost use Rattle.fuse_request.specs.SetAttr.{new_mode, new_uid, new_gid, new_size, new_atime, new_mtime, new_ctime};
    ghost use Rattle.fuse_request.specs.SetAttr.{file_of};
    ghost use Rattle.std.specs.Prelude.{None};

    /// Which attributes are set.
    fn valid(&self) -> FattrFlags
        ensures { result.0 ≡ self.now.valid }
    {
        FattrFlags::from_bits_retain(self.arguments.valid)
    }

    /// The kind and the permissions: `FATTR_MODE`.
    pub fn mode(&self) -> Option<u32>
        ensures { result ≡ new_mode self.now }
    {
        self.valid()
            .contains(FattrFlags::FATTR_MODE)
            .then_some(self.arguments.mode)
    }

    /// The owner: `FATTR_UID`.
    pub fn uid(&self) -> Option<u32>
        ensures { result ≡ new_uid self.now }
    {
        self.valid()
            .contains(FattrFlags::FATTR_UID)
            .then_some(self.arguments.uid)
    }

    /// The group: `FATTR_GID`.
    pub fn gid(&self) -> Option<u32>
        ensures { result ≡ new_gid self.now }
    {
        self.valid()
            .contains(FattrFlags::FATTR_GID)
            .then_some(self.arguments.gid)
    }

    /// The size: `FATTR_SIZE`.
    pub fn size(&self) -> Option<u64>
        ensures { result ≡ new_size self.now }
    {
        self.valid()
            .contains(FattrFlags::FATTR_SIZE)
            .then_some(self.arguments.size)
    }

    /// When it was last read: `FATTR_ATIME`, and the present where `FATTR_ATIME_NOW` is set too.
    pub fn atime(&self) -> Option<TimeOrNow>
        ensures { result ≡ new_atime self.now }
    {
        if !self.valid().contains(FattrFlags::FATTR_ATIME) {
            return None;
        }
        if self.valid().contains(FattrFlags::FATTR_ATIME_NOW) {
            return Some(TimeOrNow::Now);
        }
        let time = system_time_from_time(self.arguments.atime, self.arguments.atimensec);
        Some(TimeOrNow::SpecificTime(time))
    }

    /// When it was last written: `FATTR_MTIME`, and the present where `FATTR_MTIME_NOW` is set too.
    pub fn mtime(&self) -> Option<TimeOrNow>
        ensures { result ≡ new_mtime self.now }
    {
        if !self.valid().contains(FattrFlags::FATTR_MTIME) {
            return None;
        }
        if self.valid().contains(FattrFlags::FATTR_MTIME_NOW) {
            return Some(TimeOrNow::Now);
        }
        let time = system_time_from_time(self.arguments.mtime, self.arguments.mtimensec);
        Some(TimeOrNow::SpecificTime(time))
    }

    /// When its attributes last changed: `FATTR_CTIME`.
    pub fn ctime(&self) -> Option<SystemTime>
        ensures { result ≡ new_ctime self.now }
    {
        self.valid().contains(FattrFlags::FATTR_CTIME).then_some(system_time_from_time(
            self.arguments.ctime,
            self.arguments.ctimensec,
        ))
    }

    /// The open file through which they are set, if there is one: `FATTR_FH`.
    pub fn file_handle(&self) -> Option<FileHandle>
        ensures { handle_number result ≡ file_of self.now }
    {
        self.valid()
            .contains(FattrFlags::FATTR_FH)
            .then_some(FileHandle(self.arguments.fh))
    }

    /// When it was made, which Linux never sets.
    pub fn crtime(&self) -> Option<SystemTime>
        ensures { result ≡ None }
    {
        None
    }

    /// When its attributes last changed, by another name, which Linux never sets.
    pub fn chgtime(&self) -> Option<SystemTime>
        ensures { result ≡ None }
    {
        None
    }

    /// When it was last saved, which Linux never sets.
    pub fn bkuptime(&self) -> Option<SystemTime>
        ensures { result ≡ None }
    {
        None
    }

    /// The flags of BSD, which Linux never sets.
    pub fn flags(&self) -> Option<BsdFileFlags>
        ensures { result ≡ None }
    {
        None
    }
}
