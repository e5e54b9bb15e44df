// What is asked.
ghost use Rattle.std.specs.Prelude.{◌≡◌};

use crate::{
    Access, BMap, BatchForget, CopyFileRange, Create, FAllocate, FSync, FSyncDir, Flush, Forget,
    GetAttr, GetLk, GetXAttr, IoCtl, Link, ListXAttr, Lookup, Lseek, MkDir, MkNod, Open, OpenDir,
    Poll, Read, ReadDir, ReadDirPlus, ReadLink, Release, ReleaseDir, RemoveXAttr, Rename, Rename2,
    RmDir, SetAttr, SetLk, SetXAttr, StatFs, SymLink, Unlink, Write,
};
use bitflags::Flags;
use fuse_args::InitArguments;
use fuse_wire::{InitFlags, RequestId, Version};
use std::fmt;
use std::marker::Model;

/// INIT: a kernel offers to speak.
#[derive(Clone, Copy)]
pub struct Init {
    /// The fixed part, as it was sent.
    pub(crate) arguments: InitArguments,
}

impl Init {
    ghost use Rattle.fuse_request.specs.InitOperation.{arguments_of, offered, version};

    /// The capabilities offered. The second word is valid where the first has `FUSE_INIT_EXT`.
    pub fn capabilities(&self) -> InitFlags
        ensures { result.0 ≡ offered (arguments_of self.now) }
    {
        let low = InitFlags::from_bits_retain(self.arguments.flags as u64);
        if !low.contains(InitFlags::FUSE_INIT_EXT) {
            return low;
        }
        InitFlags::from_bits_retain(low.bits() + self.arguments.flags2 as u64 * 0x1_0000_0000)
    }

    /// The most bytes that the kernel reads ahead.
    pub fn max_readahead(&self) -> u32
        ensures { result ≡ (arguments_of self.now).max_readahead }
    {
        self.arguments.max_readahead
    }

    /// The kernel's version.
    pub fn version(&self) -> Version
        ensures { result ≡ version (arguments_of self.now) }
    {
        Version(self.arguments.major, self.arguments.minor)
    }
}

/// DESTROY: the kernel takes its leave.
#[derive(Clone, Copy)]
pub struct Destroy;

/// INTERRUPT: the caller of a request would have it cut short. That request is still owed its one reply.
#[derive(Drop)]
pub struct Interrupt {
    /// The number of that request.
    pub(crate) unique: u64,
}

impl Model for Interrupt {
    ghost use Rattle.std.specs.Prelude.{ℕ};

    ghost Value = { ℕ };

    ghost view = { λ a. a.unique };
}

impl Interrupt {
    /// The number of that request.
    pub fn unique(&self) -> RequestId
        ensures { result.0 ≡ self.now }
    {
        RequestId(self.unique)
    }
}

/// NOTIFY_REPLY: the answer to a notice.
#[derive(Clone, Copy)]
pub struct NotifyReply;

/// CUSE_INIT: a kernel offers to speak of a character device.
#[derive(Clone, Copy)]
pub struct CuseInit;

/// What is asked, with its arguments.
#[derive(Drop)]
pub enum Operation<'a> {
    /// Which inode a name means.
    Lookup(Lookup<'a>),
    /// Lookups are given back.
    Forget(Forget),
    /// What the attributes of an inode are.
    GetAttr(GetAttr),
    /// Attributes of an inode are set.
    SetAttr(SetAttr),
    /// Where a symbolic link leads.
    ReadLink(ReadLink),
    /// A symbolic link is made.
    SymLink(SymLink<'a>),
    /// A file or a device is made.
    MkNod(MkNod<'a>),
    /// A directory is made.
    MkDir(MkDir<'a>),
    /// A name of a file goes away.
    Unlink(Unlink<'a>),
    /// A directory goes away.
    RmDir(RmDir<'a>),
    /// A name moves.
    Rename(Rename<'a>),
    /// An inode gets another name.
    Link(Link<'a>),
    /// A file is opened.
    Open(Open),
    /// Bytes of an open file.
    Read(Read),
    /// Bytes go into an open file.
    Write(Write<'a>),
    /// How much room there is.
    StatFs(StatFs),
    /// The last use of an open file ends.
    Release(Release),
    /// What an open file holds back is written.
    FSync(FSync),
    /// An extended attribute is set.
    SetXAttr(SetXAttr<'a>),
    /// The value of an extended attribute.
    GetXAttr(GetXAttr<'a>),
    /// The names of the extended attributes.
    ListXAttr(ListXAttr),
    /// An extended attribute goes away.
    RemoveXAttr(RemoveXAttr<'a>),
    /// A descriptor of an open file is closed.
    Flush(Flush),
    /// A kernel offers to speak.
    Init(Init),
    /// A directory is opened.
    OpenDir(OpenDir),
    /// Entries of an open directory.
    ReadDir(ReadDir),
    /// The last use of an open directory ends.
    ReleaseDir(ReleaseDir),
    /// What an open directory holds back is written.
    FSyncDir(FSyncDir),
    /// Whether a lock could be taken.
    GetLk(GetLk),
    /// A lock is taken or given back.
    SetLk(SetLk),
    /// Whether the caller may use an inode so.
    Access(Access),
    /// A file is made and opened.
    Create(Create<'a>),
    /// The caller of a request would have it cut short.
    Interrupt(Interrupt),
    /// Which block of the device a block of a file is.
    BMap(BMap),
    /// The kernel takes its leave.
    Destroy(Destroy),
    /// A command to a device.
    IoCtl(IoCtl<'a>),
    /// Whether an open file is ready.
    Poll(Poll),
    /// The answer to a notice.
    NotifyReply(NotifyReply),
    /// Lookups of several inodes are given back.
    BatchForget(BatchForget<'a>),
    /// Room for a range of a file.
    FAllocate(FAllocate),
    /// Entries of an open directory, with their attributes.
    ReadDirPlus(ReadDirPlus),
    /// A name moves in a way that flags say.
    Rename2(Rename2<'a>),
    /// Where the next data or the next hole is.
    Lseek(Lseek),
    /// A range of a file is copied.
    CopyFileRange(CopyFileRange),
    /// A kernel offers to speak of a character device.
    CuseInit(CuseInit),
}

/// An operation is printed as its name.
impl fmt::Debug for Operation<'_> {
    fn fmt<W: fmt::Write>(&self, f: &mut fmt::Formatter<W>) -> fmt::Result {
        let name = match self {
            Operation::Lookup(_) => "Lookup",
            Operation::Forget(_) => "Forget",
            Operation::GetAttr(_) => "GetAttr",
            Operation::SetAttr(_) => "SetAttr",
            Operation::ReadLink(_) => "ReadLink",
            Operation::SymLink(_) => "SymLink",
            Operation::MkNod(_) => "MkNod",
            Operation::MkDir(_) => "MkDir",
            Operation::Unlink(_) => "Unlink",
            Operation::RmDir(_) => "RmDir",
            Operation::Rename(_) => "Rename",
            Operation::Link(_) => "Link",
            Operation::Open(_) => "Open",
            Operation::Read(_) => "Read",
            Operation::Write(_) => "Write",
            Operation::StatFs(_) => "StatFs",
            Operation::Release(_) => "Release",
            Operation::FSync(_) => "FSync",
            Operation::SetXAttr(_) => "SetXAttr",
            Operation::GetXAttr(_) => "GetXAttr",
            Operation::ListXAttr(_) => "ListXAttr",
            Operation::RemoveXAttr(_) => "RemoveXAttr",
            Operation::Flush(_) => "Flush",
            Operation::Init(_) => "Init",
            Operation::OpenDir(_) => "OpenDir",
            Operation::ReadDir(_) => "ReadDir",
            Operation::ReleaseDir(_) => "ReleaseDir",
            Operation::FSyncDir(_) => "FSyncDir",
            Operation::GetLk(_) => "GetLk",
            Operation::SetLk(_) => "SetLk",
            Operation::Access(_) => "Access",
            Operation::Create(_) => "Create",
            Operation::Interrupt(_) => "Interrupt",
            Operation::BMap(_) => "BMap",
            Operation::Destroy(_) => "Destroy",
            Operation::IoCtl(_) => "IoCtl",
            Operation::Poll(_) => "Poll",
            Operation::NotifyReply(_) => "NotifyReply",
            Operation::BatchForget(_) => "BatchForget",
            Operation::FAllocate(_) => "FAllocate",
            Operation::ReadDirPlus(_) => "ReadDirPlus",
            Operation::Rename2(_) => "Rename2",
            Operation::Lseek(_) => "Lseek",
            Operation::CopyFileRange(_) => "CopyFileRange",
            Operation::CuseInit(_) => "CuseInit",
        };
        f.write_str(name)
    }
}
