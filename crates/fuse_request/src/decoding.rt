// What a body asks, by its opcode.
ghost use Rattle.fuse_args.specs.Arguments.{Fetches};
ghost use Rattle.fuse_request.specs.Decoding.{Is, Keeps, lookup_to_link, open_to_flush, init_to_bmap};
ghost use Rattle.fuse_request.specs.Decoding.{destroy_to_cuse_init, setxattr_by};
ghost use Rattle.fuse_wire.specs.declared.newtypes.INodeNo.{INodeNo};

use crate::{
    Access, BMap, BatchForget, CopyFileRange, Create, CuseInit, Destroy, FAllocate, FSync,
    FSyncDir, Flush, Forget, GetAttr, GetLk, GetXAttr, Init, Interrupt, IoCtl, Link, ListXAttr,
    Lookup, Lseek, MkDir, MkNod, NotifyReply, Open, OpenDir, Operation, Poll, Read, ReadDir,
    ReadDirPlus, ReadLink, Release, ReleaseDir, RemoveXAttr, Rename, Rename2, RmDir, SetAttr,
    SetLk, SetXAttr, StatFs, SymLink, Unlink, Write,
};
use bitflags::Flags;
use fuse_args::{ArgumentIterator, SetXAttrArguments};
use fuse_header::RequestError;
use fuse_header::opcode::{
    CUSE_INIT, FUSE_ACCESS, FUSE_BATCH_FORGET, FUSE_BMAP, FUSE_COPY_FILE_RANGE, FUSE_CREATE,
    FUSE_DESTROY, FUSE_FALLOCATE, FUSE_FLUSH, FUSE_FORGET, FUSE_FSYNC, FUSE_FSYNCDIR, FUSE_GETATTR,
    FUSE_GETLK, FUSE_GETXATTR, FUSE_INIT, FUSE_INTERRUPT, FUSE_IOCTL, FUSE_LINK, FUSE_LISTXATTR,
    FUSE_LOOKUP, FUSE_LSEEK, FUSE_MKDIR, FUSE_MKNOD, FUSE_NOTIFY_REPLY, FUSE_OPEN, FUSE_OPENDIR,
    FUSE_POLL, FUSE_READ, FUSE_READDIR, FUSE_READDIRPLUS, FUSE_READLINK, FUSE_RELEASE,
    FUSE_RELEASEDIR, FUSE_REMOVEXATTR, FUSE_RENAME, FUSE_RENAME2, FUSE_RMDIR, FUSE_SETATTR,
    FUSE_SETLK, FUSE_SETLKW, FUSE_SETXATTR, FUSE_STATFS, FUSE_SYMLINK, FUSE_UNLINK, FUSE_WRITE,
};
use fuse_wire::{INodeNo, InitFlags};
use std::marker::PhantomData;

/// A part of a body, by a name. The decoding ends with `InsufficientData` where it is not all there.
macro_rules! whole {
    ($name:ident = $part:expr) => {
        let Some($name) = $part else {
            return Err(RequestError::InsufficientData);
        };
    };
}

/// The operation whose fields are these parts of a body, read in their order, and what stands behind the semicolon.
macro_rules! operation {
    ($parts:ident => $name:ident {
        $($field:ident: $fetch:ident($($size:expr)?)),* $(; $($rest:tt)*)?
    }) => {{
        $(whole!($field = $parts.$fetch($($size)?));)*
        Operation::$name($name { $($field,)* $($($rest)*)? })
    }};
}

/// What the opcodes from LOOKUP to LINK ask.
#[inline(always)]
#[tactic(auto, unfolding(crate::specs::Decoding::lookup_to_link))]
pub(crate) fn lookup_to_link<'a>(
    opcode: u32,
    node: INodeNo,
    body: &'a [u8],
) -> Result<Operation<'a>, RequestError>
    ensures { Is result (lookup_to_link opcode body.now) × Keeps result node }
{
    let mut parts = ArgumentIterator::new(body);
    let operation = match opcode {
        FUSE_LOOKUP => operation!(parts => Lookup { name: fetch_str() }),
        FUSE_FORGET => operation!(parts => Forget { nlookup: fetch_u64() }),
        FUSE_GETATTR => operation!(parts => GetAttr { arguments: fetch_getattr() }),
        FUSE_SETATTR => operation!(parts => SetAttr { arguments: fetch_setattr() }),
        FUSE_READLINK => Operation::ReadLink(ReadLink),
        FUSE_SYMLINK => operation!(parts => SymLink {
            link_name: fetch_str(),
            target: fetch_str()
        }),
        FUSE_MKNOD => operation!(parts => MkNod { arguments: fetch_mknod(), name: fetch_str() }),
        FUSE_MKDIR => operation!(parts => MkDir { arguments: fetch_mkdir(), name: fetch_str() }),
        FUSE_UNLINK => operation!(parts => Unlink { name: fetch_str() }),
        FUSE_RMDIR => operation!(parts => RmDir { name: fetch_str() }),
        FUSE_RENAME => operation!(parts => Rename {
            newdir: fetch_u64(),
            old_name: fetch_str(),
            new_name: fetch_str();
            node
        }),
        FUSE_LINK => operation!(parts => Link {
            oldnodeid: fetch_u64(),
            new_name: fetch_str();
            node
        }),
        unknown => return Err(RequestError::UnknownOperation(unknown)),
    };
    Ok(operation)
}

/// The fixed part of SETXATTR under these capabilities.
#[inline(always)]
fn fetch_setxattr_by(
    parts: &mut ArgumentIterator<'_>,
    granted: InitFlags,
) -> Option<SetXAttrArguments>
    ensures { Fetches result parts.old parts.new (setxattr_by granted.0 parts.old) }
{
    if granted.contains(InitFlags::FUSE_SETXATTR_EXT) {
        parts.fetch_setxattr_ext()
    } else {
        parts.fetch_setxattr()
    }
}

/// What the opcodes from OPEN to FLUSH ask under these capabilities.
#[inline(always)]
#[tactic(auto, unfolding(crate::specs::Decoding::open_to_flush))]
pub(crate) fn open_to_flush(
    granted: InitFlags,
    opcode: u32,
    body: &[u8],
) -> Result<Operation<'_>, RequestError>
    ensures { Is result (open_to_flush granted.0 opcode body.now) × ((node : INodeNo) → Keeps result node) }
{
    let mut parts = ArgumentIterator::new(body);
    let operation = match opcode {
        FUSE_OPEN => operation!(parts => Open { arguments: fetch_open(); kind: PhantomData }),
        FUSE_READ => operation!(parts => Read { arguments: fetch_read() }),
        FUSE_WRITE => operation!(parts => Write {
            arguments: fetch_write(),
            written: fetch_exactly(arguments.size)
        }),
        FUSE_STATFS => Operation::StatFs(StatFs),
        FUSE_RELEASE => operation!(parts => Release {
            arguments: fetch_release();
            kind: PhantomData
        }),
        FUSE_FSYNC => operation!(parts => FSync { arguments: fetch_fsync(); kind: PhantomData }),
        FUSE_SETXATTR => {
            whole!(arguments = fetch_setxattr_by(&mut parts, granted));
            operation!(parts => SetXAttr {
                name: fetch_str(),
                value: fetch_exactly(arguments.size);
                arguments
            })
        }
        FUSE_GETXATTR => operation!(parts => GetXAttr {
            arguments: fetch_getxattr(),
            name: fetch_str()
        }),
        FUSE_LISTXATTR => operation!(parts => ListXAttr { arguments: fetch_getxattr() }),
        FUSE_REMOVEXATTR => operation!(parts => RemoveXAttr { name: fetch_str() }),
        FUSE_FLUSH => operation!(parts => Flush { arguments: fetch_flush() }),
        unknown => return Err(RequestError::UnknownOperation(unknown)),
    };
    Ok(operation)
}

/// What the opcodes from INIT to BMAP ask.
#[inline(always)]
#[tactic(auto, unfolding(crate::specs::Decoding::init_to_bmap))]
pub(crate) fn init_to_bmap(opcode: u32, body: &[u8]) -> Result<Operation<'_>, RequestError>
    ensures { Is result (init_to_bmap opcode body.now) × ((node : INodeNo) → Keeps result node) }
{
    let mut parts = ArgumentIterator::new(body);
    let operation = match opcode {
        FUSE_INIT => operation!(parts => Init { arguments: fetch_init() }),
        FUSE_OPENDIR => operation!(parts => OpenDir { arguments: fetch_open(); kind: PhantomData }),
        FUSE_READDIR => operation!(parts => ReadDir { arguments: fetch_read(); kind: PhantomData }),
        FUSE_RELEASEDIR => operation!(parts => ReleaseDir {
            arguments: fetch_release();
            kind: PhantomData
        }),
        FUSE_FSYNCDIR => operation!(parts => FSyncDir {
            arguments: fetch_fsync();
            kind: PhantomData
        }),
        FUSE_GETLK => operation!(parts => GetLk { arguments: fetch_getlk(); sleep: () }),
        FUSE_SETLK => operation!(parts => SetLk { arguments: fetch_getlk(); sleep: false }),
        FUSE_SETLKW => operation!(parts => SetLk { arguments: fetch_getlk(); sleep: true }),
        FUSE_ACCESS => operation!(parts => Access { arguments: fetch_access() }),
        FUSE_CREATE => operation!(parts => Create { arguments: fetch_create(), name: fetch_str() }),
        FUSE_INTERRUPT => operation!(parts => Interrupt { unique: fetch_u64() }),
        FUSE_BMAP => operation!(parts => BMap { arguments: fetch_bmap() }),
        unknown => return Err(RequestError::UnknownOperation(unknown)),
    };
    Ok(operation)
}

/// What the opcodes from DESTROY on ask.
#[inline(always)]
#[tactic(auto, unfolding(crate::specs::Decoding::destroy_to_cuse_init))]
pub(crate) fn destroy_to_cuse_init<'a>(
    opcode: u32,
    node: INodeNo,
    body: &'a [u8],
) -> Result<Operation<'a>, RequestError>
    ensures { Is result (destroy_to_cuse_init opcode body.now) × Keeps result node }
{
    let mut parts = ArgumentIterator::new(body);
    let operation = match opcode {
        FUSE_DESTROY => Operation::Destroy(Destroy),
        FUSE_IOCTL => operation!(parts => IoCtl {
            arguments: fetch_ioctl(),
            in_bytes: fetch_at_least(arguments.in_size)
        }),
        FUSE_POLL => operation!(parts => Poll { arguments: fetch_poll() }),
        FUSE_NOTIFY_REPLY => Operation::NotifyReply(NotifyReply),
        FUSE_BATCH_FORGET => {
            whole!(arguments = parts.fetch_batch_forget());
            operation!(parts => BatchForget { rows: fetch_slice(arguments.count as usize) })
        }
        FUSE_FALLOCATE => operation!(parts => FAllocate { arguments: fetch_fallocate() }),
        FUSE_READDIRPLUS => operation!(parts => ReadDirPlus {
            arguments: fetch_read();
            kind: PhantomData
        }),
        FUSE_RENAME2 => operation!(parts => Rename2 {
            arguments: fetch_rename2(),
            old_name: fetch_str(),
            new_name: fetch_str();
            node
        }),
        FUSE_LSEEK => operation!(parts => Lseek { arguments: fetch_lseek() }),
        FUSE_COPY_FILE_RANGE => operation!(parts => CopyFileRange {
            arguments: fetch_copy_file_range();
            node
        }),
        CUSE_INIT => {
            whole!(_nothing = parts.fetch_cuse_init());
            Operation::CuseInit(CuseInit)
        }
        unknown => return Err(RequestError::UnknownOperation(unknown)),
    };
    Ok(operation)
}
