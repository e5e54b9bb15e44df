// What is asked about an open file.
ghost use Rattle.std.specs.Prelude.{◌≡◌};

use crate::offsets::{file_offset, signed_offset};
use bitflags::Flags;
use fuse_args::{FlushArguments, ReadArguments, WriteArguments};
use fuse_wire::{Errno, FileHandle, LockOwner, OpenFlags, ReadFlags, WriteFlags};
use std::marker::Model;

/// READ: bytes of an open file.
#[derive(Drop)]
pub struct Read {
    /// The fixed part, as it was sent.
    pub(crate) arguments: ReadArguments,
}

impl Model for Read {
    ghost use Rattle.fuse_args.specs.declared.fixed.files.ReadArguments.{ReadArguments};

    ghost Value = { ReadArguments };

    ghost view = { λ a. a.arguments };
}

impl Read {
    ghost use Rattle.fuse_request.specs.Call.{owner_number};
    ghost use Rattle.fuse_request.specs.Fields.{read_lock_owner, file_offset};

    /// The open file.
    pub fn file_handle(&self) -> FileHandle
        ensures { result.0 ≡ self.now.fh }
    {
        FileHandle(self.arguments.fh)
    }

    /// Where in the file the bytes start. `EINVAL` where the number is above the last `i64`.
    pub fn offset(&self) -> Result<u64, Errno>
        ensures { result ≡ file_offset self.now.offset }
    {
        file_offset(self.arguments.offset)
    }

    /// The most bytes that are wanted.
    pub fn size(&self) -> u32
        ensures { result ≡ self.now.size }
    {
        self.arguments.size
    }

    /// The caller as an owner of locks: `lock_owner` of `struct fuse_read_in`. None where the flags have no
    /// `FUSE_READ_LOCKOWNER`.
    pub fn lock_owner(&self) -> Option<LockOwner>
        ensures { owner_number result ≡ read_lock_owner self.now }
    {
        self.read_flags()
            .contains(ReadFlags::FUSE_READ_LOCKOWNER)
            .then_some(LockOwner(self.arguments.lock_owner))
    }

    /// The flags that the file was opened with.
    pub fn flags(&self) -> OpenFlags
        ensures { result.0 ≡ self.now.flags }
    {
        OpenFlags(self.arguments.flags)
    }

    /// Which fields are valid: `FUSE_READ_LOCKOWNER` for `lock_owner`.
    pub fn read_flags(&self) -> ReadFlags
        ensures { result.0 ≡ self.now.read_flags }
    {
        ReadFlags::from_bits_retain(self.arguments.read_flags)
    }
}

/// WRITE: bytes go into an open file.
#[derive(Drop)]
pub struct Write<'a> {
    /// The fixed part, as it was sent.
    pub(crate) arguments: WriteArguments,
    /// The bytes to write.
    pub(crate) written: &'a [u8],
}

impl<'a> Model for Write<'a> {
    ghost use Rattle.fuse_args.specs.declared.fixed.files.WriteArguments.{WriteArguments};
    ghost use Rattle.fuse_request.specs.Carried.{WithBytes};

    ghost Value = { WithBytes WriteArguments };

    ghost view = { λ a. record { arguments = a.arguments; bytes = a.written.now } };
}

impl<'a> Write<'a> {
    ghost use Rattle.fuse_request.specs.Call.{owner_number};
    ghost use Rattle.fuse_request.specs.Fields.{write_lock_owner, signed_offset};

    /// The open file.
    pub fn file_handle(&self) -> FileHandle
        ensures { result.0 ≡ self.now.arguments.fh }
    {
        FileHandle(self.arguments.fh)
    }

    /// Where in the file the bytes go. `EINVAL` where the number is negative.
    pub fn offset(&self) -> Result<u64, Errno>
        ensures { result ≡ signed_offset self.now.arguments.offset }
    {
        signed_offset(self.arguments.offset)
    }

    /// The bytes.
    pub fn data(&self) -> &'a [u8]
        ensures { result.now ≡ self.now.bytes }
    {
        self.written
    }

    /// How they are written.
    pub fn write_flags(&self) -> WriteFlags
        ensures { result.0 ≡ self.now.arguments.write_flags }
    {
        WriteFlags::from_bits_retain(self.arguments.write_flags)
    }

    /// The caller as an owner of locks: `lock_owner` of `struct fuse_write_in`. None where the flags have no
    /// `FUSE_WRITE_LOCKOWNER`.
    pub fn lock_owner(&self) -> Option<LockOwner>
        ensures { owner_number result ≡ write_lock_owner self.now.arguments }
    {
        self.write_flags()
            .contains(WriteFlags::FUSE_WRITE_LOCKOWNER)
            .then_some(LockOwner(self.arguments.lock_owner))
    }

    /// The flags that the file was opened with.
    pub fn flags(&self) -> OpenFlags
        ensures { result.0 ≡ self.now.arguments.flags }
    {
        OpenFlags(self.arguments.flags)
    }
}

/// FLUSH: one of the descriptors of an open file is closed.
#[derive(Drop)]
pub struct Flush {
    /// The fixed part, as it was sent.
    pub(crate) arguments: FlushArguments,
}

impl Model for Flush {
    ghost use Rattle.fuse_args.specs.declared.fixed.files.FlushArguments.{FlushArguments};

    ghost Value = { FlushArguments };

    ghost view = { λ a. a.arguments };
}

impl Flush {
    /// The open file.
    pub fn file_handle(&self) -> FileHandle
        ensures { result.0 ≡ self.now.fh }
    {
        FileHandle(self.arguments.fh)
    }

    /// The caller as an owner of locks: `lock_owner` of `struct fuse_flush_in`.
    pub fn lock_owner(&self) -> LockOwner
        ensures { result.0 ≡ self.now.lock_owner }
    {
        LockOwner(self.arguments.lock_owner)
    }
}
