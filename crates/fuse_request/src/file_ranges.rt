// What is asked about ranges and blocks of a file.
ghost use Rattle.std.specs.Prelude.{◌≡◌};

use crate::offsets::{file_offset, signed_offset};
use bitflags::Flags;
use fuse_args::{BMapArguments, CopyFileRangeArguments, FAllocateArguments, LseekArguments};
use fuse_wire::{CopyFileRangeFlags, Errno, FileHandle, INodeNo};
use std::marker::Model;

/// A place in an open file.
#[derive(Clone, Copy, Debug, PartialEq, Eq)]
pub struct CopyFileRangeFile {
    /// The file.
    pub inode: INodeNo,
    /// The open file.
    pub file_handle: FileHandle,
    /// Where in it.
    pub offset: u64,
}

/// FALLOCATE: room for a range of a file.
#[derive(Drop)]
pub struct FAllocate {
    /// The fixed part, as it was sent.
    pub(crate) arguments: FAllocateArguments,
}

impl Model for FAllocate {
    ghost use Rattle.fuse_args.specs.declared.fixed.files.FAllocateArguments.{FAllocateArguments};

    ghost Value = { FAllocateArguments };

    ghost view = { λ a. a.arguments };
}

impl FAllocate {
    ghost use Rattle.fuse_request.specs.Fields.{file_offset};

    /// The open file.
    pub fn file_handle(&self) -> FileHandle
        ensures { result.0 ≡ self.now.fh }
    {
        FileHandle(self.arguments.fh)
    }

    /// Where in the file the range starts. `EINVAL` where the number is above the last `i64`.
    pub fn offset(&self) -> Result<u64, Errno>
        ensures { result ≡ file_offset self.now.offset }
    {
        file_offset(self.arguments.offset)
    }

    /// How long the range is. `EINVAL` where the number is above the last `i64`.
    pub fn len(&self) -> Result<u64, Errno>
        ensures { result ≡ file_offset self.now.length }
    {
        file_offset(self.arguments.length)
    }

    /// The mode of `fallocate(2)`.
    pub fn mode(&self) -> i32
        ensures { result ≡ self.now.mode }
    {
        self.arguments.mode
    }
}

/// LSEEK: where in an open file the next data or the next hole is.
#[derive(Drop)]
pub struct Lseek {
    /// The fixed part, as it was sent.
    pub(crate) arguments: LseekArguments,
}

impl Model for Lseek {
    ghost use Rattle.fuse_args.specs.declared.fixed.files.LseekArguments.{LseekArguments};

    ghost Value = { LseekArguments };

    ghost view = { λ a. a.arguments };
}

impl Lseek {
    /// The open file.
    pub fn file_handle(&self) -> FileHandle
        ensures { result.0 ≡ self.now.fh }
    {
        FileHandle(self.arguments.fh)
    }

    /// The place from which `whence` counts, in bytes. What the kernel sends, `SEEK_DATA` (3) and `SEEK_HOLE` (4),
    /// counts from the beginning of the file.
    pub fn offset(&self) -> i64
        ensures { result ≡ self.now.offset }
    {
        self.arguments.offset
    }

    /// The directive of `lseek(2)`.
    pub fn whence(&self) -> i32
        ensures { result ≡ self.now.whence }
    {
        self.arguments.whence
    }
}

/// COPY_FILE_RANGE: a range of a file is copied into another.
#[derive(Drop)]
pub struct CopyFileRange {
    /// The fixed part, as it was sent.
    pub(crate) arguments: CopyFileRangeArguments,
    /// The node of the request.
    pub(crate) node: INodeNo,
}

impl Model for CopyFileRange {
    ghost use Rattle.fuse_request.specs.Carried.{CopiedFrom};

    ghost Value = { CopiedFrom };

    ghost view = { λ a. record { node = a.node; arguments = a.arguments } };
}

impl CopyFileRange {
    ghost use Rattle.fuse_request.specs.Fields.{signed_offset, range_file};

    /// The file that is read, which is the node of the request, and where. `EINVAL` where the offset is negative.
    pub fn src(&self) -> Result<CopyFileRangeFile, Errno>
        ensures { let a = self.now.arguments in result ≡ range_file self.now.node a.fh_in (signed_offset a.off_in) }
    {
        Ok(CopyFileRangeFile {
            inode: self.node,
            file_handle: FileHandle(self.arguments.fh_in),
            offset: signed_offset(self.arguments.off_in)?,
        })
    }

    /// The file that is written, and where. `EINVAL` where the offset is negative.
    pub fn dest(&self) -> Result<CopyFileRangeFile, Errno>
        ensures { let a = self.now.arguments in
            result ≡ range_file (record { 0 = a.nodeid_out }) a.fh_out (signed_offset a.off_out) }
    {
        Ok(CopyFileRangeFile {
            inode: INodeNo(self.arguments.nodeid_out),
            file_handle: FileHandle(self.arguments.fh_out),
            offset: signed_offset(self.arguments.off_out)?,
        })
    }

    /// How many bytes.
    pub fn len(&self) -> u64
        ensures { result ≡ self.now.arguments.len }
    {
        self.arguments.len
    }

    /// How they are copied.
    pub fn flags(&self) -> CopyFileRangeFlags
        ensures { result.0 ≡ self.now.arguments.flags }
    {
        CopyFileRangeFlags::from_bits_retain(self.arguments.flags)
    }
}

/// BMAP: which block of the device a block of a file is.
#[derive(Drop)]
pub struct BMap {
    /// The fixed part, as it was sent.
    pub(crate) arguments: BMapArguments,
}

impl Model for BMap {
    ghost use Rattle.fuse_args.specs.declared.fixed.devices.BMapArguments.{BMapArguments};

    ghost Value = { BMapArguments };

    ghost view = { λ a. a.arguments };
}

impl BMap {
    /// How many bytes a block has.
    pub fn block_size(&self) -> u32
        ensures { result ≡ self.now.blocksize }
    {
        self.arguments.blocksize
    }

    /// The block of the file.
    pub fn block(&self) -> u64
        ensures { result ≡ self.now.block }
    {
        self.arguments.block
    }
}
