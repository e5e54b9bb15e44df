// The fetches of the parts of requests of open files.
ghost use Rattle.fuse_args.specs.Arguments.{Fetches};
ghost use Rattle.fuse_args.specs.FileParts.{copy_file_range_at, create_at, fallocate_at, flush_at, fsync_at};
ghost use Rattle.fuse_args.specs.FileParts.{lseek_at, open_at, read_at, release_at, write_at};

use crate::{
    ArgumentIterator, CopyFileRangeArguments, CreateArguments, FAllocateArguments, FSyncArguments,
    FlushArguments, LseekArguments, OpenArguments, ReadArguments, ReleaseArguments, WriteArguments,
};
use fuse_wire::{i32_at, i64_at, u32_at, u64_at};

impl<'a> ArgumentIterator<'a> {
    /// The arguments of OPEN and OPENDIR, of 8 bytes. None where fewer bytes are left; nothing is taken then.
    pub fn fetch_open(&mut self) -> Option<OpenArguments>
        ensures { Fetches result self.old self.new (open_at self.old) }
    {
        let all = self.fixed(8)?;
        Some(OpenArguments {
            flags: i32_at(all, 0),
        })
    }

    /// The arguments of CREATE, of 16 bytes. None where fewer bytes are left; nothing is taken then.
    pub fn fetch_create(&mut self) -> Option<CreateArguments>
        ensures { Fetches result self.old self.new (create_at self.old) }
    {
        let all = self.fixed(16)?;
        Some(CreateArguments {
            flags: i32_at(all, 0),
            mode: u32_at(all, 4),
            umask: u32_at(all, 8),
        })
    }

    /// The arguments of READ, READDIR and READDIRPLUS, of 40 bytes. None where fewer bytes are left; nothing is taken
    /// then.
    pub fn fetch_read(&mut self) -> Option<ReadArguments>
        ensures { Fetches result self.old self.new (read_at self.old) }
    {
        let all = self.fixed(40)?;
        Some(ReadArguments {
            fh: u64_at(all, 0),
            offset: u64_at(all, 8),
            size: u32_at(all, 16),
            read_flags: u32_at(all, 20),
            lock_owner: u64_at(all, 24),
            flags: i32_at(all, 32),
        })
    }

    /// The arguments of WRITE, of 40 bytes. None where fewer bytes are left; nothing is taken then.
    pub fn fetch_write(&mut self) -> Option<WriteArguments>
        ensures { Fetches result self.old self.new (write_at self.old) }
    {
        let all = self.fixed(40)?;
        Some(WriteArguments {
            fh: u64_at(all, 0),
            offset: i64_at(all, 8),
            size: u32_at(all, 16),
            write_flags: u32_at(all, 20),
            lock_owner: u64_at(all, 24),
            flags: i32_at(all, 32),
        })
    }

    /// The arguments of FLUSH, of 24 bytes. None where fewer bytes are left; nothing is taken then.
    pub fn fetch_flush(&mut self) -> Option<FlushArguments>
        ensures { Fetches result self.old self.new (flush_at self.old) }
    {
        let all = self.fixed(24)?;
        Some(FlushArguments {
            fh: u64_at(all, 0),
            lock_owner: u64_at(all, 16),
        })
    }

    /// The arguments of FSYNC and FSYNCDIR, of 16 bytes. None where fewer bytes are left; nothing is taken then.
    pub fn fetch_fsync(&mut self) -> Option<FSyncArguments>
        ensures { Fetches result self.old self.new (fsync_at self.old) }
    {
        let all = self.fixed(16)?;
        Some(FSyncArguments {
            fh: u64_at(all, 0),
            fsync_flags: u32_at(all, 8),
        })
    }

    /// The arguments of RELEASE and RELEASEDIR, of 24 bytes. None where fewer bytes are left; nothing is taken then.
    pub fn fetch_release(&mut self) -> Option<ReleaseArguments>
        ensures { Fetches result self.old self.new (release_at self.old) }
    {
        let all = self.fixed(24)?;
        Some(ReleaseArguments {
            fh: u64_at(all, 0),
            flags: i32_at(all, 8),
            release_flags: u32_at(all, 12),
            lock_owner: u64_at(all, 16),
        })
    }

    /// The arguments of FALLOCATE, of 32 bytes. None where fewer bytes are left; nothing is taken then.
    pub fn fetch_fallocate(&mut self) -> Option<FAllocateArguments>
        ensures { Fetches result self.old self.new (fallocate_at self.old) }
    {
        let all = self.fixed(32)?;
        Some(FAllocateArguments {
            fh: u64_at(all, 0),
            offset: u64_at(all, 8),
            length: u64_at(all, 16),
            mode: i32_at(all, 24),
        })
    }

    /// The arguments of LSEEK, of 24 bytes. None where fewer bytes are left; nothing is taken then.
    pub fn fetch_lseek(&mut self) -> Option<LseekArguments>
        ensures { Fetches result self.old self.new (lseek_at self.old) }
    {
        let all = self.fixed(24)?;
        Some(LseekArguments {
            fh: u64_at(all, 0),
            offset: i64_at(all, 8),
            whence: i32_at(all, 16),
        })
    }

    /// The arguments of COPY_FILE_RANGE, of 56 bytes. None where fewer bytes are left; nothing is taken then.
    pub fn fetch_copy_file_range(&mut self) -> Option<CopyFileRangeArguments>
        ensures { Fetches result self.old self.new (copy_file_range_at self.old) }
    {
        let all = self.fixed(56)?;
        Some(CopyFileRangeArguments {
            fh_in: u64_at(all, 0),
            off_in: i64_at(all, 8),
            nodeid_out: u64_at(all, 16),
            fh_out: u64_at(all, 24),
            off_out: i64_at(all, 32),
            len: u64_at(all, 40),
            flags: u64_at(all, 48),
        })
    }
}
