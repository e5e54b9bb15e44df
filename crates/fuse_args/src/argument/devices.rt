// The fetches of the parts of requests of locks, blocks and devices.
ghost use Rattle.fuse_args.specs.Arguments.{Fetches};
ghost use Rattle.fuse_args.specs.DeviceParts.{bmap_at, getlk_at, ioctl_at, poll_at};

use crate::{ArgumentIterator, BMapArguments, GetLkArguments, IoCtlArguments, PollArguments};
use fuse_wire::{i32_at, u32_at, u64_at};

impl<'a> ArgumentIterator<'a> {
    /// The arguments of GETLK, SETLK and SETLKW, of 48 bytes. None where fewer bytes are left; nothing is taken then.
    pub fn fetch_getlk(&mut self) -> Option<GetLkArguments>
        ensures { Fetches result self.old self.new (getlk_at self.old) }
    {
        let all = self.fixed(48)?;
        Some(GetLkArguments {
            fh: u64_at(all, 0),
            owner: u64_at(all, 8),
            start: u64_at(all, 16),
            end: u64_at(all, 24),
            typ: i32_at(all, 32),
            pid: u32_at(all, 36),
            lk_flags: u32_at(all, 40),
        })
    }

    /// The arguments of BMAP, of 16 bytes. None where fewer bytes are left; nothing is taken then.
    pub fn fetch_bmap(&mut self) -> Option<BMapArguments>
        ensures { Fetches result self.old self.new (bmap_at self.old) }
    {
        let all = self.fixed(16)?;
        Some(BMapArguments {
            block: u64_at(all, 0),
            blocksize: u32_at(all, 8),
        })
    }

    /// The arguments of IOCTL, of 32 bytes. None where fewer bytes are left; nothing is taken then.
    pub fn fetch_ioctl(&mut self) -> Option<IoCtlArguments>
        ensures { Fetches result self.old self.new (ioctl_at self.old) }
    {
        let all = self.fixed(32)?;
        Some(IoCtlArguments {
            fh: u64_at(all, 0),
            flags: u32_at(all, 8),
            cmd: u32_at(all, 12),
            arg: u64_at(all, 16),
            in_size: u32_at(all, 24),
            out_size: u32_at(all, 28),
        })
    }

    /// The arguments of POLL, of 24 bytes. None where fewer bytes are left; nothing is taken then.
    pub fn fetch_poll(&mut self) -> Option<PollArguments>
        ensures { Fetches result self.old self.new (poll_at self.old) }
    {
        let all = self.fixed(24)?;
        Some(PollArguments {
            fh: u64_at(all, 0),
            kh: u64_at(all, 8),
            flags: u32_at(all, 16),
            events: u32_at(all, 20),
        })
    }
}
