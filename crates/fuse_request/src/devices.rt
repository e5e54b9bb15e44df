// What is asked of devices.
ghost use Rattle.std.specs.Prelude.{◌≡◌};

use bitflags::Flags;
use fuse_args::{IoCtlArguments, PollArguments};
use fuse_wire::{FileHandle, IoctlFlags, PollEvents, PollFlags, PollHandle};
use std::marker::Model;

/// IOCTL: a command to a device.
#[derive(Drop)]
pub struct IoCtl<'a> {
    /// The fixed part, as it was sent.
    pub(crate) arguments: IoCtlArguments,
    /// The data of the command, as many bytes as the fixed part says.
    pub(crate) in_bytes: &'a [u8],
}

impl<'a> Model for IoCtl<'a> {
    ghost use Rattle.fuse_args.specs.declared.fixed.devices.IoCtlArguments.{IoCtlArguments};
    ghost use Rattle.fuse_request.specs.Carried.{WithBytes};

    ghost Value = { WithBytes IoCtlArguments };

    ghost view = { λ a. record { arguments = a.arguments; bytes = a.in_bytes.now } };
}

impl<'a> IoCtl<'a> {
    ghost use Rattle.fuse_request.specs.Fields.{is_unrestricted};

    /// The bytes handed in.
    pub fn in_data(&self) -> &'a [u8]
        ensures { result.now ≡ self.now.bytes }
    {
        self.in_bytes
    }

    /// Whether the command is one whose bytes the kernel does not know: `FUSE_IOCTL_UNRESTRICTED`.
    pub fn unrestricted(&self) -> bool
        ensures { result ≡ is_unrestricted self.now.arguments }
    {
        self.flags().contains(IoctlFlags::FUSE_IOCTL_UNRESTRICTED)
    }

    /// The open file.
    pub fn file_handle(&self) -> FileHandle
        ensures { result.0 ≡ self.now.arguments.fh }
    {
        FileHandle(self.arguments.fh)
    }

    /// The flags of the call.
    pub fn flags(&self) -> IoctlFlags
        ensures { result.0 ≡ self.now.arguments.flags }
    {
        IoctlFlags::from_bits_retain(self.arguments.flags)
    }

    /// The command.
    pub fn command(&self) -> u32
        ensures { result ≡ self.now.arguments.cmd }
    {
        self.arguments.cmd
    }

    /// The most bytes that the caller takes.
    pub fn out_size(&self) -> u32
        ensures { result ≡ self.now.arguments.out_size }
    {
        self.arguments.out_size
    }
}

/// POLL: whether an open file is ready.
#[derive(Drop)]
pub struct Poll {
    /// The fixed part, as it was sent.
    pub(crate) arguments: PollArguments,
}

impl Model for Poll {
    ghost use Rattle.fuse_args.specs.declared.fixed.devices.PollArguments.{PollArguments};

    ghost Value = { PollArguments };

    ghost view = { λ a. a.arguments };
}

impl Poll {
    /// The open file.
    pub fn file_handle(&self) -> FileHandle
        ensures { result.0 ≡ self.now.fh }
    {
        FileHandle(self.arguments.fh)
    }

    /// The number under which the kernel waits.
    pub fn kernel_handle(&self) -> PollHandle
        ensures { result.0 ≡ self.now.kh }
    {
        PollHandle(self.arguments.kh)
    }

    /// The events that are waited for.
    pub fn events(&self) -> PollEvents
        ensures { result.0 ≡ self.now.events }
    {
        PollEvents::from_bits_retain(self.arguments.events)
    }

    /// Whether a notice is wanted.
    pub fn flags(&self) -> PollFlags
        ensures { result.0 ≡ self.now.flags }
    {
        PollFlags::from_bits_retain(self.arguments.flags)
    }
}
