//! Reads of the kernel's device.
ghost use Rattle.std.specs.Prelude.{◌≡◌, [], IfErr, None, false, true};
ghost use Rattle.std.specs.Io.{ReadsAtMost};
ghost use Rattle.std.specs.Io.KnownBytes.{Consumes, ReadConsumes};
ghost use Rattle.fuse_device.specs.Reading.{IsFault, ReadsThrough, device_below, is_gone};

use std::io::{Error, ErrorKind, Read, Result};

/// The request was taken back before it was read.
const ENOENT: i32 = 2;

/// A signal came before a request did.
const EINTR: i32 = 4;

/// No request waits now.
const EAGAIN: i32 = 11;

/// There is no room for the longest message.
const EINVAL: i32 = 22;

/// The folder was unmounted, or the connection aborted.
const ENODEV: i32 = 19;

/// The connection was aborted while a request was read.
const ECONNABORTED: i32 = 103;

/// A reader of the kernel's device, which ends where the device is gone and tries again where a read brought no request.
/// Each other error is passed on. It tells none of its bytes: what is left below when the device goes is never read.
#[derive(Debug, Drop)]
pub struct DeviceReader<R> {
    reader: R,
    gone: bool,
}

impl<R: Read> DeviceReader<R> {
    /// Reads from this device.
    pub fn new(reader: R) -> DeviceReader<R>
        ensures held { device_below result ≡ reader }
        ensures fresh { is_gone result ≡ false }
    {
        DeviceReader {
            reader,
            gone: false,
        }
    }

    /// Whether the device has said that it is no more.
    pub fn is_gone(&self) -> bool
        ensures { result ≡ is_gone self.now }
    {
        self.gone
    }

    /// Whether what is below gives whole messages, and refuses a read that has no room for the longest: the kernel's device
    /// does, and no pipe or file. Nothing is read.
    pub fn gives_whole_messages(&mut self) -> bool
        ensures unread { Consumes (R.remaining (device_below self.old)) (R.remaining (device_below self.new)) [] }
        ensures same { is_gone self.new ≡ is_gone self.old }
    {
        match self.reader.read(&mut []) {
            Ok(_) => false,
            Err(error) => error.raw_os_error() == Some(EINVAL),
        }
    }
}

impl<R: Read> Read for DeviceReader<R> {
    /// Reads until a read below brings bytes, the end or a fault.
    fn read(&mut self, piece: &mut [u8]) -> Result<usize>
        ensures bound { ReadsAtMost result piece.new }
        ensures bytes { ReadConsumes None None result piece.new }

        // What is given is what was read below.
        ensures below { ReadsThrough result piece.new
            (R.remaining (device_below self.old)) (R.remaining (device_below self.new)) (is_gone self.new) }

        // What is not passed on: ENODEV, ECONNABORTED, ENOENT, EINTR and EAGAIN.
        ensures faults { IfErr result IsFault }

        // The device stays gone.
        ensures stays_gone { is_gone self.old ≡ true → is_gone self.new ≡ true }
    {
        for _ in 0..u64::MAX {
            match self.reader.read(piece) {
                Ok(count) => return Ok(count),
                Err(error) => match error.raw_os_error() {
                    Some(ENODEV | ECONNABORTED) => {
                        self.gone = true;
                        return Ok(0);
                    }
                    Some(ENOENT | EINTR | EAGAIN) => {}
                    _ => return Err(error),
                },
            }
        }
        Err(Error::new(ErrorKind::TimedOut, "no request came"))
    }
}
