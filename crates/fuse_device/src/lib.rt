//! The kernel's device as a reader and a writer of std. A read of it gives one whole message, a write takes one whole
//! frame, and some of its errors are no faults: these two take them so, and leave all else as it is, so that a pipe or
//! a file can stand in place of the device.
#![tactic(auto)]

mod device_reader;
mod frame_writer;
#[cfg(test)]
mod tests;

pub use device_reader::DeviceReader;
pub use frame_writer::FrameWriter;
