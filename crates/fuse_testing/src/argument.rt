// Arguments of calls, which tests can compare.
use fuse_wire::{FileHandle, LockOwner, SystemTime, TimeOrNow};

/// An argument of a call, but for names and data. A time is a number of nanoseconds from the epoch.
#[derive(Clone, Copy, Debug, PartialEq)]
pub enum Argument {
    /// The None of an Option.
    Absent,
    /// A number of any type.
    Number(i128),
    /// A truth value.
    Flag(bool),
    /// The present, whenever it is.
    Now,
}

pub(crate) fn number(number: u64) -> Argument {
    Argument::Number(number as i128)
}

pub(crate) fn signed(number: i32) -> Argument {
    Argument::Number(number as i128)
}

pub(crate) fn maybe(number: Option<u64>) -> Argument {
    match number {
        Some(number) => Argument::Number(number as i128),
        None => Argument::Absent,
    }
}

pub(crate) fn word(number: Option<u32>) -> Argument {
    match number {
        Some(number) => Argument::Number(number as i128),
        None => Argument::Absent,
    }
}

pub(crate) fn handle(handle: Option<FileHandle>) -> Argument {
    match handle {
        Some(handle) => Argument::Number(handle.0 as i128),
        None => Argument::Absent,
    }
}

pub(crate) fn owner(owner: Option<LockOwner>) -> Argument {
    match owner {
        Some(owner) => Argument::Number(owner.0 as i128),
        None => Argument::Absent,
    }
}

pub(crate) fn time(time: Option<SystemTime>) -> Argument {
    match time {
        Some(time) => Argument::Number(time.0),
        None => Argument::Absent,
    }
}

pub(crate) fn time_or_now(time: Option<TimeOrNow>) -> Argument {
    match time {
        Some(TimeOrNow::SpecificTime(time)) => Argument::Number(time.0),
        Some(TimeOrNow::Now) => Argument::Now,
        None => Argument::Absent,
    }
}
