//! Points in time.
ghost use Rattle.std.specs.Prelude.{◌≡◌};
ghost use Rattle.fuse_wire.specs.Times.{time_in, time_out};

/// A point in time, in nanoseconds from the epoch, the start of 1970 in UTC; before it they are negative. Any i128 is
/// one, so that a time may lie past the seconds that an i64 counts.
#[derive(Clone, Copy, Debug, PartialEq, Eq, PartialOrd, Ord, Hash)]
pub struct SystemTime(pub i128);

/// What a SETATTR sets a time of a file to.
#[derive(Clone, Copy, Debug, PartialEq, Eq, Hash)]
pub enum TimeOrNow {
    /// This time: `atime` and `atimensec` of `struct fuse_setattr_in`, or `mtime` and `mtimensec`.
    SpecificTime(SystemTime),
    /// The time at which it is done: `FATTR_ATIME_NOW` or `FATTR_MTIME_NOW` is set.
    Now,
}

/// How many nanoseconds a second has.
const SECOND: i128 = 1_000_000_000;

/// The same, for times that an i64 counts: those from 1678 to 2262.
const SHORT_SECOND: i64 = 1_000_000_000;

/// The whole seconds of a time, rounded down, and the nanoseconds above them, from 0 to 999999999: what
/// `struct fuse_attr` carries. A time past the last second of an i64 gives the last nanosecond of that one, and a time
/// before the first second gives its start.
pub fn time_from_system_time(time: &SystemTime) -> (i64, u32)
    ensures { result ≡ time_out time.now.0 }
{
    if let Ok(short) = i64::try_from(time.0) {
        return (
            short.div_euclid(SHORT_SECOND),
            short.rem_euclid(SHORT_SECOND) as u32,
        );
    }
    let secs = time.0.div_euclid(SECOND);
    let nanos = time.0.rem_euclid(SECOND);
    if secs > i64::MAX as i128 {
        (i64::MAX, 999_999_999)
    } else if secs < i64::MIN as i128 {
        (i64::MIN, 0)
    } else {
        (secs as i64, nanos as u32)
    }
}

/// The time of so many seconds and nanoseconds from the epoch: the seconds may be negative, and the nanoseconds are
/// added to them. No sum leaves an i128, so that nanoseconds of a second and more are taken too.
pub fn system_time_from_time(secs: i64, nanos: u32) -> SystemTime
    ensures { result.0 ≡ time_in secs nanos }
{
    SystemTime(secs as i128 * SECOND + nanos as i128)
}
