//! Sets of flags, one a file. A name stands at its constant, which is written by hand since a macro here writes no
//! constant, and in the list of its set.

pub(crate) mod copy_file_range_flags;
pub(crate) mod cuse_init_flags;
pub(crate) mod fattr_flags;
pub(crate) mod fopen_flags;
pub(crate) mod fsync_flags;
pub(crate) mod getattr_flags;
pub(crate) mod init_flags;
pub(crate) mod ioctl_flags;
pub(crate) mod poll_flags;
pub(crate) mod read_flags;
pub(crate) mod release_flags;
pub(crate) mod setxattr_flags;
pub(crate) mod write_flags;

// The flags of this set that have these names. Each text is made of the name of its constant, so that what
// `Flags::flags` ensures of the texts and bits holds of the constants.
macro_rules! named_flags {
    ($($name:ident),* $(,)?) => {
        &[$(bitflags::Flag { name: stringify!($name), value: Self::$name }),*]
    };
}

pub(crate) use named_flags;
