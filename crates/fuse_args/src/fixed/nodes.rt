// The parts of requests of nodes and their names.

/// The arguments of GETATTR: `struct fuse_getattr_in`.
#[derive(Clone, Copy)]
pub struct GetAttrArguments {
    /// `FUSE_GETATTR_FH` says that `fh` is valid.
    pub getattr_flags: u32,
    /// The open file.
    pub fh: u64,
}

/// The arguments of SETATTR: `struct fuse_setattr_in`.
#[derive(Clone, Copy)]
pub struct SetAttrArguments {
    /// A flag for each field that is to be set: `FATTR_MODE` and the like.
    pub valid: u32,
    /// The open file.
    pub fh: u64,
    /// The size in bytes.
    pub size: u64,
    /// The caller as an owner of locks. It is valid where `valid` has `FATTR_LOCKOWNER`.
    pub lock_owner: u64,
    /// When it was last read: the seconds.
    pub atime: i64,
    /// When it was last written: the seconds.
    pub mtime: i64,
    /// When its attributes last changed: the seconds.
    pub ctime: i64,
    /// The nanoseconds above `atime`.
    pub atimensec: u32,
    /// The nanoseconds above `mtime`.
    pub mtimensec: u32,
    /// The nanoseconds above `ctime`.
    pub ctimensec: u32,
    /// The kind and the permissions.
    pub mode: u32,
    /// The owner.
    pub uid: u32,
    /// The group.
    pub gid: u32,
}

/// The arguments of MKNOD: `struct fuse_mknod_in`.
#[derive(Clone, Copy)]
pub struct MkNodArguments {
    /// The kind and the permissions.
    pub mode: u32,
    /// The number of the device, where the kind is one, as `rdev` of `FileAttr` has it.
    pub rdev: u32,
    /// The permissions that the caller masks.
    pub umask: u32,
}

/// The arguments of MKDIR: `struct fuse_mkdir_in`.
#[derive(Clone, Copy)]
pub struct MkDirArguments {
    /// The permissions.
    pub mode: u32,
    /// The permissions that the caller masks.
    pub umask: u32,
}

/// The arguments of RENAME2: `struct fuse_rename2_in`.
#[derive(Clone, Copy)]
pub struct Rename2Arguments {
    /// The directory that the name moves to.
    pub newdir: u64,
    /// The flags of `renameat2(2)`.
    pub flags: u32,
}

/// The arguments of ACCESS: `struct fuse_access_in`.
#[derive(Clone, Copy)]
pub struct AccessArguments {
    /// What is asked for: the mode of `access(2)`.
    pub mask: i32,
}

/// The arguments of SETXATTR: `struct fuse_setxattr_in`, of which a kernel sends the front alone unless
/// `FUSE_SETXATTR_EXT` was granted.
#[derive(Clone, Copy)]
pub struct SetXAttrArguments {
    /// How many bytes the value has.
    pub size: u32,
    /// The flags of `setxattr(2)`.
    pub flags: i32,
    /// What else to do: the bits `FUSE_SETXATTR_`. It is 0 where they are not sent.
    pub setxattr_flags: u32,
}

/// The arguments of GETXATTR and LISTXATTR: `struct fuse_getxattr_in`.
#[derive(Clone, Copy)]
pub struct GetXAttrArguments {
    /// The most bytes that are wanted, or 0 where only the size is asked.
    pub size: u32,
}

/// The arguments of BATCH_FORGET: `struct fuse_batch_forget_in`.
#[derive(Clone, Copy)]
pub struct BatchForgetArguments {
    /// How many rows follow.
    pub count: u32,
}
