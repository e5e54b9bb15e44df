// The parts of fixed size in front of a body, each a struct of `fuse.h`.

mod devices;
mod files;
mod nodes;

pub use devices::{BMapArguments, GetLkArguments, IoCtlArguments, PollArguments};
pub use files::{
    CopyFileRangeArguments, CreateArguments, FAllocateArguments, FSyncArguments, FlushArguments,
    LseekArguments, OpenArguments, ReadArguments, ReleaseArguments, WriteArguments,
};
pub use nodes::{
    AccessArguments, BatchForgetArguments, GetAttrArguments, GetXAttrArguments, MkDirArguments,
    MkNodArguments, Rename2Arguments, SetAttrArguments, SetXAttrArguments,
};

/// The arguments of INIT: `struct fuse_init_in`. What a message is too short for is zero.
#[derive(Clone, Copy)]
pub struct InitArguments {
    /// The kernel's major version.
    pub major: u32,
    /// The kernel's minor version.
    pub minor: u32,
    /// The most bytes that the kernel reads ahead.
    pub max_readahead: u32,
    /// The capabilities offered, the low 32 bits.
    pub flags: u32,
    /// The capabilities offered, the bits from 32 on.
    pub flags2: u32,
}
