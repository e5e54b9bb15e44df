//! A reader of the arguments after a request's header. It borrows from the message, takes no memory, and every fetch
//! gives exactly what stands at the front of the bytes left, or None where what is asked for does not stand there, and
//! then nothing moves.
#![tactic(auto)]

mod argument;
mod fixed;

pub use argument::ArgumentIterator;
pub use fixed::{
    AccessArguments, BMapArguments, BatchForgetArguments, CopyFileRangeArguments, CreateArguments,
    FAllocateArguments, FSyncArguments, FlushArguments, GetAttrArguments, GetLkArguments,
    GetXAttrArguments, InitArguments, IoCtlArguments, LseekArguments, MkDirArguments,
    MkNodArguments, OpenArguments, PollArguments, ReadArguments, ReleaseArguments,
    Rename2Arguments, SetAttrArguments, SetXAttrArguments, WriteArguments,
};
