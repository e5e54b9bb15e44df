//! Requests as the kernel sends them: a message taken apart, which operation it asks, and what the fields of each mean. Who
//! asks, the errors and the numbers of the operations, in `fuse_header`, are had from here too. Nothing is copied out of the
//! message but numbers.
//! The layers above rely on this: a message decodes exactly where the definitions say so, to what they say, and a call of a
//! filesystem has an operation's arguments in their order.
#![tactic(auto)]

mod any_request;
mod decoding;
mod devices;
mod directories;
mod file_ranges;
mod files;
mod forgets;
pub mod laws;
mod locks;
mod names;
mod nodes;
mod offsets;
mod opened;
mod operation;
mod places;
mod setattr;
mod xattrs;

pub use any_request::AnyRequest;
pub use devices::{IoCtl, Poll};
pub use directories::{ReadDir, ReadDirPlus};
pub use file_ranges::{BMap, CopyFileRange, CopyFileRangeFile, FAllocate, Lseek};
pub use files::{Flush, Read, Write};
pub use forgets::{BatchForget, ForgetList, ForgetOne};
pub use fuse_header::{Request, RequestError, opcode};
pub use locks::{GetLk, Lock, SetLk};
pub use names::{Create, Lookup, MkDir, MkNod, RmDir, SymLink, Unlink};
pub use nodes::{Access, Forget, GetAttr, ReadLink, StatFs};
pub use opened::{FSync, FSyncDir, Open, OpenDir, Release, ReleaseDir};
pub use operation::{CuseInit, Destroy, Init, Interrupt, NotifyReply, Operation};
pub use places::{FilenameInDir, Link, Rename, Rename2};
pub use setattr::SetAttr;
pub use xattrs::{GetXAttr, GetXAttrSize, GetXAttrSizeEnum, ListXAttr, RemoveXAttr, SetXAttr};
