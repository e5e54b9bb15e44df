//! What types are, beside what they hold: a derive that is lost does not compile here.
use fuse_request::{
    CopyFileRangeFile, FilenameInDir, ForgetList, ForgetOne, GetXAttrSize, GetXAttrSizeEnum, Lock,
    Request, RequestError,
};
use fuse_wire::{
    AccessFlags, BsdFileFlags, ByteRead, ByteWrite, CopyFileRangeFlags, CuseInitFlags, Duration,
    Errno, FattrFlags, FileAttr, FileHandle, FileType, FopenFlags, FsyncFlags, Generation,
    GetattrFlags, INodeNo, InitFlags, IoctlFlags, Items, LockOwner, MemoryBytes, MemoryOut,
    MemorySink, MemorySource, NoMemory, Noting, OpenAccMode, OpenFlags, PollEvents, PollFlags,
    PollHandle, ReadFlags, Received, ReleaseFlags, RenameFlags, RequestId, Sending, SetxattrFlags,
    StdSink, StdSource, StreamSink, StreamSource, SystemTime, TimeOrNow, Turn, Version, WriteFlags,
};
use std::fmt::Debug;
use std::hash::Hash;
use std::io::{Empty, Sink};

fn is_ordered<T: Copy + Ord + Hash + Debug>() {}

fn is_hashed<T: Copy + Eq + Hash + Debug>() {}

fn is_compared<T: Copy + Eq + Debug>() {}

fn is_equal<T: Eq + Debug>() {}

fn is_shown<T: Debug>() {}

#[test]
fn types_are_what_they_derive() {
    is_ordered::<(Generation, RequestId, INodeNo, FileHandle)>();
    is_ordered::<(LockOwner, PollHandle, Version, SystemTime, Duration)>();
    is_hashed::<(FileType, TimeOrNow, OpenAccMode, OpenFlags, AccessFlags)>();
    is_hashed::<(BsdFileFlags, PollEvents, RenameFlags, CopyFileRangeFlags)>();
    is_hashed::<(FopenFlags, FsyncFlags, InitFlags, IoctlFlags, PollFlags)>();
    is_hashed::<(WriteFlags, CuseInitFlags, FattrFlags, GetattrFlags)>();
    is_hashed::<(ReadFlags, ReleaseFlags, SetxattrFlags)>();
    is_compared::<(Errno, FileAttr, NoMemory, Received)>();
    is_compared::<(Sending, Noting, ByteRead, ByteWrite)>();
    is_compared::<(Request, RequestError, FilenameInDir<'_>, Lock)>();
    is_compared::<(CopyFileRangeFile, GetXAttrSize, GetXAttrSizeEnum)>();
    is_compared::<(ForgetOne, ForgetList<'_>)>();
    is_equal::<Items<u8>>();
    is_shown::<(Turn, MemorySource, MemorySink, MemoryBytes, MemoryOut)>();
    is_shown::<(StdSource<Empty>, StdSink<Sink>)>();
    is_shown::<(StreamSource<MemoryBytes>, StreamSink<MemoryOut>)>();
}
