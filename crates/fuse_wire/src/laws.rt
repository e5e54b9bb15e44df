//! Laws of the definitions. Each function here does nothing, or gives constants: its contract is the law, which holds
//! of all its arguments.
ghost use Rattle.std.specs.Prelude.{ℕ, List, ◌≡◌, ◌<◌, ◌^◌, ◌+◌, ◌/◌, ◌%◌, [], ◌∷◌, ◌++◌, map, pos, IsTrue, nat_eq};
ghost use Rattle.std.specs.Cmp.Lexicographic.{pointwise};
ghost use Rattle.std.specs.Ordering.{int_cmp, int_eq, nat_cmp};
ghost use Rattle.fuse_wire.specs.Numbered.{AsBits, AsNumber, AsTwoNumbers, OrderedAs, SaysSame, same_attributes};
ghost use Rattle.fuse_wire.specs.Numbered.{variant};
ghost use Rattle.std.specs.Hash as fed;
ghost use Rattle.fuse_wire.specs.Times.{nanos_per_second, time_in, time_out};
ghost use Rattle.fuse_wire.specs.declared.time.SystemTime.{SystemTime};
ghost use Rattle.fuse_wire.specs.declared.time.TimeOrNow.TheVariants.{Now, SpecificTime};
ghost use Rattle.fuse_wire.specs.declared.file_attr.FileAttr.{FileAttr};
ghost use Rattle.fuse_wire.specs.declared.file_attr.FileType.TheVariants as FileKind;
ghost use Rattle.fuse_wire.specs.declared.open_flags.OpenAccMode.TheVariants.{O_RDONLY, O_RDWR, O_WRONLY};

use crate::consts::{
    BUFFER_SIZE, FUSE_IOCTL_MAX_IOV, FUSE_KERNEL_MINOR_VERSION, FUSE_KERNEL_VERSION, FUSE_LK_FLOCK,
    FUSE_MIN_READ_BUFFER, MAX_WRITE_SIZE, REQUEST_HEADER_SIZE,
};
use crate::{
    AccessFlags, BsdFileFlags, ByteRead, ByteWrite, CopyFileRangeFlags, CuseInitFlags, Duration,
    Errno, FattrFlags, FileAttr, FileHandle, FileType, FopenFlags, FsyncFlags, Generation,
    GetattrFlags, INodeNo, InitFlags, IoctlFlags, Items, LockOwner, NoMemory, Noting, OpenAccMode,
    OpenFlags, PollEvents, PollFlags, PollHandle, ReadFlags, Received, ReleaseFlags, RenameFlags,
    RequestId, Sending, SetxattrFlags, SystemTime, TimeOrNow, Version, WriteFlags,
};
use std::cmp::Ordering;
use std::hash::Hash;

/// What is equal has the same place in the order, and the same hash.
pub fn equals_order_and_hash_alike<T: Ord + Hash>(one: &T, other: &T)
    ensures order { IsTrue (T.eq one.now other.now) → T.cmp one.now other.now ≡ Ordering.Equal }
    ensures hash { IsTrue (T.eq one.now other.now) → T.hash_input one.now ≡ T.hash_input other.now }
{}

/// The newtypes are compared and hashed as their numbers: a version by its major number, and where that is the same by
/// its minor one.
pub fn compared_as_numbers()
    ensures generations { AsNumber (λ n. n.0) ⟦<Generation as PartialEq>⟧.eq ⟦<Generation as PartialOrd>⟧.partial_cmp
        ⟦<Generation as Ord>⟧.cmp ⟦<Generation as Hash>⟧.hash_input }
    ensures request_ids { AsNumber (λ n. n.0) ⟦<RequestId as PartialEq>⟧.eq ⟦<RequestId as PartialOrd>⟧.partial_cmp
        ⟦<RequestId as Ord>⟧.cmp ⟦<RequestId as Hash>⟧.hash_input }
    ensures inode_numbers { AsNumber (λ n. n.0) ⟦<INodeNo as PartialEq>⟧.eq ⟦<INodeNo as PartialOrd>⟧.partial_cmp
        ⟦<INodeNo as Ord>⟧.cmp ⟦<INodeNo as Hash>⟧.hash_input }
    ensures file_handles { AsNumber (λ n. n.0) ⟦<FileHandle as PartialEq>⟧.eq ⟦<FileHandle as PartialOrd>⟧.partial_cmp
        ⟦<FileHandle as Ord>⟧.cmp ⟦<FileHandle as Hash>⟧.hash_input }
    ensures lock_owners { AsNumber (λ n. n.0) ⟦<LockOwner as PartialEq>⟧.eq ⟦<LockOwner as PartialOrd>⟧.partial_cmp
        ⟦<LockOwner as Ord>⟧.cmp ⟦<LockOwner as Hash>⟧.hash_input }
    ensures poll_handles { AsNumber (λ n. n.0) ⟦<PollHandle as PartialEq>⟧.eq ⟦<PollHandle as PartialOrd>⟧.partial_cmp
        ⟦<PollHandle as Ord>⟧.cmp ⟦<PollHandle as Hash>⟧.hash_input }
    ensures versions { AsTwoNumbers (λ v. v.0) (λ v. v.1) ⟦<Version as PartialEq>⟧.eq
        ⟦<Version as PartialOrd>⟧.partial_cmp ⟦<Version as Ord>⟧.cmp ⟦<Version as Hash>⟧.hash_input }
{}

/// Times and spans of time are compared as their nanoseconds. Times are hashed as these, and spans as their seconds and
/// the nanoseconds above them.
pub fn compared_as_nanoseconds()
    ensures times { OrderedAs (λ time. time.0) int_eq int_cmp ⟦<SystemTime as PartialEq>⟧.eq
        ⟦<SystemTime as PartialOrd>⟧.partial_cmp ⟦<SystemTime as Ord>⟧.cmp }
    ensures spans { OrderedAs (λ nanos. nanos) nat_eq nat_cmp ⟦<Duration as PartialEq>⟧.eq
        ⟦<Duration as PartialOrd>⟧.partial_cmp ⟦<Duration as Ord>⟧.cmp }
    ensures times_hash { (time : SystemTime) → ⟦<SystemTime as Hash>⟧.hash_input time ≡ fed.i128 time.0 }
    ensures spans_hash { (nanos : ℕ) → ⟦<Duration as Hash>⟧.hash_input nanos
        ≡ fed.u64 (nanos / nanos_per_second) ++ fed.u32 (nanos % nanos_per_second) }
{}

/// Sets of flags and flag numbers are equal where they have the same bits, and are hashed as these.
pub fn sets_compared_by_their_bits()
    ensures rename_flags { AsBits (λ f. f.0) nat_eq fed.u32
        ⟦<RenameFlags as PartialEq>⟧.eq ⟦<RenameFlags as Hash>⟧.hash_input }
    ensures poll_events { AsBits (λ f. f.0) nat_eq fed.u32
        ⟦<PollEvents as PartialEq>⟧.eq ⟦<PollEvents as Hash>⟧.hash_input }
    ensures poll_flags { AsBits (λ f. f.0) nat_eq fed.u32
        ⟦<PollFlags as PartialEq>⟧.eq ⟦<PollFlags as Hash>⟧.hash_input }
    ensures fopen_flags { AsBits (λ f. f.0) nat_eq fed.u32
        ⟦<FopenFlags as PartialEq>⟧.eq ⟦<FopenFlags as Hash>⟧.hash_input }
    ensures fsync_flags { AsBits (λ f. f.0) nat_eq fed.u32
        ⟦<FsyncFlags as PartialEq>⟧.eq ⟦<FsyncFlags as Hash>⟧.hash_input }
    ensures read_flags { AsBits (λ f. f.0) nat_eq fed.u32
        ⟦<ReadFlags as PartialEq>⟧.eq ⟦<ReadFlags as Hash>⟧.hash_input }
    ensures write_flags { AsBits (λ f. f.0) nat_eq fed.u32
        ⟦<WriteFlags as PartialEq>⟧.eq ⟦<WriteFlags as Hash>⟧.hash_input }
    ensures setxattr_flags { AsBits (λ f. f.0) nat_eq fed.u32
        ⟦<SetxattrFlags as PartialEq>⟧.eq ⟦<SetxattrFlags as Hash>⟧.hash_input }
    ensures release_flags { AsBits (λ f. f.0) nat_eq fed.u32
        ⟦<ReleaseFlags as PartialEq>⟧.eq ⟦<ReleaseFlags as Hash>⟧.hash_input }
    ensures getattr_flags { AsBits (λ f. f.0) nat_eq fed.u32
        ⟦<GetattrFlags as PartialEq>⟧.eq ⟦<GetattrFlags as Hash>⟧.hash_input }
    ensures fattr_flags { AsBits (λ f. f.0) nat_eq fed.u32
        ⟦<FattrFlags as PartialEq>⟧.eq ⟦<FattrFlags as Hash>⟧.hash_input }
    ensures ioctl_flags { AsBits (λ f. f.0) nat_eq fed.u32
        ⟦<IoctlFlags as PartialEq>⟧.eq ⟦<IoctlFlags as Hash>⟧.hash_input }
    ensures cuse_init_flags { AsBits (λ f. f.0) nat_eq fed.u32
        ⟦<CuseInitFlags as PartialEq>⟧.eq ⟦<CuseInitFlags as Hash>⟧.hash_input }
    ensures bsd_file_flags { AsBits (λ f. f.0) nat_eq fed.u32
        ⟦<BsdFileFlags as PartialEq>⟧.eq ⟦<BsdFileFlags as Hash>⟧.hash_input }
    ensures copy_file_range_flags { AsBits (λ f. f.0) nat_eq fed.u64
        ⟦<CopyFileRangeFlags as PartialEq>⟧.eq ⟦<CopyFileRangeFlags as Hash>⟧.hash_input }
    ensures init_flags { AsBits (λ f. f.0) nat_eq fed.u64
        ⟦<InitFlags as PartialEq>⟧.eq ⟦<InitFlags as Hash>⟧.hash_input }
    ensures open_flags { AsBits (λ f. f.0) int_eq fed.i32
        ⟦<OpenFlags as PartialEq>⟧.eq ⟦<OpenFlags as Hash>⟧.hash_input }
    ensures access_flags { AsBits (λ f. f.0) int_eq fed.i32
        ⟦<AccessFlags as PartialEq>⟧.eq ⟦<AccessFlags as Hash>⟧.hash_input }
{}

/// Errors and the other values that have no order are equal where they are the same, and attributes where each field
/// is.
pub fn equal_where_they_are_the_same()
    ensures errors { SaysSame ⟦<Errno as PartialEq>⟧.eq }
    ensures open_modes { SaysSame ⟦<OpenAccMode as PartialEq>⟧.eq }
    ensures kinds { SaysSame ⟦<FileType as PartialEq>⟧.eq }
    ensures times_to_set { SaysSame ⟦<TimeOrNow as PartialEq>⟧.eq }
    ensures want_of_memory { SaysSame ⟦<NoMemory as PartialEq>⟧.eq }
    ensures attributes { (x y : FileAttr) →
        ⟦<FileAttr as PartialEq>⟧.eq x y ≡ same_attributes ⟦<FileType as PartialEq>⟧.eq x y }
{}

/// Answers of devices are equal where they are the same.
pub fn answers_equal_where_they_are_the_same()
    ensures received { SaysSame ⟦<Received as PartialEq>⟧.eq }
    ensures sendings { SaysSame ⟦<Sending as PartialEq>⟧.eq }
    ensures notings { SaysSame ⟦<Noting as PartialEq>⟧.eq }
    ensures byte_reads { SaysSame ⟦<ByteRead as PartialEq>⟧.eq }
    ensures byte_writes { SaysSame ⟦<ByteWrite as PartialEq>⟧.eq }
{}

/// A value of an enum is hashed as the number of its variant, from 0 in the order in which these are declared, and then
/// as what it holds.
pub fn hashed_by_their_variants()
    ensures kinds { map ⟦<FileType as Hash>⟧.hash_input (FileKind.NamedPipe ∷ FileKind.CharDevice
        ∷ FileKind.BlockDevice ∷ FileKind.Directory ∷ FileKind.RegularFile ∷ FileKind.Symlink ∷ FileKind.Socket ∷ [])
        ≡ map variant (0 ∷ 1 ∷ 2 ∷ 3 ∷ 4 ∷ 5 ∷ 6 ∷ []) }
    ensures open_modes { map ⟦<OpenAccMode as Hash>⟧.hash_input (O_RDONLY ∷ O_WRONLY ∷ O_RDWR ∷ [])
        ≡ map variant (0 ∷ 1 ∷ 2 ∷ []) }
    ensures specific_times { (time : SystemTime) →
        ⟦<TimeOrNow as Hash>⟧.hash_input (SpecificTime time) ≡ variant 0 ++ fed.i128 time.0 }
    ensures now { ⟦<TimeOrNow as Hash>⟧.hash_input Now ≡ variant 1 }
{}

/// Items are equal where there are as many and each is equal to the one at its place.
pub fn items_compared_one_by_one<T: PartialEq>()
    ensures { (x y : List T) → ⟦<Items<T> as PartialEq>⟧.eq x y ≡ pointwise T.eq x y }
{}

/// Seconds, and nanoseconds below 10^9, come back from the time that they make.
pub fn times_come_back(secs: i64, nanos: u32)
    requires { nanos < nanos_per_second }
    ensures { time_out (time_in secs nanos) ≡ (secs, nanos) }
{}

/// The constants of `consts` have the numbers of `fuse.h`, and the limits of this library.
pub fn constants_have_their_numbers()
    ensures version { (FUSE_KERNEL_VERSION ≡ 7) × (FUSE_KERNEL_MINOR_VERSION ≡ 40) }
    ensures kernel { (FUSE_LK_FLOCK ≡ 1) × (FUSE_IOCTL_MAX_IOV ≡ 256) × (FUSE_MIN_READ_BUFFER ≡ 8192) }
    ensures header { REQUEST_HEADER_SIZE ≡ 40 }
    ensures limits { (MAX_WRITE_SIZE ≡ 2 ^ 24) × (BUFFER_SIZE ≡ 2 ^ 24 + 4096) }
{}

/// The root has the number of `fuse.h`, and `F_OK`, `X_OK`, `W_OK` and `R_OK` have those of `access(2)`.
pub fn names_have_their_numbers() -> (INodeNo, [AccessFlags; 4])
    ensures root { result.0.0 ≡ 1 }
    ensures access { map (λ mask. mask.0) result.1 ≡ pos 0 ∷ pos 1 ∷ pos 2 ∷ pos 4 ∷ [] }
{
    (
        INodeNo::ROOT,
        [
            AccessFlags::F_OK,
            AccessFlags::X_OK,
            AccessFlags::W_OK,
            AccessFlags::R_OK,
        ],
    )
}
