// A filesystem with one lock, whose callers wait for it without a thread.
ghost use Rattle.std.specs.Prelude.{◌≡◌, ◌≢◌, ◌↔◌, ◌++◌, ◌∷◌, ◌==◌, [], true, refl, Some, IsTrue, IsSome, IsNone, IfErr};
ghost use Rattle.std.specs.Prelude.{if◌then◌else◌, is_ok, length, slice_get, option_map, option_to_list, unwrap_or};
ghost use Rattle.std.specs.Prelude.{◌<◌, IfSome, IsSomeAnd, MatchOption, position, remove, slice_index_or};
ghost use Rattle.fuse_reply.specs.Answer.Answer.{Empty, Error};
ghost use Rattle.fuse_reply.specs.Frame.{reply};
ghost use Rattle.fuse_reply.specs.Late.{IsFrameFor};
ghost use Rattle.fuse_reply.specs.declared.out.Out.TheVariants.{Frame};
ghost use Rattle.fuse_wire.specs.ErrorNumbers.{ENOLCK};
ghost use Rattle.locks.specs.OneLock.{ComesOfWaiting, promise};

use fuse_config::KernelConfig;
use fuse_dispatch::{Filesystem, defaults};
use fuse_notify::PollNotifier;
use fuse_reply::{
    Later, NoDoor, Replied, ReplyAttr, ReplyBmap, ReplyCreate, ReplyData, ReplyDirectory,
    ReplyDirectoryPlus, ReplyEmpty, ReplyEntry, ReplyInterrupt, ReplyIoctl, ReplyLock, ReplyLseek,
    ReplyOpen, ReplyPoll, ReplyStatfs, ReplyWrite, ReplyXattr,
};
use fuse_request::{ForgetList, Request};
use fuse_wire::{
    AccessFlags, BsdFileFlags, CopyFileRangeFlags, Errno, FileHandle, INodeNo, InitFlags,
    IoctlFlags, LockOwner, OpenFlags, PollEvents, PollFlags, RenameFlags, RequestId, SetxattrFlags,
    SystemTime, TimeOrNow, WriteFlags,
};
use std::alloc::{AllocFailed, Global};
use std::collections::VecDeque;
use std::sync::{Mutex, Wait};

/// The type of a lock that is given up: `F_UNLCK`.
const UNLOCKED: i32 = 2;

/// A filesystem with one lock for all its files, of whatever type and range, which answers all else by default. Whoever
/// waits for the lock (SETLKW) waits without a thread: the reply is put off, and the call that gives the lock up sends it.
///
/// - `init` requests `FUSE_POSIX_LOCKS`. A kernel that does not offer it keeps such locks itself, and sends no call for
///   them.
/// - Only its holder gives the lock up: by `F_UNLCK`, which changes nothing where another owner sends it, and by FLUSH.
///   Where a process closes the file or dies no `F_UNLCK` comes, but a FLUSH with the same owner.
/// - Whoever waits has a turn of its own, also where its owner has the lock by then. POSIX would answer it at once.
/// - `DEFERS` is true, and the promise says the same. So each reply has a door where several threads serve.
/// - `defer` spends a reply that has a door into two things. The `Replied` is what the method returns: it says that the
///   frame comes later. The `Later` is a token, which is kept. A reply without a door comes back, with the reason, and
///   is answered now: `Shut` on one thread, where nobody else could give the lock up meanwhile, and `Starved` where no
///   memory was to be had.
/// - Whoever waits is interrupted by INTERRUPT, which names its request: that gets EINTR by its token, and INTERRUPT is
///   honoured, without a frame of its own. One that names another request gets EAGAIN, since the request may not wait
///   here yet: the kernel asks once more, until the request has its reply.
/// - A token may not be dropped, so that no reply is forgotten. It waits on a shelf, behind a lock, where each thread
///   finds it. No closure of a thread can own one.
/// - Whoever takes it off parts it into the reply and the token to send by (`reply`), spends the reply into its answer,
///   and sends that (`send_or_retire`), which waits while the line to the sender is full. Where the run has ended nobody
///   waits for the answer any more, and both are let go. So `close` lets all go that wait still when the session is over.
pub struct OneLock<R> {
    rt: R,
    desk: Mutex<Desk>,
}

/// Who holds the lock, and who waits for it, the first to come first. Where nobody holds it nobody waits, since no call
/// would come that answers.
struct Desk {
    holder: Option<LockOwner>,
    waiting: VecDeque<Waiter>,
    ghost held: { IsNone holder → length waiting.items ≡ 0 },
}

/// An owner that waits for the lock, and the reply that it waits for.
struct Waiter {
    owner: LockOwner,
    later: Later<ReplyEmpty>,
}

impl Desk {
    /// Whether the lock was free, or this owner's already: then it is this owner's from now on.
    fn takes(&mut self, owner: LockOwner) -> bool
        ensures holder { self.new.holder ≡ Some (unwrap_or self.old.holder owner) }
        ensures taken { IsTrue result ↔ (self.new.holder ≡ Some owner) }
        ensures waiting { self.new.waiting.items ≡ self.old.waiting.items }
    {
        let holder = self.holder.unwrap_or(owner);
        self.holder = Some(holder);
        holder == owner
    }

    /// Lets one more wait for the lock, which somebody holds, behind all others. Without memory for it the answer that says
    /// so comes back, and the token to send it by.
    fn shelve(&mut self, waiter: Waiter) -> Result<(), (Replied, Later<()>)>
        requires held { IsSome self.old.holder }
        ensures holder { self.new.holder ≡ self.old.holder }
        ensures waiting { self.new.waiting.items
            ≡ (if is_ok result then self.old.waiting.items ++ waiter ∷ [] else self.old.waiting.items) }
        ensures refused { IfErr result (λ r. (r.0 ≡ Frame (reply waiter.later.id.0 (Error ENOLCK)))
            × (r.1.id ≡ waiter.later.id) × IsFrameFor r.1.id.0 r.0) }
    {
        match self.waiting.push_back(waiter) {
            Ok(()) => Ok(()),
            Err(AllocFailed { value: waiter }) => Err(refuse(waiter, Errno::ENOLCK)),
        }
    }

    /// Takes the lock from this owner, where it holds it, and gives it to the one that waits longest. Where none waits it
    /// is free.
    fn give_up(&mut self, owner: LockOwner) -> Option<Waiter>
        ensures longest { self.old.holder ≡ Some owner → result ≡ slice_get self.old.waiting.items 0 }
        ensures holder { self.old.holder ≡ Some owner → self.new.holder ≡ option_map (λ w. w.owner) result }
        ensures others { self.old.holder ≢ Some owner → (self.new.holder ≡ self.old.holder) × IsNone result }
        ensures waiting { self.old.waiting.items ≡ option_to_list result ++ self.new.waiting.items }
    {
        if self.holder != Some(owner) {
            return None;
        }
        let next = self.waiting.pop_front();
        self.holder = next.as_ref().map(|waiter| waiter.owner);
        next
    }

    /// Takes the first that waits by this request out of those that wait.
    fn withdraw(&mut self, target: RequestId) -> Option<Waiter>
        ensures first { MatchOption (position (λ w. w.later.id.0 == target.0) self.old.waiting.items)
            (IsNone result × (self.new.waiting.items ≡ self.old.waiting.items))
            (λ place. IsSomeAnd result (λ w. w ≡ slice_index_or self.old.waiting.items place w)
            × (self.new.waiting.items ≡ remove self.old.waiting.items place)) }
        ensures holder { self.new.holder ≡ self.old.holder }
    {
        match place_of(&self.waiting, target) {
            Some(place) => self.waiting.remove(place),
            None => None,
        }
    }
}

/// The place of the first that waits by this request.
fn place_of(waiting: &VecDeque<Waiter>, target: RequestId) -> Option<usize>
    ensures place { result ≡ position (λ w. w.later.id.0 == target.0) waiting.now.items }
    ensures bound { IfSome result (λ place. place < length waiting.now.items) }
{
    waiting
        .iter()
        .position(|waiter| waiter.later.id() == target)
}

/// The answer that the lock is held from now on, and the token to send it by.
fn grant(waiter: Waiter) -> (Replied, Later<()>)
    ensures answer { result.0 ≡ Frame (reply waiter.later.id.0 Empty) }
    ensures frame { IsFrameFor result.1.id.0 result.0 }
    ensures token { (result.1.id ≡ waiter.later.id) × (result.1.door ≡ waiter.later.door) }
{
    let Waiter { owner: _, later } = waiter;
    let (reply, token) = later.reply();
    (reply.ok(), token)
}

/// The answer of this error, for whoever no longer waits for the lock, and the token to send it by.
fn refuse(waiter: Waiter, error: Errno) -> (Replied, Later<()>)
    ensures answer { result.0 ≡ Frame (reply waiter.later.id.0 (Error error)) }
    ensures frame { IsFrameFor result.1.id.0 result.0 }
    ensures token { (result.1.id ≡ waiter.later.id) × (result.1.door ≡ waiter.later.door) }
{
    let Waiter { owner: _, later } = waiter;
    let (reply, token) = later.reply();
    (reply.error(error), token)
}

impl<R: Wait> OneLock<R> {
    /// The lock is free.
    pub fn new(rt: R, alloc: Global) -> OneLock<R> {
        OneLock {
            rt,
            desk: Mutex::new(Desk {
                holder: None,
                waiting: VecDeque::new(alloc),
            }),
        }
    }

    /// Whether the lock was free, or this owner's already: then it is this owner's from now on.
    fn takes(&self, owner: LockOwner) -> bool {
        self.desk.lock(&self.rt).takes(owner)
    }

    /// Takes the lock, or puts the reply off until it is free. A reply that can't be put off is refused: by EDEADLK where
    /// nobody else is served meanwhile, and by ENOLCK where there is no memory.
    fn wait_for(&self, owner: LockOwner, reply: ReplyEmpty) -> Replied
        ensures { ComesOfWaiting reply.id reply.door result }
    {
        let mut desk = self.desk.lock(&self.rt);
        if desk.takes(owner) {
            return reply.ok();
        }
        match reply.defer() {
            Ok((replied, later)) => {
                let shelved = desk.shelve(Waiter { owner, later });
                // What is sent may have to wait for the sender.
                drop(desk);
                if let Err((refused, token)) = shelved {
                    token.send_or_retire(&self.rt, refused);
                }
                replied
            }
            Err((reply, NoDoor::Shut)) => reply.error(Errno::EDEADLK),
            Err((reply, NoDoor::Starved)) => reply.error(Errno::ENOLCK),
        }
    }

    /// Gives the lock up where this owner holds it, and answers whoever has waited longest.
    fn give_up(&self, owner: LockOwner) {
        // The desk is free again before the answer is sent, which may wait for the sender.
        let next = self.desk.lock(&self.rt).give_up(owner);
        if let Some(waiter) = next {
            let (granted, token) = grant(waiter);
            token.send_or_retire(&self.rt, granted);
        }
    }

    /// Ends the wait of this request by EINTR, where it waits here. Whether it did.
    fn cut_short(&self, target: RequestId) -> bool {
        let withdrawn = self.desk.lock(&self.rt).withdraw(target);
        let Some(waiter) = withdrawn else {
            return false;
        };
        let (interrupted, token) = refuse(waiter, Errno::EINTR);
        token.send_or_retire(&self.rt, interrupted);
        true
    }

    /// Lets go of the replies that wait still, once the session is over.
    pub fn close(self)
    where
        R: Drop,
    {
        let OneLock { rt, desk } = self;
        let Desk {
            holder: _,
            mut waiting,
        } = desk.into_inner();
        while let Some(waiter) = waiting.pop_front() {
            let (refused, token) = refuse(waiter, Errno::ENOLCK);
            token.send_or_retire(&rt, refused);
        }
        waiting.destroy_empty();
    }
}

impl<R: Wait + Send + Sync> Filesystem for OneLock<R> {
    ghost promise = { promise };

    const DEFERS: bool = true;

    ghost DEFERS = { true };

    fn init(&mut self, _request: &Request, config: &mut KernelConfig) -> Result<(), Errno> {
        let _ = config.add_capabilities(InitFlags::FUSE_POSIX_LOCKS);
        Ok(())
    }

    fn lookup(
        &self,
        _request: &Request,
        _parent: INodeNo,
        _name: &[u8],
        reply: ReplyEntry,
    ) -> Replied {
        defaults::lookup(reply)
    }

    fn forget(&self, _request: &Request, _ino: INodeNo, _nlookup: u64) -> u64 {
        defaults::forget()
    }

    fn getattr(
        &self,
        _request: &Request,
        _ino: INodeNo,
        _fh: Option<FileHandle>,
        reply: ReplyAttr,
    ) -> Replied {
        defaults::getattr(reply)
    }

    fn setattr(
        &self,
        _request: &Request,
        _ino: INodeNo,
        _mode: Option<u32>,
        _uid: Option<u32>,
        _gid: Option<u32>,
        _size: Option<u64>,
        _atime: Option<TimeOrNow>,
        _mtime: Option<TimeOrNow>,
        _ctime: Option<SystemTime>,
        _fh: Option<FileHandle>,
        _crtime: Option<SystemTime>,
        _chgtime: Option<SystemTime>,
        _bkuptime: Option<SystemTime>,
        _flags: Option<BsdFileFlags>,
        reply: ReplyAttr,
    ) -> Replied {
        defaults::setattr(reply)
    }

    fn readlink(&self, _request: &Request, _ino: INodeNo, reply: ReplyData) -> Replied {
        defaults::readlink(reply)
    }

    fn symlink(
        &self,
        _request: &Request,
        _parent: INodeNo,
        _link_name: &[u8],
        _target: &[u8],
        reply: ReplyEntry,
    ) -> Replied {
        defaults::symlink(reply)
    }

    fn mknod(
        &self,
        _request: &Request,
        _parent: INodeNo,
        _name: &[u8],
        _mode: u32,
        _umask: u32,
        _rdev: u32,
        reply: ReplyEntry,
    ) -> Replied {
        defaults::mknod(reply)
    }

    fn mkdir(
        &self,
        _request: &Request,
        _parent: INodeNo,
        _name: &[u8],
        _mode: u32,
        _umask: u32,
        reply: ReplyEntry,
    ) -> Replied {
        defaults::mkdir(reply)
    }

    fn unlink(
        &self,
        _request: &Request,
        _parent: INodeNo,
        _name: &[u8],
        reply: ReplyEmpty,
    ) -> Replied {
        defaults::unlink(reply)
    }

    fn rmdir(
        &self,
        _request: &Request,
        _parent: INodeNo,
        _name: &[u8],
        reply: ReplyEmpty,
    ) -> Replied {
        defaults::rmdir(reply)
    }

    fn rename(
        &self,
        _request: &Request,
        _parent: INodeNo,
        _name: &[u8],
        _newparent: INodeNo,
        _newname: &[u8],
        _flags: RenameFlags,
        reply: ReplyEmpty,
    ) -> Replied {
        defaults::rename(reply)
    }

    fn link(
        &self,
        _request: &Request,
        _ino: INodeNo,
        _newparent: INodeNo,
        _newname: &[u8],
        reply: ReplyEntry,
    ) -> Replied {
        defaults::link(reply)
    }

    fn open(
        &self,
        _request: &Request,
        _ino: INodeNo,
        _flags: OpenFlags,
        reply: ReplyOpen,
    ) -> Replied {
        defaults::open(reply)
    }

    fn read(
        &self,
        _request: &Request,
        _ino: INodeNo,
        _fh: FileHandle,
        _offset: u64,
        _size: u32,
        _flags: OpenFlags,
        _lock_owner: Option<LockOwner>,
        reply: ReplyData,
    ) -> Replied {
        defaults::read(reply)
    }

    fn write(
        &self,
        _request: &Request,
        _ino: INodeNo,
        _fh: FileHandle,
        _offset: u64,
        _written: &[u8],
        _write_flags: WriteFlags,
        _flags: OpenFlags,
        _lock_owner: Option<LockOwner>,
        reply: ReplyWrite,
    ) -> Replied {
        defaults::write(reply)
    }

    fn statfs(&self, _request: &Request, _ino: INodeNo, reply: ReplyStatfs) -> Replied {
        defaults::statfs(reply)
    }

    fn release(
        &self,
        _request: &Request,
        _ino: INodeNo,
        _fh: FileHandle,
        _flags: OpenFlags,
        _lock_owner: Option<LockOwner>,
        _flush: bool,
        reply: ReplyEmpty,
    ) -> Replied {
        defaults::release(reply)
    }

    fn fsync(
        &self,
        _request: &Request,
        _ino: INodeNo,
        _fh: FileHandle,
        _datasync: bool,
        reply: ReplyEmpty,
    ) -> Replied {
        defaults::fsync(reply)
    }

    fn setxattr(
        &self,
        _request: &Request,
        _ino: INodeNo,
        _name: &[u8],
        _value: &[u8],
        _flags: i32,
        _position: u32,
        _setxattr_flags: SetxattrFlags,
        reply: ReplyEmpty,
    ) -> Replied {
        defaults::setxattr(reply)
    }

    fn getxattr(
        &self,
        _request: &Request,
        _ino: INodeNo,
        _name: &[u8],
        _size: u32,
        reply: ReplyXattr,
    ) -> Replied {
        defaults::getxattr(reply)
    }

    fn listxattr(
        &self,
        _request: &Request,
        _ino: INodeNo,
        _size: u32,
        reply: ReplyXattr,
    ) -> Replied {
        defaults::listxattr(reply)
    }

    fn removexattr(
        &self,
        _request: &Request,
        _ino: INodeNo,
        _name: &[u8],
        reply: ReplyEmpty,
    ) -> Replied {
        defaults::removexattr(reply)
    }

    fn flush(
        &self,
        _request: &Request,
        _ino: INodeNo,
        _fh: FileHandle,
        lock_owner: LockOwner,
        reply: ReplyEmpty,
    ) -> Replied {
        self.give_up(lock_owner);
        reply.ok()
    }

    fn opendir(
        &self,
        _request: &Request,
        _ino: INodeNo,
        _flags: OpenFlags,
        reply: ReplyOpen,
    ) -> Replied {
        defaults::opendir(reply)
    }

    fn readdir(
        &self,
        _request: &Request,
        _ino: INodeNo,
        _fh: FileHandle,
        _offset: u64,
        reply: ReplyDirectory,
    ) -> Replied {
        defaults::readdir(reply)
    }

    fn releasedir(
        &self,
        _request: &Request,
        _ino: INodeNo,
        _fh: FileHandle,
        _flags: OpenFlags,
        reply: ReplyEmpty,
    ) -> Replied {
        defaults::releasedir(reply)
    }

    fn fsyncdir(
        &self,
        _request: &Request,
        _ino: INodeNo,
        _fh: FileHandle,
        _datasync: bool,
        reply: ReplyEmpty,
    ) -> Replied {
        defaults::fsyncdir(reply)
    }

    fn getlk(
        &self,
        _request: &Request,
        _ino: INodeNo,
        _fh: FileHandle,
        _lock_owner: LockOwner,
        _start: u64,
        _end: u64,
        _typ: i32,
        _pid: u32,
        reply: ReplyLock,
    ) -> Replied {
        defaults::getlk(reply)
    }

    fn setlk(
        &self,
        _request: &Request,
        _ino: INodeNo,
        _fh: FileHandle,
        lock_owner: LockOwner,
        _start: u64,
        _end: u64,
        typ: i32,
        _pid: u32,
        sleep: bool,
        reply: ReplyEmpty,
    ) -> Replied {
        if typ == UNLOCKED {
            self.give_up(lock_owner);
            return reply.ok();
        }
        if sleep {
            self.wait_for(lock_owner, reply)
        } else if self.takes(lock_owner) {
            reply.ok()
        } else {
            reply.error(Errno::EAGAIN)
        }
    }

    fn access(
        &self,
        _request: &Request,
        _ino: INodeNo,
        _mask: AccessFlags,
        reply: ReplyEmpty,
    ) -> Replied {
        defaults::access(reply)
    }

    fn create(
        &self,
        _request: &Request,
        _parent: INodeNo,
        _name: &[u8],
        _mode: u32,
        _umask: u32,
        _flags: i32,
        reply: ReplyCreate,
    ) -> Replied {
        defaults::create(reply)
    }

    fn interrupt(&self, _request: &Request, target: RequestId, reply: ReplyInterrupt) -> Replied {
        if self.cut_short(target) {
            reply.honoured()
        } else {
            reply.again()
        }
    }

    fn bmap(
        &self,
        _request: &Request,
        _ino: INodeNo,
        _blocksize: u32,
        _idx: u64,
        reply: ReplyBmap,
    ) -> Replied {
        defaults::bmap(reply)
    }

    fn ioctl(
        &self,
        _request: &Request,
        _ino: INodeNo,
        _fh: FileHandle,
        _flags: IoctlFlags,
        _cmd: u32,
        _in_data: &[u8],
        _out_size: u32,
        reply: ReplyIoctl,
    ) -> Replied {
        defaults::ioctl(reply)
    }

    fn poll(
        &self,
        _request: &Request,
        _ino: INodeNo,
        _fh: FileHandle,
        _ph: PollNotifier,
        _events: PollEvents,
        _flags: PollFlags,
        reply: ReplyPoll,
    ) -> Replied {
        defaults::poll(reply)
    }

    fn batch_forget(&self, _request: &Request, _nodes: ForgetList<'_>) -> u64 {
        defaults::forget()
    }

    fn fallocate(
        &self,
        _request: &Request,
        _ino: INodeNo,
        _fh: FileHandle,
        _offset: u64,
        _length: u64,
        _mode: i32,
        reply: ReplyEmpty,
    ) -> Replied {
        defaults::fallocate(reply)
    }

    fn readdirplus(
        &self,
        _request: &Request,
        _ino: INodeNo,
        _fh: FileHandle,
        _offset: u64,
        reply: ReplyDirectoryPlus,
    ) -> Replied {
        defaults::readdirplus(reply)
    }

    fn lseek(
        &self,
        _request: &Request,
        _ino: INodeNo,
        _fh: FileHandle,
        _offset: i64,
        _whence: i32,
        reply: ReplyLseek,
    ) -> Replied {
        defaults::lseek(reply)
    }

    fn copy_file_range(
        &self,
        _request: &Request,
        _ino_in: INodeNo,
        _fh_in: FileHandle,
        _offset_in: u64,
        _ino_out: INodeNo,
        _fh_out: FileHandle,
        _offset_out: u64,
        _len: u64,
        _flags: CopyFileRangeFlags,
        reply: ReplyWrite,
    ) -> Replied {
        defaults::copy_file_range(reply)
    }

    fn destroy(&mut self) {}

    ghost deferral = { refl };
}
