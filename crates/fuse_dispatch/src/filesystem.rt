// What a filesystem is.
ghost use Rattle.std.specs.Prelude.{◌≡◌, [], Bool, option_map};
ghost use Rattle.fuse_request.specs.Call.{Call, handle_number, owner_number};
ghost use Rattle.fuse_request.specs.Forgets.{rows_of};
ghost use Rattle.fuse_dispatch.specs.OwedMessage.{Answers, AnswersInterrupt};
ghost use Rattle.fuse_dispatch.specs.Promise.{Promise};

use fuse_config::KernelConfig;
use fuse_notify::PollNotifier;
use fuse_reply::{
    Replied, ReplyAttr, ReplyBmap, ReplyCreate, ReplyData, ReplyDirectory, ReplyDirectoryPlus,
    ReplyEmpty, ReplyEntry, ReplyInterrupt, ReplyIoctl, ReplyLock, ReplyLseek, ReplyOpen,
    ReplyPoll, ReplyStatfs, ReplyWrite, ReplyXattr,
};
use fuse_request::{ForgetList, Request};
use fuse_wire::{
    AccessFlags, BsdFileFlags, CopyFileRangeFlags, Errno, FileHandle, INodeNo, IoctlFlags,
    LockOwner, OpenFlags, PollEvents, PollFlags, RenameFlags, RequestId, SetxattrFlags, SystemTime,
    TimeOrNow, WriteFlags,
};

/// A filesystem, as a session serves it. The session calls `init` at most once and before any request, then a method
/// for each request that its verdict sends here, and `destroy` last. A method that is to answer is handed the reply,
/// made for that request alone, and gives back what it spent the reply into: an answer, or, where the reply has a door,
/// the mark of one that comes later.
pub trait Filesystem: Send + Sync {
    /// What it may do and answer, over plain data. What is proved of a session speaks of its filesystem by this alone.
    ghost promise: { Promise Self };

    /// Whether a reply may be given after its method has returned. Where it is true and more than one thread serves, a
    /// reply has a door, unless no memory was to be had for it (`NoDoor::Starved`): `defer` puts the reply off by it, and
    /// gives a token to keep. Else a reply has none (`NoDoor::Shut`), so that a method has to answer before it returns:
    /// on one thread nothing else would be served meanwhile.
    const DEFERS: bool;

    /// That constant, as a contract names it.
    ghost DEFERS: { Bool };

    /// The kernel opens the connection: INIT, of version 7.6 or a later 7.x. `config` has what it offers and the values
    /// that the reply gets, which may be set here. Ok accepts the kernel. An error refuses it: the error is the reply,
    /// and the session ends with `SessionError::Init`.
    fn init(&mut self, request: &Request, config: &mut KernelConfig) -> Result<(), Errno>
        ensures { promise.may_init self.old request.now config.old result self.new config.new };

    /// LOOKUP: which inode the name means in the directory `parent`. The kernel asks before it does anything else with
    /// a name for which it has no answer that still holds. The answer is the inode with its attributes, and how long
    /// the kernel may rely on both: for every user, whoever asked. The error for a name that is not there is ENOENT,
    /// which the kernel does not keep; an entry whose inode is 0 says the same, and is kept as long as the entry says.
    /// Each other entry counts as one lookup of its inode, until `forget` gives it back. For an entry that is the root
    /// (inode 1), or whose attributes have a size above `i64::MAX`, the caller gets EIO. The names `.` and `..` come
    /// only where `FUSE_EXPORT_SUPPORT` was granted. `defaults::lookup` answers ENOSYS, which the caller gets.
    fn lookup(&self, request: &Request, parent: INodeNo, name: &[u8], reply: ReplyEntry) -> Replied
        ensures { Answers promise.may_answer self.now request.now
            (Call.Lookup parent.0 name.now) reply.id reply.door result };

    /// FORGET: the kernel gives back `nlookup` lookups of this inode. Each inode that `lookup`, `symlink`, `mknod`,
    /// `mkdir`, `link` or `create` answered counted as one, and so did each entry that `readdirplus` listed, but for
    /// `.`, `..` and those of inode 0. Once all are given back the kernel does not name the inode again before another
    /// lookup; at the end of a session some may never be given back. There is no reply: the result is the mark that the
    /// sink notes beside the request's id. `defaults::forget` gives 0.
    fn forget(&self, request: &Request, ino: INodeNo, nlookup: u64) -> u64
        ensures { promise.may_note self.now request.now (Call.Forget ino.0 nlookup) result };

    /// GETATTR: what the attributes of this inode are, as for `stat(2)`, where the kernel has none that still hold.
    /// `fh` is the open file by which the kernel asks, if it asks by one; it may be None for a file that is open. The
    /// answer is the attributes, and how long the kernel may rely on them. Where the kind is not the one that the
    /// kernel knows of the inode, or the size is above `i64::MAX`, the caller gets EIO, and so does every later use of
    /// the inode until the kernel has forgotten it. `defaults::getattr` answers ENOSYS, which the caller gets.
    fn getattr(
        &self,
        request: &Request,
        ino: INodeNo,
        fh: Option<FileHandle>,
        reply: ReplyAttr,
    ) -> Replied
        ensures { Answers promise.may_answer self.now request.now
            (Call.GetAttr ino.0 (handle_number fh)) reply.id reply.door result };

    /// SETATTR: sets those attributes of this inode that are Some. The answer is all of them as they are then, as for
    /// `getattr`. `mode` is a whole `st_mode`, of which the kind does not change. `size` is in bytes: a file is cut
    /// there, or made longer by zero bytes. `atime` and `mtime` are a time, or the present, by a clock of this
    /// filesystem. `ctime` comes only where `FUSE_WRITEBACK_CACHE` was granted. `fh` is the open file by which it is
    /// done, as by `ftruncate(2)`, if it is done by one. `crtime`, `chgtime`, `bkuptime` and `flags` belong to other
    /// systems, and are None on Linux. A filesystem that keeps no such attribute answers an error, which the caller
    /// gets, or the attributes as they are: the call has succeeded then, without an effect. `defaults::setattr`
    /// answers ENOSYS, which the caller gets.
    fn setattr(
        &self,
        request: &Request,
        ino: INodeNo,
        mode: Option<u32>,
        uid: Option<u32>,
        gid: Option<u32>,
        size: Option<u64>,
        atime: Option<TimeOrNow>,
        mtime: Option<TimeOrNow>,
        ctime: Option<SystemTime>,
        fh: Option<FileHandle>,
        crtime: Option<SystemTime>,
        chgtime: Option<SystemTime>,
        bkuptime: Option<SystemTime>,
        flags: Option<BsdFileFlags>,
        reply: ReplyAttr,
    ) -> Replied
        ensures { Answers promise.may_answer self.now request.now
            (Call.SetAttr ino.0 mode uid gid size atime mtime ctime (handle_number fh)
            crtime chgtime bkuptime (option_map (λ f. f.0) flags)) reply.id reply.door result };

    /// READLINK: where this symbolic link leads, as bytes without a zero byte behind them. The kernel asks each time
    /// that it follows the link, but may keep the answer where `FUSE_CACHE_SYMLINKS` was granted. It takes one byte less
    /// than a page at most: for a longer answer the caller gets EIO. `defaults::readlink` answers ENOSYS, which the
    /// caller gets.
    fn readlink(&self, request: &Request, ino: INodeNo, reply: ReplyData) -> Replied
        ensures { Answers promise.may_answer self.now request.now (Call.ReadLink ino.0) reply.id reply.door result };

    /// SYMLINK: makes a symbolic link under the name `link_name` in the directory `parent`. `target` is where it leads; it
    /// need not lead to anything. The answer is the new inode, of the kind Symlink, as `lookup` gives one. It counts as a
    /// lookup of the inode. `defaults::symlink` answers EPERM, which by `symlink(2)` says that the filesystem has no
    /// symbolic links.
    fn symlink(
        &self,
        request: &Request,
        parent: INodeNo,
        link_name: &[u8],
        target: &[u8],
        reply: ReplyEntry,
    ) -> Replied
        ensures { Answers promise.may_answer self.now request.now
            (Call.SymLink parent.0 link_name.now target.now) reply.id reply.door result };

    /// MKNOD: makes a file under a name, for `mknod(2)` and the like, and for each new regular file once `create` has
    /// answered ENOSYS. `mode` is its kind and its permissions, as in `st_mode`. The bits of `umask` are taken away from
    /// it already, unless `FUSE_DONT_MASK` was granted, where that is for this method to do. `rdev` is the number of the
    /// device, as the attributes have it: the minor number in the bits 0 to 7 and 20 to 31, the major number in those
    /// between (the kernel's `new_encode_dev`). It is 0 for a file that is no device. The user and group that make it
    /// are those of `request`. The answer is as for `lookup`; unless its kind is that of `mode` and its inode neither 0
    /// nor 1 the caller gets EIO. `defaults::mknod` answers ENOSYS, which the caller gets.
    fn mknod(
        &self,
        request: &Request,
        parent: INodeNo,
        name: &[u8],
        mode: u32,
        umask: u32,
        rdev: u32,
        reply: ReplyEntry,
    ) -> Replied
        ensures { Answers promise.may_answer self.now request.now
            (Call.MkNod parent.0 name.now mode umask rdev) reply.id reply.door result };

    /// MKDIR: makes a directory under a name. `mode` is its permissions, without a kind, and `umask` is as for `mknod`.
    /// The error for a name that is there already is EEXIST. The answer is as for `mknod`, of the kind Directory.
    /// `defaults::mkdir` answers ENOSYS, which the caller gets.
    fn mkdir(
        &self,
        request: &Request,
        parent: INodeNo,
        name: &[u8],
        mode: u32,
        umask: u32,
        reply: ReplyEntry,
    ) -> Replied
        ensures { Answers promise.may_answer self.now request.now
            (Call.MkDir parent.0 name.now mode umask) reply.id reply.door result };

    /// UNLINK: takes a name, but not that of a directory, out of the directory `parent`. The inode may have other names.
    /// Even without one it may still be open, and the kernel may name it until it is released and its lookups are given
    /// back by `forget`. `defaults::unlink` answers ENOSYS, which the caller gets.
    fn unlink(&self, request: &Request, parent: INodeNo, name: &[u8], reply: ReplyEmpty) -> Replied
        ensures { Answers promise.may_answer self.now request.now
            (Call.Unlink parent.0 name.now) reply.id reply.door result };

    /// RMDIR: takes the name of an empty directory out of the directory `parent`. The kernel does not look whether it is
    /// empty: the error where it is not is ENOTEMPTY. The kernel may still name its inode, as after `unlink`.
    /// `defaults::rmdir` answers ENOSYS, which the caller gets.
    fn rmdir(&self, request: &Request, parent: INodeNo, name: &[u8], reply: ReplyEmpty) -> Replied
        ensures { Answers promise.may_answer self.now request.now
            (Call.RmDir parent.0 name.now) reply.id reply.door result };

    /// RENAME and RENAME2: what `name` means in `parent` is from now on `newname` in `newparent`. RENAME has no flags.
    /// What had the new name is replaced in the same step, a directory only where it is empty (ENOTEMPTY), and its inode
    /// lives on as after `unlink`. RENAME2 has flags: with `RENAME_NOREPLACE` a new name that is taken is EEXIST, with
    /// `RENAME_EXCHANGE` the two names change places, and `RENAME_WHITEOUT` leaves a whiteout at the old one. ENOSYS to
    /// RENAME2 is remembered: its caller and all later ones with flags get EINVAL, and no RENAME2 is sent again.
    /// `defaults::rename` answers ENOSYS, which without flags the caller gets.
    fn rename(
        &self,
        request: &Request,
        parent: INodeNo,
        name: &[u8],
        newparent: INodeNo,
        newname: &[u8],
        flags: RenameFlags,
        reply: ReplyEmpty,
    ) -> Replied
        ensures { Answers promise.may_answer self.now request.now
            (Call.Rename parent.0 name.now newparent.0 newname.now flags.0) reply.id reply.door result };

    /// LINK: gives the inode `ino`, which is no directory, one more name, `newname` in the directory `newparent`. The
    /// answer is that same inode, with its attributes as they are then, and how long the kernel may rely on the name and
    /// on them. It counts as one more lookup of the inode. `defaults::link` answers EPERM, which by `link(2)` says that
    /// the filesystem has no hard links.
    fn link(
        &self,
        request: &Request,
        ino: INodeNo,
        newparent: INodeNo,
        newname: &[u8],
        reply: ReplyEntry,
    ) -> Replied
        ensures { Answers promise.may_answer self.now request.now
            (Call.Link ino.0 newparent.0 newname.now) reply.id reply.door result };

    /// OPEN: opens a regular file. `flags` are those of `open(2)` without `O_CREAT`, `O_EXCL` and `O_NOCTTY`, and
    /// without `O_TRUNC` unless `FUSE_ATOMIC_O_TRUNC` was granted. Unless it is mounted with `default_permissions` the
    /// filesystem itself says whether the caller may open it so. The answer is a number, which is `fh` of each call on
    /// this open file, and how the kernel treats it: without `FOPEN_KEEP_CACHE` it drops what it has cached of the
    /// file. ENOSYS is remembered by a kernel that offers `FUSE_NO_OPEN_SUPPORT`: this open and all later ones succeed
    /// with 0 for `fh` and with `FOPEN_KEEP_CACHE`, and no OPEN is sent again, nor a RELEASE for these.
    /// `defaults::open` answers 0 and no flags.
    fn open(&self, request: &Request, ino: INodeNo, flags: OpenFlags, reply: ReplyOpen) -> Replied
        ensures { Answers promise.may_answer self.now request.now
            (Call.Open ino.0 flags.0) reply.id reply.door result };

    /// READ: the bytes of an open file from `offset` on, `size` of them. `offset` and `size` are in bytes, and
    /// `offset` is at most `i64::MAX`. Fewer bytes than `size` are the end of the file, and none are past it; for more
    /// than `size` the caller gets EIO. `fh` is the number that the file was opened with, `flags` are those that it is
    /// open with (`O_SYNC` and the like), and `lock_owner` is the caller as an owner of locks, where the kernel says
    /// it. The kernel may cache the bytes, unless the file was opened with `FOPEN_DIRECT_IO`. Where
    /// `FUSE_WRITEBACK_CACHE` was granted it may read a file that is open for writing alone. `defaults::read` answers
    /// ENOSYS, which the caller gets.
    fn read(
        &self,
        request: &Request,
        ino: INodeNo,
        fh: FileHandle,
        offset: u64,
        size: u32,
        flags: OpenFlags,
        lock_owner: Option<LockOwner>,
        reply: ReplyData,
    ) -> Replied
        ensures { Answers promise.may_answer self.now request.now
            (Call.Read ino.0 fh.0 offset size flags.0 (owner_number lock_owner)) reply.id reply.door result };

    /// WRITE: puts the bytes `written` into an open file from `offset` on, which is in bytes and at most `i64::MAX`. A
    /// call has at most as many as `init` allowed by `KernelConfig::set_max_write`: 16 MiB if it set nothing, and 4096
    /// where it set less. `fh`, `flags` and `lock_owner` are as for `read`. Where `write_flags` has `FUSE_WRITE_CACHE`
    /// the write comes late, from the page cache: `fh` is a guess, and the user, group and process of `request` may
    /// not be the writer's. Where it has `FUSE_WRITE_KILL_SUIDGID` the bits of set-user-id and set-group-id are to be
    /// cleared. The answer is how many bytes were written, which is all of them. Fewer is for a file opened with
    /// `FOPEN_DIRECT_IO`, where the caller gets that number; for more the caller gets EIO. `defaults::write` answers
    /// ENOSYS, which the caller gets.
    fn write(
        &self,
        request: &Request,
        ino: INodeNo,
        fh: FileHandle,
        offset: u64,
        written: &[u8],
        write_flags: WriteFlags,
        flags: OpenFlags,
        lock_owner: Option<LockOwner>,
        reply: ReplyWrite,
    ) -> Replied
        ensures { Answers promise.may_answer self.now request.now
            (Call.Write ino.0 fh.0 offset written.now write_flags.0 flags.0 (owner_number lock_owner))
            reply.id reply.door result };

    /// STATFS: how full the filesystem is, as for `statfs(2)`. `ino` is the inode that the caller asks by, which may be
    /// any of the filesystem. The kernel asks each time. `defaults::statfs` answers no blocks and no inodes at all,
    /// blocks of 512 bytes, names of at most 255 bytes, and 0 for `frsize`, the unit that blocks are counted in.
    fn statfs(&self, request: &Request, ino: INodeNo, reply: ReplyStatfs) -> Replied
        ensures { Answers promise.may_answer self.now request.now (Call.StatFs ino.0) reply.id reply.door result };

    /// RELEASE: an open file is no longer used, by a descriptor or a mapping. It comes once for each `open` or `create`
    /// that opened it, and `fh` is free then. `flags` are those that the file was open with. `lock_owner` is Some where
    /// `flock(2)` took locks by this open file that the filesystem keeps: they are given up. Where `flush` is true it
    /// is a flush too. No caller gets an error of it. `defaults::release` answers that it is done.
    fn release(
        &self,
        request: &Request,
        ino: INodeNo,
        fh: FileHandle,
        flags: OpenFlags,
        lock_owner: Option<LockOwner>,
        flush: bool,
        reply: ReplyEmpty,
    ) -> Replied
        ensures { Answers promise.may_answer self.now request.now
            (Call.Release ino.0 fh.0 flags.0 (owner_number lock_owner) flush) reply.id reply.door result };

    /// FSYNC: brings what was written to an open file to the disk, for `fsync(2)` and the like. Where `datasync` is
    /// true, as for `fdatasync(2)`, its contents are enough, without the attributes. The kernel has sent the writes that
    /// it held before. ENOSYS is remembered: this call and all later ones succeed, and no FSYNC is sent again.
    /// `defaults::fsync` answers ENOSYS.
    fn fsync(
        &self,
        request: &Request,
        ino: INodeNo,
        fh: FileHandle,
        datasync: bool,
        reply: ReplyEmpty,
    ) -> Replied
        ensures { Answers promise.may_answer self.now request.now
            (Call.FSync ino.0 fh.0 datasync) reply.id reply.door result };

    /// SETXATTR: gives this inode the extended attribute `name`, which has its prefix (`user.` and the like). `value`
    /// may be empty. `flags` are those of `setxattr(2)`: with `XATTR_CREATE` (1) an attribute that is there already is
    /// EEXIST, and with `XATTR_REPLACE` (2) one that is not there is ENODATA. `position` belongs to other systems, and
    /// is 0 on Linux. `setxattr_flags` come where `FUSE_SETXATTR_EXT` was granted, and are empty else: with
    /// `FUSE_SETXATTR_ACL_KILL_SGID`, which comes with `system.posix_acl_access`, the bit of set-group-id is to be
    /// cleared. ENOSYS is remembered: this caller and all later ones get EOPNOTSUPP, and no SETXATTR is sent again.
    /// EOPNOTSUPP itself is not remembered. `defaults::setxattr` answers ENOSYS.
    fn setxattr(
        &self,
        request: &Request,
        ino: INodeNo,
        name: &[u8],
        value: &[u8],
        flags: i32,
        position: u32,
        setxattr_flags: SetxattrFlags,
        reply: ReplyEmpty,
    ) -> Replied
        ensures { Answers promise.may_answer self.now request.now
            (Call.SetXAttr ino.0 name.now value.now flags position setxattr_flags.0) reply.id reply.door result };

    /// GETXATTR: the value of the extended attribute `name` of this inode. Where `size` is 0 the answer is how many
    /// bytes it has, by `ReplyXattr::size`. Else it is the bytes, by `ReplyXattr::data`, and `size` is how many the
    /// caller has room for: the error where they are more is ERANGE. The error for an attribute that is not there is
    /// ENODATA. ENOSYS is remembered: this caller and all later ones get EOPNOTSUPP, and no GETXATTR is sent again.
    /// `defaults::getxattr` answers ENOSYS.
    fn getxattr(
        &self,
        request: &Request,
        ino: INodeNo,
        name: &[u8],
        size: u32,
        reply: ReplyXattr,
    ) -> Replied
        ensures { Answers promise.may_answer self.now request.now
            (Call.GetXAttr ino.0 name.now size) reply.id reply.door result };

    /// LISTXATTR: the names of all extended attributes of this inode, one behind the other, with a zero byte after each.
    /// `size` is as for `getxattr`, and ERANGE too; the zero bytes count. For an empty name, or no zero byte at the end,
    /// the caller gets EIO. ENOSYS is remembered: this caller and all later ones get EOPNOTSUPP, and no LISTXATTR is
    /// sent again. `defaults::listxattr` answers ENOSYS.
    fn listxattr(&self, request: &Request, ino: INodeNo, size: u32, reply: ReplyXattr) -> Replied
        ensures { Answers promise.may_answer self.now request.now
            (Call.ListXAttr ino.0 size) reply.id reply.door result };

    /// REMOVEXATTR: takes the extended attribute `name` away from this inode. The error for one that is not there is
    /// ENODATA. ENOSYS is remembered: this caller and all later ones get EOPNOTSUPP, and no REMOVEXATTR is sent again.
    /// `defaults::removexattr` answers ENOSYS.
    fn removexattr(
        &self,
        request: &Request,
        ino: INodeNo,
        name: &[u8],
        reply: ReplyEmpty,
    ) -> Replied
        ensures { Answers promise.may_answer self.now request.now
            (Call.RemoveXAttr ino.0 name.now) reply.id reply.door result };

    /// FLUSH: a descriptor of an open file is closed. It comes at each `close(2)`, unless the file was opened with
    /// `FOPEN_NOFLUSH` and `FUSE_WRITEBACK_CACHE` was not granted; so one open may have many, or none. Its error is
    /// that of the `close(2)`: here failed writes can be told. Nothing need be brought to the disk. Where
    /// `FUSE_POSIX_LOCKS` was granted, all locks that `lock_owner` has on this file are given up here, since no SETLK
    /// comes for them. ENOSYS is remembered: this close and all later ones succeed, and no FLUSH is sent again.
    /// `defaults::flush` answers ENOSYS, so it is not for a filesystem that keeps such locks.
    fn flush(
        &self,
        request: &Request,
        ino: INodeNo,
        fh: FileHandle,
        lock_owner: LockOwner,
        reply: ReplyEmpty,
    ) -> Replied
        ensures { Answers promise.may_answer self.now request.now
            (Call.Flush ino.0 fh.0 lock_owner.0) reply.id reply.door result };

    /// OPENDIR: opens a directory. `flags` are as for `open`. The answer is a number, which is `fh` of each call on this
    /// open directory, and how the kernel treats it: with `FOPEN_CACHE_DIR` it may cache the entries, and with
    /// `FOPEN_KEEP_CACHE` it keeps those that it has cached before. ENOSYS is remembered by a kernel that offers
    /// `FUSE_NO_OPENDIR_SUPPORT`: this open and all later ones succeed with 0 for `fh` and both of these flags, and no
    /// OPENDIR is sent again, nor a RELEASEDIR for these. `defaults::opendir` answers 0 and no flags.
    fn opendir(
        &self,
        request: &Request,
        ino: INodeNo,
        flags: OpenFlags,
        reply: ReplyOpen,
    ) -> Replied
        ensures { Answers promise.may_answer self.now request.now
            (Call.OpenDir ino.0 flags.0) reply.id reply.door result };

    /// READDIR: the entries of an open directory, as many as fit into `reply`, which has the size that the kernel asks
    /// for. The first time `offset` is 0. Later it is the one that an entry was added with, and the listing goes on
    /// after that entry. What an offset means is for the filesystem to choose, and any u64 may come. No entry is the
    /// end. `.` and `..` are entries like others: the kernel adds neither. For a name that is empty, has a `/` or is
    /// longer than 1024 bytes (4095 since Linux 6.14) the caller gets EIO. The entries do not count as lookups.
    /// `defaults::readdir` answers ENOSYS, which the caller gets.
    fn readdir(
        &self,
        request: &Request,
        ino: INodeNo,
        fh: FileHandle,
        offset: u64,
        reply: ReplyDirectory,
    ) -> Replied
        requires { reply.held ≡ [] }
        ensures { Answers promise.may_answer self.now request.now
            (Call.ReadDir ino.0 fh.0 offset reply.size) reply.id reply.door result };

    /// RELEASEDIR: an open directory is no longer used. It comes once for each `opendir` that opened it, and `fh` is
    /// free then. `flags` are those that the directory was open with. No caller gets an error of it.
    /// `defaults::releasedir` answers that it is done.
    fn releasedir(
        &self,
        request: &Request,
        ino: INodeNo,
        fh: FileHandle,
        flags: OpenFlags,
        reply: ReplyEmpty,
    ) -> Replied
        ensures { Answers promise.may_answer self.now request.now
            (Call.ReleaseDir ino.0 fh.0 flags.0) reply.id reply.door result };

    /// FSYNCDIR: brings what changed in an open directory to the disk, for `fsync(2)` of a directory. Where `datasync`
    /// is true its entries are enough, without its attributes. ENOSYS is remembered: this call and all later ones
    /// succeed, and no FSYNCDIR is sent again. `defaults::fsyncdir` answers ENOSYS.
    fn fsyncdir(
        &self,
        request: &Request,
        ino: INodeNo,
        fh: FileHandle,
        datasync: bool,
        reply: ReplyEmpty,
    ) -> Replied
        ensures { Answers promise.may_answer self.now request.now
            (Call.FSyncDir ino.0 fh.0 datasync) reply.id reply.door result };

    /// GETLK: which lock of another owner stands in the way of one that `lock_owner` may want, for `F_GETLK` of
    /// `fcntl(2)`. It would be of the type `typ`, `F_RDLCK` (0) or `F_WRLCK` (1), on the bytes from `start` up to and
    /// with `end`, which is `i64::MAX` for a lock without an end. `pid` may be 0. The answer is one lock that stands in
    /// the way, or the type `F_UNLCK` (2) where none does. It is sent only where `FUSE_POSIX_LOCKS` was granted: else
    /// the kernel keeps such locks itself. ENOSYS is not remembered. `defaults::getlk` answers ENOSYS, which the caller
    /// gets.
    fn getlk(
        &self,
        request: &Request,
        ino: INodeNo,
        fh: FileHandle,
        lock_owner: LockOwner,
        start: u64,
        end: u64,
        typ: i32,
        pid: u32,
        reply: ReplyLock,
    ) -> Replied
        ensures { Answers promise.may_answer self.now request.now
            (Call.GetLk ino.0 fh.0 lock_owner.0 start end typ pid) reply.id reply.door result };

    /// SETLK and SETLKW: takes a lock of the type `typ` for `lock_owner`, or gives up what it has with `F_UNLCK`. Types
    /// and range are as for `getlk`, and `pid` is the process, which `getlk` tells of a lock, or 0 with `F_UNLCK`. Where
    /// another's lock stands in the way the error is EAGAIN, but where `sleep` is true (SETLKW) the method puts the
    /// reply off until the lock is free, or, where the reply has no door, waits for it; the session refuses INTERRUPT,
    /// so that no signal ends the wait. It is sent for `fcntl(2)` where `FUSE_POSIX_LOCKS` was granted, and for
    /// `flock(2)`, on the whole file, where `FUSE_FLOCK_LOCKS` was; nothing here tells the two apart. Without these the
    /// kernel keeps the locks itself. ENOSYS is not remembered. `defaults::setlk` answers ENOSYS, which the caller gets.
    fn setlk(
        &self,
        request: &Request,
        ino: INodeNo,
        fh: FileHandle,
        lock_owner: LockOwner,
        start: u64,
        end: u64,
        typ: i32,
        pid: u32,
        sleep: bool,
        reply: ReplyEmpty,
    ) -> Replied
        ensures { Answers promise.may_answer self.now request.now
            (Call.SetLk ino.0 fh.0 lock_owner.0 start end typ pid sleep) reply.id reply.door result };

    /// ACCESS: whether the caller may do all that `mask` says with this inode: `R_OK`, `W_OK` and `X_OK`, or no bit,
    /// which is `F_OK`. It is sent for `access(2)` and `chdir(2)`, unless the filesystem is mounted with
    /// `default_permissions`. The error that refuses is EACCES. It is not sent before the other requests: whether the
    /// caller may do these is for their own methods to say. ENOSYS is remembered: this access and all later ones are
    /// allowed, and no ACCESS is sent again. `defaults::access` answers ENOSYS.
    fn access(
        &self,
        request: &Request,
        ino: INodeNo,
        mask: AccessFlags,
        reply: ReplyEmpty,
    ) -> Replied
        ensures { Answers promise.may_answer self.now request.now
            (Call.Access ino.0 mask.0) reply.id reply.door result };

    /// CREATE: makes a regular file under a name and opens it, for `open(2)` with `O_CREAT` where the kernel knows of no
    /// such name. `mode` and `umask` are as for `mknod`. `flags` are those of `open(2)` without `O_NOCTTY`. Where the
    /// name is there after all, it is EEXIST with `O_EXCL`, and opened without. The answer is that of `mknod`, which
    /// counts as one lookup, and that of `open`, which is released once. ENOSYS is remembered: the kernel sends MKNOD
    /// and then OPEN, for this file and all later ones, and no CREATE again. `defaults::create` answers ENOSYS.
    fn create(
        &self,
        request: &Request,
        parent: INodeNo,
        name: &[u8],
        mode: u32,
        umask: u32,
        flags: i32,
        reply: ReplyCreate,
    ) -> Replied
        ensures { Answers promise.may_answer self.now request.now
            (Call.Create parent.0 name.now mode umask flags) reply.id reply.door result };

    /// INTERRUPT: whoever made the request `target` was interrupted by a signal, and wants it cut short. That request is
    /// still owed its one reply. The kernel sends INTERRUPT once `target` was sent, and before all else that waits, so
    /// on several threads it may be here before the other method is called, and after it has answered. To honour it a
    /// filesystem answers `target`, whose reply it has put off, by EINTR through its token, and spends `reply` by
    /// `honoured`: INTERRUPT itself gets a note in place of a frame. For a request that it does not know it answers
    /// `again`: the kernel asks once more, unless the request was answered meanwhile. Every other error but ENOSYS lets the
    /// request go on. ENOSYS does too and is remembered: no INTERRUPT is sent again. `defaults::interrupt` answers ENOSYS.
    fn interrupt(&self, request: &Request, target: RequestId, reply: ReplyInterrupt) -> Replied
        requires { reply.target ≡ target.0 }
        ensures { AnswersInterrupt promise.may_answer promise.may_honour self.now request.now
            target.0 reply.id result };

    /// BMAP: in which block of the device the block `idx` of this file lies. Both are counted in blocks of `blocksize`
    /// bytes. It is sent for `FIBMAP` of `ioctl(2)` and the like, and only where the filesystem is mounted from a block
    /// device. 0 is for a block that lies nowhere, and the caller gets 0 for an error too. ENOSYS is remembered: no BMAP
    /// is sent again. `defaults::bmap` answers ENOSYS.
    fn bmap(
        &self,
        request: &Request,
        ino: INodeNo,
        blocksize: u32,
        idx: u64,
        reply: ReplyBmap,
    ) -> Replied
        ensures { Answers promise.may_answer self.now request.now
            (Call.BMap ino.0 blocksize idx) reply.id reply.door result };

    /// IOCTL: the command `cmd` of `ioctl(2)` on an open file, or on an open directory where `flags` has
    /// `FUSE_IOCTL_DIR`. Other flags say that a program of 32 bits calls. The kernel reads off the command what goes in
    /// and out: `in_data` is what the caller gives, and `out_size` is how many bytes it takes. The answer is what
    /// `ioctl(2)` returns, and those bytes; for more than `out_size` the caller gets EIO. The error for a command that
    /// is not known is ENOTTY. The session itself answers ENOSYS to a command with `FUSE_IOCTL_UNRESTRICTED`.
    /// `defaults::ioctl` answers ENOSYS, which newer kernels turn into ENOTTY.
    fn ioctl(
        &self,
        request: &Request,
        ino: INodeNo,
        fh: FileHandle,
        flags: IoctlFlags,
        cmd: u32,
        in_data: &[u8],
        out_size: u32,
        reply: ReplyIoctl,
    ) -> Replied
        ensures { Answers promise.may_answer self.now request.now
            (Call.IoCtl ino.0 fh.0 flags.0 cmd in_data.now out_size) reply.id reply.door result };

    /// POLL: which of `events` an open file is ready for now. `fh` is the number that the file was opened with. The
    /// answer is given at once. Where `flags` has `FUSE_POLL_SCHEDULE_NOTIFY` and the file is ready for none of them,
    /// the kernel wants to be told when it is: keep `ph`, and call its `notify` then, once; the kernel polls again.
    /// Otherwise let go of it. ENOSYS is remembered: the kernel takes every file for ready to read and write, and no
    /// POLL is sent again. For another error the caller sees `POLLERR`. Where there is no memory for `ph` the poll gets
    /// ENOMEM, and this is not called. `defaults::poll` answers ENOSYS.
    fn poll(
        &self,
        request: &Request,
        ino: INodeNo,
        fh: FileHandle,
        ph: PollNotifier,
        events: PollEvents,
        flags: PollFlags,
        reply: ReplyPoll,
    ) -> Replied
        ensures { Answers promise.may_answer self.now request.now
            (Call.Poll ino.0 fh.0 ph.handle events.0 flags.0) reply.id reply.door result };

    /// BATCH_FORGET: the kernel gives back lookups of several inodes at once. From 7.16 on it sends this in place of
    /// FORGET where more than one inode waits to be forgotten. Each row of `nodes` is an inode and how many of its
    /// lookups are given back, and means what `forget` says. There is no reply: the result is one mark for all rows,
    /// which the sink notes once, under the request's id. `defaults::batch_forget` calls `forget` for each row in order,
    /// and gives the last mark, or 0 where there is no row.
    fn batch_forget(&self, request: &Request, nodes: ForgetList<'_>) -> u64
        ensures { promise.may_note self.now request.now (Call.BatchForget (rows_of nodes.entry)) result };

    /// FALLOCATE: makes room in an open file for `length` bytes from `offset` on, for `fallocate(2)`. Both are in bytes
    /// and at most `i64::MAX`; the session does not check their sum. `mode` 0 makes a file that ends before the last of
    /// them longer, and with `FALLOC_FL_KEEP_SIZE` (1) the size stays. With `FALLOC_FL_PUNCH_HOLE` (2, which comes with
    /// 1) room is given up, with `FALLOC_FL_ZERO_RANGE` (16) it is kept, and the bytes become zero. The error for a
    /// mode that the filesystem does not have is EOPNOTSUPP. ENOSYS is remembered: this caller and all later ones get
    /// EOPNOTSUPP, and no FALLOCATE is sent again. `defaults::fallocate` answers ENOSYS.
    fn fallocate(
        &self,
        request: &Request,
        ino: INodeNo,
        fh: FileHandle,
        offset: u64,
        length: u64,
        mode: i32,
        reply: ReplyEmpty,
    ) -> Replied
        ensures { Answers promise.may_answer self.now request.now
            (Call.FAllocate ino.0 fh.0 offset length mode) reply.id reply.door result };

    /// READDIRPLUS: as `readdir`, and each entry has what `lookup` answers for its name, which the kernel may rely on
    /// as long. Each counts as one lookup of its inode, but `.` and `..` do not. An entry whose inode is 0 is listed
    /// too: it has no attributes that count, and is no lookup. It is sent only where `FUSE_DO_READDIRPLUS` was granted;
    /// with `FUSE_READDIRPLUS_AUTO` besides, the kernel chooses between this and READDIR. ENOSYS is not remembered, and
    /// READDIR is not sent for it. `defaults::readdirplus` answers ENOSYS, which the caller gets.
    fn readdirplus(
        &self,
        request: &Request,
        ino: INodeNo,
        fh: FileHandle,
        offset: u64,
        reply: ReplyDirectoryPlus,
    ) -> Replied
        requires { reply.held ≡ [] }
        ensures { Answers promise.may_answer self.now request.now
            (Call.ReadDirPlus ino.0 fh.0 offset reply.size) reply.id reply.door result };

    /// LSEEK: where in an open file, from `offset` on, the next contents begin (`whence` is `SEEK_DATA`, 3), or the next
    /// hole (`SEEK_HOLE`, 4). The kernel does the other kinds of `lseek(2)` itself. `offset` is in bytes, and any i64
    /// may come. The end of the file counts as a hole. The error where there is nothing to find is ENXIO. The answer is
    /// that place, where the open file stands from now on. ENOSYS is remembered: the kernel takes all files for contents
    /// up to their end, and no LSEEK is sent again. `defaults::lseek` answers ENOSYS.
    fn lseek(
        &self,
        request: &Request,
        ino: INodeNo,
        fh: FileHandle,
        offset: i64,
        whence: i32,
        reply: ReplyLseek,
    ) -> Replied
        ensures { Answers promise.may_answer self.now request.now
            (Call.Lseek ino.0 fh.0 offset whence) reply.id reply.door result };

    /// COPY_FILE_RANGE: copies `len` bytes between two open files of this filesystem, or within one, for
    /// `copy_file_range(2)`: from `offset_in` of the first on, to `offset_out` of the second. Offsets are in bytes, and
    /// at most `i64::MAX`. No flag has a meaning yet. The answer is how many bytes were copied, at most `len`. It is a
    /// u32, so that a longer copy is answered in part, and the caller goes on from there; 0 is the end of the first
    /// file. ENOSYS is remembered: the kernel copies by reads and writes itself, this time and later, and no
    /// COPY_FILE_RANGE is sent again. For EOPNOTSUPP and EXDEV it does so this time. `defaults::copy_file_range`
    /// answers ENOSYS.
    fn copy_file_range(
        &self,
        request: &Request,
        ino_in: INodeNo,
        fh_in: FileHandle,
        offset_in: u64,
        ino_out: INodeNo,
        fh_out: FileHandle,
        offset_out: u64,
        len: u64,
        flags: CopyFileRangeFlags,
        reply: ReplyWrite,
    ) -> Replied
        ensures { Answers promise.may_answer self.now request.now
            (Call.CopyFileRange ino_in.0 fh_in.0 offset_in ino_out.0 fh_out.0 offset_out len flags.0)
            reply.id reply.door result };

    /// The session is over. It is called once and last on each end of a session, also where no INIT came or `init`
    /// refused it. Where options are refused, or memory is wanting at the start, no session began, and nothing is
    /// called.
    fn destroy(&mut self)
        ensures { promise.may_destroy self.old self.new };

    /// The promise says the same of deferral as the constant.
    ghost deferral: { promise.defers ≡ DEFERS };
}
