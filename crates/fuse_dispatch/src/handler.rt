// What each operation of a request comes to.
ghost use Rattle.std.specs.Prelude.{◌≡◌, ℕ, Bool, IsTrue};
ghost use Rattle.fuse_reply.specs.Answer.Answer.{Empty, Error};
ghost use Rattle.fuse_reply.specs.Frame.{reply};
ghost use Rattle.fuse_reply.specs.declared.out.Out.{Out as Goes};
ghost use Rattle.fuse_reply.specs.declared.out.Out.TheVariants.{Frame, Deferred};
ghost use Rattle.fuse_request.specs.Call.{Call};
ghost use Rattle.fuse_request.specs.declared.operation.Operation.{Operation};
ghost use Rattle.fuse_header.specs.declared.request.Request.{Request};
ghost use Rattle.fuse_dispatch.specs.Asked.{IsOwed};
ghost use Rattle.fuse_dispatch.specs.Verdict.{Verdict};
ghost use Rattle.fuse_dispatch.specs.Verdict.Verdict.{Calls, Ends, Fixed};

use crate::asked::Asked;
use crate::giving::Giving;
use fuse_notify::Notifier;
use fuse_reply::Out;
use fuse_request::{
    Access, BMap, BatchForget, CopyFileRange, Create, FAllocate, FSync, FSyncDir, Flush, Forget,
    GetAttr, GetLk, GetXAttr, Interrupt, IoCtl, Link, ListXAttr, Lookup, Lseek, MkDir, MkNod, Open,
    OpenDir, Poll, Read, ReadDir, ReadDirPlus, ReadLink, Release, ReleaseDir, RemoveXAttr, Rename,
    Rename2, RmDir, SetAttr, SetLk, SetXAttr, StatFs, SymLink, Unlink, Write,
};

/// What answers the operations of users who are served: one method for each that may reach a filesystem. It stands
/// between the table of the operations and a filesystem, since a method of an `impl` may call no function that asks for
/// a `Filesystem`, and the table is called by one.
pub(crate) trait Handler {
    /// What a request is owed by its verdict, its message's number and its id.
    ghost owes: { Self → Request → Verdict → (seq id : ℕ) → Goes → Type 0 };

    /// Whether a reply may be given after its method has returned.
    const DEFERS: bool;

    /// That constant, as a contract names it.
    ghost DEFERS: { Bool };

    fn lookup<G: Giving>(&self, asked: &Asked, giving: G, operation: &Lookup<'_>) -> Out
        ensures { IsOwed (owes self.now) (G.door giving) asked.now (Operation.Lookup operation.now) result };

    fn forget<G: Giving>(&self, asked: &Asked, giving: G, operation: &Forget) -> Out
        ensures { IsOwed (owes self.now) (G.door giving) asked.now (Operation.Forget operation.now) result };

    fn getattr<G: Giving>(&self, asked: &Asked, giving: G, operation: &GetAttr) -> Out
        ensures { IsOwed (owes self.now) (G.door giving) asked.now (Operation.GetAttr operation.now) result };

    fn setattr<G: Giving>(&self, asked: &Asked, giving: G, operation: &SetAttr) -> Out
        ensures { IsOwed (owes self.now) (G.door giving) asked.now (Operation.SetAttr operation.now) result };

    fn readlink<G: Giving>(&self, asked: &Asked, giving: G, operation: &ReadLink) -> Out
        ensures { IsOwed (owes self.now) (G.door giving) asked.now (Operation.ReadLink operation.now) result };

    fn symlink<G: Giving>(&self, asked: &Asked, giving: G, operation: &SymLink<'_>) -> Out
        ensures { IsOwed (owes self.now) (G.door giving) asked.now (Operation.SymLink operation.now) result };

    fn mknod<G: Giving>(&self, asked: &Asked, giving: G, operation: &MkNod<'_>) -> Out
        ensures { IsOwed (owes self.now) (G.door giving) asked.now (Operation.MkNod operation.now) result };

    fn mkdir<G: Giving>(&self, asked: &Asked, giving: G, operation: &MkDir<'_>) -> Out
        ensures { IsOwed (owes self.now) (G.door giving) asked.now (Operation.MkDir operation.now) result };

    fn unlink<G: Giving>(&self, asked: &Asked, giving: G, operation: &Unlink<'_>) -> Out
        ensures { IsOwed (owes self.now) (G.door giving) asked.now (Operation.Unlink operation.now) result };

    fn rmdir<G: Giving>(&self, asked: &Asked, giving: G, operation: &RmDir<'_>) -> Out
        ensures { IsOwed (owes self.now) (G.door giving) asked.now (Operation.RmDir operation.now) result };

    fn rename<G: Giving>(&self, asked: &Asked, giving: G, operation: &Rename<'_>) -> Out
        ensures { IsOwed (owes self.now) (G.door giving) asked.now (Operation.Rename operation.now) result };

    fn link<G: Giving>(&self, asked: &Asked, giving: G, operation: &Link<'_>) -> Out
        ensures { IsOwed (owes self.now) (G.door giving) asked.now (Operation.Link operation.now) result };

    fn open<G: Giving>(&self, asked: &Asked, giving: G, operation: &Open) -> Out
        ensures { IsOwed (owes self.now) (G.door giving) asked.now (Operation.Open operation.now) result };

    fn read<G: Giving>(&self, asked: &Asked, giving: G, operation: &Read) -> Out
        ensures { IsOwed (owes self.now) (G.door giving) asked.now (Operation.Read operation.now) result };

    fn write<G: Giving>(&self, asked: &Asked, giving: G, operation: &Write<'_>) -> Out
        ensures { IsOwed (owes self.now) (G.door giving) asked.now (Operation.Write operation.now) result };

    fn statfs<G: Giving>(&self, asked: &Asked, giving: G, operation: &StatFs) -> Out
        ensures { IsOwed (owes self.now) (G.door giving) asked.now (Operation.StatFs operation.now) result };

    fn release<G: Giving>(&self, asked: &Asked, giving: G, operation: &Release) -> Out
        ensures { IsOwed (owes self.now) (G.door giving) asked.now (Operation.Release operation.now) result };

    fn fsync<G: Giving>(&self, asked: &Asked, giving: G, operation: &FSync) -> Out
        ensures { IsOwed (owes self.now) (G.door giving) asked.now (Operation.FSync operation.now) result };

    fn setxattr<G: Giving>(&self, asked: &Asked, giving: G, operation: &SetXAttr<'_>) -> Out
        ensures { IsOwed (owes self.now) (G.door giving) asked.now (Operation.SetXAttr operation.now) result };

    fn getxattr<G: Giving>(&self, asked: &Asked, giving: G, operation: &GetXAttr<'_>) -> Out
        ensures { IsOwed (owes self.now) (G.door giving) asked.now (Operation.GetXAttr operation.now) result };

    fn listxattr<G: Giving>(&self, asked: &Asked, giving: G, operation: &ListXAttr) -> Out
        ensures { IsOwed (owes self.now) (G.door giving) asked.now (Operation.ListXAttr operation.now) result };

    fn removexattr<G: Giving>(&self, asked: &Asked, giving: G, operation: &RemoveXAttr<'_>) -> Out
        ensures { IsOwed (owes self.now) (G.door giving) asked.now (Operation.RemoveXAttr operation.now) result };

    fn flush<G: Giving>(&self, asked: &Asked, giving: G, operation: &Flush) -> Out
        ensures { IsOwed (owes self.now) (G.door giving) asked.now (Operation.Flush operation.now) result };

    fn opendir<G: Giving>(&self, asked: &Asked, giving: G, operation: &OpenDir) -> Out
        ensures { IsOwed (owes self.now) (G.door giving) asked.now (Operation.OpenDir operation.now) result };

    fn readdir<G: Giving>(&self, asked: &Asked, giving: G, operation: &ReadDir) -> Out
        ensures { IsOwed (owes self.now) (G.door giving) asked.now (Operation.ReadDir operation.now) result };

    fn releasedir<G: Giving>(&self, asked: &Asked, giving: G, operation: &ReleaseDir) -> Out
        ensures { IsOwed (owes self.now) (G.door giving) asked.now (Operation.ReleaseDir operation.now) result };

    fn fsyncdir<G: Giving>(&self, asked: &Asked, giving: G, operation: &FSyncDir) -> Out
        ensures { IsOwed (owes self.now) (G.door giving) asked.now (Operation.FSyncDir operation.now) result };

    fn getlk<G: Giving>(&self, asked: &Asked, giving: G, operation: &GetLk) -> Out
        ensures { IsOwed (owes self.now) (G.door giving) asked.now (Operation.GetLk operation.now) result };

    fn setlk<G: Giving>(&self, asked: &Asked, giving: G, operation: &SetLk) -> Out
        ensures { IsOwed (owes self.now) (G.door giving) asked.now (Operation.SetLk operation.now) result };

    fn access<G: Giving>(&self, asked: &Asked, giving: G, operation: &Access) -> Out
        ensures { IsOwed (owes self.now) (G.door giving) asked.now (Operation.Access operation.now) result };

    fn create<G: Giving>(&self, asked: &Asked, giving: G, operation: &Create<'_>) -> Out
        ensures { IsOwed (owes self.now) (G.door giving) asked.now (Operation.Create operation.now) result };

    fn interrupt<G: Giving>(&self, asked: &Asked, giving: G, operation: &Interrupt) -> Out
        ensures { IsOwed (owes self.now) (G.door giving) asked.now (Operation.Interrupt operation.now) result };

    fn bmap<G: Giving>(&self, asked: &Asked, giving: G, operation: &BMap) -> Out
        ensures { IsOwed (owes self.now) (G.door giving) asked.now (Operation.BMap operation.now) result };

    fn ioctl<G: Giving>(&self, asked: &Asked, giving: G, operation: &IoCtl<'_>) -> Out
        ensures { IsOwed (owes self.now) (G.door giving) asked.now (Operation.IoCtl operation.now) result };

    fn poll<G: Giving>(
        &self,
        asked: &Asked,
        giving: G,
        notifier: &mut Notifier,
        operation: &Poll,
    ) -> Out
        ensures owed { IsOwed (owes self.now) (G.door giving) asked.now (Operation.Poll operation.now) result }
        ensures line { notifier.new.line ≡ notifier.old.line };

    fn batch_forget<G: Giving>(&self, asked: &Asked, giving: G, operation: &BatchForget<'_>) -> Out
        ensures { IsOwed (owes self.now) (G.door giving) asked.now (Operation.BatchForget operation.now) result };

    fn fallocate<G: Giving>(&self, asked: &Asked, giving: G, operation: &FAllocate) -> Out
        ensures { IsOwed (owes self.now) (G.door giving) asked.now (Operation.FAllocate operation.now) result };

    fn readdirplus<G: Giving>(&self, asked: &Asked, giving: G, operation: &ReadDirPlus) -> Out
        ensures { IsOwed (owes self.now) (G.door giving) asked.now (Operation.ReadDirPlus operation.now) result };

    fn rename2<G: Giving>(&self, asked: &Asked, giving: G, operation: &Rename2<'_>) -> Out
        ensures { IsOwed (owes self.now) (G.door giving) asked.now (Operation.Rename2 operation.now) result };

    fn lseek<G: Giving>(&self, asked: &Asked, giving: G, operation: &Lseek) -> Out
        ensures { IsOwed (owes self.now) (G.door giving) asked.now (Operation.Lseek operation.now) result };

    fn copy_file_range<G: Giving>(&self, asked: &Asked, giving: G, operation: &CopyFileRange) -> Out
        ensures { IsOwed (owes self.now) (G.door giving) asked.now (Operation.CopyFileRange operation.now) result };

    /// An error that is fixed is owed its reply.
    ghost owes_fixed: { (handler : Self) (request : Request) (errno seq id : ℕ)
        → owes handler request (Fixed errno) seq id (Frame (reply id (Error errno))) };

    /// DESTROY is owed an empty reply.
    ghost owes_end: { (handler : Self) (request : Request) (seq id : ℕ)
        → owes handler request Ends seq id (Frame (reply id Empty)) };

    /// It is owed nothing else.
    ghost owes_end_alone: { (handler : Self) (request : Request) (seq id : ℕ) (out : Goes)
        → owes handler request Ends seq id out → out ≡ Frame (reply id Empty) };

    /// Where replies may come later, a call is owed one that does.
    ghost owes_later: { (handler : Self) (request : Request) (call : Call) (seq id : ℕ) → IsTrue DEFERS
        → owes handler request (Calls call) seq id (Deferred seq (record { 0 = id })) };
}
