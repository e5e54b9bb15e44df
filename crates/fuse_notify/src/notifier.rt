// What queues notices.
ghost use Rattle.std.specs.Prelude.{◌≡◌, IfOk};
ghost use Rattle.std.specs.Arc.{arc_value};
ghost use Rattle.fuse_line.specs.declared.hand.Kind.TheVariants.{Door};
ghost use Rattle.fuse_reply.specs.Notice.Notice.{Poll, InvalInode, InvalEntry, Store, Delete};
ghost use Rattle.fuse_notify.specs.Queueing.{Pushes, Queues, QueuesMade, fresh_door};

use crate::{Notice, NoticeError, PollNotifier};
use fuse_line::{Line, LineFull, Pass};
use fuse_reply::Parcel;
use fuse_wire::{INodeNo, NoMemory, PollHandle};
use std::alloc::Global;
use std::marker::Model;
use std::sync::{Arc, Wait};

/// Why a notice is not queued. Nothing is, then.
#[derive(Debug, Drop, PartialEq, Eq)]
pub enum NotifyError {
    /// No frame can carry it: the name's or data's length, or the whole frame's, is above `u32::MAX`.
    TooBig,
    /// Its own push found the line full, as this tells. It can be tried again.
    Full(LineFull),
    /// There is no memory for it.
    Memory,
}

/// Tells the kernel what it has not asked for, as a filesystem does whose files change by other ways than its requests.
/// Each call queues one notice for whoever sends, and waits for nobody. The kernel may hold the write of a notice until
/// requests about the same file or directory are answered: see `Sink::send`. Contracts see its door to the line.
#[derive(Drop)]
pub struct Notifier {
    line: Arc<Line<Parcel>, Global>,
    pass: Pass<Parcel>,
}

impl Model for Notifier {
    ghost use Rattle.std.specs.Prelude.{◌≡◌};
    ghost use Rattle.std.specs.Arc.{arc_value};
    ghost use Rattle.fuse_line.specs.Seen.{Seen};
    ghost use Rattle.fuse_line.specs.declared.hand.Kind.TheVariants.{Door};
    ghost use Rattle.fuse_reply.specs.declared.parcel.Parcel.{Parcel};

    ghost Value = { Seen Parcel };

    ghost view = { λ n. n.pass };

    ghost invariant = { λ n. (n.pass.line ≡ arc_value n.line) × (n.pass.hand.kind ≡ Door) };
}

impl Notifier {
    /// A notifier with this door to the line.
    pub fn new(line: Arc<Line<Parcel>, Global>, pass: Pass<Parcel>) -> Notifier
        requires line { pass.line ≡ arc_value line }
        requires door { pass.hand.kind ≡ Door }
        ensures { result ≡ pass }
    {
        Notifier { line, pass }
    }

    /// Another notifier to the same line, for another thread or another part of a filesystem. It takes no memory:
    /// `NoMemory` comes only where the count of what shares the line is at its end.
    pub fn again(&mut self) -> Result<Notifier, NoMemory>
        ensures same { self.new ≡ self.old }
        ensures fresh { IfOk result (λ n. n ≡ fresh_door self.old.line) }
    {
        let line = Arc::try_clone(&self.line)?;
        let pass = self.line.split(&mut self.pass, true);
        Ok(Notifier { line, pass })
    }

    /// What a poll with this handle is told through when the file has news. `NoMemory` comes as from `again`.
    pub fn poll_notifier(&mut self, handle: PollHandle) -> Result<PollNotifier, NoMemory>
        ensures same { self.new ≡ self.old }
        ensures fresh { IfOk result (λ p. p ≡ record { handle = handle.0; door = fresh_door self.old.line }) }
    {
        let notifier = self.again()?;
        Ok(PollNotifier::new(handle, notifier))
    }

    /// A file that is polled has news: who waits for it polls again. The handle is the one that the poll came with.
    /// `Full` where its push found the line full; no other error comes.
    pub fn poll<R: Wait + AllocGlobal>(
        &mut self,
        rt: &R,
        handle: PollHandle,
    ) -> Result<(), NotifyError>
        ensures { Queues result (Poll handle.0) self.old self.new }
    {
        let notice = Notice::poll(rt.alloc(), handle);
        self.queue(rt, Ok(notice))
    }

    /// The kernel is to drop what it keeps of an inode: its attributes and, from an offset on, so many bytes. A length
    /// that is not positive means all bytes from the offset on, and an offset below 0 no bytes. `Full` where its push
    /// found the line full; no other error comes.
    pub fn inval_inode<R: Wait + AllocGlobal>(
        &mut self,
        rt: &R,
        ino: INodeNo,
        offset: i64,
        len: i64,
    ) -> Result<(), NotifyError>
        ensures { Queues result (InvalInode ino.0 offset len) self.old self.new }
    {
        let notice = Notice::inval_inode(rt.alloc(), ino, offset, len);
        self.queue(rt, Ok(notice))
    }

    /// The kernel is to drop a name in a directory. `TooBig` where no frame can carry the name, `Memory` where the
    /// payload is longer than 144 bytes and there is no memory for it, `Full` where its push found the line full.
    pub fn inval_entry<R: Wait + AllocGlobal>(
        &mut self,
        rt: &R,
        parent: INodeNo,
        name: &[u8],
    ) -> Result<(), NotifyError>
        ensures { Queues result (InvalEntry parent.0 name.now) self.old self.new }
    {
        let made = Notice::inval_entry(rt.alloc(), parent, name);
        self.queue(rt, made)
    }

    /// The kernel is to keep these bytes of an inode, from an offset on, which is in bytes. Where they end behind the
    /// file's end, the kernel takes the file to be that long. `TooBig` where no frame can carry the bytes, `Memory`
    /// where the payload is longer than 144 bytes and there is no memory for it, `Full` where its push found the line
    /// full.
    pub fn store<R: Wait + AllocGlobal>(
        &mut self,
        rt: &R,
        ino: INodeNo,
        offset: u64,
        bytes: &[u8],
    ) -> Result<(), NotifyError>
        ensures { Queues result (Store ino.0 offset bytes.now) self.old self.new }
    {
        let made = Notice::store(rt.alloc(), ino, offset, bytes);
        self.queue(rt, made)
    }

    /// A name in a directory is gone, and led to the inode `child`. The kernel drops the name, as by `inval_entry`,
    /// and tells those who watch the inode. `TooBig` where no frame can carry the name, `Memory` where the payload is
    /// longer than 144 bytes and there is no memory for it, `Full` where its push found the line full.
    pub fn delete<R: Wait + AllocGlobal>(
        &mut self,
        rt: &R,
        parent: INodeNo,
        child: INodeNo,
        name: &[u8],
    ) -> Result<(), NotifyError>
        ensures { Queues result (Delete parent.0 child.0 name.now) self.old self.new }
    {
        let made = Notice::delete(rt.alloc(), parent, child, name);
        self.queue(rt, made)
    }

    /// Queues a notice that was made.
    fn queue<R: Wait>(
        &mut self,
        rt: &R,
        made: Result<Notice, NoticeError>,
    ) -> Result<(), NotifyError>
        ensures { QueuesMade made result self.old self.new }
    {
        match made {
            Ok(notice) => match self.push(rt, notice) {
                Ok(()) => Ok(()),
                Err(full) => Err(NotifyError::Full(full)),
            },
            Err(NoticeError::TooBig) => Err(NotifyError::TooBig),
            Err(NoticeError::Memory) => Err(NotifyError::Memory),
        }
    }

    /// Queues this notice, unless the line is full.
    pub(crate) fn push<R: Wait>(&mut self, rt: &R, notice: Notice) -> Result<(), LineFull>
        ensures { Pushes result notice self.old self.new }
    {
        let parcel = Parcel::Notice(notice.into_frame());
        match self.line.push(rt, &mut self.pass, parcel) {
            Ok(()) => Ok(()),
            Err(full) => Err(full.line),
        }
    }
}
