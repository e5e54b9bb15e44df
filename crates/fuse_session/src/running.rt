// Sessions that were started.
ghost use Rattle.std.specs.Prelude.{◌≡◌, true, false, IfOk, MatchResult};
ghost use Rattle.fuse_session.specs.Started.{is_on_thread, started};
ghost use Rattle.fuse_notify.specs.Queueing.{fresh_door};
ghost use Rattle.fuse_session.specs.Ran.{Ran};

use crate::Ended;
use crate::runnable::Runnable;
use crate::starting::{Handed, start_thread};
use fuse_dispatch::Filesystem;
use fuse_notify::Notifier;
use fuse_wire::{NoMemory, Sink, Source};
use std::alloc::AllocGlobal;
use std::marker::Model;
use std::snapshot::Snapshot;
use std::sync::Wait;
use std::thread::Threads;

/// A session that a thread runs. A contract sees the session that was started.
pub struct OnThread<FS: Filesystem, S: Source, K: Sink> {
    pub(crate) handed: Handed<FS, S, K>,
    pub(crate) notifier: Notifier,
}

impl<FS: Filesystem, S: Source, K: Sink> Model for OnThread<FS, S, K> {
    ghost use Rattle.std.specs.Prelude.{◌≡◌};
    ghost use Rattle.fuse_notify.specs.Queueing.{fresh_door};
    ghost use Rattle.fuse_session.specs.Ran.{Opened};

    ghost Value = { Opened FS S K };

    ghost view = { λ t. t.handed };

    ghost invariant = { λ t. t.notifier ≡ fresh_door t.handed.line };
}

/// A session that ran. A contract sees the session that was started.
pub struct AtEnd<FS: Filesystem, S: Source, K: Sink> {
    pub(crate) session: Snapshot<Runnable<FS, S, K>>,
    pub(crate) ended: Ended<FS, S, K>,
    pub(crate) notifier: Notifier,
}

impl<FS: Filesystem, S: Source, K: Sink> Model for AtEnd<FS, S, K> {
    ghost use Rattle.std.specs.Prelude.{◌≡◌};
    ghost use Rattle.fuse_notify.specs.Queueing.{fresh_door};
    ghost use Rattle.fuse_session.specs.Ran.{Opened, Ran};

    ghost Value = { Opened FS S K };

    ghost view = { λ o. o.session.value };

    ghost invariant = { λ o. Ran FS.promise o.session.value o.ended.filesystem o.ended.outcome
        (S.told o.ended.source) (K.told o.ended.sink) o.ended.transcript
        × (o.notifier ≡ fresh_door o.session.value.line) };
}

/// A session that was started, with the notifier that it had to spare.
pub enum Running<FS: Filesystem, S: Source, K: Sink> {
    /// A thread runs it.
    OnThread(OnThread<FS, S, K>),
    /// It ran to its end already.
    AtEnd(AtEnd<FS, S, K>),
}

impl<
    FS: Filesystem + Drop + 'static,
    S: Source + Send + Drop + 'static,
    K: Sink + Send + Drop + 'static,
> Running<FS, S, K> {
    /// Starts a thread for the session. Where there is none, or no memory, it comes back as it was.
    pub(crate) fn on_thread<R: Threads + Wait + AllocGlobal + Send + Sync + Copy + 'static>(
        rt: &R,
        runnable: Runnable<FS, S, K>,
        notifier: Notifier,
    ) -> Result<Running<FS, S, K>, (Runnable<FS, S, K>, Notifier)>
        requires { notifier ≡ fresh_door runnable.line }
        ensures started { MatchResult result (λ running. started running ≡ runnable)
            (λ back. (back.0 ≡ runnable) × (back.1 ≡ notifier)) }
        ensures place { IfOk result (λ running. is_on_thread running ≡ true) }
    {
        match start_thread(rt, runnable) {
            Ok(handed) => Ok(Running::OnThread(OnThread { handed, notifier })),
            Err(runnable) => Err((runnable, notifier)),
        }
    }
}

impl<FS: Filesystem + Drop, S: Source + Drop, K: Sink + Send + Drop> Running<FS, S, K> {
    /// Runs the session to its end, on this thread.
    pub(crate) fn at_once<R: Threads + Wait + AllocGlobal + Sync>(
        rt: &R,
        runnable: Runnable<FS, S, K>,
        notifier: Notifier,
    ) -> Running<FS, S, K>
        requires { notifier ≡ fresh_door runnable.line }
        ensures started { started result ≡ runnable }
        ensures place { is_on_thread result ≡ false }
    {
        let session = Snapshot::of(&runnable);
        let ended = runnable.run(rt);
        Running::AtEnd(AtEnd {
            session,
            ended,
            notifier,
        })
    }

    /// Waits for the end of the session. It is an end that `Runnable::run` may come to.
    pub fn join<R: Threads + Wait>(self, rt: &R) -> Ended<FS, S, K>
        ensures { Ran FS.promise (started self) result.filesystem result.outcome
            (S.told result.source) (K.told result.sink) result.transcript }
    {
        match self {
            Running::OnThread(thread) => {
                let OnThread {
                    handed,
                    notifier: _,
                } = thread;
                handed.join(rt)
            }
            Running::AtEnd(end) => {
                let AtEnd {
                    session: _,
                    ended,
                    notifier: _,
                } = end;
                ended
            }
        }
    }

    /// What queues notices for the session. `NoMemory` only where the count of what shares the line is at its end.
    pub(crate) fn notifier(&mut self) -> Result<Notifier, NoMemory>
        ensures same { self.new ≡ self.old }
        ensures fresh { IfOk result (λ n. n ≡ fresh_door (started self.old).line) }
    {
        match self {
            Running::OnThread(thread) => thread.notifier.again(),
            Running::AtEnd(end) => end.notifier.again(),
        }
    }
}
