// What runs sessions in the background.
ghost use Rattle.std.specs.Prelude.{◌≡◌, IfOk, MatchResult};
ghost use Rattle.fuse_session.specs.Started.{is_on_thread, started};
ghost use Rattle.fuse_session.specs.Spawning.{StartsOne, refused_by, starts_threads};
ghost use Rattle.fuse_wire.specs.Faults.{Rose};

use crate::{Filesystem, InlineSpawner, Running, Session, ThreadSpawner};
use fuse_wire::{Sink, Source};
use std::alloc::AllocGlobal;
use std::sync::Wait;
use std::thread::Threads;

/// What runs a session while its caller goes on.
#[derive(Drop)]
pub enum Spawner {
    /// A thread of its own runs each session.
    Thread(ThreadSpawner),
    /// Each session runs at once, for tests.
    Inline(InlineSpawner),
}

impl Spawner {
    /// Starts a session. Where it can't be started, it comes back as it was.
    pub fn start<
        R: Threads + Wait + AllocGlobal + Send + Sync + Copy + 'static,
        FS: Filesystem + Drop + 'static,
        S: Source + Send + Drop + 'static,
        K: Sink + Send + Drop + 'static,
    >(&mut self, rt: &R, session: Session<FS, S, K>) -> Result<Running<FS, S, K>, Session<FS, S, K>>
        ensures counted { StartsOne result self.old self.new }
        ensures started { MatchResult result (λ running. started running ≡ session)
            (λ back. (back ≡ session) × Rose (refused_by self.old) (refused_by self.new)) }
        ensures place { IfOk result (λ running. is_on_thread running ≡ starts_threads self.old) }
    {
        match self {
            Spawner::Thread(threads) => threads.start(rt, session),
            Spawner::Inline(inline) => inline.start(rt, session),
        }
    }
}
