// Sessions that run at once.
ghost use Rattle.std.specs.Prelude.{◌≡◌, false, IfOk, MatchResult};
ghost use Rattle.fuse_session.specs.Started.{is_on_thread, started};
ghost use Rattle.fuse_wire.specs.Faults.{Rose};
ghost use Rattle.fuse_session.specs.Starts.{CountsRefusal, StartsInline};

use crate::starts::Starts;
use crate::{Filesystem, Running, Session};
use fuse_wire::{Sink, Source};
use std::alloc::AllocGlobal;
use std::marker::Model;
use std::sync::Wait;
use std::thread::Threads;

/// Runs each session at once, on the thread that starts it, and refuses some starts. It is for tests.
#[derive(Drop)]
pub struct InlineSpawner {
    starts: Starts,
}

impl Model for InlineSpawner {
    ghost use Rattle.fuse_session.specs.Starts.{StartsSeen};

    ghost Value = { StartsSeen };

    ghost view = { λ s. s.starts };
}

impl InlineSpawner {
    /// The starts whose numbers are listed are refused. They are numbered from 1, those that are refused too, and each
    /// after the last number of a u64 has that one.
    pub fn new(refusals: Vec<u64>) -> InlineSpawner
        ensures { result ≡ record { listed = refusals.items; starts = 0; refused = 0 } }
    {
        InlineSpawner {
            starts: Starts::new(Some(refusals)),
        }
    }

    /// Runs the session, or refuses it where the start is listed.
    pub fn start<
        R: Threads + Wait + AllocGlobal + Send + Sync + Copy + 'static,
        FS: Filesystem + Drop + 'static,
        S: Source + Send + Drop + 'static,
        K: Sink + Send + Drop + 'static,
    >(&mut self, rt: &R, session: Session<FS, S, K>) -> Result<Running<FS, S, K>, Session<FS, S, K>>
        ensures counted { CountsRefusal result self.old.refused self.new.refused }
        ensures started { MatchResult result (λ running. started running ≡ session)
            (λ back. (back ≡ session) × Rose self.old.refused self.new.refused) }
        ensures place { IfOk result (λ running. is_on_thread running ≡ false) }
        ensures exactly { StartsInline result self.old self.new }
    {
        if self.starts.next_is_listed() {
            self.starts.count_refusal();
            return Err(session);
        }
        let Session { runnable, notifier } = session;
        Ok(Running::at_once(rt, runnable, notifier))
    }
}
