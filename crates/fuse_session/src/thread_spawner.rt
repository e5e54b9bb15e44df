// Sessions on threads of their own.
ghost use Rattle.std.specs.Prelude.{◌≡◌, [], true, false, IfOk, MatchResult};
ghost use Rattle.fuse_notify.specs.Queueing.{fresh_door};
ghost use Rattle.fuse_session.specs.Started.{is_on_thread, started};
ghost use Rattle.fuse_wire.specs.Faults.{Rose};
ghost use Rattle.fuse_session.specs.Starts.{CountsRefusal, StartsThread};

use crate::runnable::Runnable;
use crate::starts::Starts;
use crate::{Filesystem, Running, Session};
use fuse_notify::Notifier;
use fuse_wire::{Sink, Source};
use std::alloc::AllocGlobal;
use std::marker::Model;
use std::sync::Wait;
use std::thread::Threads;

/// Starts a thread for each session. It refuses the starts for which there is no thread, or no memory, and those that
/// tests list.
#[derive(Drop)]
pub struct ThreadSpawner {
    starts: Starts,
}

impl Model for ThreadSpawner {
    ghost use Rattle.fuse_session.specs.Starts.{StartsSeen};

    ghost Value = { StartsSeen };

    ghost view = { λ s. s.starts };
}

/// Starts a thread for the session, or refuses to where that is asked for.
fn start_unless<
    R: Threads + Wait + AllocGlobal + Send + Sync + Copy + 'static,
    FS: Filesystem + Drop + 'static,
    S: Source + Send + Drop + 'static,
    K: Sink + Send + Drop + 'static,
>(
    is_refused: bool,
    rt: &R,
    runnable: Runnable<FS, S, K>,
    notifier: Notifier,
) -> Result<Running<FS, S, K>, (Runnable<FS, S, K>, Notifier)>
    requires { notifier ≡ fresh_door runnable.line }
    ensures started { MatchResult result (λ running. started running ≡ runnable)
        (λ back. (back.0 ≡ runnable) × (back.1 ≡ notifier)) }
    ensures place { IfOk result (λ running. is_on_thread running ≡ true) }
    ensures refused { IfOk result (λ _. is_refused ≡ false) }
{
    if is_refused {
        return Err((runnable, notifier));
    }
    Running::on_thread(rt, runnable, notifier)
}

impl ThreadSpawner {
    /// It has refused none yet, and none is listed.
    pub fn new() -> ThreadSpawner
        ensures { result ≡ record { listed = []; starts = 0; refused = 0 } }
    {
        ThreadSpawner {
            starts: Starts::new(None),
        }
    }

    /// One for tests. It refuses the starts whose numbers are listed as if there were no thread for them. They are
    /// numbered as those of an `InlineSpawner`.
    pub fn refusing(refusals: Vec<u64>) -> ThreadSpawner
        ensures { result ≡ record { listed = refusals.items; starts = 0; refused = 0 } }
    {
        ThreadSpawner {
            starts: Starts::new(Some(refusals)),
        }
    }

    /// Starts a thread for the session. Where there is none, or no memory, it comes back as it was.
    pub fn start<
        R: Threads + Wait + AllocGlobal + Send + Sync + Copy + 'static,
        FS: Filesystem + Drop + 'static,
        S: Source + Send + Drop + 'static,
        K: Sink + Send + Drop + 'static,
    >(&mut self, rt: &R, session: Session<FS, S, K>) -> Result<Running<FS, S, K>, Session<FS, S, K>>
        ensures counted { CountsRefusal result self.old.refused self.new.refused }
        ensures started { MatchResult result (λ running. started running ≡ session)
            (λ back. (back ≡ session) × Rose self.old.refused self.new.refused) }
        ensures place { IfOk result (λ running. is_on_thread running ≡ true) }
        ensures unlisted { StartsThread result self.old self.new }
    {
        let Session { runnable, notifier } = session;
        let is_refused = self.starts.next_is_listed();
        match start_unless(is_refused, rt, runnable, notifier) {
            Ok(running) => Ok(running),
            Err((runnable, notifier)) => {
                self.starts.count_refusal();
                Err(Session { runnable, notifier })
            }
        }
    }
}
