// Sessions in the background.
ghost use Rattle.std.specs.Prelude.{◌≡◌, ◌≢◌, ◌<◌, ◌⊎◌, ◌↔◌, ℕ, Ok, Err, Some, IfErr, IfOk, MatchResult};
ghost use Rattle.fuse_notify.specs.Queueing.{fresh_door};
ghost use Rattle.fuse_session.specs.Complete.{AcceptsAll, HandshakeWell, RunWell};
ghost use Rattle.fuse_session.specs.Accounted.{ManyThreads, NeverLater};
ghost use Rattle.fuse_session.specs.Exchange.{Closed, Mounted, setup};
ghost use Rattle.fuse_session.specs.Headline.{Headline, LaterHeadline, Lossless, OrderedHeadline};
ghost use Rattle.fuse_session.specs.Refused.{IsUntouched, OfOptions, OptionsWell, RefusedAs, Untouched};
ghost use Rattle.fuse_session.specs.Session.{EndsRun, IsOpened, OpensNone, Serves, setup_for};
ghost use Rattle.fuse_session.specs.Ran.{Ran};
ghost use Rattle.fuse_session.specs.Spawning.{HasEnded, IfEnded, IfRefused, StartsOpened, refused_by, starts_threads};
ghost use Rattle.fuse_wire.specs.Faults.{Rose};
ghost use Rattle.fuse_wire.specs.Sink.{SinkState};
ghost use Rattle.fuse_wire.specs.Source.{SourceState};

use crate::{Ended, Filesystem, Running, Session, SessionError, Spawner};
use fuse_config::Config;
use fuse_notify::Notifier;
use fuse_wire::{NoMemory, Sink, Source};
use std::alloc::AllocGlobal;
use std::marker::Model;
use std::sync::Wait;
use std::thread::Threads;

/// A session that runs in the background. It must be spent: `join` waits for its end. A contract sees the session that was
/// started, and whether a thread runs it.
pub struct BackgroundSession<FS: Filesystem, S: Source, K: Sink> {
    pub(crate) running: Running<FS, S, K>,
}

impl<FS: Filesystem, S: Source, K: Sink> Model for BackgroundSession<FS, S, K> {
    ghost use Rattle.fuse_session.specs.Started.{Background, is_on_thread, started};

    ghost Value = { Background FS S K };

    ghost view = { λ b. record { session = started b.running; on_thread = is_on_thread b.running } };
}

impl<FS: Filesystem + Drop, S: Source + Drop, K: Sink + Send + Drop> BackgroundSession<FS, S, K> {
    /// Waits for the end of the session.
    pub fn join<R: Threads + Wait + AllocGlobal + Sync>(self, rt: &R) -> Ended<FS, S, K>
        // What was taken, sent, lost and counted after the handshake, why it ended so, and that `destroy` was called once.
        ensures ran { Ran FS.promise self.session result.filesystem result.outcome
            (S.told result.source) (K.told result.sink) result.transcript }

        // With the handshake that opened it, it is a whole session.
        ensures session { (page : ℕ) (fs : _) (source : SourceState) (sink : SinkState) →
            IsOpened FS.promise page fs source sink self.session →
            Mounted (setup_for FS.promise page self.session) fs result.filesystem result.outcome
            source (S.told result.source) sink (K.told result.sink) result.transcript }

        // One reply for each message, where none comes later: see `Headline`.
        ensures headline { NeverLater self.session.threads FS.promise.defers →
            (page : ℕ) (fs : _) (source : SourceState) (sink : SinkState) →
            IsOpened FS.promise page fs source sink self.session →
            result.outcome ≡ Ok tt → Lossless sink (K.told result.sink) result.transcript →
            Headline FS.promise page self.session.terms.rule.acl self.session.terms.rule.owner fs source (S.told result.source) sink (K.told result.sink) }

        // These are in the order of the messages, where no more than one thread serves: see `OrderedHeadline`.
        ensures in_order { ¬ (ManyThreads self.session.threads) →
            (page : ℕ) (fs : _) (source : SourceState) (sink : SinkState) →
            IsOpened FS.promise page fs source sink self.session →
            result.outcome ≡ Ok tt → Lossless sink (K.told result.sink) result.transcript →
            OrderedHeadline FS.promise page self.session.terms.rule.acl self.session.terms.rule.owner fs source (S.told result.source) sink
            (K.told result.sink) }

        // One reply for each message, at once or later: see `LaterHeadline`.
        ensures later { (page : ℕ) (fs : _) (source : SourceState) (sink : SinkState) →
            IsOpened FS.promise page fs source sink self.session →
            result.outcome ≡ Ok tt → Lossless sink (K.told result.sink) result.transcript →
            LaterHeadline FS.promise page self.session.terms.rule.acl self.session.terms.rule.owner fs source (S.told result.source) sink
            (K.told result.sink) }

        // Where no reply comes later, all could be recorded.
        ensures recorded { NeverLater self.session.threads FS.promise.defers → result.transcript.unrecorded ≡ 0 }

        // It ends well where nothing is amiss.
        ensures complete { RunWell self.session (S.told result.source) → result.outcome ≡ Ok tt }

        // No thread served exactly where their number was 0.
        ensures threads { (result.outcome ≡ Err SessionError.Threads) ↔ (self.session.threads ≡ Some 0) }

        // It has no other outcome but Ok, a header that is not good, and a fault of the source.
        ensures causes { EndsRun result.outcome }
    {
        let BackgroundSession { running } = self;
        running.join(rt)
    }

    /// What queues notices, as `Session::notifier` does. One that is queued after the session's end is not sent.
    /// `NoMemory` comes as there.
    pub fn notifier(&mut self) -> Result<Notifier, NoMemory>
        ensures same { self.new ≡ self.old }
        ensures fresh { IfOk result (λ n. n ≡ fresh_door self.old.session.line) }
    {
        self.running.notifier()
    }
}

/// Why no session runs in the background.
pub enum SpawnError<FS, S: Source, K: Sink> {
    /// None was opened: as from `Session::new`.
    Ended(Ended<FS, S, K>),
    /// It was opened, but the spawner refused to start it. It can still be run.
    Refused(Session<FS, S, K>),
}

/// Opens a session as `Session::new` does, and starts it in the background.
pub fn spawn_mount<
    R: Threads + Wait + AllocGlobal + Send + Sync + Copy + 'static,
    FS: Filesystem + Drop + 'static,
    S: Source + Send + Drop + 'static,
    K: Sink + Send + Drop + 'static,
>(
    rt: &R,
    spawner: &mut Spawner,
    filesystem: FS,
    source: S,
    sink: K,
    owner: u32,
    page_size: u32,
    config: &Config,
) -> Result<BackgroundSession<FS, S, K>, SpawnError<FS, S, K>>
    requires page { 0 < page_size }

    // A handshake that was accepted opened it.
    ensures opened { IfOk result (λ b. IsOpened FS.promise page_size filesystem (S.told source) (K.told sink) b.session
        × Serves config.now.acl owner config.now.n_threads b.session) }

    // A thread runs it where the spawner starts threads, and else it is at its end.
    ensures place { IfOk result (λ b. b.on_thread ≡ starts_threads spawner.old) }

    // So it did where it was refused, and then the spawner's count rose.
    ensures refused { IfErr result (IfRefused (λ s.
        IsOpened FS.promise page_size filesystem (S.told source) (K.told sink) s
        × Serves config.now.acl owner config.now.n_threads s
        × Rose (refused_by spawner.old) (refused_by spawner.new))) }

    // The spawner is as it was where none was opened, and else it counted that it refused to start one, or that it did not.
    ensures counted { StartsOpened result spawner.old spawner.new }

    // What was taken, sent, lost and counted where it was not opened, why it ended so, and that `destroy` was called once.
    ensures ended { IfErr result (IfEnded (λ e. ¬ (Untouched e.outcome) →
        Closed (setup FS.promise page_size config.now owner) filesystem e.filesystem e.outcome
        (S.told source) (S.told e.source) (K.told sink) (K.told e.sink) e.transcript)) }

    // All could be recorded where it was not opened.
    ensures recorded { IfErr result (IfEnded (λ e. e.transcript.unrecorded ≡ 0)) }

    // Its error is never Ok, and never that no thread is to serve.
    ensures causes { IfErr result (IfEnded (λ e. OpensNone e.outcome ⊎ Untouched e.outcome)) }

    // It is opened where nothing is amiss, but for want of memory.
    ensures complete { IfErr result (IfEnded (λ e. OptionsWell config.now →
        HandshakeWell FS.promise.may_init filesystem (S.told source) (S.told e.source) →
        e.outcome ≡ Err SessionError.Memory)) }

    // Where `init` refuses nothing, its error is not the outcome.
    ensures accepted { IfErr result (IfEnded (λ e. AcceptsAll FS.promise.may_init filesystem →
        (n : ℕ) → e.outcome ≢ Err (SessionError.Init n))) }

    // Options are refused exactly where a cause holds, and none that is looked at before it.
    ensures options { (error : SessionError) → OfOptions error →
        MatchResult result (λ _. ⊥) (HasEnded (λ e. e.outcome ≡ Err error)) ↔ RefusedAs config.now error }

    // Refused options, and want of memory, leave all as it was.
    ensures untouched { IfErr result (IfEnded (λ e. Untouched e.outcome → IsUntouched filesystem source sink e)) }
{
    match Session::new(rt, filesystem, source, sink, owner, page_size, config) {
        Ok(session) => match session.spawn(rt, spawner) {
            Ok(background) => Ok(background),
            Err(session) => Err(SpawnError::Refused(session)),
        },
        Err(ended) => Err(SpawnError::Ended(ended)),
    }
}
