// Sessions: opened by the handshake, and then run.
ghost use Rattle.std.specs.Prelude.{◌≡◌, ◌≢◌, ◌<◌, ◌⊎◌, ◌↔◌, ℕ, Ok, Err, Some, IfErr, IfOk, MatchResult};
ghost use Rattle.fuse_config.specs.declared.session_acl.SessionACL.{SessionACL as ACL};
ghost use Rattle.fuse_notify.specs.Queueing.{fresh_door};
ghost use Rattle.fuse_session.specs.Accounted.{ManyThreads, NeverLater};
ghost use Rattle.fuse_session.specs.Complete.{AcceptsAll, HandshakeWell, RunWell, SessionWell};
ghost use Rattle.fuse_session.specs.Exchange.{Closed, Mounted, Unopened, setup, setup_of};
ghost use Rattle.fuse_session.specs.Headline.{Headline, LaterHeadline, Lossless, OrderedHeadline};
ghost use Rattle.fuse_session.specs.HandshakeStep.{HandshakeRun};
ghost use Rattle.fuse_session.specs.Refused.{ClonesDevice, IsTaken, IsUntouched, OfOptions, OptionsWell};
ghost use Rattle.fuse_session.specs.Refused.{RefusedAs, Untouched};
ghost use Rattle.fuse_session.specs.Spawning.{StartsOne, refused_by, starts_threads};
ghost use Rattle.fuse_session.specs.Session.{EndsRun, IsOpened, OpensNone, Serves, setup_for};
ghost use Rattle.fuse_session.specs.Ran.{Ran};
ghost use Rattle.fuse_session.specs.declared.steps.HandshakeOutcome.TheVariants.{Accepted};
ghost use Rattle.fuse_wire.specs.Faults.{Rose};
ghost use Rattle.fuse_wire.specs.Source.{SourceState};
ghost use Rattle.fuse_wire.specs.Sink.{SinkState};

use crate::ended::{unopened, untouched};
use crate::options::{SessionMemory, prepare, prepare_device};
use crate::runnable::Runnable;
use crate::steps::{HandshakeOutcome, handshake};
use crate::{BackgroundSession, Ended, Filesystem, SessionError, Spawner};
use fuse_config::{Config, SessionACL};
use fuse_dispatch::{AccessRule, Asking, Service, Shared, Terms};
use fuse_loop::Channel;
use fuse_notify::Notifier;
use fuse_wire::{InitFlags, NoMemory, Sink, Source};
use std::marker::Model;
use std::sync::Wait;
use std::thread::Threads;

/// A session whose handshake was accepted. It must be spent: `run` serves it to its end. A contract sees what it was
/// opened with, and how far it is.
pub struct Session<FS, S: Source, K: Sink> {
    pub(crate) runnable: Runnable<FS, S, K>,
    /// What makes the notifiers of a session in the background, taken before.
    pub(crate) notifier: Notifier,
}

impl<FS, S: Source, K: Sink> Model for Session<FS, S, K> {
    ghost use Rattle.std.specs.Prelude.{◌≡◌};
    ghost use Rattle.fuse_notify.specs.Queueing.{fresh_door};
    ghost use Rattle.fuse_session.specs.Ran.{Opened};

    ghost Value = { Opened FS S K };

    ghost view = { λ s. s.runnable };

    ghost invariant = { λ s. s.notifier ≡ fresh_door s.runnable.line };
}

/// The handshake, whose refusal is the outcome of a session. Ok is what was granted.
fn shake<R: Wait + AllocGlobal, FS: Filesystem, S: Source, K: Sink>(
    rt: &R,
    filesystem: &mut FS,
    page_size: u32,
    channel: &mut Channel<S, K>,
) -> Result<InitFlags, SessionError>
    requires { 0 < page_size }
    ensures { MatchResult result
        (λ granted. HandshakeRun FS.promise.may_init page_size (Accepted granted) filesystem.old filesystem.new
        channel.old.progress channel.new.progress)
        (λ e. OpensNone (Err e) × ((threads : _) (acl : ACL) (owner : ℕ) →
        Unopened (setup_of FS.promise page_size threads acl owner) filesystem.old filesystem.new (Err e)
        channel.old.progress channel.new.progress)) }
{
    match handshake(rt, filesystem, page_size, channel) {
        HandshakeOutcome::Accepted(granted) => Ok(granted),
        HandshakeOutcome::Gone => Err(SessionError::NotConnected),
        HandshakeOutcome::Refused(error) => Err(SessionError::of_handshake(error)),
        HandshakeOutcome::Failed => Err(SessionError::Receive),
    }
}

/// Opens a session over memory that was taken before.
fn open<R: Wait + AllocGlobal, FS: Filesystem, S: Source, K: Sink>(
    rt: &R,
    mut filesystem: FS,
    source: S,
    sink: K,
    memory: SessionMemory,
    page_size: u32,
    rule: AccessRule,
    n_threads: Option<usize>,
) -> Result<Session<FS, S, K>, Ended<FS, S, K>>
    requires page { 0 < page_size }
    requires memory { IsTaken memory }
    ensures opened { IfOk result (λ s. IsOpened FS.promise page_size filesystem (S.told source) (K.told sink) s
        × Serves rule.acl rule.owner n_threads s) }
    ensures closed { IfErr result (λ e. OpensNone e.outcome
        × Closed (setup_of FS.promise page_size n_threads rule.acl rule.owner) filesystem e.filesystem e.outcome
        (S.told source) (S.told e.source) (K.told sink) (K.told e.sink) e.transcript) }
    ensures recorded { IfErr result (λ e. e.transcript.unrecorded ≡ 0) }
{
    let SessionMemory { buffers, notifier } = memory;
    let (mut channel, lines) = Channel::open(source, sink, buffers);
    match shake(rt, &mut filesystem, page_size, &mut channel) {
        Ok(granted) => {
            let handler = Asking { filesystem };
            let terms = Terms { rule, granted };
            let service = Service { handler, terms };
            let (source, sink, buffers, shaken) = channel.close(lines);
            let runnable = Runnable {
                shared: Shared { service },
                n_threads,
                source,
                sink,
                shaken,
                buffers,
            };
            Ok(Session { runnable, notifier })
        }
        Err(error) => Err(unopened(filesystem, channel, lines, error)),
    }
}

impl<FS: Filesystem, S: Source, K: Sink + Send> Session<FS, S, K> {
    /// Opens a session: first the options of `config` are looked at, then the memory is taken that a session can't do
    /// without (where messages are received, the lines of its run, and the mark of its end), and then the kernel is
    /// greeted. A run on several threads takes more, and goes on where there is none. `owner` is the user whose session
    /// it is, and `config` says whose requests are served. `page_size` is in bytes, and not 0: the kernel is told how
    /// many pages a request may span.
    ///
    /// An error hands all back. Where the options are refused, or there is no memory, nothing else was done; otherwise
    /// `destroy` was called once. It is never `SessionError::Threads`.
    pub fn new<R: Wait + AllocGlobal>(
        rt: &R,
        filesystem: FS,
        source: S,
        sink: K,
        owner: u32,
        page_size: u32,
        config: &Config,
    ) -> Result<Session<FS, S, K>, Ended<FS, S, K>>
        requires page { 0 < page_size }

        // A handshake that was accepted opened it.
        ensures opened { IfOk result (λ s. IsOpened FS.promise page_size filesystem (S.told source) (K.told sink) s
            × Serves config.now.acl owner config.now.n_threads s) }

        // What was taken, sent, lost and counted where it was not, why it ended so, and that `destroy` was called once.
        ensures ended { IfErr result (λ e. ¬ (Untouched e.outcome) →
            Closed (setup FS.promise page_size config.now owner) filesystem e.filesystem e.outcome
            (S.told source) (S.told e.source) (K.told sink) (K.told e.sink) e.transcript) }

        // All could be recorded where it was not opened.
        ensures recorded { IfErr result (λ e. e.transcript.unrecorded ≡ 0) }

        // Its error is never Ok, and never that no thread is to serve.
        ensures causes { IfErr result (λ e. OpensNone e.outcome ⊎ Untouched e.outcome) }

        // It is opened where nothing is amiss, but for want of memory.
        ensures complete { IfErr result (λ e. OptionsWell config.now →
            HandshakeWell FS.promise.may_init filesystem (S.told source) (S.told e.source) →
            e.outcome ≡ Err SessionError.Memory) }

        // Where `init` refuses nothing, its error is not the outcome.
        ensures accepted { IfErr result (λ e. AcceptsAll FS.promise.may_init filesystem →
            (n : ℕ) → e.outcome ≢ Err (SessionError.Init n)) }

        // Options are refused exactly where a cause holds, and none that is looked at before it.
        ensures options { (error : SessionError) → OfOptions error →
            MatchResult result (λ _. ⊥) (λ e. e.outcome ≡ Err error) ↔ RefusedAs config.now error }

        // Refused options, and want of memory, leave all as it was.
        ensures untouched { IfErr result (λ e. Untouched e.outcome → IsUntouched filesystem source sink e) }
    {
        let rule = AccessRule {
            acl: config.acl,
            owner,
        };
        match prepare(rt.alloc(), config) {
            Ok(memory) => open(
                rt,
                filesystem,
                source,
                sink,
                memory,
                page_size,
                rule,
                config.n_threads,
            ),
            Err(error) => Err(untouched(filesystem, source, sink, error)),
        }
    }

    /// Opens a session over a device that is mounted already: as `new`, but `acl` says whose requests are served, not
    /// `config`, and of the options `CloneFd` alone is looked at.
    pub fn from_device<R: Wait + AllocGlobal>(
        rt: &R,
        filesystem: FS,
        source: S,
        sink: K,
        acl: SessionACL,
        owner: u32,
        page_size: u32,
        config: Config,
    ) -> Result<Session<FS, S, K>, Ended<FS, S, K>>
        requires page { 0 < page_size }

        // A handshake that was accepted opened it.
        ensures opened { IfOk result (λ s. IsOpened FS.promise page_size filesystem (S.told source) (K.told sink) s
            × Serves acl owner config.n_threads s) }

        // What was taken, sent, lost and counted where it was not, why it ended so, and that `destroy` was called once.
        ensures ended { IfErr result (λ e. ¬ (Untouched e.outcome) →
            Closed (setup_of FS.promise page_size config.n_threads acl owner) filesystem e.filesystem e.outcome
            (S.told source) (S.told e.source) (K.told sink) (K.told e.sink) e.transcript) }

        // All could be recorded where it was not opened.
        ensures recorded { IfErr result (λ e. e.transcript.unrecorded ≡ 0) }

        // Its error is never Ok, and never that no thread is to serve.
        ensures causes { IfErr result (λ e. OpensNone e.outcome ⊎ Untouched e.outcome) }

        // It is opened where nothing is amiss, but for want of memory.
        ensures complete { IfErr result (λ e. ¬ (ClonesDevice config) →
            HandshakeWell FS.promise.may_init filesystem (S.told source) (S.told e.source) →
            e.outcome ≡ Err SessionError.Memory) }

        // Where `init` refuses nothing, its error is not the outcome.
        ensures accepted { IfErr result (λ e. AcceptsAll FS.promise.may_init filesystem →
            (n : ℕ) → e.outcome ≢ Err (SessionError.Init n)) }

        // The device is refused exactly where each of several threads was to have its own, and no other option is.
        ensures options { (error : SessionError) → OfOptions error →
            MatchResult result (λ _. ⊥) (λ e. e.outcome ≡ Err error)
            ↔ ((error ≡ SessionError.CloneFd) × ClonesDevice config) }

        // A refused device, and want of memory, leave all as it was.
        ensures untouched { IfErr result (λ e. Untouched e.outcome → IsUntouched filesystem source sink e) }
    {
        let rule = AccessRule { acl, owner };
        match prepare_device(rt.alloc(), &config) {
            Ok(memory) => open(
                rt,
                filesystem,
                source,
                sink,
                memory,
                page_size,
                rule,
                config.n_threads,
            ),
            Err(error) => Err(untouched(filesystem, source, sink, error)),
        }
    }

    /// Serves the session until the source ends or the kernel sends DESTROY, whose outcome is Ok. Else the outcome is
    /// `InvalidData`, of a header that is not good, `Receive`, where the source failed, or `Threads`, where no thread
    /// was to serve. On one thread each message is answered before the next is taken. On more of them this one
    /// receives, as many workers answer as were asked for, but at most 64 and no more than can be started, and one more
    /// sends; replies go out in any order. This thread answers too what it can't hand on to a worker, and sends where
    /// no sender could be started. A reply or a note that the sink refuses is counted as lost, and a notice nowhere;
    /// neither is sent again. `destroy` is called once.
    pub fn run<R: Threads + Wait + AllocGlobal + Sync>(self, rt: &R) -> Ended<FS, S, K>

        // What was taken, sent, lost and counted after the handshake, why it ended so, and that `destroy` was called once.
        ensures ran { Ran FS.promise self result.filesystem result.outcome
            (S.told result.source) (K.told result.sink) result.transcript }

        // With the handshake that opened it, it is a whole session.
        ensures session { (page : ℕ) (fs : _) (source : SourceState) (sink : SinkState) →
            IsOpened FS.promise page fs source sink self →
            Mounted (setup_for FS.promise page self) fs result.filesystem result.outcome
            source (S.told result.source) sink (K.told result.sink) result.transcript }

        // One reply for each message, where none comes later: see `Headline`.
        ensures headline { NeverLater self.threads FS.promise.defers →
            (page : ℕ) (fs : _) (source : SourceState) (sink : SinkState) →
            IsOpened FS.promise page fs source sink self →
            result.outcome ≡ Ok tt → Lossless sink (K.told result.sink) result.transcript →
            Headline FS.promise page self.terms.rule.acl self.terms.rule.owner fs source (S.told result.source) sink (K.told result.sink) }

        // These are in the order of the messages, where no more than one thread serves: see `OrderedHeadline`.
        ensures in_order { ¬ (ManyThreads self.threads) →
            (page : ℕ) (fs : _) (source : SourceState) (sink : SinkState) →
            IsOpened FS.promise page fs source sink self →
            result.outcome ≡ Ok tt → Lossless sink (K.told result.sink) result.transcript →
            OrderedHeadline FS.promise page self.terms.rule.acl self.terms.rule.owner fs source (S.told result.source) sink
            (K.told result.sink) }

        // One reply for each message, at once or later: see `LaterHeadline`.
        ensures later { (page : ℕ) (fs : _) (source : SourceState) (sink : SinkState) →
            IsOpened FS.promise page fs source sink self →
            result.outcome ≡ Ok tt → Lossless sink (K.told result.sink) result.transcript →
            LaterHeadline FS.promise page self.terms.rule.acl self.terms.rule.owner fs source (S.told result.source) sink
            (K.told result.sink) }

        // Where no reply comes later, all could be recorded.
        ensures recorded { NeverLater self.threads FS.promise.defers → result.transcript.unrecorded ≡ 0 }

        // It ends well where nothing is amiss.
        ensures complete { RunWell self (S.told result.source) → result.outcome ≡ Ok tt }

        // No thread serves exactly where their number is 0.
        ensures threads { (result.outcome ≡ Err SessionError.Threads) ↔ (self.threads ≡ Some 0) }

        // A run has no other outcome but Ok, a header that is not good, and a fault of the source.
        ensures causes { EndsRun result.outcome }
    {
        let Session {
            runnable,
            notifier: _,
        } = self;
        runnable.run(rt)
    }

    /// What queues notices. On one thread they are sent after the next message is answered, on several as soon as the
    /// sender comes to them. One that is queued after the session's end is not sent. It takes no memory: `NoMemory`
    /// comes only where the count of what shares the line is at its end.
    pub fn notifier(&mut self) -> Result<Notifier, NoMemory>
        ensures same { self.new ≡ self.old }
        ensures fresh { IfOk result (λ n. n ≡ fresh_door self.old.line) }
    {
        self.runnable.buffers.notifier()
    }
}

impl<
    FS: Filesystem + Drop + 'static,
    S: Source + Send + Drop + 'static,
    K: Sink + Send + Drop + 'static,
> Session<FS, S, K> {
    /// Starts the session in the background. Where the spawner refuses, it comes back as it was, and can still be run.
    pub fn spawn<R: Threads + Wait + AllocGlobal + Send + Sync + Copy + 'static>(
        self,
        rt: &R,
        spawner: &mut Spawner,
    ) -> Result<BackgroundSession<FS, S, K>, Session<FS, S, K>>
        ensures started { MatchResult result (λ background. background.session ≡ self)
            (λ back. (back ≡ self) × Rose (refused_by spawner.old) (refused_by spawner.new)) }
        ensures place { IfOk result (λ background. background.on_thread ≡ starts_threads spawner.old) }
        ensures counted { StartsOne result spawner.old spawner.new }
    {
        match spawner.start(rt, self) {
            Ok(running) => Ok(BackgroundSession { running }),
            Err(session) => Err(session),
        }
    }
}

/// Serves a filesystem: `Session::new`, and where it is opened `Session::run`.
pub fn mount<R: Threads + Wait + AllocGlobal + Sync, FS: Filesystem, S: Source, K: Sink + Send>(
    rt: &R,
    filesystem: FS,
    source: S,
    sink: K,
    owner: u32,
    page_size: u32,
    config: &Config,
) -> Ended<FS, S, K>
    requires page { 0 < page_size }

    // One reply for each message, where none comes later: see `Headline`.
    ensures headline { NeverLater config.now.n_threads FS.promise.defers →
        result.outcome ≡ Ok tt → Lossless (K.told sink) (K.told result.sink) result.transcript →
        Headline FS.promise page_size config.now.acl owner filesystem (S.told source) (S.told result.source)
        (K.told sink) (K.told result.sink) }

    // These are in the order of the messages, where no more than one thread serves: see `OrderedHeadline`.
    ensures in_order { ¬ (ManyThreads config.now.n_threads) →
        result.outcome ≡ Ok tt → Lossless (K.told sink) (K.told result.sink) result.transcript →
        OrderedHeadline FS.promise page_size config.now.acl owner filesystem (S.told source) (S.told result.source)
        (K.told sink) (K.told result.sink) }

    // One reply for each message, at once or later: see `LaterHeadline`.
    ensures later { result.outcome ≡ Ok tt → Lossless (K.told sink) (K.told result.sink) result.transcript →
        LaterHeadline FS.promise page_size config.now.acl owner filesystem (S.told source) (S.told result.source)
        (K.told sink) (K.told result.sink) }

    // Where no reply comes later, all could be recorded.
    ensures recorded { NeverLater config.now.n_threads FS.promise.defers → result.transcript.unrecorded ≡ 0 }

    // What was taken, sent, lost and counted on every end, why it ended so, and that `destroy` was called once.
    ensures session { ¬ (Untouched result.outcome) →
        Mounted (setup FS.promise page_size config.now owner) filesystem result.filesystem result.outcome
        (S.told source) (S.told result.source) (K.told sink) (K.told result.sink) result.transcript }

    // It ends well where nothing is amiss, or else for want of memory.
    ensures complete { OptionsWell config.now → SessionWell FS.promise.may_init config.now.n_threads filesystem
        (S.told source) (S.told result.source) →
        (result.outcome ≡ Ok tt) ⊎ (result.outcome ≡ Err SessionError.Memory) }

    // Where no thread is to serve, and nothing is amiss before that, the outcome says so, or comes for want of memory.
    ensures unserved { config.now.n_threads ≡ Some 0 → OptionsWell config.now →
        HandshakeWell FS.promise.may_init filesystem (S.told source) (S.told result.source) →
        (result.outcome ≡ Err SessionError.Threads) ⊎ (result.outcome ≡ Err SessionError.Memory) }

    // Where `init` refuses nothing, its error is not the outcome.
    ensures accepted { AcceptsAll FS.promise.may_init filesystem →
        (e : ℕ) → result.outcome ≢ Err (SessionError.Init e) }

    // Options are refused exactly where a cause holds, and none that is looked at before it.
    ensures options { (e : SessionError) → OfOptions e →
        (result.outcome ≡ Err e) ↔ RefusedAs config.now e }

    // Refused options, and want of memory, leave all as it was.
    ensures untouched { Untouched result.outcome → IsUntouched filesystem source sink result }
{
    match Session::new(rt, filesystem, source, sink, owner, page_size, config) {
        Ok(session) => session.run(rt),
        Err(ended) => ended,
    }
}
