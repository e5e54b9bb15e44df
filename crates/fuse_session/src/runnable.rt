// What runs of a session.
ghost use Rattle.std.specs.Prelude.{◌≡◌, ◌<◌, ◌+◌, ℕ, List, [], Some, min};
ghost use Rattle.fuse_session.specs.Accounted.{Accounted, ManyThreads, NeverLater};
ghost use Rattle.fuse_dispatch.specs.OwedMessage.{OwedByPromise};
ghost use Rattle.fuse_session.specs.Ran.{LaterServed, Ran};
ghost use Rattle.fuse_session.specs.SessionEnd.{run_outcome};
ghost use Rattle.fuse_loop.specs.EventLoop.{Run};
ghost use Rattle.fuse_loop.specs.Lines.{IsUnused, unasked_of};
ghost use Rattle.fuse_loop.specs.Progress.{added, nothing_yet, progress};
ghost use Rattle.fuse_workers.specs.Starting.{AsksUpTo, starts};
ghost use Rattle.fuse_workers.specs.declared.threads.TheConstants.{MOST_WORKERS};

use crate::ended::{destroyed, run_outcome};
use crate::options::several;
use crate::{Ended, SessionError};
use fuse_dispatch::{Asking, Filesystem, Service, Shared};
use fuse_loop::{Buffers, RunEnd, Transcript, run_inline};
use fuse_wire::{Sink, Source};
use fuse_workers::{SystemStarter, run_workers_by};
use std::alloc::AllocGlobal;
use std::marker::Model;
use std::sync::Wait;
use std::thread::Threads;

/// What runs of a session: all of it but its notifier to spare, which stays with whoever starts it. It must be spent. A
/// contract sees the session.
pub(crate) struct Runnable<FS, S: Source, K: Sink> {
    /// The filesystem after the handshake, with the terms on which it is asked.
    pub shared: Shared<Asking<FS>>,
    /// How many threads are to serve. None is one.
    pub n_threads: Option<usize>,
    /// The source, with the messages after the handshake.
    pub source: S,
    /// The sink, with the frames of the handshake.
    pub sink: K,
    /// What the handshake did, in numbers.
    pub shaken: Transcript,
    /// The memory of the run, which nobody used yet.
    pub buffers: Buffers,
}

impl<FS, S: Source, K: Sink> Model for Runnable<FS, S, K> {
    ghost use Rattle.std.specs.Prelude.{◌≡◌, []};
    ghost use Rattle.fuse_loop.specs.Lines.{IsUnused};
    ghost use Rattle.fuse_loop.specs.Progress.{progress};
    ghost use Rattle.fuse_session.specs.Ran.{Opened};

    ghost Value = { Opened FS S K };

    ghost view = { λ s. record {
      filesystem = s.shared.service.handler.filesystem;
      source = s.source;
      sink = s.sink;
      terms = s.shared.service.terms;
      threads = s.n_threads;
      progress = progress (S.told s.source) (K.told s.sink) s.shaken [];
      line = s.buffers.frames.line;
    } };

    ghost invariant = { λ s. IsUnused s.buffers × (s.shaken.unrecorded ≡ 0) };
}

/// How the later messages were served.
struct ServedRun<S, K> {
    outcome: Result<(), SessionError>,
    transcript: Transcript,
    source: S,
    sink: K,
}

/// Answers the later messages: on this thread, or on so many others where more than one is asked for. What started these
/// knows how many it was asked for.
fn answer_all<R: Threads + Wait + AllocGlobal + Sync, FS: Filesystem, S: Source, K: Sink + Send>(
    rt: &R,
    shared: &Shared<Asking<FS>>,
    n_threads: Option<usize>,
    source: S,
    sink: K,
    buffers: Buffers,
) -> (RunEnd<S, K>, SystemStarter)
    requires unused { IsUnused buffers }
    ensures run { Run (Accounted n_threads FS.promise.defers (OwedByPromise FS.promise shared.now.service.handler.filesystem
        shared.now.service.terms)) result.0.end
        (progress (S.told source) (K.told sink) nothing_yet [])
        (progress (S.told result.0.source) (K.told result.0.sink) result.0.transcript (unasked_of result.0.buffers)) }
    ensures recorded { NeverLater n_threads FS.promise.defers → result.0.transcript.unrecorded ≡ 0 }
    ensures several { (n : ℕ) → n_threads ≡ Some n → 1 < n →
        (made : ℕ) × AsksUpTo (1 + min n MOST_WORKERS) made (starts 0 0) result.1 }
    ensures alone { ¬ ManyThreads n_threads → result.1 ≡ starts 0 0 }
{
    let starter = SystemStarter::new();
    match several(n_threads) {
        Some(count) => run_workers_by(rt, starter, shared, source, sink, buffers, count),
        None => (
            run_inline(rt, &shared.service, source, sink, buffers),
            starter,
        ),
    }
}

/// What is left of a run, after a handshake with these counts. Its memory is let go.
fn conclude<S: Source, K: Sink>(shaken: Transcript, run: RunEnd<S, K>) -> ServedRun<S, K>
    ensures outcome { result.outcome ≡ run_outcome run.end }
    ensures transcript { result.transcript ≡ added shaken run.transcript }
    ensures devices { (result.source ≡ run.source) × (result.sink ≡ run.sink) }
{
    let RunEnd {
        end,
        transcript,
        source,
        sink,
        buffers,
    } = run;
    drop(buffers);
    ServedRun {
        outcome: run_outcome(end),
        transcript: shaken.and(transcript),
        source,
        sink,
    }
}

/// Serves a session that was opened, after a handshake with these counts. No thread is to serve where their number is 0.
fn serve<R: Threads + Wait + AllocGlobal + Sync, FS: Filesystem, S: Source, K: Sink + Send>(
    rt: &R,
    shared: &Shared<Asking<FS>>,
    n_threads: Option<usize>,
    shaken: Transcript,
    source: S,
    sink: K,
    buffers: Buffers,
) -> ServedRun<S, K>
    requires unused { IsUnused buffers }
    requires shaken { shaken.unrecorded ≡ 0 }
    ensures ends { (unasked : List (List ℕ)) × LaterServed FS.promise shared.now.service.handler.filesystem
        shared.now.service.terms n_threads result.outcome
        (progress (S.told source) (K.told sink) shaken [])
        (progress (S.told result.source) (K.told result.sink) result.transcript unasked) }
    ensures recorded { NeverLater n_threads FS.promise.defers → result.transcript.unrecorded ≡ 0 }
{
    if n_threads == Some(0) {
        drop(buffers);
        return ServedRun {
            outcome: Err(SessionError::Threads),
            transcript: shaken,
            source,
            sink,
        };
    }
    let (run, _starter) = answer_all(rt, shared, n_threads, source, sink, buffers);
    conclude(shaken, run)
}

impl<FS: Filesystem, S: Source, K: Sink + Send> Runnable<FS, S, K> {
    /// Serves the session to its end, as `Session::run` says.
    pub(crate) fn run<R: Threads + Wait + AllocGlobal + Sync>(self, rt: &R) -> Ended<FS, S, K>
        ensures { Ran FS.promise self result.filesystem result.outcome
            (S.told result.source) (K.told result.sink) result.transcript }
    {
        let Runnable {
            shared,
            n_threads,
            source,
            sink,
            shaken,
            buffers,
        } = self;
        let ServedRun {
            outcome,
            transcript,
            source,
            sink,
        } = serve(rt, &shared, n_threads, shaken, source, sink, buffers);
        let Shared { service } = shared;
        let Service {
            handler: Asking { filesystem },
            terms: _,
        } = service;
        destroyed(filesystem, source, sink, transcript, outcome)
    }
}

impl<FS: Drop, S: Source + Drop, K: Sink + Drop> Runnable<FS, S, K> {
    /// Gives it up, unserved: a closure that a thread never ran is dropped with what it holds.
    pub(crate) fn discard(self) {
        let Runnable {
            shared,
            n_threads: _,
            source,
            sink,
            shaken: _,
            buffers,
        } = self;
        drop(shared);
        drop(source);
        drop(sink);
        drop(buffers);
    }
}
