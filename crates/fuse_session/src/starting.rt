// Handing a session to a thread, and waiting for its end.
ghost use Rattle.std.specs.Prelude.{◌≡◌, [], ◌∷◌, IfSome, MatchResult};
ghost use Rattle.std.specs.Arc.{arc_value};
ghost use Rattle.fuse_session.specs.Ran.{Ran};
ghost use Rattle.fuse_session.specs.Started.{ServedThere, handing, taking};

use crate::Ended;
use crate::carried::{Carried, Handle, Handover, Served, ServesOne};
use crate::runnable::Runnable;
use fuse_dispatch::Filesystem;
use fuse_line::{Line, Pass};
use fuse_wire::{Sink, Source};
use std::alloc::{AllocGlobal, Global};
use std::marker::Model;
use std::snapshot::Snapshot;
use std::sync::atomic::AtomicBool;
use std::sync::{Arc, Wait};
use std::thread;
use std::thread::Threads;

/// One end of the line by which a session comes to its thread.
#[derive(Drop)]
struct HandoverEnd<FS, S: Source, K: Sink> {
    line: Arc<Handover<FS, S, K>, Global>,
    pass: Pass<Carried<FS, S, K>>,
}

/// Both ends of a line with one place: the first hands over, and the other takes. None where there is no memory.
fn both_ends<FS: Filesystem + Drop, S: Source + Drop, K: Sink + Drop>(
    alloc: Global,
) -> Option<(HandoverEnd<FS, S, K>, HandoverEnd<FS, S, K>)>
    ensures line { IfSome result (λ ends. arc_value ends.1.line ≡ arc_value ends.0.line) }
    ensures passes { IfSome result (λ ends. (ends.0.pass ≡ handing (arc_value ends.0.line) [])
        × (ends.1.pass ≡ taking (arc_value ends.0.line) [])) }
{
    let (line, mut pass) = Line::new(alloc, 1).ok()?;
    let other = line.split(&mut pass, false);
    let line = Arc::new(alloc, line).ok()?;
    let share = Arc::try_clone(&line).ok()?;
    let taker = HandoverEnd {
        line: share,
        pass: other,
    };
    Some((HandoverEnd { line, pass }, taker))
}

/// Takes the session off the line, once it is there.
fn take<R: Wait, FS, S: Source, K: Sink>(
    rt: &R,
    line: &Handover<FS, S, K>,
    pass: &mut Pass<Carried<FS, S, K>>,
) -> Carried<FS, S, K>
    requires { pass.old ≡ taking line.now [] }
    ensures { pass.new ≡ taking line.now (result ∷ []) }
{
    let never = AtomicBool::new(false);
    for _ in rt.forever() {
        if let Some(carried) = line.pop_waiting(rt, pass, &never) {
            return carried;
        }
    }
    unreachable!()
}

/// Serves the session that comes by the line to its end.
fn serve_taken<R: Threads + Wait + AllocGlobal + Sync, FS: Filesystem, S: Source, K: Sink + Send>(
    rt: &R,
    line: &Handover<FS, S, K>,
    mut pass: Pass<Carried<FS, S, K>>,
) -> Served<FS, S, K>
    requires { pass ≡ taking line.now [] }
    ensures { ServedThere FS.promise S.told K.told line.now result }
{
    let carried = take(rt, line, &mut pass);
    let ended = carried.into_runnable().run(rt);
    Served { ended, pass }
}

/// A session that was handed to its thread. It must be spent: `join` waits for its end. A contract sees the session.
pub(crate) struct Handed<FS: Filesystem, S: Source, K: Sink> {
    session: Snapshot<Runnable<FS, S, K>>,
    handle: Handle<FS, S, K>,
    giver: HandoverEnd<FS, S, K>,
}

impl<FS: Filesystem, S: Source, K: Sink> Model for Handed<FS, S, K> {
    ghost use Rattle.std.specs.Prelude.{◌≡◌, [], ◌∷◌};
    ghost use Rattle.std.specs.Arc.{arc_value};
    ghost use Rattle.fuse_session.specs.Ran.{Opened};
    ghost use Rattle.fuse_session.specs.Started.{carried, handing};

    ghost Value = { Opened FS S K };

    ghost view = { λ h. h.session.value };

    ghost invariant = { λ h. (h.handle.promise.line.value ≡ arc_value h.giver.line)
        × (h.giver.pass ≡ handing (arc_value h.giver.line) (carried h.session.value ∷ [])) };
}

/// Starts a thread, and hands the session to it. Where there is no thread, or no memory, the session comes back: it is
/// handed over only once its thread has started.
pub(crate) fn start_thread<
    R: Threads + Wait + AllocGlobal + Send + Sync + Copy + 'static,
    FS: Filesystem + Drop + 'static,
    S: Source + Send + Drop + 'static,
    K: Sink + Send + Drop + 'static,
>(rt: &R, runnable: Runnable<FS, S, K>) -> Result<Handed<FS, S, K>, Runnable<FS, S, K>>
    ensures { MatchResult result (λ handed. handed ≡ runnable) (λ back. back ≡ runnable) }
{
    let Some((mut giver, taker)) = both_ends(rt.alloc()) else {
        return Err(runnable);
    };
    let promise = ServesOne {
        line: Snapshot::of(&*giver.line),
    };
    let runtime = *rt;
    let HandoverEnd { line, pass } = taker;
    let task = move || -> Served<FS, S, K>
        requires { pass ≡ taking (arc_value line) [] }
        ensures { ServedThere FS.promise S.told K.told (arc_value line) result }
    { serve_taken(&runtime, &*line, pass) };
    let Ok(handle) = thread::spawn_with(rt, promise, task) else {
        return Err(runnable);
    };
    let session = Snapshot::of(&runnable);
    giver
        .line
        .push_waiting(rt, &mut giver.pass, Carried::new(runnable));
    Ok(Handed {
        session,
        handle,
        giver,
    })
}

impl<FS: Filesystem + Drop, S: Source + Drop, K: Sink + Send + Drop> Handed<FS, S, K> {
    /// Waits for the end of the session.
    pub(crate) fn join<R: Threads + Wait>(self, rt: &R) -> Ended<FS, S, K>
        ensures { Ran FS.promise self result.filesystem result.outcome
            (S.told result.source) (K.told result.sink) result.transcript }
    {
        let Handed {
            session: _,
            handle,
            giver,
        } = self;
        let HandoverEnd { line, mut pass } = giver;
        let Served { ended, pass: other } = handle.join(rt);
        line.join(&mut pass, other);
        match line.pop(rt, &mut pass) {
            None => ended,
            Some(_) => unreachable!(),
        }
    }
}
