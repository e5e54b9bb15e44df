// A session on its way to its thread, and what comes back of it.
ghost use Rattle.std.specs.Prelude.{◌≡◌, true};
ghost use Rattle.fuse_session.specs.Started.{ServedThere};

use crate::Ended;
use crate::runnable::Runnable;
use fuse_dispatch::Filesystem;
use fuse_line::{Class, Line, Pass};
use fuse_wire::{Sink, Source};
use std::snapshot::Snapshot;
use std::thread::{Promise, PromisedHandle};

/// A session on its way to its thread.
pub(crate) struct Carried<FS, S: Source, K: Sink> {
    runnable: Runnable<FS, S, K>,
}

impl<FS: Drop, S: Source + Drop, K: Sink + Drop> Drop for Carried<FS, S, K> {
    fn drop(self) {
        let Carried { runnable } = self;
        runnable.discard();
    }
}

impl<FS, S: Source, K: Sink> Class for Carried<FS, S, K> {
    ghost is_inner = { λ _. true };

    fn inner(&self) -> bool {
        true
    }
}

impl<FS, S: Source, K: Sink> Carried<FS, S, K> {
    pub(crate) fn new(runnable: Runnable<FS, S, K>) -> Carried<FS, S, K>
        ensures { result.runnable ≡ runnable }
    {
        Carried { runnable }
    }

    /// What was carried.
    pub(crate) fn into_runnable(self) -> Runnable<FS, S, K>
        ensures { result ≡ self.runnable }
    {
        let Carried { runnable } = self;
        runnable
    }
}

/// The line by which a session comes to its thread.
pub(crate) type Handover<FS, S, K> = Line<Carried<FS, S, K>>;

/// What a thread gives back: how the session ended that it took off the line, and the pass that knows which it was.
#[derive(Drop)]
pub(crate) struct Served<FS, S: Source, K: Sink> {
    pub(crate) ended: Ended<FS, S, K>,
    pub(crate) pass: Pass<Carried<FS, S, K>>,
}

/// That a thread serves the one session that it takes off this line.
pub(crate) struct ServesOne<FS, S: Source, K: Sink> {
    pub(crate) line: Snapshot<Handover<FS, S, K>>,
}

impl<FS, S: Source, K: Sink> Drop for ServesOne<FS, S, K> {
    fn drop(self) {
        let ServesOne { line: _ } = self;
    }
}

impl<FS: Filesystem, S: Source, K: Sink> Promise<Served<FS, S, K>> for ServesOne<FS, S, K> {
    ghost kept_by = { λ p r. ServedThere FS.promise S.told K.told p.line.value r };
}

/// The handle of a thread that serves a session.
pub(crate) type Handle<FS, S, K> = PromisedHandle<Served<FS, S, K>, ServesOne<FS, S, K>>;
