// Sessions from memory to memory, and what is left of them.
use fuse_config::{Config, SessionACL};
use fuse_session::{Ended, Filesystem, SessionError, Transcript, mount};
use fuse_testing::test_messages::{Frame, Given, frames_of, source_of};
use fuse_wire::{Items, MemorySink, MemorySource};
use std::alloc::Global;
use std::process::Abort;
use std::sync::Wait;
use std::thread::Threads;

/// What is left of a session, but for its source.
#[derive(Drop)]
pub(crate) struct Rest<FS> {
    pub(crate) filesystem: FS,
    pub(crate) sink: MemorySink,
    pub(crate) outcome: Result<(), SessionError>,
    pub(crate) transcript: Transcript,
}

/// Lets the source of a session go.
pub(crate) fn rest_of<FS>(over: Ended<FS, MemorySource, MemorySink>) -> Rest<FS> {
    let Ended {
        filesystem,
        source,
        sink,
        outcome,
        transcript,
    } = over;
    drop(source);
    Rest {
        filesystem,
        sink,
        outcome,
        transcript,
    }
}

/// A configuration by which so many threads serve everybody.
pub(crate) fn everybody(alloc: Global, n_threads: Option<usize>) -> Config {
    let mut config = Config::new(alloc);
    config.acl = SessionACL::All;
    config.n_threads = n_threads;
    config
}

/// A sink that takes everything.
pub(crate) fn taking<R: AllocGlobal>(rt: &R) -> MemorySink {
    MemorySink::new(rt.alloc(), Vec::new(rt.alloc()))
}

/// Serves everybody on so many threads, in a session of root with pages of 4096 bytes.
pub(crate) fn serve<R: Threads + Wait + AllocGlobal + Sync, FS: Filesystem>(
    rt: &R,
    filesystem: FS,
    source: MemorySource,
    sink: MemorySink,
    n_threads: Option<usize>,
) -> Rest<FS> {
    let config = everybody(rt.alloc(), n_threads);
    rest_of(mount(rt, filesystem, source, sink, 0, 4096, &config))
}

/// A source of INIT, and then of this.
pub(crate) fn source_after_init<R: AllocGlobal + Abort>(rt: &R, given: &[Given]) -> MemorySource {
    let mut all = vec![in rt.alloc(); Given::Opening].expect(rt, "there is memory");
    all.extend_from_slice(given).expect(rt, "there is memory");
    source_of(rt.alloc(), &all).expect(rt, "there is memory")
}

/// The reply to INIT, and then these frames.
pub(crate) fn after_init<R: AllocGlobal + Abort>(rt: &R, frames: &[Frame]) -> Vec<Items<u8>> {
    let mut all = vec![in rt.alloc(); Frame::Accepted].expect(rt, "there is memory");
    all.extend_from_slice(frames).expect(rt, "there is memory");
    frames_of(rt.alloc(), &all).expect(rt, "there is memory")
}

/// So many messages were taken, and so many frames sent but for notices. Nothing was lost.
pub(crate) fn counts(received: u64, frames: u64) -> Transcript {
    Transcript {
        received,
        frames,
        notes: 0,
        lost: 0,
        unrecorded: 0,
    }
}
