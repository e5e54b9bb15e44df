// A generated stream of five requests, which a thread of its own serves.
use crate::asserts::expect_same;
use crate::device_tests::bytes_of;
use crate::stream::{answers, five_requests};
use crate::sweep_tests::{are_some, frames_in};
use fuse_config::{Config, SessionACL};
use fuse_hello::Hello;
use fuse_session::{Ended, SessionError, SpawnError, Spawner, ThreadSpawner, spawn_mount};
use fuse_wire::{MemoryBytes, MemorySink, StreamSource};
use std::process::Abort;
use std::sync::Wait;
use std::thread::Threads;

type Over = Ended<Hello, StreamSource<MemoryBytes>, MemorySink>;

/// The end of a session on so many threads, which is run here where its thread is not started, and whether it was started.
fn served<R: Threads + Wait + AllocGlobal + Abort + Send + Sync + Copy + 'static>(
    rt: &R,
    n_threads: usize,
) -> (Over, bool) {
    let alloc = rt.alloc();
    let input = MemoryBytes::new(five_requests(rt), 1000, Vec::new(alloc));
    let source = StreamSource::new(input);
    let sink = MemorySink::new(alloc, Vec::new(alloc));
    let mut config = Config::new(alloc);
    config.acl = SessionACL::All;
    config.n_threads = Some(n_threads);
    let mut spawner = Spawner::Thread(ThreadSpawner::new());
    match spawn_mount(rt, &mut spawner, Hello, source, sink, 0, 4096, &config) {
        Ok(background) => (background.join(rt), true),
        Err(SpawnError::Refused(session)) => (session.run(rt), false),
        Err(SpawnError::Ended(ended)) => (ended, false),
    }
}

/// It wanted memory and took no message, or it answered each, but for the frames that its sink found no memory for.
fn is_answered_or_wants_memory<R: AllocGlobal + Abort>(rt: &R, n_threads: usize, over: &Over) {
    let starved = over.sink.starved();
    let (outcome, received, frames, lost) = match over.outcome {
        Err(SessionError::Memory) => (Err(SessionError::Memory), 0, 0, 0),
        _ => (Ok(()), 7, 7_u64.saturating_sub(starved), starved),
    };
    let counts = &over.transcript;
    let found = (over.outcome, counts.received, counts.frames, counts.lost);
    let expected = (outcome, received, frames, lost);
    expect_same(rt, &(n_threads, found), &(n_threads, expected));
    let bytes = answers(rt);
    let (all, _) = frames_in(rt, &bytes);
    let sent = bytes_of(rt, rt.alloc(), over.sink.frames());
    are_some(rt, frames as usize, &sent, &all);
}

#[test]
fn the_stream_is_served_in_the_background(rt: HostRuntime) {
    for n_threads in [1, 2, 4] {
        let (over, is_started) = served(&rt, n_threads);
        let found = (
            n_threads,
            over.outcome,
            over.sink.frames().len(),
            is_started,
        );
        is_answered_or_wants_memory(&rt, n_threads, &over);
        drop(over);
        expect_same(&rt, &found, &(n_threads, Ok(()), 7, true));
    }
}

#[test]
fn the_stream_is_served_in_the_background_or_here_or_wants_memory(rt: HostRuntime) {
    for n_threads in [1, 2, 4] {
        let (over, _) = served(&rt, n_threads);
        is_answered_or_wants_memory(&rt, n_threads, &over);
        drop(over);
    }
}
