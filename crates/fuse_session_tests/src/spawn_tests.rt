// Sessions in the background.
use crate::asserts::{expect_same, frames_of, source_of};
use crate::counting::{Counting, MOST_TURNS, counts};
use fuse_config::{Config, SessionACL};
use fuse_notify::Notifier;
use fuse_session::{
    BackgroundSession, Ended, InlineSpawner, Session, SessionError, SpawnError, Spawner,
    ThreadSpawner, Transcript, spawn_mount,
};
use fuse_testing::Probing;
use fuse_testing::test_messages::{EIO, ENOENT, Frame, Given, LOOKUP, first_other, message_of};
use fuse_wire::{
    MemoryBytes, MemoryOut, MemorySink, MemorySource, NoMemory, PollHandle, StreamSink,
    StreamSource,
};
use std::alloc::Global;
use std::process::Abort;
use std::sync::atomic::{AtomicU64, Ordering};
use std::sync::{Arc, Wait};
use std::thread;
use std::thread::Threads;

/// How high a count is once whoever looks has seen a call: more than any of these sessions has calls.
const SEEN: u64 = 1000;

type Background = BackgroundSession<Probing<Counting>, MemorySource, MemorySink>;

type Opened = Session<Probing<Counting>, MemorySource, MemorySink>;

type Over = Ended<Probing<Counting>, MemorySource, MemorySink>;

type Refusal = SpawnError<Probing<Counting>, MemorySource, MemorySink>;

/// INIT and a LOOKUP.
const MESSAGES: &[Given] = &[Given::Opening, Given::Asked(2, 0, LOOKUP)];

/// What is sent for them.
const REPLIES: &[Frame] = &[Frame::Accepted, Frame::Error(2, ENOENT)];

/// Mounts this filesystem over these messages, in the background.
fn spawn<R: Threads + Wait + AllocGlobal + Abort + Send + Sync + Copy + 'static>(
    rt: &R,
    spawner: &mut Spawner,
    n_threads: Option<usize>,
    probe: Counting,
    given: &[Given],
) -> Result<Background, Refusal> {
    let alloc = rt.alloc();
    let source = source_of(rt, given);
    let sink = MemorySink::new(alloc, Vec::new(alloc));
    let filesystem = Probing { probe };
    let mut config = Config::new(alloc);
    config.acl = SessionACL::All;
    config.n_threads = n_threads;
    spawn_mount(rt, spawner, filesystem, source, sink, 0, 4096, &config)
}

/// Whether a filesystem was called in time, which tells its calls. It is looked as often as a lookup looks.
fn is_called(calls: &AtomicU64) -> bool {
    for _turn in 0..MOST_TURNS {
        if calls.load(Ordering::SeqCst) > 0 {
            return true;
        }
        thread::yield_now();
    }
    false
}

/// What is looked at of a session in the background before it is joined.
#[derive(Clone, Copy)]
enum Look<'a> {
    Nothing,
    /// A notifier is made of it.
    Notifier,
    /// Its filesystem is called, which counts here. The call goes on once it was seen.
    Calls(&'a AtomicU64),
    /// A notifier is made of it, which queues two notices. The call of its filesystem goes on once they are queued.
    Notices(&'a AtomicU64),
}

/// Whether a notifier was made, and there were places for two notices of it.
fn are_queued<R: Wait + AllocGlobal>(rt: &R, made: Result<Notifier, NoMemory>) -> bool {
    match made {
        Ok(mut notifier) => {
            let is_first = notifier.poll(rt, PollHandle(7)).is_ok();
            is_first && notifier.poll(rt, PollHandle(8)).is_ok()
        }
        Err(NoMemory) => false,
    }
}

/// Whether this was seen of a session in the background.
fn is_seen<R: Wait + AllocGlobal>(rt: &R, background: &mut Background, look: Look<'_>) -> bool {
    match look {
        Look::Nothing => true,
        Look::Notifier => background.notifier().is_ok(),
        Look::Calls(calls) => {
            let is_called = is_called(calls);
            calls.fetch_add(SEEN, Ordering::SeqCst);
            is_called
        }
        Look::Notices(calls) => {
            let are_queued = are_queued(rt, background.notifier());
            calls.fetch_add(SEEN, Ordering::SeqCst);
            are_queued
        }
    }
}

/// Waits for the end of a session in the background, and says whether this was seen of it before.
fn joined<R: Threads + Wait + AllocGlobal + Sync>(
    rt: &R,
    mut background: Background,
    look: Look<'_>,
) -> (Over, bool) {
    let is_seen = is_seen(rt, &mut background, look);
    (background.join(rt), is_seen)
}

/// The end of a session that a spawner was to start, and whether it did and this was seen of it then. Where the spawner
/// refused, the session is run here.
fn over<R: Threads + Wait + AllocGlobal + Sync>(
    rt: &R,
    spawned: Result<Background, Refusal>,
    look: Look<'_>,
) -> (Over, bool) {
    match spawned {
        Ok(background) => joined(rt, background, look),
        Err(SpawnError::Refused(session)) => (session.run(rt), false),
        Err(SpawnError::Ended(ended)) => (ended, false),
    }
}

/// A spawner that refuses these starts, or that starts threads.
fn spawner_of<R: AllocGlobal + Abort>(rt: &R, refusals: Option<&[u64]>) -> Spawner {
    match refusals {
        Some(places) => {
            let places = places.to_vec(rt.alloc()).expect(rt, "there is memory");
            Spawner::Inline(InlineSpawner::new(places))
        }
        None => Spawner::Thread(ThreadSpawner::new()),
    }
}

/// A session of those messages is over: it wanted memory and took none of them, or all were answered, but for the
/// frames that its sink found no memory for.
fn is_answered_or_wants_memory<R: Abort>(rt: &R, over: Over) {
    let starved = over.sink.starved();
    let expected = match over.outcome {
        Err(SessionError::Memory) => (Err(SessionError::Memory), 0, 0, 0),
        _ => (Ok(()), 2, 2_u64.saturating_sub(starved), starved),
    };
    let Transcript {
        received,
        frames,
        lost,
        ..
    } = over.transcript;
    expect_same(rt, &(over.outcome, received, frames, lost), &expected);
    let probe = &over.filesystem.probe;
    let found = (probe.destroyed(), probe.calls(), received);
    let calls = received.saturating_sub(1);
    expect_same(rt, &found, &(received.min(1), calls, received));
    drop(over);
}

/// A session of those messages is over, which has answered both, and the LOOKUP by one call.
fn is_answered<R: AllocGlobal + Abort>(rt: &R, what: &str, over: Over) {
    let probe = &over.filesystem.probe;
    let found = (
        (over.outcome, over.transcript),
        (probe.destroyed(), probe.calls()),
        first_other(over.sink.frames(), &frames_of(rt, REPLIES), 2),
    );
    drop(over);
    expect_same(
        rt,
        &(what, found),
        &(what, ((Ok(()), counts(2, 2)), (1, 1), None)),
    );
}

/// A session on two threads that this spawner is to start, and which is run here where it does not; and whether it was
/// started.
fn started_by<R: Threads + Wait + AllocGlobal + Abort + Send + Sync + Copy + 'static>(
    rt: &R,
    spawner: &mut Spawner,
) -> (Over, bool) {
    let spawned = spawn(rt, spawner, Some(2), Counting::new(None), MESSAGES);
    over(rt, spawned, Look::Nothing)
}

/// The same of a spawner that starts threads.
fn on_a_thread<R: Threads + Wait + AllocGlobal + Abort + Send + Sync + Copy + 'static>(
    rt: &R,
) -> (Over, bool) {
    started_by(rt, &mut spawner_of(rt, None))
}

#[test]
fn sessions_run_in_the_background_and_have_notifiers(rt: HostRuntime) {
    for refusals in [None, Some([].as_slice())] {
        let mut spawner = spawner_of(&rt, refusals);
        let spawned = spawn(&rt, &mut spawner, None, Counting::new(None), MESSAGES);
        let (over, is_notified) = over(&rt, spawned, Look::Notifier);
        is_answered(&rt, "with a notifier", over);
        expect_same(&rt, &is_notified, &true);
    }
}

#[test]
fn a_session_runs_in_the_background(rt: HostRuntime) {
    let (over, is_started) = on_a_thread(&rt);
    is_answered(&rt, "on a thread", over);
    expect_same(&rt, &is_started, &true);
}

#[test]
fn a_session_runs_in_the_background_or_here(rt: HostRuntime) {
    let (over, _) = on_a_thread(&rt);
    is_answered(&rt, "on a thread or here", over);
}

#[test]
fn a_session_runs_in_the_background_or_here_or_wants_memory(rt: HostRuntime) {
    let (over, _) = on_a_thread(&rt);
    is_answered_or_wants_memory(&rt, over);
}

#[test]
fn two_sessions_run_in_the_background(rt: HostRuntime) {
    let mut spawner = spawner_of(&rt, None);
    for what in ["the first", "the second"] {
        let (over, is_started) = started_by(&rt, &mut spawner);
        let found = (what, over.outcome, over.transcript.frames, is_started);
        drop(over);
        expect_same(&rt, &found, &(what, Ok(()), 2, true));
    }
}

/// Where memory is wanted once, at most one of them is not started.
#[test]
fn two_sessions_run_in_the_background_or_one_here_or_wants_memory(rt: HostRuntime) {
    let mut spawner = spawner_of(&rt, None);
    let mut is_any = false;
    for _ in 0..2 {
        let (over, is_started) = started_by(&rt, &mut spawner);
        is_answered_or_wants_memory(&rt, over);
        is_any = is_any || is_started;
    }
    expect_same(&rt, &is_any, &true);
}

/// A count that is shared by two.
fn shared_count<R: AllocGlobal + Abort>(
    rt: &R,
) -> (Arc<AtomicU64, Global>, Arc<AtomicU64, Global>) {
    let count = Arc::new(rt.alloc(), AtomicU64::new(0)).expect(rt, "there is memory");
    let share = Arc::try_clone(&count).expect(rt, "there is memory");
    (count, share)
}

/// It is answered before whoever started it goes on.
#[test]
fn a_session_is_over_once_it_is_started_on_the_same_thread(rt: HostRuntime) {
    let (calls, share) = shared_count(&rt);
    let mut spawner = spawner_of(&rt, Some(&[]));
    let counting = Counting::waiting(share, 0);
    let spawned = spawn(&rt, &mut spawner, None, counting, MESSAGES);
    let called = calls.load(Ordering::SeqCst);
    let (over, is_started) = over(&rt, spawned, Look::Nothing);
    is_answered(&rt, "where it is started", over);
    expect_same(&rt, &(called, is_started), &(1, true));
}

/// It is started before its lookup goes on, which waits for whoever started it.
#[test]
fn a_session_runs_while_its_caller_goes_on(rt: HostRuntime) {
    let (calls, share) = shared_count(&rt);
    let mut spawner = Spawner::Thread(ThreadSpawner::new());
    let waiting = Counting::waiting(share, SEEN);
    let spawned = spawn(&rt, &mut spawner, None, waiting, MESSAGES);
    let (over, called) = over(&rt, spawned, Look::Calls(&calls));
    is_answered(&rt, "called", over);
    expect_same(&rt, &called, &true);
}

/// The same, and two notices of polls.
const NOTIFIED: &[Frame] = &[
    Frame::Accepted,
    Frame::Error(2, ENOENT),
    Frame::News([7, 0]),
    Frame::News([8, 0]),
];

/// A session on so many threads sends the notices that are queued while its lookup waits for them.
fn sends_notices<R: Threads + Wait + AllocGlobal + Abort + Send + Sync + Copy + 'static>(
    rt: &R,
    n_threads: Option<usize>,
) {
    let (calls, share) = shared_count(rt);
    let mut spawner = spawner_of(rt, None);
    let waiting = Counting::waiting(share, SEEN);
    let spawned = spawn(rt, &mut spawner, n_threads, waiting, MESSAGES);
    let (over, are_queued) = over(rt, spawned, Look::Notices(&calls));
    let other = first_other(over.sink.frames(), &frames_of(rt, NOTIFIED), 1);
    let found = (over.outcome, are_queued, other);
    drop(over);
    expect_same(rt, &(n_threads, found), &(n_threads, (Ok(()), true, None)));
}

#[test]
fn what_is_queued_while_a_session_runs_is_sent(rt: HostRuntime) {
    sends_notices(&rt, None);
    sends_notices(&rt, Some(2));
}

/// How often a lookup looks that waits in vain.
const TURNS_IN_VAIN: u64 = 20_000;

/// What comes of a session on so many threads of so many LOOKUPs, each of which waits until all are called, and looks so
/// often at most.
fn over_waiting<R: Threads + Wait + AllocGlobal + Abort + Send + Sync + Copy + 'static>(
    rt: &R,
    n_threads: usize,
    count: u64,
    most_turns: u64,
) -> Over {
    let (calls, share) = shared_count(rt);
    drop(calls);
    let mut spawner = spawner_of(rt, Some(&[]));
    let waiting = Counting::waiting_for_turns(share, count, most_turns);
    let lookups = vec![in rt.alloc(); Given::Asked(2, 0, LOOKUP); count as usize];
    let mut given = lookups.expect(rt, "there is memory");
    given
        .insert(0, Given::Opening)
        .expect(rt, "there is memory");
    let spawned = spawn(rt, &mut spawner, Some(n_threads), waiting, &given);
    over(rt, spawned, Look::Nothing).0
}

/// How often this error was sent to the id 2.
fn times_sent<R: AllocGlobal + Abort>(rt: &R, over: &Over, errno: u8) -> usize {
    let wanted = frames_of(rt, &[Frame::Error(2, errno)]);
    let sent = over.sink.frames().iter();
    sent.filter(|frame| wanted.contains(frame)).count()
}

/// As many threads serve as there can be at most.
#[test]
fn as_many_calls_run_at_once_as_threads_serve(rt: HostRuntime) {
    let over = over_waiting(&rt, 64, 64, MOST_TURNS);
    let received = over.transcript.received;
    let found = (over.outcome, received, times_sent(&rt, &over, ENOENT));
    drop(over);
    expect_same(&rt, &found, &(Ok(()), 65, 64));
}

/// Two threads serve, so that the first of three to give up has waited in vain.
#[test]
fn no_more_calls_run_at_once_than_threads_serve(rt: HostRuntime) {
    let over = over_waiting(&rt, 2, 3, TURNS_IN_VAIN);
    let found = (over.sink.frames().len(), times_sent(&rt, &over, EIO) > 0);
    drop(over);
    expect_same(&rt, &found, &(4, true));
}

/// The session that a spawner refused to start.
fn refused<R: Abort>(rt: &R, spawned: Result<Background, Refusal>) -> Opened {
    match spawned {
        Err(SpawnError::Refused(session)) => session,
        _ => panic!(rt; "not refused"),
    }
}

/// The end of a session that this spawner starts now, and whether this was seen of it before.
fn over_later<R: Threads + Wait + AllocGlobal + Abort + Send + Sync + Copy + 'static>(
    rt: &R,
    spawner: &mut Spawner,
    session: Opened,
    look: Look<'_>,
) -> (Over, bool) {
    match session.spawn(rt, spawner) {
        Ok(background) => joined(rt, background, look),
        Err(_) => panic!(rt; "refused once more"),
    }
}

/// The session that this spawner refuses to start now.
fn refused_now<R: Threads + Wait + AllocGlobal + Abort + Send + Sync + Copy + 'static>(
    rt: &R,
    spawner: &mut Spawner,
    session: Opened,
) -> Opened {
    match session.spawn(rt, spawner) {
        Ok(_) => panic!(rt; "not refused"),
        Err(session) => session,
    }
}

#[test]
fn a_session_that_is_refused_can_be_started_later(rt: HostRuntime) {
    let mut spawner = spawner_of(&rt, Some(&[1]));
    let spawned = spawn(&rt, &mut spawner, None, Counting::new(None), MESSAGES);
    let session = refused(&rt, spawned);
    let (over, notified) = over_later(&rt, &mut spawner, session, Look::Notifier);
    is_answered(&rt, "started later", over);
    expect_same(&rt, &notified, &true);
}

/// A spawner that starts threads, but for these starts.
fn threads_but_for<R: AllocGlobal + Abort>(rt: &R, refusals: &[u64]) -> Spawner {
    let refusals = refusals.to_vec(rt.alloc()).expect(rt, "there is memory");
    Spawner::Thread(ThreadSpawner::refusing(refusals))
}

#[test]
fn a_session_whose_thread_is_refused_can_be_run_here(rt: HostRuntime) {
    let mut spawner = threads_but_for(&rt, &[1]);
    let spawned = spawn(&rt, &mut spawner, None, Counting::new(None), MESSAGES);
    let over = refused(&rt, spawned).run(&rt);
    is_answered(&rt, "without its thread", over);
}

/// Its lookup waits for whoever started it, so that a thread runs it.
#[test]
fn a_session_whose_thread_is_refused_twice_has_one_later(rt: HostRuntime) {
    let (calls, share) = shared_count(&rt);
    let mut spawner = threads_but_for(&rt, &[1, 2]);
    let waiting = Counting::waiting(share, SEEN);
    let spawned = spawn(&rt, &mut spawner, None, waiting, MESSAGES);
    let session = refused_now(&rt, &mut spawner, refused(&rt, spawned));
    let (over, called) = over_later(&rt, &mut spawner, session, Look::Calls(&calls));
    is_answered(&rt, "with a thread later", over);
    expect_same(&rt, &called, &true);
}

#[test]
fn sessions_have_threads_before_and_after_one_that_is_refused(rt: HostRuntime) {
    let mut spawner = threads_but_for(&rt, &[2]);
    for (what, expected) in [("first", true), ("refused", false), ("last", true)] {
        let (over, is_started) = started_by(&rt, &mut spawner);
        is_answered(&rt, what, over);
        expect_same(&rt, &(what, is_started), &(what, expected));
    }
}

type OverStreams = BackgroundSession<
    Probing<Counting>,
    StreamSource<MemoryBytes>,
    StreamSink<MemoryOut>,
>;

/// A session over streams of bytes, in pieces of seven, which a thread of its own serves.
fn spawn_over_streams<R: Threads + Wait + AllocGlobal + Abort + Send + Sync + Copy + 'static>(
    rt: &R,
    messages: Vec<u8>,
) -> OverStreams {
    let alloc = rt.alloc();
    let source = StreamSource::new(MemoryBytes::new(messages, 7, Vec::new(alloc)));
    let sink = StreamSink::new(MemoryOut::new(alloc, 7, Vec::new(alloc)));
    let filesystem = Probing {
        probe: Counting::new(None),
    };
    let config = Config::new(alloc);
    let mut spawner = spawner_of(rt, None);
    match spawn_mount(rt, &mut spawner, filesystem, source, sink, 0, 4096, &config) {
        Ok(background) => background,
        Err(_) => panic!(rt; "not started"),
    }
}

/// The outcome of that session, and what it wrote.
fn over_streams<R: Threads + Wait + AllocGlobal + Abort + Send + Sync + Copy + 'static>(
    rt: &R,
    messages: Vec<u8>,
) -> (Result<(), SessionError>, Vec<u8>) {
    let ended = spawn_over_streams(rt, messages).join(rt);
    let written = ended.sink.into_inner().bytes().to_vec(rt.alloc());
    (ended.outcome, written.expect(rt, "there is memory"))
}

/// The bytes of these frames, one behind the other.
fn joined_frames<R: AllocGlobal + Abort>(rt: &R, frames: &[Frame]) -> Vec<u8> {
    let mut all = Vec::new(rt.alloc());
    for frame in frames_of(rt, frames).iter() {
        all.extend_from_slice(frame.as_slice())
            .expect(rt, "there is memory");
    }
    all
}

#[test]
fn a_session_over_streams_runs_in_the_background(rt: HostRuntime) {
    let mut messages = Vec::new(rt.alloc());
    for given in MESSAGES {
        let message = message_of(rt.alloc(), given).expect(&rt, "there is memory");
        messages
            .extend_from_slice(&message)
            .expect(&rt, "there is memory");
    }
    let found = over_streams(&rt, messages);
    expect_same(&rt, &found, &(Ok(()), joined_frames(&rt, REPLIES)));
}
