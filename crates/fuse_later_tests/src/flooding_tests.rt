// Notices that a filesystem sends of its own, by the session's notifier.
use crate::asserts::expect_same;
use crate::serving::{Rest, after_init, counts, everybody, rest_of, source_after_init, taking};
use crate::telling::{Flood, Slot, Telling};
use fuse_notify::Notifier;
use fuse_request::RequestError;
use fuse_request::opcode::FUSE_DESTROY;
use fuse_session::{Filesystem, InvalidData, Session, SessionError, Transcript};
use fuse_testing::Probing;
use fuse_testing::test_messages::{Asks, ENOSYS, Frame, Given, LOOKUP, first_other};
use fuse_wire::{Items, MemorySource, NoMemory, PollHandle};
use std::process::Abort;
use std::sync::{Arc, Mutex, Wait};
use std::thread::Threads;

/// Puts another notifier, made by this one, where the filesystem finds it; or else queues a notice by this one.
fn hand_over<R: Wait + AllocGlobal>(rt: &R, slot: Option<&Slot>, made: Result<Notifier, NoMemory>) {
    let Ok(mut notifier) = made else {
        return;
    };
    match slot {
        Some(slot) => {
            if let Ok(another) = notifier.again() {
                *slot.lock(rt) = Some(another);
            }
        }
        None => {
            let _ = notifier.poll(rt, PollHandle(7));
        }
    }
}

/// Serves a filesystem on so many threads, in a session whose notifier it finds in the slot, or for which a notice was
/// queued before its run.
fn serve_with<R: Threads + Wait + AllocGlobal + Sync, FS: Filesystem>(
    rt: &R,
    slot: Option<&Slot>,
    filesystem: FS,
    source: MemorySource,
    n_threads: Option<usize>,
) -> Rest<FS> {
    let config = everybody(rt.alloc(), n_threads);
    rest_of(
        match Session::new(rt, filesystem, source, taking(rt), 0, 4096, &config) {
            Ok(mut session) => {
                hand_over(rt, slot, session.notifier());
                session.run(rt)
            }
            Err(over) => over,
        },
    )
}

/// What is left of a session on so many threads, of a lookup that sends so many notices.
fn run_flooding<R: Threads + Wait + AllocGlobal + Abort + Send + Sync + Copy>(
    rt: &R,
    n_threads: Option<usize>,
    notices: u64,
) -> Rest<Probing<Telling<R>>> {
    let slot = Arc::new(rt.alloc(), Mutex::new(None)).expect(rt, "there is memory");
    let share = Arc::try_clone(&slot).expect(rt, "there is memory");
    let flood = Flood {
        slot: share,
        notices,
    };
    let probe = Telling::new(*rt, rt.alloc(), Some(flood));
    let source = source_after_init(rt, &[Given::Asked(2, 0, LOOKUP)]);
    let rest = serve_with(rt, Some(&slot), Probing { probe }, source, n_threads);
    drop(slot);
    rest
}

/// How a session ended, what it counted, and how many notices were queued and for how many there was no place.
type Found = (Result<(), SessionError>, Transcript, (u64, u64));

/// What was found of a session.
fn found_of<R: Wait>(rest: &Rest<Probing<Telling<R>>>) -> Found {
    (rest.outcome, rest.transcript, rest.filesystem.probe.sent())
}

/// The first place at which what such a session sent is not the reply to the LOOKUP, and so many notices, whose handles are
/// their places: in this order, or in any.
fn other_than_news<R: AllocGlobal + Abort>(
    rt: &R,
    sent: &[Items<u8>],
    count: u8,
    is_ordered: bool,
) -> Option<usize> {
    let mut frames = vec![in rt.alloc(); Frame::Error(2, ENOSYS)].expect(rt, "there is memory");
    for handle in 0..count {
        let news = Frame::News([handle, 0]);
        frames.push(news).expect(rt, "there is memory");
    }
    let frames = after_init(rt, &frames);
    first_other(sent, &frames, if is_ordered { frames.len() } else { 1 })
}

/// One notice more is sent than the line of a session holds.
#[test]
fn the_notices_of_a_filesystem_follow_its_reply(rt: HostRuntime) {
    let rest = run_flooding(&rt, None, 65);
    let place = other_than_news(&rt, rest.sink.frames(), 64, true);
    let found = (found_of(&rest), place);
    drop(rest);
    expect_same(&rt, &found, &((Ok(()), counts(2, 2), (64, 1)), None));
}

#[test]
fn on_two_threads_the_notices_of_a_filesystem_are_sent(rt: HostRuntime) {
    let rest = run_flooding(&rt, Some(2), 3);
    let place = other_than_news(&rt, rest.sink.frames(), 3, false);
    let found = (found_of(&rest), place);
    drop(rest);
    expect_same(&rt, &found, &((Ok(()), counts(2, 2), (3, 0)), None));
}

/// A session for which a notice was queued before its run sends these frames, in this order, and ends so.
fn sends_what_was_queued<R: Threads + Wait + AllocGlobal + Abort + Send + Sync + Copy>(
    rt: &R,
    n_threads: Option<usize>,
    given: &[Given],
    frames: &[Frame],
    outcome: Result<(), SessionError>,
) {
    let probe = Telling::new(*rt, rt.alloc(), None);
    let source = source_after_init(rt, given);
    let rest = serve_with(rt, None, Probing { probe }, source, n_threads);
    let frames = after_init(rt, frames);
    let place = first_other(rest.sink.frames(), &frames, frames.len());
    expect_same(rt, &(rest.outcome, place), &(outcome, None));
    drop(rest);
}

/// Also where no reply goes out that they could follow.
#[test]
fn what_is_queued_before_a_run_is_sent(rt: HostRuntime) {
    for n_threads in [None, Some(2)] {
        sends_what_was_queued(&rt, n_threads, &[], &[Frame::News([7, 0])], Ok(()));
    }
}

/// On one thread, also after the reply to the message that ends the run, or after a header that is not good.
#[test]
fn what_is_queued_is_sent_at_the_end_too(rt: HostRuntime) {
    let destroy = [Given::Asked(2, 0, Asks(FUSE_DESTROY, 0, &[], b""))];
    let frames = [Frame::Payload(2, &[]), Frame::News([7, 0])];
    sends_what_was_queued(&rt, None, &destroy, &frames, Ok(()));
    let short = InvalidData::Header(RequestError::ShortReadHeader(20));
    let outcome = Err(SessionError::InvalidData(short));
    let frames = [Frame::News([7, 0])];
    sends_what_was_queued(&rt, None, &[Given::Bytes(&[20; 20])], &frames, outcome);
}
