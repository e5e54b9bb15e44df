// A generated stream of five requests from memory to memory: at each place of it the source has nothing yet, or fails, and each
// frame is refused by the sink.
ghost use Rattle.std.specs.Prelude.{◌≡◌, ◌⊎◌};
ghost use Rattle.fuse_wire.specs.declared.sink.Sending.TheVariants.{Absent, Failed};

use crate::asserts::expect_same;
use crate::stream::{answers, ends, five_requests};
use crate::sweep_tests::are_some;
use fuse_config::{Config, SessionACL};
use fuse_hello::Hello;
use fuse_session::{SessionError, mount};
use fuse_wire::{Items, MemorySink, MemorySource, Sending, Turn};
use std::alloc::Global;
use std::process::Abort;
use std::sync::Wait;
use std::thread::Threads;

/// What is amiss.
#[derive(Clone, Copy, Debug, PartialEq)]
enum Amiss {
    /// The source has nothing yet before the message at this place.
    Waits(usize),
    /// It fails there.
    Fails(usize),
    /// The frame of this place has no receiver.
    IsAbsent(usize),
    /// It is not taken.
    IsRefused(usize),
}

/// The part of these bytes from one place to the other.
fn part(bytes: &[u8], from: usize, to: usize) -> &[u8] {
    bytes.get(from..to).unwrap_or(b"too few")
}

/// The messages, with what is amiss of them.
fn turns_of<R: AllocGlobal + Abort>(rt: &R, amiss: Amiss) -> Vec<Turn> {
    let stream = five_requests(rt);
    let mut turns = Vec::new(rt.alloc());
    let mut start = 0;
    for (place, (end, _)) in ends().iter().enumerate() {
        put_fault(rt, &mut turns, amiss, place);
        let message = part(&stream, start, *end).to_vec(rt.alloc());
        let message = Items::from_vec(message.expect(rt, "there is memory"));
        turns
            .push(Turn::Message(message))
            .expect(rt, "there is memory");
        start = *end;
    }
    put_fault(rt, &mut turns, amiss, ends().len());
    turns
}

/// Puts the turn that comes before the message at this place, where one does.
fn put_fault(rt: &impl Abort, turns: &mut Vec<Turn>, amiss: Amiss, place: usize) {
    let turn = match amiss {
        Amiss::Waits(at) if at == place => Turn::Retry,
        Amiss::Fails(at) if at == place => Turn::Fail,
        _ => return,
    };
    turns.push(turn).expect(rt, "there is memory");
}

/// A sink that answers the frame at this place so.
fn refusing<R: AllocGlobal + Abort>(rt: &R, place: usize, fault: Sending) -> MemorySink
    requires { fault ≡ Failed ⊎ fault ≡ Absent }
{
    let alloc = rt.alloc();
    let number = (place as u64).saturating_add(1);
    let faults = vec![in alloc; (number, fault)].expect(rt, "there is memory");
    MemorySink::new(alloc, faults)
}

/// The sink, with what is amiss of it.
fn sink_of<R: AllocGlobal + Abort>(rt: &R, amiss: Amiss) -> MemorySink {
    match amiss {
        Amiss::IsAbsent(place) => refusing(rt, place, Sending::Absent),
        Amiss::IsRefused(place) => refusing(rt, place, Sending::Failed),
        _ => MemorySink::new(rt.alloc(), Vec::new(rt.alloc())),
    }
}

/// Whether the frame at this place is taken.
fn is_taken(amiss: Amiss, place: usize) -> bool {
    match amiss {
        Amiss::Waits(_) => true,
        Amiss::Fails(at) => place < at,
        Amiss::IsAbsent(at) | Amiss::IsRefused(at) => place != at,
    }
}

/// The replies, or those of them that are taken.
fn replies<'a, R: AllocGlobal + Abort>(
    rt: &R,
    bytes: &'a [u8],
    amiss: Option<Amiss>,
) -> Vec<&'a [u8]> {
    let mut frames = Vec::new(rt.alloc());
    let mut start = 0;
    for (place, (_, end)) in ends().iter().enumerate() {
        if amiss.is_none_or(|amiss| is_taken(amiss, place)) {
            let frame = part(bytes, start, *end);
            frames.push(frame).expect(rt, "there is memory");
        }
        start = *end;
    }
    frames
}

/// The bytes of these frames, each after the other's.
pub(crate) fn bytes_of<'a>(
    rt: &impl Abort,
    alloc: Global,
    frames: &'a [Items<u8>],
) -> Vec<&'a [u8]> {
    let mut all = Vec::new(alloc);
    for frame in frames {
        all.push(frame.as_slice()).expect(rt, "there is memory");
    }
    all
}

/// How the session ends, how many messages it takes, and how many frames it loses.
fn ending(amiss: Amiss) -> (Result<(), SessionError>, u64, u64) {
    match amiss {
        Amiss::Waits(_) => (Ok(()), 7, 0),
        Amiss::Fails(place) if place < 7 => (Err(SessionError::Receive), place as u64, 0),
        Amiss::Fails(_) => (Ok(()), 7, 0),
        Amiss::IsAbsent(_) | Amiss::IsRefused(_) => (Ok(()), 7, 1),
    }
}

/// Serves the stream on so many threads: the messages before a fault of the source are answered, and the frames that are taken
/// are those of all others. On several threads the frame that is refused may be any.
fn goes<R: Threads + Wait + AllocGlobal + Abort + Sync>(rt: &R, amiss: Amiss, n_threads: usize) {
    let mut config = Config::new(rt.alloc());
    config.acl = SessionACL::All;
    config.n_threads = Some(n_threads);
    let source = MemorySource::new(turns_of(rt, amiss));
    let over = mount(rt, Hello, source, sink_of(rt, amiss), 0, 4096, &config);
    let counts = (over.transcript.received, over.transcript.lost);
    let (outcome, received, lost) = ending(amiss);
    let found = (amiss, over.outcome, counts);
    expect_same(rt, &found, &(amiss, outcome, (received, lost)));
    let bytes = answers(rt);
    took(rt, amiss, n_threads == 1, over.sink.frames(), &bytes);
    drop(over);
}

/// The sink took the replies that it is to take of all these bytes, on one thread in their order.
fn took<R: AllocGlobal + Abort>(
    rt: &R,
    amiss: Amiss,
    is_alone: bool,
    frames: &[Items<u8>],
    bytes: &[u8],
) {
    let sent = bytes_of(rt, rt.alloc(), frames);
    let taken = replies(rt, bytes, Some(amiss));
    if is_alone {
        expect_same(rt, &(amiss, sent.as_slice()), &(amiss, taken.as_slice()));
    }
    are_some(rt, taken.len(), &sent, &replies(rt, bytes, None));
}

/// What is amiss at this place.
fn all_at(place: usize) -> [Amiss; 4] {
    [
        Amiss::Waits(place),
        Amiss::Fails(place),
        Amiss::IsAbsent(place),
        Amiss::IsRefused(place),
    ]
}

#[test]
fn each_message_may_be_late_or_missing_and_each_frame_refused(rt: HostRuntime) {
    for place in 0..7 {
        for amiss in all_at(place) {
            goes(&rt, amiss, 1);
            goes(&rt, amiss, 2);
        }
    }
    for n_threads in 1..3 {
        goes(&rt, Amiss::Waits(7), n_threads);
        goes(&rt, Amiss::Fails(7), n_threads);
    }
}
