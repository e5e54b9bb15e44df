// Runs over memory by a work that answers at once.
ghost use Rattle.std.specs.Prelude.{◌≡◌, length};
ghost use Rattle.fuse_wire.specs.MemorySink.{EachFails, NumbersDiffer};
ghost use Rattle.fuse_wire.specs.declared.consts.TheConstants.{BUFFER_SIZE};

use crate::asserts::expect_same;
use crate::devices::new_counter;
use crate::frames::{Said, bits_below, replied_id};
use crate::runs::{Became, WORKERS, are_whole, counts, ended, outcome_of, run_on};
use crate::turns::{Piece, source_of};
use crate::works::{Answering, Hold};
use fuse_wire::{
    Items, MemorySink, MemorySource, Received, Sending, Source, consts, receive_buffer, u64_at,
};
use fuse_workers::{Buffers, RunEnd};
use std::process::Abort;
use std::sync::Wait;
use std::thread::Threads;

/// The sends that fail in a case, of those of ten replies and DESTROY's. The last case has one that never comes.
fn faults_of(case: usize) -> &'static [(u64, Sending)]
    ensures differ { NumbersDiffer result.now }
    ensures fail { EachFails result.now }
{
    use Sending::{Absent, Failed};
    match case {
        0 => &[],
        1 => &[(1, Absent)],
        2 => &[(6, Failed)],
        3 => &[(11, Absent)],
        4 => &[(1, Failed), (2, Absent), (7, Failed)],
        5 => &[(5, Absent), (6, Absent), (10, Failed), (11, Failed)],
        _ => &[(12, Failed)],
    }
}

/// A sink in which the sends of this case fail.
fn sink_of<R: AllocGlobal + Abort>(rt: &R, case: usize) -> MemorySink {
    let faults = faults_of(case).to_vec(rt.alloc());
    MemorySink::new(rt.alloc(), faults.expect(rt, "there is memory"))
}

/// The id that the last frame replies to.
fn last_replied(frames: &[Items<u8>]) -> Option<u64> {
    match frames.last() {
        Some(frame) => replied_id(frame.as_slice()),
        None => None,
    }
}

/// What became of a run, how often its work was called, the id of the last reply, and the source.
#[derive(Drop)]
struct Done {
    became: Became,
    calls: u64,
    last: Option<u64>,
    source: MemorySource,
}

/// Runs these turns on so many workers, or on the thread of their caller. Nobody else has a share of the run's lines
/// then.
fn run_turns<R: Threads + Wait + AllocGlobal + Abort + Sync>(
    rt: &R,
    turns: &[Piece],
    hold: Hold,
    faults: usize,
    workers: Option<usize>,
) -> Done {
    let buffers = Buffers::new(rt.alloc()).expect(rt, "there is memory");
    let work = Answering::new(hold, new_counter(rt));
    let (source, sink) = (source_of(rt, turns), sink_of(rt, faults));
    let RunEnd {
        end,
        transcript,
        source,
        sink,
        buffers,
    } = run_on(rt, &work, workers, source, sink, buffers);
    expect_same(rt, &are_whole(buffers), &true);
    let became = outcome_of(rt, &end, transcript, sink.frames());
    let last = last_replied(sink.frames());
    drop(sink);
    Done {
        became,
        calls: work.calls(),
        last,
        source,
    }
}

/// On so many workers this becomes of a run whose sink takes everything, and its work is called so often. This is the id
/// of the last reply.
fn expect_answered<R: Threads + Wait + AllocGlobal + Abort + Sync>(
    rt: &R,
    turns: &[Piece],
    hold: Hold,
    workers: Option<usize>,
    became: Became,
    calls: u64,
) -> Option<u64> {
    let done = run_turns(rt, turns, hold, 0, workers);
    let found = (workers, done.became, done.calls);
    expect_same(rt, &found, &(workers, became, calls));
    done.last
}

/// The turns of a run, on how many workers it is tried, how it ends, as a letter, how many messages are taken, how many of
/// them have a reply, and how often the work is called. Turns that give nothing change nothing.
type Row = (
    &'static [Piece],
    &'static [Option<usize>],
    u8,
    u64,
    u64,
    u64,
);

const ANSWERED: &[Row] = &[
    (
        &[Piece::Requests(0, 100)],
        &[None, Some(0), Some(1), Some(3), Some(64)],
        b'g',
        100,
        100,
        100,
    ),
    (
        &[Piece::Requests(0, 100_000)],
        &[Some(8)],
        b'g',
        100_000,
        100_000,
        100_000,
    ),
    (
        &[Piece::Requests(0, 10), Piece::Destroy(10)],
        WORKERS,
        b'd',
        11,
        11,
        10,
    ),
    (
        &[Piece::Requests(0, 10), Piece::Short],
        WORKERS,
        b'b',
        11,
        10,
        10,
    ),
    (&[Piece::Apart(10, 1)], WORKERS, b'g', 10, 10, 10),
    (&[Piece::Apart(3, 100_000)], WORKERS, b'g', 3, 3, 3),
];

#[test]
fn each_message_is_answered_and_the_last_turn_ends_the_run(rt: HostRuntime) {
    for (turns, workers, end, received, replied, calls) in ANSWERED {
        let became = ended(*end, *received, *replied);
        for workers in *workers {
            let _ = expect_answered(&rt, turns, Hold::No, *workers, became, *calls);
        }
    }
}

/// How many messages DESTROY comes after, and on how many workers.
const BEFORE_DESTROY: &[(u64, usize)] = &[(8, 1), (8, 4), (8, 8), (100, 4), (100, 8)];

/// The reply to DESTROY is the last of so many and its own, on so many workers.
fn expect_destroyed<R: Threads + Wait + AllocGlobal + Abort + Sync>(
    rt: &R,
    count: u64,
    workers: usize,
) {
    let turns = [Piece::Requests(0, count), Piece::Destroy(count)];
    let all = count.saturating_add(1);
    let became = ended(b'd', all, all);
    let last = expect_answered(rt, &turns, Hold::ById, Some(workers), became, count);
    expect_same(rt, &last, &Some(count));
}

#[test]
fn the_reply_to_destroy_is_the_last(rt: HostRuntime) {
    for (count, workers) in BEFORE_DESTROY {
        for _round in 0..20 {
            expect_destroyed(&rt, *count, *workers);
        }
    }
}

/// Messages, how their answers are held, how many workers are asked for, of which 64 are started at most, and how many
/// messages there are.
const AT_ONCE: &[(Piece, Hold, usize, u64)] = &[
    (Piece::Requests(0, 2), Hold::UntilCalled(2), 2, 2),
    (Piece::Requests(0, 3), Hold::UntilCalled(3), 3, 3),
    (Piece::Requests(0, 8), Hold::UntilCalled(8), 8, 8),
    (Piece::Requests(0, 64), Hold::UntilCalled(64), 64, 64),
    (
        Piece::Requests(0, 64),
        Hold::UntilCalled(64),
        usize::MAX,
        64,
    ),
    // One worker has the first call; the caller answers none before the line of jobs is full.
    (Piece::Requests(0, 100), Hold::UntilCalled(2), 1, 100),
    // So they do where a message is longer than a place of the line of jobs, up to the longest that can be received.
    (Piece::Long(0, 3, 200), Hold::UntilCalled(3), 3, 3),
    (Piece::Long(0, 3, 100_000), Hold::UntilCalled(3), 3, 3),
    (
        Piece::Long(0, 3, consts::BUFFER_SIZE as u32),
        Hold::UntilCalled(3),
        3,
        3,
    ),
    // They do so to the end of a long run.
    (Piece::Requests(0, 4000), Hold::InPairs, 2, 4000),
];

/// Each of so many messages has one call and one frame.
fn expect_at_once<R: Threads + Wait + AllocGlobal + Abort + Sync>(
    rt: &R,
    turns: Piece,
    hold: Hold,
    workers: usize,
    count: u64,
) {
    let became = ended(b'g', count, count);
    let _ = expect_answered(rt, &[turns], hold, Some(workers), became, count);
}

#[test]
fn as_many_answer_at_once_as_workers_are_asked_for(rt: HostRuntime) {
    for (turns, hold, workers, count) in AT_ONCE {
        expect_at_once(&rt, *turns, *hold, *workers, *count);
    }
}

/// How many messages come before DESTROY, the case of what the sink refuses, and the bits of the ids whose replies are
/// lost. What comes after a refused send is sent, and more than both lines hold.
const LOST: &[(u64, usize, u64)] = &[
    (10, 1, 0b1),
    (10, 2, 0b10_0000),
    (10, 3, 0b100_0000_0000),
    (10, 4, 0b100_0011),
    (10, 5, 0b110_0011_0000),
    (10, 6, 0),
    (1000, 1, 0b1),
];

/// On so many workers these replies are lost. Four answer in any order, so that of all but DESTROY it is not known which are;
/// nor is it where the line of jobs may be full, so that the caller answers too.
fn expect_lost<R: Threads + Wait + AllocGlobal + Abort + Sync>(
    rt: &R,
    workers: Option<usize>,
    count: u64,
    case: usize,
    bits: u64,
) {
    let all = count.saturating_add(1);
    let known = match workers {
        _ if count > 64 => 0,
        Some(4) => bits_below(all) & !bits_below(count),
        _ => u64::MAX,
    };
    let turns = [Piece::Requests(0, count), Piece::Destroy(count)];
    let mut done = run_turns(rt, &turns, Hold::No, case, workers);
    done.became.said.first &= known;
    let lost = u64::from(bits.count_ones());
    let replied = all.saturating_sub(lost);
    let became = Became {
        end: b'd',
        transcript: counts(all, replied, lost),
        said: Said {
            replied,
            first: bits_below(all) & !bits & known,
            other: 0,
        },
    };
    let found = (workers, case, done.became, done.calls);
    expect_same(rt, &found, &(workers, case, became, count));
}

#[test]
fn a_reply_that_the_sink_refuses_is_lost_and_no_other(rt: HostRuntime) {
    for workers in WORKERS {
        for (count, case, bits) in LOST {
            expect_lost(&rt, *workers, *count, *case, *bits);
        }
    }
}

/// Whether the next message of a source has this id. It is received into the buffer.
fn gives(source: &mut MemorySource, buffer: &mut [u8], id: u64) -> bool
    requires { length buffer.old ≡ BUFFER_SIZE }
    ensures { length buffer.new ≡ BUFFER_SIZE }
{
    match source.receive(buffer) {
        Received::Message(_) => u64_at(buffer, 8) == id,
        _ => false,
    }
}

/// Whether the messages that a source still holds are those of so many ids from this one on.
fn holds_from(source: &mut MemorySource, buffer: &mut [u8], first: u64, count: u64) -> bool
    requires { length buffer.old ≡ BUFFER_SIZE }
    ensures { length buffer.new ≡ BUFFER_SIZE }
{
    for id in first..first.saturating_add(count) {
        if !gives(source, buffer, id) {
            return false;
        }
    }
    source.receive(buffer) == Received::Gone
}

/// A source that fails before the message of this id, of ten, ends the run there, on so many workers. The messages from it
/// on are left.
fn expect_fault<R: Threads + Wait + AllocGlobal + Abort + Sync>(
    rt: &R,
    workers: Option<usize>,
    place: u64,
) {
    let turns = [
        Piece::Requests(0, place),
        Piece::Fault,
        Piece::Requests(place, 10),
    ];
    let mut done = run_turns(rt, &turns, Hold::No, 0, workers);
    let mut buffer = receive_buffer(rt.alloc()).expect(rt, "there is memory");
    let left = 10_u64.saturating_sub(place);
    let are_left = holds_from(&mut done.source, &mut buffer, place, left);
    expect_same(
        rt,
        &(workers, done.became, done.calls, are_left),
        &(workers, ended(b'f', place, place), place, true),
    );
}

#[test]
fn what_comes_after_a_fault_of_the_source_is_not_taken(rt: HostRuntime) {
    for workers in WORKERS {
        for place in 0..=10 {
            expect_fault(&rt, *workers, place);
        }
    }
}
