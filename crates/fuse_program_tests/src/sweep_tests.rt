// A generated stream of five requests: each read of it, each write of its replies, and each write of the stream itself fails.
use crate::asserts::expect_same;
use crate::runs::{ends_so, run_over, words_for};
use crate::stream::{answers, ends, five_requests};
use std::process::Abort;
use std::sync::Wait;
use std::thread::Threads;

/// How many bytes are read at a time: each header, and each body.
const READ: &[usize] = &[40, 64, 40, 45, 40, 45, 40, 5, 40, 40, 40, 40, 40];

/// How many are written at a time: each header, and each payload.
const WRITTEN: &[usize] = &[16, 64, 16, 16, 16, 16, 59, 16, 100, 16];

/// At which byte each call begins, where pieces of these lengths are read or written in such steps, and where the last ends.
fn beginnings<R: AllocGlobal + Abort>(rt: &R, lengths: &[usize], step: usize) -> Vec<usize> {
    let mut beginnings = Vec::new(rt.alloc());
    let mut start: usize = 0;
    for length in lengths {
        for call in 0..length.div_ceil(step.max(1)) {
            let beginning = start.saturating_add(call.saturating_mul(step));
            beginnings.push(beginning).expect(rt, "there is memory");
        }
        start = start.saturating_add(*length);
    }
    beginnings.push(start).expect(rt, "there is memory");
    beginnings
}

/// How many bytes of replies are written for the messages that end at this byte of the stream or before it.
fn answered(byte: usize) -> usize {
    let mut count = 0;
    for (end, after) in ends() {
        if *end <= byte {
            count = *after;
        }
    }
    count
}

/// The whole frames that these bytes begin with, each of which is shorter than 256 bytes, and the bytes behind them.
pub(crate) fn frames_in<'a, R: AllocGlobal + Abort>(
    rt: &R,
    bytes: &'a [u8],
) -> (Vec<&'a [u8]>, &'a [u8]) {
    let mut frames = Vec::new(rt.alloc());
    let mut rest = bytes;
    for _ in ends() {
        let length = usize::from(*rest.first().unwrap_or(&255));
        let (Some(frame), Some(others)) = (rest.get(..length), rest.get(length..)) else {
            break;
        };
        frames.push(frame).expect(rt, "there is memory");
        rest = others;
    }
    (frames, rest)
}

/// How often this frame stands among these.
fn times(frames: &[&[u8]], frame: &[u8]) -> usize {
    let mut count: usize = 0;
    for other in frames {
        if *other == frame {
            count = count.saturating_add(1);
        }
    }
    count
}

/// These frames are so many of those, and none is there twice.
pub(crate) fn are_some(rt: &impl Abort, count: usize, found: &[&[u8]], all: &[&[u8]]) {
    expect_same(rt, &found.len(), &count);
    for frame in found {
        let counts = (times(found, frame), times(all, frame));
        expect_same(rt, &counts, &(1, 1));
    }
}

/// These bytes are those frames, which two threads may write in any order.
fn are_frames<R: AllocGlobal + Abort>(rt: &R, is_alone: bool, found: &[u8], expected: &[u8]) {
    if is_alone {
        expect_same(rt, &found, &expected);
    }
    let (frames, rest) = frames_in(rt, found);
    let (all, _) = frames_in(rt, expected);
    expect_same(rt, &rest.len(), &0);
    are_some(rt, all.len(), &frames, &all);
}

/// These bytes are some of those frames, and the front of another, unless they are all of them.
fn are_a_front<R: AllocGlobal + Abort>(rt: &R, is_whole: bool, found: &[u8], expected: &[u8]) {
    let (frames, begun) = frames_in(rt, found);
    let (all, _) = frames_in(rt, expected);
    are_some(rt, frames.len(), &frames, &all);
    let mut others: usize = 0;
    for frame in all.iter() {
        if frame.starts_with(begun) && times(&frames, frame) == 0 {
            others = others.saturating_add(1);
        }
    }
    let found = (others > 0, frames.len() == all.len());
    expect_same(rt, &found, &(!is_whole, is_whole));
}

/// The read of this number, which begins at this byte, fails: the messages that ended before are answered, and no more is
/// read. None fails where no byte is left.
fn read_fails<R: Threads + Wait + AllocGlobal + Abort + Sync>(
    rt: &R,
    is_alone: bool,
    step: usize,
    number: u64,
    byte: usize,
) {
    let words = words_for(is_alone);
    let run = run_over(rt, words, five_requests(rt), step, &[number], &[]);
    let left = 519usize.saturating_sub(byte);
    let status = if left > 0 { 7 } else { 0 };
    let found = (number, run.status, run.unread.len());
    expect_same(rt, &found, &(number, status, left));
    let replies = answers(rt);
    let before = replies.get(..answered(byte)).unwrap_or(b"too few");
    are_frames(rt, is_alone, &run.written, before);
}

/// The write of this number fails, which on one thread begins at this byte: what was written before stays, what comes after
/// it is lost, and all messages are taken. None fails where all was written.
fn write_fails<R: Threads + Wait + AllocGlobal + Abort + Sync>(
    rt: &R,
    is_alone: bool,
    step: usize,
    number: u64,
    byte: usize,
) {
    let words = words_for(is_alone);
    let run = run_over(rt, words, five_requests(rt), step, &[], &[number]);
    let replies = answers(rt);
    let is_whole = byte == 335;
    let status = if is_whole { 0 } else { 8 };
    let found = (number, run.status, run.unread.len());
    expect_same(rt, &found, &(number, status, 0));
    if is_alone {
        let before = replies.get(..byte).unwrap_or(b"too few");
        expect_same(rt, &run.written.as_slice(), &before);
    } else {
        are_a_front(rt, is_whole, &run.written, &replies);
    }
}

/// Whether one thread serves, how many bytes are read or written at a time, and how many reads and writes this makes.
const SWEEPS: &[(bool, usize, usize, usize)] = &[
    (true, 1, 519, 335),
    (true, 7, 79, 55),
    (true, 1000, 13, 10),
    (false, 7, 79, 55),
];

fn sweeps() -> &'static [(bool, usize, usize, usize)] {
    SWEEPS
}

#[test]
fn each_read_may_fail(rt: HostRuntime) {
    for (is_alone, step, count, _) in sweeps() {
        let bytes = beginnings(&rt, READ, *step);
        expect_same(&rt, &bytes.len(), &count.saturating_add(1));
        for (place, byte) in bytes.iter().enumerate() {
            let number = (place as u64).saturating_add(1);
            read_fails(&rt, *is_alone, *step, number, *byte);
        }
    }
}

#[test]
fn each_write_may_fail(rt: HostRuntime) {
    for (is_alone, step, _, count) in sweeps() {
        let bytes = beginnings(&rt, WRITTEN, *step);
        expect_same(&rt, &bytes.len(), &count.saturating_add(1));
        for (place, byte) in bytes.iter().enumerate() {
            let number = (place as u64).saturating_add(1);
            write_fails(&rt, *is_alone, *step, number, *byte);
        }
    }
}

/// How many bytes of the stream are written at a time, a write that fails, or 0, the status, and how many bytes stand before
/// it. At 1000 there is one write for each message. At 30 there are four for INIT, and the second of the three for the next
/// message fails.
const OF_THE_STREAM: &[(usize, u64, u8, usize)] = &[
    (1000, 1, 8, 0),
    (1000, 2, 8, 104),
    (1000, 3, 8, 189),
    (1000, 4, 8, 274),
    (1000, 5, 8, 319),
    (1000, 6, 8, 399),
    (1000, 7, 8, 479),
    (1000, 8, 0, 519),
    (30, 6, 8, 134),
    (1, 0, 0, 519),
    (7, 0, 0, 519),
];

/// The write of this number fails, or none for 0, where so many bytes of the stream are written at a time: this status, and
/// so many bytes. Nothing is read.
fn write_of_the_stream_fails<R: Threads + Wait + AllocGlobal + Abort + Sync>(
    rt: &R,
    step: usize,
    write: u64,
    status: u8,
    count: usize,
) {
    let input = b"input".to_vec(rt.alloc()).expect(rt, "there is memory");
    let run = run_over(rt, &[b"gen", b"1", b"5"], input, step, &[], &[write]);
    let stream = five_requests(rt);
    let front = stream.get(..count).unwrap_or(b"too few");
    ends_so(rt, ("gen", count), &run, status, front, b"input");
}

#[test]
fn each_write_of_the_stream_may_fail(rt: HostRuntime) {
    for (step, write, status, count) in OF_THE_STREAM {
        write_of_the_stream_fails(&rt, *step, *write, *status, *count);
    }
}
