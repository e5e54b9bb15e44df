// Whole sessions as plain data, and what serves them.
ghost use Rattle.std.specs.Prelude.{◌<◌};

use crate::asserts::{expect_same, frames_of, source_of};
use crate::counting::{Counting, Course, counts, run, run_with, went};
use crate::ends::{End, outcome_of};
use fuse_config::{Config, SessionACL};
use fuse_testing::test_messages::{Frame, Given, first_other};
use fuse_wire::{MemorySink, MemorySource, Received, RequestId, Sending, Source, receive_buffer};
use std::process::Abort;
use std::sync::Wait;
use std::thread::Threads;

/// What is looked at of the source and the sink of a session.
#[derive(Clone, Copy)]
pub(crate) enum Devices {
    /// What the sink takes.
    Plain,
    /// The same, where the second frame fails.
    Failing,
    /// What the sink takes, and that the source still holds this message then, and no other.
    Holding(&'static [u8]),
}

/// A session of root, with pages of 4096 bytes: what it is given, what it sends, and how it ends.
pub(crate) struct Row {
    /// What it shows.
    pub(crate) what: &'static str,
    /// Whose requests it serves.
    pub(crate) acl: SessionACL,
    /// On how many threads it is served, one time after the other.
    pub(crate) threads: &'static [Option<usize>],
    pub(crate) devices: Devices,
    pub(crate) given: &'static [Given],
    pub(crate) frames: &'static [Frame],
    pub(crate) notes: &'static [(RequestId, u64)],
    /// How many messages it takes.
    pub(crate) received: u64,
    /// How many frames and notes it loses.
    pub(crate) lost: u64,
    /// How often it calls its filesystem.
    pub(crate) calls: u64,
    pub(crate) end: End,
}

/// A session of its owner alone that is given nothing, on one thread as by default, and then on two.
pub(crate) const BASE: Row = Row {
    what: "",
    acl: SessionACL::Owner,
    threads: &[None, Some(2)],
    devices: Devices::Plain,
    given: &[],
    frames: &[],
    notes: &[],
    received: 0,
    lost: 0,
    calls: 0,
    end: End::Fine,
};

/// How a session of this row goes.
fn course_of(row: &Row) -> Course {
    let mut transcript = counts(row.received, row.frames.len() as u64);
    transcript.notes = row.notes.len() as u64;
    transcript.lost = row.lost;
    Course {
        outcome: outcome_of(row.end),
        transcript,
        calls: row.calls,
        destroyed: 1,
    }
}

/// How many frames are sent in their order: on one thread all, else those of the handshake.
fn ordered(frames: &[Frame], is_alone: bool) -> usize {
    if !is_alone {
        for (place, frame) in frames.iter().enumerate() {
            if let Frame::Accepted = frame {
                return place.saturating_add(1);
            }
        }
    }
    frames.len()
}

/// The sink took the frames and the notes of this row, and no other.
fn took<R: AllocGlobal + Abort>(rt: &R, row: &Row, sink: &MemorySink, is_alone: bool) {
    let frames = frames_of(rt, row.frames);
    let first_notes = if is_alone { row.notes.len() } else { 0 };
    let found = (
        first_other(sink.frames(), &frames, ordered(row.frames, is_alone)),
        first_other(sink.notes(), row.notes, first_notes),
    );
    expect_same(rt, &(row.what, found), &(row.what, (None, None)));
}

/// A sink whose second frame fails.
fn failing<R: AllocGlobal + Abort>(rt: &R) -> MemorySink {
    let alloc = rt.alloc();
    let faults = vec![in alloc; (2, Sending::Failed)].expect(rt, "there is memory");
    MemorySink::new(alloc, faults)
}

/// The sink of these devices.
fn sink_of<R: AllocGlobal + Abort>(rt: &R, devices: Devices) -> MemorySink {
    let alloc = rt.alloc();
    match devices {
        Devices::Failing => failing(rt),
        _ => MemorySink::new(alloc, Vec::new(alloc)),
    }
}

/// The source still holds this message, and no other.
fn still_holds<R: AllocGlobal + Abort>(rt: &R, source: &mut MemorySource, message: &[u8]) {
    let mut buffer = receive_buffer(rt.alloc()).expect(rt, "there is memory");
    let received = source.receive(&mut buffer);
    let found = (received, buffer.as_slice().starts_with(message));
    expect_same(rt, &found, &(Received::Message(message.len()), true));
    expect_same(rt, &source.receive(&mut buffer), &Received::Gone);
}

/// Serves a session of this row on so many threads: it goes as the row says.
fn serves<R: Threads + Wait + AllocGlobal + Abort + Sync>(
    rt: &R,
    row: &Row,
    n_threads: Option<usize>,
) {
    let mut config = Config::new(rt.alloc());
    config.acl = row.acl;
    config.n_threads = n_threads;
    let sink = sink_of(rt, row.devices);
    let (course, mut source, sink) = run(rt, source_of(rt, row.given), sink, &config);
    drop(config);
    went(rt, row.what, &course, &course_of(row));
    took(rt, row, &sink, n_threads.unwrap_or(1) < 2);
    drop(sink);
    if let Devices::Holding(message) = row.devices {
        still_holds(rt, &mut source, message);
    }
    drop(source);
}

/// Serves the sessions of these rows.
pub(crate) fn serve_all<R: Threads + Wait + AllocGlobal + Abort + Sync>(rt: &R, rows: &[Row]) {
    for row in rows {
        for n_threads in row.threads {
            serves(rt, row, *n_threads);
        }
    }
}

/// Serves this filesystem in a session of this owner, with pages of this size, that serves these users on so many
/// threads: how it went, and the sink.
pub(crate) fn serve<R: Threads + Wait + AllocGlobal + Abort + Sync>(
    rt: &R,
    counting: Counting,
    given: &[Given],
    owner: u32,
    page_size: u32,
    served: (SessionACL, Option<usize>),
) -> (Course, MemorySink)
    requires { 0 < page_size }
{
    let alloc = rt.alloc();
    let mut config = Config::new(alloc);
    (config.acl, config.n_threads) = served;
    let source = source_of(rt, given);
    let sink = MemorySink::new(alloc, Vec::new(alloc));
    let (course, source, sink) = run_with(rt, counting, source, sink, owner, page_size, &config);
    drop(source);
    (course, sink)
}
