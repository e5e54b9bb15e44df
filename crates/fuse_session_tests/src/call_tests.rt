// What reaches a filesystem of each message, and what the message gets where the filesystem wants nothing of its own.
use crate::asserts::expect_same;
use crate::calls::{Call, Row, argument_of, asker, id_at, message_of, sent_for, source_of_rows};
use crate::file_calls::{files, others};
use crate::node_calls::{inodes, names};
use crate::recording::{Recorded, Recording};
use bitflags::Flags;
use fuse_config::{Config, SessionACL};
use fuse_session::{Ended, mount};
use fuse_testing::Probing;
use fuse_wire::{InitFlags, MemorySink, MemorySource};
use std::process::Abort;
use std::sync::Wait;
use std::thread::Threads;

/// What was recorded is this call of this message, with this lowest byte of its id.
fn is_call(rt: &impl Abort, recorded: &Recorded, id: u8, message: &[u8], call: &Call) {
    let (method, arguments, texts) = call;
    let found = (recorded.method, recorded.asker, recorded.texts.as_slice());
    expect_same(rt, &found, &(*method, asker(id), *texts));
    expect_same(rt, &recorded.arguments.len(), &arguments.len());
    for (found, wanted) in recorded.arguments.iter().zip(arguments.iter()) {
        expect_same(
            rt,
            &(*method, *found),
            &(*method, argument_of(message, *wanted)),
        );
    }
}

/// What reached the filesystem is INIT, then what the rows say, in order, and then that the session is over.
fn reached<R: AllocGlobal + Abort>(rt: &R, recorded: &[Recorded], rows: &[Row]) {
    let asker = (0xdead_beef_baad_f00d, 0xc001_d00d, 0xc001_cafe, 0xc0de_ba5e);
    let init = recorded.first().expect(rt, "INIT");
    expect_same(rt, &(init.method, init.asker), &("init", asker));
    let mut next = 1usize;
    for (place, row) in rows.iter().enumerate() {
        let message = message_of(rt, row, id_at(place));
        for call in row.calls {
            is_call(
                rt,
                recorded.get(next).expect(rt, "a call"),
                id_at(place),
                &message,
                call,
            );
            next = next.saturating_add(1);
        }
    }
    let last = recorded.last().expect(rt, "the end");
    let found = (last.method, recorded.len());
    expect_same(rt, &found, &("destroy", next.saturating_add(1)));
}

/// The sink took the frames and the notes of INIT and these rows, and no other.
fn replied<R: AllocGlobal + Abort>(rt: &R, sink: &MemorySink, rows: &[Row]) {
    let (frames, notes) = sent_for(rt, rows);
    expect_same(rt, &sink.frames(), &frames.as_slice());
    expect_same(rt, &sink.notes(), &notes.as_slice());
}

/// What is left of a session.
type Over<R> = Ended<Probing<Recording<R>>, MemorySource, MemorySink>;

/// Serves these messages.
fn serve_rows<R: Threads + Wait + AllocGlobal + Abort + Send + Sync + Copy>(
    rt: &R,
    rows: &[Row],
) -> Over<R> {
    let alloc = rt.alloc();
    let source = source_of_rows(rt, rows);
    let sink = MemorySink::new(alloc, Vec::new(alloc));
    let probe = Recording::new(*rt, alloc, InitFlags::empty());
    let mut config = Config::new(alloc);
    config.acl = SessionACL::All;
    mount(rt, Probing { probe }, source, sink, 0, 4096, &config)
}

/// Serves these messages: they come to the calls and the replies that they say, and to no other.
fn comes_to<R: Threads + Wait + AllocGlobal + Abort + Send + Sync + Copy>(rt: &R, rows: &[Row]) {
    let over = serve_rows(rt, rows);
    let messages = rows.len().saturating_add(1) as u64;
    let found = (over.outcome, over.transcript.received);
    expect_same(rt, &found, &(Ok(()), messages));
    let recorded = over.filesystem.probe.take();
    reached(rt, recorded.as_slice(), rows);
    drop(recorded);
    replied(rt, &over.sink, rows);
    drop(over);
}

#[test]
fn what_is_asked_of_inodes_and_names_reaches_the_filesystem(rt: HostRuntime) {
    comes_to(&rt, inodes());
    comes_to(&rt, names());
}

#[test]
fn what_is_asked_of_open_files_reaches_the_filesystem(rt: HostRuntime) {
    comes_to(&rt, files());
    comes_to(&rt, others());
}
