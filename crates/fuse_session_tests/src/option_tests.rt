// Options that are refused before anything is taken, options that are not, and sessions over a device.
use crate::asserts::{expect_same, frames_of, source_of};
use crate::counting::{Counting, Course, counts, run, went};
use crate::ends::{End, outcome_of};
use fuse_config::{Config, MountOption, SessionACL};
use fuse_session::Session;
use fuse_testing::Probing;
use fuse_testing::test_messages::{EACCES, ENOENT, Frame, Given, LOOKUP, first_other};
use fuse_wire::{Items, MemorySink};
use std::process::Abort;
use std::sync::Wait;
use std::thread::Threads;

/// A session of an INIT, with these options and threads, of which each has a device of its own or not.
struct Row {
    /// What it shows.
    what: &'static str,
    options: &'static [&'static str],
    acl: SessionACL,
    n_threads: Option<usize>,
    clone_fd: bool,
    /// How many messages it takes.
    taken: u64,
    end: End,
}

const ROWS: &[Row] = &[
    Row {
        what: "two options conflict",
        options: &["ro", "dev", "nodev", "rw"],
        acl: SessionACL::All,
        n_threads: None,
        clone_fd: false,
        taken: 0,
        end: End::Conflict(0, 3),
    },
    Row {
        what: "a conflict comes before all else",
        options: &["ro", "auto_unmount", "dev", "rw"],
        acl: SessionACL::Owner,
        n_threads: Some(2),
        clone_fd: true,
        taken: 0,
        end: End::Conflict(0, 3),
    },
    Row {
        what: "the unmount is not for an owner, also where a device is asked for",
        options: &["sync", "auto_unmount"],
        acl: SessionACL::Owner,
        n_threads: Some(2),
        clone_fd: true,
        taken: 0,
        end: End::AutoUnmount,
    },
    Row {
        what: "no device is opened here",
        options: &["auto_unmount"],
        acl: SessionACL::All,
        n_threads: Some(usize::MAX),
        clone_fd: true,
        taken: 0,
        end: End::CloneFd,
    },
    Row {
        what: "an option of each kind, which agree",
        options: &[
            "ro", "nodev", "nosuid", "noexec", "noatime", "sync", "dirsync", "fsname=x",
        ],
        acl: SessionACL::Owner,
        n_threads: None,
        clone_fd: true,
        taken: 1,
        end: End::Fine,
    },
    Row {
        what: "the unmount, where others are served",
        options: &["auto_unmount"],
        acl: SessionACL::RootAndOwner,
        n_threads: Some(2),
        clone_fd: false,
        taken: 1,
        end: End::Fine,
    },
    Row {
        what: "one thread may have a device",
        options: &["dirsync"],
        acl: SessionACL::Owner,
        n_threads: Some(1),
        clone_fd: true,
        taken: 1,
        end: End::Fine,
    },
];

/// A configuration of these options and threads, of which each has a device of its own or not.
fn config_of<R: AllocGlobal + Abort>(
    rt: &R,
    texts: &[&str],
    acl: SessionACL,
    n_threads: Option<usize>,
    clone_fd: bool,
) -> Config {
    let mut options = Vec::new(rt.alloc());
    for text in texts {
        let option = MountOption::from_str(rt.alloc(), text).expect(rt, "there is memory");
        options.push(option).expect(rt, "there is memory");
    }
    Config {
        mount_options: Items::from_vec(options),
        acl,
        n_threads,
        clone_fd,
    }
}

/// Serves a session of this row.
fn goes<R: Threads + Wait + AllocGlobal + Abort + Sync>(rt: &R, row: &Row) {
    let config = config_of(rt, row.options, row.acl, row.n_threads, row.clone_fd);
    let sink = MemorySink::new(rt.alloc(), Vec::new(rt.alloc()));
    let (course, source, sink) = run(rt, source_of(rt, &[Given::Opening]), sink, &config);
    drop(source);
    drop(sink);
    let expected = Course {
        outcome: outcome_of(row.end),
        transcript: counts(row.taken, row.taken),
        calls: 0,
        destroyed: row.taken,
    };
    went(rt, row.what, &course, &expected);
}

#[test]
fn takes_nothing_with_options_that_are_refused_and_serves_with_others(rt: HostRuntime) {
    for row in ROWS {
        goes(&rt, row);
    }
}

/// Serves a LOOKUP of user 6 over a device of user 5 that serves these users, whatever the options, which conflict. It gets
/// this error.
fn serves_over_a_device<R: Threads + Wait + AllocGlobal + Abort + Sync>(
    rt: &R,
    acl: SessionACL,
    other: SessionACL,
    errno: u8,
) {
    let source = source_of(rt, &[Given::Opening, Given::Asked(2, 6, LOOKUP)]);
    let sink = MemorySink::new(rt.alloc(), Vec::new(rt.alloc()));
    let filesystem = Probing {
        probe: Counting::new(None),
    };
    let config = config_of(rt, &["ro", "rw", "auto_unmount"], other, None, true);
    let over = match Session::from_device(rt, filesystem, source, sink, acl, 5, 4096, config) {
        Ok(session) => session.run(rt),
        Err(over) => over,
    };
    let frames = frames_of(rt, &[Frame::Accepted, Frame::Error(2, errno)]);
    let other = first_other(over.sink.frames(), &frames, 2);
    let found = (over.outcome, over.transcript, other);
    drop(over);
    expect_same(rt, &found, &(Ok(()), counts(2, 2), None));
}

#[test]
fn a_device_serves_whom_its_own_rule_admits(rt: HostRuntime) {
    serves_over_a_device(&rt, SessionACL::Owner, SessionACL::All, EACCES);
    serves_over_a_device(&rt, SessionACL::All, SessionACL::Owner, ENOENT);
}
