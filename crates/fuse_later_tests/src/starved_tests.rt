// A method whose reply has no door for want of memory, without a session.
use crate::asserts::expect_same;
use crate::deferring::{Deferring, SOON, close, shared_shelf};
use crate::serving::taking;
use bitflags::Flags;
use fuse_config::SessionACL;
use fuse_dispatch::{AccessRule, Asking, Service, Shared, Terms};
use fuse_loop::{Buffers, Incoming, Work};
use fuse_notify::Notifier;
use fuse_reply::{NoDoor, OutEnd};
use fuse_testing::Probing;
use fuse_testing::test_messages::{EIO, Frame, Given, frames_of, message_of};
use fuse_wire::{InitFlags, MemorySink};
use std::process::Abort;
use std::sync::Wait;

/// What answers a lookup, where there was no memory for a door.
fn look_up_starved<R: Wait + AllocGlobal + Abort + Send + Sync + Copy>(
    rt: &R,
    work: &Shared<Asking<Probing<Deferring<R>>>>,
    notifier: &mut Notifier,
    sink: &mut MemorySink,
) -> Option<OutEnd> {
    let message = message_of(rt.alloc(), &Given::Lookup(2, SOON)).expect(rt, "there is memory");
    match Incoming::of(&message) {
        Incoming::Request => {
            let out = work.answer(rt, notifier, Err(NoDoor::Starved), 0, &message);
            Some(out.send(sink))
        }
        _ => None,
    }
}

/// Where no reply of a session comes later the same lookup is answered by ENOENT, and counted.
#[test]
fn a_method_learns_that_there_was_no_memory_for_a_door(rt: HostRuntime) {
    let shelf = shared_shelf(&rt, rt.alloc(), 0, 0).expect(&rt, "there is memory");
    let work = Shared {
        service: Service {
            handler: Asking {
                filesystem: Probing {
                    probe: Deferring { rt, shelf },
                },
            },
            terms: Terms {
                rule: AccessRule {
                    acl: SessionACL::All,
                    owner: 0,
                },
                granted: InitFlags::empty(),
            },
        },
    };
    let mut buffers = Buffers::new(rt.alloc()).expect(&rt, "there is memory");
    let mut notifier = buffers.notifier().expect(&rt, "there is memory");
    let mut sink = taking(&rt);
    let end = look_up_starved(&rt, &work, &mut notifier, &mut sink);
    let frames = frames_of(rt.alloc(), &[Frame::Error(2, EIO)]).expect(&rt, "there is memory");
    expect_same(&rt, &end, &Some(OutEnd::Written));
    expect_same(&rt, &sink.frames(), &frames.as_slice());
    let Shared { service } = work;
    let Service { handler, terms: _ } = service;
    let Deferring { rt: _, shelf } = handler.filesystem.probe;
    let tally = close(&rt, shelf);
    expect_same(&rt, &tally.map(|tally| tally.shut), &Some(0));
}
