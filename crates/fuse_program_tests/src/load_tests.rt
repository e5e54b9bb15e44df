// What `load` counts.
use crate::asserts::expect_same;
use fuse_hello::{FrameStore, Summary};
use fuse_wire::{Noting, RequestId, Sending, Sink};

/// A reply of two bytes, an error, a notice that a poll is to be told (status 1), and a note.
#[test]
fn notices_are_taken_and_not_counted(rt: HostRuntime) {
    let mut store = FrameStore::with_room(rt.alloc(), 100);
    let reply = b"\x12\0\0\0\0\0\0\0\x02\0\0\0\0\0\0\0";
    let error = b"\x10\0\0\0\xfe\xff\xff\xff\x03\0\0\0\0\0\0\0";
    let notice = b"\x18\0\0\0\x01\0\0\0\0\0\0\0\0\0\0\0";
    let sent = [
        store.send(reply, b"ab"),
        store.send(error, b""),
        store.send(notice, &[0; 8]),
    ];
    let noted = store.note(RequestId(4), 1);
    expect_same(&rt, &(sent, noted), &([Sending::Sent; 3], Noting::Sent));
    let expected = Summary {
        messages: 9,
        frames: 2,
        notes: 1,
        errors: 1,
        bytes: 34,
    };
    expect_same(&rt, &(store.summary(9), store.starved()), &(expected, 0));
}
