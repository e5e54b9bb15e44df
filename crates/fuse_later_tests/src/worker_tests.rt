// Sessions on several threads.
use crate::asserts::expect_same;
use crate::serving::{after_init, counts, serve, source_after_init, taking};
use crate::telling::Telling;
use fuse_testing::Probing;
use fuse_testing::test_messages::{ENOENT, Frame, Given, first_other};

#[test]
fn two_calls_at_once(rt: HostRuntime) {
    let probe = Telling::new(rt, rt.alloc(), None);
    let source = source_after_init(&rt, &[Given::Lookup(2, b'a'), Given::Lookup(3, b'b')]);
    let rest = serve(&rt, Probing { probe }, source, taking(&rt), Some(2));
    let frames = after_init(&rt, &[Frame::Error(2, ENOENT), Frame::Error(3, ENOENT)]);
    let other = first_other(rest.sink.frames(), &frames, 1);
    let found = (rest.outcome, rest.transcript, other);
    drop(rest);
    expect_same(&rt, &found, &(Ok(()), counts(3, 3), None));
}
