//! That what is found is what is expected: a call of this is cheaper to prove than the macro where it stands. And what
//! sessions are given and send, with ample memory.
use fuse_testing::test_messages;
use fuse_testing::test_messages::{Frame, Given};
use fuse_wire::{Items, MemorySource};
use std::fmt::Debug;
use std::process::Abort;

/// The two are equal. Each may begin with what tells the case.
pub(crate) fn expect_same<T: PartialEq + Debug>(rt: &impl Abort, found: &T, expected: &T) {
    assert_eq!(rt; *found, *expected);
}

/// A source that gives this.
pub(crate) fn source_of<R: AllocGlobal + Abort>(rt: &R, given: &[Given]) -> MemorySource {
    test_messages::source_of(rt.alloc(), given).expect(rt, "there is memory")
}

/// The bytes of these frames.
pub(crate) fn frames_of<R: AllocGlobal + Abort>(rt: &R, frames: &[Frame]) -> Vec<Items<u8>> {
    test_messages::frames_of(rt.alloc(), frames).expect(rt, "there is memory")
}
