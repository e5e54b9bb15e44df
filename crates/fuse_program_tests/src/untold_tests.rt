// Runs over devices of std, which tell nothing.
use crate::asserts::expect_same;
use crate::stream::five_requests;
use fuse_program::run;
use fuse_testing::test_messages::{ACCEPTED, INIT_7_8};
use std::process::Abort;
use std::sync::Wait;
use std::thread::Threads;

/// The program ends with this status, and writes these bytes.
fn expect_untold<R: Threads + Wait + AllocGlobal + Abort + Sync>(
    rt: &R,
    words: &[&[u8]],
    input: &[u8],
    status: u8,
    written: &[u8],
) {
    let mut output = Vec::new(rt.alloc());
    let found = run(rt, words, input, &mut output);
    expect_same(rt, &(found, output.as_slice()), &(status, written));
}

/// A session that ends well, one without a thread, one whose INIT is cut short, and words that are no form.
#[test]
fn devices_that_tell_nothing_are_served(rt: HostRuntime) {
    let form = [b"serve".as_slice(), b"1", b"all", b"0", b"4096"];
    let idle = [b"serve".as_slice(), b"0", b"all", b"0", b"4096"];
    let front = INIT_7_8.get(..40).unwrap_or(b"too few");
    expect_untold(&rt, &form, &INIT_7_8, 0, &ACCEPTED);
    expect_untold(&rt, &idle, &INIT_7_8, 10, &ACCEPTED);
    expect_untold(&rt, &form, front, 4, b"");
    expect_untold(&rt, &[b"serve"], &INIT_7_8, 2, b"");
}

#[test]
fn devices_that_tell_nothing_get_the_stream(rt: HostRuntime) {
    let stream = five_requests(&rt);
    expect_untold(&rt, &[b"gen", b"1", b"5"], b"input", 0, &stream);
}
