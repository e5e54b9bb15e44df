// The mark of a run's end.
use crate::asserts::expect_same;
use fuse_reply::EndMark;

/// Whether the mark can be shared.
fn is_shared(mark: &mut EndMark) -> bool {
    mark.share().is_ok()
}

#[test]
fn a_mark_is_shared_before_and_after_it_is_set(rt: HostRuntime) {
    let (mut mark, seal) = EndMark::new(rt.alloc()).expect(&rt, "there is memory");
    let mut share = mark.share().expect(&rt, "there is memory");
    mark.set(seal, u64::MAX);
    let shared = (is_shared(&mut mark), is_shared(&mut share));
    expect_same(&rt, &shared, &(true, true));
}
