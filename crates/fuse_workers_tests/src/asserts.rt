//! That what is found is what is expected: a call of these is cheaper to prove than the macro where it stands.
use std::fmt::Debug;
use std::process::Abort;

/// The two are equal.
pub(crate) fn expect_same<T: PartialEq + Debug>(rt: &impl Abort, found: &T, expected: &T) {
    assert_eq!(rt; *found, *expected);
}
