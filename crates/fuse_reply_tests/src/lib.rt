//! The tests of `fuse_reply` and `fuse_notify`: the bytes of replies and notices of every kind, long ones, for which there is
//! memory, replies that come later, and notices that wait in a line.
#![tactic(auto)]

#[cfg(test)]
mod answer_tests;
#[cfg(test)]
mod asserts;
#[cfg(test)]
mod deferral_tests;
#[cfg(test)]
mod directory_tests;
#[cfg(test)]
mod end_mark_tests;
#[cfg(test)]
mod frames;
#[cfg(test)]
mod long_tests;
#[cfg(test)]
mod notice_tests;
