//! Tests of `fuse_session`: what is sent after a method has returned, which is replies that come later, to every call, and
//! notices; and that two calls run at once. They stand apart from the code that they test, since the gate proves a crate
//! once more for the tests that stand in it, and that crate is long to prove.
#![tactic(auto)]

#[cfg(test)]
mod asserts;
#[cfg(test)]
mod deferring;
#[cfg(test)]
mod deferring_tests;
#[cfg(test)]
mod flooding_tests;
#[cfg(test)]
mod interrupt_tests;
#[cfg(test)]
mod interrupting;
#[cfg(test)]
mod notice_tests;
#[cfg(test)]
mod put_off_tests;
#[cfg(test)]
mod putting_off;
#[cfg(test)]
mod serving;
#[cfg(test)]
mod starved_tests;
#[cfg(test)]
mod telling;
#[cfg(test)]
mod worker_tests;
