//! The tests of `fuse_core`, `fuse_loop` and `fuse_workers`: which events may happen, marks and late frames in every order,
//! and runs over memory on any number of threads, with works that count what they answer, hold an answer, put it off, or
//! tell polls, and with devices that fail or wait.
#![tactic(auto)]

#[cfg(test)]
mod asserts;
#[cfg(test)]
mod book_tests;
#[cfg(test)]
mod core_tests;
#[cfg(test)]
mod deferred_tests;
#[cfg(test)]
mod deferring;
#[cfg(test)]
mod devices;
#[cfg(test)]
mod frames;
#[cfg(test)]
mod notice_tests;
#[cfg(test)]
mod run_tests;
#[cfg(test)]
mod runs;
#[cfg(test)]
mod start_tests;
#[cfg(test)]
mod starts;
#[cfg(test)]
mod telling;
#[cfg(test)]
mod turns;
#[cfg(test)]
mod waiting_tests;
#[cfg(test)]
mod works;
