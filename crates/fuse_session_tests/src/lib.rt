//! Tests of `fuse_session`: whole sessions from memory to memory, of a filesystem that counts its calls or records them:
//! how they are opened, configured, run and ended, here and in the background, and what reaches a filesystem of each
//! message. They stand apart from the code that they test, since the gate proves a crate once more for the tests that
//! stand in it, and that crate is long to prove.
#![tactic(auto)]

#[cfg(test)]
mod asserts;
#[cfg(test)]
mod call_tests;
#[cfg(test)]
mod calls;
#[cfg(test)]
mod counting;
#[cfg(test)]
mod ends;
#[cfg(test)]
mod fault_tests;
#[cfg(test)]
mod file_calls;
#[cfg(test)]
mod node_calls;
#[cfg(test)]
mod option_tests;
#[cfg(test)]
mod order_tests;
#[cfg(test)]
mod recording;
#[cfg(test)]
mod rows;
#[cfg(test)]
mod session_tests;
#[cfg(test)]
mod setxattr_tests;
#[cfg(test)]
mod spawn_tests;
#[cfg(test)]
mod verdict_tests;
