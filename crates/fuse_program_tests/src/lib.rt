//! The tests of `fuse_program` and of the tree that it serves, where bytes in and bytes out of the built program do not show
//! it: inputs and outputs that fail at a read or a write, what is handed back, devices of std, words, notes of the tree, and
//! what a kernel sends that is wrong or at the edge of it.
//! What the built program shows is in `checks/statuses`. They stand apart from the code that they test, since the gate proves
//! a crate once more for the tests in it.
#![tactic(auto)]

#[cfg(test)]
mod arguments_tests;
#[cfg(test)]
mod asserts;
#[cfg(test)]
mod background_tests;
#[cfg(test)]
mod bad_input_tests;
#[cfg(test)]
mod device_tests;
#[cfg(test)]
mod fault_tests;
#[cfg(test)]
mod load_tests;
#[cfg(test)]
mod runs;
#[cfg(test)]
mod stream;
#[cfg(test)]
mod sweep_tests;
#[cfg(test)]
mod untold_tests;
