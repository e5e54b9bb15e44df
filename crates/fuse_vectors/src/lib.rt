//! The protocol's bytes: a table of vectors with its runner, and tests of the crates that read and write them
//! (`fuse_wire` to `fuse_config`): names and numbers, messages and their arguments, devices, INIT, and what a session is
//! set up with. They show what no clause of those crates says.
#![tactic(auto)]

#[cfg(test)]
mod argument_tests;
#[cfg(test)]
mod asserts;
#[cfg(test)]
mod device_tests;
#[cfg(test)]
mod init_tests;
#[cfg(test)]
mod name_tests;
#[cfg(test)]
mod number_tests;
#[cfg(test)]
mod option_tests;
#[cfg(test)]
mod request_tests;
#[cfg(test)]
mod runner;
#[cfg(test)]
mod setter_tests;
#[cfg(test)]
mod source_tests;
#[cfg(test)]
mod std_device_tests;
#[cfg(test)]
mod trait_tests;
#[cfg(test)]
mod vectors;
