//! The tests of `uses`, `locks`, `templates` and `fuse_read_only`: sessions of the one file, of the notepad, of the one lock,
//! of a blank, of a layer, of a small tree and of a wide one, from memory to memory.
#![tactic(auto)]

#[cfg(test)]
mod asserts;
#[cfg(test)]
mod blank_tests;
#[cfg(test)]
mod interrupt_tests;
#[cfg(test)]
mod layer_tests;
#[cfg(test)]
mod lock_tests;
#[cfg(test)]
mod notepad_tests;
#[cfg(test)]
mod pair;
#[cfg(test)]
mod read_only_tests;
#[cfg(test)]
mod rows;
#[cfg(test)]
mod serving;
#[cfg(test)]
mod tests;
#[cfg(test)]
mod wide;
