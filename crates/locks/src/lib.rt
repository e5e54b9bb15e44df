//! How a filesystem answers later than its methods return: one whose callers wait for a lock without a thread.
//! Whoever reads this may rely on it: every answer is one that the promise of `specs/OneLock.antt` allows.
#![tactic(auto)]

mod one_lock;

pub use one_lock::OneLock;
