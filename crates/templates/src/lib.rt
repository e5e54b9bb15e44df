//! What a filesystem of one's own begins as a copy of: a blank, whose every call is answered by default, and a layer over any
//! other filesystem, which denies some calls and hands on all else.
//! Whoever copies these may rely on it: each call has an answer that the promise in `specs/` allows, and what the layer hands on
//! has one that the filesystem below may give to that very call.
#![tactic(auto)]

mod blank;
mod keeper_only;

pub use blank::Blank;
pub use keeper_only::KeeperOnly;
