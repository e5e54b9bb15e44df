//! What a session is set up with, and what INIT negotiates.
//! The layers above rely on this: a fresh configuration and the payload of the INIT reply are given by equations.
#![tactic(auto)]

mod config;
mod conflict;
mod kernel_config;
pub mod laws;
mod mount_option;
mod option_text;
mod session_acl;

pub use config::Config;
pub use conflict::{Conflict, check_option_conflicts};
pub use kernel_config::{KernelConfig, version_reply};
pub use mount_option::{
    InvalidOption, MountOption, MountOptionGroup, conflicts_with, option_group, option_to_flag,
    option_to_string,
};
pub use option_text::OptionText;
pub use session_acl::SessionACL;
