//! Sessions: the handshake with a kernel, and the run that answers each later message, on the caller's thread or on
//! others. The trait `Filesystem`, its defaults and the verdict, in `fuse_dispatch`, are had from here too.
//! The layers above rely on this: when `mount` answers Ok and nothing was lost, every message that it took has the one
//! frame or note that it is owed or, where replies come later, the mark of one.
#![tactic(auto)]

mod background;
mod carried;
mod ended;
mod error;
mod greeting;
mod inline_spawner;
mod invalid_data;
pub mod laws;
mod options;
mod runnable;
mod running;
mod session;
mod spawner;
mod starting;
mod starts;
mod steps;
mod thread_spawner;

pub use background::{BackgroundSession, SpawnError, spawn_mount};
pub use ended::Ended;
pub use error::SessionError;
pub use fuse_dispatch::{Filesystem, Verdict, defaults, verdict};
pub use fuse_loop::Transcript;
pub use inline_spawner::InlineSpawner;
pub use invalid_data::InvalidData;
pub use running::Running;
pub use session::{Session, mount};
pub use spawner::Spawner;
pub use thread_spawner::ThreadSpawner;
