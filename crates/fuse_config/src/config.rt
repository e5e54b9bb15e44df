// How a session is set up.
ghost use Rattle.std.specs.Prelude.{◌≡◌, [], None, false};
ghost use Rattle.fuse_config.specs.declared.session_acl.SessionACL.TheVariants.{Owner};

use crate::{MountOption, SessionACL};
use fuse_wire::Items;
use std::alloc::Global;

/// How a session is set up.
#[derive(Debug, PartialEq, Eq, Drop)]
pub struct Config {
    /// The options of the mount, in order. Nothing is mounted here: it is looked at whether they conflict, and whether
    /// `AutoUnmount` is among them while the owner alone is served, and no more.
    pub mount_options: Items<MountOption>,
    /// Whose requests are served.
    pub acl: SessionACL,
    /// How many threads serve them: None is one, and of more than 64 only 64 do. With 0 of them nobody is served, and
    /// the session ends after its handshake.
    pub n_threads: Option<usize>,
    /// Each thread is to have a device of its own. No device is opened here, so a session of more than one thread
    /// refuses it.
    pub clone_fd: bool,
}

impl Config {
    /// No options, the owner's requests alone, and one thread. It takes no memory: the allocator is for the list of
    /// options, which is empty.
    pub fn new(alloc: Global) -> Config
        ensures mount_options { result.mount_options ≡ [] }
        ensures acl { result.acl ≡ Owner }
        ensures n_threads { result.n_threads ≡ None }
        ensures clone_fd { result.clone_fd ≡ false }
    {
        Config {
            mount_options: Items::from_vec(Vec::new(alloc)),
            acl: SessionACL::Owner,
            n_threads: None,
            clone_fd: false,
        }
    }
}
