// Whose requests are served.
ghost use Rattle.std.specs.Prelude.{◌≡◌};
ghost use Rattle.std.specs.Option.{option_copied};
ghost use Rattle.fuse_config.specs.Access.{mount_option_of};

/// Whose requests are served; others get EACCES. INIT, DESTROY, READ, WRITE, FSYNC, RELEASE, READDIR, READDIRPLUS,
/// FSYNCDIR, RELEASEDIR, FORGET and BATCH_FORGET are served whoever sends them. The kernel's own checks of permissions
/// are another matter.
#[derive(Clone, Copy, Debug, PartialEq, Eq, Default)]
pub enum SessionACL {
    /// Those of everybody.
    All,
    /// Those of root and of the session's owner.
    RootAndOwner,
    /// Those of the session's owner alone.
    #[default]
    Owner,
}

impl SessionACL {
    /// The option of a mount that lets the kernel pass on the requests of others than the owner, where they are served.
    pub fn to_mount_option(self) -> Option<&'static str>
        ensures { option_copied result ≡ mount_option_of self }
    {
        match self {
            SessionACL::All | SessionACL::RootAndOwner => Some("allow_other"),
            SessionACL::Owner => None,
        }
    }
}
