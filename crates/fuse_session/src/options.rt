// What a session looks at before anything is taken.
ghost use Rattle.std.specs.Prelude.{◌≡◌, ◌↔◌, ◌⊎◌, IfErr, IfOk, IsTrue, MatchOption, MatchResult, Some};
ghost use Rattle.std.specs.List.{list_any};
ghost use Rattle.fuse_session.specs.Accounted.{ManyThreads};
ghost use Rattle.fuse_session.specs.Refused.{ClonesDevice, IsTaken, NotBegun, OptionsWell, RefusedAs, is_auto_unmount};

use crate::SessionError;
use fuse_config::{Config, Conflict, MountOption, SessionACL, check_option_conflicts};
use fuse_loop::Buffers;
use fuse_notify::Notifier;
use fuse_wire::NoMemory;
use std::alloc::Global;

/// The memory of a session: that of its run, and what makes its notifiers where it runs in the background.
#[derive(Drop)]
pub(crate) struct SessionMemory {
    /// The buffers of its run.
    pub buffers: Buffers,
    /// A notifier of its frame line.
    pub notifier: Notifier,
}

/// The memory of a session. The options are looked at first, and the error is the first of `Conflict`, `AutoUnmount`
/// and `CloneFd` that holds. `Memory` where they are well and there is no memory.
pub(crate) fn prepare(alloc: Global, config: &Config) -> Result<SessionMemory, SessionError>
    ensures ok { IfOk result IsTaken }
    ensures well { IfOk result (λ _. OptionsWell config.now) }
    ensures refused { IfErr result (λ e. NotBegun config.now e) }
{
    check_options(config)?;
    take_memory(alloc)
}

/// The memory of a session over a device that is mounted already. The error is `CloneFd` where each of several threads
/// is to have a device of its own, and else `Memory` where there is no memory.
pub(crate) fn prepare_device(alloc: Global, config: &Config) -> Result<SessionMemory, SessionError>
    ensures ok { IfOk result IsTaken }
    ensures well { IfOk result (λ _. ¬ (ClonesDevice config.now)) }
    ensures refused { IfErr result (λ e. ((e ≡ SessionError.CloneFd) × ClonesDevice config.now)
        ⊎ ((e ≡ SessionError.Memory) × ¬ (ClonesDevice config.now))) }
{
    if clones_device(config) {
        return Err(SessionError::CloneFd);
    }
    take_memory(alloc)
}

/// The memory of a session.
fn take_memory(alloc: Global) -> Result<SessionMemory, SessionError>
    ensures ok { IfOk result IsTaken }
    ensures refused { IfErr result (λ e. e ≡ SessionError.Memory) }
{
    let Ok(mut buffers) = Buffers::new(alloc) else {
        return Err(SessionError::Memory);
    };
    match buffers.notifier() {
        Ok(notifier) => Ok(SessionMemory { buffers, notifier }),
        Err(NoMemory) => {
            drop(buffers);
            Err(SessionError::Memory)
        }
    }
}

/// Looks at the options. The errors are tried in the order of `SessionError`.
fn check_options(config: &Config) -> Result<(), SessionError>
    ensures { MatchResult result (λ _. OptionsWell config.now) (RefusedAs config.now) }
{
    if let Err(Conflict { first, second }) = check_option_conflicts(config) {
        return Err(SessionError::Conflict { first, second });
    }
    if config.acl == SessionACL::Owner && lists_auto_unmount(config.mount_options.as_slice()) {
        return Err(SessionError::AutoUnmount);
    }
    if clones_device(config) {
        return Err(SessionError::CloneFd);
    }
    Ok(())
}

/// Whether each of several threads is to have a device of its own.
fn clones_device(config: &Config) -> bool
    ensures { IsTrue result ↔ ClonesDevice config.now }
{
    config.clone_fd && several(config.n_threads).is_some()
}

/// Whether `AutoUnmount` is among the options.
fn lists_auto_unmount(options: &[MountOption]) -> bool
    ensures { result ≡ list_any is_auto_unmount options.now }
{
    options
        .iter()
        .any(|option| matches!(option, MountOption::AutoUnmount))
}

/// How many threads are to serve, where these are more than one.
pub(crate) fn several(threads: Option<usize>) -> Option<usize>
    ensures { MatchOption result (¬ (ManyThreads threads))
        (λ count. (threads ≡ Some count) × ManyThreads threads) }
{
    match threads {
        Some(count) if count > 1 => Some(count),
        _ => None,
    }
}
