// Options that conflict.
ghost use Rattle.std.specs.Prelude.{◌≡◌, ◌↔◌, IsTrue, MatchOption, MatchResult};
ghost use Rattle.fuse_config.specs.Conflicts.{FirstConflict, FirstContrary, FirstListed, NoConflict, NoContrary};
ghost use Rattle.fuse_config.specs.Conflicts.{NotListed};

use crate::{Config, MountOption, conflicts_with};

/// Two options of a mount conflict. Their places are counted from 0.
#[derive(Clone, Copy, Debug, PartialEq, Eq)]
pub struct Conflict {
    /// The least place whose option conflicts with a later one.
    pub first: usize,
    /// The least of the later places whose option conflicts with that one.
    pub second: usize,
}

/// Looks whether two of the options conflict. The error names the first two that do.
pub fn check_option_conflicts(config: &Config) -> Result<(), Conflict>
    ensures { MatchResult result (λ _. NoConflict config.now.mount_options)
        (λ c. FirstConflict config.now.mount_options c.first c.second) }
{
    let options = config.mount_options.as_slice();
    for (first, option) in options.iter().enumerate() {
        if let Some(later) = place_of_contrary(option, &options[first + 1..]) {
            let second = first + 1 + later;
            return Err(Conflict { first, second });
        }
    }
    Ok(())
}

/// The least place of an option that says the contrary of this one.
fn place_of_contrary(option: &MountOption, options: &[MountOption]) -> Option<usize>
    ensures { MatchOption result (NoContrary option.now options.now) (FirstContrary option.now options.now) }
{
    let contrary = conflicts_with(option)?;
    place_of(&contrary, options)
}

/// The least place of an option.
pub(crate) fn place_of(option: &MountOption, options: &[MountOption]) -> Option<usize>
    ensures { MatchOption result (NotListed option.now options.now) (FirstListed option.now options.now) }
{
    for (place, other) in options.iter().enumerate() {
        if is_same(option, other) {
            return Some(place);
        }
    }
    None
}

/// Whether two options are the same.
fn is_same(one: &MountOption, other: &MountOption) -> bool
    ensures { IsTrue result ↔ (one.now ≡ other.now) }
{
    one == other
}
