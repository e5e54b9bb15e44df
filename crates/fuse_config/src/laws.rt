//! Laws of the definitions. Each function here does nothing, or gives a default: its contract is the law, which holds of all
//! configurations.
ghost use Rattle.std.specs.Prelude.{◌≡◌, ◌≤◌, ◌<◌, ◌*◌, ◌^◌, ◌↔◌, ℕ, IsTrue, List, Some};
ghost use Rattle.std.specs.Int.RustNames.{bit_and};
ghost use Rattle.fuse_wire.specs.Numbered.{SaysSame};
ghost use Rattle.fuse_config.specs.Values.{Configuration};
ghost use Rattle.fuse_config.specs.Configuration.{granted_of, threshold_of};
ghost use Rattle.fuse_config.specs.Setters.{power_of_ten_below};
ghost use Rattle.fuse_wire.specs.Times.{nanos_per_second};
ghost use Rattle.fuse_config.specs.Options.{conflict_of, is_read_back, option_of, text_of};
ghost use Rattle.fuse_config.specs.Conflicts.{FirstConflict};
ghost use Rattle.fuse_config.specs.declared.conflict.Conflict.{Conflict};
ghost use Rattle.fuse_config.specs.declared.mount_option.MountOption.{MountOption};
ghost use Rattle.fuse_config.specs.declared.session_acl.SessionACL.TheVariants.{Owner};

use crate::{
    Config, Conflict, InvalidOption, MountOption, MountOptionGroup, OptionText, SessionACL,
};

/// Where nothing is said of whose requests are served, the owner's are.
pub fn the_owner_is_served_by_default() -> SessionACL
    ensures { result ≡ Owner }
{
    SessionACL::default()
}

/// What a session is set up with is equal where it is the same.
pub fn rules_are_equal_where_they_are_the_same()
    ensures rules { SaysSame ⟦<SessionACL as PartialEq>⟧.eq }
    ensures texts { SaysSame ⟦<OptionText as PartialEq>⟧.eq }
    ensures options { SaysSame ⟦<MountOption as PartialEq>⟧.eq }
    ensures groups { SaysSame ⟦<MountOptionGroup as PartialEq>⟧.eq }
    ensures no_flags { SaysSame ⟦<InvalidOption as PartialEq>⟧.eq }
    ensures conflicts { SaysSame ⟦<Conflict as PartialEq>⟧.eq }
    ensures configurations { SaysSame ⟦<Config as PartialEq>⟧.eq }
{}

/// No capability is granted that was not offered.
pub fn grants_only_what_was_offered()
    ensures { (config : Configuration) (offered : ℕ) →
        bit_and (granted_of config offered) offered ≡ granted_of config offered }
{}

/// The kernel calls the filesystem congested where as many requests wait as may wait, or before.
pub fn the_threshold_is_at_most_the_background()
    ensures { (config : Configuration) → threshold_of config ≤ config.max_background }
{}

/// The text of an option names that option, but for a `CUSTOM` text that names another.
pub fn options_are_read_back()
    ensures { (option : MountOption) → IsTrue (is_read_back option) ↔ (option_of (text_of option) ≡ option) }
{}

/// Where an option says the contrary of another, that one says the contrary of it.
pub fn conflicts_are_mutual()
    ensures { (one other : MountOption) → conflict_of one ≡ Some other → conflict_of other ≡ Some one }
{}

/// Options conflict in one way alone that is named.
pub fn one_conflict_is_named()
    ensures { (options : List MountOption) (c d : Conflict) →
        FirstConflict options c.first c.second → FirstConflict options d.first d.second → c ≡ d }
{}

/// The granularity that a refused one is answered with is the greatest power of ten below it.
pub fn the_power_below_is_the_greatest()
    ensures { (nanos : ℕ) → 0 < nanos → nanos ≤ nanos_per_second → (exponent : ℕ) ×
        (power_of_ten_below nanos ≡ 10 ^ exponent) × (10 ^ exponent ≤ nanos) × (nanos < 10 * 10 ^ exponent) }
{}
