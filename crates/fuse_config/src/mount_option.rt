// What a filesystem is mounted with.
ghost use Rattle.std.specs.Prelude.{◌≡◌, ◌++◌, IfOk, drop};
ghost use Rattle.std.specs.Result.{result_ok};
ghost use Rattle.std.specs.Option.{option_copied};
ghost use Rattle.std.specs.String.{string_bytes};
ghost use Rattle.fuse_config.specs.Options.{after_front, conflict_of, flag_of, group_of, option_named, option_of};
ghost use Rattle.fuse_config.specs.Options.{plain_options, text_of};

use crate::OptionText;
use fuse_wire::NoMemory;
use std::alloc::Global;

/// An option of a mount, as `man mount` and `man mount.fuse` have them.
#[derive(Debug, PartialEq, Eq, Drop)]
pub enum MountOption {
    /// The name of the source in the table of mounts.
    FSName(OptionText),
    /// The filesystem's subtype.
    Subtype(OptionText),
    /// An option that has no variant here.
    CUSTOM(OptionText),
    /// Unmount when the process that mounted exits. It asks that others than the owner are served too.
    AutoUnmount,
    /// The kernel checks permissions.
    DefaultPermissions,
    /// Device files are devices.
    Dev,
    /// Device files are none.
    NoDev,
    /// The bits set-user-ID and set-group-ID count.
    Suid,
    /// The bits set-user-ID and set-group-ID do not count.
    NoSuid,
    /// Nothing is written.
    RO,
    /// Files are read and written.
    RW,
    /// Programs are executed.
    Exec,
    /// No program is executed.
    NoExec,
    /// Times of access are kept.
    Atime,
    /// Times of access are not kept.
    NoAtime,
    /// Changes of directories are written at once.
    DirSync,
    /// All changes are written at once.
    Sync,
    /// Changes are written later.
    Async,
}

/// What takes an option.
#[derive(Clone, Copy, Debug, PartialEq, Eq)]
pub enum MountOptionGroup {
    /// The kernel, in the text that it is given.
    KernelOption,
    /// The kernel, as a flag of `mount(2)`.
    KernelFlag,
    /// The program `fusermount`.
    Fusermount,
}

/// The option is no flag of `mount(2)`.
#[derive(Clone, Copy, Debug, PartialEq, Eq)]
pub struct InvalidOption;

impl MountOption {
    /// The option that a text names. What follows `fsname=` or `subtype=` is a name, and a text that names no other
    /// option is a `CUSTOM` one. The error comes where there is no memory for a text.
    pub fn from_str(alloc: Global, text: &str) -> Result<MountOption, NoMemory>
        ensures { IfOk result (λ option. option ≡ option_of text.now) }
    {
        if let Some(option) = plain_option(text) {
            return Ok(option);
        }
        if let Some(name) = after(text, "fsname=") {
            return Ok(MountOption::FSName(OptionText::new(alloc, name)?));
        }
        if let Some(name) = after(text, "subtype=") {
            return Ok(MountOption::Subtype(OptionText::new(alloc, name)?));
        }
        Ok(MountOption::CUSTOM(OptionText::new(alloc, text)?))
    }
}

/// What comes after this front, where a text begins with it.
fn after<'a>(text: &'a str, front: &str) -> Option<&'a str>
    ensures { option_copied result ≡ after_front front.now text.now }
{
    text.strip_prefix(front)
}

/// The option without a text of its own that has this name.
fn plain_option(text: &str) -> Option<MountOption>
    ensures { result ≡ option_named text.now plain_options }
{
    if text == "auto_unmount" {
        Some(MountOption::AutoUnmount)
    } else if text == "default_permissions" {
        Some(MountOption::DefaultPermissions)
    } else if text == "dev" {
        Some(MountOption::Dev)
    } else if text == "nodev" {
        Some(MountOption::NoDev)
    } else if text == "suid" {
        Some(MountOption::Suid)
    } else if text == "nosuid" {
        Some(MountOption::NoSuid)
    } else {
        option_of_use(text)
    }
}

/// The same of the options after these six, which say what is done with files.
fn option_of_use(text: &str) -> Option<MountOption>
    ensures { result ≡ option_named text.now (drop 6 plain_options) }
{
    if text == "ro" {
        Some(MountOption::RO)
    } else if text == "rw" {
        Some(MountOption::RW)
    } else if text == "exec" {
        Some(MountOption::Exec)
    } else if text == "noexec" {
        Some(MountOption::NoExec)
    } else {
        option_of_writing(text)
    }
}

/// The same of the options after those, which say what is written and when.
fn option_of_writing(text: &str) -> Option<MountOption>
    ensures { result ≡ option_named text.now (drop 10 plain_options) }
{
    if text == "atime" {
        Some(MountOption::Atime)
    } else if text == "noatime" {
        Some(MountOption::NoAtime)
    } else if text == "dirsync" {
        Some(MountOption::DirSync)
    } else if text == "sync" {
        Some(MountOption::Sync)
    } else if text == "async" {
        Some(MountOption::Async)
    } else {
        None
    }
}

/// The name of an option, and the text of its own after it.
fn parts(option: &MountOption) -> (&str, &str)
    ensures { result.0.now ++ result.1.now ≡ text_of option.now }
{
    match option {
        MountOption::FSName(name) => ("fsname=", name.as_str()),
        MountOption::Subtype(name) => ("subtype=", name.as_str()),
        MountOption::CUSTOM(text) => ("", text.as_str()),
        MountOption::AutoUnmount => ("auto_unmount", ""),
        MountOption::DefaultPermissions => ("default_permissions", ""),
        MountOption::Dev => ("dev", ""),
        MountOption::NoDev => ("nodev", ""),
        MountOption::Suid => ("suid", ""),
        MountOption::NoSuid => ("nosuid", ""),
        MountOption::RO => ("ro", ""),
        MountOption::RW => ("rw", ""),
        MountOption::Exec => ("exec", ""),
        MountOption::NoExec => ("noexec", ""),
        MountOption::Atime => ("atime", ""),
        MountOption::NoAtime => ("noatime", ""),
        MountOption::DirSync => ("dirsync", ""),
        MountOption::Sync => ("sync", ""),
        MountOption::Async => ("async", ""),
    }
}

/// The text of an option, as `mount` takes it. The error comes where there is no memory for it.
pub fn option_to_string(alloc: Global, option: &MountOption) -> Result<String, NoMemory>
    ensures { IfOk result (λ text. string_bytes text ≡ text_of option.now) }
{
    let (name, rest) = parts(option);
    let mut text = String::with_capacity(alloc, name.len().saturating_add(rest.len()))?;
    text.push_str(name)?;
    text.push_str(rest)?;
    Ok(text)
}

/// What takes an option.
pub fn option_group(option: &MountOption) -> MountOptionGroup
    ensures { result ≡ group_of option.now }
{
    match option {
        MountOption::FSName(_) | MountOption::Subtype(_) | MountOption::AutoUnmount => {
            MountOptionGroup::Fusermount
        }
        MountOption::CUSTOM(_) | MountOption::DefaultPermissions => MountOptionGroup::KernelOption,
        MountOption::Dev
        | MountOption::NoDev
        | MountOption::Suid
        | MountOption::NoSuid
        | MountOption::RO
        | MountOption::RW
        | MountOption::Exec
        | MountOption::NoExec
        | MountOption::Atime
        | MountOption::NoAtime
        | MountOption::DirSync
        | MountOption::Sync
        | MountOption::Async => MountOptionGroup::KernelFlag,
    }
}

/// The flag of `mount(2)` that an option is, as `linux/mount.h` has its bits; 0 is what holds where the flag is not
/// given. The error comes for the options that are no flag.
pub fn option_to_flag(option: &MountOption) -> Result<u64, InvalidOption>
    ensures { result_ok result ≡ flag_of option.now }
{
    match option {
        MountOption::FSName(_)
        | MountOption::Subtype(_)
        | MountOption::CUSTOM(_)
        | MountOption::AutoUnmount
        | MountOption::DefaultPermissions => Err(InvalidOption),
        MountOption::Dev
        | MountOption::Suid
        | MountOption::RW
        | MountOption::Exec
        | MountOption::Atime
        | MountOption::Async => Ok(0),
        MountOption::RO => Ok(1),
        MountOption::NoSuid => Ok(2),
        MountOption::NoDev => Ok(4),
        MountOption::NoExec => Ok(8),
        MountOption::Sync => Ok(16),
        MountOption::DirSync => Ok(128),
        MountOption::NoAtime => Ok(1024),
    }
}

/// The option that says the contrary of this one, if there is one.
pub fn conflicts_with(option: &MountOption) -> Option<MountOption>
    ensures { result ≡ conflict_of option.now }
{
    match option {
        MountOption::Dev => Some(MountOption::NoDev),
        MountOption::NoDev => Some(MountOption::Dev),
        MountOption::Suid => Some(MountOption::NoSuid),
        MountOption::NoSuid => Some(MountOption::Suid),
        MountOption::RO => Some(MountOption::RW),
        MountOption::RW => Some(MountOption::RO),
        MountOption::Exec => Some(MountOption::NoExec),
        MountOption::NoExec => Some(MountOption::Exec),
        MountOption::Atime => Some(MountOption::NoAtime),
        MountOption::NoAtime => Some(MountOption::Atime),
        MountOption::Sync => Some(MountOption::Async),
        MountOption::Async => Some(MountOption::Sync),
        MountOption::FSName(_)
        | MountOption::Subtype(_)
        | MountOption::CUSTOM(_)
        | MountOption::AutoUnmount
        | MountOption::DefaultPermissions
        | MountOption::DirSync => None,
    }
}
