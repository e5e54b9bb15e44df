// Each option with its group, its flag and its contrary, and texts that nobody wrote.
use crate::asserts::{expect_same, expect_same_in};
use fuse_config::{
    InvalidOption, MountOption, MountOptionGroup, SessionACL, conflicts_with, option_group,
    option_to_flag, option_to_string,
};
use std::alloc::Global;
use std::process::Abort;

const KERNEL: MountOptionGroup = MountOptionGroup::KernelOption;

const FLAG: MountOptionGroup = MountOptionGroup::KernelFlag;

const FUSERMOUNT: MountOptionGroup = MountOptionGroup::Fusermount;

const NONE: Result<u64, InvalidOption> = Err(InvalidOption);

/// An option's text, what takes it, its flag, and the text of the option that conflicts with it.
type Row = (
    &'static str,
    MountOptionGroup,
    Result<u64, InvalidOption>,
    &'static str,
);

const ROWS: &[Row] = &[
    ("fsname=Blah", FUSERMOUNT, NONE, ""),
    ("subtype=Bloo", FUSERMOUNT, NONE, ""),
    ("bongos", KERNEL, NONE, ""),
    ("auto_unmount", FUSERMOUNT, NONE, ""),
    ("default_permissions", KERNEL, NONE, ""),
    ("dev", FLAG, Ok(0), "nodev"),
    ("nodev", FLAG, Ok(4), "dev"),
    ("suid", FLAG, Ok(0), "nosuid"),
    ("nosuid", FLAG, Ok(2), "suid"),
    ("ro", FLAG, Ok(1), "rw"),
    ("rw", FLAG, Ok(0), "ro"),
    ("exec", FLAG, Ok(0), "noexec"),
    ("noexec", FLAG, Ok(8), "exec"),
    ("atime", FLAG, Ok(0), "noatime"),
    ("noatime", FLAG, Ok(1024), "atime"),
    ("dirsync", FLAG, Ok(128), ""),
    ("sync", FLAG, Ok(16), "async"),
    ("async", FLAG, Ok(0), "sync"),
];

/// The option that this text names.
fn option(rt: &impl Abort, alloc: Global, text: &str) -> MountOption {
    MountOption::from_str(alloc, text).expect(rt, "there is memory")
}

/// The option of this text is that of the row, and conflicts with the option of the last text alone.
fn expect_row(rt: &impl Abort, alloc: Global, row: &Row) {
    let (text, group, flag, contrary) = row;
    let named = option(rt, alloc, text);
    let found = (option_group(&named), option_to_flag(&named));
    expect_same_in(rt, text, &found, &(*group, *flag));
    let other = option(rt, alloc, contrary);
    let expected = if contrary.is_empty() {
        None
    } else {
        Some(other)
    };
    expect_same_in(rt, text, &conflicts_with(&named), &expected);
}

#[test]
fn each_option_has_its_group_flag_and_contrary(rt: HostRuntime) {
    for row in ROWS {
        expect_row(&rt, rt.alloc(), row);
    }
}

/// Which of the three options with a text this is, and its text.
fn told(option: &MountOption) -> (char, &str) {
    match option {
        MountOption::FSName(name) => ('f', name.as_str()),
        MountOption::Subtype(name) => ('s', name.as_str()),
        MountOption::CUSTOM(text) => ('c', text.as_str()),
        _ => ('-', ""),
    }
}

/// Texts, the options that are read from them, and the texts of these.
const TEXTS: &[(&str, char, &str)] = &[
    ("", 'c', ""),
    ("=", 'c', "="),
    ("fsname", 'c', "fsname"),
    ("fsname=", 'f', ""),
    ("fsname=a=b", 'f', "a=b"),
    ("fsname=ä€", 'f', "ä€"),
    ("fsname=subtype=x", 'f', "subtype=x"),
    ("subtype=", 's', ""),
    ("subtype=ro", 's', "ro"),
    ("Fsname=x", 'c', "Fsname=x"),
    ("ro ", 'c', "ro "),
    ("RO", 'c', "RO"),
    ("nodev,ro", 'c', "nodev,ro"),
    ("日本", 'c', "日本"),
    ("dev\0", 'c', "dev\0"),
    ("ro", '-', ""),
];

/// This option is read from the text, and has it.
fn expect_read(rt: &impl Abort, alloc: Global, text: &str, expected: (char, &str)) {
    let option = option(rt, alloc, text);
    expect_same(rt, &told(&option), &expected);
    let found = option_to_string(alloc, &option).expect(rt, "there is memory");
    expect_same(rt, &found.as_str(), &text);
}

#[test]
fn reads_texts_that_nobody_wrote(rt: HostRuntime) {
    for (text, kind, rest) in TEXTS {
        expect_read(&rt, rt.alloc(), text, (*kind, rest));
    }
}

/// So long a text is read behind this front, as an option of this kind, which has what stands behind so many bytes.
fn expect_long(rt: &impl Abort, alloc: Global, front: &str, kind: char, skipped: usize) {
    let mut text = "lowerdir=/a:"
        .repeat(alloc, 8_400)
        .expect(rt, "there is memory");
    text.insert_str(0, front).expect(rt, "there is memory");
    expect_read(rt, alloc, &text, (kind, text.get(skipped..).unwrap_or("")));
}

#[test]
fn a_long_text_finds_memory(rt: HostRuntime) {
    expect_long(&rt, rt.alloc(), "", 'c', 0);
    expect_long(&rt, rt.alloc(), "fsname=", 'f', 7);
    expect_long(&rt, rt.alloc(), "subtype=", 's', 8);
}

/// Who may use a filesystem, and the option that asks for it.
const RULES: &[(SessionACL, Option<&str>)] = &[
    (SessionACL::All, Some("allow_other")),
    (SessionACL::RootAndOwner, Some("allow_other")),
    (SessionACL::Owner, None),
];

#[test]
fn others_than_the_owner_ask_for_an_option(rt: HostRuntime) {
    for (acl, option) in RULES {
        expect_same(&rt, &acl.to_mount_option(), option);
    }
}
