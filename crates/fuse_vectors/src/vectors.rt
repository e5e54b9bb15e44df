// Vectors: what makes bytes, and the bytes that it must make. A vector more is a row more.
use fuse_wire::FileType;

/// The name of a vector, what makes its bytes, and the bytes that it must make, in parts that stand one behind the
/// other. What is no bytes by itself is told as a text.
pub(crate) type Vector = (&'static str, Made, &'static [&'static [u8]]);

/// What makes bytes.
pub(crate) enum Made {
    /// The frame of a reply to the request 0xdeadbeef.
    Reply(Answer),
    /// The frame of a notice.
    Notice(News),
    /// What the first so many bytes of this message ask, or why they are no request.
    Request(&'static [u8], usize),
    /// What is fetched from these bytes, one after the other, and how many are left.
    Fetched(&'static [u8], &'static [Fetch]),
    /// The seconds and nanoseconds of a time that is so many nanoseconds after 1970.
    Time(i128),
    /// The nanoseconds after 1970 of the time of these seconds and nanoseconds.
    SecondsAndNanoseconds(i64, u32),
    /// The places of the options that conflict, of those that these texts name.
    Conflict(&'static [&'static str]),
}

/// What a request is answered by.
pub(crate) enum Answer {
    Empty,
    Error(i32),
    Data([u8; 4]),
    XattrData([u8; 4]),
    XattrSize(u32),
    /// The entry of an inode whose blocks have this size.
    Entry(u32),
    /// The attributes of an inode whose blocks have this size.
    Attr(u32),
    /// A new file whose blocks have this size, its handle and its flags.
    Created(u32, u64, u32),
    Opened(u64, u32),
    Written(u32),
    Bmap(u64),
    Statfs([u64; 5], [u32; 3]),
    Locked(u64, u64, i32, u32),
    /// The entries of a directory: the inode, the offset after it, what kind of file it is, and its name.
    Directory(&'static [(u64, u64, FileType, &'static [u8])]),
}

/// What the kernel is told unasked.
pub(crate) enum News {
    Poll(u64),
    InvalInode(u64, i64, i64),
    InvalEntry(u64, &'static [u8]),
    Store(u64, u64, &'static [u8]),
    Delete(u64, u64, &'static [u8]),
}

/// What is fetched from the arguments of a request.
pub(crate) enum Fetch {
    /// A name.
    Name,
    /// A number of 8 bytes.
    Number,
    /// The part of ACCESS, of 8 bytes.
    Access,
    /// All that is left.
    All,
}

/// Two names, and what is none.
const ARGUMENTS: &[u8] = b"foo\0bar\0ba";

/// INIT, from a kernel of version 7.8.
pub(crate) const INIT: [u8; 104] = [
    0x68, 0x00, 0x00, 0x00, 0x1a, 0x00, 0x00, 0x00, 0x0d, 0xf0, 0xad, 0xba, 0xef, 0xbe, 0xad, 0xde,
    0x88, 0x77, 0x66, 0x55, 0x44, 0x33, 0x22, 0x11, 0x0d, 0xd0, 0x01, 0xc0, 0xfe, 0xca, 0x01, 0xc0,
    0x5e, 0xba, 0xde, 0xc0, 0x00, 0x00, 0x00, 0x00, 0x07, 0x00, 0x00, 0x00, 0x08, 0x00, 0x00, 0x00,
    0x00, 0x10, 0x00, 0x00, 0, 0, 0, 0, 0, 0, 0, 0, 0, 0, 0, 0, 0, 0, 0, 0, 0, 0, 0, 0, 0, 0, 0, 0,
    0, 0, 0, 0, 0, 0, 0, 0, 0, 0, 0, 0, 0, 0, 0, 0, 0, 0, 0, 0, 0, 0, 0, 0, 0, 0, 0, 0,
];

/// MKNOD of a file `foo.txt`.
const MKNOD: [u8; 64] = [
    0x40, 0, 0, 0, 8, 0, 0, 0, 0x0d, 0xf0, 0xad, 0xba, 0xef, 0xbe, 0xad, 0xde, 0x88, 0x77, 0x66,
    0x55, 0x44, 0x33, 0x22, 0x11, 0x0d, 0xd0, 0x01, 0xc0, 0xfe, 0xca, 0x01, 0xc0, 0x5e, 0xba, 0xde,
    0xc0, 0, 0, 0, 0, 0xa4, 0x01, 0, 0, 0, 0, 0, 0, 0xed, 0x01, 0, 0, 0xe7, 0x03, 0, 0, 0x66, 0x6f,
    0x6f, 0x2e, 0x74, 0x78, 0x74, 0,
];

/// Who asks by these two messages.
const ASKER: &[u8] = b"unique 0xdeadbeefbaadf00d nodeid 0x1122334455667788 \
    uid 0xc001d00d gid 0xc001cafe pid 0xc0deba5e ";

/// The id of the request that is answered.
const ID: &[u8] = &[0xef, 0xbe, 0xad, 0xde, 0, 0, 0, 0];

/// An entry in front of its attributes: the inode, the generation, and how long both hold.
const ENTRY: &[u8] = &[
    0x11, 0, 0, 0, 0, 0, 0, 0, 0xaa, 0, 0, 0, 0, 0, 0, 0, 0x65, 0x87, 0, 0, 0, 0, 0, 0, 0x65, 0x87,
    0, 0, 0, 0, 0, 0, 0x21, 0x43, 0, 0, 0x21, 0x43, 0, 0,
];

/// Attributes up to the size of a block.
const ATTRIBUTES: &[u8] = &[
    0x11, 0, 0, 0, 0, 0, 0, 0, 0x22, 0, 0, 0, 0, 0, 0, 0, 0x33, 0, 0, 0, 0, 0, 0, 0, 0x34, 0x12, 0,
    0, 0, 0, 0, 0, 0x34, 0x12, 0, 0, 0, 0, 0, 0, 0x34, 0x12, 0, 0, 0, 0, 0, 0, 0x78, 0x56, 0, 0,
    0x78, 0x56, 0, 0, 0x78, 0x56, 0, 0, 0xa4, 0x81, 0, 0, 0x55, 0, 0, 0, 0x66, 0, 0, 0, 0x77, 0, 0,
    0, 0x88, 0, 0, 0,
];

const STATFS: &[u8] = &[
    0x11, 0, 0, 0, 0, 0, 0, 0, 0x22, 0, 0, 0, 0, 0, 0, 0, 0x33, 0, 0, 0, 0, 0, 0, 0, 0x44, 0, 0, 0,
    0, 0, 0, 0, 0x55, 0, 0, 0, 0, 0, 0, 0, 0x66, 0, 0, 0, 0x77, 0, 0, 0, 0x88, 0, 0, 0, 0, 0, 0, 0,
    0, 0, 0, 0, 0, 0, 0, 0, 0, 0, 0, 0, 0, 0, 0, 0, 0, 0, 0, 0, 0, 0, 0, 0,
];

const DIRECTORY: &[u8] = &[
    0xbb, 0xaa, 0, 0, 0, 0, 0, 0, 1, 0, 0, 0, 0, 0, 0, 0, 5, 0, 0, 0, 4, 0, 0, 0, 0x68, 0x65, 0x6c,
    0x6c, 0x6f, 0, 0, 0, 0xdd, 0xcc, 0, 0, 0, 0, 0, 0, 2, 0, 0, 0, 0, 0, 0, 0, 8, 0, 0, 0, 8, 0, 0,
    0, 0x77, 0x6f, 0x72, 0x6c, 0x64, 0x2e, 0x72, 0x73,
];

const POLL: &[u8] = &[
    0x18, 0, 0, 0, 1, 0, 0, 0, 0, 0, 0, 0, 0, 0, 0, 0, 0x21, 0x43, 0, 0, 0, 0, 0, 0,
];

const INVAL_INODE: &[u8] = &[
    0x28, 0, 0, 0, 2, 0, 0, 0, 0, 0, 0, 0, 0, 0, 0, 0, 0x42, 0, 0, 0, 0, 0, 0, 0, 0x64, 0, 0, 0, 0,
    0, 0, 0, 0xc8, 0, 0, 0, 0, 0, 0, 0,
];

const INVAL_ENTRY: &[u8] = &[
    0x24, 0, 0, 0, 3, 0, 0, 0, 0, 0, 0, 0, 0, 0, 0, 0, 0x42, 0, 0, 0, 0, 0, 0, 0, 3, 0, 0, 0, 0, 0,
    0, 0, 0x61, 0x62, 0x63, 0,
];

const STORE: &[u8] = &[
    0x2c, 0, 0, 0, 4, 0, 0, 0, 0, 0, 0, 0, 0, 0, 0, 0, 0x42, 0, 0, 0, 0, 0, 0, 0, 0x32, 0, 0, 0, 0,
    0, 0, 0, 4, 0, 0, 0, 0, 0, 0, 0, 0xde, 0xad, 0xbe, 0xef,
];

const DELETE: &[u8] = &[
    0x2c, 0, 0, 0, 6, 0, 0, 0, 0, 0, 0, 0, 0, 0, 0, 0, 0x42, 0, 0, 0, 0, 0, 0, 0, 0x43, 0, 0, 0, 0,
    0, 0, 0, 3, 0, 0, 0, 0, 0, 0, 0, 0x61, 0x62, 0x63, 0,
];

/// Messages that are taken apart.
const REQUESTS: &[Vector] = &[
    (
        "INIT",
        Made::Request(&INIT, 104),
        &[b"opcode 26 ", ASKER, b"version 7.8 max_readahead 4096"],
    ),
    (
        "MKNOD",
        Made::Request(&MKNOD, 64),
        &[
            b"opcode 8 ",
            ASKER,
            b"mode 0o644 rdev 0 umask 0o755 name foo.txt",
        ],
    ),
    (
        "20 bytes of INIT",
        Made::Request(&INIT, 20),
        &[b"ShortReadHeader(20)"],
    ),
    (
        "48 bytes of INIT",
        Made::Request(&INIT, 48),
        &[b"ShortRead(48, 104)"],
    ),
];

/// The same, written once: a constant stands anew in each function that names it.
pub(crate) fn requests() -> &'static [Vector] {
    REQUESTS
}

/// Replies.
const REPLIES: &[Vector] = &[
    (
        "empty",
        Made::Reply(Answer::Empty),
        &[&[0x10, 0, 0, 0, 0, 0, 0, 0], ID],
    ),
    (
        "error",
        Made::Reply(Answer::Error(66)),
        &[&[0x10, 0, 0, 0, 0xbe, 0xff, 0xff, 0xff], ID],
    ),
    (
        "data",
        Made::Reply(Answer::Data([0xde, 0xad, 0xbe, 0xef])),
        &[&[0x14, 0, 0, 0, 0, 0, 0, 0], ID, &[0xde, 0xad, 0xbe, 0xef]],
    ),
    (
        "other data",
        Made::Reply(Answer::Data([0x12, 0x34, 0x78, 0x56])),
        &[&[0x14, 0, 0, 0, 0, 0, 0, 0], ID, &[0x12, 0x34, 0x78, 0x56]],
    ),
    (
        "extended attribute",
        Made::Reply(Answer::XattrData([0x11, 0x22, 0x33, 0x44])),
        &[&[0x14, 0, 0, 0, 0, 0, 0, 0], ID, &[0x11, 0x22, 0x33, 0x44]],
    ),
    (
        "size of an extended attribute",
        Made::Reply(Answer::XattrSize(0x12345678)),
        &[
            &[0x18, 0, 0, 0, 0, 0, 0, 0],
            ID,
            &[0x78, 0x56, 0x34, 0x12, 0, 0, 0, 0],
        ],
    ),
    (
        "entry",
        Made::Reply(Answer::Entry(0xbb)),
        &[
            &[0x90, 0, 0, 0, 0, 0, 0, 0],
            ID,
            ENTRY,
            ATTRIBUTES,
            &[0xbb, 0, 0, 0, 0, 0, 0, 0],
        ],
    ),
    (
        "attributes",
        Made::Reply(Answer::Attr(0xbb)),
        &[
            &[0x78, 0, 0, 0, 0, 0, 0, 0],
            ID,
            &[0x65, 0x87, 0, 0, 0, 0, 0, 0, 0x21, 0x43, 0, 0, 0, 0, 0, 0],
            ATTRIBUTES,
            &[0xbb, 0, 0, 0, 0, 0, 0, 0],
        ],
    ),
    (
        "new file",
        Made::Reply(Answer::Created(0xdd, 0xbb, 0x0c)),
        &[
            &[0xa0, 0, 0, 0, 0, 0, 0, 0],
            ID,
            ENTRY,
            ATTRIBUTES,
            &[0xdd, 0, 0, 0, 0, 0, 0, 0],
            &[0xbb, 0, 0, 0, 0, 0, 0, 0, 0x0c, 0, 0, 0, 0, 0, 0, 0],
        ],
    ),
    (
        "open file",
        Made::Reply(Answer::Opened(0x1122, 0x33)),
        &[
            &[0x20, 0, 0, 0, 0, 0, 0, 0],
            ID,
            &[0x22, 0x11, 0, 0, 0, 0, 0, 0, 0x33, 0, 0, 0, 0, 0, 0, 0],
        ],
    ),
    (
        "bytes that were written",
        Made::Reply(Answer::Written(0x1122)),
        &[
            &[0x18, 0, 0, 0, 0, 0, 0, 0],
            ID,
            &[0x22, 0x11, 0, 0, 0, 0, 0, 0],
        ],
    ),
    (
        "block",
        Made::Reply(Answer::Bmap(0x1234)),
        &[
            &[0x18, 0, 0, 0, 0, 0, 0, 0],
            ID,
            &[0x34, 0x12, 0, 0, 0, 0, 0, 0],
        ],
    ),
    (
        "fill of a filesystem",
        Made::Reply(Answer::Statfs([0x11, 0x22, 0x33, 0x44, 0x55], [0x66, 0x77, 0x88])),
        &[&[0x60, 0, 0, 0, 0, 0, 0, 0], ID, STATFS],
    ),
    (
        "lock",
        Made::Reply(Answer::Locked(0x11, 0x22, 0x33, 0x44)),
        &[
            &[0x28, 0, 0, 0, 0, 0, 0, 0],
            ID,
            &[
                0x11, 0, 0, 0, 0, 0, 0, 0, 0x22, 0, 0, 0, 0, 0, 0, 0, 0x33, 0, 0, 0, 0x44, 0, 0, 0,
            ],
        ],
    ),
    (
        "directory",
        Made::Reply(Answer::Directory(&[
            (0xaabb, 1, FileType::Directory, b"hello"),
            (0xccdd, 2, FileType::RegularFile, b"world.rs"),
        ])),
        &[&[0x50, 0, 0, 0, 0, 0, 0, 0], ID, DIRECTORY],
    ),
];

pub(crate) fn replies() -> &'static [Vector] {
    REPLIES
}

/// Notices.
const NOTICES: &[Vector] = &[
    ("poll", Made::Notice(News::Poll(0x4321)), &[POLL]),
    (
        "inode",
        Made::Notice(News::InvalInode(0x42, 100, 200)),
        &[INVAL_INODE],
    ),
    (
        "name",
        Made::Notice(News::InvalEntry(0x42, b"abc")),
        &[INVAL_ENTRY],
    ),
    (
        "data to keep",
        Made::Notice(News::Store(0x42, 50, &[0xde, 0xad, 0xbe, 0xef])),
        &[STORE],
    ),
    (
        "name that is gone",
        Made::Notice(News::Delete(0x42, 0x43, b"abc")),
        &[DELETE],
    ),
];

pub(crate) fn notices() -> &'static [Vector] {
    NOTICES
}

/// Arguments, fetched one after the other.
const FETCHES: &[Vector] = &[
    (
        "two names",
        Made::Fetched(ARGUMENTS, &[Fetch::Name, Fetch::Name]),
        &[b"foo, bar, 2 left"],
    ),
    (
        "a number, and then too little",
        Made::Fetched(ARGUMENTS, &[Fetch::Number, Fetch::Access, Fetch::Name]),
        &[b"foo\0bar\0, none, none, 2 left"],
    ),
    (
        "a second number, and the rest",
        Made::Fetched(ARGUMENTS, &[Fetch::Number, Fetch::Number, Fetch::All]),
        &[b"foo\0bar\0, none, ba, 0 left"],
    ),
    (
        "the rest, of which there is none",
        Made::Fetched(ARGUMENTS, &[Fetch::Name, Fetch::All, Fetch::All]),
        &[b"foo, bar\0ba, , 0 left"],
    ),
    (
        "a name and the rest",
        Made::Fetched(ARGUMENTS, &[Fetch::Name, Fetch::All]),
        &[b"foo, ", &[0x62, 0x61, 0x72, 0, 0x62, 0x61], b", 0 left"],
    ),
];

pub(crate) fn fetches() -> &'static [Vector] {
    FETCHES
}

/// Times, and times back.
const TIMES: &[Vector] = &[
    (
        "a time before 1970",
        Made::Time(-1_200_000_000),
        &[b"-2 800000000"],
    ),
    (
        "the same time back",
        Made::SecondsAndNanoseconds(-2, 800_000_000),
        &[b"-1200000000"],
    ),
    (
        "the first second",
        Made::Time(-9_223_372_036_854_775_808_000_000_000),
        &[b"-9223372036854775808 0"],
    ),
    (
        "before the first second",
        Made::Time(-9_223_372_036_854_775_808_000_000_001),
        &[b"-9223372036854775808 0"],
    ),
    (
        "after the last second",
        Made::Time(9_223_372_036_854_775_808_000_000_000),
        &[b"9223372036854775807 999999999"],
    ),
    (
        "the second second",
        Made::Time(-9_223_372_036_854_775_807_000_000_000),
        &[b"-9223372036854775807 0"],
    ),
    (
        "within the first second",
        Made::Time(-9_223_372_036_854_775_807_800_000_000),
        &[b"-9223372036854775808 200000000"],
    ),
    (
        "the last moment",
        Made::SecondsAndNanoseconds(9_223_372_036_854_775_807, 999_999_999),
        &[b"9223372036854775807999999999"],
    ),
    (
        "a second before 1970",
        Made::Time(-1_000_000_000),
        &[b"-1 0"],
    ),
];

pub(crate) fn times() -> &'static [Vector] {
    TIMES
}

/// Options that conflict.
const CONFLICTS: &[Vector] = &[
    (
        "far places",
        Made::Conflict(&["ro", "dev", "nodev", "rw"]),
        &[b"0 and 3"],
    ),
    (
        "no conflict",
        Made::Conflict(&["suid", "noexec"]),
        &[b"none"],
    ),
    (
        "contraries",
        Made::Conflict(&["suid", "nosuid"]),
        &[b"0 and 1"],
    ),
    (
        "places twice",
        Made::Conflict(&["dev", "dev", "nodev", "nodev"]),
        &[b"0 and 2"],
    ),
    (
        "one after another",
        Made::Conflict(&["sync", "ro", "rw", "rw"]),
        &[b"1 and 2"],
    ),
];

pub(crate) fn conflicts() -> &'static [Vector] {
    CONFLICTS
}

/// Options as `Debug` shows them, and their texts.
const TEXTS: &[(&str, &str)] = &[
    ("FSName(OptionText { text: \"Blah\" })", "fsname=Blah"),
    ("Subtype(OptionText { text: \"Bloo\" })", "subtype=Bloo"),
    ("CUSTOM(OptionText { text: \"bongos\" })", "bongos"),
    ("AutoUnmount", "auto_unmount"),
    ("DefaultPermissions", "default_permissions"),
    ("Dev", "dev"),
    ("NoDev", "nodev"),
    ("Suid", "suid"),
    ("NoSuid", "nosuid"),
    ("RO", "ro"),
    ("RW", "rw"),
    ("Exec", "exec"),
    ("NoExec", "noexec"),
    ("Atime", "atime"),
    ("NoAtime", "noatime"),
    ("DirSync", "dirsync"),
    ("Sync", "sync"),
    ("Async", "async"),
];

pub(crate) fn texts() -> &'static [(&'static str, &'static str)] {
    TEXTS
}
