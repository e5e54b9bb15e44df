// Sessions of the one file below a layer that lets its keeper alone take names away or change them.
ghost use Rattle.std.specs.Prelude.{false};

use crate::asserts::expect_same;
use crate::rows::{
    BATCH_FORGET, Bytes, EACCES, ENOENT, ENOSYS, EROFS, FORGET, LOOKUP, MKDIR, NOTHING, OPENING,
    Row,
};
use crate::serving::{ended_well, expect_noted, expect_served, serve};
use fuse_config::KernelConfig;
use fuse_read_only::ReadOnly;
use fuse_request::Request;
use fuse_testing::{Argument, Probe, Probing};
use fuse_wire::{Errno, RequestId};
use std::process::Abort;
use std::sync::atomic::{AtomicU64, Ordering};
use templates::KeeperOnly;
use uses::OneFile;

// Linux's numbers: `include/uapi/linux/fuse.h`.
const UNLINK: u8 = 10;

const RMDIR: u8 = 11;

const RENAME: u8 = 12;

/// What root gets where somebody else is the keeper. `struct fuse_rename_in` has the new directory.
const OTHERS: &[Row] = &[
    OPENING,
    (LOOKUP, 1, (&[], b"none\0"), ENOENT, NOTHING),
    (UNLINK, 1, (&[], b"note\0"), EACCES, NOTHING),
    (RMDIR, 1, (&[], b"note\0"), EACCES, NOTHING),
    (RENAME, 1, (&[1], b"note\0new\0"), EACCES, NOTHING),
    (MKDIR, 1, (&[0], b"new\0"), EROFS, NOTHING),
];

/// What it gets as the keeper: all from the filesystem below, which is only read.
const KEEPERS: &[Row] = &[
    OPENING,
    (UNLINK, 1, (&[], b"note\0"), EROFS, NOTHING),
    (RMDIR, 1, (&[], b"note\0"), EROFS, NOTHING),
    (RENAME, 1, (&[1], b"note\0new\0"), EROFS, NOTHING),
];

#[test]
fn only_the_keeper_changes_names(rt: HostRuntime) {
    for (keeper, rows) in [(5, OTHERS), (0, KEEPERS)] {
        let below = ReadOnly::new(OneFile);
        let (_, rest) = serve(&rt, KeeperOnly { below, keeper }, None, rows);
        expect_served(&rt, &rest, rows);
    }
}

/// What a filesystem of a test has of its own: it counts its calls, each row of a batch of forgets as one too.
#[derive(Drop)]
struct Calls {
    count: AtomicU64,
}

impl Probe for Calls {
    ghost own = { λ call answer. Unit {0} };

    const DEFERS: bool = false;

    ghost DEFERS = { false };

    fn started(&mut self, _request: &Request, _config: &mut KernelConfig) -> Result<(), Errno> {
        Ok(())
    }

    fn called(
        &self,
        _request: &Request,
        _method: &'static str,
        _arguments: &[Argument],
        _texts: &[&[u8]],
    ) {
        self.count.fetch_add(1, Ordering::SeqCst);
    }

    fn destroyed(&mut self) {}

    ghost allows_default = { λ call. tt };
}

/// A forget, a batch of one forget, and two calls, of which the first is denied.
const COUNTED: &[Row] = &[
    OPENING,
    (FORGET, 2, (&[1], b""), 0, NOTHING),
    (BATCH_FORGET, 0, (&[1, 2, 1], b""), 0, NOTHING),
    (UNLINK, 1, (&[], b"note\0"), EACCES, NOTHING),
    (LOOKUP, 1, (&[], b"none\0"), ENOSYS, NOTHING),
];

/// The layer with this keeper, over a filesystem that counts its calls.
fn over_counted(keeper: u32) -> KeeperOnly<Probing<Calls>> {
    let calls = Calls {
        count: AtomicU64::new(0),
    };
    KeeperOnly {
        below: Probing { probe: calls },
        keeper,
    }
}

/// The filesystem below was asked so often.
fn was_asked(rt: &impl Abort, layer: KeeperOnly<Probing<Calls>>, count: u64) {
    let asked = layer.below.probe.count.load(Ordering::SeqCst);
    expect_same(rt, &asked, &count);
    drop(layer);
}

/// The filesystem below is asked once for what is handed on, and not at all for what is denied.
#[test]
fn what_is_handed_on_is_asked_once(rt: HostRuntime) {
    let (layer, rest) = serve(&rt, over_counted(5), None, COUNTED);
    expect_noted(&rt, &rest, COUNTED, &[(RequestId(2), 0), (RequestId(3), 0)]);
    was_asked(&rt, layer, 4);
}

/// Every request that has a reply and may come to a filesystem, by its opcode.
const OPCODES: &[u8] = &[
    1, 3, 4, 5, 6, 8, 9, 10, 11, 12, 13, 14, 15, 16, 17, 18, 20, 21, 22, 23, 24, 25, 27, 28, 29,
    30, 31, 32, 33, 34, 35, 37, 39, 40, 43, 44, 45, 46, 47,
];

/// A body that such a request decodes: numbers that are 0, and names that are empty. WRITE and SETXATTR say that they have no
/// data, and have none.
fn body_of(opcode: u8) -> Bytes<'static> {
    match opcode {
        16 => (&[0, 0, 0, 0, 0], b""),
        21 => (&[0], b"\0"),
        _ => (&[0, 0, 0, 0, 0, 0, 0, 0, 0, 0, 0], b""),
    }
}

/// The keeper's are all handed on, each by one call.
#[test]
fn each_request_is_handed_on_by_one_call(rt: HostRuntime) {
    let mut rows = vec![in rt.alloc(); OPENING].expect(&rt, "there is memory");
    for opcode in OPCODES {
        let row = (*opcode, 1, body_of(*opcode), 0, NOTHING);
        rows.push(row).expect(&rt, "there is memory");
    }
    let (layer, rest) = serve(&rt, over_counted(0), None, &rows);
    ended_well(&rt, &rest, 40, 40, &[]);
    was_asked(&rt, layer, 39);
}
