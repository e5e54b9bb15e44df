// The nodes of the notepad: its directory and its file.
ghost use Rattle.std.specs.Prelude.{◌≡◌};
ghost use Rattle.fuse_wire.specs.Times.{nanos_per_second};
ghost use Rattle.uses.specs.Notepad.{directory, is_note, node_of};

use fuse_wire::{Duration, FileAttr, FileType, INodeNo, root_attr};

/// What a number of a node means.
#[derive(Clone, Copy)]
pub(crate) enum Node {
    /// The file `note`.
    File,
    /// The directory.
    Root,
    /// There is no such node.
    Absent,
}

/// Which node a number is.
pub(crate) fn node_of(ino: INodeNo) -> Node
    ensures { result ≡ node_of ino.0 }
{
    match ino.0 {
        2 => Node::File,
        1 => Node::Root,
        _ => Node::Absent,
    }
}

/// Whether a name in this directory means the file.
pub(crate) fn is_note(parent: INodeNo, name: &[u8]) -> bool
    ensures { result ≡ is_note parent.0 name.now }
{
    parent == INodeNo::ROOT && name == b"note".as_slice()
}

/// The attributes of the directory.
pub(crate) fn directory() -> FileAttr
    ensures { result ≡ directory }
{
    root_attr(INodeNo::ROOT, FileType::Directory, 0o755, 2, 0)
}

/// How long names and attributes hold.
pub(crate) fn ttl() -> Duration
    ensures { result ≡ nanos_per_second }
{
    Duration::new(1, 0)
}
