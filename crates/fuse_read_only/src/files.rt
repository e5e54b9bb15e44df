// A tree of files that is only looked at.
ghost use Rattle.std.specs.Prelude.{◌≡◌, option_map, slice_get};
ghost use Rattle.fuse_read_only.specs.Tree.{Tree, member_of};

use fuse_wire::{Duration, FileAttr, FileType, INodeNo};

/// An entry of a directory.
#[derive(Clone, Copy, Debug)]
pub struct Entry<'a> {
    /// The node.
    pub ino: INodeNo,
    /// What kind of file it is.
    pub kind: FileType,
    /// Its name there, which is not empty and has no `/`.
    pub name: &'a [u8],
}

/// A tree of files that is only looked at, and does not change. The node 1 is its root. Each function gives what the
/// function of its name in `Tree` gives. A tree that is served is `Send` and `Sync` too.
pub trait Files {
    /// The tree, over plain data. What is proved of a session speaks of the files by this alone.
    ghost tree: { Self → Tree };

    /// The attributes of a node. None is that there is no such node.
    fn attr(&self, ino: INodeNo) -> Option<FileAttr>
        ensures { result ≡ (tree self.now).attributes ino.0 };

    /// The attributes of the node that the name means in the directory `parent`. None is that it means none.
    fn named(&self, parent: INodeNo, name: &[u8]) -> Option<FileAttr>
        ensures { result ≡ (tree self.now).names parent.0 name.now };

    /// All bytes of a file, or the path that a symbolic link leads to. None is that it is neither.
    fn contents(&self, ino: INodeNo) -> Option<&[u8]>
        ensures { option_map (λ all. all.now) result ≡ (tree self.now).contents ino.0 };

    /// What stands at this place of a directory, from 0 on. `.` and `..` are entries like others. None is that nothing
    /// stands there or at a later place; so it is for a node that is no directory.
    fn entry(&self, ino: INodeNo, place: usize) -> Option<Entry<'_>>
        ensures { option_map member_of result ≡ slice_get ((tree self.now).entries ino.0) place };

    /// How long the kernel may rely on names and attributes.
    fn ttl(&self) -> Duration
        ensures { result ≡ (tree self.now).ttl };
}
