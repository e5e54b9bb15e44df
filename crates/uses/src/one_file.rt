// A tree of files: a directory with one file in it.
ghost use Rattle.uses.specs.OneFile.{one_file};

use fuse_read_only::{Entry, Files};
use fuse_wire::{Duration, FileAttr, FileType, INodeNo, root_attr};

/// What the file holds.
const CONTENTS: &[u8; 19] = b"Remember the milk.\n";

/// The directory 1 with the file `note`, which is node 2.
#[derive(Clone, Copy, Debug, PartialEq, Eq)]
pub struct OneFile;

impl Files for OneFile {
    ghost tree = { λ files. one_file };

    fn attr(&self, ino: INodeNo) -> Option<FileAttr> {
        match ino.0 {
            1 => Some(root_attr(ino, FileType::Directory, 0o755, 2, 0)),
            2 => Some(root_attr(ino, FileType::RegularFile, 0o444, 1, 19)),
            _ => None,
        }
    }

    fn named(&self, parent: INodeNo, name: &[u8]) -> Option<FileAttr> {
        if parent.0 == 1 && name == b"note".as_slice() {
            self.attr(INodeNo(2))
        } else {
            None
        }
    }

    fn contents(&self, ino: INodeNo) -> Option<&[u8]> {
        if ino.0 == 2 { Some(CONTENTS) } else { None }
    }

    fn entry(&self, ino: INodeNo, place: usize) -> Option<Entry<'_>> {
        if ino.0 != 1 {
            return None;
        }
        let (ino, kind, name) = match place {
            0 => (INodeNo(1), FileType::Directory, b".".as_slice()),
            1 => (INodeNo(1), FileType::Directory, b"..".as_slice()),
            2 => (INodeNo(2), FileType::RegularFile, b"note".as_slice()),
            _ => return None,
        };
        Some(Entry { ino, kind, name })
    }

    fn ttl(&self) -> Duration {
        Duration::new(1, 0)
    }
}
