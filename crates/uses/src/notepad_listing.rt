// The directory of the notepad, as it is listed.
ghost use Rattle.uses.specs.Notepad.{listed_tree};

use crate::notepad_nodes::{directory, ttl};
use fuse_read_only::{Entry, Files};
use fuse_wire::{Duration, FileAttr, FileType, INodeNo};

/// The directory, with the name `note` in it. It is there for READDIR alone, which is answered of it as of any tree.
#[derive(Clone, Copy)]
pub(crate) struct Listed;

impl Files for Listed {
    ghost tree = { λ files. listed_tree };

    fn attr(&self, ino: INodeNo) -> Option<FileAttr> {
        match ino.0 {
            1 => Some(directory()),
            _ => None,
        }
    }

    fn named(&self, _parent: INodeNo, _name: &[u8]) -> Option<FileAttr> {
        None
    }

    fn contents(&self, _ino: INodeNo) -> Option<&[u8]> {
        None
    }

    fn entry(&self, ino: INodeNo, place: usize) -> Option<Entry<'_>> {
        if ino.0 != 1 {
            return None;
        }
        let (ino, kind, name) = match place {
            0 => (INodeNo(1), FileType::Directory, b".".as_slice()),
            1 => (INodeNo(1), FileType::Directory, b"..".as_slice()),
            2 => (INodeNo(2), FileType::RegularFile, b"note".as_slice()),
            _ => return None,
        };
        Some(Entry { ino, kind, name })
    }

    fn ttl(&self) -> Duration {
        ttl()
    }
}
