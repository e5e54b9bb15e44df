// A tree whose directory and whose file are long.
ghost use Rattle.std.specs.Prelude.{◌==◌, [], None, Some, map, if◌then◌else◌};
ghost use Rattle.fuse_wire.specs.declared.file_attr.FileType.TheVariants.{Directory, RegularFile};
ghost use Rattle.fuse_wire.specs.FileAttr.{root_attr};

use fuse_read_only::{Entry, Files};
use fuse_wire::{Duration, FileAttr, FileType, INodeNo, root_attr};

/// The directory 1, in which node 2, the one file, has many names.
#[derive(Drop)]
pub(crate) struct Wide {
    /// The names, in their order.
    pub(crate) names: Vec<[u8; 3]>,
    /// What the file holds.
    pub(crate) file: Vec<u8>,
}

impl Files for Wide {
    ghost tree = { λ files. record {
      attributes = λ ino. if ino == 1 then Some (root_attr 1 Directory 493 2 0) else None;
      names = λ parent name. None;
      contents = λ ino. if ino == 2 then Some files.file.items else None;
      entries = λ ino. if ino == 1
          then map (λ name. record { ino = 2; kind = RegularFile; name = name }) files.names.items else [];
      ttl = 1000000000;
    } };

    fn attr(&self, ino: INodeNo) -> Option<FileAttr> {
        if ino.0 == 1 {
            Some(root_attr(ino, FileType::Directory, 0o755, 2, 0))
        } else {
            None
        }
    }

    fn named(&self, _parent: INodeNo, _name: &[u8]) -> Option<FileAttr> {
        None
    }

    fn contents(&self, ino: INodeNo) -> Option<&[u8]> {
        if ino.0 == 2 {
            Some(self.file.as_slice())
        } else {
            None
        }
    }

    fn entry(&self, ino: INodeNo, place: usize) -> Option<Entry<'_>> {
        if ino.0 != 1 {
            return None;
        }
        let name = self.names.get(place)?;
        Some(Entry {
            ino: INodeNo(2),
            kind: FileType::RegularFile,
            name: name.as_slice(),
        })
    }

    fn ttl(&self) -> Duration {
        Duration::new(1, 0)
    }
}
