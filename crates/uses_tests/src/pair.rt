// A small tree: a directory with two files, and a symbolic link.
ghost use Rattle.std.specs.Prelude.{◌==◌, ◌&&◌, [], ◌∷◌, ◌++◌, None, Some, codes, if◌then◌else◌};
ghost use Rattle.std.specs.Str.{bytes_eq};
ghost use Rattle.fuse_wire.specs.declared.file_attr.FileType.TheVariants.{Directory, RegularFile, Symlink};
ghost use Rattle.fuse_wire.specs.FileAttr.{root_attr};

use fuse_read_only::{Entry, Files};
use fuse_wire::{Duration, FileAttr, FileType, INodeNo, root_attr};

/// The directory 1 with two files: `one`, which is node 2, and node 3, whose entry and whose contents are long. Its
/// attributes say that it has more. Node 4 is a symbolic link without a name.
#[derive(Clone, Copy, Debug, PartialEq, Eq)]
pub(crate) struct Pair;

/// The name of node 3.
pub(crate) const LONG: &[u8; 40] = b"another-file-whose-name-has-forty-bytes!";

/// Its contents: more than a reply holds without memory.
pub(crate) const DIGITS: &[u8; 160] =
    b"0123456789012345678901234567890123456789012345678901234567890123456789012345678901234567890123456789012345678901234567890123456789012345678901234567890123456789";

impl Files for Pair {
    ghost tree = { λ files. record {
      attributes = λ ino.
          if ino == 1 then Some (root_attr 1 Directory 493 2 0)
          else if ino == 2 then Some (root_attr 2 RegularFile 292 1 6)
          else if ino == 3 then Some (root_attr 3 RegularFile 292 1 513)
          else if ino == 4 then Some (root_attr 4 Symlink 511 1 3)
          else None;
      names = λ parent name.
          if (parent == 1) && bytes_eq name (codes "one") then Some (root_attr 2 RegularFile 292 1 6) else None;
      contents = λ ino.
          if ino == 2 then Some (codes "first\n")
          else if ino == 3 then Some (codes "01234567890123456789012345678901234567890123456789012345678901234567890123456789"
          ++ codes "01234567890123456789012345678901234567890123456789012345678901234567890123456789")
          else if ino == 4 then Some (codes "one")
          else None;
      entries = λ ino. if ino == 1 then
          record { ino = 1; kind = Directory; name = codes "." }
          ∷ record { ino = 1; kind = Directory; name = codes ".." }
          ∷ record { ino = 2; kind = RegularFile; name = codes "one" }
          ∷ record { ino = 3; kind = RegularFile; name = codes "another-file-whose-name-has-forty-bytes!" }
          ∷ [] else [];
      ttl = 1000000000;
    } };

    fn attr(&self, ino: INodeNo) -> Option<FileAttr> {
        match ino.0 {
            1 => Some(root_attr(ino, FileType::Directory, 0o755, 2, 0)),
            2 => Some(root_attr(ino, FileType::RegularFile, 0o444, 1, 6)),
            3 => Some(root_attr(ino, FileType::RegularFile, 0o444, 1, 513)),
            4 => Some(root_attr(ino, FileType::Symlink, 0o777, 1, 3)),
            _ => None,
        }
    }

    fn named(&self, parent: INodeNo, name: &[u8]) -> Option<FileAttr> {
        if parent.0 == 1 && name == b"one".as_slice() {
            self.attr(INodeNo(2))
        } else {
            None
        }
    }

    fn contents(&self, ino: INodeNo) -> Option<&[u8]> {
        match ino.0 {
            2 => Some(b"first\n"),
            3 => Some(DIGITS),
            4 => Some(b"one"),
            _ => None,
        }
    }

    fn entry(&self, ino: INodeNo, place: usize) -> Option<Entry<'_>> {
        if ino.0 != 1 {
            return None;
        }
        let (ino, kind, name) = match place {
            0 => (INodeNo(1), FileType::Directory, b".".as_slice()),
            1 => (INodeNo(1), FileType::Directory, b"..".as_slice()),
            2 => (INodeNo(2), FileType::RegularFile, b"one".as_slice()),
            3 => (INodeNo(3), FileType::RegularFile, LONG.as_slice()),
            _ => return None,
        };
        Some(Entry { ino, kind, name })
    }

    fn ttl(&self) -> Duration {
        Duration::new(1, 0)
    }
}
