//! Flags of an open file.
ghost use Rattle.std.specs.Prelude.{◌≡◌};
ghost use Rattle.fuse_wire.specs.OpenMode.{acc_mode};

/// How a file is opened: the low two bits of its flags, `O_ACCMODE`.
#[derive(Clone, Copy, Debug, PartialEq, Eq, Hash)]
pub enum OpenAccMode {
    /// For reading alone: 0.
    O_RDONLY,
    /// For writing alone: 1.
    O_WRONLY,
    /// For reading and writing: 2.
    O_RDWR,
}

/// The flags of `open(2)` and of the file that they opened, as the kernel sends them: `flags` of `struct fuse_open_in`.
/// Any i32 is one, and bits without a name are kept.
#[derive(Clone, Copy, Debug, PartialEq, Eq, Hash)]
pub struct OpenFlags(pub i32);

impl OpenFlags {
    /// How the file is opened, by the low two bits. 3, which is no mode, gives `O_RDONLY`.
    pub fn acc_mode(self) -> OpenAccMode
        ensures { result ≡ acc_mode self.0 }
    {
        match self.0.rem_euclid(4) {
            1 => OpenAccMode::O_WRONLY,
            2 => OpenAccMode::O_RDWR,
            _ => OpenAccMode::O_RDONLY,
        }
    }
}
