// A reply of an open file.
ghost use Rattle.std.specs.Prelude.{◌≡◌, bit_and};
ghost use Rattle.fuse_wire.specs.Flags.{FOPEN_PASSTHROUGH};
ghost use Rattle.fuse_reply.specs.Frame.{reply};
ghost use Rattle.fuse_reply.specs.Answer.{IsAnswer};
ghost use Rattle.fuse_reply.specs.Answer.Answer.{Open};
ghost use Rattle.fuse_reply.specs.declared.out.Out.{Out};

use crate::payloads::open_bytes;
use crate::{Packed, Replied, Reply};
use bitflags::Flags;
use fuse_wire::{FileHandle, FopenFlags};

/// The kind of a reply that carries an open file.
pub struct OpenFiles;

/// The reply to a request that opens a file or a directory.
pub type ReplyOpen = Reply<OpenFiles>;

impl Reply<OpenFiles> {
    /// It is open under this number, which the kernel names it by from now on, and is treated as the flags say:
    /// `struct fuse_open_out`. `FOPEN_PASSTHROUGH` may not be among them: it wants a file that the server registered
    /// with the kernel, which no reply here can name.
    #[tactic(auto, using(crate::proofs::AreReplies::open_is_reply))]
    pub fn opened(self, fh: FileHandle, flags: FopenFlags) -> Replied
        requires { bit_and flags.0 FOPEN_PASSTHROUGH ≡ 0 }
        ensures reply { result ≡ Out.Frame (reply self.id (Open fh.0 flags.0)) }
        ensures answer { IsAnswer (Open fh.0 flags.0) }
    {
        let (alloc, id) = self.into_parts();
        Replied::by(Packed::short(alloc, id, &open_bytes(fh, flags.bits())))
    }
}
