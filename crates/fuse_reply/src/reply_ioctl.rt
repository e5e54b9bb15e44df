// A reply of an ioctl.
ghost use Rattle.std.specs.Prelude.{◌≡◌, ◌+◌, ◌≤◌, length};
ghost use Rattle.fuse_reply.specs.Sizes.{max_payload, inline_size, ioctl_out_size};
ghost use Rattle.fuse_reply.specs.Frame.{reply};
ghost use Rattle.fuse_reply.specs.Reply.{RepliesWith};
ghost use Rattle.fuse_reply.specs.Answer.{IsAnswer};
ghost use Rattle.fuse_reply.specs.Answer.Answer.{Ioctl};
ghost use Rattle.fuse_reply.specs.declared.out.Out.{Out};

use crate::payloads::ioctl_bytes;
use crate::{Packed, Replied, Reply};
use fuse_wire::{Errno, NoMemory};

/// The kind of a reply that carries what an ioctl came to.
pub struct IoctlResults;

/// The reply to a request that is an ioctl.
pub type ReplyIoctl = Reply<IoctlResults>;

impl Reply<IoctlResults> {
    /// The ioctl came to this result, any i32, and gives these bytes back, at most `u32::MAX - 32` of them:
    /// `struct fuse_ioctl_out`, and they stand behind it. More than 128 take memory; where none is to be had, the
    /// reply is ENOMEM.
    #[tactic(auto, using(crate::proofs::AreReplies::ioctl_is_reply))]
    pub fn ioctl(self, code: i32, bytes: &[u8]) -> Replied
        requires { ioctl_out_size + length bytes.now ≤ max_payload }
        ensures replies { RepliesWith self.id (Ioctl code bytes.now) result }
        ensures answer { IsAnswer (Ioctl code bytes.now) }
        ensures inline { ioctl_out_size + length bytes.now ≤ inline_size
            → result ≡ Out.Frame (reply self.id (Ioctl code bytes.now)) }
    {
        let (alloc, id) = self.into_parts();
        match Packed::of_parts(alloc, id, &ioctl_bytes(code), bytes) {
            Ok(packed) => Replied::by(packed),
            Err(NoMemory) => Replied::failed(alloc, id, Errno::ENOMEM),
        }
    }
}
