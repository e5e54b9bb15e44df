// A notice, whole in memory.
ghost use Rattle.std.specs.Prelude.{◌≡◌, ◌↔◌, ◌+◌, ◌<◌, ◌≤◌, ◌^◌, true};
ghost use Rattle.fuse_reply.specs.Sizes.{max_payload};
ghost use Rattle.fuse_reply.specs.Notice.{notice};
ghost use Rattle.fuse_reply.specs.Notice.Notice.{Poll, InvalInode, InvalEntry, Store, Delete};
ghost use Rattle.fuse_notify.specs.Making.{Makes};

use crate::payloads::{entry_head_bytes, range_bytes, wide_head_bytes};
use fuse_reply::{MAX_PAYLOAD, NoticeFrame, Packed};
use fuse_wire::{INodeNo, PollHandle, RequestId};
use std::alloc::Global;
use std::marker::Model;

// The codes of notices are those of `enum fuse_notify_code`.
pub(crate) const FUSE_NOTIFY_POLL: i32 = 1;

const FUSE_NOTIFY_INVAL_INODE: i32 = 2;

const FUSE_NOTIFY_INVAL_ENTRY: i32 = 3;

const FUSE_NOTIFY_STORE: i32 = 4;

const FUSE_NOTIFY_DELETE: i32 = 6;

/// A notice has no request.
const NO_REQUEST: RequestId = RequestId(0);

/// Something that the kernel is told unasked. A contract sees the bytes of its frame.
#[derive(Debug, Drop)]
pub struct Notice {
    pub(crate) frame: NoticeFrame,
}

impl Model for Notice {
    ghost use Rattle.std.specs.Prelude.{ℕ, List};

    ghost Value = { List ℕ };

    ghost view = { λ n. n.frame };
}

/// Why a notice is not made.
#[derive(Clone, Copy, Debug, PartialEq, Eq)]
pub enum NoticeError {
    /// No frame can carry it: the name's or data's length, or the whole frame's, is above `u32::MAX`.
    TooBig,
    /// There is no memory for it.
    Memory,
}

/// Whether a frame can carry so many bytes in front of a name or of data, those, and so many behind them.
fn fits(front: usize, bytes: usize, back: usize) -> bool
    requires { front + bytes + back < 2 ^ 64 }
    ensures { result ≡ true ↔ front + bytes + back ≤ max_payload }
{
    front + bytes + back <= MAX_PAYLOAD
}

impl Notice {
    /// A file that is polled has news: who waits for it polls again. The handle is the one that the poll came with.
    pub fn poll(alloc: Global, handle: PollHandle) -> Notice
        ensures { result ≡ notice (Poll handle.0) }
    {
        let payload = handle.0.to_le_bytes();
        let packed = Packed::new(alloc, NO_REQUEST, FUSE_NOTIFY_POLL, &payload).unwrap();
        Notice {
            frame: NoticeFrame::new(packed),
        }
    }

    /// The kernel is to drop what it keeps of an inode: its attributes and, from an offset on, so many bytes. A length
    /// that is not positive means all bytes from the offset on, and an offset below 0 no bytes.
    pub fn inval_inode(alloc: Global, ino: INodeNo, offset: i64, len: i64) -> Notice
        ensures { result ≡ notice (InvalInode ino.0 offset len) }
    {
        let payload = range_bytes(ino.0, offset, len);
        let packed = Packed::new(alloc, NO_REQUEST, FUSE_NOTIFY_INVAL_INODE, &payload).unwrap();
        Notice {
            frame: NoticeFrame::new(packed),
        }
    }

    /// The kernel is to drop a name in a directory. `TooBig` where no frame can carry the name, `Memory` where the
    /// payload is longer than 144 bytes and there is no memory for it.
    pub fn inval_entry(alloc: Global, parent: INodeNo, name: &[u8]) -> Result<Notice, NoticeError>
        ensures { Makes result (InvalEntry parent.0 name.now) }
    {
        if !fits(16, name.len(), 1) {
            return Err(NoticeError::TooBig);
        }
        let head = entry_head_bytes(parent.0, name.len() as u32);
        let code = FUSE_NOTIFY_INVAL_ENTRY;
        let Ok(packed) = Packed::joined(alloc, NO_REQUEST, code, &head, name, &[0]) else {
            return Err(NoticeError::Memory);
        };
        Ok(Notice {
            frame: NoticeFrame::new(packed),
        })
    }

    /// The kernel is to keep these bytes of an inode, from an offset on, which is in bytes. Where they end behind the
    /// file's end, the kernel takes the file to be that long. `TooBig` where no frame can carry the bytes, `Memory`
    /// where the payload is longer than 144 bytes and there is no memory for it.
    pub fn store(
        alloc: Global,
        ino: INodeNo,
        offset: u64,
        bytes: &[u8],
    ) -> Result<Notice, NoticeError>
        ensures { Makes result (Store ino.0 offset bytes.now) }
    {
        if !fits(24, bytes.len(), 0) {
            return Err(NoticeError::TooBig);
        }
        let head = wide_head_bytes(ino.0, offset, bytes.len() as u32);
        let Ok(packed) = Packed::joined(alloc, NO_REQUEST, FUSE_NOTIFY_STORE, &head, bytes, &[])
        else {
            return Err(NoticeError::Memory);
        };
        Ok(Notice {
            frame: NoticeFrame::new(packed),
        })
    }

    /// A name in a directory is gone, and led to the inode `child`. The kernel drops the name, as by `inval_entry`,
    /// and tells those who watch the inode. `TooBig` where no frame can carry the name, `Memory` where the payload is
    /// longer than 144 bytes and there is no memory for it.
    pub fn delete(
        alloc: Global,
        parent: INodeNo,
        child: INodeNo,
        name: &[u8],
    ) -> Result<Notice, NoticeError>
        ensures { Makes result (Delete parent.0 child.0 name.now) }
    {
        if !fits(24, name.len(), 1) {
            return Err(NoticeError::TooBig);
        }
        let head = wide_head_bytes(parent.0, child.0, name.len() as u32);
        let Ok(packed) = Packed::joined(alloc, NO_REQUEST, FUSE_NOTIFY_DELETE, &head, name, &[0])
        else {
            return Err(NoticeError::Memory);
        };
        Ok(Notice {
            frame: NoticeFrame::new(packed),
        })
    }

    /// The frame of the notice, as a line of frames takes it.
    #[inline(always)]
    pub fn into_frame(self) -> NoticeFrame
        ensures { result ≡ self }
    {
        self.frame
    }
}
