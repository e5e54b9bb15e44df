// What can happen.
use fuse_reply::{LateFrame, NoticeFrame, Out};
use fuse_wire::{Items, RequestId};

/// One step of a run. A worker is named by the place of its hand, from 0.
#[derive(Drop)]
pub enum Event {
    /// A message is received, and becomes a job.
    Receive(Items<u8>),
    /// A worker takes the first job.
    Take(usize),
    /// A worker answers its job.
    Answer(usize, Out),
    /// A worker leaves the answer of its job for later, under this number and the id of this request.
    Defer(usize, u64, RequestId),
    /// A worker puts its answer on the line.
    Push(usize),
    /// The first parcel of the line is sent.
    Send,
    /// A message is received and answered at once, with no worker, and the answer is put on the line.
    Own(Items<u8>, Out),
    /// A reply that comes later is put on the line.
    Late(LateFrame),
    /// A notice is put on the line.
    Notify(NoticeFrame),
}
