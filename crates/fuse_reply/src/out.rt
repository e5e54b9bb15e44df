// What goes out for a message.
ghost use Rattle.std.specs.Prelude.{◌≡◌};
ghost use Rattle.fuse_reply.specs.Deliver.{Delivers, NoNotice};

use crate::ReplyFrame;
use fuse_wire::{Noting, RequestId, Sending, Sink};
use std::alloc::AllocError;

/// What goes out for a message.
#[derive(Debug, Drop)]
pub enum Out {
    /// The reply to a request.
    Frame(ReplyFrame),
    /// A note in place of a frame: a forget's request and the mark that its filesystem gave, or an INTERRUPT that is
    /// honoured and the id of the request that it cuts short.
    Note(RequestId, u64),
    /// Nothing yet: the reply of the message with this number and request comes later.
    Deferred(u64, RequestId),
}

/// A copy is the same.
impl Clone for Out {
    ghost is_clone = { λ out copy. copy ≡ out };

    fn clone(&self) -> Result<Out, AllocError> {
        match self {
            Out::Frame(frame) => Ok(Out::Frame(frame.clone()?)),
            Out::Note(id, mark) => Ok(Out::Note(*id, *mark)),
            Out::Deferred(seq, id) => Ok(Out::Deferred(*seq, *id)),
        }
    }
}

/// What became of it.
#[derive(Clone, Copy, Debug, PartialEq, Eq)]
pub enum OutEnd {
    /// The frame was taken.
    Written,
    /// The note was taken.
    Noted,
    /// The frame or note was not taken, and the sink counted it.
    Lost,
    /// Nothing was to be sent.
    Marked,
}

impl Out {
    /// A note in place of a frame.
    #[inline(always)]
    pub fn note(id: RequestId, mark: u64) -> Out
        ensures { result ≡ Out.Note id mark }
    {
        Out::Note(id, mark)
    }

    /// Hands it to a sink, once. A frame that goes out so is a reply, and no notice.
    #[inline(always)]
    pub fn send<K: Sink>(self, sink: &mut K) -> OutEnd
        ensures delivers { Delivers result self (K.told sink.old) (K.told sink.new) }
        ensures reply { NoNotice self }
    {
        match self {
            Out::Frame(frame) => match frame.send(sink) {
                Sending::Sent => OutEnd::Written,
                Sending::Absent | Sending::Failed => OutEnd::Lost,
            },
            Out::Note(id, mark) => match sink.note(id, mark) {
                Noting::Sent => OutEnd::Noted,
                Noting::Failed => OutEnd::Lost,
            },
            Out::Deferred(_, _) => OutEnd::Marked,
        }
    }
}
