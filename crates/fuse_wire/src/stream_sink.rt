//! Frames written to a stream of bytes.
ghost use Rattle.std.specs.Prelude.{◌≡◌, ◌+◌, ◌++◌, false, length};
ghost use Rattle.fuse_wire.specs.Numbers.{number};
ghost use Rattle.fuse_wire.specs.Sink.{Notes, Sends};
ghost use Rattle.fuse_wire.specs.StreamSink.{Stands, WritesAll, stream_sink_told};

use crate::{ByteSink, Noting, RequestId, Sending, Sink, write_all};
use std::fmt;
use std::snapshot::Snapshot;

/// A sink that writes its frames one after the other, and keeps none. Once a write has failed nothing more is written,
/// so that what is on the stream is whole frames and at most a part of one after them. Each later send is refused, and
/// counted with the faults of the stream. `into_inner` gives the stream back.
#[derive(Drop)]
pub struct StreamSink<O: ByteSink> {
    inner: O,
    broken: bool,
    refused: u64,
    origin: Snapshot<O>,
    ghost stands: { ∥ Stands (stream_sink_told (O.told origin.value) (O.told inner) broken refused)
        (O.told inner) broken ∥₁ },
}

impl<O: ByteSink> StreamSink<O> {
    ghost use Rattle.fuse_wire.specs.HeldSink.{sink_stream, is_broken, made_over, refusals};

    /// Writes to the end of this stream.
    pub fn new(inner: O) -> StreamSink<O>
        ensures held { sink_stream result ≡ inner }
        ensures origin { made_over result ≡ inner }
        ensures broken { is_broken result ≡ false }
        ensures fresh { refusals result ≡ 0 }
    {
        let origin = Snapshot::of(&inner);
        StreamSink {
            inner,
            broken: false,
            refused: 0,
            origin,
        }
    }

    /// Whether a write has failed since `new`.
    pub fn broken(&self) -> bool
        ensures { result ≡ is_broken self.now }
    {
        self.broken
    }

    /// The stream, after the last byte that was written.
    pub fn into_inner(self) -> O
        ensures held { result ≡ sink_stream self }
        ensures stands { ∥ Stands
            (stream_sink_told (O.told (made_over self)) (O.told result) (is_broken self) (refusals self))
            (O.told result) (is_broken self) ∥₁ }
    {
        let StreamSink {
            inner,
            broken: _,
            refused: _,
            origin: _,
        } = self;
        inner
    }
}

/// Writes the header and then the payload, or answers false where a write failed.
fn write_frame<O: ByteSink>(inner: &mut O, header: &[u8; 16], payload: &[u8]) -> bool
    ensures { WritesAll result (header.now ++ payload.now) (O.told inner.old) (O.told inner.new) }
{
    write_all(inner, header) && write_all(inner, payload)
}

/// How it stands, without the stream.
impl<O: ByteSink> fmt::Debug for StreamSink<O> {
    fn fmt<W: fmt::Write>(&self, f: &mut fmt::Formatter<W>) -> fmt::Result {
        f.debug_struct("StreamSink")
            .field("broken", &self.broken)
            .finish_non_exhaustive()
    }
}

impl<O: ByteSink> Sink for StreamSink<O> {
    ghost use Rattle.fuse_wire.specs.HeldSink.{SendsStream, sink_stream, sink_told};

    ghost told = { sink_told O.told };

    /// Writes the frame, or says that a write failed, now or before.
    fn send(&mut self, header: &[u8; 16], payload: &[u8]) -> Sending
        requires { number header.now 0 4 ≡ 16 + length payload.now }
        ensures sends { Sends result (header.now ++ payload.now)
            (sink_told O.told self.old) (sink_told O.told self.new) }
        ensures exactly { SendsStream result (header.now ++ payload.now)
            (O.told (sink_stream self.old)) (O.told (sink_stream self.new)) self.old self.new }
    {
        if self.broken {
            self.refused = self.refused.saturating_add(1);
            return Sending::Failed;
        }
        if write_frame(&mut self.inner, header, payload) {
            return Sending::Sent;
        }
        self.broken = true;
        Sending::Failed
    }

    /// A stream has no place for notes: each is taken, and none is told.
    fn note(&mut self, _id: RequestId, _mark: u64) -> Noting
        ensures notes { Notes result (_id.0, _mark) (sink_told O.told self.old) (sink_told O.told self.new) }
        ensures sent { result ≡ Noting.Sent }
        ensures unchanged { self.new ≡ self.old }
    {
        Noting::Sent
    }
}
