//! Messages cut from a stream of bytes.
ghost use Rattle.std.specs.Prelude.{◌≡◌, ◌≢◌, length};
ghost use Rattle.fuse_wire.specs.Source.{Receives};
ghost use Rattle.fuse_wire.specs.StreamSource.{source_stream, FillsPiece, stream_source_told};

use crate::consts::{BUFFER_SIZE, REQUEST_HEADER_SIZE};
use crate::{ByteRead, ByteSource, Received, Source, u32_at};

/// A source that cuts a stream of bytes into messages, by their length fields. `into_inner` gives the stream back.
#[derive(Debug, Drop)]
pub struct StreamSource<I> {
    inner: I,
}

impl<I> StreamSource<I> {
    /// Cuts the bytes of this stream.
    pub fn new(inner: I) -> StreamSource<I>
        ensures { source_stream result ≡ inner }
    {
        StreamSource { inner }
    }

    /// The stream, at the byte after the last message that was taken.
    pub fn into_inner(self) -> I
        ensures { result ≡ source_stream self }
    {
        let StreamSource { inner } = self;
        inner
    }
}

/// Reads until the piece is full or no byte is left, and says how many bytes came. None is a fault.
#[inline(always)]
fn fill<I: ByteSource>(inner: &mut I, piece: &mut [u8]) -> Option<usize>
    ensures { FillsPiece result (length piece.old) (I.told inner.old) (I.told inner.new) piece.new }
{
    let mut count = 0;
    while count < piece.len() {
        match inner.read(&mut piece[count..]) {
            ByteRead::Got(more) => count += more,
            ByteRead::End => return Some(count),
            ByteRead::Failed => return None,
        }
    }
    Some(count)
}

impl<I: ByteSource> Source for StreamSource<I> {
    ghost told = { λ s. stream_source_told (I.told s.inner) };

    /// The next message. A stream that has none now is waited for: the answer is never Retry.
    fn receive(&mut self, buffer: &mut [u8]) -> Received
        requires { length buffer.old ≡ BUFFER_SIZE }
        ensures received { Receives result
            (stream_source_told (I.told (source_stream self.old))) (stream_source_told (I.told (source_stream self.new))) buffer.new }
        ensures never_retries { result ≢ Received.Retry }
    {
        let Some(count) = fill(&mut self.inner, &mut buffer[..REQUEST_HEADER_SIZE]) else {
            return Received::Failed;
        };
        if count == 0 {
            return Received::Gone;
        }
        if count < REQUEST_HEADER_SIZE {
            return Received::Message(count);
        }
        let end = (u32_at(buffer, 0) as usize).clamp(REQUEST_HEADER_SIZE, BUFFER_SIZE);
        match fill(&mut self.inner, &mut buffer[REQUEST_HEADER_SIZE..end]) {
            Some(more) => Received::Message(REQUEST_HEADER_SIZE + more),
            None => Received::Failed,
        }
    }
}
