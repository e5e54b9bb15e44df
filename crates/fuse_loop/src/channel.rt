// What a session speaks through: its source, its sink and its buffer, and the counts of what went through them.
ghost use Rattle.std.specs.Prelude.{◌≡◌, ◌≤◌, [], take};
ghost use Rattle.fuse_loop.specs.Progress.{DeliversOnce, NoticesAlone, TakesNext, beside, nothing_yet, progress};
ghost use Rattle.fuse_loop.specs.Lines.{notices_in};

use crate::intake::Intake;
use crate::outlet::Outlet;
use crate::run_line::RunLine;
use crate::{Buffers, Lines, Taken, Transcript};
use fuse_line::LineEmpty;
use fuse_reply::{Out, Parcel};
use fuse_wire::consts::BUFFER_SIZE;
use fuse_wire::{Sink, Source};
use std::marker::Model;
use std::sync::Wait;

/// The source and the sink of a session, the receive buffer, and the counts. A contract sees what the devices tell.
#[derive(Drop)]
pub struct Channel<S: Source, K: Sink> {
    intake: Intake<S>,
    outlet: Outlet<K>,
}

impl<S: Source, K: Sink> Model for Channel<S, K> {
    ghost use Rattle.std.specs.Prelude.{[]};
    ghost use Rattle.fuse_loop.specs.Progress.{ChannelState, progress};

    ghost Value = { ChannelState };

    ghost view = { λ c. record {
      progress = progress c.intake.source c.outlet.sink
          (record c.outlet.counts { received = c.intake.received }) [];
      buffer = c.intake.buffer;
    } };
}

impl<S: Source, K: Sink> Channel<S, K> {
    /// A channel through which nothing went yet, and the lines of its run.
    pub fn open(source: S, sink: K, buffers: Buffers) -> (Channel<S, K>, Lines)
        ensures channel { result.0.progress ≡ progress (S.told source) (K.told sink) nothing_yet [] }
        ensures lines { result.1 ≡ buffers }
    {
        let Buffers { receive, lines } = buffers;
        let intake = Intake {
            source,
            buffer: receive,
            received: 0,
        };
        let outlet = Outlet {
            sink,
            transcript: Transcript::new(),
        };
        (Channel { intake, outlet }, lines)
    }

    /// The source, the sink, the memory, and the counts.
    pub fn close(self, lines: Lines) -> (S, K, Buffers, Transcript)
        ensures channel { self.progress ≡ progress (S.told result.0) (K.told result.1) result.3 [] }
        ensures recorded { result.3.unrecorded ≡ 0 }
        ensures lines { result.2 ≡ lines }
    {
        let Channel { intake, outlet } = self;
        let Intake {
            source,
            buffer,
            received,
        } = intake;
        let Outlet { sink, transcript } = outlet;
        let transcript = Transcript {
            received,
            ..transcript
        };
        let buffers = Buffers {
            receive: buffer,
            lines,
        };
        (source, sink, buffers, transcript)
    }

    /// The message of so many bytes that was taken last.
    #[inline(always)]
    pub fn message(&self, count: usize) -> &[u8]
        requires { count ≤ BUFFER_SIZE }
        ensures { result.now ≡ take count self.now.buffer }
    {
        self.intake.message(count)
    }

    /// Takes the next message, trying again where nothing came.
    #[inline(always)]
    pub fn take_message<R: Wait>(&mut self, rt: &R) -> Taken
        ensures { TakesNext result self.old self.new }
    {
        self.intake.take_message(rt)
    }

    /// Hands something to the sink, and counts what became of it.
    #[inline(always)]
    pub fn deliver(&mut self, out: Out)
        ensures { DeliversOnce out self.old self.new }
    {
        self.outlet.deliver(out);
    }

    /// Hands each notice that waits to the sink, until the line is found empty. One that the sink does not take is not
    /// sent again, and is counted nowhere.
    #[inline(always)]
    pub(crate) fn pass_on_notices<R: Wait>(
        &mut self,
        rt: &R,
        frames: &mut RunLine<Parcel>,
    ) -> LineEmpty<Parcel>
        ensures notices { NoticesAlone (beside self.old.progress (notices_in frames.old.hand.taken))
            (beside self.new.progress (notices_in frames.new.hand.taken)) }
        ensures line { frames.new.line ≡ frames.old.line }
        ensures drained { result ≡ frames.old.line }
    {
        match frames.see_empty() {
            Some(drained) => drained,
            None => self.outlet.send_notices(rt, frames),
        }
    }
}
