// The end that frames go out by.
ghost use Rattle.std.specs.Prelude.{◌≡◌};
ghost use Rattle.fuse_wire.specs.Source.{SourceState};
ghost use Rattle.fuse_loop.specs.Lines.{notices_in};
ghost use Rattle.fuse_loop.specs.Progress.{NoticesAlone, PassesOnParcel, SendsNotice, SendsOnce, progress};
ghost use Rattle.fuse_loop.specs.declared.transcript.Transcript.{Transcript as Counts};

use crate::Transcript;
use crate::run_line::RunLine;
use fuse_line::LineEmpty;
use fuse_reply::{NoticeFrame, Out, OutEnd, Parcel};
use fuse_wire::Sink;
use std::marker::Model;
use std::sync::Wait;

/// The sink of a session, and the counts of what went to it: what can't be recorded is not counted here. A contract sees
/// what the sink tells.
#[derive(Drop)]
pub struct Outlet<K: Sink> {
    /// Where frames and notes go.
    pub sink: K,
    /// What became of them.
    pub transcript: Transcript,
}

impl<K: Sink> Model for Outlet<K> {
    ghost use Rattle.std.specs.Prelude.{◌≡◌};
    ghost use Rattle.fuse_loop.specs.Progress.{OutletState};

    ghost Value = { OutletState };

    ghost view = { λ o. record { sink = K.told o.sink; counts = o.transcript } };

    ghost invariant = { λ o. o.transcript.unrecorded ≡ 0 };
}

impl<K: Sink> Outlet<K> {
    /// Hands something to the sink, and counts what became of it.
    #[inline(always)]
    pub fn deliver(&mut self, out: Out)
        ensures { SendsOnce out self.old self.new }
    {
        match out.send(&mut self.sink) {
            OutEnd::Written => {
                self.transcript.frames = self.transcript.frames.saturating_add(1);
            }
            OutEnd::Noted => self.transcript.notes = self.transcript.notes.saturating_add(1),
            OutEnd::Lost => self.transcript.lost = self.transcript.lost.saturating_add(1),
            OutEnd::Marked => {}
        }
    }

    /// Hands a notice to the sink. One that the sink does not take is not sent again, and is counted nowhere.
    pub fn pass_on(&mut self, notice: NoticeFrame)
        ensures { SendsNotice notice self.old self.new }
    {
        let _ = notice.send(&mut self.sink);
    }

    /// Hands a parcel to the sink, but for a frame that comes later. In a run that has no replies which come later no
    /// mark was sent that such a frame could stand for, so that it is one of another run, and is dropped.
    pub fn deliver_parcel(&mut self, parcel: Parcel)
        ensures { PassesOnParcel parcel self.old self.new }
    {
        match parcel {
            Parcel::Prompt(_, out) => self.deliver(out),
            Parcel::Notice(notice) => self.pass_on(notice),
            Parcel::Late(_) => {}
        }
    }

    /// Hands each notice that waits to the sink, until the line is found empty, by a way that messages seldom take.
    #[inline(never)]
    pub fn send_notices<R: Wait>(
        &mut self,
        rt: &R,
        frames: &mut RunLine<Parcel>,
    ) -> LineEmpty<Parcel>
        ensures notices { (source : SourceState) (counts : Counts) →
            NoticesAlone (progress source self.old.sink counts (notices_in frames.old.hand.taken))
            (progress source self.new.sink counts (notices_in frames.new.hand.taken)) }
        ensures counts { self.new.counts ≡ self.old.counts }
        ensures line { frames.new.line ≡ frames.old.line }
        ensures drained { result ≡ frames.old.line }
    {
        for _ in rt.forever() {
            match frames.next(rt) {
                Ok(parcel) => self.deliver_parcel(parcel),
                Err(drained) => return drained,
            }
        }
        unreachable!()
    }
}
