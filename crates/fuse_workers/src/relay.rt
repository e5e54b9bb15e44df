// The end that frames go out by, with the book of replies that come later.
ghost use Rattle.std.specs.Prelude.{◌≡◌};
ghost use Rattle.fuse_workers.specs.Relays.{SendsLate, SendsOut, SendsParcel, relay_of};

use fuse_core::Book;
use fuse_loop::Outlet;
use fuse_reply::{LateFrame, Out, Parcel};
use fuse_wire::Sink;

/// The end that frames go out by, with the book of replies that come later.
#[derive(Drop)]
pub(crate) struct Relay<K: Sink> {
    /// Where frames and notes go.
    pub outlet: Outlet<K>,
    /// The marks of replies that come later, and the late frames without one yet.
    pub book: Book<LateFrame>,
}

impl<K: Sink> Relay<K> {
    /// Hands on a parcel: what goes out at once to the sink, and a late frame as the book lets it go.
    #[inline(always)]
    pub(crate) fn deliver_parcel(&mut self, parcel: Parcel)
        ensures { SendsParcel parcel (relay_of self.old.outlet self.old.book) (relay_of self.new.outlet self.new.book) }
    {
        match parcel {
            Parcel::Prompt(_, out) => self.deliver(out),
            Parcel::Notice(notice) => self.outlet.pass_on(notice),
            Parcel::Late(late) => {
                let (seq, id) = (late.seq(), late.id());
                let go = self.book.late(seq, id, late);
                self.send_late(go);
            }
        }
    }

    /// Hands what goes out for a message to the sink. The mark of a reply that comes later lets its frame go.
    #[inline(always)]
    pub(crate) fn deliver(&mut self, out: Out)
        ensures { SendsOut out (relay_of self.old.outlet self.old.book) (relay_of self.new.outlet self.new.book) }
    {
        match out {
            Out::Frame(frame) => self.outlet.deliver(Out::Frame(frame)),
            Out::Note(id, mark) => self.outlet.deliver(Out::Note(id, mark)),
            Out::Deferred(seq, id) => {
                let go = self.book.mark(seq, id);
                self.send_late(go);
            }
        }
    }

    /// Hands the frame that the book let go to the sink, where it let one go.
    fn send_late(&mut self, go: Option<LateFrame>)
        ensures sent { SendsLate go self.old.outlet self.new.outlet }
        ensures book { self.new.book ≡ self.old.book }
    {
        if let Some(late) = go {
            self.outlet.deliver(late.into_out());
        }
    }
}
