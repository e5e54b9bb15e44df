// What a reply goes through that comes later.
ghost use Rattle.std.specs.Prelude.{◌≡◌, None, Some, IfNone, IfSome};
ghost use Rattle.std.specs.Arc.{arc_value};
ghost use Rattle.fuse_line.specs.declared.hand.Kind.TheVariants.{Door as IsDoor};
ghost use Rattle.fuse_reply.specs.Door.{LooksAt, PushesLate, QueuesJust};
ghost use Rattle.fuse_reply.specs.Late.{IsReplyTo};

use crate::{EndMark, EndNote, LateFrame, Packed, Parcel, Replied};
use fuse_line::{Full, Line, Pass};
use fuse_wire::RequestId;
use std::alloc::Global;
use std::marker::Model;
use std::snapshot::Snapshot;
use std::sync::{Arc, Wait};

/// What a reply goes through that comes after its method has returned. Contracts see the number of the message that the
/// reply is for, a door to the line, and a share of the mark of the run's end.
#[derive(Drop)]
pub struct Door {
    seq: u64,
    line: Arc<Line<Parcel>, Global>,
    pass: Pass<Parcel>,
    mark: EndMark,
}

impl Model for Door {
    ghost use Rattle.std.specs.Prelude.{◌≡◌};
    ghost use Rattle.std.specs.Arc.{arc_value};
    ghost use Rattle.fuse_line.specs.declared.hand.Kind.TheVariants.{Door as IsDoor};
    ghost use Rattle.fuse_reply.specs.Door.{DoorSeen};

    ghost Value = { DoorSeen };

    ghost view = { λ d. record { seq = d.seq; pass = d.pass; mark = d.mark } };

    ghost invariant = { λ d. (d.pass.line ≡ arc_value d.line) × (d.pass.hand.kind ≡ IsDoor) };
}

/// Why a reply can't come later.
#[derive(Clone, Copy, Debug, PartialEq, Eq)]
pub enum NoDoor {
    /// No reply of this run may.
    Shut,
    /// No memory was to be had for what it would go through.
    Starved,
}

impl Door {
    /// What the reply to the message of this number goes through: a share of the line, a door to it, and a share of
    /// the mark of the run's end.
    pub fn new(seq: u64, line: Arc<Line<Parcel>, Global>, pass: Pass<Parcel>, mark: EndMark) -> Door
        requires line { pass.line ≡ arc_value line }
        requires door { pass.hand.kind ≡ IsDoor }
        ensures { result ≡ record { seq = seq; pass = pass; mark = mark } }
    {
        Door {
            seq,
            line,
            pass,
            mark,
        }
    }

    /// The number of the message.
    #[inline(always)]
    pub(crate) fn seq(&self) -> u64
        ensures { result ≡ self.now.seq }
    {
        self.seq
    }
}

/// That a late reply was queued. Contracts see the door that it went through.
#[derive(Drop)]
pub struct Queued {
    door: Door,
}

impl Model for Queued {
    ghost use Rattle.fuse_reply.specs.Door.{DoorSeen};

    ghost Value = { DoorSeen };

    ghost view = { λ q. q.door };
}

/// A door whose reply was put off. It can't be dropped: it is let go once what the reply was spent into was queued, or by a
/// note that the run has ended. A contract sees the door.
pub(crate) struct LateDoor {
    door: Door,
}

impl Model for LateDoor {
    ghost use Rattle.fuse_reply.specs.Door.{DoorSeen};

    ghost Value = { DoorSeen };

    ghost view = { λ d. d.door };
}

impl LateDoor {
    /// The reply that had this door is put off.
    pub(crate) fn new(door: Door) -> LateDoor
        ensures { result ≡ door }
    {
        LateDoor { door }
    }

    /// A note, where the run has ended.
    pub(crate) fn note(&mut self) -> Option<EndNote>
        ensures looks { LooksAt self.old self.new }
        ensures ended { IfSome result (λ note. (note.name ≡ self.old.mark.name)
            × (self.new.mark.known ≡ Some note.taken)) }
        ensures goes_on { IfNone result (self.new.mark.known ≡ None) }
    {
        self.door.mark.note()
    }

    /// Queues the frame, which is the reply to the request of this id, unless the line is full.
    pub(crate) fn push<R: Wait>(
        &mut self,
        rt: &R,
        id: RequestId,
        packed: Packed,
    ) -> Result<(), Full<Packed>>
        requires { IsReplyTo id.0 packed }
        ensures { PushesLate result id.0 packed self.old self.new }
    {
        let Door {
            seq,
            line,
            pass,
            mark: _,
        } = &mut self.door;
        let parcel = Parcel::Late(LateFrame::new(*seq, id, packed));
        match line.push(rt, pass, parcel) {
            Ok(()) => Ok(()),
            Err(Full { item, line }) => match item {
                Parcel::Late(frame) => Err(Full {
                    item: frame.into_packed(),
                    line,
                }),
                // What comes back is what was pushed.
                Parcel::Prompt(_, _) | Parcel::Notice(_) => unreachable!(),
            },
        }
    }

    /// Is spent after a push: since it was as the snapshot has it, just what the reply was spent into was queued.
    pub(crate) fn let_go_after_push(
        self,
        id: RequestId,
        before: Snapshot<LateDoor>,
        replied: Snapshot<Replied>,
    ) -> Queued
        requires { QueuesJust id.0 replied.value before.value self }
        ensures { result ≡ self }
    {
        let LateDoor { door } = self;
        Queued { door }
    }

    /// Lets go of it since the run has ended, as the note knows.
    pub(crate) fn let_go_at_end(self, note: &EndNote)
        requires { note.now.name ≡ self.mark.name }
    {
        let LateDoor { door: _ } = self;
    }
}
