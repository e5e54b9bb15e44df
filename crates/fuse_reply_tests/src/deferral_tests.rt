// Replies that come later than their methods.
ghost use Rattle.std.specs.Prelude.{◌≡◌, ◌<◌, ◌≤◌, length};
ghost use Rattle.std.specs.Arc.{arc_value};
ghost use Rattle.fuse_line.specs.declared.hand.Kind.TheVariants.{First};
ghost use Rattle.fuse_reply.specs.Late.{IsFrameFor};

use crate::asserts::expect_same;
use crate::frames::{ID, ID_BYTES, Parts, expect_sent, sent, told, whole_or_starved, within};
use fuse_line::{Class, Line, Pass};
use fuse_reply::{
    Door, EndMark, EndNote, LateRefusal, Later, NoDoor, Out, OutEnd, Parcel, Replied, ReplyData,
    ReplyEmpty, Seal,
};
use fuse_wire::RequestId;
use std::alloc::Global;
use std::process::Abort;
use std::sync::{Arc, Wait};

/// The number of the message that is answered.
const SEQ: u64 = 4;

/// A line, its first pass, and the mark of its run's end.
#[derive(Drop)]
struct Desk {
    line: Arc<Line<Parcel>, Global>,
    first: Pass<Parcel>,
    mark: EndMark,
}

/// One whose line has so many places, the Seal of the mark, and a door.
fn desk_of(rt: &impl Abort, alloc: Global, places: usize) -> (Desk, Seal, Door)
    requires { 0 < places }
    ensures line { result.0.first.line ≡ arc_value result.0.line }
    ensures first { result.0.first.hand.kind ≡ First }
    ensures mark { (result.1 ≡ result.0.mark.name) × (result.2.mark.name ≡ result.0.mark.name) }
{
    let (line, mut first) = Line::new(alloc, places).expect(rt, "there is memory");
    let pass = line.split(&mut first, true);
    let Ok(line) = Arc::new(alloc, line) else {
        panic!(rt; "there is memory")
    };
    let (mut mark, seal) = EndMark::new(alloc).expect(rt, "there is memory");
    let shared = Arc::try_clone(&line).expect(rt, "there is memory");
    let share = mark.share().expect(rt, "there is memory");
    let door = Door::new(SEQ, shared, pass, share);
    (Desk { line, first, mark }, seal, door)
}

/// The number and id of the mark that stands for a reply.
fn mark_of(out: &Out) -> Option<(u64, RequestId)> {
    match out {
        Out::Deferred(seq, id) => Some((*seq, *id)),
        _ => None,
    }
}

/// The mark that goes out at once for a reply, or why it can't be put off. Where it can, its frame is sent.
fn put_off<R: Wait>(rt: &R, reply: ReplyEmpty) -> Result<Option<(u64, RequestId)>, NoDoor> {
    match reply.defer() {
        Ok((replied, later)) => {
            let (reply, token) = later.reply();
            token.send_or_retire(rt, reply.ok());
            Ok(mark_of(&replied.into_out()))
        }
        Err((reply, none)) => {
            drop(reply.ok().into_out());
            Err(none)
        }
    }
}

/// Sends a frame where the line is full, and again after the run's end, which was marked by this number. This is the
/// number that the note knows.
fn refuse<R: Wait + Abort>(
    rt: &R,
    mark: &mut EndMark,
    seal: Seal,
    taken: u64,
    reply: ReplyEmpty,
) -> Option<u64>
    requires { seal ≡ mark.old.name }
{
    let (replied, later) = match reply.defer() {
        Ok(put) => put,
        Err(_back) => panic!(rt; "there is a door"),
    };
    drop(replied.into_out());
    let (reply, token) = later.reply();
    match token.send(rt, reply.ok()) {
        Err(LateRefusal::Full(token, replied, _)) => {
            mark.set(seal, taken);
            let note = token.send_or_retire(rt, replied)?;
            Some(note.taken())
        }
        _other => panic!(rt; "the line is full"),
    }
}

/// What comes back of a reply that is put off, and sent once its run has ended. The end was marked by this number.
fn refused_at_the_end<R: Wait + Abort>(
    rt: &R,
    alloc: Global,
    taken: u64,
) -> (Later<()>, Replied, EndNote)
    ensures replied { IsFrameFor result.0.id.0 result.1 }
    ensures ended { result.2.name ≡ result.0.door.mark.name }
{
    let (mut desk, seal, door) = desk_of(rt, alloc, 1);
    desk.mark.set(seal, taken);
    drop(desk);
    let (replied, later) = match ReplyEmpty::new(alloc, ID).with_door(Ok(door)).defer() {
        Ok(put) => put,
        Err(_back) => panic!(rt; "there is a door"),
    };
    drop(replied.into_out());
    let (reply, token) = later.reply();
    match token.send(rt, reply.ok()) {
        Err(LateRefusal::Closed(token, replied, note)) => (token, replied, note),
        _other => panic!(rt; "the run has ended"),
    }
}

#[test]
fn a_reply_without_a_door_comes_back(rt: HostRuntime) {
    let alloc = rt.alloc();
    let starved = ReplyEmpty::new(alloc, ID).with_door(Err(NoDoor::Starved));
    let found = [
        put_off(&rt, ReplyEmpty::new(alloc, ID)),
        put_off(&rt, starved),
    ];
    expect_same(&rt, &found, &[Err(NoDoor::Shut), Err(NoDoor::Starved)]);
    expect_same(&rt, &(NoDoor::Shut == NoDoor::Starved), &false);
}

/// The number and id of the late frame that waits, and whether it counts as an inner item.
fn late_in(waits: &Option<Parcel>) -> Option<(u64, RequestId, bool)> {
    match waits {
        Some(parcel) => match parcel {
            Parcel::Late(frame) => {
                frame.is_reply();
                Some((frame.seq(), frame.id(), parcel.inner()))
            }
            _ => None,
        },
        None => None,
    }
}

/// The mark that goes out at once for a reply of bytes, which come later.
fn carry_later<R: Wait + Abort>(rt: &R, reply: ReplyData, bytes: &[u8]) -> Option<(u64, RequestId)>
    requires { length bytes.now ≤ 16777217 }
{
    let (replied, later) = match reply.defer() {
        Ok(put) => put,
        Err(_back) => panic!(rt; "there is a door"),
    };
    let (reply, token) = later.reply();
    token.send_or_retire(rt, reply.data(bytes));
    mark_of(&replied.into_out())
}

/// What waits of a reply that is put off, and then answered by these bytes, or by its status alone. Its mark goes out at
/// once, and its frame is queued, once, both under the message's number.
fn queued<R: Wait + Abort>(rt: &R, alloc: Global, bytes: Option<&[u8]>) -> Option<Parcel> {
    let (mut desk, seal, door) = desk_of(rt, alloc, 2);
    drop(seal);
    let door = Ok(door);
    let mark = match bytes {
        Some(bytes) => {
            let reply = ReplyData::new(alloc, ID).with_door(door);
            Ok(carry_later(rt, reply, within(rt, bytes)))
        }
        None => put_off(rt, ReplyEmpty::new(alloc, ID).with_door(door)),
    };
    let waits = desk.line.pop(rt, &mut desk.first);
    let is_alone = desk.line.pop(rt, &mut desk.first).is_none();
    expect_same(
        rt,
        &(mark, late_in(&waits), is_alone),
        &(Ok(Some((SEQ, ID))), Some((SEQ, ID, false)), true),
    );
    waits
}

/// What goes out for what waits: a frame that comes later, or else nothing.
fn late_out(waits: Option<Parcel>) -> Out {
    match waits {
        Some(Parcel::Late(frame)) => frame.into_out(),
        _ => Out::Deferred(0, ID),
    }
}

/// The frame that is queued of such a reply is this.
fn expect_queued<R: Wait + Abort>(rt: &R, alloc: Global, bytes: Option<&[u8]>, frame: &[&[u8]]) {
    let (sink, end) = sent(alloc, late_out(queued(rt, alloc, bytes)));
    expect_sent(rt, alloc, &sink, end, frame);
}

#[test]
fn late_frames_are_queued_under_their_numbers(rt: HostRuntime) {
    let alloc = rt.alloc();
    let done: &[u8] = &[16, 0, 0, 0, 0, 0, 0, 0];
    expect_queued(&rt, alloc, None, &[done, ID_BYTES]);
    let bytes: &[u8] = &[0xde, 0xad, 0xbe, 0xef];
    let front: &[u8] = &[20, 0, 0, 0, 0, 0, 0, 0];
    expect_queued(&rt, alloc, Some(bytes), &[front, ID_BYTES, bytes]);
}

/// An answer that takes memory.
const LONG: Option<&[u8]> = Some(&[7; 200]);

/// Its frame.
const LONG_FRAME: Parts = &[&[216, 0, 0, 0, 0, 0, 0, 0], ID_BYTES, &[7; 200]];

#[test]
fn many_late_bytes_are_queued_whole(rt: HostRuntime) {
    expect_queued(&rt, rt.alloc(), LONG, LONG_FRAME);
}

/// Takes the whole frame, and the error's. Where the script `checks/refused-memory` refuses the memory of the answer, it
/// is the error's; where it refuses the sink's, this test has no memory.
#[test]
fn many_late_bytes_are_queued_whole_or_by_the_want_of_memory(rt: HostRuntime) {
    let alloc = rt.alloc();
    let (sink, end) = sent(alloc, late_out(queued(&rt, alloc, LONG)));
    assert!(&rt; end != OutEnd::Lost, "there is memory");
    let frame = whole_or_starved(told(&sink, end).1, LONG_FRAME);
    expect_sent(&rt, alloc, &sink, end, frame);
}

#[test]
fn a_full_line_and_the_end_of_a_run_refuse_it(rt: HostRuntime) {
    let alloc = rt.alloc();
    let (mut desk, seal, door) = desk_of(&rt, alloc, 1);
    let parcel = Parcel::Prompt(0, Out::note(ID, 0));
    let is_pushed = desk.line.push(&rt, &mut desk.first, parcel).is_ok();
    let reply = ReplyEmpty::new(alloc, ID).with_door(Ok(door));
    let refused = refuse(&rt, &mut desk.mark, seal, u64::MAX, reply);
    expect_same(&rt, &(is_pushed, refused), &(true, Some(u64::MAX - 1)));
}

#[test]
fn replies_to_two_runs_are_let_go_by_their_own_notes(rt: HostRuntime) {
    let (token, replied, note) = refused_at_the_end(&rt, rt.alloc(), 3);
    let (other_token, other_replied, other_note) = refused_at_the_end(&rt, rt.alloc(), 5);
    token.retire(replied, &note);
    other_token.retire(other_replied, &other_note);
    expect_same(&rt, &(note.taken(), other_note.taken()), &(3, 5));
}
