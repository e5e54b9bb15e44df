// What comes of events, from the state in which nothing has happened yet.
use crate::asserts::expect_same;
use fuse_core::{Event, Mark, State, run, step};
use fuse_loop::{Doors, Ending, RunLine};
use fuse_reply::{LateFrame, NoticeFrame, Out, Parcel, ReplyData, ReplyEmpty};
use fuse_wire::{Errno, Items, PollHandle, RequestId};
use std::process::Abort;
use std::sync::Wait;

/// A GETATTR under the id 2.
const MESSAGE: &[u8] = &[
    40, 0, 0, 0, 3, 0, 0, 0, 2, 0, 0, 0, 0, 0, 0, 0, // length, opcode, unique
    1, 0, 0, 0, 0, 0, 0, 0, 0, 0, 0, 0, 0, 0, 0, 0, // nodeid, uid, gid
    0, 0, 0, 0, 0, 0, 0, 0, // pid
];

fn message<R: AllocGlobal + Abort>(rt: &R) -> Items<u8> {
    Items::from_vec(MESSAGE.to_vec(rt.alloc()).expect(rt, "there is memory"))
}

/// Puts the reply off, and queues its frame.
fn queue_late<R: Wait>(rt: &R, reply: ReplyEmpty) {
    match reply.defer() {
        Ok((replied, later)) => {
            drop(replied.into_out());
            let (reply, token) = later.reply();
            drop(token.send_or_retire(rt, reply.ok()));
        }
        Err((reply, _)) => drop(reply.ok().into_out()),
    }
}

/// What makes doors to a line.
fn doors_to<R: AllocGlobal + Abort>(rt: &R, line: &mut RunLine<Parcel>) -> Doors {
    let mut ending = Ending::new(rt.alloc()).expect(rt, "there is memory");
    let mark = ending.share().expect(rt, "there is memory");
    drop(ending);
    line.doors(mark).expect(rt, "there is memory")
}

/// The frame of the empty reply to the message of this number under this id, which comes later.
fn late<R: Wait + AllocGlobal + Abort>(rt: &R, seq: u64, id: RequestId) -> LateFrame {
    let mut line = RunLine::new(rt.alloc()).expect(rt, "there is memory");
    let mut doors = doors_to(rt, &mut line);
    let reply = ReplyEmpty::new(rt.alloc(), id);
    queue_late(rt, reply.with_door(doors.door(seq)));
    drop(doors);
    match line.next(rt) {
        Ok(Parcel::Late(frame)) => frame,
        _other => panic!(rt; "the frame waits"),
    }
}

/// The frame of a notice.
fn notice<R: Wait + AllocGlobal + Abort>(rt: &R) -> NoticeFrame {
    let mut line = RunLine::new(rt.alloc()).expect(rt, "there is memory");
    let mut notifier = line.notifier().expect(rt, "there is memory");
    notifier
        .poll(rt, PollHandle(4))
        .expect(rt, "the line has a place");
    match line.next(rt) {
        Ok(Parcel::Notice(frame)) => frame,
        _other => panic!(rt; "the notice waits"),
    }
}

/// The number and id that a letter is of.
fn tag_of(letter: u8) -> (u64, RequestId) {
    match letter {
        b'e' | b'y' | b'L' => (1, RequestId(2)),
        b'f' | b'z' | b'M' => (0, RequestId(3)),
        _ => (0, RequestId(2)),
    }
}

/// What goes out by a letter: a mark, or of `a`, `A`, `o` and `c` the reply that the message failed, of `w` one of many
/// bytes, and of `i` a note.
fn out_of<R: AllocGlobal>(rt: &R, letter: u8) -> Out {
    let (seq, id) = tag_of(letter);
    match letter {
        b'a' | b'A' | b'o' | b'c' => ReplyEmpty::new(rt.alloc(), id)
            .error(Errno::ENOENT)
            .into_out(),
        b'w' => ReplyData::new(rt.alloc(), id).data(&[7; 200]).into_out(),
        b'i' => Out::note(id, 3),
        _ => Out::Deferred(seq, id),
    }
}

/// What a worker or the sender does by a letter, a capital one that of the last worker, where there are several.
fn step_of<R: AllocGlobal>(rt: &R, workers: usize, letter: u8) -> Event {
    let hand = if letter.is_ascii_uppercase() {
        workers.saturating_sub(1).max(1)
    } else {
        0
    };
    let (seq, id) = tag_of(letter);
    match letter {
        b't' | b'T' => Event::Take(hand),
        b'p' | b'P' => Event::Push(hand),
        b's' => Event::Send,
        b'x' | b'X' | b'y' | b'z' => Event::Defer(hand, seq, id),
        _ => Event::Answer(hand, out_of(rt, letter)),
    }
}

/// A message without a byte.
fn nothing<R: AllocGlobal>(rt: &R) -> Items<u8> {
    Items::from_vec(Vec::new(rt.alloc()))
}

/// The event that a letter stands for, with so many workers.
fn event<R: Wait + AllocGlobal + Abort>(rt: &R, workers: usize, letter: u8) -> Event {
    let (seq, id) = tag_of(letter);
    match letter {
        b'r' => Event::Receive(message(rt)),
        b'v' => Event::Receive(nothing(rt)),
        b'o' | b'm' => Event::Own(message(rt), out_of(rt, letter)),
        b'b' | b'c' => Event::Own(nothing(rt), out_of(rt, letter)),
        b'l' | b'L' | b'M' => Event::Late(late(rt, seq, id)),
        b'n' => Event::Notify(notice(rt)),
        _ => step_of(rt, workers, letter),
    }
}

fn events_of<R: Wait + AllocGlobal + Abort>(rt: &R, workers: usize, letters: &[u8]) -> Vec<Event> {
    let mut events = Vec::new(rt.alloc());
    for letter in letters {
        events
            .push(event(rt, workers, *letter))
            .expect(rt, "there is memory");
    }
    events
}

/// How many there are of: messages, jobs, parcels, those that were sent for messages, marks, and late frames that are held
/// and that were sent.
type Counts = [usize; 7];

/// Events, and the counts afterwards. With none the last event cannot happen.
type Row = (&'static str, Option<Counts>);

/// Messages that are answered at once, and events that nothing was done for.
const PROMPT: &[Row] = &[
    ("r", Some([1, 1, 0, 0, 0, 0, 0])),
    ("t", None),
    ("rt", Some([1, 0, 0, 0, 0, 0, 0])),
    ("rT", None),
    ("rrtt", None),
    ("rta", Some([1, 0, 0, 0, 0, 0, 0])),
    ("a", None),
    ("rtA", None),
    ("rtaa", None),
    ("rtap", Some([1, 0, 1, 0, 0, 0, 0])),
    ("p", None),
    ("rtp", None),
    ("rtapp", None),
    ("P", None),
    ("rtaps", Some([1, 0, 0, 1, 0, 0, 0])),
    ("s", None),
    ("rtapss", None),
    ("o", Some([1, 0, 1, 0, 0, 0, 0])),
    ("rotaps", Some([2, 0, 1, 1, 0, 0, 0])),
    ("b", None),
    ("c", Some([1, 0, 1, 0, 0, 0, 0])),
    ("vtaps", Some([1, 0, 0, 1, 0, 0, 0])),
    ("vtd", None),
    ("rtips", Some([1, 0, 0, 1, 0, 0, 0])),
    ("rtwps", Some([1, 0, 0, 1, 0, 0, 0])),
    ("n", Some([0, 0, 1, 0, 0, 0, 0])),
    ("ns", Some([0, 0, 0, 0, 0, 0, 0])),
    ("rtapns", Some([1, 0, 1, 1, 0, 0, 0])),
];

/// No worker.
const NOBODY: &[Row] = &[
    ("", Some([0, 0, 0, 0, 0, 0, 0])),
    ("r", Some([1, 1, 0, 0, 0, 0, 0])),
    ("rt", None),
    ("a", None),
    ("x", None),
    ("p", None),
    ("osns", Some([1, 0, 0, 1, 0, 0, 0])),
];

/// Two workers, or the first and the last of more.
const TWO: &[Row] = &[
    ("rrtT", Some([2, 0, 0, 0, 0, 0, 0])),
    ("rtT", None),
    ("rrtTaA", Some([2, 0, 0, 0, 0, 0, 0])),
    ("rrtTaAPp", Some([2, 0, 2, 0, 0, 0, 0])),
    ("rrtTaAPpss", Some([2, 0, 0, 2, 0, 0, 0])),
    ("rtaP", None),
];

/// Marks.
const MARKS: &[Row] = &[
    ("rtd", Some([1, 0, 0, 0, 0, 0, 0])),
    ("rtdps", Some([1, 0, 0, 0, 1, 0, 0])),
    ("rte", None),
    ("rtf", None),
    ("ms", Some([1, 0, 0, 0, 1, 0, 0])),
    ("rm", None),
    ("rtx", Some([1, 0, 0, 0, 0, 0, 0])),
    ("rtxps", Some([1, 0, 0, 0, 1, 0, 0])),
    ("x", None),
    ("rx", None),
    ("rtX", None),
    ("rtxx", None),
    ("rtxa", None),
    ("rty", None),
    ("rtz", None),
];

/// Late frames.
const LATE: &[Row] = &[
    ("l", Some([0, 0, 1, 0, 0, 0, 0])),
    ("ls", Some([0, 0, 0, 0, 0, 1, 0])),
    ("rtxpsls", Some([1, 0, 0, 0, 1, 0, 1])),
    ("rtxpslsls", Some([1, 0, 0, 0, 1, 1, 1])),
    ("lsrtxps", Some([1, 0, 0, 0, 1, 0, 1])),
    ("lslsrtxps", Some([1, 0, 0, 0, 1, 1, 1])),
    ("LsMsrtxps", Some([1, 0, 0, 0, 1, 2, 0])),
    ("LslsMsrtxps", Some([1, 0, 0, 0, 1, 2, 1])),
    ("rtxpsLsMs", Some([1, 0, 0, 0, 1, 2, 0])),
    ("lsrtaps", Some([1, 0, 0, 1, 0, 1, 0])),
];

fn counts_of(state: &State) -> Counts {
    [
        state.received.as_slice().len(),
        state.jobs.as_slice().len(),
        state.line.as_slice().len(),
        state.sent.as_slice().len(),
        state.marks.as_slice().len(),
        state.held.as_slice().len(),
        state.late.as_slice().len(),
    ]
}

/// The counts after an event. None: it can't happen.
fn counts_after(after: &Option<State>) -> Option<Counts> {
    match after {
        Some(state) => Some(counts_of(state)),
        None => None,
    }
}

/// The state in which nothing has happened yet, with so many workers.
fn start<R: AllocGlobal + Abort>(rt: &R, workers: usize) -> State {
    State::new(rt.alloc(), workers).expect(rt, "there is memory")
}

/// The counts after a run of the events of these letters from there.
fn once_run<R: Wait + AllocGlobal + Abort>(
    rt: &R,
    workers: usize,
    letters: &[u8],
) -> Option<Counts> {
    let events = events_of(rt, workers, letters);
    let start = start(rt, workers);
    let reached = run(rt.alloc(), &start, &events).expect(rt, "there is memory");
    drop(start);
    drop(events);
    let counts = counts_after(&reached);
    drop(reached);
    counts
}

/// The counts after a step by the event of this letter from there.
fn once_stepped<R: Wait + AllocGlobal + Abort>(rt: &R, letter: u8) -> Option<Counts> {
    let event = event(rt, 1, letter);
    let start = start(rt, 1);
    let stepped = step(rt.alloc(), &start, &event).expect(rt, "there is memory");
    drop(start);
    drop(event);
    let counts = counts_after(&stepped);
    drop(stepped);
    counts
}

/// Events come to what these rows say, with so many workers.
fn expect_rows<R: Wait + AllocGlobal + Abort>(rt: &R, workers: usize, rows: &[Row]) {
    for (letters, wanted) in rows {
        let found = once_run(rt, workers, letters.as_bytes());
        expect_same(rt, &(*letters, found), &(*letters, *wanted));
    }
}

#[test]
fn events_happen_where_they_may(rt: HostRuntime) {
    expect_rows(&rt, 1, PROMPT);
    expect_rows(&rt, 1, MARKS);
    expect_rows(&rt, 1, LATE);
    expect_rows(&rt, 0, NOBODY);
    expect_rows(&rt, 2, TWO);
    expect_rows(&rt, 64, TWO);
}

#[test]
fn one_step_is_the_first_of_a_run(rt: HostRuntime) {
    let found = (once_stepped(&rt, b'r'), once_stepped(&rt, b't'));
    expect_same(&rt, &found, &(Some([1, 1, 0, 0, 0, 0, 0]), None));
}

/// Whether the mark of this number and id is that of the number 1 and the id 2.
fn is_the_mark(seq: u64, id: u64) -> bool {
    let id = RequestId(id);
    let mark = Mark {
        seq: 1,
        id: RequestId(2),
    };
    mark == Mark { seq, id }
}

#[test]
fn marks_are_equal_where_number_and_id_are(rt: HostRuntime) {
    let found = [is_the_mark(1, 2), is_the_mark(0, 2), is_the_mark(1, 3)];
    expect_same(&rt, &found, &[true, false, false]);
}
