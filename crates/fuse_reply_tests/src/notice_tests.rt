// Notices as bytes, by the structs of `fuse.h`, and what becomes of them.
ghost use Rattle.std.specs.Prelude.{◌≡◌, ◌≢◌, ◌<◌};
ghost use Rattle.fuse_wire.specs.declared.sink.Sending.TheVariants.{Sent};
ghost use Rattle.std.specs.Arc.{arc_value};
ghost use Rattle.fuse_line.specs.declared.hand.Kind.TheVariants.{First};

use crate::asserts::expect_same;
use crate::frames::many;
use fuse_line::{Line, Pass};
use fuse_notify::{Notice, NoticeError, Notifier, NotifyError, Undelivered, deliver};
use fuse_reply::{MAX_PAYLOAD, Parcel};
use fuse_wire::{INodeNo, MemorySink, PollHandle, Sending};
use std::alloc::Global;
use std::process::Abort;
use std::sync::{Arc, Wait};
use std::thread;

const INODE: INodeNo = INodeNo(0x9182_8384_8586_8788);

const CHILD: INodeNo = INodeNo(0xa1a2_a3a4_a5a6_a7a8);

const HANDLE: PollHandle = PollHandle(0x8877_6655_4433_2211);

/// Where a range of a file begins that is to be dropped: 0xf1f2_f3f4_f5f6_f7f8 with its sign.
const FROM: i64 = -0x0e0d_0c0b_0a09_0808;

/// How long it is.
const LENGTH: i64 = 0x7172_7374_7576_7778;

/// Where bytes are to be kept.
const OFFSET: u64 = 0xb1b2_b3b4_b5b6_b7b8;

/// What the kernel is told unasked.
enum News {
    /// That a file has news.
    Poll,
    /// That a range of a file is to be dropped, from this offset on and of this length.
    InvalInode(i64, i64),
    /// That this name is.
    InvalEntry(&'static [u8]),
    /// That these bytes are to be kept.
    Store(&'static [u8]),
    /// That the child of this name is gone.
    Delete(&'static [u8]),
}

const POLL: &[u8] = &[
    0x18, 0, 0, 0, 1, 0, 0, 0, 0, 0, 0, 0, 0, 0, 0, 0, // header
    0x11, 0x22, 0x33, 0x44, 0x55, 0x66, 0x77, 0x88, // kh
];

const INVAL_INODE: &[u8] = &[
    0x28, 0, 0, 0, 2, 0, 0, 0, 0, 0, 0, 0, 0, 0, 0, 0, // header
    0x88, 0x87, 0x86, 0x85, 0x84, 0x83, 0x82, 0x91, // ino
    0xf8, 0xf7, 0xf6, 0xf5, 0xf4, 0xf3, 0xf2, 0xf1, // off
    0x78, 0x77, 0x76, 0x75, 0x74, 0x73, 0x72, 0x71, // len
];

const INVAL_ENTRY: &[u8] = &[
    0x24, 0, 0, 0, 3, 0, 0, 0, 0, 0, 0, 0, 0, 0, 0, 0, // header
    0x88, 0x87, 0x86, 0x85, 0x84, 0x83, 0x82, 0x91, // parent
    3, 0, 0, 0, 0, 0, 0, 0, // namelen
    0x61, 0x62, 0x63, 0, // name
];

/// The five, in the order of their codes, with ranges, names and data of several kinds, and their frames.
const EACH: &[(News, &[u8])] = &[
    (News::Poll, POLL),
    (News::InvalInode(FROM, LENGTH), INVAL_INODE),
    (
        News::InvalInode(-1, -2),
        &[
            0x28, 0, 0, 0, 2, 0, 0, 0, 0, 0, 0, 0, 0, 0, 0, 0, // header
            0x88, 0x87, 0x86, 0x85, 0x84, 0x83, 0x82, 0x91, // ino
            0xff, 0xff, 0xff, 0xff, 0xff, 0xff, 0xff, 0xff, // off
            0xfe, 0xff, 0xff, 0xff, 0xff, 0xff, 0xff, 0xff, // len
        ],
    ),
    (
        News::InvalInode(0, 0),
        &[
            0x28, 0, 0, 0, 2, 0, 0, 0, 0, 0, 0, 0, 0, 0, 0, 0, // header
            0x88, 0x87, 0x86, 0x85, 0x84, 0x83, 0x82, 0x91, // ino
            0, 0, 0, 0, 0, 0, 0, 0, 0, 0, 0, 0, 0, 0, 0, 0, // off, len
        ],
    ),
    (News::InvalEntry(b"abc"), INVAL_ENTRY),
    (
        News::InvalEntry(b""),
        &[
            0x21, 0, 0, 0, 3, 0, 0, 0, 0, 0, 0, 0, 0, 0, 0, 0, // header
            0x88, 0x87, 0x86, 0x85, 0x84, 0x83, 0x82, 0x91, // parent
            0, 0, 0, 0, 0, 0, 0, 0, // namelen
            0, // name
        ],
    ),
    (
        News::Store(&[0xde, 0xad, 0xbe, 0xef]),
        &[
            0x2c, 0, 0, 0, 4, 0, 0, 0, 0, 0, 0, 0, 0, 0, 0, 0, // header
            0x88, 0x87, 0x86, 0x85, 0x84, 0x83, 0x82, 0x91, // nodeid
            0xb8, 0xb7, 0xb6, 0xb5, 0xb4, 0xb3, 0xb2, 0xb1, // offset
            4, 0, 0, 0, 0, 0, 0, 0, // size
            0xde, 0xad, 0xbe, 0xef,
        ],
    ),
    (
        News::Store(&[]),
        &[
            0x28, 0, 0, 0, 4, 0, 0, 0, 0, 0, 0, 0, 0, 0, 0, 0, // header
            0x88, 0x87, 0x86, 0x85, 0x84, 0x83, 0x82, 0x91, // nodeid
            0xb8, 0xb7, 0xb6, 0xb5, 0xb4, 0xb3, 0xb2, 0xb1, // offset
            0, 0, 0, 0, 0, 0, 0, 0, // size
        ],
    ),
    (
        News::Delete(b"abc"),
        &[
            0x2c, 0, 0, 0, 6, 0, 0, 0, 0, 0, 0, 0, 0, 0, 0, 0, // header
            0x88, 0x87, 0x86, 0x85, 0x84, 0x83, 0x82, 0x91, // parent
            0xa8, 0xa7, 0xa6, 0xa5, 0xa4, 0xa3, 0xa2, 0xa1, // child
            3, 0, 0, 0, 0, 0, 0, 0, // namelen
            0x61, 0x62, 0x63, 0, // name
        ],
    ),
    (
        News::Delete(b""),
        &[
            0x29, 0, 0, 0, 6, 0, 0, 0, 0, 0, 0, 0, 0, 0, 0, 0, // header
            0x88, 0x87, 0x86, 0x85, 0x84, 0x83, 0x82, 0x91, // parent
            0xa8, 0xa7, 0xa6, 0xa5, 0xa4, 0xa3, 0xa2, 0xa1, // child
            0, 0, 0, 0, 0, 0, 0, 0, // namelen
            0, // name
        ],
    ),
];

/// One of each.
const FIVE: &[News] = &[
    News::Poll,
    News::InvalInode(FROM, LENGTH),
    News::InvalEntry(b"abc"),
    News::Store(&[0xde]),
    News::Delete(b"abc"),
];

/// The notice of this.
fn notice(alloc: Global, news: &News) -> Result<Notice, NoticeError> {
    match news {
        News::Poll => Ok(Notice::poll(alloc, HANDLE)),
        News::InvalInode(from, length) => Ok(Notice::inval_inode(alloc, INODE, *from, *length)),
        News::InvalEntry(name) => Notice::inval_entry(alloc, INODE, name),
        News::Store(bytes) => Notice::store(alloc, INODE, OFFSET, bytes),
        News::Delete(name) => Notice::delete(alloc, INODE, CHILD, name),
    }
}

/// What comes of a notice at a sink whose first send is answered so.
fn end(rt: &impl Abort, alloc: Global, notice: &Notice, answer: Sending) -> Result<(), Undelivered>
    requires { answer ≢ Sent }
{
    let faults = Vec::from_slice(alloc, &[(1, answer)]).expect(rt, "there is memory");
    deliver(notice, &mut MemorySink::new(alloc, faults))
}

/// Only a poll that is absent is told, and each failure is.
#[test]
fn a_notice_is_taken_absent_or_failed(rt: HostRuntime) {
    let alloc = rt.alloc();
    let mut sink = MemorySink::new(alloc, Vec::new(alloc));
    for news in FIVE {
        let notice = notice(alloc, news).expect(&rt, "there is memory");
        let of_none = match news {
            News::Poll => Err(Undelivered::Absent),
            _ => Ok(()),
        };
        let ends = [
            deliver(&notice, &mut sink),
            end(&rt, alloc, &notice, Sending::Absent),
            end(&rt, alloc, &notice, Sending::Failed),
        ];
        expect_same(&rt, &ends, &[Ok(()), of_none, Err(Undelivered::Failed)]);
    }
    expect_same(&rt, &sink.frames().len(), &5);
}

#[test]
fn the_longest_payload_and_its_header_fill_the_length_field(rt: HostRuntime) {
    expect_same(&rt, &MAX_PAYLOAD, &(u32::MAX as usize - 16));
}

/// A line of so many places, its first pass, and a notifier of it.
fn line_of(
    rt: &impl Abort,
    alloc: Global,
    places: usize,
) -> (Arc<Line<Parcel>, Global>, Pass<Parcel>, Notifier)
    requires { 0 < places }
    ensures { (result.1.line ≡ arc_value result.0) × (result.1.hand.kind ≡ First) }
{
    let (line, mut first) = Line::new(alloc, places).expect(rt, "there is memory");
    let door = line.split(&mut first, true);
    let Ok(line) = Arc::new(alloc, line) else {
        panic!(rt; "there is memory")
    };
    let notifier = Notifier::new(Arc::try_clone(&line).expect(rt, "there is memory"), door);
    (line, first, notifier)
}

/// Sends the notices that the line holds to an empty sink, oldest first.
fn drain<R: Wait>(
    rt: &R,
    alloc: Global,
    line: &Line<Parcel>,
    first: &mut Pass<Parcel>,
) -> MemorySink
    requires line { first.old.line ≡ line.now }
    requires kind { first.old.hand.kind ≡ First }
    ensures line { first.new.line ≡ line.now }
    ensures kind { first.new.hand.kind ≡ First }
{
    let mut sink = MemorySink::new(alloc, Vec::new(alloc));
    for _ in 0..100 {
        match line.pop(rt, first) {
            Some(Parcel::Notice(frame)) => {
                frame.send(&mut sink);
            }
            other => {
                drop(other);
                break;
            }
        }
    }
    sink
}

/// Queues the notice of this.
fn notify<R: Wait + AllocGlobal>(
    rt: &R,
    notifier: &mut Notifier,
    news: &News,
) -> Result<(), NotifyError> {
    match news {
        News::Poll => notifier.poll(rt, HANDLE),
        News::InvalInode(from, length) => notifier.inval_inode(rt, INODE, *from, *length),
        News::InvalEntry(name) => notifier.inval_entry(rt, INODE, name),
        News::Store(bytes) => notifier.store(rt, INODE, OFFSET, bytes),
        News::Delete(name) => notifier.delete(rt, INODE, CHILD, name),
    }
}

/// What came of it, in a word.
fn told(answer: Result<(), NotifyError>) -> &'static str {
    match answer {
        Ok(()) => "queued",
        Err(NotifyError::TooBig) => "too big",
        Err(NotifyError::Full(_)) => "full",
        Err(NotifyError::Memory) => "no memory",
    }
}

/// The notice of this is queued, or not, as the answer says.
fn expect_notified<R: Wait + Abort + AllocGlobal>(
    rt: &R,
    notifier: &mut Notifier,
    news: &News,
    answer: &str,
) {
    expect_same(rt, &told(notify(rt, notifier, news)), &answer);
}

/// The line holds this notice, and no other.
fn expect_waits<R: Wait + Abort + AllocGlobal>(
    rt: &R,
    line: &Line<Parcel>,
    first: &mut Pass<Parcel>,
    frame: &[u8],
)
    requires line { first.old.line ≡ line.now }
    requires kind { first.old.hand.kind ≡ First }
    ensures line { first.new.line ≡ line.now }
    ensures kind { first.new.hand.kind ≡ First }
{
    let sink = drain(rt, rt.alloc(), line, first);
    expect_same(rt, &sink.frames().len(), &1);
    for found in sink.frames() {
        expect_same(rt, &found.as_slice(), &frame);
    }
}

/// A line of as many places as there are notices takes each, as it is made.
fn expect_each_queued<R: Wait + Abort + AllocGlobal>(rt: &R) {
    let (line, mut first, mut notifier) = line_of(rt, rt.alloc(), 10);
    for (news, _) in EACH {
        expect_notified(rt, &mut notifier, news, "queued");
    }
    let sink = drain(rt, rt.alloc(), &line, &mut first);
    expect_same(rt, &sink.frames().len(), &10);
    for (found, (_, frame)) in sink.frames().iter().zip(EACH) {
        expect_same(rt, &found.as_slice(), frame);
    }
}

/// A full line refuses each, and takes again once its notice is taken.
fn expect_refused<R: Wait + Abort + AllocGlobal>(rt: &R) {
    let (line, mut first, mut notifier) = line_of(rt, rt.alloc(), 1);
    expect_notified(rt, &mut notifier, &News::InvalEntry(b"abc"), "queued");
    for news in FIVE {
        expect_notified(rt, &mut notifier, news, "full");
    }
    expect_waits(rt, &line, &mut first, INVAL_ENTRY);
    expect_notified(rt, &mut notifier, &News::InvalInode(FROM, LENGTH), "queued");
    expect_waits(rt, &line, &mut first, INVAL_INODE);
}

/// A poll finds the line full, and comes back. It is told once the line's notice is taken.
fn expect_told_once<R: Wait + Abort + AllocGlobal>(rt: &R) {
    let (line, mut first, mut notifier) = line_of(rt, rt.alloc(), 1);
    let poll = notifier.poll_notifier(HANDLE).expect(rt, "there is memory");
    expect_same(rt, &poll.handle(), &HANDLE);
    let mut another = notifier.again().expect(rt, "there is memory");
    expect_notified(rt, &mut another, &News::InvalEntry(b"abc"), "queued");
    let Err(full) = poll.notify(rt) else {
        panic!(rt; "the line is full");
    };
    expect_waits(rt, &line, &mut first, INVAL_ENTRY);
    expect_same(rt, &full.item.handle(), &HANDLE);
    expect_same(rt, &full.item.notify(rt).is_ok(), &true);
    expect_waits(rt, &line, &mut first, POLL);
}

#[test]
fn a_line_takes_notices_while_it_has_room(rt: HostRuntime) {
    expect_each_queued(&rt);
    expect_refused(&rt);
    expect_told_once(&rt);
}

/// What frames with 0x0102_0304 bytes begin with: that of an entry, of data, and of a name that is gone.
const LONG_ENTRY: &[u8] = &[
    0x25, 3, 2, 1, 3, 0, 0, 0, 0, 0, 0, 0, 0, 0, 0, 0, // header
    0x88, 0x87, 0x86, 0x85, 0x84, 0x83, 0x82, 0x91, // parent
    4, 3, 2, 1, 0, 0, 0, 0, // namelen
    7, // name
];

const LONG_STORE: &[u8] = &[
    0x2c, 3, 2, 1, 4, 0, 0, 0, 0, 0, 0, 0, 0, 0, 0, 0, // header
    0x88, 0x87, 0x86, 0x85, 0x84, 0x83, 0x82, 0x91, // nodeid
    0xb8, 0xb7, 0xb6, 0xb5, 0xb4, 0xb3, 0xb2, 0xb1, // offset
    4, 3, 2, 1, 0, 0, 0, 0, // size
    7,
];

const LONG_DELETE: &[u8] = &[
    0x2d, 3, 2, 1, 6, 0, 0, 0, 0, 0, 0, 0, 0, 0, 0, 0, // header
    0x88, 0x87, 0x86, 0x85, 0x84, 0x83, 0x82, 0x91, // parent
    0xa8, 0xa7, 0xa6, 0xa5, 0xa4, 0xa3, 0xa2, 0xa1, // child
    4, 3, 2, 1, 0, 0, 0, 0, // namelen
    7, // name
];

/// How many bytes notices carry, about 144 with what stands in front of them and behind, and more.
const COUNTS: &[usize] = &[
    119, 120, 121, 122, 123, 124, 125, 126, 127, 128, 129, 1000, 65_536,
];

/// The three notices of so many bytes find memory, their frames are as long, and begin so.
fn expect_carried<R: Wait + Abort + AllocGlobal>(rt: &R, count: usize, fronts: [&[u8]; 3]) {
    let bytes = many(rt, rt.alloc(), count);
    let (line, mut first, mut notifier) = line_of(rt, rt.alloc(), 4);
    let found = (
        notifier.inval_entry(rt, INODE, &bytes),
        notifier.store(rt, INODE, OFFSET, &bytes),
        notifier.delete(rt, INODE, CHILD, &bytes),
    );
    expect_same(rt, &found, &(Ok(()), Ok(()), Ok(())));
    let sink = drain(rt, rt.alloc(), &line, &mut first);
    expect_same(rt, &sink.frames().len(), &3);
    let expected = [33, 40, 41].iter().zip(&fronts);
    for (frame, (more, front)) in sink.frames().iter().zip(expected) {
        let found = (frame.as_slice().len(), frame.as_slice().get(..front.len()));
        expect_same(rt, &found, &(count.saturating_add(*more), Some(*front)));
    }
}

#[test]
fn long_notices_find_memory_where_there_is_some(rt: HostRuntime) {
    for count in COUNTS {
        expect_carried(&rt, *count, [&[], &[], &[]]);
    }
    expect_carried(&rt, 0x0102_0304, [LONG_ENTRY, LONG_STORE, LONG_DELETE]);
}

/// What a notice of a name comes to that is not held inline, where its line has a place.
fn a_long_name<R: Wait + Abort + AllocGlobal>(rt: &R) -> &'static str {
    let name = many(rt, rt.alloc(), 200);
    let (_line, _first, mut notifier) = line_of(rt, rt.alloc(), 1);
    told(notifier.inval_entry(rt, INODE, &name))
}

#[test]
fn a_long_name_is_told(rt: HostRuntime) {
    expect_same(&rt, &a_long_name(&rt), &"queued");
}

#[test]
fn a_long_name_is_told_or_there_is_no_memory(rt: HostRuntime) {
    let found = a_long_name(&rt);
    expect_same(&rt, &(found == "queued" || found == "no memory"), &true);
}

#[test]
fn two_threads_notify_on_one_line(rt: HostRuntime) {
    let (line, mut first, mut notifier) = line_of(&rt, rt.alloc(), 2);
    let poll = notifier
        .poll_notifier(HANDLE)
        .expect(&rt, "there is memory");
    let answers = thread::join(
        &rt,
        || poll.notify(&rt).is_ok(),
        || notifier.poll(&rt, HANDLE).is_ok(),
    );
    expect_same(&rt, &answers, &(true, true));
    let sink = drain(&rt, rt.alloc(), &line, &mut first);
    expect_same(&rt, &sink.frames().len(), &2);
    for found in sink.frames() {
        expect_same(&rt, &found.as_slice(), &POLL);
    }
}
