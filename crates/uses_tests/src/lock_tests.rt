// Sessions of the one lock.
use crate::asserts::expect_same;
use crate::rows::{Bytes, INIT, NOTHING, OPENING, Row, frame};
use crate::serving::{Rest, ended_well, expect_served, serve};
use fuse_wire::Items;
use locks::OneLock;
use std::process::Abort;
use std::sync::Wait;
use std::thread::Threads;

// Linux's numbers: `include/uapi/linux/fuse.h`, `fcntl.h`, `errno-base.h` and `errno.h`.
const FLUSH: u8 = 25;

pub(crate) const SETLK: u8 = 32;

const SETLKW: u8 = 33;

pub(crate) const INTERRUPT: u8 = 36;

const READS: u64 = 0;

const WRITES: u64 = 1;

const UNLOCKS: u64 = 2;

pub(crate) const EAGAIN: u8 = 11;

const EDEADLK: u8 = 35;

/// Owners: the other differs from the one in the upper half alone, the third in the lower half alone.
const ONE: u64 = 0x1100_0000_0000_0071;

const OTHER: u64 = 0x1200_0000_0000_0071;

const THIRD: u64 = 0x1100_0000_0000_0072;

// Calls for the lock: `struct fuse_lk_in`, with the file handle, the owner, the range, and the type and the process.
const ONE_WRITES: Bytes = (&[0, ONE, 0, 0, WRITES, 0], b"");

const ONE_READS: Bytes = (&[0, ONE, 0, 0, READS, 0], b"");

const ONE_UNLOCKS: Bytes = (&[0, ONE, 0, 0, UNLOCKS, 0], b"");

pub(crate) const OTHER_WRITES: Bytes = (&[0, OTHER, 0, 0, WRITES, 0], b"");

const OTHER_UNLOCKS: Bytes = (&[0, OTHER, 0, 0, UNLOCKS, 0], b"");

pub(crate) const THIRD_WRITES: Bytes = (&[0, THIRD, 0, 0, WRITES, 0], b"");

const THIRD_READS: Bytes = (&[0, THIRD, 0, 0, READS, 0], b"");

// The same with a file handle, a range and a process, and of another file: it is the one lock.
const OTHER_ELSEWHERE: Bytes = (&[0x71, OTHER, 5, 9, 7 << 32 | WRITES, 0], b"");

const ONE_UNLOCKS_ELSEWHERE: Bytes = (&[0x72, ONE, 5, 9, 7 << 32 | UNLOCKS, 0], b"");

// `struct fuse_flush_in` of the one and of the other.
const ONE_CLOSES: Bytes = (&[0, 0, ONE], b"");

const OTHER_CLOSES: Bytes = (&[0, 0, OTHER], b"");

/// INIT offers `FUSE_POSIX_LOCKS`, the bit 1 of `flags` in `struct fuse_init_in`, and its reply grants it, in `flags` of
/// `struct fuse_init_out`.
const OFFERS_LOCKS: Row = (
    INIT,
    0,
    (&[], b"\x07\0\0\0\x08\0\0\0\0\x10\0\0\x02\0\0\0"),
    0,
    (
        &[],
        b"\x07\0\0\0\x28\0\0\0\0\x10\0\0\x02\0\0\0\x10\0\x0c\0\0\0\0\x01",
    ),
);

/// Its holder need not wait for it, and nobody is there to be interrupted. F_UNLCK gives the lock up by SETLKW too, and a lock to read is the one lock.
const NOBODY_WAITS: &[Row] = &[
    OFFERS_LOCKS,
    (SETLK, 1, ONE_WRITES, 0, NOTHING),
    (SETLK, 1, OTHER_WRITES, EAGAIN, NOTHING),
    (SETLKW, 1, OTHER_WRITES, EDEADLK, NOTHING),
    (INTERRUPT, 0, (&[5], b""), EAGAIN, NOTHING),
    (SETLK, 1, ONE_UNLOCKS, 0, NOTHING),
    (SETLKW, 1, OTHER_WRITES, 0, NOTHING),
    (SETLKW, 1, OTHER_WRITES, 0, NOTHING),
    (SETLKW, 1, OTHER_UNLOCKS, 0, NOTHING),
    (SETLK, 1, ONE_READS, 0, NOTHING),
    (SETLK, 1, THIRD_READS, EAGAIN, NOTHING),
];

/// F_UNLCK and FLUSH of the other are done, and change nothing; FLUSH of the one that holds the lock frees it.
const HOLDER_GIVES_UP: &[Row] = &[
    OPENING,
    (SETLK, 1, ONE_WRITES, 0, NOTHING),
    (SETLK, 1, ONE_WRITES, 0, NOTHING),
    (SETLK, 1, OTHER_UNLOCKS, 0, NOTHING),
    (FLUSH, 1, OTHER_CLOSES, 0, NOTHING),
    (SETLK, 1, OTHER_WRITES, EAGAIN, NOTHING),
    (FLUSH, 1, ONE_CLOSES, 0, NOTHING),
    (SETLK, 1, OTHER_WRITES, 0, NOTHING),
];

/// There is one lock, whatever file, range and process a call names.
const ELSEWHERE: &[Row] = &[
    OPENING,
    (SETLK, 1, ONE_WRITES, 0, NOTHING),
    (SETLK, 2, OTHER_ELSEWHERE, EAGAIN, NOTHING),
    (SETLKW, 2, OTHER_ELSEWHERE, EDEADLK, NOTHING),
    (SETLK, 2, ONE_UNLOCKS_ELSEWHERE, 0, NOTHING),
    (SETLK, 2, OTHER_ELSEWHERE, 0, NOTHING),
    (FLUSH, 3, ONE_CLOSES, 0, NOTHING),
    (SETLK, 1, ONE_WRITES, EAGAIN, NOTHING),
    (FLUSH, 3, OTHER_CLOSES, 0, NOTHING),
    (SETLK, 1, ONE_WRITES, 0, NOTHING),
];

/// On one thread the lock gives the frames of these rows for their messages, in this order.
pub(crate) fn serves_alone<R: Threads + Wait + AllocGlobal + Abort + Sync + Send>(
    rt: &R,
    lock: OneLock<R>,
    rows: &[Row],
) -> OneLock<R> {
    let (lock, rest) = serve(rt, lock, None, rows);
    expect_served(rt, &rest, rows);
    lock
}

/// A free lock gives the frames of these rows so.
pub(crate) fn serves_from_free<R: Threads + Wait + AllocGlobal + Abort + Copy + Sync + Send>(
    rt: R,
    rows: &[Row],
) -> OneLock<R> {
    serves_alone(&rt, OneLock::new(rt, rt.alloc()), rows)
}

#[test]
fn its_holder_alone_gives_the_one_lock_up(rt: HostRuntime) {
    for rows in [NOBODY_WAITS, HOLDER_GIVES_UP, ELSEWHERE] {
        serves_from_free(rt, rows).close();
    }
}

/// The one has the lock, and this owner does not get it.
fn is_another<R: Threads + Wait + AllocGlobal + Abort + Copy + Sync + Send>(rt: R, owner: u64) {
    let body = [0, owner, 0, 0, WRITES, 0];
    let rows = [
        OPENING,
        (SETLK, 1, ONE_WRITES, 0, NOTHING),
        (SETLK, 1, (body.as_slice(), b"".as_slice()), EAGAIN, NOTHING),
    ];
    serves_from_free(rt, &rows).close();
}

/// The lowest bit of each of the eight bytes.
const BITS_OF_EACH_BYTE: &[u64] = &[
    0x1,
    0x100,
    0x1_0000,
    0x100_0000,
    0x1_0000_0000,
    0x100_0000_0000,
    0x1_0000_0000_0000,
    0x100_0000_0000_0000,
];

/// Owners that differ from the one in one byte are others.
#[test]
fn an_owner_is_all_eight_bytes(rt: HostRuntime) {
    for bit in BITS_OF_EACH_BYTE {
        is_another(rt, ONE ^ *bit);
    }
}

/// The one takes the lock. Then the other and the third wait for it, with the ids 2 and 3.
pub(crate) const TAKEN: &[Row] = &[OPENING, (SETLK, 1, ONE_WRITES, 0, NOTHING)];

pub(crate) const OTHER_WAITS: Row = (SETLKW, 1, OTHER_WRITES, 0, NOTHING);

const THIRD_WAITS: Row = (SETLKW, 1, THIRD_WRITES, 0, NOTHING);

/// The one gives it up, or closes the file, with the id 4.
pub(crate) const GIVEN_UP: Row = (SETLK, 1, ONE_UNLOCKS, 0, NOTHING);

const CLOSED: Row = (FLUSH, 1, ONE_CLOSES, 0, NOTHING);

/// The other has the lock, or else the third.
const OTHER_HAS_IT: &[Row] = &[
    OPENING,
    (SETLK, 1, OTHER_WRITES, 0, NOTHING),
    (SETLK, 1, ONE_WRITES, EAGAIN, NOTHING),
    (SETLK, 1, THIRD_WRITES, EAGAIN, NOTHING),
];

const THIRD_HAS_IT: &[Row] = &[
    OPENING,
    (SETLK, 1, OTHER_WRITES, EAGAIN, NOTHING),
    (SETLK, 1, ONE_WRITES, EAGAIN, NOTHING),
    (SETLK, 1, THIRD_WRITES, 0, NOTHING),
];

/// How often the frame of the row was sent, whose message had this id.
pub(crate) fn times_sent<R: AllocGlobal + Abort>(
    rt: &R,
    sent: &[Items<u8>],
    id: u64,
    row: &Row,
) -> usize {
    let frame = frame(rt, rt.alloc(), id, row);
    let mut times = 0usize;
    for one in sent {
        if one.as_slice() == frame.as_slice() {
            times = times.saturating_add(1);
        }
    }
    times
}

/// The lock was given up, and one of the two that waited was told that it has it. Whether that was the other.
fn other_was_told<R: AllocGlobal + Abort>(rt: &R, rest: &Rest, given_up: &Row) -> bool {
    ended_well(rt, rest, 4, 3, &[]);
    let sent = rest.sink.frames();
    let to_other = times_sent(rt, sent, 2, &OTHER_WAITS);
    let others = (
        sent.len(),
        times_sent(rt, sent.get(..1).unwrap_or(&[]), 1, &OPENING),
        times_sent(rt, sent, 3, &THIRD_WAITS),
        times_sent(rt, sent, 4, given_up),
    );
    expect_same(rt, &others, &(3, 1, 1usize.saturating_sub(to_other), 1));
    to_other == 1
}

/// Before one of the two workers comes to the third message it has served one of the two calls that wait, so at least one
/// waits when that message gives the lock up. One of the two has it then, and is told so; the other gets no reply.
fn one_of_two_gets_it<R: Threads + Wait + AllocGlobal + Abort + Copy + Sync + Send>(
    rt: R,
    given_up: Row,
) {
    let lock = serves_from_free(rt, TAKEN);
    let calls = [OPENING, OTHER_WAITS, THIRD_WAITS, given_up];
    let (lock, rest) = serve(&rt, lock, Some(2), &calls);
    let rows = if other_was_told(&rt, &rest, &given_up) {
        OTHER_HAS_IT
    } else {
        THIRD_HAS_IT
    };
    serves_alone(&rt, lock, rows).close();
}

#[test]
fn one_of_two_that_wait_gets_it(rt: HostRuntime) {
    one_of_two_gets_it(rt, GIVEN_UP);
    one_of_two_gets_it(rt, CLOSED);
}
