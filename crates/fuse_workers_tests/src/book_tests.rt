// Marks and late frames in every order, many at once, and where memory is wanting.
use crate::asserts::expect_same;
use fuse_core::Book;
use fuse_wire::RequestId;
use std::alloc::Global;
use std::process::Abort;

/// What comes, and at the same places what goes: a capital letter is a mark, a small one a late frame of the same tag,
/// which is named by its place when it goes.
const RUNS: &[(&str, &str)] = &[
    ("Aa", ".1"),
    ("aA", ".0"),
    ("A", "."),
    ("a", "."),
    ("AaA", ".1."),
    ("aAa", ".0."),
    ("AAaaa", "..23."),
    ("aaAAA", "..01."),
    ("aaaAAA", "...012"),
    ("aAAa", ".0.3"),
    ("AaAa", ".1.3"),
    ("abcdABCD", "....0123"),
    ("ABCDdcba", "....4567"),
    ("aBbAcDCdab", "..20..47.."),
];

fn tag(letter: u8) -> (u64, RequestId) {
    match letter.to_ascii_lowercase() {
        b'a' => (1, RequestId(1)),
        b'b' => (1, RequestId(2)),
        b'c' => (2, RequestId(1)),
        _ => (2, RequestId(2)),
    }
}

fn comes(book: &mut Book<usize>, letter: u8, place: usize) -> Option<usize> {
    let (seq, id) = tag(letter);
    if letter.is_ascii_uppercase() {
        book.mark(seq, id)
    } else {
        book.late(seq, id, place)
    }
}

/// The place of the frame that is wanted at a place.
fn frame(wanted: &[u8], place: usize) -> Option<usize> {
    let digit = wanted.get(place)?.checked_sub(b'0')?;
    Some(usize::from(digit))
}

/// Puts what the letters say into a new book. Gives at how many places what went is not what was wanted, and how much
/// could not be kept.
fn run(alloc: Global, letters: &[u8], wanted: &[u8]) -> (u64, u64) {
    let mut book = Book::new(alloc);
    let mut wrong = 0_u64;
    for (place, letter) in letters.iter().enumerate() {
        let went = comes(&mut book, *letter, place);
        wrong = wrong.saturating_add(u64::from(went != frame(wanted, place)));
    }
    (wrong, book.unrecorded())
}

/// Whether nothing is wrong, or where memory may be wanting, one thing could not be kept.
fn is_right(wrong: u64, unrecorded: u64, may_want: bool) -> bool {
    if may_want {
        wrong == 0 || unrecorded == 1
    } else {
        wrong == 0 && unrecorded == 0
    }
}

/// Each run goes as it is wanted.
fn expect_runs<R: AllocGlobal + Abort>(rt: &R, may_want: bool) {
    for (letters, wanted) in RUNS {
        let (wrong, unrecorded) = run(rt.alloc(), letters.as_bytes(), wanted.as_bytes());
        let is_right = is_right(wrong, unrecorded, may_want);
        expect_same(rt, &(*letters, is_right), &(*letters, true));
    }
}

/// The numbers below the count, each once, in an order that the factor gives. The two have no divisor in common.
fn turned(place: u64, factor: u64, count: u64) -> u64 {
    place.wrapping_mul(factor).checked_rem(count).unwrap_or(0)
}

/// Puts a mark of each number below the count that leaves this remainder by two, and a late frame of each other, in the
/// order of the factor. Gives how many frames went, and how many of these with their own number.
fn put_halves(book: &mut Book<u64>, count: u64, factor: u64, marked: u64) -> (u64, u64) {
    let (mut all, mut own) = (0_u64, 0_u64);
    for place in 0..count {
        let number = turned(place, factor, count);
        let id = RequestId(number / 2);
        let went = if number % 2 == marked {
            book.mark(number, id)
        } else {
            book.late(number, id, number)
        };
        all = all.saturating_add(u64::from(went.is_some()));
        own = own.saturating_add(u64::from(went == Some(number)));
    }
    (all, own)
}

/// Half of the marks come, and half of the late frames; then the others. Gives how many frames went before the others
/// came, how many went just when they should, and how much could not be kept.
fn many(alloc: Global, count: u64) -> (u64, u64, u64) {
    let mut book = Book::new(alloc);
    let (early, _) = put_halves(&mut book, count, 77_773, 0);
    let (_, right) = put_halves(&mut book, count, 31_337, 1);
    (early, right, book.unrecorded())
}

#[test]
fn each_mark_lets_one_frame_go(rt: HostRuntime) {
    expect_runs(&rt, false);
    expect_same(&rt, &many(rt.alloc(), 100), &(0, 100, 0));
}

#[test]
fn each_mark_lets_one_frame_go_or_is_counted(rt: HostRuntime) {
    expect_runs(&rt, true);
    let (early, right, unrecorded) = many(rt.alloc(), 100);
    expect_same(&rt, &(early, right.saturating_add(unrecorded)), &(0, 100));
}

#[test]
fn many_are_outstanding_at_once(rt: HostRuntime) {
    expect_same(&rt, &many(rt.alloc(), 100_000), &(0, 100_000, 0));
}
