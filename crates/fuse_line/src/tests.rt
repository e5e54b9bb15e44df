ghost use Rattle.std.specs.Prelude.{◌≡◌, ◌<◌, false};
ghost use Rattle.fuse_line.specs.declared.hand.Kind.TheVariants.{Door, First, Inner};

use crate::gate::{Gate, Waiting};
use crate::*;
use std::fmt::Debug;
use std::process::Abort;
use std::sync::Wait;
use std::sync::atomic::{AtomicBool, AtomicU64, Ordering};
use std::thread;
use std::time::{Clock, Duration};

/// The two are equal.
pub(crate) fn expect_same<T: PartialEq + Debug>(rt: &impl Abort, found: &T, expected: &T) {
    assert_eq!(rt; *found, *expected);
}

#[derive(Clone, Copy, Debug, PartialEq, Eq)]
struct Item {
    number: u64,
    inner: bool,
}

impl Class for Item {
    ghost is_inner = { λ item. item.inner };

    fn inner(&self) -> bool {
        self.inner
    }
}

fn job(number: u64) -> Item {
    Item {
        number,
        inner: true,
    }
}

fn note(number: u64) -> Item
    ensures { result.inner ≡ false }
{
    Item {
        number,
        inner: false,
    }
}

/// A line of so many places, and its first pass.
fn line_of<A: AllocGlobal + Abort>(rt: &A, places: usize) -> (Line<Item>, Pass<Item>)
    requires { 0 < places }
    ensures { (result.1.line ≡ result.0) × (result.1.hand.kind ≡ First) }
{
    Line::new(rt.alloc(), places).expect(rt, "there is memory")
}

/// A line of two places keeps two items in order, and gives back the third.
fn keeps_two<R: Wait + Abort>(rt: &R, line: &Line<Item>, mut pass: Pass<Item>)
    requires { (pass.line ≡ line.now) × (pass.hand.kind ≡ First) }
{
    let pushed = [
        line.push(rt, &mut pass, job(1)),
        line.push(rt, &mut pass, job(2)),
        line.push(rt, &mut pass, job(3)),
    ];
    let popped = [
        line.pop(rt, &mut pass),
        line.pop(rt, &mut pass),
        line.pop(rt, &mut pass),
    ];
    expect_same(rt, &popped, &[Some(job(1)), Some(job(2)), None]);
    let [first, second, third] = pushed;
    expect_same(rt, &[first.is_ok(), second.is_ok()], &[true, true]);
    expect_same(rt, &third.err().map(|full| full.item), &Some(job(3)));
}

#[test]
fn keeps_two_in_order_and_gives_back_the_third(rt: HostRuntime) {
    let (line, pass) = line_of(&rt, 2);
    keeps_two(&rt, &line, pass);
}

#[test]
fn is_empty_but_between_a_push_and_its_pop(rt: HostRuntime) {
    let (line, mut pass) = line_of(&rt, 1);
    let before = line.see_empty(&mut pass).is_some();
    let pushed = line.push(&rt, &mut pass, job(1)).is_ok();
    let between = line.see_empty(&mut pass).is_some();
    let popped = line.pop_or_empty(&rt, &mut pass).ok();
    let after = line.see_empty(&mut pass).is_some();
    let none = line.pop_or_empty(&rt, &mut pass).is_err();
    expect_same(&rt, &(pushed, popped, none), &(true, Some(job(1)), true));
    expect_same(&rt, &[before, between, after], &[true, false, true]);
}

#[test]
fn splits_passes_off_and_joins_them(rt: HostRuntime) {
    let (line, mut first) = line_of(&rt, 2);
    let mut inner = line.split(&mut first, false);
    let mut door = line.split(&mut first, true);
    let mut other = line.split(&mut door, true);
    let pushed = [
        line.push(&rt, &mut other, note(7)),
        line.push(&rt, &mut inner, job(8)),
    ];
    line.join(&mut door, other);
    let popped = line.pop(&rt, &mut inner);
    line.join(&mut first, inner);
    let left = [line.pop(&rt, &mut first), line.pop(&rt, &mut first)];
    expect_same(&rt, &pushed, &[Ok(()), Ok(())]);
    expect_same(&rt, &(popped, left), &(Some(note(7)), [Some(job(8)), None]));
}

#[test]
fn keeps_two_in_order_and_gives_back_the_third_or_wants_memory(rt: HostRuntime) {
    if let Ok((line, pass)) = Line::new(rt.alloc(), 2) {
        keeps_two(&rt, &line, pass);
    }
}

// Pushes the numbers below count, in order.
fn push_below<R: Wait>(rt: &R, line: &Line<Item>, mut pass: Pass<Item>, count: u64)
    requires { (pass.line ≡ line.now) × (pass.hand.kind ≡ First) }
{
    for number in 0..count {
        line.push_waiting(rt, &mut pass, job(number));
    }
}

// How many items come in the order 0, 1, 2 and so on, until the flag is up and the line is empty.
fn pop_in_order<R: Wait>(
    rt: &R,
    line: &Line<Item>,
    mut pass: Pass<Item>,
    stop: &AtomicBool,
) -> (u64, u64)
    requires { (pass.line ≡ line.now) × (pass.hand.kind ≡ Inner) }
{
    let mut came = 0u64;
    let mut in_order = 0u64;
    for _ in rt.forever() {
        match line.pop_waiting(rt, &mut pass, stop) {
            Some(item) => {
                in_order = in_order.wrapping_add(u64::from(item.number == came));
                came = came.wrapping_add(1);
            }
            None => break,
        }
    }
    (came, in_order)
}

#[test]
fn moves_a_million_items_in_order_through_few_places(rt: HostRuntime) {
    let count = 1_000_000;
    for places in [2, 64] {
        let (line, mut pass) = line_of(&rt, places);
        let taker = line.split(&mut pass, false);
        let stop = AtomicBool::new(false);
        let ((), moved) = thread::join(
            &rt,
            ||
                requires { (pass.line ≡ line) × (pass.hand.kind ≡ First) }
            {
                push_below(&rt, &line, pass, count);
                stop.store(true, Ordering::SeqCst);
                line.wake();
            },
            ||
                requires { (taker.line ≡ line) × (taker.hand.kind ≡ Inner) }
            { pop_in_order(&rt, &line, taker, &stop) },
        );
        expect_same(&rt, &(places, moved), &(places, (count, count)));
    }
}

// Whether so many threads come to sleep at the gate within thirty seconds: a hundred looks, one after the other, find them
// waiting. One that tries again and again is between two waits most of the time.
fn sleep_at<R: Clock>(rt: &R, gate: &Gate, threads: u64) -> bool {
    let mut asleep = 0u64;
    for _ in 0..30_000 {
        asleep = if gate.counts().0 == threads {
            asleep.wrapping_add(1)
        } else {
            0
        };
        if asleep == 100 {
            return true;
        }
        thread::sleep(rt, Duration::from_millis(1));
    }
    false
}

// Whether one thread comes to sleep at the gate.
fn sleeps_at<R: Clock>(rt: &R, gate: &Gate) -> bool {
    sleep_at(rt, gate, 1)
}

#[test]
fn a_pop_sleeps_until_an_item_comes(rt: HostRuntime) {
    let (line, mut pass) = line_of(&rt, 1);
    let mut taker = line.split(&mut pass, false);
    let mut door = line.split(&mut pass, true);
    let stop = AtomicBool::new(false);
    let (pushed, popped) = thread::join(
        &rt,
        ||
            requires pass { (pass.line ≡ line) × (pass.hand.kind ≡ First) }
            requires door { (door.line ≡ line) × (door.hand.kind ≡ Door) }
        {
            let for_job = sleeps_at(&rt, &line.items);
            let job_pushed = line.push(&rt, &mut pass, job(1)).is_ok();
            let for_note = sleeps_at(&rt, &line.items);
            let note_pushed = line.push(&rt, &mut door, note(2)).is_ok();
            [for_job, job_pushed, for_note, note_pushed]
        },
        ||
            requires { (taker.line ≡ line) × (taker.hand.kind ≡ Inner) }
        {
            [
                line.pop_waiting(&rt, &mut taker, &stop),
                line.pop_waiting(&rt, &mut taker, &stop),
            ]
        },
    );
    let expected = ([true; 4], [Some(job(1)), Some(note(2))]);
    expect_same(&rt, &(pushed, popped), &expected);
}

#[test]
fn a_push_sleeps_until_a_place_comes(rt: HostRuntime) {
    let (line, mut pass) = line_of(&rt, 1);
    let mut taker = line.split(&mut pass, false);
    let pushed = line.push(&rt, &mut pass, note(1)).is_ok();
    let (popped, ()) = thread::join(
        &rt,
        ||
            requires { (taker.line ≡ line) × (taker.hand.kind ≡ Inner) }
        {
            let for_note = sleeps_at(&rt, &line.places);
            let note_popped = line.pop(&rt, &mut taker);
            let for_job = sleeps_at(&rt, &line.places);
            let job_popped = line.pop(&rt, &mut taker);
            [(for_note, note_popped), (for_job, job_popped)]
        },
        ||
            requires { (pass.line ≡ line) × (pass.hand.kind ≡ First) }
        {
            line.push_waiting(&rt, &mut pass, job(2));
            line.push_waiting(&rt, &mut pass, job(3));
        },
    );
    let expected = [(true, Some(note(1))), (true, Some(job(2)))];
    expect_same(&rt, &(pushed, popped), &(true, expected));
}

#[test]
fn a_pop_sleeps_until_its_flag_is_up(rt: HostRuntime) {
    let (line, mut pass) = line_of(&rt, 1);
    let mut taker = line.split(&mut pass, false);
    let stop = AtomicBool::new(false);
    let (slept, found): (bool, Option<Item>) = thread::join(
        &rt,
        || {
            let slept = sleeps_at(&rt, &line.items);
            stop.store(true, Ordering::SeqCst);
            line.wake();
            slept
        },
        ||
            requires { (taker.line ≡ line) × (taker.hand.kind ≡ Inner) }
        { line.pop_waiting(&rt, &mut taker, &stop) },
    );
    expect_same(&rt, &(slept, found), &(true, None));
}

// Takes an item, and counts this thread as back.
fn take_one<R: Wait>(
    rt: &R,
    line: &Line<Item>,
    mut pass: Pass<Item>,
    stop: &AtomicBool,
    back: &AtomicU64,
) -> Option<Item>
    requires { (pass.line ≡ line.now) × (pass.hand.kind ≡ Inner) }
{
    let taken = line.pop_waiting(rt, &mut pass, stop);
    back.fetch_add(1, Ordering::SeqCst);
    taken
}

// Whether so many threads are back within three seconds.
fn come_back<R: Clock>(rt: &R, back: &AtomicU64, threads: u64) -> bool {
    for _ in 0..3_000 {
        if back.load(Ordering::SeqCst) == threads {
            return true;
        }
        thread::sleep(rt, Duration::from_millis(1));
    }
    false
}

// Of two that sleep a push brings one back, with its item, and the next push the other. The flag lets both go where a
// wake-up was lost.
#[test]
fn a_push_brings_back_one_of_two_that_sleep(rt: HostRuntime) {
    let (line, mut pass) = line_of(&rt, 1);
    let first = line.split(&mut pass, false);
    let second = line.split(&mut pass, false);
    let stop = AtomicBool::new(false);
    let back = AtomicU64::new(0);
    let (found, taken): ([bool; 6], (Option<Item>, Option<Item>)) = thread::join(
        &rt,
        ||
            requires { (pass.line ≡ line) × (pass.hand.kind ≡ First) }
        {
            let both_sleep = sleep_at(&rt, &line.items, 2);
            let pushed = line.push(&rt, &mut pass, job(1)).is_ok();
            let one_back = come_back(&rt, &back, 1);
            let one_sleeps = sleeps_at(&rt, &line.items);
            let pushed_again = line.push(&rt, &mut pass, job(2)).is_ok();
            let both_back = come_back(&rt, &back, 2);
            stop.store(true, Ordering::SeqCst);
            line.wake();
            [
                both_sleep,
                pushed,
                one_back,
                one_sleeps,
                pushed_again,
                both_back,
            ]
        },
        ||
            requires first { (first.line ≡ line) × (first.hand.kind ≡ Inner) }
            requires second { (second.line ≡ line) × (second.hand.kind ≡ Inner) }
        {
            thread::join(
                &rt,
                ||
                    requires { (first.line ≡ line) × (first.hand.kind ≡ Inner) }
                { take_one(&rt, &line, first, &stop, &back) },
                ||
                    requires { (second.line ≡ line) × (second.hand.kind ≡ Inner) }
                { take_one(&rt, &line, second, &stop, &back) },
            )
        },
    );
    expect_same(&rt, &found, &[true; 6]);
    let in_order = match taken.0 {
        Some(item) if item.number == 2 => (taken.1, taken.0),
        _ => taken,
    };
    expect_same(&rt, &in_order, &(Some(job(1)), Some(job(2))));
}

// Rests until the flag is up, and tells how often.
fn rests_until<R: Wait>(rt: &R, mut waiting: Waiting<'_>, stop: &AtomicBool) -> u64 {
    let mut rests = 0u64;
    for _ in rt.forever() {
        if stop.load(Ordering::SeqCst) {
            return rests;
        }
        waiting.rest(rt);
        rests = rests.wrapping_add(1);
    }
    rests
}

// Where those sleep that wait for an item, or for a place.
fn gate_of(line: &Line<Item>, for_item: bool) -> &Gate {
    if for_item { &line.items } else { &line.places }
}

// Of two that sleep a move wakes one, which sleeps again, and the flag wakes both. So they come to sleep three times, and
// each time it is the rest after the one that makes them be counted.
#[test]
fn a_move_wakes_one_and_a_flag_wakes_all(rt: HostRuntime) {
    for for_item in [true, false] {
        let (line, mut pass) = line_of(&rt, 1);
        let gate = gate_of(&line, for_item);
        let filled = for_item || line.push(&rt, &mut pass, job(1)).is_ok();
        let stop = AtomicBool::new(false);
        let (found, (first, second)): ([bool; 3], (u64, u64)) = thread::join(
            &rt,
            ||
                requires { (pass.line ≡ line) × (pass.hand.kind ≡ First) }
            {
                let slept = sleep_at(&rt, gate, 2);
                let moved = if for_item {
                    line.push(&rt, &mut pass, job(1)).is_ok()
                } else {
                    line.pop(&rt, &mut pass).is_some()
                };
                let sleep_again = sleep_at(&rt, gate, 2);
                stop.store(true, Ordering::SeqCst);
                line.wake();
                [slept, moved, sleep_again]
            },
            || {
                thread::join(
                    &rt,
                    || rests_until(&rt, gate.wait(), &stop),
                    || rests_until(&rt, gate.wait(), &stop),
                )
            },
        );
        let until_counted = gate.rests_until_counted(&rt, &mut gate.wait());
        let rests = first.wrapping_add(second);
        let at_most = u64::from(until_counted).wrapping_add(1).wrapping_mul(3);
        let found = (for_item, filled, found, rests <= at_most);
        expect_same(&rt, &found, &(for_item, true, [true; 3], true));
    }
}

// The gate counts its wakes in 64 bits, and a thread sleeps on 32 of them.
#[test]
fn a_wait_for_a_place_sleeps_until_its_flag_is_up_after_any_wakes(rt: HostRuntime) {
    let (line, _pass) = line_of(&rt, 1);
    for woken in [0, 1 << 16, (1 << 32) + 5] {
        line.places.set_woken(woken);
        let stop = AtomicBool::new(false);
        let (slept, ()): (bool, ()) = thread::join(
            &rt,
            || {
                let slept = sleeps_at(&rt, &line.places);
                stop.store(true, Ordering::SeqCst);
                line.wake();
                slept
            },
            || {
                rests_until(&rt, line.wait_for_place(), &stop);
            },
        );
        expect_same(&rt, &(woken, slept), &(woken, true));
    }
}

// How often those that wait for an item were woken, and those that wait for a place.
fn wakes(line: &Line<Item>) -> (u64, u64) {
    (line.items.counts().1, line.places.counts().1)
}

#[test]
fn each_move_wakes_and_a_refusal_does_not(rt: HostRuntime) {
    let (line, mut pass) = line_of(&rt, 2);
    let mut for_item = line.wait_for_item();
    line.items.rests_until_counted(&rt, &mut for_item);
    let mut for_place = line.wait_for_place();
    line.places.rests_until_counted(&rt, &mut for_place);
    let found = [
        (line.push(&rt, &mut pass, job(1)).is_ok(), wakes(&line)),
        (line.push(&rt, &mut pass, job(2)).is_ok(), wakes(&line)),
        (line.push(&rt, &mut pass, job(3)).is_ok(), wakes(&line)),
        (line.pop(&rt, &mut pass).is_some(), wakes(&line)),
        (line.pop(&rt, &mut pass).is_some(), wakes(&line)),
        (line.pop(&rt, &mut pass).is_some(), wakes(&line)),
    ];
    line.wake();
    let expected = [
        (true, (1, 0)),
        (true, (2, 0)),
        (false, (2, 0)),
        (true, (2, 1)),
        (true, (2, 2)),
        (false, (2, 2)),
    ];
    expect_same(&rt, &(found, wakes(&line)), &(expected, (3, 3)));
}
