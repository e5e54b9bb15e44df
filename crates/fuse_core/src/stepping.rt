// The steps of a run, one after another.
ghost use Rattle.std.specs.Prelude.{◌≡◌, ◌↔◌, ◌++◌, ◌∷◌, ℕ, List, [], Bool, IsTrue, IfOk, IfSome, MatchBool, length};
ghost use Rattle.fuse_reply.specs.declared.out.Out.{Out as Goes};
ghost use Rattle.fuse_core.specs.Balanced.{Balanced};
ghost use Rattle.fuse_core.specs.Owing.{EachOwed, OwedApart, passes};
ghost use Rattle.fuse_core.specs.Step.{Follows, HasRoom, LeadsTo, MayHappen, StandsFor};
ghost use Rattle.fuse_core.specs.Step.{empty, late_went, marked, went};

use crate::copied::Copied;
use crate::lists::{exchange, push, take_at, take_first};
use crate::marks::{first_held, is_unused, tag_of, tag_of_late};
use crate::{Event, Job, LINE_PLACES, Mark, SentOut, State, WorkerHand};
use fuse_header::Header;
use fuse_reply::{LateFrame, Out, Parcel};
use fuse_wire::{Items, NoMemory, RequestId};
use std::alloc::Global;

/// The state after an event, or None where the event cannot happen.
///
/// An error comes only for want of memory.
pub fn step(alloc: Global, state: &State, event: &Event) -> Result<Option<State>, NoMemory>
    ensures follows { IfOk result (Follows state.now event.now) }
    ensures balanced { Balanced state.now → IfOk result (λ after. IfSome after Balanced) }
{
    let mut next = state.copied(alloc)?;
    if apply(alloc, &mut next, event)? {
        Ok(Some(next))
    } else {
        Ok(None)
    }
}

/// The state after these events, one after another, or None where one of them cannot happen.
///
/// An error comes only for want of memory.
pub fn run(alloc: Global, state: &State, events: &[Event]) -> Result<Option<State>, NoMemory>
    ensures leads { IfOk result (LeadsTo state.now events.now) }
    ensures balanced { Balanced state.now → IfOk result (λ after. IfSome after Balanced) }
    ensures owed { (test : ℕ → List ℕ → Goes → Bool) (workers : ℕ) → state.now ≡ empty workers
        → EachOwed (passes test) state.now events.now
        → IfOk result (λ after. IfSome after (OwedApart (passes test))) }
{
    let mut reached = state.copied(alloc)?;
    for event in events {
        if !apply(alloc, &mut reached, event)? {
            return Ok(None);
        }
    }
    Ok(Some(reached))
}

/// Lets an event happen, and says whether it can. A state that it can't happen in, or that memory was wanting for, is of no
/// more use.
fn apply(alloc: Global, state: &mut State, event: &Event) -> Result<bool, NoMemory>
    ensures { IfOk result (MayHappen state.old event.now state.new) }
{
    match event {
        Event::Receive(message) => receive(alloc, state, message),
        Event::Take(worker) => Ok(take(alloc, state, *worker)),
        Event::Answer(worker, out) => Ok(answer(alloc, state, *worker, out.copied(alloc)?)),
        Event::Defer(worker, seq, id) => Ok(defer(alloc, state, *worker, *seq, *id)),
        Event::Push(worker) => put(alloc, state, *worker),
        Event::Send => send(alloc, state),
        Event::Own(message, out) => own(alloc, state, message, out.copied(alloc)?),
        Event::Late(frame) => queue(alloc, state, Parcel::Late(frame.clone()?)),
        Event::Notify(frame) => queue(alloc, state, Parcel::Notice(frame.clone()?)),
    }
}

/// The number of the next message: its place from 0.
fn next_number(state: &State) -> u64
    ensures { result ≡ length state.now.received }
{
    state.received.as_slice().len() as u64
}

/// Puts a parcel on the line, where there is a place for it, and says whether it did.
fn queue(alloc: Global, state: &mut State, parcel: Parcel) -> Result<bool, NoMemory>
    ensures { IfOk result (λ queued. MatchBool queued
        (HasRoom state.old.line × (state.new ≡ record state.old { line = state.old.line ++ parcel ∷ [] }))
        (¬ (HasRoom state.old.line))) }
{
    if state.line.as_slice().len() >= LINE_PLACES {
        return Ok(false);
    }
    push(alloc, &mut state.line, parcel)?;
    Ok(true)
}

/// A message comes, and becomes a job.
fn receive(alloc: Global, state: &mut State, message: &Items<u8>) -> Result<bool, NoMemory>
    ensures { IfOk result (MayHappen state.old (Event.Receive message.now) state.new) }
{
    if state.jobs.as_slice().len() >= LINE_PLACES {
        return Ok(false);
    }
    let job = Job {
        seq: next_number(state),
        message: message.copied(alloc)?,
    };
    push(alloc, &mut state.jobs, job)?;
    push(alloc, &mut state.received, message.copied(alloc)?)?;
    Ok(true)
}

/// A message comes with what goes out for it.
fn own(alloc: Global, state: &mut State, message: &Items<u8>, out: Out) -> Result<bool, NoMemory>
    ensures { IfOk result (MayHappen state.old (Event.Own message.now out) state.new) }
{
    let seq = next_number(state);
    if !stands_for(seq, message.as_slice(), &out)
        || !queue(alloc, state, Parcel::Prompt(seq, out))?
    {
        return Ok(false);
    }
    push(alloc, &mut state.received, message.copied(alloc)?)?;
    Ok(true)
}

/// A worker takes a job.
fn take(alloc: Global, state: &mut State, worker: usize) -> bool
    ensures { MayHappen state.old (Event.Take worker) state.new result }
{
    let Some(WorkerHand::Empty) = state.hands.as_slice().get(worker) else {
        return false;
    };
    let Some(job) = take_first(alloc, &mut state.jobs) else {
        return false;
    };
    exchange(alloc, &mut state.hands, worker, WorkerHand::Asked(job));
    true
}

/// A worker answers its job.
fn answer(alloc: Global, state: &mut State, worker: usize, out: Out) -> bool
    ensures { MayHappen state.old (Event.Answer worker out) state.new result }
{
    let Some(WorkerHand::Asked(job)) = state.hands.as_slice().get(worker) else {
        return false;
    };
    let seq = job.seq;
    if !stands_for(seq, job.message.as_slice(), &out) {
        return false;
    }
    exchange(
        alloc,
        &mut state.hands,
        worker,
        WorkerHand::Answered(seq, out),
    );
    true
}

/// A worker leaves the answer of its job for later.
fn defer(alloc: Global, state: &mut State, worker: usize, seq: u64, id: RequestId) -> bool
    ensures { MayHappen state.old (Event.Defer worker seq id) state.new result }
{
    answer(alloc, state, worker, Out::Deferred(seq, id))
}

/// A worker puts what it has answered on the line.
fn put(alloc: Global, state: &mut State, worker: usize) -> Result<bool, NoMemory>
    ensures { IfOk result (MayHappen state.old (Event.Push worker) state.new) }
{
    if worker >= state.hands.as_slice().len() {
        return Ok(false);
    }
    match exchange(alloc, &mut state.hands, worker, WorkerHand::Empty) {
        WorkerHand::Answered(seq, out) => queue(alloc, state, Parcel::Prompt(seq, out)),
        WorkerHand::Empty | WorkerHand::Asked(_) => Ok(false),
    }
}

/// The first parcel is sent.
fn send(alloc: Global, state: &mut State) -> Result<bool, NoMemory>
    ensures { IfOk result (MayHappen state.old Event.Send state.new) }
{
    let Some(parcel) = take_first(alloc, &mut state.line) else {
        return Ok(false);
    };
    leave(alloc, state, parcel)?;
    Ok(true)
}

/// A parcel has left the line.
fn leave(alloc: Global, state: &mut State, parcel: Parcel) -> Result<(), NoMemory>
    ensures { IfOk result (λ _. state.new ≡ went parcel state.old) }
{
    match parcel {
        Parcel::Prompt(seq, out) => settle(alloc, state, seq, out),
        Parcel::Late(frame) => match_late(alloc, state, frame),
        Parcel::Notice(_) => Ok(()),
    }
}

/// A late frame is sent where a mark for it is unused, and else it is held.
fn match_late(alloc: Global, state: &mut State, frame: LateFrame) -> Result<(), NoMemory>
    ensures { IfOk result (λ _. state.new ≡ late_went frame state.old) }
{
    let tag = tag_of_late(&frame);
    if is_unused(tag, state.marks.as_slice(), state.late.as_slice()) {
        push(alloc, &mut state.late, frame)
    } else {
        push(alloc, &mut state.held, frame)
    }
}

/// A mark comes, and lets the first frame go that is held for it.
fn mark(alloc: Global, state: &mut State, mark: Mark) -> Result<(), NoMemory>
    ensures { IfOk result (λ _. state.new ≡ marked mark state.old) }
{
    push(alloc, &mut state.marks, mark)?;
    match first_held(tag_of(mark), state.held.as_slice()) {
        Some(place) => {
            let frame = take_at(alloc, &mut state.held, place);
            push(alloc, &mut state.late, frame)
        }
        None => Ok(()),
    }
}

/// What goes out for a message is sent, or is a mark of what comes later.
fn settle(alloc: Global, state: &mut State, seq: u64, out: Out) -> Result<(), NoMemory>
    ensures { IfOk result (λ _. state.new ≡ went (Parcel.Prompt seq out) state.old) }
{
    match out {
        Out::Deferred(seq, id) => mark(alloc, state, Mark { seq, id }),
        Out::Frame(_) | Out::Note(_, _) => push(alloc, &mut state.sent, SentOut { seq, out }),
    }
}

/// Whether this may go out for a message: a mark has the message's number, and the id of its header, which is good.
fn stands_for(seq: u64, message: &[u8], out: &Out) -> bool
    ensures { IsTrue result ↔ StandsFor seq message.now out.now }
{
    let Out::Deferred(number, id) = out else {
        return true;
    };
    match Header::of(message) {
        Ok(header) => *number == seq && id.0 == header.unique.0,
        Err(_) => false,
    }
}
