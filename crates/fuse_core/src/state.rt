// What the steps of a run have come to.
ghost use Rattle.std.specs.Prelude.{◌≡◌, IfOk, replicate};
ghost use Rattle.fuse_core.specs.Balanced.{Balanced};
ghost use Rattle.fuse_core.specs.Step.{empty};

use fuse_reply::{LateFrame, Out, Parcel};
use fuse_wire::{Items, NoMemory, RequestId};
use std::alloc::Global;

/// How many jobs can wait for a worker, and how many parcels can wait to be sent.
pub const LINE_PLACES: usize = 64;

/// A message that is to be answered.
#[derive(Drop)]
pub struct Job {
    /// The message's number.
    pub seq: u64,
    /// The message.
    pub message: Items<u8>,
}

/// What a worker has in hand.
#[derive(Drop)]
pub enum WorkerHand {
    /// Nothing.
    Empty,
    /// A job.
    Asked(Job),
    /// What goes out for the message of this number.
    Answered(u64, Out),
}

/// What was sent for a message.
#[derive(Drop)]
pub struct SentOut {
    /// The message's number.
    pub seq: u64,
    /// What was sent.
    pub out: Out,
}

/// A message whose reply comes later.
#[derive(Clone, Copy, PartialEq, Eq)]
pub struct Mark {
    /// The message's number.
    pub seq: u64,
    /// The number of its request.
    pub id: RequestId,
}

/// What the steps of a run have come to, as plain lists.
#[derive(Drop)]
pub struct State {
    /// The messages received, in order. The place of each, from 0, is its number.
    pub received: Items<Items<u8>>,
    /// The jobs that wait for a worker, in order.
    pub jobs: Items<Job>,
    /// The hand of each worker.
    pub hands: Items<WorkerHand>,
    /// The parcels that wait to be sent, in order.
    pub line: Items<Parcel>,
    /// What was sent for messages, in order.
    pub sent: Items<SentOut>,
    /// The messages whose replies come later, in the order in which that was told.
    pub marks: Items<Mark>,
    /// The replies that came later, but before their mark, in order.
    pub held: Items<LateFrame>,
    /// The replies that came later and were sent, in order.
    pub late: Items<LateFrame>,
}

impl State {
    /// The state in which nothing has happened yet, with this many workers. `NoMemory` where there is no memory for
    /// their hands.
    pub fn new(alloc: Global, workers: usize) -> Result<State, NoMemory>
        ensures empty { IfOk result (λ state. state ≡ empty workers) }
        ensures balanced { IfOk result Balanced }
    {
        Ok(State {
            received: Items::from_vec(Vec::new(alloc)),
            jobs: Items::from_vec(Vec::new(alloc)),
            hands: empty_hands(alloc, workers)?,
            line: Items::from_vec(Vec::new(alloc)),
            sent: Items::from_vec(Vec::new(alloc)),
            marks: Items::from_vec(Vec::new(alloc)),
            held: Items::from_vec(Vec::new(alloc)),
            late: Items::from_vec(Vec::new(alloc)),
        })
    }
}

/// The hands of so many workers, each empty.
fn empty_hands(alloc: Global, workers: usize) -> Result<Items<WorkerHand>, NoMemory>
    ensures { IfOk result (λ hands. hands ≡ replicate workers WorkerHand.Empty) }
{
    let mut hands = Vec::with_capacity(alloc, workers)?;
    for _worker in 0..workers {
        if hands.push(WorkerHand::Empty).is_err() {
            return Err(NoMemory);
        }
    }
    Ok(Items::from_vec(hands))
}
