// Copies, for which memory may be wanting.
ghost use Rattle.std.specs.Prelude.{◌≡◌, IfOk};

use crate::{Job, Mark, SentOut, State, WorkerHand};
use fuse_reply::{LateFrame, Out, Parcel};
use fuse_wire::{Items, NoMemory};
use std::alloc::Global;

/// What has copies.
pub(crate) trait Copied: Drop {
    /// A copy, which is the same.
    fn copied(&self, alloc: Global) -> Result<Self, NoMemory>
        ensures { IfOk result (λ copy. copy ≡ self.now) };
}

impl Copied for Items<u8> {
    fn copied(&self, alloc: Global) -> Result<Items<u8>, NoMemory> {
        Ok(Items::from_vec(self.as_slice().to_vec(alloc)?))
    }
}

impl Copied for Job {
    fn copied(&self, alloc: Global) -> Result<Job, NoMemory> {
        Ok(Job {
            seq: self.seq,
            message: self.message.copied(alloc)?,
        })
    }
}

impl Copied for Out {
    fn copied(&self, _alloc: Global) -> Result<Out, NoMemory> {
        Ok(self.clone()?)
    }
}

impl Copied for LateFrame {
    fn copied(&self, _alloc: Global) -> Result<LateFrame, NoMemory> {
        Ok(self.clone()?)
    }
}

impl Copied for Parcel {
    fn copied(&self, _alloc: Global) -> Result<Parcel, NoMemory> {
        Ok(self.clone()?)
    }
}

impl Copied for WorkerHand {
    fn copied(&self, alloc: Global) -> Result<WorkerHand, NoMemory> {
        match self {
            WorkerHand::Empty => Ok(WorkerHand::Empty),
            WorkerHand::Asked(job) => Ok(WorkerHand::Asked(job.copied(alloc)?)),
            WorkerHand::Answered(seq, out) => Ok(WorkerHand::Answered(*seq, out.copied(alloc)?)),
        }
    }
}

impl Copied for SentOut {
    fn copied(&self, alloc: Global) -> Result<SentOut, NoMemory> {
        Ok(SentOut {
            seq: self.seq,
            out: self.out.copied(alloc)?,
        })
    }
}

impl Copied for Mark {
    fn copied(&self, _alloc: Global) -> Result<Mark, NoMemory> {
        Ok(*self)
    }
}

impl Copied for State {
    fn copied(&self, alloc: Global) -> Result<State, NoMemory> {
        Ok(State {
            received: copies(alloc, &self.received)?,
            jobs: copies(alloc, &self.jobs)?,
            hands: copies(alloc, &self.hands)?,
            line: copies(alloc, &self.line)?,
            sent: copies(alloc, &self.sent)?,
            marks: copies(alloc, &self.marks)?,
            held: copies(alloc, &self.held)?,
            late: copies(alloc, &self.late)?,
        })
    }
}

/// A copy of each item, in order.
fn copies<T: Copied>(alloc: Global, items: &Items<T>) -> Result<Items<T>, NoMemory>
    ensures { IfOk result (λ copies. copies ≡ items.now) }
{
    let originals = items.as_slice();
    let mut copies = Vec::with_capacity(alloc, originals.len())?;
    for item in originals {
        let copy = item.copied(alloc)?;
        if copies.push(copy).is_err() {
            return Err(NoMemory);
        }
    }
    Ok(Items::from_vec(copies))
}
