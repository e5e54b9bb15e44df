// Runs over memory, on the thread of their caller and on workers, and what became of them.
ghost use Rattle.std.specs.Prelude.{◌≡◌, false};
ghost use Rattle.fuse_loop.specs.Lines.{IsUnused};

use crate::frames::{Said, read_frames};
use fuse_line::Line;
use fuse_loop::{Lines, RunLine};
use fuse_reply::Parcel;
use fuse_wire::{Items, MemorySink, Sink, Source};
use fuse_workers::{Buffers, End, RunEnd, Transcript, Work, run_inline, run_workers};
use std::alloc::{AllocGlobal, Global};
use std::process::Abort;
use std::sync::{Arc, Wait};
use std::thread::Threads;

/// On how many workers a run is tried. None is the loop on the caller's thread.
pub(crate) const WORKERS: &[Option<usize>] = &[None, Some(0), Some(1), Some(4)];

/// More than the ids of any run.
const IDS: u64 = 100_064;

/// What became of a run.
#[derive(Clone, Copy, Debug, PartialEq)]
pub(crate) struct Became {
    /// How it ended, as a letter.
    pub(crate) end: u8,
    /// What it counted.
    pub(crate) transcript: Transcript,
    /// What its frames say.
    pub(crate) said: Said,
}

/// What was counted of so many messages, of which so many frames were taken, and so many lost.
pub(crate) fn counts(received: u64, frames: u64, lost: u64) -> Transcript {
    Transcript {
        received,
        frames,
        notes: 0,
        lost,
        unrecorded: 0,
    }
}

/// The run ended so after so many messages, and all ids below a number have their reply.
pub(crate) fn ended(end: u8, received: u64, frames: u64) -> Became {
    Became {
        end,
        transcript: counts(received, frames, 0),
        said: Said::all(frames),
    }
}

/// How a run ended, as a letter.
fn letter(end: &End) -> u8 {
    match end {
        End::Gone => b'g',
        End::Destroyed => b'd',
        End::Broken(_) => b'b',
        End::Failed => b'f',
    }
}

/// What became of a run that ended so, and left these frames.
pub(crate) fn outcome_of<R: AllocGlobal + Abort>(
    rt: &R,
    end: &End,
    transcript: Transcript,
    frames: &[Items<u8>],
) -> Became {
    Became {
        end: letter(end),
        transcript,
        said: read_frames(rt, frames, IDS),
    }
}

/// Runs a work over these devices on so many workers, or on the thread of its caller.
pub(crate) fn run_on<
    R: Threads + Wait + AllocGlobal + Sync,
    W: Work,
    S: Source + Drop,
    K: Sink + Send + Drop,
>(rt: &R, work: &W, workers: Option<usize>, source: S, sink: K, buffers: Buffers) -> RunEnd<S, K>
    requires prompt { W.DEFERS ≡ false }
    requires unused { IsUnused buffers }
{
    match workers {
        None => run_inline(rt, work, source, sink, buffers),
        Some(workers) => run_workers(rt, work, source, sink, buffers, workers),
    }
}

/// The line of frames of these buffers, and whether nobody else has a share of that of jobs. All else is let go.
pub(crate) fn line_of(buffers: Buffers) -> (Arc<Line<Parcel>, Global>, bool) {
    let Buffers { receive, lines } = buffers;
    drop(receive);
    let Lines {
        frames,
        jobs,
        answerer,
        ending,
    } = lines;
    drop(answerer);
    drop(ending);
    let RunLine { line, pass } = jobs;
    drop(pass);
    let is_alone = Arc::into_inner(line).is_some();
    let RunLine { line, pass } = frames;
    drop(pass);
    (line, is_alone)
}

/// Whether nobody else has a share of the lines of these buffers, which are let go.
pub(crate) fn are_whole(buffers: Buffers) -> bool {
    let (frames, is_alone) = line_of(buffers);
    Arc::into_inner(frames).is_some() && is_alone
}

/// A sink that takes everything.
pub(crate) fn taking(alloc: Global) -> MemorySink {
    MemorySink::new(alloc, Vec::new(alloc))
}
