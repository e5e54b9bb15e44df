// What a session takes before its first message.
ghost use Rattle.std.specs.Prelude.{◌≡◌, IfOk};
ghost use Rattle.fuse_notify.specs.Queueing.{fresh_door};
ghost use Rattle.fuse_loop.specs.Lines.{IsUnused};
ghost use Rattle.fuse_core.specs.declared.state.TheConstants.{LINE_PLACES};

use crate::answerer::Answerer;
use crate::ending::Ending;
use crate::request_job::RequestJob;
use crate::run_line::RunLine;
use fuse_notify::Notifier;
use fuse_reply::Parcel;
use fuse_wire::{NoMemory, receive_buffer};
use std::alloc::Global;
use std::marker::Model;

/// The lines of a run, with what the caller answers with, and the mark of the run's end.
#[derive(Drop)]
pub struct Lines {
    /// The frames that wait to be sent.
    pub frames: RunLine<Parcel>,
    /// The messages that wait for a worker.
    pub jobs: RunLine<RequestJob>,
    /// What the caller answers with.
    pub answerer: Answerer,
    /// The mark of the run's end.
    pub ending: Ending,
}

impl Model for Lines {
    ghost use Rattle.fuse_loop.specs.Lines.{LinesState};

    ghost Value = { LinesState };

    ghost view = { λ l. record { frames = l.frames; jobs = l.jobs; answerer = l.answerer; end = l.ending } };
}

impl Lines {
    /// Two lines of `LINE_PLACES` places that nobody has used, with what the caller answers with and the mark of the
    /// run's end. `NoMemory` where there is no memory for them.
    fn new(alloc: Global) -> Result<Lines, NoMemory>
        ensures unused { IfOk result IsUnused }
        ensures places { IfOk result (λ made. (made.frames.line.slots ≡ LINE_PLACES)
            × (made.jobs.line.slots ≡ LINE_PLACES)) }
    {
        let mut frames = RunLine::new(alloc)?;
        let jobs = RunLine::new(alloc)?;
        let mut ending = Ending::new(alloc)?;
        let answerer = Answerer::new(&mut frames, &mut ending)?;
        Ok(Lines {
            frames,
            jobs,
            answerer,
            ending,
        })
    }

    /// What queues notices for whoever sends. `NoMemory` only where the count of what shares the line is at its end.
    pub fn notifier(&mut self) -> Result<Notifier, NoMemory>
        ensures same { self.new ≡ self.old }
        ensures fresh { IfOk result (λ n. n ≡ fresh_door self.old.frames.line) }
    {
        self.frames.notifier()
    }
}

/// The memory that a session can't do without, taken before the first message: where messages are received, the lines
/// of its run, and the mark of its end. A contract sees the lines.
#[derive(Drop)]
pub struct Buffers {
    /// Where messages are received, `BUFFER_SIZE` bytes long.
    pub receive: Vec<u8>,
    /// The lines of its run.
    pub lines: Lines,
}

impl Model for Buffers {
    ghost use Rattle.std.specs.Prelude.{◌≡◌, length};
    ghost use Rattle.fuse_wire.specs.declared.consts.TheConstants.{BUFFER_SIZE};
    ghost use Rattle.fuse_loop.specs.Lines.{LinesState};

    ghost Value = { LinesState };

    ghost view = { λ b. b.lines };

    ghost invariant = { λ b. length b.receive.items ≡ BUFFER_SIZE };
}

impl Buffers {
    /// A receive buffer, and two lines of `LINE_PLACES` places that nobody has used. `NoMemory` where there is no
    /// memory for them.
    pub fn new(alloc: Global) -> Result<Buffers, NoMemory>
        ensures unused { IfOk result IsUnused }
        ensures places { IfOk result (λ made. (made.frames.line.slots ≡ LINE_PLACES)
            × (made.jobs.line.slots ≡ LINE_PLACES)) }
    {
        let receive = receive_buffer(alloc)?;
        let lines = Lines::new(alloc)?;
        Ok(Buffers { receive, lines })
    }

    /// What queues notices for whoever sends. `NoMemory` only where the count of what shares the line is at its end.
    pub fn notifier(&mut self) -> Result<Notifier, NoMemory>
        ensures same { self.new ≡ self.old }
        ensures fresh { IfOk result (λ n. n ≡ fresh_door self.old.frames.line) }
    {
        self.lines.notifier()
    }
}
