// How a session ended.
ghost use Rattle.std.specs.Prelude.{◌≡◌, [], Err};
ghost use Rattle.fuse_loop.specs.Progress.{nothing_yet, progress};
ghost use Rattle.fuse_session.specs.SessionEnd.{run_outcome};

use crate::{InvalidData, SessionError};
use fuse_dispatch::Filesystem;
use fuse_loop::{Channel, End, Lines, Transcript};
use fuse_wire::{Sink, Source};

/// How a session ended. It hands back all that the session was given.
#[derive(Debug, Drop)]
pub struct Ended<FS, S, K> {
    /// The filesystem, after its `destroy` unless the options were refused or no memory was to be had.
    pub filesystem: FS,
    /// The source, with the messages that were not taken.
    pub source: S,
    /// The sink, with the frames and notes that it took.
    pub sink: K,
    /// Ok where the source ended after the handshake, or the kernel sent DESTROY. Else why it ended early.
    pub outcome: Result<(), SessionError>,
    /// What the session did, in numbers.
    pub transcript: Transcript,
}

/// The outcome of a session whose run ended so.
pub(crate) fn run_outcome(end: End) -> Result<(), SessionError>
    ensures { result ≡ run_outcome end }
{
    match end {
        End::Gone | End::Destroyed => Ok(()),
        End::Broken(error) => Err(SessionError::InvalidData(InvalidData::Header(error))),
        End::Failed => Err(SessionError::Receive),
    }
}

/// The end of a session that did nothing, for this reason.
pub(crate) fn untouched<FS, S, K>(
    filesystem: FS,
    source: S,
    sink: K,
    error: SessionError,
) -> Ended<FS, S, K>
    ensures { result ≡ record {
      filesystem = filesystem;
      source = source;
      sink = sink;
      outcome = Err error;
      transcript = nothing_yet;
    } }
{
    Ended {
        filesystem,
        source,
        sink,
        outcome: Err(error),
        transcript: Transcript::new(),
    }
}

/// The end of a session that took memory: `destroy` is called, and all is handed back.
pub(crate) fn destroyed<FS: Filesystem, S, K>(
    mut filesystem: FS,
    source: S,
    sink: K,
    transcript: Transcript,
    outcome: Result<(), SessionError>,
) -> Ended<FS, S, K>
    ensures destroyed { FS.promise.may_destroy filesystem result.filesystem }
    ensures handed_back { (result.source ≡ source) × (result.sink ≡ sink) }
    ensures told { (result.transcript ≡ transcript) × (result.outcome ≡ outcome) }
{
    filesystem.destroy();
    Ended {
        filesystem,
        source,
        sink,
        outcome,
        transcript,
    }
}

/// The end of a session whose handshake opened none: its memory is let go, `destroy` is called, and all is handed back.
pub(crate) fn unopened<FS: Filesystem, S: Source, K: Sink>(
    filesystem: FS,
    channel: Channel<S, K>,
    lines: Lines,
    error: SessionError,
) -> Ended<FS, S, K>
    ensures destroyed { FS.promise.may_destroy filesystem result.filesystem }
    ensures channel { channel.progress ≡ progress (S.told result.source) (K.told result.sink) result.transcript [] }
    ensures recorded { result.transcript.unrecorded ≡ 0 }
    ensures outcome { result.outcome ≡ Err error }
{
    let (source, sink, buffers, transcript) = channel.close(lines);
    drop(buffers);
    destroyed(filesystem, source, sink, transcript, Err(error))
}
