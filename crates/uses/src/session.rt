// A session of the one file.
ghost use Rattle.std.specs.Prelude.{◌≡◌, Ok};
ghost use Rattle.fuse_config.specs.declared.session_acl.SessionACL.TheVariants.{All};
ghost use Rattle.fuse_session.specs.Headline.{Headline};
ghost use Rattle.fuse_read_only.specs.ReadOnly.{promise};
ghost use Rattle.uses.specs.OneFile.{one_file};

use crate::OneFile;
use fuse_config::{Config, SessionACL};
use fuse_read_only::ReadOnly;
use fuse_session::{Ended, mount};
use fuse_wire::{Sink, Source};
use std::sync::Wait;
use std::thread::Threads;

/// Serves the file to everybody, in a session of root with pages of 4096 bytes.
pub fn serve_one_file<R: Threads + Wait + AllocGlobal + Sync, S: Source, K: Sink + Send>(
    rt: &R,
    files: OneFile,
    source: S,
    sink: K,
) -> Ended<ReadOnly<OneFile>, S, K>
    // Each message that was taken has its one reply, by the promise of the tree with the one file.
    ensures answered { result.outcome ≡ Ok tt → result.transcript.lost ≡ 0 →
        Headline (promise (λ files. one_file)) 4096 All 0 files
        (S.told source) (S.told result.source) (K.told sink) (K.told result.sink) }
{
    let mut config = Config::new(rt.alloc());
    config.acl = SessionACL::All;
    mount(rt, ReadOnly::new(files), source, sink, 0, 4096, &config)
}
