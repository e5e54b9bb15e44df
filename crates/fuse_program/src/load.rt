// The generated messages, served from memory.
ghost use Rattle.std.specs.Prelude.{◌≡◌, ◌<◌, IfOk, IfErr};
ghost use Rattle.std.specs.String.{string_bytes};
ghost use Rattle.fuse_hello.specs.Store.{line};
ghost use Rattle.fuse_program.specs.Load.{IsNoLine, Summarizes};

use crate::arguments::LoadForm;
use fuse_config::{Config, SessionACL};
use fuse_hello::{FrameStore, Hello, StoredMessages, Summary};
use fuse_session::{Ended, SessionError, mount};
use std::sync::Wait;
use std::thread::Threads;

/// How many bytes the replies to the handshake, to so many requests and to DESTROY are expected to take. Over the eight kinds a
/// request's is 64 bytes long in the mean, and a note has none; what is missing the store grows by.
fn room_for(count: u32) -> usize {
    count as usize * 66 + 4096
}

/// Serves all messages that the seed gives, and says what that came to. The error is want of memory, or that no thread is
/// to serve.
fn serve_generated<R: Threads + Wait + AllocGlobal + Sync>(
    rt: &R,
    form: LoadForm,
) -> Result<Summary, SessionError>
    ensures served { IfOk result (λ summary. (0 < form.threads) × Summarizes form summary) }
    ensures causes { IfErr result (λ error. IsNoLine error form.threads) }
{
    let Ok(messages) = StoredMessages::generated(rt.alloc(), form.seed, form.count) else {
        return Err(SessionError::Memory);
    };
    let mut config = Config::new(rt.alloc());
    config.acl = SessionACL::All;
    config.n_threads = Some(form.threads);
    let Ended {
        filesystem: _,
        source: _,
        sink,
        outcome,
        transcript,
    } = mount(
        rt,
        Hello,
        messages,
        FrameStore::with_room(rt.alloc(), room_for(form.count)),
        0,
        4096,
        &config,
    );
    match outcome {
        Ok(()) if sink.starved() > 0 => Err(SessionError::Memory),
        Ok(()) => Ok(sink.summary(transcript.received)),
        Err(error) => Err(error),
    }
}

/// The line of what that came to.
pub fn summary_line<R: Threads + Wait + AllocGlobal + Sync>(
    rt: &R,
    form: LoadForm,
) -> Result<String, SessionError>
    ensures served { IfOk result (λ text. (0 < form.threads)
        × ((summary : _) × Summarizes form summary × (string_bytes text ≡ line summary))) }
    ensures causes { IfErr result (λ error. IsNoLine error form.threads) }
{
    let summary = serve_generated(rt, form)?;
    match format!(in rt.alloc(); "{summary}") {
        Ok(line) => Ok(line),
        Err(_) => Err(SessionError::Memory),
    }
}
