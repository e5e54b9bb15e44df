// The handshake with a kernel.
ghost use Rattle.std.specs.Prelude.{◌≡◌, ◌≤◌, ◌<◌, ◌∷◌, ℕ, List, [], length, take, pos};
ghost use Rattle.fuse_reply.specs.Frame.{frame};
ghost use Rattle.fuse_session.specs.Handshake.{Negotiates};
ghost use Rattle.fuse_session.specs.HandshakeStep.{HandshakeRun, OneStep, end_after_init};

use crate::InvalidData;
use crate::greeting::{Greeting, HandshakeError, Offer};
use fuse_config::{KernelConfig, version_reply};
use fuse_dispatch::{Filesystem, refusal};
use fuse_loop::{Channel, Taken};
use fuse_reply::{Out, ReplyData};
use fuse_request::Request;
use fuse_wire::{Errno, InitFlags, RequestId, Sink, Source};
use std::alloc::Global;
use std::sync::Wait;

/// How a handshake ended.
#[derive(Clone, Copy)]
pub(crate) enum HandshakeOutcome {
    /// An INIT was accepted, and these capabilities were granted.
    Accepted(InitFlags),
    /// No message is left.
    Gone,
    /// The last message was refused.
    Refused(HandshakeError),
    /// The source failed.
    Failed,
}

/// A reply of status 0 with the front of a payload.
fn init_frame(alloc: Global, id: RequestId, payload: &[u8; 64], length: usize) -> Out
    requires { length ≤ 64 }
    ensures { result ≡ Out.Frame (frame id.0 (pos 0) (take length payload.now)) }
{
    ReplyData::new(alloc, id)
        .data(&payload[..length])
        .into_out()
}

/// Asks the filesystem, and makes its answer the reply. Ok is what was granted.
fn negotiate<FS: Filesystem>(
    alloc: Global,
    filesystem: &mut FS,
    page_size: u32,
    request: &Request,
    offer: Offer,
) -> (Out, Result<InitFlags, HandshakeError>)
    requires page { 0 < page_size }
    requires minor { 6 ≤ offer.version.1 }
    ensures { (f : List ℕ) × (result.0 ≡ Out.Frame f)
        × Negotiates FS.promise.may_init page_size filesystem.old request.now offer (f ∷ []) filesystem.new
        (end_after_init result.1) }
{
    let mut config = KernelConfig::new(offer.capabilities, offer.max_readahead, offer.version);
    match filesystem.init(request, &mut config) {
        Ok(()) => {
            let (payload, length) = config.init_reply(
                offer.capabilities,
                offer.version.1,
                page_size,
            );
            let out = init_frame(alloc, request.unique(), &payload, length);
            (out, Ok(config.granted(offer.capabilities)))
        }
        Err(error) => {
            let out = refusal(alloc, request.unique(), error);
            (out, Err(HandshakeError::Init(error)))
        }
    }
}

/// Takes a message and answers it. None is that the next one is awaited.
fn take_step<R: Wait + AllocGlobal, FS: Filesystem, S: Source, K: Sink>(
    rt: &R,
    filesystem: &mut FS,
    page_size: u32,
    channel: &mut Channel<S, K>,
) -> Option<HandshakeOutcome>
    requires { 0 < page_size }
    ensures { OneStep FS.promise.may_init page_size result filesystem.old filesystem.new
        channel.old.progress channel.new.progress }
{
    let count = match channel.take_message(rt) {
        Taken::Message(count) => count,
        Taken::Gone => return Some(HandshakeOutcome::Gone),
        Taken::Failed => return Some(HandshakeOutcome::Failed),
    };
    match Greeting::of(channel.message(count)) {
        Greeting::Silent(invalid) => {
            let error = HandshakeError::InvalidData(invalid);
            Some(HandshakeOutcome::Refused(error))
        }
        Greeting::NotInit(id, opcode) => {
            channel.deliver(refusal(rt.alloc(), id, Errno::EIO));
            let error = HandshakeError::InvalidData(InvalidData::NotInit(opcode));
            Some(HandshakeOutcome::Refused(error))
        }
        Greeting::Old(id, version) => {
            channel.deliver(refusal(rt.alloc(), id, Errno::EPROTO));
            Some(HandshakeOutcome::Refused(HandshakeError::Unsupported(version)))
        }
        Greeting::Newer(id) => {
            channel.deliver(init_frame(rt.alloc(), id, &version_reply(), 64));
            None
        }
        Greeting::Offered(request, offer) => {
            let (out, accepted) = negotiate(rt.alloc(), filesystem, page_size, &request, offer);
            channel.deliver(out);
            match accepted {
                Ok(granted) => Some(HandshakeOutcome::Accepted(granted)),
                Err(error) => Some(HandshakeOutcome::Refused(error)),
            }
        }
    }
}

/// Answers messages until an INIT is accepted, or the handshake fails.
pub(crate) fn handshake<R: Wait + AllocGlobal, FS: Filesystem, S: Source, K: Sink>(
    rt: &R,
    filesystem: &mut FS,
    page_size: u32,
    channel: &mut Channel<S, K>,
) -> HandshakeOutcome
    requires { 0 < page_size }
    ensures { HandshakeRun FS.promise.may_init page_size result filesystem.old filesystem.new
        channel.old.progress channel.new.progress }
{
    for _ in rt.forever() {
        match take_step(rt, filesystem, page_size, channel) {
            Some(outcome) => return outcome,
            None => {}
        }
    }
    unreachable!()
}
