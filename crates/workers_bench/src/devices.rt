// A source that makes its messages, and a sink that counts its frames.
ghost use Rattle.std.specs.Prelude.{◌≡◌, ◌≤◌, None, length};
ghost use Rattle.fuse_wire.specs.declared.consts.TheConstants.{BUFFER_SIZE};

use fuse_request::opcode::FUSE_STATFS;
use fuse_wire::{NoMemory, Noting, Received, RequestId, Sending, Sink, Source};
use std::alloc::Global;
use std::sync::Arc;
use std::sync::atomic::{AtomicU64, Ordering};
use std::thread;

/// How many bytes a message has.
const MESSAGE_SIZE: usize = 40;

/// Makes so many messages, whose ids are their numbers. One that is paced makes the next message once the frame of the
/// one before it was sent. It tells nothing.
#[derive(Drop)]
pub struct Generated {
    count: u64,
    made: u64,
    is_paced: bool,
    sent: Arc<AtomicU64, Global>,
}

/// Counts the frames that it takes, and takes no note. It tells nothing.
#[derive(Drop)]
pub struct Counted {
    sent: Arc<AtomicU64, Global>,
    faults: u64,
}

/// Both, over one counter.
pub fn devices(
    alloc: Global,
    count: u64,
    is_paced: bool,
) -> Result<(Generated, Counted), NoMemory> {
    let Ok(sent) = Arc::new(alloc, AtomicU64::new(0)) else {
        return Err(NoMemory);
    };
    let source = Generated {
        count,
        made: 0,
        is_paced,
        sent: Arc::try_clone(&sent)?,
    };
    Ok((source, Counted { sent, faults: 0 }))
}

impl Counted {
    /// How many frames it took.
    pub fn sent(&self) -> u64 {
        self.sent.load(Ordering::SeqCst)
    }
}

/// A STATFS of this id.
fn message(id: u64) -> [u8; MESSAGE_SIZE] {
    let mut bytes = [0; MESSAGE_SIZE];
    bytes[0] = MESSAGE_SIZE as u8;
    bytes[4..8].copy_from_slice(&FUSE_STATFS.to_le_bytes());
    bytes[8..16].copy_from_slice(&id.to_le_bytes());
    bytes
}

/// Copies a message to the front of the buffer, and says how long it is.
fn put(message: &[u8], buffer: &mut [u8]) -> usize
    requires { length buffer.old ≡ BUFFER_SIZE }
    ensures { (result ≤ BUFFER_SIZE) × (length buffer.new ≡ BUFFER_SIZE) }
{
    let count = message.len().min(buffer.len());
    buffer[..count].copy_from_slice(&message[..count]);
    count
}

impl Source for Generated {
    ghost told = { λ s. record { turns = None; faults = 0 } };

    fn receive(&mut self, buffer: &mut [u8]) -> Received {
        if self.made >= self.count {
            return Received::Gone;
        }
        if self.is_paced && self.sent.load(Ordering::SeqCst) < self.made {
            // Where a kernel would put the reader to sleep: so that what is measured is not its way to wake it.
            thread::yield_now();
            return Received::Retry;
        }
        let message = message(self.made);
        self.made = self.made.saturating_add(1);
        Received::Message(put(&message, buffer))
    }
}

impl Sink for Counted {
    ghost told = { λ s. record {
      frames = None;
      notes = None;
      tail = None;
      faults = s.faults;
      absences = 0;
      origin = record { bytes = None; faults = 0 };
    } };

    fn send(&mut self, _header: &[u8; 16], _payload: &[u8]) -> Sending {
        self.sent.fetch_add(1, Ordering::SeqCst);
        Sending::Sent
    }

    fn note(&mut self, _id: RequestId, _mark: u64) -> Noting {
        self.faults = self.faults.saturating_add(1);
        Noting::Failed
    }
}
