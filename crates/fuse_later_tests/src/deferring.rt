// A filesystem for tests, whose lookups are answered later, and the shelf that their tokens lie on.
ghost use Rattle.std.specs.Prelude.{true};
ghost use Rattle.fuse_later_tests.specs.Deferring.{ComesOfLookup};

use fuse_config::KernelConfig;
use fuse_reply::{Later, NoDoor, Replied, ReplyEntry};
use fuse_request::Request;
use fuse_testing::{Argument, Probe};
use fuse_wire::{Errno, INodeNo};
use std::alloc::{AllocError, AllocFailed, Global};
use std::sync::atomic::{AtomicBool, AtomicU64, Ordering};
use std::sync::{Arc, Mutex, Wait};
use std::thread;

/// How often is looked, at most, whether the late frames that are awaited were queued.
const MOST_TURNS: u64 = 10_000_000;

/// Of a generator by multiplication (Knuth's MMIX), whose higher bits look random.
const MULTIPLIER: u64 = 6_364_136_223_846_793_005;

/// The name whose lookup is held until as many late frames were queued as are awaited.
pub(crate) const HELD: u8 = b'h';

/// The name whose lookup is put off, and answered once the session is over.
pub(crate) const LAST: u8 = b'l';

/// A name whose lookup is put off, and answered while the session runs.
pub(crate) const SOON: u8 = b's';

type Token = Later<ReplyEntry>;

/// Counts of what became of the lookups that were put off.
#[derive(Drop)]
struct Counts {
    sent: AtomicU64,
    shut: AtomicU64,
    closed: AtomicU64,
    taken: AtomicU64,
}

/// The same, once all were answered.
#[derive(Clone, Copy, Debug, PartialEq)]
pub(crate) struct Tally {
    /// How many frames were queued.
    pub(crate) sent: u64,
    /// How many lookups could not be put off, since no reply of the session may come later.
    pub(crate) shut: u64,
    /// How many frames came after the run's end.
    pub(crate) closed: u64,
    /// The sum of the numbers that their notes knew.
    pub(crate) taken: u64,
}

impl Counts {
    /// Answers a lookup that was put off: there is no such name.
    fn answer<R: Wait>(&self, rt: &R, later: Token) {
        let (reply, token) = later.reply();
        match token.send_or_retire(rt, reply.error(Errno::ENOENT)) {
            None => {
                self.sent.fetch_add(1, Ordering::SeqCst);
            }
            Some(note) => {
                self.closed.fetch_add(1, Ordering::SeqCst);
                self.taken.fetch_add(note.taken(), Ordering::SeqCst);
            }
        }
    }

    /// Answers all of these.
    fn answer_all<R: Wait>(&self, rt: &R, mut tokens: Vec<Token>) {
        while let Some(later) = tokens.pop() {
            self.answer(rt, later);
        }
        tokens.destroy_empty();
    }
}

/// Where the tokens of lookups lie that were put off, and when they are answered.
pub(crate) struct Shelf {
    /// How many late frames have to be queued before a lookup that is held is answered.
    awaited: u64,
    /// How many lookups have to be held before the first late frame is queued.
    least_held: u64,
    held: AtomicU64,
    is_over: AtomicBool,
    soon: Mutex<Vec<Token>>,
    last: Mutex<Vec<Token>>,
    counts: Counts,
}

impl Shelf {
    /// No token lies there.
    fn new(alloc: Global, awaited: u64, least_held: u64) -> Shelf {
        Shelf {
            awaited,
            least_held,
            held: AtomicU64::new(0),
            is_over: AtomicBool::new(false),
            soon: Mutex::new(Vec::new(alloc)),
            last: Mutex::new(Vec::new(alloc)),
            counts: Counts {
                sent: AtomicU64::new(0),
                shut: AtomicU64::new(0),
                closed: AtomicU64::new(0),
                taken: AtomicU64::new(0),
            },
        }
    }

    /// Answers lookups that were put off, in an order that the seed gives, until the session is over.
    pub(crate) fn answer_later<R: Wait>(&self, rt: &R, seed: u64) {
        let mut state = seed;
        for _ in rt.forever() {
            if self.is_over.load(Ordering::SeqCst) {
                return;
            }
            state = state.wrapping_mul(MULTIPLIER).wrapping_add(1);
            match self.take(rt, (state >> 32) as usize) {
                Some(later) => self.counts.answer(rt, later),
                None => thread::yield_now(),
            }
        }
        unreachable!()
    }

    /// A token that may be answered while the session runs: of those that lie there, the one at this place, counted round.
    fn take<R: Wait>(&self, rt: &R, place: usize) -> Option<Token> {
        if self.held.load(Ordering::SeqCst) < self.least_held {
            return None;
        }
        let mut soon = self.soon.lock(rt);
        let count = soon.len();
        if count == 0 {
            return None;
        }
        Some(soon.swap_remove(place % count))
    }

    /// The session is over.
    pub(crate) fn end(&self) {
        self.is_over.store(true, Ordering::SeqCst);
    }

    /// Answers the lookups that are left, and tells what became of all.
    fn finish<R: Wait>(self, rt: &R) -> Tally {
        let Shelf {
            awaited: _,
            least_held: _,
            held: _,
            is_over: _,
            soon,
            last,
            counts,
        } = self;
        counts.answer_all(rt, soon.into_inner());
        counts.answer_all(rt, last.into_inner());
        Tally {
            sent: counts.sent.load(Ordering::SeqCst),
            shut: counts.shut.load(Ordering::SeqCst),
            closed: counts.closed.load(Ordering::SeqCst),
            taken: counts.taken.load(Ordering::SeqCst),
        }
    }

    /// Whether the late frames that are awaited were queued in time.
    fn awaits_frames(&self) -> bool {
        self.held.fetch_add(1, Ordering::SeqCst);
        for _turn in 0..MOST_TURNS {
            if self.counts.sent.load(Ordering::SeqCst) >= self.awaited {
                return true;
            }
            thread::yield_now();
        }
        false
    }

    /// Puts the token where lookups of this name wait. Where there is no memory for it, it is answered at once.
    fn put<R: Wait>(&self, rt: &R, name: &[u8], later: Token) {
        let tokens = if name == [LAST].as_slice() {
            &self.last
        } else {
            &self.soon
        };
        let put = tokens.lock(rt).push(later);
        if let Err(AllocFailed { value: later }) = put {
            self.counts.answer(rt, later);
        }
    }

    /// Puts the reply off, where it may come later.
    fn put_off<R: Wait>(&self, rt: &R, name: &[u8], reply: ReplyEntry) -> Replied
        ensures { ComesOfLookup reply.id reply.door result }
    {
        match reply.defer() {
            Ok((replied, later)) => {
                self.put(rt, name, later);
                replied
            }
            Err((reply, NoDoor::Shut)) => {
                self.counts.shut.fetch_add(1, Ordering::SeqCst);
                reply.error(Errno::ENOENT)
            }
            Err((reply, NoDoor::Starved)) => reply.error(Errno::EIO),
        }
    }

    /// What comes of a lookup of this name: the late frames that are awaited, or else EIO; or a reply that is put off.
    fn look_up<R: Wait>(&self, rt: &R, name: &[u8], reply: ReplyEntry) -> Replied
        ensures { ComesOfLookup reply.id reply.door result }
    {
        if name == [HELD].as_slice() {
            if self.awaits_frames() {
                reply.error(Errno::ENOENT)
            } else {
                reply.error(Errno::EIO)
            }
        } else {
            self.put_off(rt, name, reply)
        }
    }
}

/// A shelf where so many late frames are awaited, the first of which waits until so many lookups are held. It is shared, so
/// that a thread of the test's own can answer.
pub(crate) fn shared_shelf<R: Wait>(
    rt: &R,
    alloc: Global,
    awaited: u64,
    least_held: u64,
) -> Result<Arc<Shelf, Global>, AllocError> {
    match Arc::new(alloc, Shelf::new(alloc, awaited, least_held)) {
        Ok(shelf) => Ok(shelf),
        Err(AllocFailed { value: shelf }) => {
            let _ = shelf.finish(rt);
            Err(AllocError)
        }
    }
}

/// Lets go of a share of the shelf. Where it was the last, the lookups that are left are answered, and this is what became
/// of all.
pub(crate) fn close<R: Wait>(rt: &R, shelf: Arc<Shelf, Global>) -> Option<Tally> {
    let shelf = Arc::into_inner(shelf)?;
    Some(shelf.finish(rt))
}

/// A filesystem that knows no name, and says so later.
pub(crate) struct Deferring<R> {
    pub(crate) rt: R,
    pub(crate) shelf: Arc<Shelf, Global>,
}

impl<R: Wait> Probe for Deferring<R> {
    ghost own = { λ call answer. Unit {0} };

    const DEFERS: bool = true;

    ghost DEFERS = { true };

    fn started(&mut self, _: &Request, _: &mut KernelConfig) -> Result<(), Errno> {
        Ok(())
    }

    fn called(&self, _: &Request, _: &'static str, _: &[Argument], _: &[&[u8]]) {}

    fn lookup(&self, _: &Request, _: INodeNo, name: &[u8], reply: ReplyEntry) -> Replied {
        self.shelf.look_up(&self.rt, name, reply)
    }

    fn destroyed(&mut self) {}

    ghost allows_default = { λ call. tt };
}
