// A work whose replies come later, the shelf that their tokens lie on, and who answers them off it.
ghost use Rattle.std.specs.Prelude.{true, refl};
ghost use Rattle.std.proofs.Common.{inl};
ghost use Rattle.fuse_reply.specs.Late.{IsFrameFor};
ghost use Rattle.fuse_workers_tests.specs.NowOrLater.{NowOrLater, NowOrLater-destroy};

use crate::devices::{Counter, await_count, pass_turns};
use crate::works::id_of;
use fuse_notify::Notifier;
use fuse_reply::{Door, LateRefusal, Later, NoDoor, Out, Replied, ReplyEmpty};
use fuse_workers::Work;
use std::alloc::{AllocFailed, AllocGlobal, Global};
use std::sync::atomic::{AtomicBool, AtomicU64, Ordering};
use std::sync::{Mutex, Wait};
use std::thread;

/// Of a generator by multiplication (Knuth's MMIX), whose higher bits look random.
const MULTIPLIER: u64 = 6_364_136_223_846_793_005;

/// The token of a reply that was put off.
type Token = Later<ReplyEmpty>;

/// The tokens that wait to be answered, and when one may be taken while the run goes on.
struct Shelf {
    tokens: Vec<Token>,
    /// How many have to lie here before the first is taken.
    least: usize,
    /// How many more may be taken.
    quota: u64,
}

impl Shelf {
    /// The token at this place, counted round. Once the run has ended any may be taken.
    fn take(&mut self, place: usize, is_over: bool) -> Option<Token> {
        let count = self.tokens.len();
        if count == 0 || (!is_over && (count < self.least || self.quota == 0)) {
            return None;
        }
        self.least = 0;
        self.quota = self.quota.saturating_sub(1);
        Some(self.tokens.swap_remove(place % count))
    }
}

/// What became of the replies that came later.
#[derive(Drop)]
struct Counts {
    sent: AtomicU64,
    full: Counter,
    closed: AtomicU64,
    /// The least of the numbers that the notes of the end knew.
    least: AtomicU64,
    /// The greatest of them.
    greatest: AtomicU64,
}

/// The same, once all were answered.
#[derive(Clone, Copy, Debug, PartialEq)]
pub(crate) struct Tally {
    /// How many were queued.
    pub(crate) sent: u64,
    /// How many came after the run's end.
    pub(crate) closed: u64,
    /// Whether each of these was told the number that was asked about.
    pub(crate) is_told: bool,
}

impl Counts {
    /// Sends the frame by its token, again while the line is full, which is counted. Where the run has ended both are
    /// retired, and this is the number that the note knows.
    fn settle<R: Wait>(&self, rt: &R, token: Later<()>, replied: Replied) -> Option<u64>
        requires { IsFrameFor token.id.0 replied }
    {
        match token.send(rt, replied) {
            Ok(_) => None,
            Err(LateRefusal::Full(token, replied, _)) => {
                self.full.fetch_add(1, Ordering::SeqCst);
                let note = token.send_or_retire(rt, replied)?;
                Some(note.taken())
            }
            Err(LateRefusal::Closed(token, replied, note)) => {
                token.retire(replied, &note);
                Some(note.taken())
            }
        }
    }

    /// Answers a request, whose reply was put off.
    fn spend<R: Wait>(&self, rt: &R, later: Token) {
        let (reply, token) = later.reply();
        match self.settle(rt, token, reply.ok()) {
            None => {
                self.sent.fetch_add(1, Ordering::SeqCst);
            }
            Some(taken) => {
                self.closed.fetch_add(1, Ordering::SeqCst);
                self.least.fetch_min(taken, Ordering::SeqCst);
                self.greatest.fetch_max(taken, Ordering::SeqCst);
            }
        }
    }

    /// Answers all of these.
    fn spend_all<R: Wait>(&self, rt: &R, mut tokens: Vec<Token>) {
        while let Some(later) = tokens.pop() {
            self.spend(rt, later);
        }
        tokens.destroy_empty();
    }

    /// The counts, with whether each note knew this number.
    fn told(&self, taken: u64) -> Tally {
        let closed = self.closed.load(Ordering::SeqCst);
        let least = self.least.load(Ordering::SeqCst);
        let greatest = self.greatest.load(Ordering::SeqCst);
        Tally {
            sent: self.sent.load(Ordering::SeqCst),
            closed,
            is_told: closed == 0 || (least == taken && greatest == taken),
        }
    }
}

/// Which requests are not put off, and when tokens are taken off the shelf.
#[derive(Clone, Copy)]
pub(crate) struct Plan {
    /// The id of the request that is answered at once.
    pub(crate) prompt: u64,
    /// The id of the request that is answered once so many late frames were queued.
    pub(crate) held: u64,
    /// How many that are.
    pub(crate) awaited: u64,
    /// How many tokens have to lie on the shelf before the first is taken.
    pub(crate) least: usize,
    /// How many may be taken while the run goes on.
    pub(crate) quota: u64,
    /// For how many turns each is held before it is answered.
    pub(crate) delay: u64,
}

/// Puts each reply off, but two.
pub(crate) struct Deferring {
    plan: Plan,
    shelf: Mutex<Shelf>,
    counts: Counts,
    is_over: AtomicBool,
}

impl Deferring {
    /// By this plan. How often the line was full is counted in what is shared here.
    pub(crate) fn new(alloc: Global, plan: Plan, full: Counter) -> Deferring {
        Deferring {
            plan,
            shelf: Mutex::new(Shelf {
                tokens: Vec::new(alloc),
                least: plan.least,
                quota: plan.quota,
            }),
            counts: Counts {
                sent: AtomicU64::new(0),
                full,
                closed: AtomicU64::new(0),
                least: AtomicU64::new(u64::MAX),
                greatest: AtomicU64::new(0),
            },
            is_over: AtomicBool::new(false),
        }
    }

    /// Puts the token on the shelf. Where there is no memory for it, it is answered at once.
    fn shelve<R: Wait>(&self, rt: &R, later: Token) {
        let put = self.shelf.lock(rt).tokens.push(later);
        if let Err(AllocFailed { value: later }) = put {
            self.counts.spend(rt, later);
        }
    }

    /// Whether the request of this id is not put off. Where it is the one that is held, that is known once the frames
    /// that are awaited were queued; where they are not in time, it is put off too.
    fn is_prompt(&self, id: u64) -> bool {
        if id == self.plan.held {
            return await_count(&self.counts.sent, self.plan.awaited);
        }
        id == self.plan.prompt
    }

    /// Answers tokens in an order that the seed gives, until none is left once the run has ended.
    pub(crate) fn answer_later<R: Wait>(&self, rt: &R, seed: u64) {
        let mut state = seed;
        for _ in rt.forever() {
            let is_over = self.is_over.load(Ordering::SeqCst);
            state = state.wrapping_mul(MULTIPLIER).wrapping_add(1);
            let token = self.shelf.lock(rt).take((state >> 32) as usize, is_over);
            match token {
                Some(later) => {
                    pass_turns(self.plan.delay);
                    self.counts.spend(rt, later);
                }
                None if is_over => return,
                None => thread::yield_now(),
            }
        }
        unreachable!()
    }

    /// The run has ended.
    pub(crate) fn end(&self) {
        self.is_over.store(true, Ordering::SeqCst);
    }

    /// Answers the tokens that are left, and tells what became of all. The notes are asked about this number.
    pub(crate) fn finish<R: Wait>(self, rt: &R, taken: u64) -> Tally {
        let Deferring {
            plan: _,
            shelf,
            counts,
            is_over: _,
        } = self;
        let Shelf {
            tokens,
            least: _,
            quota: _,
        } = shelf.into_inner();
        counts.spend_all(rt, tokens);
        counts.told(taken)
    }
}

impl Work for Deferring {
    ghost owed = { λ work. NowOrLater };

    const DEFERS: bool = true;

    ghost DEFERS = { true };

    fn answer<R: Wait + AllocGlobal>(
        &self,
        rt: &R,
        _notifier: &mut Notifier,
        door: Result<Door, NoDoor>,
        _seq: u64,
        message: &[u8],
    ) -> Out {
        let id = id_of(message);
        let reply = ReplyEmpty::new(rt.alloc(), id);
        if self.is_prompt(id.0) {
            return reply.ok().into_out();
        }
        match reply.with_door(door).defer() {
            Ok((replied, later)) => {
                self.shelve(rt, later);
                replied.into_out()
            }
            Err((reply, _none)) => reply.ok().into_out(),
        }
    }

    ghost owed_to_destroy = { λ work seq m is. inl refl };

    ghost alone_to_destroy = { λ work. NowOrLater-destroy };
}
