//! Where a thread sleeps until a line has moved. No clause speaks of it.
use std::hint;
use std::sync::Wait;
use std::sync::atomic::{AtomicU64, Ordering};

// How often a thread tries again before it sleeps. It never yields between: on a busy machine it would be away for whole
// slices of others, and count as awake, so that nobody is woken for what comes.
const TRIES: u32 = 8;

/// How many threads are about to sleep, and how often those were woken.
#[derive(Drop)]
pub(crate) struct Gate {
    waiting: AtomicU64,
    woken: AtomicU64,
}

impl Gate {
    pub(crate) fn new() -> Gate {
        Gate {
            waiting: AtomicU64::new(0),
            woken: AtomicU64::new(0),
        }
    }

    /// Wakes one that sleeps, and lets nobody fall asleep who has not looked since. All that wait here wait for the same,
    /// and each tries to take it once it is woken. Where nobody waits, it is one load.
    pub(crate) fn wake_one(&self) {
        if self.waiting.load(Ordering::SeqCst) > 0 {
            self.woken.fetch_add(1, Ordering::SeqCst);
            self.woken.wake_one();
        }
    }

    /// Wakes all that wait. Where nobody does, it is one load.
    pub(crate) fn wake_all(&self) {
        if self.waiting.load(Ordering::SeqCst) > 0 {
            self.woken.fetch_add(1, Ordering::SeqCst);
            self.woken.wake_all();
        }
    }

    /// A wait that has yet to begin.
    pub(crate) fn wait(&self) -> Waiting<'_> {
        Waiting {
            gate: self,
            tries: 0,
            seen: None,
        }
    }

    /// Whether a thread waits that the next move wakes.
    #[cfg(test)]
    pub(crate) fn is_waited_at(&self) -> bool {
        self.waiting.load(Ordering::SeqCst) > 0
    }

    // From here on this thread sleeps at no count but the one that it gets: what it looks at after this, it cannot miss.
    fn enter(&self) -> u64 {
        self.waiting.fetch_add(1, Ordering::SeqCst);
        self.woken.load(Ordering::SeqCst)
    }

    fn leave(&self) {
        self.waiting.fetch_sub(1, Ordering::SeqCst);
    }
}

/// A thread that waits for a line. After each try that came to nothing it rests.
///
/// A rest is a pause of the processor at first. Then one only makes sure that this thread does not sleep after a later
/// move, and returns; the one after it sleeps. So whoever looks between two rests at all that it waits for, at the line
/// and at a flag of its own, misses nothing. Whoever is woken tries to take what there is before it lets this go: nobody
/// else was woken for it.
pub(crate) struct Waiting<'a> {
    gate: &'a Gate,
    tries: u32,
    seen: Option<u64>,
}

impl Waiting<'_> {
    /// Rests after a try that came to nothing. It may return though nothing has moved.
    pub(crate) fn rest<R: Wait>(&mut self, rt: &R) {
        if self.tries < TRIES {
            self.tries += 1;
            hint::spin_loop();
            return;
        }
        match self.seen {
            None => self.seen = Some(self.gate.enter()),
            Some(seen) => {
                self.gate.woken.park(rt, (seen % (1 << 32)) as u32);
                self.gate.leave();
                self.seen = None;
                self.tries = 0;
            }
        }
    }
}

impl Drop for Waiting<'_> {
    fn drop(self) {
        let Waiting {
            gate,
            tries: _,
            seen,
        } = self;
        if seen.is_some() {
            gate.leave();
        }
    }
}

#[cfg(test)]
impl Gate {
    /// How many threads are about to sleep, and how often those were woken.
    pub(crate) fn counts(&self) -> (u64, u64) {
        (
            self.waiting.load(Ordering::SeqCst),
            self.woken.load(Ordering::SeqCst),
        )
    }

    /// From here on it is as if those that wait had been woken so often.
    pub(crate) fn set_woken(&self, woken: u64) {
        self.woken.store(woken, Ordering::SeqCst);
    }

    /// Rests until a move wakes this thread, and tells how often. It is 0 where a hundred rests are too few.
    pub(crate) fn rests_until_counted<R: Wait>(&self, rt: &R, waiting: &mut Waiting<'_>) -> u32 {
        for rests in 1..=100 {
            waiting.rest(rt);
            if self.is_waited_at() {
                return rests;
            }
        }
        0
    }
}

#[cfg(test)]
mod tests {
    use super::*;
    use crate::tests::expect_same;
    use std::test::*;

    #[test]
    fn counts_those_that_wait_and_wakes_them(rt: HostRuntime) {
        let gate = Gate::new();
        gate.wake_one();
        gate.wake_all();
        let nobody = gate.counts();
        let mut waiting = gate.wait();
        let rests = gate.rests_until_counted(&rt, &mut waiting);
        gate.wake_one();
        let woken = gate.counts();
        waiting.rest(&rt);
        let rested = gate.counts();
        let more_rests = gate.rests_until_counted(&rt, &mut waiting);
        let again = gate.counts();
        drop(waiting);
        let gone = gate.counts();
        drop(gate.wait());
        let never = gate.counts();
        expect_same(&rt, &[rests, more_rests], &[TRIES + 1; 2]);
        let found = [nobody, woken, rested, again, gone, never];
        expect_same(
            &rt,
            &found,
            &[(0, 0), (1, 1), (0, 1), (1, 1), (0, 1), (0, 1)],
        );
    }
}
