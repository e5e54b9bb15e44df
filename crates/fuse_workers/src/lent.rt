// What the threads of a run are lent. A thread gives back what it was lent as what it returns: that is how its caller learns
// that it is the same, and what became of it.
ghost use Rattle.std.specs.Prelude.{◌≡◌};

use crate::caller::Caller;
use crate::relay::Relay;
use crate::starter::Starter;
use fuse_loop::{Ending, Intake};
use fuse_wire::{Sink, Source};

/// The ends of a run, lent to whoever conducts it, what its threads are started by, the first passes of its lines, and the mark
/// of its end.
#[derive(Drop)]
pub(crate) struct LentEnds<'a, S: Source, K: Sink, T: Starter> {
    pub(crate) intake: &'a mut Intake<S>,
    pub(crate) relay: &'a mut Relay<K>,
    pub(crate) starter: T,
    pub(crate) caller: Caller,
    pub(crate) ending: Ending,
}

/// Ends two loans: what was lent is as the references that came back left it.
pub(crate) fn take_back<T, U>(first: &mut T, second: &mut U)
    ensures { (first.new ≡ first.old) × (second.new ≡ second.old) }
{}
