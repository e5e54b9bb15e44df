// What waits under one tag: a mark for its late frame, or a late frame for its mark.
ghost use Rattle.std.specs.Prelude.{◌≡◌, ◌==◌, if◌then◌else◌, true, false, None, Some, min, slice_get};
ghost use Rattle.fuse_wire.specs.Faults.{last_count};
ghost use Rattle.fuse_core.specs.Book.{Backs, Loses, Meets, frames_waiting, how_many, marks_waiting};

use std::alloc::Global;
use std::collections::VecDeque;

/// Marks that wait for late frames, or late frames that wait for marks. There are never both.
#[derive(Drop)]
pub(crate) enum Unmatched<F> {
    /// A mark, and how many others.
    Marks(u64),
    /// A frame, and those that came after it, in order.
    Frames(F, VecDeque<F>),
}

impl<F> Unmatched<F> {
    /// How many marks or frames wait.
    pub(crate) fn count(&self) -> u64
        ensures { result ≡ min (how_many (Some self.now)) last_count }
    {
        match self {
            Unmatched::Marks(others) => others.saturating_add(1),
            Unmatched::Frames(_, later) => (later.len() as u64).saturating_add(1),
        }
    }
}

/// A mark comes: the first frame goes. Gives what goes, what waits then, and whether that could be kept.
pub(crate) fn with_mark<F: Drop>(
    waiting: Option<Unmatched<F>>,
) -> (Option<F>, Option<Unmatched<F>>, bool)
    ensures goes { result.0 ≡ slice_get (frames_waiting waiting) 0 }
    ensures backed { Backs waiting 1 result.0 result.1 }
    ensures kept { result.2 ≡ true → Meets waiting 1 None result.0 result.1 }
    ensures refused { result.2 ≡ false → (result.0 ≡ None) × (frames_waiting result.1 ≡ frames_waiting waiting) }
    ensures lost { Loses waiting result.0 result.1 (if result.2 then 0 else 1) }
{
    match waiting {
        None => (None, Some(Unmatched::Marks(0)), true),
        Some(Unmatched::Marks(others)) => match others.checked_add(1) {
            Some(others) => (None, Some(Unmatched::Marks(others)), true),
            None => (None, Some(Unmatched::Marks(others)), false),
        },
        Some(Unmatched::Frames(first, mut later)) => match later.pop_front() {
            Some(next) => (Some(first), Some(Unmatched::Frames(next, later)), true),
            None => (Some(first), None, true),
        },
    }
}

/// A late frame comes: it goes where a mark waits. Gives what goes, what waits then, and whether that could be kept.
pub(crate) fn with_frame<F: Drop>(
    alloc: Global,
    waiting: Option<Unmatched<F>>,
    frame: F,
) -> (Option<F>, Option<Unmatched<F>>, bool)
    ensures goes { result.0 ≡ (if marks_waiting waiting == 0 then None else Some frame) }
    ensures backed { Backs waiting 0 result.0 result.1 }
    ensures kept { result.2 ≡ true → Meets waiting 0 (Some frame) result.0 result.1 }
    ensures refused { result.2 ≡ false → (result.0 ≡ None) × (frames_waiting result.1 ≡ frames_waiting waiting) }
    ensures lost { Loses waiting result.0 result.1 (if result.2 then 0 else 1) }
{
    match waiting {
        None => {
            let later = VecDeque::new(alloc);
            (None, Some(Unmatched::Frames(frame, later)), true)
        }
        Some(Unmatched::Marks(others)) => match others.checked_sub(1) {
            Some(others) => (Some(frame), Some(Unmatched::Marks(others)), true),
            None => (Some(frame), None, true),
        },
        Some(Unmatched::Frames(first, mut later)) => {
            let kept = later.push_back(frame).is_ok();
            (None, Some(Unmatched::Frames(first, later)), kept)
        }
    }
}
