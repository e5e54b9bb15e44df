// Which marks late frames go to.
ghost use Rattle.std.specs.Prelude.{◌≡◌, ◌<◌, ◌∷◌, [], MatchOption, Some, length, map, remove, slice_get};
ghost use Rattle.fuse_reply.specs.Late.{LateSeen};
ghost use Rattle.fuse_core.specs.Marks.{is_unused as unused, late_tag, let_go, still_held, tag_of as of_mark};
ghost use Rattle.fuse_core.specs.AreMatched.{same, times};

use crate::Mark;
use crate::book::Key;
use fuse_reply::LateFrame;

/// The tag of a mark.
pub(crate) fn tag_of(mark: Mark) -> Key
    ensures { result ≡ of_mark mark }
{
    (mark.seq, mark.id.0)
}

/// The tag of a late frame.
pub(crate) fn tag_of_late(late: &LateFrame) -> Key
    ensures { result ≡ late_tag late.now }
{
    (late.seq(), late.id().0)
}

/// Whether the two tags are one.
fn is_same(a: Key, b: Key) -> bool
    ensures { result ≡ same a b }
{
    a.0 == b.0 && a.1 == b.1
}

/// How many of the marks have this tag.
fn count_marks(tag: Key, marks: &[Mark]) -> usize
    ensures { result ≡ times tag (map of_mark marks.now) }
{
    let mut count: usize = 0;
    for mark in marks {
        if is_same(tag_of(*mark), tag) {
            count += 1;
        }
    }
    count
}

/// How many of the late frames have this tag.
fn count_lates(tag: Key, lates: &[LateFrame]) -> usize
    ensures { result ≡ times tag (map late_tag lates.now) }
{
    let mut count: usize = 0;
    for late in lates {
        if is_same(tag_of_late(late), tag) {
            count += 1;
        }
    }
    count
}

/// Whether more marks have this tag than late frames that were sent.
pub(crate) fn is_unused(tag: Key, marks: &[Mark], sent: &[LateFrame]) -> bool
    ensures { result ≡ unused tag marks.now sent.now }
{
    count_lates(tag, sent) < count_marks(tag, marks)
}

/// The place of the first of the held frames that has this tag.
pub(crate) fn first_held(tag: Key, held: &[LateFrame]) -> Option<usize>
    ensures go { MatchOption result
        (let_go tag held.now ≡ [])
        (λ place. (late : LateSeen) × (slice_get held.now place ≡ Some late) × (let_go tag held.now ≡ late ∷ [])) }
    ensures stay { MatchOption result
        (still_held tag held.now ≡ held.now)
        (λ place. (place < length held.now) × (still_held tag held.now ≡ remove held.now place)) }
{
    let mut place: usize = 0;
    for late in held {
        if is_same(tag_of_late(late), tag) {
            return Some(place);
        }
        place += 1;
    }
    None
}
