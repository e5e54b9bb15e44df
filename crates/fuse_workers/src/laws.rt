//! Laws of the steps, of the marks and late frames that a sender keeps, and of how many there are. The functions here do
//! nothing: their contracts are the laws.
ghost use Rattle.std.specs.Prelude.{◌≡◌};
ghost use Rattle.fuse_core.specs.Owing.{SendsOwed};

use crate::MOST_WORKERS;
pub use fuse_core::book_laws::{
    each_late_frame_is_sent_or_has_no_mark, each_late_frame_that_is_sent_came,
    late_frames_go_to_different_marks, no_frame_is_held_with_an_unused_mark,
};
pub use fuse_core::laws::a_line_has_64_places;
use fuse_loop::Work;

/// From the state in which nothing has happened, events whose answers are owed lead only to states in which what was
/// sent is owed to different messages, and so are the marks of replies that come later.
pub fn what_is_sent_is_owed<W: Work>()
    ensures { (work : W) → SendsOwed (W.owed work) }
{}

/// At most 64 workers are started.
pub fn at_most_64_workers()
    ensures { MOST_WORKERS ≡ 64 }
{}
