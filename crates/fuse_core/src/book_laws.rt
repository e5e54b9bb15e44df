//! Laws of the marks and late frames that a sender keeps. The functions here do nothing: their contracts are the laws.
ghost use Rattle.std.specs.Prelude.{◌≡◌, List, []};
ghost use Rattle.std.specs.List.{All, Contains};
ghost use Rattle.fuse_core.specs.Book.{EachSent, IsBookOf, frames_waiting, tags_of, waiting};
ghost use Rattle.fuse_core.specs.AreMatched.{HasUnused, AreMatched, Tag};
ghost use Rattle.fuse_core.specs.declared.book.Book.{Book as BookOf};

/// The late frames that were sent go to different marks, each with its number and id. This holds whatever was lost.
pub fn late_frames_go_to_different_marks<F: Drop>()
    ensures { (book : BookOf F) (marks : List Tag) (came sent : List (Tag × F)) → IsBookOf book marks came sent →
        AreMatched marks (tags_of sent) }
{}

/// Where all could be kept, each late frame that came was sent, or no mark of its number and id is unused.
pub fn each_late_frame_is_sent_or_has_no_mark<F: Drop>()
    ensures { (book : BookOf F) (marks : List Tag) (came sent : List (Tag × F)) → IsBookOf book marks came sent →
        book.unrecorded ≡ 0 → EachSent marks came sent }
{}

/// Where all could be kept, no frame is held of whose number and id a mark is unused.
pub fn no_frame_is_held_with_an_unused_mark<F: Drop>()
    ensures { (book : BookOf F) (marks : List Tag) (came sent : List (Tag × F)) → IsBookOf book marks came sent →
        book.unrecorded ≡ 0 → (tag : Tag) → HasUnused marks (tags_of sent) tag →
        frames_waiting (waiting book tag) ≡ [] }
{}

/// Where all could be kept, each late frame that was sent had come, for that message.
pub fn each_late_frame_that_is_sent_came<F: Drop>()
    ensures { (book : BookOf F) (marks : List Tag) (came sent : List (Tag × F)) → IsBookOf book marks came sent →
        book.unrecorded ≡ 0 → All (Contains came) sent }
{}
