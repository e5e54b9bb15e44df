//! Laws of the definitions. Each function here does nothing: its contract is the law.
ghost use Rattle.std.specs.Prelude.{◌≡◌, ◌<◌, ◌≤◌, ◌≤ℤ◌, ◌%◌, ◌^◌, ◌++◌, ◌∷◌};
ghost use Rattle.std.specs.Prelude.{ℕ, ℤ, List, [], true, false, length, map, pos, neg_ℤ};
ghost use Rattle.std.specs.List.{AllByRecursion, concat};
ghost use Rattle.fuse_wire.specs.Frames.{frame_length, frames, IsFrame};
ghost use Rattle.fuse_wire.specs.Numbered.{SaysSame};
ghost use Rattle.fuse_reply.specs.Sizes.{max_payload};
ghost use Rattle.fuse_reply.specs.Answer.{Answer, IsAnswer, IsDirEntry, IsPlusEntry};
ghost use Rattle.fuse_reply.specs.Answer.Answer.{Error};
ghost use Rattle.fuse_reply.specs.Frame.{frame, frame_of, frame_status, is_set_aside};
ghost use Rattle.fuse_reply.specs.Frame.{answer_status, reply, reply_frames, IsReply};
ghost use Rattle.fuse_reply.specs.Listing.{DirEntry, PlusEntry, EachFits};
ghost use Rattle.fuse_reply.specs.Listing.{dirent, direntplus, listing, plus_listing};
ghost use Rattle.fuse_reply.specs.Notice.{Notice, IsNotice, notice, notify_code};
ghost use Rattle.fuse_reply.specs.SetOnceLaws.{OneNumber, SetNumber, TwoCases};

use crate::{Out, OutEnd};

/// No reply is set aside, whatever its request's id is: its frame's status is the answer's, which is at most 0.
pub fn replies_are_not_set_aside()
    ensures kept { (id : ℕ) (answer : Answer) → IsAnswer answer → is_set_aside (reply id answer) ≡ false }
    ensures status { (id : ℕ) (answer : Answer) → IsAnswer answer
        → frame_status (reply id answer) ≡ answer_status answer }
    ensures sign { (answer : Answer) → answer_status answer ≤ℤ pos 0 }
{}

/// What goes out as a frame is a reply. So it is not set aside, and it is one whole frame.
pub fn frames_that_go_out_are_replies(out: &Out)
    ensures reply { (bytes : List ℕ) → out.now ≡ Out.Frame bytes → IsReply bytes }
    ensures kept { (bytes : List ℕ) → out.now ≡ Out.Frame bytes → is_set_aside bytes ≡ false }
    ensures whole { (bytes : List ℕ) → out.now ≡ Out.Frame bytes → IsFrame bytes }
{
    if let Out::Frame(frame) = out {
        frame.is_reply();
    }
}

/// A notice is set aside: its frame's status is its code, which is at least 1. The frame of one in range begins with
/// its own length.
pub fn notices_are_set_aside()
    ensures aside { (n : Notice) → is_set_aside (notice n) ≡ true }
    ensures status { (n : Notice) → frame_status (notice n) ≡ pos (notify_code n) }
    ensures sign { (n : Notice) → pos 1 ≤ℤ pos (notify_code n) }
    ensures counted { (n : Notice) → IsNotice n → frame_length (notice n) ≡ length (notice n) }
{}

/// The status of an error's frame is the error's number below zero.
pub fn an_error_is_sent_below_zero()
    ensures { (id errno : ℕ) → 0 < errno → errno < 2 ^ 31 → frame_status (reply id (Error errno)) ≡ neg_ℤ (pos errno) }
{}

/// Each frame begins with its own length. So it is the first frame of whatever stream it stands in front of, and frames
/// on a stream, one after the other, split into just those. This holds of replies too.
pub fn frames_count_themselves()
    ensures counted { (id : ℕ) (status : ℤ) (payload : List ℕ) → length payload ≤ max_payload
        → frame_length (frame id status payload) ≡ length (frame id status payload) }
    ensures first { (id : ℕ) (status : ℤ) (payload after : List ℕ) → length payload ≤ max_payload
        → frames (frame id status payload ++ after) ≡ frame id status payload ∷ frames after }
    ensures split { (parts : List (ℕ × ℤ × List ℕ)) → AllByRecursion (λ part. length part.2 ≤ max_payload) parts
        → frames (concat (map frame_of parts)) ≡ map frame_of parts }
    ensures replies { (answers : List (ℕ × Answer)) → AllByRecursion (λ (id, answer). IsAnswer answer) answers
        → frames (concat (reply_frames answers)) ≡ reply_frames answers }
{}

/// Entries of a directory are a multiple of 8 bytes long, and at most the size where each fits behind those before it.
/// One more puts its bytes behind the others'. No other entries have the same bytes.
pub fn listings_give_their_entries_back()
    ensures eighths { (entries : List DirEntry) → length (listing entries) % 8 ≡ 0 }
    ensures within { (size : ℕ) (entries : List DirEntry) → EachFits dirent size 0 entries
        → length (listing entries) ≤ size }
    ensures gains { (entries : List DirEntry) (e : DirEntry)
        → listing (entries ++ e ∷ []) ≡ listing entries ++ dirent e }
    ensures back { (entries others : List DirEntry) → AllByRecursion IsDirEntry entries
        → AllByRecursion IsDirEntry others → listing entries ≡ listing others → entries ≡ others }
{}

/// The same of entries with what a lookup answers, but that no others have the same bytes: these split in one way into
/// the bytes of each, of which the attributes keep no time of creation and no flags.
pub fn plus_listings_split_in_one_way()
    ensures eighths { (entries : List PlusEntry) → length (plus_listing entries) % 8 ≡ 0 }
    ensures within { (size : ℕ) (entries : List PlusEntry) → EachFits direntplus size 0 entries
        → length (plus_listing entries) ≤ size }
    ensures gains { (entries : List PlusEntry) (e : PlusEntry)
        → plus_listing (entries ++ e ∷ []) ≡ plus_listing entries ++ direntplus e }
    ensures split { (entries others : List PlusEntry) → AllByRecursion IsPlusEntry entries
        → AllByRecursion IsPlusEntry others → plus_listing entries ≡ plus_listing others
        → map direntplus entries ≡ map direntplus others }
{}

/// What became of a message is equal where it is the same.
pub fn equal_where_they_are_the_same()
    ensures ends { SaysSame ⟦<OutEnd as PartialEq>⟧.eq }
{}

/// Two notes of one mark know one number.
pub fn notes_of_a_mark_know_one_number()
    ensures { OneNumber }
{}

/// A note knows the number that the Seal of its mark has set.
pub fn notes_know_what_the_seal_set()
    ensures { SetNumber }
{}

/// A mark is not set, and then nobody has read a number; or it is set to one, and then nobody has read another.
pub fn a_mark_is_set_or_not()
    ensures { TwoCases }
{}
