// The marks and late frames that whoever sends keeps.
ghost use Rattle.std.specs.Prelude.{◌≡◌, ◌≢◌, ◌==◌, ◌≤◌, ◌⊎◌, ◌+◌, ◌-◌, ◌++◌, List, [], ◌∷◌, min, slice_get};
ghost use Rattle.std.specs.Prelude.{if◌then◌else◌, Bool, true, None, Some};
ghost use Rattle.std.specs.HashMap.{get};
ghost use Rattle.std.specs.Map.{update};
ghost use Rattle.std.specs.Option.{IfSome};
ghost use Rattle.fuse_wire.specs.Faults.{counted, last_count};
ghost use Rattle.fuse_core.specs.Book.{Counts, EachWaiting, IsBookOf};
ghost use Rattle.fuse_core.specs.Book.{frames_waiting, how_many, marks_waiting, tagged, waiting};
ghost use Rattle.fuse_core.specs.AreMatched.{Tag, same};

use crate::unmatched::{Unmatched, with_frame, with_mark};
use fuse_wire::RequestId;
use std::alloc::Global;
use std::collections::HashMap;

/// The number of a message, and the id of its request.
pub(crate) type Key = (u64, u64);

/// What waits, by what it waits for.
type WaitingByKey<F> = HashMap<Key, Unmatched<F>>;

/// Keeps a mark for each reply that comes later, and each late frame that comes before its mark. Each mark lets one
/// late frame of its number and id go, the first that came.
#[derive(Drop)]
pub struct Book<F: Drop> {
    waiting: WaitingByKey<F>,
    alloc: Global,
    unrecorded: u64,
}

impl<F: Drop> Book<F> {
    /// Nothing has come yet. This takes no memory.
    pub fn new(alloc: Global) -> Book<F>
        ensures book { IsBookOf result [] [] [] }
        ensures unrecorded { result.unrecorded ≡ 0 }
        ensures own { (test : Tag → F → Bool) → EachWaiting test result }
    {
        Book {
            waiting: HashMap::new(alloc),
            alloc,
            unrecorded: 0,
        }
    }

    /// A mark comes: the reply to the message of this number and id comes later. Gives the frame that is to be sent.
    pub fn mark(&mut self, seq: u64, id: RequestId) -> Option<F>
        ensures goes { result ≡ slice_get (frames_waiting (waiting self.old (seq, id.0))) 0 }
        ensures keeps { (marks : List Tag) (came sent : List (Tag × F)) → IsBookOf self.old marks came sent →
            IsBookOf self.new (marks ++ (seq, id.0) ∷ []) came (sent ++ tagged (seq, id.0) result) }
        ensures own { (test : Tag → F → Bool) → EachWaiting test self.old →
            EachWaiting test self.new × IfSome result (λ f. test (seq, id.0) f ≡ true) }
        ensures counted { Counts self.old self.new (seq, id.0) result }
        ensures others { (k : Tag) → k ≢ (seq, id.0) → waiting self.new k ≡ waiting self.old k }
    {
        let tag = (seq, id.0);
        let (go, left, kept) = with_mark(self.waiting.remove(&tag));
        self.put(tag, left, kept);
        go
    }

    /// A late frame comes for the message of this number and id. Gives the frame that is to be sent.
    pub fn late(&mut self, seq: u64, id: RequestId, frame: F) -> Option<F>
        ensures goes { result ≡ (if marks_waiting (waiting self.old (seq, id.0)) == 0 then None else Some frame) }
        ensures keeps { (marks : List Tag) (came sent : List (Tag × F)) → IsBookOf self.old marks came sent →
            IsBookOf self.new marks (came ++ ((seq, id.0), frame) ∷ []) (sent ++ tagged (seq, id.0) result) }
        ensures own { (test : Tag → F → Bool) → test (seq, id.0) frame ≡ true → EachWaiting test self.old →
            EachWaiting test self.new × IfSome result (λ f. test (seq, id.0) f ≡ true) }
        ensures counted { Counts self.old self.new (seq, id.0) result }
        ensures others { (k : Tag) → k ≢ (seq, id.0) → waiting self.new k ≡ waiting self.old k }
    {
        let tag = (seq, id.0);
        let (go, left, kept) = with_frame(self.alloc, self.waiting.remove(&tag), frame);
        self.put(tag, left, kept);
        go
    }

    /// How many marks and late frames could not be kept, for want of memory. It stays at its last value.
    pub fn unrecorded(&self) -> u64
        ensures { result ≡ self.now.unrecorded }
    {
        self.unrecorded
    }

    /// Puts back what waits under a tag under which nothing waits now, and counts what could not be kept.
    fn put(&mut self, tag: Key, left: Option<Unmatched<F>>, kept: bool)
        requires { waiting self.old tag ≡ None }
        ensures backed { (k : Tag) → marks_waiting (waiting self.new k) ≤
            marks_waiting (update same (waiting self.old) tag left k) }
        ensures left { (k : Tag) → (waiting self.new k ≡ update same (waiting self.old) tag left k) ⊎
            (waiting self.new k ≡ None) }
        ensures kept { self.new.unrecorded ≡ 0 → (kept ≡ true) × (self.old.unrecorded ≡ 0) ×
            ((k : Tag) → waiting self.new k ≡ update same (waiting self.old) tag left k) }
        ensures counted { self.new.unrecorded ≡ counted self.old.unrecorded
            ((if kept then 0 else 1) + (how_many left - how_many (waiting self.new tag))) }
        ensures others { (k : Tag) → k ≢ tag → waiting self.new k ≡ waiting self.old k }
    {
        let refused = keep(&mut self.waiting, tag, left);
        let lost = u64::from(!kept).saturating_add(refused);
        self.unrecorded = self.unrecorded.saturating_add(lost);
    }
}

/// Puts it under the tag, and gives how many marks or frames found no memory.
fn keep<F: Drop>(waiting: &mut WaitingByKey<F>, tag: Key, left: Option<Unmatched<F>>) -> u64
    requires { get same waiting.old tag ≡ None }
    ensures backed { (k : Tag) → marks_waiting (get same waiting.new k) ≤
        marks_waiting (update same (get same waiting.old) tag left k) }
    ensures left { (k : Tag) → (get same waiting.new k ≡ update same (get same waiting.old) tag left k) ⊎
        (get same waiting.new k ≡ None) }
    ensures lost { (result ≡ 0) ⊎ (result ≡ min (how_many left) last_count) }
    ensures counted { result ≡ min (how_many left - how_many (get same waiting.new tag)) last_count }
    ensures others { (k : Tag) → k ≢ tag → get same waiting.new k ≡ get same waiting.old k }
    ensures kept { result ≡ 0 → (k : Tag) → get same waiting.new k ≡ update same (get same waiting.old) tag left k }
{
    match left {
        None => 0,
        Some(unmatched) => match waiting.insert(tag, unmatched) {
            Ok(_) => 0,
            Err(refused) => refused.value.1.count(),
        },
    }
}
