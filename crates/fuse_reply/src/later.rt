// The token of a reply that comes later.
ghost use Rattle.std.specs.Prelude.{◌≡◌, ℕ, Bool, false};

use crate::door::LateDoor;
use crate::{EndNote, Replied};
use fuse_line::LineFull;
use fuse_wire::RequestId;

/// What a token may hold: a reply, or nothing.
pub trait Held {
    /// The id of the request that it is the reply to, or the one given where it is none.
    ghost id_or: { Self → ℕ → ℕ };

    /// Whether it may be put off.
    ghost may_wait: { Self → Bool };
}

impl Held for () {
    ghost id_or = { λ _ id. id };

    ghost may_wait = { λ _. false };
}

/// The token of a reply that was put off, and, until it is asked for, the reply. It must be spent: by `send`, or by
/// `retire` once the run has ended.
pub struct Later<R: Held> {
    pub(crate) id: RequestId,
    pub(crate) reply: R,
    pub(crate) door: LateDoor,
    pub ghost same: { R.id_or reply id.0 ≡ id.0 },
    pub ghost prompt: { R.may_wait reply ≡ false },
}

/// Why a late reply was not queued. Token and reply come back.
pub enum LateRefusal {
    /// Its own push found the line full, as the last tells. It can be tried again.
    Full(Later<()>, Replied, LineFull),
    /// The run has ended, as the note knows. Token and reply can be retired.
    Closed(Later<()>, Replied, EndNote),
}
