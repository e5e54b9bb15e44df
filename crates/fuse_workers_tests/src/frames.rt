// What the frames of a run say.
use fuse_wire::{Items, u64_at};
use std::process::Abort;

/// What the frames of a run say.
#[derive(Clone, Copy, Debug, PartialEq)]
pub(crate) struct Said {
    /// How many ids have an empty reply.
    pub(crate) replied: u64,
    /// Which of the first 64 ids have one. A bit stands for each.
    pub(crate) first: u64,
    /// How many frames are not the first empty reply to an id.
    pub(crate) other: u64,
}

/// The bits of the ids below this one.
pub(crate) fn bits_below(id: u64) -> u64 {
    if id < 64 {
        (1_u64 << id).wrapping_sub(1)
    } else {
        u64::MAX
    }
}

impl Said {
    /// All ids below a number have their reply, and nothing else was said.
    pub(crate) fn all(count: u64) -> Said {
        Said {
            replied: count,
            first: bits_below(count),
            other: 0,
        }
    }

    /// A frame was read, which is the first reply to this id.
    fn count(&mut self, id: Option<u64>) {
        match id {
            Some(id) => {
                self.replied = self.replied.saturating_add(1);
                self.first |= bits_below(id.saturating_add(1)) & !bits_below(id);
            }
            None => self.other = self.other.saturating_add(1),
        }
    }
}

/// The id that an empty reply has.
pub(crate) fn replied_id(frame: &[u8]) -> Option<u64> {
    if frame.len() == 16 && u64_at(frame, 0) == 16 {
        Some(u64_at(frame, 8))
    } else {
        None
    }
}

/// The id that this is the first empty reply to, which is noted.
fn first_reply(is_replied: &mut [bool], frame: &[u8]) -> Option<u64> {
    let id = replied_id(frame)?;
    let is_replied = is_replied.get_mut(id as usize)?;
    if *is_replied {
        return None;
    }
    *is_replied = true;
    Some(id)
}

/// What these frames say, of ids below a number.
pub(crate) fn read_frames<R: AllocGlobal + Abort>(rt: &R, frames: &[Items<u8>], ids: u64) -> Said {
    let is_replied = vec![in rt.alloc(); false; ids as usize];
    let mut is_replied = is_replied.expect(rt, "there is memory");
    let mut said = Said::all(0);
    for frame in frames {
        said.count(first_reply(&mut is_replied, frame.as_slice()));
    }
    said
}
