// Entries of a directory, put one behind the other.
ghost use Rattle.std.specs.Prelude.{◌≡◌, ◌≤◌, ◌<◌, ◌+◌, ◌*◌, ◌^◌, ◌++◌, length, replicate, max, min};
ghost use Rattle.std.specs.Prelude.{Ok, true, false, IsOk, OnOk, OnErr};
ghost use Rattle.smallvec.specs.SmallVec.{small_vec_len, HasRoomFor};
ghost use Rattle.fuse_reply.specs.Sizes.{inline_size, max_payload};
ghost use Rattle.fuse_reply.specs.Listing.{Fits, padding};

use crate::packed::{INLINE_SIZE, MAX_PAYLOAD};
use fuse_wire::NoMemory;
use smallvec::SmallVec;

/// Puts an entry behind those that are held, where it fits: what a lookup answers, if it is to be told, the head, the
/// name, and zero bytes. Ok(true) says that it does not fit.
pub fn put_entry(
    held: &mut SmallVec<u8, INLINE_SIZE>,
    size: usize,
    lookup: &[u8],
    head: &[u8; 24],
    name: &[u8],
) -> Result<bool, NoMemory>
    requires held { length held.old.items ≤ max_payload }
    requires lookup { length lookup.now ≤ 128 }
    requires name { length name.now < 2 ^ 32 }
    ensures taken { result ≡ Ok false → held.new.items ≡ held.old.items
        ++ (lookup.now ++ (head.now ++ name.now ++ replicate (padding (length name.now)) 0)) }
    ensures fits { result ≡ Ok false → Fits size (length held.old.items)
        (length lookup.now + (24 + length name.now + padding (length name.now))) }
    ensures full { result ≡ Ok true → Fits size (length held.old.items)
        (length lookup.now + (24 + length name.now + padding (length name.now))) → ⊥ }
    ensures kept { result ≡ Ok true → held.new ≡ held.old }
    ensures err { OnErr result (held.new ≡ held.old) }
    ensures starved { OnErr result (Fits size (length held.old.items)
        (length lookup.now + (24 + length name.now + padding (length name.now)))) }
    ensures inline { length held.old.items
        + (length lookup.now + (24 + length name.now + padding (length name.now))) ≤ inline_size → IsOk result }
{
    let zeros = (8 - name.len() % 8) % 8;
    let more = lookup.len() + (24 + name.len() + zeros);
    let limit = size.min(MAX_PAYLOAD);
    if held.len() + more > limit {
        return Ok(true);
    }
    make_room(held, more, limit)?;
    put(held, lookup);
    put(held, head);
    put(held, name);
    put(held, &[0; 8][..zeros]);
    Ok(false)
}

/// Makes room for so many more bytes. Where there is not enough, the room grows to twice what it was, or to what is
/// wanted if that is more, but not past the limit.
fn make_room(
    held: &mut SmallVec<u8, INLINE_SIZE>,
    more: usize,
    limit: usize,
) -> Result<(), NoMemory>
    requires { small_vec_len held.old + more ≤ limit }
    ensures room { OnOk result (HasRoomFor held.new more) }
    ensures same { held.new.items ≡ held.old.items }
    ensures doubles { held.old.capacity < held.new.capacity → min (2 * held.old.capacity) limit ≤ held.new.capacity }
    ensures within { held.new.capacity ≤ max held.old.capacity
        (min limit (max (2 * held.old.capacity) (small_vec_len held.old + more))) }
    ensures err { OnErr result (held.new ≡ held.old) }
    ensures inline { small_vec_len held.old + more ≤ inline_size → IsOk result }
{
    let wanted = held.len() + more;
    let room = held.capacity();
    if wanted <= room {
        return Ok(());
    }
    let larger = room.saturating_mul(2).min(limit).max(wanted);
    held.reserve_exact(larger - held.len())?;
    Ok(())
}

/// Puts bytes behind those that are held, where there is room for them.
fn put(held: &mut SmallVec<u8, INLINE_SIZE>, bytes: &[u8])
    requires { HasRoomFor held.old (length bytes.now) }
    ensures items { held.new.items ≡ held.old.items ++ bytes.now }
    ensures capacity { held.old.capacity ≤ held.new.capacity }
{
    held.extend_from_slice(bytes).unwrap();
}
