// Lists that change at one place.
ghost use Rattle.std.specs.Prelude.{◌≡◌, ◌<◌, ◌∷◌, ◌++◌, [], length, IfOk, MatchOption};
ghost use Rattle.std.specs.Prelude.{Some, remove, slice_get, slice_set};

use fuse_wire::{Items, NoMemory};
use std::alloc::Global;
use std::mem;

/// The vector of a list, which is empty then. This takes no memory.
fn take_out<T: Drop>(alloc: Global, items: &mut Items<T>) -> Vec<T>
    ensures { result.items ≡ items.old }
{
    mem::replace(items, Items::from_vec(Vec::new(alloc))).into_vec()
}

/// Puts an item at the end. Where there is no memory for it, it is let go.
pub(crate) fn push<T: Drop>(alloc: Global, items: &mut Items<T>, item: T) -> Result<(), NoMemory>
    ensures { IfOk result (λ _. items.new ≡ items.old ++ item ∷ []) }
{
    let mut list = take_out(alloc, items);
    let is_put = list.push(item).is_ok();
    *items = Items::from_vec(list);
    if is_put { Ok(()) } else { Err(NoMemory) }
}

/// Takes the first item off, if there is one.
pub(crate) fn take_first<T: Drop>(alloc: Global, items: &mut Items<T>) -> Option<T>
    ensures { MatchOption result (items.old ≡ []) (λ first. items.old ≡ first ∷ items.new) }
{
    if items.as_slice().is_empty() {
        return None;
    }
    let mut list = take_out(alloc, items);
    let first = list.remove(0);
    *items = Items::from_vec(list);
    Some(first)
}

/// Takes the item at a place out.
pub(crate) fn take_at<T: Drop>(alloc: Global, items: &mut Items<T>, place: usize) -> T
    requires { place < length items.old }
    ensures item { slice_get items.old place ≡ Some result }
    ensures rest { items.new ≡ remove items.old place }
{
    let mut list = take_out(alloc, items);
    let item = list.remove(place);
    *items = Items::from_vec(list);
    item
}

/// Puts an item in the place of another, which comes back.
pub(crate) fn exchange<T: Drop>(alloc: Global, items: &mut Items<T>, place: usize, item: T) -> T
    requires { place < length items.old }
    ensures old { slice_get items.old place ≡ Some result }
    ensures new { items.new ≡ slice_set items.old place item }
{
    let mut list = take_out(alloc, items);
    let other = mem::replace(&mut list[place], item);
    *items = Items::from_vec(list);
    other
}
