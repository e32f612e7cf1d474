// The index of the queue: for each page, the slot where it was put last. An entry may be stale, so a reader looks at
// the slot. No entry is taken out but by clearing the whole table, since only that is known to give its room back.
ghost use Rattle.std.specs.Prelude.{◌≡◌, ◌≤◌, ◌<◌, ◌+◌, nat_eq, length, slice_get, None, Some, IfSome, IfNone};
ghost use Rattle.indexmap.specs.IndexMap.{index_map_len, spare, Updates};
ghost use Rattle.cooling_stage.specs.Queue.{IsOnce, found};
ghost use Rattle.cooling_stage.specs.Inside.{IsIndexOf, live};

use super::stage::Cooling;
use indexmap::IndexMap;

/// Notes that a page stands in a slot. A page that is known is written in its place, since an insert may use room up.
pub(crate) fn note(table: &mut IndexMap<u32, usize>, page: u32, slot: usize)
    requires room { 0 < spare table.old }
    ensures noted { Updates nat_eq table.old table.new page (Some slot) }
    ensures len { index_map_len table.new ≤ index_map_len table.old + 1 }
    ensures room { index_map_len table.old + spare table.old ≤ index_map_len table.new + spare table.new }
{
    match table.get_mut(&page) {
        Some(place) => *place = slot,
        None => {
            table.insert(page, slot).unwrap();
        }
    }
}

/// Makes the index anew.
pub(crate) fn index_anew(table: &mut IndexMap<u32, usize>, slots: &[Option<Cooling>])
    requires once { IsOnce (live slots.now) }
    requires room { length slots.now ≤ index_map_len table.old + spare table.old }
    ensures indexed { IsIndexOf table.new slots.now }
    ensures len { index_map_len table.new ≤ length slots.now }
    ensures room { index_map_len table.old + spare table.old ≤ index_map_len table.new + spare table.new }
{
    table.clear();
    for (i, slot) in slots.iter().enumerate() {
        if let Some(cooling) = slot {
            note(table, cooling.page, i);
        }
    }
}

/// The slot of a page, and what it holds.
pub(crate) fn slot_of(
    table: &IndexMap<u32, usize>,
    slots: &[Option<Cooling>],
    page: u32,
) -> Option<(usize, Cooling)>
    requires { IsIndexOf table.now slots.now }
    ensures slot { IfSome result (λ (i, x). (slice_get slots.now i ≡ Some (Some x)) × (x.page ≡ page)) }
    ensures none { IfNone result (found page (live slots.now) ≡ None) }
{
    let Some(&slot) = table.get(&page) else {
        return None;
    };
    if slot >= slots.len() {
        return None;
    }
    match slots[slot] {
        Some(cooling) if cooling.page == page => Some((slot, cooling)),
        _ => None,
    }
}
