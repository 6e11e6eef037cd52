//! A slot's key comes, changes or goes.
ghost use Rattle.std.specs.Prelude.{◌≡◌, ◌≤◌, ◌<◌, ◌+◌, ◌-◌, ◌*◌, None, Some, length, slice_set};
ghost use Rattle.sg_heap.specs.Agenda.{digits};
ghost use Rattle.sg_heap.specs.kept.Heap.{HasKeyAt, IsAgenda, entry_at, key_of, keys_of};

use crate::entry::{Entry, put};
use crate::sifting::{drop_in, rise, sift};
use sg_base::Steps;
use std::sync::ledger::Ledger;

// Gives a key to the slot whose entry stands here and has another.
fn change<L: Ledger>(
    heap: &mut [Entry],
    place: &mut [usize],
    count: usize,
    at: usize,
    entry: Entry,
    steps: &mut Steps<L>,
)
    requires key { HasKeyAt heap.old place.old count at }
    requires slot { entry.slot ≡ (entry_at heap.old at).slot }
    ensures agenda { IsAgenda heap.new place.new count }
    ensures keys { keys_of heap.new place.new count ≡
        slice_set (keys_of heap.old place.old count) entry.slot (Some (key_of entry)) }
    ensures most { steps.new ≤ steps.old + (2 * digits count + 1) }
{
    sift(heap, place, at, entry, count, steps);
}

// Gives a key to the slot whose entry stands here and has none.
fn add<L: Ledger>(
    heap: &mut [Entry],
    place: &mut [usize],
    count: usize,
    at: usize,
    entry: Entry,
    steps: &mut Steps<L>,
)
    requires agenda { IsAgenda heap.old place.old count }
    requires at { count ≤ at }
    requires in_range { at < length place.old }
    requires slot { entry.slot ≡ (entry_at heap.old at).slot }
    ensures agenda { IsAgenda heap.new place.new (count + 1) }
    ensures keys { keys_of heap.new place.new (count + 1) ≡
        slice_set (keys_of heap.old place.old count) entry.slot (Some (key_of entry)) }
    ensures most { steps.new ≤ steps.old + digits count }
{
    let moved = heap[count];
    put(heap, place, at, moved);
    rise(heap, place, count, entry, count + 1, steps);
}

/// Gives a slot a key, and returns how many have one then.
pub(crate) fn set_key<L: Ledger>(
    heap: &mut [Entry],
    place: &mut [usize],
    count: usize,
    entry: Entry,
    steps: &mut Steps<L>,
) -> usize
    requires agenda { IsAgenda heap.old place.old count }
    requires slot { entry.slot < length place.old }
    ensures agenda { IsAgenda heap.new place.new result }
    ensures keys { keys_of heap.new place.new result ≡
        slice_set (keys_of heap.old place.old count) entry.slot (Some (key_of entry)) }
    ensures most { steps.new ≤ steps.old + (2 * digits count + 2) }
{
    let at = place[entry.slot];
    if at < count {
        change(heap, place, count, at, entry, steps);
        count
    } else {
        add(heap, place, count, at, entry, steps);
        count + 1
    }
}

// Takes the key of the slot whose entry stands here.
fn take<L: Ledger>(
    heap: &mut [Entry],
    place: &mut [usize],
    count: usize,
    at: usize,
    steps: &mut Steps<L>,
)
    requires key { HasKeyAt heap.old place.old count at }
    ensures agenda { IsAgenda heap.new place.new (count - 1) }
    ensures keys { keys_of heap.new place.new (count - 1) ≡
        slice_set (keys_of heap.old place.old count) (entry_at heap.old at).slot None }
    ensures most { steps.new ≤ steps.old + (2 * digits count + 1) }
{
    let last = count - 1;
    let gone = heap[at];
    let moved = heap[last];
    put(heap, place, last, gone);
    if at < last {
        drop_in(heap, place, at, moved, last, steps);
    }
}

/// Takes a slot's key, if it has one, and returns how many have one then.
pub(crate) fn clear_key<L: Ledger>(
    heap: &mut [Entry],
    place: &mut [usize],
    count: usize,
    slot: usize,
    steps: &mut Steps<L>,
) -> usize
    requires agenda { IsAgenda heap.old place.old count }
    requires slot { slot < length place.old }
    ensures agenda { IsAgenda heap.new place.new result }
    ensures keys { keys_of heap.new place.new result ≡
        slice_set (keys_of heap.old place.old count) slot None }
    ensures most { steps.new ≤ steps.old + (2 * digits count + 2) }
{
    let at = place[slot];
    if at >= count {
        return count;
    }
    take(heap, place, count, at, steps);
    count - 1
}
