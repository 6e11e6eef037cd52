//! Entries rise and sink in the binary heap.
ghost use Rattle.std.specs.Prelude.{◌≡◌, ◌≤◌, ◌<◌, ◌+◌, ◌-◌, ◌*◌, ◌/◌, ℕ, length, slice_set};
ghost use Rattle.sg_heap.specs.Agenda.{IsNoLater, digits};
ghost use Rattle.sg_heap.specs.kept.Heap.{InOrder, IsInHand, IsLooseInHand, IsSifted, MayRise, MaySink, Sifts, entry_at, key_of};

use crate::entry::{Entry, is_before, put};
use sg_base::Steps;
use std::sync::ledger::Ledger;

// Returns the child of this place that comes first.
fn first_child<L: Ledger>(heap: &[Entry], at: usize, count: usize, steps: &mut Steps<L>) -> usize
    requires some { 2 * at + 1 < count }
    requires count { count ≤ length heap.now }
    ensures child { (result - 1) / 2 ≡ at }
    ensures below { at < result }
    ensures within { result < count }
    ensures first { (i : ℕ) → 0 < i → i < count → (i - 1) / 2 ≡ at →
        InOrder heap.now result i }
    ensures least { steps.old ≤ steps.new }
    ensures most { steps.new ≤ steps.old + 1 }
{
    let left = 2 * at + 1;
    let right = left + 1;
    if right < count {
        // Added, since no processor can foresee a jump.
        left + usize::from(is_before(heap[right], heap[left], steps))
    } else {
        left
    }
}

// Writes the entry where it belongs, at this place or above.
pub(crate) fn rise<L: Ledger>(
    heap: &mut [Entry],
    place: &mut [usize],
    from: usize,
    entry: Entry,
    count: usize,
    steps: &mut Steps<L>,
)
    requires hand { IsInHand heap.old place.old count from entry }
    requires rises { MayRise (slice_set heap.old from entry) count from }
    ensures sifted { IsSifted count (slice_set heap.old from entry)
        (slice_set place.old entry.slot from) heap.new place.new }
    ensures most { steps.new ≤ steps.old + digits from }
{
    let mut at = from;
    while at > 0 {
        let parent = (at - 1) / 2;
        let above = heap[parent];
        if !is_before(entry, above, steps) {
            put(heap, place, at, entry);
            return;
        }
        put(heap, place, at, above);
        at = parent;
    }
    put(heap, place, at, entry);
}

// Writes the entry where it belongs, at this place or below.
pub(crate) fn sink<L: Ledger>(
    heap: &mut [Entry],
    place: &mut [usize],
    from: usize,
    entry: Entry,
    count: usize,
    steps: &mut Steps<L>,
)
    requires hand { IsInHand heap.old place.old count from entry }
    requires sinks { MaySink (slice_set heap.old from entry) count from }
    ensures sifted { IsSifted count (slice_set heap.old from entry)
        (slice_set place.old entry.slot from) heap.new place.new }
    ensures most { steps.new ≤ steps.old + 2 * digits count }
{
    let mut at = from;
    while 2 * at + 1 < count {
        let child = first_child(heap, at, count, steps);
        let below = heap[child];
        if !is_before(below, entry, steps) {
            put(heap, place, at, entry);
            return;
        }
        put(heap, place, at, below);
        at = child;
    }
    put(heap, place, at, entry);
}

// Writes the entry where it belongs, above this place, at it or below.
pub(crate) fn sift<L: Ledger>(
    heap: &mut [Entry],
    place: &mut [usize],
    from: usize,
    entry: Entry,
    count: usize,
    steps: &mut Steps<L>,
)
    requires { IsLooseInHand heap.old place.old count from entry }
    ensures { Sifts count from entry heap.old place.old heap.new place.new steps.old steps.new }
{
    if from > 0 && is_before(entry, heap[(from - 1) / 2], steps) {
        rise(heap, place, from, entry, count, steps);
    } else {
        sink(heap, place, from, entry, count, steps);
    }
}

// Writes the entry, which comes from the last level, where it belongs: the first children below this place go up, and
// from where the last of them stood it rises. It mostly belongs there, so that it is compared once, and not at each level.
pub(crate) fn drop_in<L: Ledger>(
    heap: &mut [Entry],
    place: &mut [usize],
    from: usize,
    entry: Entry,
    count: usize,
    steps: &mut Steps<L>,
)
    requires { IsLooseInHand heap.old place.old count from entry }
    ensures { Sifts count from entry heap.old place.old heap.new place.new steps.old steps.new }
{
    let mut at = from;
    while 2 * at + 1 < count {
        let child = first_child(heap, at, count, steps);
        let below = heap[child];
        put(heap, place, at, below);
        at = child;
    }
    rise(heap, place, at, entry, count, steps);
}
