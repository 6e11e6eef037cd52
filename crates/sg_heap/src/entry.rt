//! Entries of the heap: a slot with its key.
ghost use Rattle.std.specs.Prelude.{◌≡◌, ◌<◌, ◌+◌, length, slice_set, true, false};
ghost use Rattle.sg_heap.specs.Agenda.{IsNoLater};
ghost use Rattle.sg_heap.specs.kept.Heap.{key_of};

use sg_base::{Serial, Steps};
use std::sync::ledger::Ledger;

/// A slot, with its date and its activity id.
#[derive(Clone, Copy)]
pub(crate) struct Entry {
    pub(crate) date: u128,
    pub(crate) serial: Serial,
    pub(crate) slot: usize,
}

/// Returns whether `a` comes before `b`. It is the only comparison of keys, and it is counted.
pub(crate) fn is_before<L: Ledger>(a: Entry, b: Entry, steps: &mut Steps<L>) -> bool
    ensures before { result ≡ true → IsNoLater (key_of a) (key_of b) }
    ensures behind { result ≡ false → IsNoLater (key_of b) (key_of a) }
    ensures counted { steps.new ≡ steps.old + 1 }
{
    steps.tick();
    a.date < b.date || (a.date == b.date && a.serial.0 < b.serial.0)
}

/// Writes an entry, and notes where it stands.
pub(crate) fn put(heap: &mut [Entry], place: &mut [usize], at: usize, entry: Entry)
    requires at { at < length heap.old }
    requires slot { entry.slot < length place.old }
    ensures heap { heap.new ≡ slice_set heap.old at entry }
    ensures place { place.new ≡ slice_set place.old entry.slot at }
{
    heap[at] = entry;
    place[entry.slot] = at;
}
