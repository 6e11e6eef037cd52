//! Slots with dates, and the one that comes first.
ghost use Rattle.std.specs.Prelude.{◌≡◌, ◌≤◌, ◌<◌, ◌+◌, ◌*◌, ℕ, [], None, Some, IfOk, IfNone, IfSome, IsOk, MatchResult, length, slice_set, vec_capacity, vec_len};
ghost use Rattle.sg_base.specs.Ledgers.{IsBlankOf};
ghost use Rattle.sg_heap.specs.Agenda.{IsLeast, digits, key, key_at, key_count, with_slots};
ghost use Rattle.sg_heap.specs.kept.Heap.{GrowsTo};

use crate::entry::Entry;
use crate::keys::{clear_key, set_key};
use sg_base::{Memory, Serial, Steps};
use std::alloc::Global;
use std::marker::{Brand, Model};
use std::sync::ledger::{Blank, Ledger};

/// Slots, some of which have a key: a date in nanoseconds, and an activity id. The key with the least date comes first,
/// and at one date the one with the least id.
///
/// Contracts see for each slot its key or none. Slots are numbered from 0 on, and `reserve` makes them; nothing else
/// takes memory.
#[derive(Drop)]
pub struct Agenda {
    // an entry for each slot up to the last that ever had a key: first those with a key, as a binary heap, then the others
    heap: Vec<Entry>,
    // where the entry of each of these slots stands
    place: Vec<usize>,
    // how many slots have a key
    count: usize,
    // how many slots there are; for all of them there is room
    slots: usize,
}

impl Model for Agenda {
    ghost use Rattle.std.specs.Prelude.{List, Option};
    ghost use Rattle.sg_heap.specs.Agenda.{Key};

    ghost Value = { List (Option Key) };

    ghost use Rattle.std.specs.Prelude.{vec_capacity};
    ghost use Rattle.sg_heap.specs.Agenda.{with_slots};
    ghost use Rattle.sg_heap.specs.kept.Heap.{keys_of, HasSlots};

    ghost view = { λ a. with_slots a.slots (keys_of a.heap.items a.place.items a.count) };

    ghost invariant = { λ a. HasSlots a.heap.items a.place.items a.count a.slots
        (vec_capacity a.heap) (vec_capacity a.place) };
}

impl Agenda {
    /// Makes an agenda with no slots.
    pub fn new(alloc: Global) -> Result<Agenda, Memory>
        ensures { IfOk result (λ agenda. agenda ≡ []) }
    {
        Ok(Agenda {
            heap: Vec::new(alloc),
            place: Vec::new(alloc),
            count: 0,
            slots: 0,
        })
    }

    /// Makes room for so many slots in all. Those that come have no key, and there are never less than before.
    /// If there is no memory for all of them, none comes; if none has to come, none is taken.
    pub fn reserve(&mut self, slots: usize) -> Result<(), Memory>
        ensures room { MatchResult result (λ _. self.new ≡ with_slots slots self.old)
            (λ _. self.new ≡ self.old) }
        ensures enough { slots ≤ length self.old → IsOk result }
    {
        if slots <= self.slots {
            return Ok(());
        }
        let more = slots - self.place.len();
        self.heap.reserve(more)?;
        self.place.reserve(more)?;
        self.slots = slots;
        Ok(())
    }

    /// Gives a slot a key, in place of the one that it has, if any. `steps` counts the comparisons of keys: at most
    /// two for each binary digit of how many slots have a key, and two more.
    pub fn set_counted<L: Ledger>(
        &mut self,
        slot: usize,
        date: u128,
        serial: Serial,
        steps: &mut Steps<L>,
    )
        requires { slot < length self.old }
        ensures keys { self.new ≡ slice_set self.old slot (Some (key date serial)) }
        ensures comparisons { steps.new ≤ steps.old + (2 * digits (key_count self.old) + 2) }
    {
        add_slots(&mut self.heap, &mut self.place, slot + 1);
        let entry = Entry { date, serial, slot };
        self.count = set_key(&mut self.heap, &mut self.place, self.count, entry, steps);
    }

    /// Takes a slot's key, if it has one. `steps` counts the comparisons of keys, which are as many at most.
    pub fn clear_counted<L: Ledger>(&mut self, slot: usize, steps: &mut Steps<L>)
        ensures keys { self.new ≡ slice_set self.old slot None }
        ensures comparisons { steps.new ≤ steps.old + (2 * digits (key_count self.old) + 2) }
    {
        if slot < self.place.len() {
            self.count = clear_key(&mut self.heap, &mut self.place, self.count, slot, steps);
        }
    }

    /// `set_counted` for a caller that counts nothing.
    pub fn set(&mut self, slot: usize, date: u128, serial: Serial)
        requires { slot < length self.old }
        ensures { self.new ≡ slice_set self.old slot (Some (key date serial)) }
    {
        self.set_from::<Brand>(slot, date, serial, Blank::new(1));
    }

    fn set_from<L: Ledger>(&mut self, slot: usize, date: u128, serial: Serial, blank: Blank)
        requires slot { slot < length self.old }
        requires blank { IsBlankOf L.name L.parts blank }
        ensures { self.new ≡ slice_set self.old slot (Some (key date serial)) }
    {
        let mut steps = Steps::<L>::new(blank);
        self.set_counted(slot, date, serial, &mut steps);
    }

    /// `clear_counted` for a caller that counts nothing.
    pub fn clear(&mut self, slot: usize)
        ensures { self.new ≡ slice_set self.old slot None }
    {
        self.clear_from::<Brand>(slot, Blank::new(1));
    }

    fn clear_from<L: Ledger>(&mut self, slot: usize, blank: Blank)
        requires blank { IsBlankOf L.name L.parts blank }
        ensures { self.new ≡ slice_set self.old slot None }
    {
        let mut steps = Steps::<L>::new(blank);
        self.clear_counted(slot, &mut steps);
    }

    /// Returns the slot whose key comes first, with its date and its activity id; `None` if no slot has a key.
    pub fn least(&self) -> Option<(usize, u128, Serial)>
        ensures first { IfSome result (λ first. IsLeast self.now first.0 (key first.1 first.2)) }
        ensures none { IfNone result ((slot : ℕ) → key_at self.now slot ≡ None) }
    {
        if self.count == 0 {
            return None;
        }
        let first = self.heap[0];
        Some((first.slot, first.date, first.serial))
    }
}

// Adds entries of slots without a key, until there are so many at least.
fn add_slots(heap: &mut Vec<Entry>, place: &mut Vec<usize>, slots: usize)
    requires len { vec_len heap.old ≡ vec_len place.old }
    requires heap_room { slots ≤ vec_capacity heap.old }
    requires place_room { slots ≤ vec_capacity place.old }
    ensures grows { GrowsTo slots heap.old.items place.old.items heap.new.items place.new.items }
    ensures heap_capacity { vec_capacity heap.new ≡ vec_capacity heap.old }
    ensures place_capacity { vec_capacity place.new ≡ vec_capacity place.old }
{
    for slot in place.len()..slots {
        heap.push_reserved(Entry {
            date: 0,
            serial: Serial(0),
            slot,
        });
        place.push_reserved(slot);
    }
}
