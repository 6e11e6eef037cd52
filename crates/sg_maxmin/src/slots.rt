//! Slots for uses, by number.
ghost use Rattle.std.specs.Prelude.{◌≡◌, ◌≢◌, ◌≤◌, ◌<◌, ◌+◌, ℕ, [], None, Some, IsSome, OnOk, option_map};
ghost use Rattle.slab.specs.Slab.{get, slab_len, HasRoomFor, Updates};
ghost use Rattle.sg_maxmin.specs.kept.Slots.{AreSmall, HasNumber, IsSmall, nothing};
ghost use Rattle.sg_maxmin.specs.kept.Linked.{KeepsRoom, with_next, with_prev};

use crate::cells::{Cell, code_of, slot_in};
use sg_base::Memory;
use slab::Slab;
use std::alloc::Global;
use std::marker::Model;

/// A use, which also knows the one before it on the same resource.
#[derive(Clone, Copy)]
pub(crate) struct Slot {
    pub(crate) flow: u32,
    pub(crate) resource: usize,
    pub(crate) next_of_flow: Option<usize>,
    pub(crate) next_on: Option<usize>,
    pub(crate) prev_on: Option<usize>,
}

// All numbers of slots are below it.
const MOST: usize = 4_294_967_295;

// Puts a cell under a free number of 32 bits. A slab promises a key below its capacity, which may be more than was
// asked for: a key that is too large is replaced. It isn't recursive itself, so that it can be inlined.
fn insert_below(slab: &mut Slab<Cell>, cell: Cell) -> usize
    requires { HasNumber slab.old }
    ensures small { result < nothing }
    ensures free { get slab.old result ≡ None }
    ensures updates { Updates slab.old slab.new result (Some cell) }
    ensures len { slab_len slab.new ≡ slab_len slab.old + 1 }
    ensures capacity { slab.new.capacity ≡ slab.old.capacity }
{
    let _most = slab.capacity();
    let i = slab.insert_reserved(cell);
    if i < MOST {
        return i;
    }
    replace_above(slab, i)
}

// Moves the cell under a number that is too large to a free one of 32 bits. Its old number is given back only once
// another was found, since the slab would give it again.
#[cold]
fn replace_above(slab: &mut Slab<Cell>, above: usize) -> usize
    requires number { HasNumber slab.old }
    requires there { IsSome (get slab.old above) }
    requires large { nothing ≤ above }
    ensures small { result < nothing }
    ensures free { get slab.old result ≡ None }
    ensures moved { get slab.new result ≡ get slab.old above }
    ensures gone { get slab.new above ≡ None }
    ensures others { (k : ℕ) → k ≢ above → k ≢ result → get slab.new k ≡ get slab.old k }
    ensures len { slab_len slab.new ≡ slab_len slab.old }
    ensures capacity { slab.new.capacity ≡ slab.old.capacity }
{
    let _most = slab.capacity();
    let cell = slab[above];
    let i = slab.insert_reserved(cell);
    let below = if i < MOST { i } else { replace_above(slab, i) };
    slab.remove(above);
    below
}

/// Slots by numbers of 32 bits, in a slab of cells. Only `reserve` takes memory.
#[derive(Drop)]
pub(crate) struct Slots {
    slab: Slab<Cell>,
}

impl Model for Slots {
    ghost use Rattle.slab.specs.Slab.{Slab};
    ghost use Rattle.sg_maxmin.specs.declared.slots.Slot.{Slot};

    ghost Value = { Slab Slot };

    ghost use Rattle.sg_maxmin.specs.kept.Slots.{AreNumbered, slots_in};

    ghost view = { λ s. slots_in s.slab };

    ghost invariant = { λ s. AreNumbered s.slab };
}

impl Slots {
    /// Makes an empty list, without room.
    pub(crate) fn new(alloc: Global) -> Slots
        ensures { result.slots ≡ [] }
    {
        Slots {
            slab: Slab::new(alloc),
        }
    }

    /// Makes room for so many more slots.
    pub(crate) fn reserve(&mut self, n: usize) -> Result<(), Memory>
        ensures room { OnOk result (HasRoomFor self.new n) }
        ensures grows { self.old.capacity ≤ self.new.capacity }
        ensures kept { self.new ≡ record self.old { capacity = self.new.capacity } }
    {
        let Some(most) = self.slab.len().checked_add(n) else {
            return Err(Memory);
        };
        if most > MOST {
            return Err(Memory);
        }
        self.slab.reserve(n)?;
        Ok(())
    }

    /// States that all numbers of slots have 32 bits.
    pub(crate) fn are_numbered(&self)
        ensures { (i : ℕ) → nothing ≤ i → get self.now i ≡ None }
    {
        let _len = self.slab.len();
    }

    /// Returns the slot under a number.
    pub(crate) fn at(&self, i: usize) -> Slot
        requires { IsSome (get self.now i) }
        ensures { get self.now i ≡ Some result }
    {
        slot_in(&self.slab[i])
    }

    /// Puts a slot under a free number, and returns the number.
    pub(crate) fn insert(&mut self, slot: Slot) -> usize
        requires room { HasRoomFor self.old 1 }
        requires small { AreSmall slot }
        ensures free { get self.old result ≡ None }
        ensures small { result < nothing }
        ensures updates { Updates self.old self.new result (Some slot) }
        ensures len { slab_len self.new ≡ slab_len self.old + 1 }
        ensures capacity { self.new.capacity ≡ self.old.capacity }
    {
        let cell = Cell {
            flow: slot.flow,
            resource: slot.resource as u32,
            next_of_flow: code_of(slot.next_of_flow),
            next_on: code_of(slot.next_on),
            prev_on: code_of(slot.prev_on),
        };
        insert_below(&mut self.slab, cell)
    }

    /// Takes the slot under a number away.
    pub(crate) fn remove(&mut self, i: usize) -> Slot
        requires { IsSome (get self.old i) }
        ensures value { get self.old i ≡ Some result }
        ensures next { IsSmall result.next_on }
        ensures prev { IsSmall result.prev_on }
        ensures updates { Updates self.old self.new i None }
        ensures len { slab_len self.new + 1 ≡ slab_len self.old }
        ensures capacity { self.new.capacity ≡ self.old.capacity }
    {
        slot_in(&self.slab.remove(i))
    }

    /// Links the slot under a number, if there is one, to this next one on its resource.
    pub(crate) fn set_next(&mut self, i: usize, next: Option<usize>)
        requires { IsSmall next }
        ensures changed { get self.new i ≡ option_map (with_next next) (get self.old i) }
        ensures others { (other : ℕ) → other ≢ i → get self.new other ≡ get self.old other }
        ensures kept { KeepsRoom self.old self.new }
    {
        let Some(cell) = self.slab.get_mut(i) else {
            return;
        };
        *cell = Cell {
            next_on: code_of(next),
            ..*cell
        };
    }

    /// Links the slot under a number, if there is one, back to this one on its resource.
    pub(crate) fn set_prev(&mut self, i: usize, prev: Option<usize>)
        requires { IsSmall prev }
        ensures changed { get self.new i ≡ option_map (with_prev prev) (get self.old i) }
        ensures others { (other : ℕ) → other ≢ i → get self.new other ≡ get self.old other }
        ensures kept { KeepsRoom self.old self.new }
    {
        let Some(cell) = self.slab.get_mut(i) else {
            return;
        };
        *cell = Cell {
            prev_on: code_of(prev),
            ..*cell
        };
    }
}
