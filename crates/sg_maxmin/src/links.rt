//! Slots come and go in the chain of their resource, in a fixed number of steps each.
ghost use Rattle.std.specs.Prelude.{◌≡◌, ◌≢◌, ◌<◌, ℕ, length, None, Some, IsSome, option_map, slice_index_or, slice_set};
ghost use Rattle.slab.specs.Slab.{get};
ghost use Rattle.sg_maxmin.specs.kept.Slots.{IsSmall, nothing};
ghost use Rattle.sg_maxmin.specs.kept.Linked.{AreLists, CanHold, GainsOne, HoldsMore, KeepsRoom, LosesOne, PointsFrom, SameBut, flow_part, use_from, uses_of, with_next, with_prev};

use crate::slots::{Slot, Slots};

// Links the slot before, or the head of the resource if there is none, to the next slot.
fn point_next(
    slots: &mut Slots,
    on: &mut [Option<usize>],
    resource: usize,
    prev: Option<usize>,
    next: Option<usize>,
)
    requires in_range { resource < length on.old }
    requires small { IsSmall next }
    ensures first { PointsFrom prev (on.new ≡ slice_set on.old resource next) (on.new ≡ on.old) }
    ensures changed { (x : ℕ) → prev ≡ Some x →
        get slots.new x ≡ option_map (with_next next) (get slots.old x) }
    ensures others { (x : ℕ) → prev ≢ Some x → get slots.new x ≡ get slots.old x }
    ensures kept { KeepsRoom slots.old slots.new }
{
    match prev {
        None => on[resource] = next,
        Some(at) => slots.set_next(at, next),
    }
}

// Links the next slot, if there is one, back.
fn point_prev(slots: &mut Slots, next: Option<usize>, prev: Option<usize>)
    requires { IsSmall prev }
    ensures changed { (x : ℕ) → next ≡ Some x →
        get slots.new x ≡ option_map (with_prev prev) (get slots.old x) }
    ensures others { (x : ℕ) → next ≢ Some x → get slots.new x ≡ get slots.old x }
    ensures kept { KeepsRoom slots.old slots.new }
{
    if let Some(at) = next {
        slots.set_prev(at, prev);
    }
}

/// Puts a new use in front of those on its resource, and returns its number.
pub(crate) fn link(
    slots: &mut Slots,
    on: &mut [Option<usize>],
    flow: u32,
    resource: usize,
    next_of_flow: Option<usize>,
) -> usize
    requires can { CanHold 1 slots.old on.old }
    requires in_range { resource < length on.old }
    requires next { IsSmall next_of_flow }
    ensures gains { GainsOne slots.old.slots slots.new.slots on.old on.new resource flow }
    ensures free { get slots.old result ≡ None }
    ensures small { result < nothing }
    ensures made { option_map flow_part (slice_index_or (uses_of slots.new.slots) result None)
        ≡ Some (use_from flow resource next_of_flow) }
    ensures others { SameBut (uses_of slots.old.slots) (uses_of slots.new.slots) result }
    ensures more { HoldsMore 1 slots.old slots.new }
{
    // what leads to a slot is the number of one
    slots.are_numbered();
    let next = on[resource];
    let i = slots.insert(Slot {
        flow,
        resource,
        next_of_flow,
        next_on: next,
        prev_on: None,
    });
    point_prev(slots, next, Some(i));
    on[resource] = Some(i);
    i
}

/// Takes a use out of those on its resource.
pub(crate) fn unlink(slots: &mut Slots, on: &mut [Option<usize>], i: usize) -> Slot
    requires lists { AreLists slots.old.slots on.old }
    requires there { IsSome (get slots.old i) }
    ensures value { get slots.old i ≡ Some result }
    ensures loses { LosesOne slots.old.slots slots.new.slots on.old on.new
        result.resource result.flow }
    ensures others { SameBut (uses_of slots.old.slots) (uses_of slots.new.slots) i }
    ensures less { HoldsMore 1 slots.new slots.old }
{
    let slot = slots.remove(i);
    point_next(slots, on, slot.resource, slot.prev_on, slot.next_on);
    point_prev(slots, slot.next_on, slot.prev_on);
    slot
}
