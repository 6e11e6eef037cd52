//! Room for more flows.
ghost use Rattle.std.specs.Prelude.{◌≡◌, ◌≤◌, ◌<◌, ◌^◌, ℕ, OnOk, length, slice_index};
ghost use Rattle.sg_lazy.specs.kept.Held.{GrowsRoom, HaveRoom};

use crate::settle::Pending;
use sg_base::{Marks, Memory};

/// Makes room in the sets of flows.
pub fn grow_marks(n: usize, pending: &mut Pending, changed: &mut Marks) -> Result<(), Memory>
    ensures began { GrowsRoom pending.old.began pending.new.began }
    ensures marked { GrowsRoom pending.old.marked pending.new.marked }
    ensures ended { GrowsRoom pending.old.ended pending.new.ended }
    ensures resources { pending.new.resources ≡ pending.old.resources }
    ensures changed { GrowsRoom changed.old changed.new }
    ensures room { OnOk result (HaveRoom n pending.new changed.new) }
{
    pending.began.reserve(n)?;
    pending.marked.reserve(n)?;
    pending.ended.reserve(n)?;
    changed.reserve(n)
}

/// Rates for the flows of numbers below n.
pub fn grow_rates(n: usize, rates: &mut Vec<u64>) -> Result<(), Memory>
    ensures same { (i : ℕ) → slice_index rates.new.items i ≡ slice_index rates.old.items i }
    ensures grow { length rates.old.items ≤ length rates.new.items }
    ensures room { OnOk result (n ≤ length rates.new.items) }
{
    for _number in rates.len()..n {
        rates.push(0)?;
    }
    Ok(())
}

/// States that a capacity is a number of 64 bits.
pub fn all_fit(capacities: &[u64])
    ensures { (c : ℕ) → slice_index capacities.now c < 2 ^ 64 }
{
    let _count = capacities.len();
}
