//! A first step that is the last one too: one resource holds all touched flows.
ghost use Rattle.std.specs.Prelude.{◌≡◌, ◌<◌, ℕ, Some, IsSome, true, false, All, length, slice_index, sum_by};
ghost use Rattle.sg_base.specs.MarkSet.{is_in};
ghost use Rattle.sg_maxmin.specs.Sharing.{flow_at};
ghost use Rattle.sg_maxmin.specs.Numbered.{weight_at};
ghost use Rattle.sg_maxmin_solve.specs.Filling.{ArePart, fixed_at};
ghost use Rattle.sg_maxmin_solve.specs.Holds.{FixesRest, IsAtLevel, IsLast, MayHold};

use crate::dates::has_keys;
use crate::filling::Filling;
use crate::limits::Low;
use sg_maxmin::System;

// Returns whether the touched flows together have this weight.
fn weigh(system: &System, touched: &[usize], weight: u64) -> bool
    requires { All (λ id. IsSome (flow_at system.now.slots id)) touched.now }
    ensures { result ≡ true → weight ≡ sum_by (weight_at system.now.slots) touched.now }
{
    let mut rest = weight;
    for flow in touched {
        let one = system.weight(*flow) as u64;
        if rest < one {
            return false;
        }
        rest -= one;
    }
    rest == 0
}

// Returns whether a resource is at this level, and the weight of all touched flows waits there.
fn holds_all(
    system: &System,
    touched: &[usize],
    resource: usize,
    low: u64,
    filling: &Filling,
) -> bool
    requires part { ArePart system.now touched.now }
    requires level { resource < length filling.now.levels.items }
    requires waiting { resource < length filling.now.waiting.items }
    ensures level { result ≡ true → slice_index filling.now.levels.items resource ≡ low }
    ensures weight { result ≡ true → slice_index filling.now.waiting.items resource
        ≡ sum_by (weight_at system.now.slots) touched.now }
{
    if filling.levels[resource] == low {
        weigh(system, touched, filling.waiting[resource])
    } else {
        false
    }
}

/// Returns whether the first step is the last one too, as one resource holds all touched flows. After it a flow is
/// fixed, so that no later step is asked.
pub fn is_last(
    step: usize,
    system: &System,
    touched: &[usize],
    reached: &[usize],
    low: Low,
    filling: &Filling,
) -> bool
    requires { IsAtLevel system.now touched.now reached.now low filling.now }
    ensures { result ≡ true → IsLast system.now touched.now reached.now low.level filling.now }
{
    if step > 0 {
        return false;
    }
    if has_keys(&filling.agenda) {
        return false;
    }
    if low.at.first < low.at.end {
        holds_all(system, touched, reached[low.at.first], low.level, filling)
    } else {
        false
    }
}

// Fixes the touched flows at this level.
fn fix_touched(touched: &[usize], low: u64, fixed: &mut [Option<u64>])
    requires { All (λ id. id < length fixed.old) touched.now }
    ensures fixed { (i : ℕ) → i < length touched.now
        → fixed_at fixed.new (slice_index touched.now i) ≡ Some low }
    ensures others { (id : ℕ) → is_in id touched.now ≡ false
        → fixed_at fixed.new id ≡ fixed_at fixed.old id }
{
    for flow in touched {
        fixed[*flow] = Some(low);
    }
}

// Notes the reached resources that are at this level, and nobody waits there any more.
fn note_reached(
    reached: &[usize],
    low: u64,
    levels: &[u64],
    holds: &mut [Option<u64>],
    waiting: &mut [u64],
)
    requires levels { All (λ c. c < length levels.now) reached.now }
    requires holds { All (λ c. c < length holds.old) reached.now }
    requires waiting { All (λ c. c < length waiting.old) reached.now }
    ensures others { (c : ℕ) → is_in c reached.now ≡ false
        → fixed_at holds.new c ≡ fixed_at holds.old c }
    ensures may { (c : ℕ) → MayHold low (slice_index levels.now c)
        (fixed_at holds.old c) (fixed_at holds.new c) }
    ensures noted { (i : ℕ) → i < length reached.now
        → slice_index levels.now (slice_index reached.now i) ≡ low
        → fixed_at holds.new (slice_index reached.now i) ≡ Some low }
    ensures gone { (i : ℕ) → i < length reached.now
        → slice_index waiting.new (slice_index reached.now i) ≡ 0 }
    ensures kept { (c : ℕ) → is_in c reached.now ≡ false
        → slice_index waiting.new c ≡ slice_index waiting.old c }
{
    for c in reached {
        if levels[*c] == low {
            holds[*c] = Some(low);
        }
        waiting[*c] = 0;
    }
}

/// Runs the last step, at this level: since no other follows, what remains and the levels stay as they are.
pub fn fix_rest(
    system: &System,
    touched: &[usize],
    reached: &[usize],
    low: u64,
    filling: &mut Filling,
)
    requires { IsLast system.now touched.now reached.now low filling.old }
    ensures { FixesRest system.now touched.now reached.now low filling.old filling.new }
{
    fix_touched(touched, low, &mut filling.fixed);
    note_reached(
        reached,
        low,
        &filling.levels,
        &mut filling.holds,
        &mut filling.waiting,
    );
}
