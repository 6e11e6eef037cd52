//! Progressive filling. Each step makes three passes over the flows: the first counts, for each resource, what the
//! fixed flows leave and the weights of the unfixed ones that wait for it; the second finds the lowest limit; the third
//! fixes each flow at that limit.

ghost use Rattle.std.specs.Prelude.{◌≡◌, ◌≢◌, ◌↔◌, IsTrue, IsSomeAnd, ◌≤◌, ◌<◌, ◌+◌, ◌-◌, ◌*◌, ◌^◌, ℕ, List, ◌++◌, length, Some, None, slice_index};
ghost use Rattle.sg_maxmin.specs.Chained.{times};
ghost use Rattle.sg_maxmin.specs.kept.Uses.{AreRows, flows_of, row_uses};
ghost use Rattle.sg_maxmin.specs.Laws.{HaveLimits};
ghost use Rattle.sg_maxmin.specs.Sharing.{held};
ghost use Rattle.sg_maxmin.specs.Step.{IsLeast};
ghost use Rattle.sg_maxmin.specs.Fill.{bounded};
ghost use Rattle.sg_maxmin.specs.kept.Numbers.{ChangesRow, ChangesRows, row_at};
ghost use Rattle.sg_maxmin.specs.kept.Counting.{HasRowPlaces, HavePlaces, LooksUpTo, row_limits, AreCounted, row_taken, row_waiting, row_count, count_of, unfixed_limits, all_limits, with_level, with_share, RowSteps, SameRows, AreRowLevels};

use crate::chains::Chains;
use crate::flow_row::FlowRow;
use crate::numbered_rows::Rows;
use crate::rounding::{level_of, level_of_bound, share_at, smaller};
use crate::visits::look;
use sg_base::Steps;
use std::sync::ledger::Ledger;

// What one count finds at each resource: what the fixed flows leave of it, and the weights of the unfixed ones that
// wait for it.
#[derive(Clone, Copy)]
struct Counts<'a> {
    left: &'a [u64],
    waiting: &'a [u64],
}

// Counts the weight of an unfixed flow at each of its resources.
fn put_waiting<L: Ledger>(uses: &Chains, row: FlowRow, waiting: &mut [u64], steps: &mut Steps<L>)
    requires places { HasRowPlaces uses.now.uses row waiting.old }
    requires fits { (resource : ℕ) →
        slice_index waiting.old resource
        + times resource (row_uses uses.now.uses row) * row.weight < 2 ^ 64 }
    ensures counts { (resource : ℕ) → slice_index waiting.new resource
        ≡ slice_index waiting.old resource
        + times resource (row_uses uses.now.uses row) * row.weight }
    ensures looks { steps.new ≡ steps.old + row.count }
{
    let mut at = row.first;
    for done in 0..row.count {
        let slot = look(uses, at, row.count - done, steps);
        waiting[slot.resource] += u64::from(row.weight);
        at = slot.next_of_flow;
    }
}

// Subtracts the share of a flow that is fixed at a level from what remains of each of its resources.
fn take_off<L: Ledger>(
    uses: &Chains,
    row: FlowRow,
    level: u64,
    left: &mut [u64],
    steps: &mut Steps<L>,
)
    requires { HasRowPlaces uses.now.uses row left.old }
    ensures counts { (resource : ℕ) → slice_index left.new resource
        ≡ slice_index left.old resource
        - times resource (row_uses uses.now.uses row) * bounded row.bound (row.weight * level) }
    ensures looks { steps.new ≡ steps.old + row.count }
{
    let share = share_at(row.weight, row.bound, level);
    let mut at = row.first;
    for done in 0..row.count {
        let slot = look(uses, at, row.count - done, steps);
        let resource = slot.resource;
        left[resource] = left[resource].saturating_sub(share);
        at = slot.next_of_flow;
    }
}

// Returns the least of a flow's limits: the level of its bound, and the levels of its resources.
fn least_limit<L: Ledger>(
    uses: &Chains,
    row: FlowRow,
    counts: Counts<'_>,
    steps: &mut Steps<L>,
) -> Option<u64>
    requires weighs { 0 < row.weight }
    requires left { HasRowPlaces uses.now.uses row counts.left.now }
    requires waiting { HasRowPlaces uses.now.uses row counts.waiting.now }
    ensures least { IsLeast result
        (row_limits counts.entry.left.now counts.entry.waiting.now uses.now.uses row) }
    ensures looks { steps.new ≡ steps.old + row.count }
{
    let mut least = level_of_bound(row.weight, row.bound);
    let mut at = row.first;
    for done in 0..row.count {
        let slot = look(uses, at, row.count - done, steps);
        let level = level_of(counts.left[slot.resource], counts.waiting[slot.resource]);
        least = smaller(least, level);
        at = slot.next_of_flow;
    }
    least
}

// Counts the flow under one number, if there is one.
fn count_row<L: Ledger>(
    flows: &Rows,
    uses: &Chains,
    id: usize,
    left: &mut [u64],
    waiting: &mut [u64],
    steps: &mut Steps<L>,
)
    requires rows { HavePlaces flows.now uses.now.uses left.old waiting.old }
    requires fits { (resource : ℕ) → slice_index waiting.old resource + 2 ^ 32 ≤ 2 ^ 64 }
    ensures left { (resource : ℕ) → slice_index left.new resource
        ≡ slice_index left.old resource - row_taken uses.now.uses (row_at flows.now id) resource }
    ensures waiting { (resource : ℕ) → slice_index waiting.new resource
        ≡ slice_index waiting.old resource
        + row_waiting uses.now.uses (row_at flows.now id) resource }
    ensures looks { steps.new ≡ steps.old + row_count (row_at flows.now id) }
{
    let Some(row) = flows.get(id) else {
        return;
    };
    match row.level {
        None => put_waiting(uses, row, waiting, steps),
        Some(level) => take_off(uses, row, level, left, steps),
    }
}

// Runs the first pass over the flows: counts what remains of each resource, and the weights that wait for it.
fn count_all<L: Ledger>(
    flows: &Rows,
    uses: &Chains,
    capacities: &[u64],
    left: &mut [u64],
    waiting: &mut [u64],
    steps: &mut Steps<L>,
)
    requires rows { AreRows capacities.now flows.now uses.now.uses }
    requires left_len { length left.old ≡ length capacities.now }
    requires waiting_len { length waiting.old ≡ length capacities.now }
    ensures counted { AreCounted capacities.now flows.now uses.now.uses
        left.new waiting.new }
    ensures looks { steps.new ≡ steps.old + count_of flows.now }
{
    left.copy_from_slice(capacities);
    for count in waiting.iter_mut() {
        *count = 0;
    }
    for id in 0..flows.numbers() {
        count_row(flows, uses, id, left, waiting, steps);
    }
}

// Returns the least of what was found before and of the limits of the flow under one number, if it isn't fixed.
fn lowest_with<L: Ledger>(
    flows: &Rows,
    uses: &Chains,
    id: usize,
    counts: Counts<'_>,
    least: Option<u64>,
    steps: &mut Steps<L>,
) -> Option<u64>
    requires rows { HavePlaces flows.now uses.now.uses counts.left.now counts.waiting.now }
    ensures least { (list : List ℕ) → IsLeast least list → IsLeast result
        (list ++ unfixed_limits
        (row_limits counts.entry.left.now counts.entry.waiting.now uses.now.uses)
        (row_at flows.now id)) }
    ensures looks { LooksUpTo (row_count (row_at flows.now id)) steps.old steps.new }
{
    let Some(row) = flows.get(id) else {
        return least;
    };
    if row.level.is_some() {
        return least;
    }
    match least_limit(uses, row, counts, steps) {
        None => least,
        Some(limit) => smaller(least, limit),
    }
}

// Runs the second pass over the flows: returns the lowest limit of those that aren't fixed, or None if all are.
fn lowest<L: Ledger>(
    flows: &Rows,
    uses: &Chains,
    counts: Counts<'_>,
    steps: &mut Steps<L>,
) -> Option<u64>
    requires rows { HavePlaces flows.now uses.now.uses counts.left.now counts.waiting.now }
    ensures least { IsLeast result
        (all_limits counts.entry.left.now counts.entry.waiting.now uses.now.uses flows.now) }
    ensures looks { LooksUpTo (count_of flows.now) steps.old steps.new }
{
    let mut least = None;
    for id in 0..flows.numbers() {
        least = lowest_with(flows, uses, id, counts, least, steps);
    }
    least
}

// Fixes the flow under one number at a level, or makes it unfixed.
fn set_level(flows: &mut Rows, id: usize, level: Option<u64>)
    ensures { ChangesRow id (with_level level) flows.old flows.new }
{
    if let Some(row) = flows.get(id) {
        flows.replace(id, FlowRow { level, ..row });
    }
}

// Makes all flows unfixed.
fn unfix_all(flows: &mut Rows)
    ensures { ChangesRows (with_level None) flows.old flows.new }
{
    for id in 0..flows.numbers() {
        set_level(flows, id, None);
    }
}

// Returns whether the flow under one number isn't fixed and its least limit is this level.
fn is_at<L: Ledger>(
    flows: &Rows,
    uses: &Chains,
    id: usize,
    counts: Counts<'_>,
    low: u64,
    steps: &mut Steps<L>,
) -> bool
    requires rows { HavePlaces flows.now uses.now.uses counts.left.now counts.waiting.now }
    ensures at { IsTrue result ↔ (IsSomeAnd (row_at flows.now id) (λ row.
        (row.level ≡ None)
        × IsLeast (Some low)
        (row_limits counts.entry.left.now counts.entry.waiting.now uses.now.uses row))) }
    ensures looks { LooksUpTo (row_count (row_at flows.now id)) steps.old steps.new }
{
    let Some(row) = flows.get(id) else {
        return false;
    };
    if row.level.is_some() {
        return false;
    }
    match least_limit(uses, row, counts, steps) {
        None => false,
        Some(limit) => limit == low,
    }
}

// Fixes the flow under one number, if it is unfixed and at this level.
fn fix_row<L: Ledger>(
    flows: &mut Rows,
    uses: &Chains,
    id: usize,
    counts: Counts<'_>,
    low: u64,
    steps: &mut Steps<L>,
)
    requires rows { HavePlaces flows.old uses.now.uses counts.left.now counts.waiting.now }
    ensures stepped { RowSteps low
        (row_limits counts.entry.left.now counts.entry.waiting.now uses.now.uses)
        (row_at flows.old id) (row_at flows.new id) }
    ensures others { (other : ℕ) → other ≢ id → row_at flows.new other ≡ row_at flows.old other }
    ensures len { length flows.new ≡ length flows.old }
    ensures looks { LooksUpTo (row_count (row_at flows.old id)) steps.old steps.new }
{
    if is_at(flows, uses, id, counts, low, steps) {
        set_level(flows, id, Some(low));
    }
}

// Runs the third pass over the flows: fixes each unfixed flow that is at this level, all by the same counts.
fn fix_all<L: Ledger>(
    flows: &mut Rows,
    uses: &Chains,
    counts: Counts<'_>,
    low: u64,
    steps: &mut Steps<L>,
)
    requires rows { HavePlaces flows.old uses.now.uses counts.left.now counts.waiting.now }
    ensures all { (key : ℕ) → RowSteps low
        (row_limits counts.entry.left.now counts.entry.waiting.now uses.now.uses)
        (row_at flows.old key) (row_at flows.new key) }
    ensures same { SameRows flows.old flows.new }
    ensures len { length flows.new ≡ length flows.old }
    ensures looks { LooksUpTo (count_of flows.old) steps.old steps.new }
{
    for id in 0..flows.numbers() {
        fix_row(flows, uses, id, counts, low, steps);
    }
}

// Fixes each flow at its level. After as many steps as there are flows all are fixed, mostly long before.
pub(crate) fn fill<L: Ledger>(
    flows: &mut Rows,
    uses: &Chains,
    capacities: &[u64],
    left: &mut [u64],
    waiting: &mut [u64],
    steps: &mut Steps<L>,
)
    requires rows { AreRows capacities.now flows.old uses.now.uses }
    requires limits { HaveLimits (held (flows_of flows.old uses.now.uses)) }
    requires left_len { length left.old ≡ length capacities.now }
    requires waiting_len { length waiting.old ≡ length capacities.now }
    ensures same { SameRows flows.old flows.new }
    ensures levels { AreRowLevels capacities.now uses.now.uses flows.new }
    ensures len { length flows.new ≡ length flows.old }
    ensures fit { (resource : ℕ) → slice_index capacities.now resource < 2 ^ 64 }
    ensures most { steps.new ≤ steps.old
        + (3 * length (held (flows_of flows.old uses.now.uses)) + 2)
        * count_of flows.old }
    ensures looks { steps.old + count_of flows.old ≤ steps.new }
{
    unfix_all(flows);
    for n in 0..flows.held() {
        count_all(flows, uses, capacities, left, waiting, steps);
        let counts = Counts { left, waiting };
        let Some(low) = lowest(flows, uses, counts, steps) else {
            return;
        };
        fix_all(flows, uses, counts, low, steps);
    }
}

// Gives each flow the share of the level at which `fill` fixed it.
pub(crate) fn put_shares(flows: &mut Rows)
    ensures { ChangesRows with_share flows.old flows.new }
{
    for id in 0..flows.numbers() {
        if let Some(row) = flows.get(id) {
            let share = share_at(row.weight, row.bound, row.level.unwrap_or(0));
            flows.replace(id, FlowRow { share, ..row });
        }
    }
}
