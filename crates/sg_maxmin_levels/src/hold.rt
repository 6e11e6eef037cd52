//! The level at which a resource holds its flows.
ghost use Rattle.std.specs.Prelude.{◌≡◌, ◌≤◌, ◌<◌, ◌+◌, ◌-◌, ◌*◌, ◌/◌, ℕ, Option, None, Some, IfSome, is_none, length, slice_index, if◌then◌else◌};
ghost use Rattle.sg_maxmin.specs.Chained.{users_on};
ghost use Rattle.sg_maxmin.specs.Fill.{bounded};
ghost use Rattle.sg_maxmin.specs.Fixing.{share_of_fixed};
ghost use Rattle.sg_maxmin.specs.Held.{IsAtMost, IsHold};
ghost use Rattle.sg_maxmin_levels.specs.Kept.{CanCount, CanPass, IsFirstPass, IsLevelAbove, IsPass, IsRest, WaitFrom};
ghost use Rattle.sg_maxmin.specs.Numbered.{flow_in, level_at, row_level, row_taken, row_waiting, weight_at, when_below};

use sg_base::Steps;
use sg_maxmin::System;
use sg_maxmin::rounding::{level_of, share_at};
use std::sync::ledger::Ledger;

// What fixed flows leave of a resource, the weight of the others, of which none has a level below `least`, and how many
// flows there are in all.
#[derive(Clone, Copy)]
struct Rest {
    left: u64,
    waiting: u64,
    least: u64,
    users: u64,
}

// The level of a resource, if a flow waits there; a level below which no such flow is; and how many flows use it.
#[derive(Clone, Copy)]
pub(crate) struct Above {
    pub(crate) level: Option<u64>,
    pub(crate) least: u64,
    pub(crate) users: u64,
}

// The level at which a resource holds its flows, if at any, how many flows use it, and how many visits remain.
#[derive(Clone, Copy)]
pub(crate) struct Found {
    pub(crate) hold: Option<u64>,
    pub(crate) users: u64,
    pub(crate) looks: u64,
}

// Returns what stands under a number.
pub(crate) fn under(list: &[Option<u64>], number: usize) -> Option<u64>
    requires { number < length list.now }
    ensures { result ≡ level_at list.now number }
{
    list[number]
}

// Returns the level, if it is below another.
fn below(level: Option<u64>, low: u64) -> Option<u64>
    ensures { result ≡ when_below level low }
{
    let level = level?;
    if level < low { Some(level) } else { None }
}

// Returns the lesser of two levels.
fn lesser(least: u64, level: Option<u64>) -> u64
    ensures less { result ≤ least }
    ensures under { IsAtMost (Some result) level }
{
    match level {
        None => least,
        Some(level) => least.min(level),
    }
}

// Returns what remains if a share is given.
fn less(left: u64, weight: u32, bound: Option<u64>, level: u64) -> u64
    ensures { result ≡ left - bounded bound (weight * level) }
{
    left.saturating_sub(share_at(weight, bound, level))
}

// Returns the rest with one more flow of this level on the resource, fixed if it is below another.
fn with_flow(system: &System, flow: usize, level: Option<u64>, low: u64, rest: Rest) -> Rest
    requires { CanCount system.now flow rest }
    ensures left { result.left ≡ rest.left
        - share_of_fixed (flow_in system.now.slots flow) (when_below level low) }
    ensures waiting { result.waiting ≡ rest.waiting
        + (if is_none (when_below level low) then weight_at system.now.slots flow else 0) }
    ensures less { result.least ≤ rest.least }
    ensures least { when_below level low ≡ None → IsAtMost (Some result.least) level }
    ensures users { result.users ≡ rest.users + 1 }
{
    let weight = system.weight(flow);
    let users = rest.users + 1;
    match below(level, low) {
        None => Rest {
            left: rest.left,
            waiting: rest.waiting + weight as u64,
            least: lesser(rest.least, level),
            users,
        },
        Some(fixed) => Rest {
            left: less(rest.left, weight, system.bound(flow), fixed),
            waiting: rest.waiting,
            least: rest.least,
            users,
        },
    }
}

// Returns what flows of levels below this one leave, and the weight of the others; None if the visits don't suffice.
fn rest_of<L: Ledger>(
    system: &System,
    resource: usize,
    levels: &[Option<u64>],
    low: u64,
    looks: u64,
    steps: &mut Steps<L>,
) -> Option<Rest>
    requires { CanPass system.now resource levels.now }
    ensures rest { IfSome result (λ rest.
        IsRest system.now resource levels.now low rest.left rest.waiting) }
    ensures least { IfSome result (λ rest.
        WaitFrom levels.now low (users_on system.now.users resource) rest.least) }
    ensures users { IfSome result (λ rest. IsPass system.now resource looks rest.users) }
    ensures spent { IfSome result (λ rest. steps.new ≡ steps.old + rest.users) }
    ensures looks { steps.new ≤ steps.old + looks }
    ensures enough { result ≡ None → looks < length (users_on system.now.users resource) }
{
    let mut rest = Rest {
        left: system.capacity(resource),
        waiting: 0,
        least: u64::MAX,
        users: 0,
    };
    let mut at = system.first_on(resource);
    while let Some(i) = at {
        if rest.users == looks {
            return None;
        }
        let one = system.look(i, steps);
        rest = with_flow(system, one.flow, under(levels, one.flow), low, rest);
        at = one.next_on;
    }
    Some(rest)
}

// Returns the level of a resource, if a flow waits there.
fn level_of_rest(rest: Rest) -> Option<u64>
    ensures none { result ≡ None → rest.waiting ≡ 0 }
    ensures some { IfSome result (λ level. (0 < rest.waiting)
        × (level ≡ rest.left / rest.waiting)) }
{
    if rest.waiting == 0 {
        None
    } else {
        Some(level_of(rest.left, rest.waiting))
    }
}

// Returns the level of a resource with the flows of levels below this one fixed, if a flow waits there; None if the
// visits don't suffice.
pub(crate) fn level_above<L: Ledger>(
    system: &System,
    resource: usize,
    levels: &[Option<u64>],
    low: u64,
    looks: u64,
    steps: &mut Steps<L>,
) -> Option<Above>
    requires { CanPass system.now resource levels.now }
    ensures level { IfSome result (λ above.
        IsLevelAbove system.now resource levels.now low above.level) }
    ensures least { IfSome result (λ above.
        WaitFrom levels.now low (users_on system.now.users resource) above.least) }
    ensures users { IfSome result (λ above. IsPass system.now resource looks above.users) }
    ensures spent { IfSome result (λ above. steps.new ≡ steps.old + above.users) }
    ensures looks { steps.new ≤ steps.old + looks }
    ensures enough { result ≡ None → looks < length (users_on system.now.users resource) }
{
    let rest = rest_of(system, resource, levels, low, looks, steps)?;
    Some(Above {
        level: level_of_rest(rest),
        least: rest.least,
        users: rest.users,
    })
}

// Returns the level at which a resource holds its flows with these levels, after a first pass over its users with none of
// them fixed; None if the visits don't suffice. Each step of the levels below takes another pass over the users, except
// the last: if no flow that waits is below the level, this would find the same.
pub(crate) fn hold_of<L: Ledger>(
    system: &System,
    resource: usize,
    levels: &[Option<u64>],
    first: Above,
    looks: u64,
    steps: &mut Steps<L>,
) -> Option<Found>
    requires on { CanPass system.now resource levels.now }
    requires first { IsFirstPass system.now resource levels.now looks first }
    ensures hold { IfSome result (λ found. IsHold (slice_index system.now.capacities resource)
        system.now.slots levels.now (users_on system.now.users resource) found.hold) }
    ensures users { IfSome result (λ found. found.users ≡ first.users) }
    ensures spent { IfSome result (λ found.
        steps.new + first.users + found.looks ≡ steps.old + looks) }
    ensures looks { steps.new + first.users ≤ steps.old + looks }
{
    system.is_sound();
    let mut low = 0;
    let mut left = looks;
    let mut next = Some(first);
    while let Some(above) = next {
        let users = above.users;
        left -= users;
        let Some(level) = above.level else {
            return Some(Found {
                hold: None,
                users,
                looks: left,
            });
        };
        if level == low {
            return Some(Found {
                hold: Some(low),
                users,
                looks: left,
            });
        }
        if level <= above.least {
            return Some(Found {
                hold: Some(level),
                users,
                looks: left,
            });
        }
        low = level;
        next = level_above(system, resource, levels, low, left, steps);
    }
    None
}
