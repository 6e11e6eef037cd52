//! The least limit of the unfixed flows: of a resource on which one waits, or of the bound of one.
ghost use Rattle.std.specs.Prelude.{◌≡◌, ◌≤◌, ◌<◌, ◌+◌, ◌^◌, ◌++◌, ℕ, List, [], Some, IfSome, true, All, length, min, option_to_list};
ghost use Rattle.sg_maxmin.specs.Step.{IsLeast, least_with};
ghost use Rattle.sg_maxmin_solve.specs.Dates.{AreDated};
ghost use Rattle.sg_maxmin.specs.Numbered.{IsHeld};
ghost use Rattle.sg_maxmin_solve.specs.Filling.{AreAmong, ArePart, AreTaken, IsLow, IsNext, IsNextOf, IsOver, IsUpTo, bound_limit, unfixed_bounds, unfixed_limits, waited_levels};
ghost use Rattle.sg_maxmin_solve.specs.Holds.{IsUnderWay};

use crate::filling::Filling;
use sg_maxmin::System;
use sg_maxmin::rounding::{level_of_bound, smaller};

/// Places of a list: from the first on, before the end.
#[derive(Clone, Copy)]
pub struct Span {
    pub first: usize,
    pub end: usize,
}

// The least level of resources on which a flow waits, and the places of those that are at it.
#[derive(Clone, Copy)]
struct Least {
    level: Option<u64>,
    at: Span,
}

/// The level of a step, and one that no bound of an unfixed flow is below. If it is `None`, no such flow has a bound. The
/// resources at the level stand at these places, as far as flows wait there.
#[derive(Clone, Copy)]
pub struct Low {
    pub level: u64,
    pub floor: Option<u64>,
    pub at: Span,
}

// Returns the lesser of a level and of what was found before, if a flow waits at the resource at this place.
fn with_level(place: usize, level: u64, least: Least) -> Least
    requires { place + 1 < 2 ^ 64 }
    ensures level { result.level ≡ Some (least_with least.level level) }
    ensures at { IsNext place level least result }
{
    let end = place + 1;
    match least.level {
        None => Least {
            level: Some(level),
            at: Span { first: place, end },
        },
        Some(low) => with_other(place, level, low, least.at),
    }
}

// Does the same, if the least level is this one.
fn with_other(place: usize, level: u64, low: u64, at: Span) -> Least
    requires { place + 1 < 2 ^ 64 }
    ensures level { result.level ≡ Some (min low level) }
    ensures at { IsNextOf place level low at result.at }
{
    let end = place + 1;
    if level < low {
        Least {
            level: Some(level),
            at: Span { first: place, end },
        }
    } else if level == low {
        Least {
            level: Some(low),
            at: Span {
                first: at.first,
                end,
            },
        }
    } else {
        Least {
            level: Some(low),
            at,
        }
    }
}

// Does the same, whether a flow waits there or not.
fn with_resource(place: usize, waiting: u64, level: u64, least: Least) -> Least
    requires { place + 1 < 2 ^ 64 }
    ensures idle { waiting ≡ 0 → result ≡ least }
    ensures level { (waiting ≡ 0 → ⊥) → result.level ≡ Some (least_with least.level level) }
    ensures at { (waiting ≡ 0 → ⊥) → IsNext place level least result }
{
    if waiting == 0 {
        least
    } else {
        with_level(place, level, least)
    }
}

// Finds the least level of a resource on which a flow waits, by scanning all.
fn lowest_level(reached: &[usize], waiting: &[u64], levels: &[u64]) -> Least
    requires waiting { All (λ c. c < length waiting.now) reached.now }
    requires levels { All (λ c. c < length levels.now) reached.now }
    ensures level { IsLeast result.level (waited_levels waiting.now levels.now reached.now) }
    ensures at { AreAmong reached.now waiting.now levels.now result.level result.at }
{
    let mut least = Least {
        level: None,
        at: Span { first: 0, end: 0 },
    };
    for k in 0..reached.len() {
        let c = reached[k];
        least = with_resource(k, waiting[c], levels[c], least);
    }
    least
}

// Returns the least level of a resource on which a flow waits.
fn least_level(reached: &[usize], filling: &Filling) -> Least
    requires dated { AreDated reached.now filling.now }
    requires slots { length filling.now.agenda ≡ length filling.now.levels.items }
    requires waiting { All (λ c. c < length filling.now.waiting.items) reached.now }
    requires levels { All (λ c. c < length filling.now.levels.items) reached.now }
    ensures level { IsLeast result.level
        (waited_levels filling.now.waiting.items filling.now.levels.items reached.now) }
    ensures at { AreAmong reached.now filling.now.waiting.items filling.now.levels.items
        result.level result.at }
{
    match filling.agenda.least() {
        None => lowest_level(reached, &filling.waiting, &filling.levels),
        Some((c, _, _)) => Least {
            level: Some(filling.levels[c]),
            at: Span {
                first: 0,
                end: reached.len(),
            },
        },
    }
}

// Returns the lesser of the level of a flow's bound, and of what was found before.
fn least_with_bound(system: &System, flow: usize, least: Option<u64>) -> Option<u64>
    requires { IsHeld system.now flow }
    ensures { (list : List ℕ) → IsLeast least list
        → IsLeast result (list ++ option_to_list (bound_limit system.now.slots flow)) }
{
    match level_of_bound(system.weight(flow), system.bound(flow)) {
        None => least,
        Some(limit) => smaller(least, limit),
    }
}

// Returns the least level of the bound of an unfixed flow.
fn lowest_bound(system: &System, touched: &[usize], fixed: &[Option<u64>]) -> Option<u64>
    requires part { ArePart system.now touched.now }
    requires fixed { length system.now.slots ≤ length fixed.now }
    ensures { IsLeast result (unfixed_bounds system.now.slots fixed.now touched.now) }
{
    let mut least = None;
    for flow in touched {
        if fixed[*flow].is_none() {
            least = least_with_bound(system, *flow, least);
        }
    }
    least
}

/// Returns whether the bounds of all unfixed flows are above this level.
pub fn is_over(floor: Option<u64>, level: u64) -> bool
    ensures { result ≡ true → IsOver floor level }
{
    match floor {
        None => true,
        Some(floor) => level < floor,
    }
}

// Returns the level, if it is below all bounds of unfixed flows.
fn below_bounds(least: Least, floor: Option<u64>) -> Option<Low>
    ensures { IfSome result (λ low. (least.level ≡ Some low.level) × (low.floor ≡ floor)
        × IsOver floor low.level × (low.at ≡ least.at)) }
{
    let level = least.level?;
    if is_over(floor, level) {
        Some(Low {
            level,
            floor,
            at: least.at,
        })
    } else {
        None
    }
}

// Returns the lesser of a level, if there is one, and of a bound's.
fn lesser_of(level: Option<u64>, bound: u64) -> u64
    ensures lesser { result ≡ least_with level bound }
    ensures up { IsUpTo result level }
{
    match level {
        None => bound,
        Some(level) => level.min(bound),
    }
}

// Returns the level, if there are no bounds.
fn unbounded(least: Least) -> Option<Low>
    ensures low { (levels : List ℕ) → IsLeast least.level levels → IsLow result levels [] }
    ensures at { IfSome result (λ low. IsUpTo low.level least.level × (low.at ≡ least.at)) }
{
    let level = least.level?;
    Some(Low {
        level,
        floor: None,
        at: least.at,
    })
}

// Returns the lesser of the least level and of the least level of a bound, if there are any.
fn lesser(least: Least, floor: Option<u64>) -> Option<Low>
    ensures low { (levels bounds : List ℕ) → IsLeast least.level levels → IsLeast floor bounds
        → IsLow result (levels ++ bounds) bounds }
    ensures at { IfSome result (λ low. IsUpTo low.level least.level × (low.at ≡ least.at)) }
{
    match floor {
        Some(bound) => Some(Low {
            level: lesser_of(least.level, bound),
            floor,
            at: least.at,
        }),
        None => unbounded(least),
    }
}

/// Finds the least of what limits the unfixed flows. Their bounds are read only if the lowest level reaches them.
pub fn lowest(
    system: &System,
    touched: &[usize],
    reached: &[usize],
    filling: &Filling,
    floor: Option<u64>,
) -> Option<Low>
    requires { IsUnderWay system.now touched.now reached.now floor filling.now }
    ensures low { IsLow result
        (unfixed_limits system.now.slots filling.now.fixed.items filling.now.levels.items
        touched.now)
        (unfixed_bounds system.now.slots filling.now.fixed.items touched.now) }
    ensures at { IfSome result (λ low. AreTaken reached.now low filling.now) }
{
    let least = least_level(reached, filling);
    match below_bounds(least, floor) {
        Some(low) => Some(low),
        None => lesser(least, lowest_bound(system, touched, &filling.fixed)),
    }
}
