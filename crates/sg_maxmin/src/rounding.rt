//! How shares are rounded: a level is rounded down at a resource, and up at a bound.
ghost use Rattle.std.specs.Prelude.{◌≡◌, ◌<◌, ◌-◌, ◌*◌, ◌/◌, ◌^◌, None, Some, min, option_map};
ghost use Rattle.sg_maxmin.specs.Fill.{bounded, bound_level};
ghost use Rattle.sg_maxmin.specs.Step.{least_with};

/// Returns the share of a flow at a level: the level for each unit of its weight, and no more than its bound; the
/// greatest number if that is less.
pub fn share_at(weight: u32, bound: Option<u64>, level: u64) -> u64
    ensures capped { result ≡ min (bounded bound (weight * level)) (2 ^ 64 - 1) }
    ensures whole { (bound ≡ None → weight * level < 2 ^ 64)
        → result ≡ bounded bound (weight * level) }
{
    let share = (weight as u64).saturating_mul(level);
    match bound {
        None => share,
        Some(bound) => share.min(bound),
    }
}

/// Returns the level of a bound, if there is one: it is rounded up, so that there the flow has all of its bound.
pub fn level_of_bound(weight: u32, bound: Option<u64>) -> Option<u64>
    requires { 0 < weight }
    ensures { result ≡ option_map (bound_level weight) bound }
{
    let bound = bound?;
    Some(bound.div_ceil(weight as u64))
}

/// Returns the level of a resource: what remains for each unit of weight that waits, rounded down; 0 if none waits.
/// Often that weight is 1, and a division takes long.
pub fn level_of(left: u64, waiting: u64) -> u64
    ensures { result ≡ left / waiting }
{
    match waiting {
        0 => 0,
        1 => left,
        _ => left / waiting,
    }
}

/// Returns the smaller of a level and of what was found before, if anything was.
pub fn smaller(least: Option<u64>, level: u64) -> Option<u64>
    ensures { result ≡ Some (least_with least level) }
{
    match least {
        None => Some(level),
        Some(least) => Some(least.min(level)),
    }
}
