//! The lowest zone that holds two points.
ghost use Rattle.std.specs.Prelude.{◌≡◌};
ghost use Rattle.sg_route.specs.Leg.{child_towards, lowest_leg};

use sg_base::{Child, PointId, ZoneId};

/// A zone, and two children of it between which a route needs a local route.
#[derive(Clone, Copy)]
pub struct Leg {
    pub zone: ZoneId,
    pub from: Child,
    pub to: Child,
}

/// Returns the child at which the rest of a path begins: its first zone, or the point itself.
fn child_towards(point: PointId, rest: &[ZoneId]) -> Child
    ensures { result ≡ child_towards point rest.now }
{
    match rest {
        [] => Child::Point(point),
        [zone, ..] => Child::Zone(*zone),
    }
}

/// Returns the last zone that both paths share, if `last` is that above them, and its children on the two paths.
pub(crate) fn lowest_leg(
    last: ZoneId,
    from: PointId,
    to: PointId,
    above_from: &[ZoneId],
    above_to: &[ZoneId],
) -> Leg
    ensures { result ≡ lowest_leg last from to above_from.now above_to.now }
{
    if let [x, rest_from @ ..] = above_from {
        if let [y, rest_to @ ..] = above_to {
            if x.0 == y.0 {
                return lowest_leg(*x, from, to, rest_from, rest_to);
            }
        }
    }
    Leg {
        zone: last,
        from: child_towards(from, above_from),
        to: child_towards(to, above_to),
    }
}
