//! Which points are finalized.
ghost use Rattle.std.specs.Prelude.{◌≡◌, ◌<◌, ◌≤◌, ◌++◌, [], ◌∷◌, length, vec_capacity, slice_get, IsNone, IfSome};
ghost use Rattle.sg_paths.specs.Trail.{first_settled, HasPlaces, IsNew, IsSettledAt};

use crate::trail::Settled;

/// The finalized points (`Settled`), and the place of each.
#[derive(Clone, Copy)]
pub struct Known<'a> {
    pub settled: &'a Vec<Settled>,
    pub places: &'a Vec<usize>,
}

/// Returns the place of a point, if it is finalized.
pub fn settled_at(known: Known<'_>, point: u32) -> Option<usize>
    ensures { IfSome result (λ place. IsSettledAt known.entry.settled.now.items place point) }
{
    let place = known.places.get(point as usize)?;
    match known.settled.get(*place) {
        Some(other) if other.point == point => Some(*place),
        _ => None,
    }
}

/// Returns the place of a finalized point.
pub fn place_of(settled: &[Settled], places: &[usize], point: u32) -> Option<usize>
    requires places { HasPlaces settled.now places.now }
    requires point { point < length places.now }
    ensures some { IfSome result (λ place. IsSettledAt settled.now place point) }
    ensures none { IsNone result → IsNew settled.now point }
{
    let place = places[point as usize];
    match settled.get(place) {
        Some(other) if other.point == point => Some(place),
        _ => None,
    }
}

/// Finalizes a point that isn't yet.
pub fn settle(settled: &mut Vec<Settled>, places: &mut Vec<usize>, hop: Settled)
    requires places { HasPlaces settled.old.items places.old.items }
    requires new { IsNew settled.old.items hop.point }
    requires point { hop.point < length places.old.items }
    requires room { length places.old.items ≤ vec_capacity settled.old }
    ensures settled { settled.new.items ≡ settled.old.items ++ hop ∷ [] }
    ensures places { HasPlaces settled.new.items places.new.items }
    ensures count { length places.new.items ≡ length places.old.items }
    ensures fits { length settled.new.items ≤ length places.new.items }
    ensures capacity { vec_capacity settled.new ≡ vec_capacity settled.old }
{
    places[hop.point as usize] = settled.len();
    settled.push_reserved(hop);
}

/// Forgets what is finalized, and finalizes the point where paths end.
pub fn begin(settled: &mut Vec<Settled>, places: &mut Vec<usize>, to: u32)
    requires point { to < length places.old.items }
    requires room { length places.old.items ≤ vec_capacity settled.old }
    ensures settled { settled.new.items ≡ first_settled to ∷ [] }
    ensures places { HasPlaces settled.new.items places.new.items }
    ensures count { length places.new.items ≡ length places.old.items }
    ensures fits { length settled.new.items ≤ length places.new.items }
    ensures capacity { vec_capacity settled.new ≡ vec_capacity settled.old }
{
    settled.clear();
    let first = Settled {
        point: to,
        route: 0,
        next: 0,
    };
    settle(settled, places, first);
}
