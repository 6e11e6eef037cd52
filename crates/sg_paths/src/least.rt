//! The search for a shortest path.
ghost use Rattle.std.specs.Prelude.{◌≡◌, ◌<◌, ◌≤◌, length};
ghost use Rattle.std.specs.Bool.{OnFalse, OnTrue};
ghost use Rattle.sg_paths.specs.Reach.{CanFind, FindsLeast, IsRoomy};
ghost use Rattle.sg_paths.specs.Trail.{HasPlaces, IsNew, IsSettled, IsSettledAt, IsWritten, LeadsBack};
ghost use Rattle.sg_paths.specs.Trees.{IsTree};

use crate::ahead::{Ahead, Mark, clear, enter, go_back};
use crate::arrivals::Arrivals;
use crate::route::PathRoute;
use crate::settle::{Known, begin, place_of, settle};
use crate::trail::{Settled, write_links};
use sg_base::LinkId;

/// The mark of the empty list, which comes first.
const FIRST: Mark = Mark {
    date: 0,
    serial: 0,
    rank: 0,
};

/// Room for a search: the finalized points, the place of each, the routes to them that are traversed backwards, and the
/// links of a path.
#[derive(Drop)]
pub struct Reach {
    pub settled: Vec<Settled>,
    pub places: Vec<usize>,
    pub ahead: Ahead,
    pub best: Vec<LinkId>,
    pub most: usize,
}

/// Returns whether a point is finalized, and at least so many are.
fn is_enough(reach: &Reach, from: u32, points: usize) -> bool
    requires places { HasPlaces reach.now.settled.items reach.now.places.items }
    requires from { from < length reach.now.places.items }
    ensures { OnTrue result (IsSettled reach.now.settled.items from) }
{
    reach.settled.len() >= points
        && place_of(reach.settled.as_slice(), reach.places.as_slice(), from).is_some()
}

/// Returns whether a point is finalized; if so, the links of its path are the best list.
fn write_path(routes: &[PathRoute], reach: &mut Reach, from: u32) -> bool
    requires roomy { IsRoomy routes.now (length reach.old.places.items) reach.old }
    requires back { LeadsBack reach.old.settled.items }
    requires places { HasPlaces reach.old.settled.items reach.old.places.items }
    requires fits { length reach.old.settled.items ≤ length reach.old.places.items }
    requires from { from < length reach.old.places.items }
    requires apart { IsSettledAt reach.old.settled.items 0 from → ⊥ }
    ensures yes { OnTrue result
        (IsWritten routes.now reach.old.settled.items from reach.new.best.items) }
    ensures no { OnFalse result (IsNew reach.old.settled.items from) }
    ensures roomy { IsRoomy routes.now (length reach.old.places.items) reach.new }
    ensures settled { reach.new.settled.items ≡ reach.old.settled.items }
{
    let (settled, places) = (reach.settled.as_slice(), reach.places.as_slice());
    let Some(place) = place_of(settled, places, from) else {
        return false;
    };
    let hop = settled[place];
    write_links(routes, settled, hop, reach.most, &mut reach.best);
    true
}

/// Returns whether there is a path; if so, the shortest one's links are the best list.
///
/// Points are finalized from `to` on, the one with the shortest path first, until `from` is, and at least so many are:
/// the routes from others to those that are finalized are traversed backwards a link at a time, the one first whose list
/// from where it stands is least.
pub fn find(
    routes: &[PathRoute],
    arrivals: &Arrivals,
    reach: &mut Reach,
    from: u32,
    to: u32,
    points: usize,
) -> bool
    requires { CanFind routes.now arrivals.now from to reach.old }
    ensures path { FindsLeast routes.now from to result reach.old reach.new }
    ensures tree { IsTree routes.now to reach.new.settled.items }
{
    begin(&mut reach.settled, &mut reach.places, to);
    clear(&mut reach.ahead);
    let (settled, places) = (&reach.settled, &reach.places);
    let known = Known { settled, places };
    enter(routes, arrivals, known, &mut reach.ahead, to, FIRST);
    let mut rank: u64 = 0;
    'settling: while let Some((i, date, serial)) = reach.ahead.agenda.least() {
        if is_enough(reach, from, points) {
            return write_path(routes, reach, from);
        }
        let mark = Mark {
            date,
            serial: serial.0,
            rank: rank + 1,
        };
        let left = reach.ahead.left[i];
        if left > 0 {
            go_back(routes, &mut reach.ahead, i, left, mark);
            rank += 1;
            continue;
        }
        reach.ahead.agenda.clear(i);
        let point = routes[i].from;
        if let Some(_known) = place_of(reach.settled.as_slice(), reach.places.as_slice(), point) {
            continue;
        }
        let hop = Settled {
            point,
            route: i,
            next: reach.places[routes[i].to as usize],
        };
        settle(&mut reach.settled, &mut reach.places, hop);
        let (settled, places) = (&reach.settled, &reach.places);
        let known = Known { settled, places };
        enter(routes, arrivals, known, &mut reach.ahead, point, mark);
        rank += 1;
    }
    write_path(routes, reach, from)
}
