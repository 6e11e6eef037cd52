//! Routes to finalized points, traversed backwards a link at a time.
ghost use Rattle.std.specs.Prelude.{◌≡◌, ◌+◌, ◌*◌, ◌/◌, ◌^◌, ◌<◌, ◌≤◌, ℕ, None, length};
ghost use Rattle.sg_heap.specs.Agenda.{key_at};
ghost use Rattle.sg_paths.specs.Ahead.{EntersFrom, GoesBack, HasPlaceFor, MayGoBack};
ghost use Rattle.sg_paths.specs.Arrivals.{AreArrivals};
ghost use Rattle.sg_paths.specs.Trail.{links_at};

use crate::arrivals::Arrivals;
use crate::route::PathRoute;
use crate::settle::{Known, settled_at};
use crate::trail::links_at;
use sg_base::{LinkId, Serial};
use sg_heap::Agenda;

/// Of each route to a finalized point how many of its links lie ahead of it, and its key: how many links follow it up
/// to the end of all paths, the first of these, and the rank of the list of the others.
#[derive(Drop)]
pub struct Ahead {
    pub agenda: Agenda,
    pub left: Vec<usize>,
}

/// The key of a list of links that was once the next one, and its rank among all such lists.
#[derive(Clone, Copy)]
pub struct Mark {
    pub date: u128,
    pub serial: u64,
    pub rank: u64,
}

/// Clears all: no route is traversed any more.
pub fn clear(ahead: &mut Ahead)
    ensures keys { (i : ℕ) → key_at ahead.new.agenda i ≡ None }
    ensures slots { length ahead.new.agenda ≡ length ahead.old.agenda }
    ensures lefts { ahead.new.left ≡ ahead.old.left }
{
    while let Some((i, _, _)) = ahead.agenda.least() {
        ahead.agenda.clear(i);
    }
}

/// Returns the first part of the key of a list with one more link before it.
fn date_with(date: u128, link: LinkId) -> u128
    requires { date < 2 ^ 100 }
    ensures date { result ≡ (date / 4294967296 + 1) * 4294967296 + link.0 }
    ensures fits { link.0 < 4294967296 }
{
    (date / 4294967296 + 1) * 4294967296 + u128::from(link.0)
}

/// Moves a route back over a link. If none lies ahead, as at the end of a route without links, its key is that of the
/// list itself.
pub fn go_back(routes: &[PathRoute], ahead: &mut Ahead, i: usize, left: usize, mark: Mark)
    requires route { i < length routes.now }
    requires places { HasPlaceFor routes.now ahead.old }
    requires left { left ≤ length (links_at routes.now i) }
    requires small { mark.date < 2 ^ 100 }
    ensures { GoesBack routes.now i left mark ahead.old ahead.new }
{
    if left == 0 {
        ahead.left[i] = 0;
        ahead.agenda.set(i, mark.date, Serial(mark.serial));
    } else {
        let link = links_at(routes, i)[left - 1];
        ahead.left[i] = left - 1;
        let date = date_with(mark.date, link);
        ahead.agenda.set(i, date, Serial(mark.rank));
    }
}

/// Moves a route back over its last link, unless it begins at a finalized point: no path to be found takes it then.
fn enter_one(routes: &[PathRoute], known: Known<'_>, ahead: &mut Ahead, i: usize, mark: Mark)
    requires route { i < length routes.now }
    requires places { HasPlaceFor routes.now ahead.old }
    requires small { mark.date < 2 ^ 100 }
    ensures { MayGoBack routes.now known.entry.settled.now.items i mark ahead.old ahead.new }
{
    if let Some(_place) = settled_at(known, routes[i].from) {
        return;
    }
    let left = links_at(routes, i).len();
    go_back(routes, ahead, i, left, mark);
}

/// Moves the routes from points that aren't finalized to one that just was back over their last links.
pub fn enter(
    routes: &[PathRoute],
    arrivals: &Arrivals,
    known: Known<'_>,
    ahead: &mut Ahead,
    point: u32,
    mark: Mark,
)
    requires arrivals { AreArrivals (length arrivals.now.last.items) routes.now arrivals.now }
    requires point { point < length arrivals.now.last.items }
    requires places { HasPlaceFor routes.now ahead.old }
    requires small { mark.date < 2 ^ 100 }
    ensures { EntersFrom routes.now known.entry.settled.now.items point 0 mark ahead.old ahead.new }
{
    let mut next = arrivals.last[point as usize];
    while next > 0 {
        let i = next - 1;
        enter_one(routes, known, ahead, i, mark);
        next = arrivals.before[i];
    }
}
