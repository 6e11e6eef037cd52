//! Routes: what the flows over them use, and what bounds them.

ghost use Rattle.std.specs.Prelude.{◌≡◌, ◌+◌, ◌-◌, ◌<◌, ◌≤◌, ◌^◌, [], ◌∷◌, ◌++◌, All, length};
ghost use Rattle.sg_base.specs.declared.ids.LinkId.{LinkId};
ghost use Rattle.sg_activity_table.specs.Slots.{sooner};
ghost use Rattle.sg_activity.specs.Task.{over};
ghost use Rattle.sg_activity.specs.kept.Index.{used_at};
ghost use Rattle.sg_activity.specs.kept.Rows.{IsWayRow, link_of, row_at, way_in};
ghost use Rattle.sg_activity.specs.Links.{bound_of_link, route_bound, shared_of};

use crate::index::Index;
use arrayvec::ArrayVec;
use sg_activity_table::LinkCap;
use sg_base::LinkId;

/// Returns the less of two bounds.
pub(crate) fn tighter(bound: Option<u64>, other: Option<u64>) -> Option<u64>
    ensures { result ≡ sooner bound other }
{
    match (bound, other) {
        (Some(bound), Some(other)) => Some(bound.min(other)),
        (None, _) => other,
        (_, None) => bound,
    }
}

// Returns what bounds each flow over the link by itself.
fn own_bound(link: &LinkCap) -> Option<u64>
    ensures { result ≡ bound_of_link link.now }
{
    if link.fatpipe {
        Some(link.bandwidth)
    } else {
        None
    }
}

/// Returns the least bandwidth of the FATPIPE links of a route.
pub(crate) fn bound_of(links: &[LinkCap], route: &[LinkId]) -> Option<u64>
    requires { All (λ (link : LinkId). link.0 < length links.now) route.now }
    ensures { result ≡ route_bound links.now route.now }
{
    let mut bound = None;
    for link in route {
        bound = tighter(bound, own_bound(&links[link.0 as usize]));
    }
    bound
}

/// Writes the resources of a route: the links that its flows share with others. In front of the links stand so many
/// hosts.
pub(crate) fn write_uses(
    hosts: usize,
    links: &[LinkCap],
    route: &[LinkId],
    uses: &mut ArrayVec<usize, 64>,
)
    requires exist { All (λ (link : LinkId). link.0 < length links.now) route.now }
    requires few { length route.now ≤ 64 }
    requires fits { hosts + length links.now < 2 ^ 64 }
    ensures { uses.new.items ≡ shared_of hosts links.now route.now }
{
    uses.clear();
    for link in route {
        if !links[link.0 as usize].fatpipe {
            uses.push(hosts + link.0 as usize);
        }
    }
}

/// Writes the things of a route: all its links, and the hosts of the sender and the receiver as its ends. Before the
/// links come so many hosts, and after so many links the ends.
pub(crate) fn write_things(
    hosts: usize,
    links: usize,
    route: &[LinkId],
    sender: usize,
    receiver: usize,
    things: &mut ArrayVec<usize, 66>,
)
    requires few { length route.now ≤ 64 }
    requires exist { All (λ (link : LinkId). link.0 < links) route.now }
    requires ends { (sender < hosts) × (receiver < hosts) }
    requires fits { hosts + links + hosts < 2 ^ 64 }
    ensures { things.new.items ≡ used_at hosts links
        (over (record { links = route.now; sender = sender; receiver = receiver })) }
{
    things.clear();
    things.push(hosts + links + sender);
    things.push(hosts + links + receiver);
    for link in route {
        things.push(hosts + link.0 as usize);
    }
}

// Appends the thing at a place of a communication's uses to its links, unless it is one of the two ends.
fn put_link(links: &mut ArrayVec<LinkId, 64>, hosts: usize, place: usize, thing: usize)
    requires room { 2 ≤ place → length links.old.items < 64 }
    requires behind { 2 ≤ place → hosts ≤ thing }
    requires small { 2 ≤ place → thing - hosts < 2 ^ 32 }
    ensures end { place < 2 → links.new.items ≡ links.old.items }
    ensures link { 2 ≤ place → links.new.items ≡ links.old.items ++ link_of hosts thing ∷ [] }
{
    if place >= 2 {
        links.push(LinkId((thing - hosts) as u32));
    }
}

/// Writes the links of a communication's route, by its key, from the index. Before the links come so many hosts.
pub(crate) fn write_way(index: &Index, key: usize, hosts: usize, links: &mut ArrayVec<LinkId, 64>)
    requires key { key < length index.now.rows }
    requires way { IsWayRow hosts (row_at index.now.rows key) }
    ensures { links.new.items ≡ way_in hosts (row_at index.now.rows key) }
{
    links.clear();
    let mut place = 0;
    let mut at = index.first_of(key);
    while let Some(i) = at {
        let one = index.look(i);
        put_link(links, hosts, place, one.resource);
        place += 1;
        at = one.next_of_flow;
    }
}

/// Returns the same links, for a caller that has no place for them.
pub(crate) fn way_of(index: &Index, key: usize, hosts: usize) -> ArrayVec<LinkId, 64>
    requires key { key < length index.now.rows }
    requires way { IsWayRow hosts (row_at index.now.rows key) }
    ensures { result.items ≡ way_in hosts (row_at index.now.rows key) }
{
    let mut links = ArrayVec::new();
    write_way(index, key, hosts, &mut links);
    links
}
