//! Hosts and links whose capacities change, and what bounds activities then.

ghost use Rattle.std.specs.Prelude.{◌≡◌, ◌≤◌, ◌<◌, ◌^◌, ◌+◌, ◌∷◌, [], All, Some, length};
ghost use Rattle.sg_maxmin.specs.Chained.{users_on};
ghost use Rattle.sg_activity.specs.Hosts.{IsHost};
ghost use Rattle.sg_activity.specs.Links.{at_bandwidth, at_speed};
ghost use Rattle.sg_activity.specs.kept.Bounds.{HasFlows, Rebounds, Resets};
ghost use Rattle.sg_activity.specs.kept.Asks.{IsPlacedAt};
ghost use Rattle.sg_activity.specs.kept.Sound.{IsSound};
ghost use Rattle.sg_activity.specs.kept.State.{asked_by, state_of};
ghost use Rattle.sg_activity.specs.kept.Whole.{IsUsed};

use crate::activity_state::Kept;
use crate::routes::{bound_of, tighter, way_of};
use sg_activity_table::{HostCap, LinkCap, Live, Place, takes_share};

// Returns what bounds the activity under a key, as its host or the links of its route are now.
fn bound_now(kept: &Kept, key: usize, live: &Live) -> Option<u64>
    requires { IsPlacedAt kept.now key live.now }
    ensures { result ≡ (asked_by (state_of kept.now) key live.now).bound }
{
    match live.place {
        Place::OnHost(host) => tighter(Some(kept.hosts[host.0 as usize].speed), live.bound),
        Place::Over { .. } => {
            let way = way_of(&kept.index, key, kept.hosts.len());
            tighter(bound_of(&kept.links, way.as_slice()), live.bound)
        }
        Place::Nowhere => live.bound,
    }
}

// Gives the flow of the activity under a key, if it has one, the bound that holds now.
fn update_bound(kept: &mut Kept, key: usize)
    requires key { key < length kept.old.lives.slots }
    requires flows { HasFlows kept.old }
    ensures { Rebounds kept.old kept.new (key ∷ []) }
{
    let Some(live) = kept.lives.get(key) else {
        return;
    };
    if !takes_share(live.kind) {
        return;
    }
    let Some(bound) = bound_now(kept, key, &live) else {
        return;
    };
    kept.lazy.set_bound(live.flow, bound);
}

// Gives the flows of the activities that use a thing the bounds that hold now.
fn update_bounds(kept: &mut Kept, thing: usize)
    requires thing { thing < length kept.old.index.users }
    requires keys { All (λ key. key < length kept.old.lives.slots)
        (users_on kept.old.index.users thing) }
    requires flows { HasFlows kept.old }
    ensures { Rebounds kept.old kept.new (users_on kept.old.index.users thing) }
{
    let mut at = kept.index.first_on(thing);
    while let Some(i) = at {
        let one = kept.index.look(i);
        update_bound(kept, one.flow);
        at = one.next_on;
    }
}

/// Gives each core of a host this speed from now on.
pub(crate) fn set_speed(kept: &mut Kept, host: usize, speed: u64)
    requires host { host < length kept.old.hosts.items }
    requires speed { speed ≤ 10 ^ 15 }
    requires hosts { All IsHost kept.old.hosts.items }
    requires sound { IsSound kept.old }
    requires used { IsUsed kept.old kept.old.index }
    ensures { Resets kept.old kept.new
        (at_speed host speed (state_of kept.old).capacities) host }
{
    kept.index.is_both_ways();
    let cap = kept.hosts[host];
    kept.hosts[host] = HostCap { speed, ..cap };
    kept.lazy.set_capacity(host, speed * u64::from(cap.cores));
    update_bounds(kept, host);
    kept.settled = false;
}

/// Gives a link this bandwidth from now on.
pub(crate) fn set_bandwidth(kept: &mut Kept, link: usize, bandwidth: u64)
    requires link { link < length kept.old.links.items }
    requires sound { IsSound kept.old }
    requires used { IsUsed kept.old kept.old.index }
    ensures { Resets kept.old kept.new
        (at_bandwidth link bandwidth (state_of kept.old).capacities)
        (length kept.old.hosts.items + link) }
{
    kept.index.is_both_ways();
    let resource = kept.hosts.len() + link;
    let fatpipe = kept.links[link].fatpipe;
    kept.links[link] = LinkCap { bandwidth, fatpipe };
    kept.lazy.set_capacity(resource, bandwidth);
    if fatpipe {
        update_bounds(kept, resource);
    }
    kept.settled = false;
}
