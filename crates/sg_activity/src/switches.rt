//! Hosts and links that are turned off and on, and the activities that use what is off.

ghost use Rattle.std.specs.Prelude.{◌≡◌, ◌<◌, ◌+◌, ◌||◌, All, length, slice_set};
ghost use Rattle.std.specs.List.{list_any};
ghost use Rattle.sg_base.specs.declared.ids.LinkId.{LinkId};
ghost use Rattle.sg_maxmin.specs.Chained.{users_on};
ghost use Rattle.sg_activity.specs.Links.{is_off};
ghost use Rattle.sg_activity.specs.Task.{is_cut, uses_off as uses_off_spec};
ghost use Rattle.sg_activity.specs.kept.Hits.{AreLooked, AreSwitches, hit_in, noted};
ghost use Rattle.sg_activity_table.specs.Pool.{slot_at};
ghost use Rattle.sg_activity.specs.kept.Sound.{place_at};
ghost use Rattle.sg_activity.specs.kept.State.{links_at, state_of, ways_of};
ghost use Rattle.sg_activity.specs.kept.Whole.{CanSwitch};
ghost use Rattle.sg_activity.specs.kept.Asks.{CanLook, IsPlacedAt, IsSwitched};

use crate::activity_state::Kept;
use crate::routes::way_of;
use sg_activity_table::{Live, Place};
use sg_base::{LinkId, Serial};
use sg_heap::Agenda;

// Returns whether one of the links is off.
fn any_off(on: &[bool], links: &[LinkId]) -> bool
    requires { All (λ (link : LinkId). link.0 < length on.now) links.now }
    ensures { result ≡ list_any (λ (link : LinkId). is_off on.now link.0) links.now }
{
    for link in links {
        if !on[link.0 as usize] {
            return true;
        }
    }
    false
}

/// Returns whether something is off of these links and of the hosts at both ends.
pub(crate) fn is_way_cut(kept: &Kept, links: &[LinkId], sender: usize, receiver: usize) -> bool
    requires links { All (λ (link : LinkId). link.0 < length kept.now.links_on.items) links.now }
    requires sender { sender < length kept.now.hosts_on.items }
    requires receiver { receiver < length kept.now.hosts_on.items }
    ensures { result ≡ is_cut (state_of kept.now).on
        (record { links = links.now; sender = sender; receiver = receiver }) }
{
    any_off(&kept.links_on, links) || !kept.hosts_on[sender] || !kept.hosts_on[receiver]
}

// Returns whether the activity under a key uses something that is off.
fn uses_off(kept: &Kept, key: usize, live: &Live) -> bool
    requires at { IsPlacedAt kept.now key live.now }
    requires switches { AreSwitches kept.now }
    ensures { result ≡ uses_off_spec (state_of kept.now).on
        (place_at (state_of kept.now) key live.now) }
{
    match live.place {
        Place::OnHost(host) => !kept.hosts_on[host.0 as usize],
        Place::Over {
            sender,
            receiver,
            ..
        } => {
            let way = way_of(&kept.index, key, kept.hosts.len());
            is_way_cut(kept, way.as_slice(), sender.0 as usize, receiver.0 as usize)
        }
        Place::Nowhere => false,
    }
}

/// Notes the activity that begins under a key, if it uses something that is off.
pub(crate) fn note_hit(hits: &mut Agenda, key: usize, serial: Serial, off: bool)
    requires { key < length hits.old }
    ensures { hits.new ≡ noted off key serial.0 hits.old }
{
    if off {
        hits.set(key, 0, serial);
    }
}

// Notes whether the activity under a key uses something that is off.
fn update_hit(kept: &Kept, hits: &mut Agenda, key: usize)
    requires key { key < length kept.now.lives.slots }
    requires look { CanLook kept.now hits.old }
    ensures { hits.new ≡ slice_set hits.old key
        (hit_in (state_of kept.now).on (links_at (ways_of kept.now) key)
        (slot_at kept.now.lives.slots key)) }
{
    let Some(live) = kept.lives.get(key) else {
        hits.clear(key);
        return;
    };
    if uses_off(kept, key, &live) {
        hits.set(key, 0, Serial(live.serial));
    } else {
        hits.clear(key);
    }
}

// Does the same for each activity that uses a thing.
fn update_hits(kept: &Kept, hits: &mut Agenda, thing: usize)
    requires thing { thing < length kept.now.index.users }
    requires keys { All (λ key. key < length kept.now.lives.slots)
        (users_on kept.now.index.users thing) }
    requires look { CanLook kept.now hits.old }
    ensures { AreLooked (state_of kept.now).on kept.now.lives.slots (ways_of kept.now)
        hits.old hits.new (users_on kept.now.index.users thing) }
{
    let mut at = kept.index.first_on(thing);
    while let Some(i) = at {
        let one = kept.index.look(i);
        update_hit(kept, hits, one.flow);
        at = one.next_on;
    }
}

/// Puts a host on or off: an execution there uses it, and a communication from it or to it.
pub(crate) fn set_host_on(kept: &mut Kept, hits: &mut Agenda, host: usize, on: bool)
    requires host { host < length kept.old.hosts.items }
    requires can { CanSwitch kept.old hits.old }
    ensures { IsSwitched kept.old kept.new hits.new
        (record (state_of kept.old).on { hosts = slice_set kept.old.hosts_on.items host on }) }
{
    kept.index.is_both_ways();
    let end = kept.hosts.len() + kept.links.len() + host;
    kept.hosts_on[host] = on;
    update_hits(kept, hits, host);
    update_hits(kept, hits, end);
}

/// Puts a link on or off.
pub(crate) fn set_link_on(kept: &mut Kept, hits: &mut Agenda, link: usize, on: bool)
    requires link { link < length kept.old.links.items }
    requires can { CanSwitch kept.old hits.old }
    ensures { IsSwitched kept.old kept.new hits.new
        (record (state_of kept.old).on { links = slice_set kept.old.links_on.items link on }) }
{
    kept.index.is_both_ways();
    let thing = kept.hosts.len() + link;
    kept.links_on[link] = on;
    update_hits(kept, hits, thing);
}
