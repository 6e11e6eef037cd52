//! Shortest paths that were asked for before.
ghost use Rattle.std.specs.Prelude.{◌≡◌, ◌≤◌, IfOk, IfSome, length, vec_capacity};
ghost use Rattle.std.specs.Bool.{OnTrue};
ghost use Rattle.sg_paths.specs.Asked.{AreFree, AreHeld, MayHoldMore};

use crate::trail::add;
use arrayvec::ArrayVec;
use sg_base::{LinkId, Memory};
use std::alloc::Global;

/// The most links of a path that is stored.
pub const MOST: usize = 128;

/// How many places are looked at for two points.
const WAYS: usize = 4;

/// The links of the shortest path from a point to another, if they are few enough.
#[derive(Drop)]
pub struct Asked {
    pub from: u32,
    pub to: u32,
    pub links: ArrayVec<LinkId, 128>,
}

/// Makes room for so many paths, of which none is stored.
pub fn room_for(alloc: Global, places: usize) -> Result<Vec<Option<Asked>>, Memory>
    ensures { IfOk result (λ asked. AreFree asked.items) }
{
    let mut asked = Vec::new(alloc);
    'filling: for _place in 0..places {
        asked.push(None)?;
    }
    Ok(asked)
}

/// Returns the first place that is tried for two points.
fn first_place(from: u32, to: u32, places: usize) -> usize {
    let mixed = (u64::from(from) << 32 | u64::from(to)).wrapping_mul(0x9e37_79b9_7f4a_7c15);
    (mixed >> 32)
        .checked_rem(places as u64)
        .map_or(0, |place| place as usize)
}

/// Returns the links that are stored at a place, if they are those of these points.
fn links_at(asked: &[Option<Asked>], place: usize, from: u32, to: u32) -> Option<&[LinkId]>
    ensures held { IfSome result (λ links. AreHeld asked.now from to links.now) }
    ensures few { IfSome result (λ links. length links.now ≤ 128) }
{
    match asked.get(place) {
        Some(Some(one)) if one.from == from && one.to == to => Some(one.links.as_slice()),
        _ => None,
    }
}

/// Returns the place at which those of two points are stored, if they are.
fn held_place(asked: &[Option<Asked>], from: u32, to: u32) -> usize {
    let first = first_place(from, to, asked.len());
    for step in 0..WAYS {
        let place = first.wrapping_add(step);
        if links_at(asked, place, from, to).is_some() {
            return place;
        }
    }
    first
}

/// Writes the links that are stored for two points, and returns whether any are.
pub fn recall(asked: &[Option<Asked>], from: u32, to: u32, best: &mut Vec<LinkId>) -> bool
    requires room { 128 ≤ vec_capacity best.old }
    ensures yes { OnTrue result (AreHeld asked.now from to best.new.items) }
    ensures capacity { vec_capacity best.new ≡ vec_capacity best.old }
{
    let place = held_place(asked, from, to);
    match links_at(asked, place, from, to) {
        Some(links) => {
            best.clear();
            add(links, best);
            true
        }
        None => false,
    }
}

/// Returns whether no path is stored at a place.
fn is_free(asked: &[Option<Asked>], place: usize) -> bool {
    matches!(asked.get(place), Some(None))
}

/// Returns the first free place for two points, or the first of all if no place is free.
fn place_for(asked: &[Option<Asked>], from: u32, to: u32) -> usize {
    let first = first_place(from, to, asked.len());
    for step in 0..WAYS {
        let place = first.wrapping_add(step);
        if is_free(asked, place) {
            return place;
        }
    }
    first
}

/// Returns a copy of these links.
fn copy_of(links: &[LinkId]) -> ArrayVec<LinkId, 128>
    requires { length links.now ≤ 128 }
    ensures { result.items ≡ links.now }
{
    let mut copy = ArrayVec::new();
    for link in links {
        copy.push(*link);
    }
    copy
}

/// Stores the links of the shortest path between two points, if they are few enough.
pub fn hold(asked: &mut Vec<Option<Asked>>, from: u32, to: u32, links: &[LinkId])
    ensures { MayHoldMore asked.old.items asked.new.items from to links.now }
{
    if links.len() > MOST {
        return;
    }
    let place = place_for(asked.as_slice(), from, to);
    if place >= asked.len() {
        return;
    }
    let one = Asked {
        from,
        to,
        links: copy_of(links),
    };
    asked[place] = Some(one);
}
