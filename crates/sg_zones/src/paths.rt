//! Of each zone the zone so many steps up, and the zones from the root down to it.
ghost use Rattle.std.specs.Prelude.{◌≡◌, ◌≤◌, ◌++◌, ◌^◌, length, IfOk, OnOk, None, map, option_and_then, slice_index_or};
ghost use Rattle.std.specs.List.{range_with_len};
ghost use Rattle.sg_zones.specs.Paths.{ancestors_of, parent_zone, path};

use sg_base::{Memory, ZoneId};
use sg_platform_rows::ZoneRow;
use std::alloc::Global;
use std::marker::Model;

/// The zones from the root down to one zone, which contracts see as a list.
#[derive(Drop)]
pub(crate) struct Path {
    pub(crate) zones: Vec<ZoneId>,
}

impl Model for Path {
    ghost use Rattle.std.specs.Prelude.{List};
    ghost use Rattle.sg_base.specs.declared.ids.ZoneId.{ZoneId};

    ghost Value = { List ZoneId };

    ghost view = { λ p. p.zones.items };

    ghost use Rattle.std.specs.Prelude.{◌≤◌, length};

    ghost invariant = { λ p. length p.zones.items ≤ 16 };
}

impl Path {
    pub(crate) fn copy(&self, alloc: Global) -> Result<Path, Memory>
        ensures { IfOk result (λ path. path ≡ self.now) }
    {
        let zones = Vec::from_slice(alloc, self.zones.as_slice())?;
        Ok(Path { zones })
    }
}

/// Returns the parent of a zone.
fn parent(zones: &[ZoneRow], zone: ZoneId) -> Option<ZoneId>
    ensures { result ≡ parent_zone zones.now zone }
{
    zones.get(zone.0 as usize)?.parent
}

/// Returns the parent of each zone.
pub(crate) fn parents_of(alloc: Global, zones: &[ZoneRow]) -> Result<Vec<Option<ZoneId>>, Memory>
    ensures { IfOk result (λ made. made.items ≡ map (λ row. row.parent) zones.now) }
{
    let mut made = Vec::new(alloc);
    for row in zones {
        made.push(row.parent)?;
    }
    Ok(made)
}

/// Returns what stands in the list for this zone.
fn look_up(ancestors: &[Option<ZoneId>], zone: ZoneId) -> Option<ZoneId>
    ensures { result ≡ slice_index_or ancestors.now zone.0 None }
{
    *ancestors.get(zone.0 as usize)?
}

/// Returns for each zone the ancestor of its ancestor.
fn twice(alloc: Global, ancestors: &[Option<ZoneId>]) -> Result<Vec<Option<ZoneId>>, Memory>
    ensures { IfOk result (λ made. made.items
        ≡ map (option_and_then (λ zone. slice_index_or ancestors.now zone.0 None)) ancestors.now) }
{
    let mut made = Vec::new(alloc);
    for ancestor in ancestors {
        made.push(ancestor.and_then(|zone| look_up(ancestors, zone)))?;
    }
    Ok(made)
}

/// Returns for each zone its ancestor after `2 ^ doublings` steps up.
#[tactic(auto, using(crate::proofs::Ancestors::parents_are, crate::proofs::Ancestors::ancestors_many))]
pub(crate) fn ancestors_of(
    alloc: Global,
    zones: &[ZoneRow],
    doublings: u32,
) -> Result<Vec<Option<ZoneId>>, Memory>
    ensures ancestors { IfOk result (λ made. made.items ≡ ancestors_of (2 ^ doublings) zones.now) }
    ensures many { IfOk result (λ made. length made.items ≡ length zones.now) }
{
    let mut ancestors = parents_of(alloc, zones)?;
    for _ in 0..doublings {
        ancestors = twice(alloc, &ancestors)?;
    }
    Ok(ancestors)
}

/// Writes the path down to a zone, of so many zones at most.
#[tactic(auto, using(crate::proofs::PathLemmas::path_step, crate::proofs::PathLemmas::path_zero))]
fn push_path(
    zones: &[ZoneRow],
    levels: u32,
    zone: ZoneId,
    out: &mut Vec<ZoneId>,
) -> Result<(), Memory>
    ensures { OnOk result (out.new.items ≡ out.old.items ++ path levels zones.now zone) }
{
    if levels == 0 {
        return Ok(());
    }
    match parent(zones, zone) {
        Some(above) => {
            push_path(zones, levels - 1, above, out)?;
            out.push(zone)?;
            Ok(())
        }
        None => {
            out.push(zone)?;
            Ok(())
        }
    }
}

/// Returns the path down to each zone.
#[tactic(auto, using(crate::proofs::PathLemmas::path_short))]
pub(crate) fn paths_of(alloc: Global, zones: &[ZoneRow]) -> Result<Vec<Path>, Memory>
    requires { length zones.now ≤ 1024 }
    ensures { IfOk result (λ paths. paths.items
        ≡ map (λ i. path 16 zones.now (record { 0 = i })) (range_with_len 0 (length zones.now))) }
{
    let mut paths = Vec::new(alloc);
    for i in 0..zones.len() {
        let mut path = Vec::new(alloc);
        push_path(zones, 16, ZoneId(i as u32), &mut path)?;
        paths.push(Path { zones: path })?;
    }
    Ok(paths)
}
