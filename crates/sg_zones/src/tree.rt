//! The faults of the zone tree itself.
ghost use Rattle.std.specs.Prelude.{◌≡◌, ◌≤◌, length, IfOk};
ghost use Rattle.sg_zones.specs.Faults.{ancestor_fault, first_along, roots, root_fault, tree_fault};
ghost use Rattle.sg_zones.specs.declared.fault.ZoneFault.TheVariants.{ParentCycle, TooDeep};

use crate::fault::{ZoneFault, place};
use crate::paths::ancestors_of;
use sg_base::{Memory, ZoneId};
use sg_platform_rows::ZoneRow;
use sg_toml_tree::Place;
use std::alloc::Global;

/// Reports that there is no root, or a second one.
fn root_fault(zones: &[ZoneRow]) -> Option<ZoneFault>
    requires { length zones.now ≤ 1024 }
    ensures { result ≡ root_fault (roots 1 zones.now) }
{
    let mut found = false;
    for (i, row) in zones.iter().enumerate() {
        if row.parent.is_none() {
            if found {
                return Some(ZoneFault::TwoRoots(place(1, i, 2)));
            }
            found = true;
        }
    }
    if found {
        return None;
    }
    Some(ZoneFault::NoRoot(Place {
        table: 1,
        row: 0,
        key: 0,
    }))
}

/// Returns the first zone that never reaches the root.
fn first_cycle(ancestors: &[Option<ZoneId>]) -> Option<ZoneFault>
    requires { length ancestors.now ≤ 1024 }
    ensures { result ≡ first_along (ancestor_fault ParentCycle) 0 ancestors.now }
{
    for (i, ancestor) in ancestors.iter().enumerate() {
        if ancestor.is_some() {
            return Some(ZoneFault::ParentCycle(place(1, i, 2)));
        }
    }
    None
}

/// Returns the first zone that is too deep.
fn first_deep(ancestors: &[Option<ZoneId>]) -> Option<ZoneFault>
    requires { length ancestors.now ≤ 1024 }
    ensures { result ≡ first_along (ancestor_fault TooDeep) 0 ancestors.now }
{
    for (i, ancestor) in ancestors.iter().enumerate() {
        if ancestor.is_some() {
            return Some(ZoneFault::TooDeep(place(1, i, 2)));
        }
    }
    None
}

/// Returns the first fault of the tree itself.
pub(crate) fn tree_fault(alloc: Global, zones: &[ZoneRow]) -> Result<Option<ZoneFault>, Memory>
    requires { length zones.now ≤ 1024 }
    ensures { IfOk result (λ fault. fault ≡ tree_fault zones.now) }
{
    if let Some(fault) = root_fault(zones) {
        return Ok(Some(fault));
    }
    // 1,024 steps up, as many as there can be zones.
    let far = ancestors_of(alloc, zones, 10)?;
    if let Some(fault) = first_cycle(&far) {
        return Ok(Some(fault));
    }
    let near = ancestors_of(alloc, zones, 4)?;
    Ok(first_deep(&near))
}
