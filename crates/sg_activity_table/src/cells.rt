//! What is kept of an activity, in 96 bytes.
ghost use Rattle.std.specs.Prelude.{◌≡◌, None, Some, if◌then◌else◌};
ghost use Rattle.sg_activity_table.specs.Cells.{live_of as live_of_spec};

use crate::kinds::{PhaseKind, Place};
use crate::lives::Live;

/// An activity as it is kept.
#[derive(Clone, Copy)]
pub(crate) struct Cell {
    pub(crate) kept: u128,
    pub(crate) stamp: u128,
    pub(crate) serial: u64,
    pub(crate) rate: u64,
    bound: u64,
    bytes: u64,
    flow: usize,
    place: Place,
    weight: u32,
    pub(crate) kind: PhaseKind,
    has_bound: bool,
}

// Returns a bound if there is one.
fn bound_if(has: bool, bound: u64) -> Option<u64>
    ensures { result ≡ (if has then Some bound else None) }
{
    if has { Some(bound) } else { None }
}

/// Returns the activity that is kept so.
pub(crate) fn live_of(cell: &Cell) -> Live
    ensures { result ≡ live_of_spec cell.now }
{
    Live {
        serial: cell.serial,
        kind: cell.kind,
        place: cell.place,
        kept: cell.kept,
        stamp: cell.stamp,
        rate: cell.rate,
        weight: cell.weight,
        bound: bound_if(cell.has_bound, cell.bound),
        bytes: cell.bytes,
        flow: cell.flow,
    }
}

/// Returns this activity, as it is kept.
pub(crate) fn cell_of(live: Live) -> Cell
    ensures { live_of_spec result ≡ live }
{
    Cell {
        kept: live.kept,
        stamp: live.stamp,
        serial: live.serial,
        rate: live.rate,
        bound: live.bound.unwrap_or(0),
        bytes: live.bytes,
        flow: live.flow,
        place: live.place,
        weight: live.weight,
        kind: live.kind,
        has_bound: live.bound.is_some(),
    }
}
