//! What is kept of a slot, in 20 bytes.
ghost use Rattle.std.specs.Prelude.{◌≡◌};
ghost use Rattle.sg_maxmin.specs.kept.Slots.{AreSmall, IsSmall, link_of as link_of_spec, slot_in as slot_in_spec};

use crate::slots::Slot;

/// Stands for a missing number.
const NOTHING: u32 = 4_294_967_295;

/// A slot with numbers of 32 bits; `NOTHING` stands for a missing one.
#[derive(Clone, Copy)]
pub(crate) struct Cell {
    pub(crate) flow: u32,
    pub(crate) resource: u32,
    pub(crate) next_of_flow: u32,
    pub(crate) next_on: u32,
    pub(crate) prev_on: u32,
}

// Returns the number for which a code stands.
fn link_of(code: u32) -> Option<usize>
    ensures is { result ≡ link_of_spec code }
    ensures small { IsSmall result }
{
    if code == NOTHING {
        None
    } else {
        Some(code as usize)
    }
}

/// Returns the code of a number.
pub(crate) fn code_of(link: Option<usize>) -> u32
    requires { IsSmall link }
    ensures { link_of_spec result ≡ link }
{
    match link {
        None => NOTHING,
        Some(i) => i as u32,
    }
}

/// Returns the slot in a cell.
pub(crate) fn slot_in(cell: &Cell) -> Slot
    ensures is { result ≡ slot_in_spec cell.now }
    ensures next_of_flow { IsSmall result.next_of_flow }
    ensures next_on { IsSmall result.next_on }
    ensures prev_on { IsSmall result.prev_on }
{
    Slot {
        flow: cell.flow,
        resource: cell.resource as usize,
        next_of_flow: link_of(cell.next_of_flow),
        next_on: link_of(cell.next_on),
        prev_on: link_of(cell.prev_on),
    }
}
