//! Spokes, found by their child. `of` is a match, as the prover learns more of it than of `?`.
ghost use Rattle.std.specs.Prelude.{◌≡◌, ◌==◌, ◌≤◌, ℕ, None, Some, IfOk, OnOk, if◌then◌else◌, length, slice_index_or};
ghost use Rattle.std.specs.Option.{option_copied};
ghost use Rattle.sg_base.specs.declared.ids.Child.{Child as ChildSpec};
ghost use Rattle.sg_route.specs.Equal.{child_eq};
ghost use Rattle.sg_route.specs.kept.Index.{IsIndexOfChildren, row_of};
ghost use Rattle.sg_route.specs.Local.{spoke_at};

use sg_base::{Child, Memory};
use sg_platform_rows::SpokeRow;
use std::alloc::Global;
use std::marker::Model;

/// Rows by children: a number of a row, or none, under the number of each point and of each zone.
#[derive(Drop)]
pub(crate) struct RowsByChild {
    pub(crate) points: Vec<Option<usize>>,
    pub(crate) zones: Vec<Option<usize>>,
}

/// Spokes, which contracts see as their list. The first one of a child stands under its number.
#[derive(Drop)]
pub(crate) struct Spokes {
    rows: Vec<SpokeRow>,
    at: RowsByChild,
}

impl Model for Spokes {
    ghost use Rattle.std.specs.Prelude.{List};
    ghost use Rattle.sg_platform_rows.specs.declared.rows.SpokeRow.{SpokeRow};
    ghost use Rattle.sg_route.specs.kept.Index.{IsIndexOfChildren};

    ghost Value = { List SpokeRow };

    ghost view = { λ s. s.rows.items };

    ghost invariant = { λ s. IsIndexOfChildren s.at s.rows.items };
}

// Makes so many places, the new ones without a row.
fn grow(rows: &mut Vec<Option<usize>>, n: usize) -> Result<(), Memory>
    ensures same { (number : ℕ) → slice_index_or rows.new.items number None
        ≡ slice_index_or rows.old.items number None }
    ensures long { OnOk result (n ≤ length rows.new.items) }
{
    for _number in rows.len()..n {
        rows.push(None)?;
    }
    Ok(())
}

// Returns the row under a number.
fn row_under(rows: &[Option<usize>], number: u32) -> Option<usize>
    ensures { result ≡ slice_index_or rows.now number None }
{
    *rows.get(number as usize)?
}

// Puts a row under a number.
fn put(rows: &mut Vec<Option<usize>>, number: u32, row: usize) -> Result<(), Memory>
    ensures { OnOk result ((n : ℕ) → slice_index_or rows.new.items n None
        ≡ (if n == number then Some row else slice_index_or rows.old.items n None)) }
{
    let place = number as usize;
    grow(rows, place + 1)?;
    rows[place] = Some(row);
    Ok(())
}

// Puts a row under a child.
fn enter(at: &mut RowsByChild, child: Child, row: usize) -> Result<(), Memory>
    ensures { OnOk result ((other : ChildSpec) → row_of at.new other
        ≡ (if child_eq other child then Some row else row_of at.old other)) }
{
    match child {
        Child::Point(point) => put(&mut at.points, point.0, row),
        Child::Zone(zone) => put(&mut at.zones, zone.0, row),
    }
}

/// Returns for each child its first row: the rows are entered from the last to the first.
fn index_of(alloc: Global, rows: &[SpokeRow]) -> Result<RowsByChild, Memory>
    ensures { IfOk result (λ at. IsIndexOfChildren at rows.now) }
{
    let mut at = RowsByChild {
        points: Vec::new(alloc),
        zones: Vec::new(alloc),
    };
    let mut left = rows.len();
    while left > 0 {
        left -= 1;
        enter(&mut at, rows[left].child, left)?;
    }
    Ok(at)
}

impl RowsByChild {
    // Returns the row under a child.
    fn of(&self, child: Child) -> Option<usize>
        ensures { result ≡ row_of self.now child }
    {
        match child {
            Child::Point(point) => row_under(&self.points, point.0),
            Child::Zone(zone) => row_under(&self.zones, zone.0),
        }
    }
}

impl Spokes {
    pub(crate) fn from_rows(alloc: Global, rows: Vec<SpokeRow>) -> Result<Spokes, Memory>
        ensures { IfOk result (λ spokes. spokes ≡ rows.items) }
    {
        let at = index_of(alloc, rows.as_slice())?;
        Ok(Spokes { rows, at })
    }

    /// Returns the first spoke of a child.
    pub(crate) fn of(&self, child: Child) -> Option<&SpokeRow>
        ensures { option_copied result ≡ spoke_at self.now child }
    {
        match self.at.of(child) {
            Some(at) => self.rows.get(at),
            None => None,
        }
    }
}
