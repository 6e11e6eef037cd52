//! Declared local routes, found by their pair of children. `of` is a match, as the prover learns more of it than of `?`.
ghost use Rattle.std.specs.Prelude.{◌≡◌, IfOk};
ghost use Rattle.std.specs.Option.{option_copied};
ghost use Rattle.sg_route.specs.kept.Index.{IsIndexOfPairs, child_key, pair_key};
ghost use Rattle.sg_route.specs.Local.{declared_route};

use sg_base::{Child, Links, Memory, PointId};
use std::alloc::Global;
use std::collections::HashMap;
use std::marker::Model;

/// An ordered pair of children of a zone.
#[derive(Clone, Copy)]
pub struct Pair {
    pub from: Child,
    pub to: Child,
}

/// By which a map finds a pair: of each child whether it is a zone, and its number.
type Key = ((bool, u32), (bool, u32));

/// A local route from one child of a zone to another.
#[derive(Drop)]
pub struct Local {
    pub pair: Pair,
    /// The gateway at which it begins.
    pub start: PointId,
    /// The gateway at which it ends.
    pub end: PointId,
    pub links: Links,
}

/// Local routes, which contracts see as their list. Finding the first one of a pair costs one lookup.
#[derive(Drop)]
pub(crate) struct Locals {
    rows: Vec<Local>,
    at: HashMap<Key, usize>,
}

impl Model for Locals {
    ghost use Rattle.std.specs.Prelude.{List};
    ghost use Rattle.sg_route.specs.declared.locals.Local.{Local};
    ghost use Rattle.sg_route.specs.kept.Index.{IsIndexOfPairs};

    ghost Value = { List Local };

    ghost view = { λ l. l.rows.items };

    ghost invariant = { λ l. IsIndexOfPairs l.at l.rows.items };
}

fn child_key(child: Child) -> (bool, u32)
    ensures { result ≡ child_key child }
{
    match child {
        Child::Point(point) => (false, point.0),
        Child::Zone(zone) => (true, zone.0),
    }
}

fn pair_key(pair: Pair) -> Key
    ensures { result ≡ pair_key pair }
{
    (child_key(pair.from), child_key(pair.to))
}

/// Returns for each pair its first row: the rows are entered from the last to the first.
fn index_of(alloc: Global, rows: &[Local]) -> Result<HashMap<Key, usize>, Memory>
    ensures { IfOk result (λ at. IsIndexOfPairs at rows.now) }
{
    let mut at = HashMap::with_capacity(alloc, rows.len())?;
    let mut left = rows.len();
    while left > 0 {
        left -= 1;
        at.insert(pair_key(rows[left].pair), left)?;
    }
    Ok(at)
}

impl Locals {
    pub(crate) fn from_rows(alloc: Global, rows: Vec<Local>) -> Result<Locals, Memory>
        ensures { IfOk result (λ locals. locals ≡ rows.items) }
    {
        let at = index_of(alloc, rows.as_slice())?;
        Ok(Locals { rows, at })
    }

    /// Returns the first local route of a pair.
    pub(crate) fn of(&self, pair: Pair) -> Option<&Local>
        ensures { option_copied result ≡ declared_route self.now pair }
    {
        match self.at.get(&pair_key(pair)) {
            Some(at) => self.rows.get(*at),
            None => None,
        }
    }
}
