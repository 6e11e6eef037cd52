//! The ordered pairs that routes give.
ghost use Rattle.std.specs.Prelude.{◌≡◌, IfOk, OnOk, codes, map, option_and_then};
ghost use Rattle.std.specs.HashMap.{get_by, get_by_text};
ghost use Rattle.sg_toml_tree.specs.Pairs.{pairs_of, truth_at};
ghost use Rattle.sg_toml_tree.specs.kept.Parts.{pair_rows};
ghost use Rattle.sg_toml_tree.specs.NameSpaces.{AddsPairs, SamePairs, numbered, pair_eq, with_number};
ghost use Rattle.sg_toml_tree.specs.Tree.{text_at};
ghost use Rattle.toml.specs.View.{view};

use crate::name_spaces::add_pair;
use crate::tree::text_at;
use indexmap::IndexMap;
use sg_base::Memory;
use std::alloc::Global;
use toml::Value;

/// Returns the number of the point, or zone, that a key names.
pub fn point_at(points: &IndexMap<String, u32>, row: &Value, key: &str) -> Option<u32>
    ensures { result
        ≡ option_and_then (λ q. get_by_text points.now q) (text_at key.now (view row.now)) }
{
    points.get(text_at(row, key)?).copied()
}

/// Returns the truth value at a key, which is true if the row doesn't have the key.
pub fn truth_at(row: &Value, key: &str) -> bool
    ensures { result ≡ truth_at key.now (view row.now) }
{
    match row.get(key) {
        Some(value) => match value.as_bool() {
            Some(truth) => truth,
            None => false,
        },
        None => true,
    }
}

/// Returns whether a route serves the reverse direction too.
pub fn is_symmetrical(row: &Value) -> bool
    ensures { result ≡ truth_at (codes "symmetrical") (view row.now) }
{
    truth_at(row, "symmetrical")
}

/// Gives the pairs of a route its number.
#[tactic(auto, unfolding(crate::specs::Pairs::pairs_of))]
fn add_route(
    points: &IndexMap<String, u32>,
    pairs: &mut IndexMap<(u32, u32), u32>,
    number: usize,
    row: &Value,
) -> Result<(), Memory>
    ensures { OnOk result
        (AddsPairs (with_number number (pairs_of (λ q. get_by_text points.now q) (view row.now)))
        (λ q. get_by (pair_eq q) pairs.old) (λ q. get_by (pair_eq q) pairs.new)) }
{
    match (point_at(points, row, "src"), point_at(points, row, "dst")) {
        (Some(a), Some(b)) => {
            add_pair(pairs, (a, b), number)?;
            if is_symmetrical(row) {
                add_pair(pairs, (b, a), number)?;
            }
            Ok(())
        }
        _ => Ok(()),
    }
}

/// Gives the pairs of routes the numbers of their rows.
#[tactic(auto, using(crate::proofs::NameSpaceLemmas::along_turn))]
fn add_routes(
    points: &IndexMap<String, u32>,
    pairs: &mut IndexMap<(u32, u32), u32>,
    rows: &[Value],
) -> Result<(), Memory>
    ensures { OnOk result
        (AddsPairs
        (numbered (λ row. pairs_of (λ q. get_by_text points.now q) (view row)) 0 rows.now)
        (λ q. get_by (pair_eq q) pairs.old) (λ q. get_by (pair_eq q) pairs.new)) }
{
    for (i, row) in rows.iter().enumerate() {
        add_route(points, pairs, i, row)?;
    }
    Ok(())
}

/// The most rows for whose pairs there is room from the start.
const MOST_ROWS: usize = 262_144;

/// Returns the pairs that route rows give, under the numbers of the rows.
pub fn pairs_in(
    alloc: Global,
    points: &IndexMap<String, u32>,
    rows: &[Value],
) -> Result<IndexMap<(u32, u32), u32>, Memory>
    ensures { IfOk result
        (λ made. SamePairs (λ q. get_by (pair_eq q) made)
        (pair_rows (λ q. get_by_text points.now q) (map view rows.now))) }
{
    // Most routes give two pairs. A map that grows holds its old entries beside the new ones.
    let mut made = IndexMap::with_capacity(alloc, 2 * rows.len().min(MOST_ROWS))?;
    add_routes(points, &mut made, rows)?;
    Ok(made)
}
