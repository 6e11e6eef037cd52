//! Rows that break no rule, each of whose names is looked up once.
ghost use Rattle.std.specs.Prelude.{◌≡◌, ◌≤◌, [], IfSome, IsTrue, None, Some, codes, is_some, map};
ghost use Rattle.std.specs.HashMap.{get_by, get_by_text};
ghost use Rattle.std.specs.List.{list_any};
ghost use Rattle.sg_toml_tree.specs.Pairs.{pairs_between};
ghost use Rattle.sg_toml_tree.specs.kept.NamesView.{names_view};
ghost use Rattle.sg_toml_rules.specs.Plain.{IsPointAt, KeepsRules, Links, Serves};
ghost use Rattle.sg_toml_rules.specs.Rules.{is_below, key_kinds, link_list_kinds, list_kinds};
ghost use Rattle.sg_toml_keys.specs.Tables.{keys_of};
ghost use Rattle.sg_toml_keys.specs.declared.tables.Table.TheVariants as table;
ghost use Rattle.sg_toml_tree.specs.Along.{first};
ghost use Rattle.sg_toml_tree.specs.NameSpaces.{pair_eq};
ghost use Rattle.toml.specs.Data.{as_str};
ghost use Rattle.toml.specs.View.{view};

use crate::checks::{are_texts, is_given_pair, link_list_fault};
use indexmap::IndexMap;
use sg_toml_keys::Table;
use sg_toml_tree::{Names, point_at};
use toml::Value;

/// Returns the number of the point that a key names, if it names one.
fn point_named(names: &Names, row: &Value, key: &str) -> Option<u32>
    ensures { IfSome result (IsPointAt (names_view names.now) key.now (view row.now)) }
{
    match point_at(&names.points, row, key) {
        Some(point) if point >= names.zones => Some(point),
        _ => None,
    }
}

/// Returns whether a route serves the reverse direction too, if its row says so by a truth value or says nothing.
fn symmetry_of(row: &Value) -> Option<bool>
    ensures { IfSome result (Serves (view row.now)) }
{
    match row.get("symmetrical") {
        Some(value) => value.as_bool(),
        None => Some(true),
    }
}

/// Returns whether an earlier row than this gave one of the pairs of a route between two points.
fn is_given_way(names: &Names, number: usize, src: u32, dst: u32, both: bool) -> bool
    ensures { result
        ≡ list_any (λ p. is_below (get_by (pair_eq p) names.now.pairs) number)
        (pairs_between (Some src) (Some dst) both) }
{
    let there = is_given_pair(&names.pairs, number, (src, dst));
    if both {
        there || is_given_pair(&names.pairs, number, (dst, src))
    } else {
        there
    }
}

fn are_links(links: &IndexMap<String, u32>, items: &[Value]) -> bool
    ensures { IsTrue result
        → first (list_kinds (λ d. is_some (as_str d))
        (link_list_kinds (λ name. get_by_text links.now name)) (map view items.now)) ≡ None }
{
    are_texts(items) && link_list_fault(links, items).is_none()
}

/// Returns whether the row has the names of 1 to 64 links.
#[tactic(auto, using(sg_toml_tree::proofs::TreeLemmas::list_of_items))]
fn has_links(names: &Names, row: &Value) -> bool
    ensures { IsTrue result → Links (names_view names.now) (view row.now) }
{
    match row.get("links") {
        Some(value) => match value.as_array() {
            Some(items) => are_links(&names.links, items.as_slice()),
            None => false,
        },
        None => false,
    }
}

/// Returns whether the keys of the row of a route break no rule, and false for some that break none.
fn is_plain_route(names: &Names, number: usize, row: &Value) -> bool
    ensures { IsTrue result
        → KeepsRules (names_view names.now) (keys_of table.Route) number (view row.now) }
{
    let Some(src) = point_named(names, row, "src") else {
        return false;
    };
    let Some(dst) = point_named(names, row, "dst") else {
        return false;
    };
    let Some(both) = symmetry_of(row) else {
        return false;
    };
    !is_given_way(names, number, src, dst, both) && has_links(names, row)
}

/// Returns whether the keys of a row break no rule, and false for some that break none. It knows most rows of routes.
pub fn is_plain(names: &Names, table: Table, number: usize, row: &Value) -> bool
    ensures { IsTrue result
        → KeepsRules (names_view names.now) (keys_of table) number (view row.now) }
{
    match table {
        Table::Route => is_plain_route(names, number, row),
        _ => false,
    }
}
