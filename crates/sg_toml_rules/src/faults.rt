//! The first fault of a tree.
ghost use Rattle.std.specs.Prelude.{◌≡◌, IfOk, ◌<◌, ◌+◌, ◌^◌, length, map, not, string_bytes};
ghost use Rattle.std.specs.BTreeMap.{keys as map_keys};
ghost use Rattle.toml.specs.Data.{as_table, get_member};
ghost use Rattle.std.specs.List.{list_any, list_all};
ghost use Rattle.std.specs.Str.{bytes_eq};
ghost use Rattle.toml.specs.View.{view, table_view};
ghost use Rattle.sg_toml_tree.specs.kept.NamesView.{names_view};
ghost use Rattle.sg_toml_tree.specs.Along.{first, along};
ghost use Rattle.sg_toml_tree.specs.Faults.{at_place, kind_if, of_type};
ghost use Rattle.sg_toml_tree.specs.Tree.{has_only};
ghost use Rattle.sg_toml_tree.specs.declared.fault.Kind.TheVariants as kind;
ghost use Rattle.sg_toml_rules.specs.Rules.{key_kinds};
ghost use Rattle.sg_toml_keys.specs.Tables.{heading, keys_of};
ghost use Rattle.sg_toml_keys.specs.kept.Shown.{key_of};
ghost use Rattle.sg_toml_rules.specs.Faults.{row_faults, table_kinds, table_faults, rows_before, faults_of};

use crate::checks::key_fault;
use crate::routes::is_plain;
use sg_base::Memory;
use sg_toml_keys::{Key, Table};
use sg_toml_tree::{Fault, Kind, Names, Place, rows_at, small_number, value_at};
use std::alloc::Global;
use toml::Value;

/// Returns the first fault of the keys of the row at a place.
fn keys_fault(
    alloc: Global,
    names: &Names,
    number: usize,
    place: Place,
    keys: &[Key<&'static str>],
    row: &Value,
) -> Result<Option<Fault>, Memory>
    requires { length keys.now < 100 }
    ensures { IfOk result
        (λ fault. fault
        ≡ first (along
        (λ i key. at_place place.table place.row (i + 1)
        (key_kinds (names_view names.now) number (view row.now) key)) 0
        (map key_of keys.now))) }
{
    for (i, key) in keys.iter().enumerate() {
        if let Some(kind) = key_fault(alloc, names, number, row, *key)? {
            let place = Place {
                key: i as u32 + 1,
                ..place
            };
            return Ok(Some(Fault { place, kind }));
        }
    }
    Ok(None)
}

fn is_key(keys: &[Key<&'static str>], name: &str) -> bool
    ensures { result
        ≡ list_any (λ k. bytes_eq name.now k) (map (λ k. k.name) (map key_of keys.now)) }
{
    for key in keys {
        if name == key.name {
            return true;
        }
    }
    false
}

fn are_keys(keys: &[Key<&'static str>], members: &toml::Table) -> bool
    ensures { result
        ≡ list_all
        (λ k. list_any (λ t. bytes_eq (string_bytes k) t)
        (map (λ k. k.name) (map key_of keys.now)))
        (map_keys members.now) }
{
    members.keys().all(|name| is_key(keys, name.as_str()))
}

fn has_only(keys: &[Key<&'static str>], members: &toml::Table) -> bool
    ensures { result
        ≡ has_only (map (λ k. k.name) (map key_of keys.now)) (table_view members.now) }
{
    are_keys(keys, members)
}

/// Returns the first rule that a row breaks as a whole.
fn whole_fault(keys: &[Key<&'static str>], row: &Value) -> Option<Kind>
    ensures { result
        ≡ first (of_type
        (λ members. kind_if
        (not (has_only (map (λ k. k.name) (map key_of keys.now)) members)) kind.Unknown)
        (as_table (view row.now))) }
{
    match row.as_table() {
        None => Some(Kind::WrongType),
        Some(members) => {
            if has_only(keys, members) {
                None
            } else {
                Some(Kind::Unknown)
            }
        }
    }
}

/// Returns the first fault of the keys of the row at a place in a table.
#[tactic(auto, using(crate::proofs::TableLemmas::few_keys))]
fn fault_of_keys(
    alloc: Global,
    names: &Names,
    number: usize,
    place: Place,
    table: Table,
    row: &Value,
) -> Result<Option<Fault>, Memory>
    ensures { IfOk result
        (λ fault. fault
        ≡ first (along
        (λ i key. at_place place.table place.row (i + 1)
        (key_kinds (names_view names.now) number (view row.now) key)) 0
        (keys_of table))) }
{
    if is_plain(names, table, number, row) {
        return Ok(None);
    }
    keys_fault(alloc, names, number, place, table.keys(), row)
}

/// Returns the first fault of the row at a place in a table, which has this number in its space.
#[tactic(auto, unfolding(crate::specs::Faults::row_faults))]
fn row_fault(
    alloc: Global,
    names: &Names,
    number: usize,
    place: Place,
    table: Table,
    row: &Value,
) -> Result<Option<Fault>, Memory>
    ensures { IfOk result
        (λ fault. fault
        ≡ first (row_faults (names_view names.now) (keys_of table) number place.table place.row
        (view row.now))) }
{
    match whole_fault(table.keys(), row) {
        Some(kind) => {
            let place = Place { key: 0, ..place };
            Ok(Some(Fault { place, kind }))
        }
        None => fault_of_keys(alloc, names, number, place, table, row),
    }
}

/// Returns the first fault of the rows of a table, before which stand this many rows of its space.
fn rows_fault(
    alloc: Global,
    names: &Names,
    kind: Table,
    before: usize,
    table: u32,
    rows: &[Value],
) -> Result<Option<Fault>, Memory>
    requires few_rows { length rows.now < 2 ^ 20 }
    requires few_before { before < 2 ^ 63 }
    ensures { IfOk result
        (λ fault. fault
        ≡ first (along
        (λ i row. row_faults (names_view names.now) (keys_of kind) (before + i) table (i + 1)
        (view row)) 0 rows.now)) }
{
    for (i, row) in rows.iter().enumerate() {
        let place = Place {
            table,
            row: i as u32 + 1,
            key: 0,
        };
        let found = row_fault(alloc, names, before + i, place, kind, row)?;
        if found.is_some() {
            return Ok(found);
        }
    }
    Ok(None)
}

/// Returns the first rule that a table breaks as a whole.
#[tactic(auto, using(sg_toml_tree::proofs::TreeLemmas::length_of_items))]
fn head_fault(tree: &toml::Table, table: Table) -> Option<Kind>
    ensures { result
        ≡ first (table_kinds table (get_member (heading table).name (table_view tree.now))) }
{
    match value_at(tree, table.text()) {
        None => None,
        Some(value) => match value.as_array() {
            None => Some(Kind::WrongType),
            Some(rows) => {
                if rows.len() > table.row_limit() {
                    Some(Kind::Limit)
                } else {
                    None
                }
            }
        },
    }
}

fn before(names: &Names, table: Table) -> usize
    ensures value { result ≡ rows_before (names_view names.now) table }
    ensures few { result < 2 ^ 63 }
{
    match table {
        Table::Host => names.zones as usize,
        Table::Router => names.zones as usize + names.hosts as usize,
        _ => 0,
    }
}

/// Returns the first fault of the table of a number.
#[tactic(auto, using(crate::proofs::TableLemmas::table_rest, crate::proofs::TableLemmas::table_head, crate::proofs::TableLemmas::few_at))]
fn table_fault(
    alloc: Global,
    names: &Names,
    tree: &toml::Table,
    number: u32,
    table: Table,
) -> Result<Option<Fault>, Memory>
    ensures { IfOk result
        (λ fault. fault
        ≡ first (table_faults (names_view names.now) (table_view tree.now) number table)) }
{
    match head_fault(tree, table) {
        Some(kind) => {
            let place = Place {
                table: number,
                row: 0,
                key: 0,
            };
            Ok(Some(Fault { place, kind }))
        }
        None => {
            let rows = rows_at(tree, table.text());
            rows_fault(alloc, names, table, before(names, table), number, rows)
        }
    }
}

fn is_table(tables: &[Table], name: &str) -> bool
    ensures { result
        ≡ list_any (λ k. bytes_eq name.now k) (map (λ t. (heading t).name) tables.now) }
{
    for table in tables {
        if name == table.text() {
            return true;
        }
    }
    false
}

fn are_tables(tables: &[Table], members: &toml::Table) -> bool
    ensures { result
        ≡ list_all
        (λ k. list_any (λ t. bytes_eq (string_bytes k) t)
        (map (λ t. (heading t).name) tables.now))
        (map_keys members.now) }
{
    members.keys().all(|name| is_table(tables, name.as_str()))
}

fn has_only_tables(tables: &[Table], members: &toml::Table) -> bool
    ensures { result
        ≡ has_only (map (λ t. (heading t).name) tables.now) (table_view members.now) }
{
    are_tables(tables, members)
}

/// Returns the first fault of these tables, which are numbered in their order.
fn tables_fault(
    alloc: Global,
    names: &Names,
    tree: &toml::Table,
    tables: &[Table],
) -> Result<Option<Fault>, Memory>
    ensures { IfOk result
        (λ fault. fault
        ≡ first (along
        (λ i table. table_faults (names_view names.now)
        (table_view tree.now) (i + 1) table) 0 tables.now)) }
{
    for (i, table) in tables.iter().enumerate() {
        let number = small_number(i + 1)?;
        let found = table_fault(alloc, names, tree, number, *table)?;
        if found.is_some() {
            return Ok(found);
        }
    }
    Ok(None)
}

/// Returns the first fault of a tree.
#[tactic(auto, unfolding(crate::specs::Faults::faults_of))]
pub fn first_fault(
    alloc: Global,
    names: &Names,
    tables: &[Table],
    tree: &toml::Table,
) -> Result<Option<Fault>, Memory>
    ensures { IfOk result
        (λ fault. fault
        ≡ first (faults_of (names_view names.now) tables.now (table_view tree.now))) }
{
    if !has_only_tables(tables, tree) {
        let place = Place {
            table: 0,
            row: 0,
            key: 0,
        };
        return Ok(Some(Fault {
            place,
            kind: Kind::Unknown,
        }));
    }
    tables_fault(alloc, names, tree, tables)
}
