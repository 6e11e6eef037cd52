//! The names of links.
ghost use Rattle.std.specs.Prelude.{◌≡◌, ◌+◌, ◌<◌, ◌^◌, ◌++◌, ◌∷◌, [], IfOk, OnOk, codes, length, map};
ghost use Rattle.std.specs.HashMap.{get_by_text};
ghost use Rattle.std.specs.List.{flat_map};
ghost use Rattle.sg_toml_tree.specs.LinkNames.{is_split, link_names, taken_names};
ghost use Rattle.sg_toml_tree.specs.NameSpaces.{Adds, SameNames, found_in, numbered, with_number};
ghost use Rattle.toml.specs.View.{view};

use crate::name_spaces::add_name;
use crate::tree::{text_at, text_or_empty};
use indexmap::IndexMap;
use sg_base::Memory;
use std::alloc::Global;
use toml::Value;

/// Returns whether a link is SPLITDUPLEX: one for each direction.
pub fn is_split(row: &Value) -> bool
    ensures { result ≡ is_split (view row.now) }
{
    text_or_empty(row, "sharing_policy") == "SPLITDUPLEX"
}

/// Gives the names of both directions of a link their numbers.
#[tactic(auto, using(crate::proofs::NameSpaceLemmas::given_here))]
fn add_split(
    alloc: Global,
    space: &mut IndexMap<String, u32>,
    id: &str,
    up: usize,
    down: usize,
) -> Result<(), Memory>
    ensures { OnOk result
        (Adds ((id.now ++ codes "_UP", up) ∷ (id.now ++ codes "_DOWN", down) ∷ [])
        (get_by_text space.old) (get_by_text space.new)) }
{
    let mut name = String::from_str(alloc, id)?;
    name.push_str("_UP")?;
    add_name(alloc, space, name.as_str(), up)?;
    let mut name = String::from_str(alloc, id)?;
    name.push_str("_DOWN")?;
    add_name(alloc, space, name.as_str(), down)
}

/// Gives the names that a link takes its number.
fn add_taken(
    alloc: Global,
    space: &mut IndexMap<String, u32>,
    number: usize,
    row: &Value,
) -> Result<(), Memory>
    ensures { OnOk result
        (Adds (with_number number (taken_names (view row.now))) (get_by_text space.old)
        (get_by_text space.new)) }
{
    match text_at(row, "id") {
        Some(id) => {
            add_name(alloc, space, id, number)?;
            if is_split(row) {
                add_split(alloc, space, id, number, number)?;
            }
            Ok(())
        }
        None => Ok(()),
    }
}

/// Gives the names that links take the numbers of their rows.
fn add_all_taken(
    alloc: Global,
    space: &mut IndexMap<String, u32>,
    rows: &[Value],
) -> Result<(), Memory>
    ensures { OnOk result
        (Adds (numbered (λ row. taken_names (view row)) 0 rows.now) (get_by_text space.old)
        (get_by_text space.new)) }
{
    for (i, row) in rows.iter().enumerate() {
        add_taken(alloc, space, i, row)?;
    }
    Ok(())
}

/// Gives the names of a link their numbers, from the next on, and counts them.
fn add_link(
    alloc: Global,
    space: &mut IndexMap<String, u32>,
    next: usize,
    row: &Value,
) -> Result<usize, Memory>
    requires { next + 2 < 2 ^ 64 }
    ensures given { OnOk result
        (Adds (numbered (λ name. name ∷ []) next (link_names (view row.now)))
        (get_by_text space.old) (get_by_text space.new)) }
    ensures count { IfOk result (λ n. n ≡ length (link_names (view row.now))) }
{
    match text_at(row, "id") {
        Some(id) => {
            if is_split(row) {
                add_split(alloc, space, id, next, next + 1)?;
                Ok(2)
            } else {
                add_name(alloc, space, id, next)?;
                Ok(1)
            }
        }
        None => Ok(0),
    }
}

/// Gives the names of links their numbers.
fn add_links(alloc: Global, space: &mut IndexMap<String, u32>, rows: &[Value]) -> Result<(), Memory>
    requires { length rows.now < 2 ^ 62 }
    ensures { OnOk result
        (Adds (numbered (λ name. name ∷ []) 0 (flat_map (λ row. link_names (view row)) rows.now))
        (get_by_text space.old) (get_by_text space.new)) }
{
    let mut next = 0;
    for row in rows {
        next += add_link(alloc, space, next, row)?;
    }
    Ok(())
}

/// Returns the names that link rows take, under the numbers of the rows.
pub fn taken_links(alloc: Global, rows: &[Value]) -> Result<IndexMap<String, u32>, Memory>
    ensures { IfOk result
        (λ made. SameNames (get_by_text made)
        (found_in (numbered taken_names 0 (map view rows.now)))) }
{
    let mut made = IndexMap::new(alloc);
    add_all_taken(alloc, &mut made, rows)?;
    Ok(made)
}

/// Returns the names by which lists name links, under the numbers of the links.
pub fn declared_links(alloc: Global, rows: &[Value]) -> Result<IndexMap<String, u32>, Memory>
    ensures { IfOk result
        (λ made. SameNames (get_by_text made)
        (found_in (numbered (λ name. name ∷ []) 0 (flat_map link_names (map view rows.now))))) }
{
    let mut made = IndexMap::new(alloc);
    add_links(alloc, &mut made, rows)?;
    Ok(made)
}
