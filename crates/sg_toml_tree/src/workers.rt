//! The names of workers.
ghost use Rattle.std.specs.Prelude.{◌≡◌, ◌+◌, IfOk, OnOk, map};
ghost use Rattle.std.specs.HashMap.{get_by_text};
ghost use Rattle.sg_toml_tree.specs.Workers.{has_function, worker_names};
ghost use Rattle.sg_toml_tree.specs.Along.{along};
ghost use Rattle.sg_toml_tree.specs.NameSpaces.{Adds, SameNames, found_in, numbered, with_number};
ghost use Rattle.toml.specs.View.{view};

use crate::name_spaces::add_name;
use crate::tree::{text_at, text_or_empty};
use indexmap::IndexMap;
use sg_base::Memory;
use std::alloc::Global;
use toml::Value;

/// Returns whether the row is that of an actor of this function.
pub fn has_function(row: &Value, word: &str) -> bool
    ensures { result ≡ has_function word.now (view row.now) }
{
    text_or_empty(row, "function") == word
}

/// Gives the name of a worker its number.
fn add_worker(
    alloc: Global,
    space: &mut IndexMap<String, u32>,
    number: usize,
    row: &Value,
) -> Result<(), Memory>
    ensures { OnOk result
        (Adds (with_number number (worker_names (view row.now))) (get_by_text space.old)
        (get_by_text space.new)) }
{
    if !has_function(row, "worker") {
        return Ok(());
    }
    match text_at(row, "name") {
        Some(name) => add_name(alloc, space, name, number),
        None => Ok(()),
    }
}

/// Gives the names of workers their identifiers: actors are numbered from 1 on.
#[tactic(auto, using(crate::proofs::NameSpaceLemmas::along_turn))]
fn add_workers(
    alloc: Global,
    space: &mut IndexMap<String, u32>,
    rows: &[Value],
) -> Result<(), Memory>
    ensures { OnOk result
        (Adds (along (λ i row. with_number (1 + i) (worker_names (view row))) 0 rows.now)
        (get_by_text space.old) (get_by_text space.new)) }
{
    for (i, row) in rows.iter().enumerate() {
        add_worker(alloc, space, 1 + i, row)?;
    }
    Ok(())
}

/// Returns the names of workers, under their identifiers.
pub fn workers_in(alloc: Global, rows: &[Value]) -> Result<IndexMap<String, u32>, Memory>
    ensures { IfOk result
        (λ made. SameNames (get_by_text made)
        (found_in (numbered worker_names 1 (map view rows.now)))) }
{
    let mut made = IndexMap::new(alloc);
    add_workers(alloc, &mut made, rows)?;
    Ok(made)
}
