//! The arguments that go with what an actor does.
ghost use Rattle.std.specs.Prelude.{◌≡◌, false, is_some, nat_le, IfOk, map};
ghost use Rattle.std.specs.HashMap.{get_by_text};
ghost use Rattle.std.specs.List.{list_all};
ghost use Rattle.std.specs.Option.{option_map_or};
ghost use Rattle.sg_toml_rules.specs.Arguments.{are_for_master, are_workers, argument_kinds, has_repeat, takes_none, text_of};
ghost use Rattle.sg_toml_keys.specs.Units.{quantity_value};
ghost use Rattle.sg_toml_keys.specs.declared.units.Quantity.TheVariants.{Amount};
ghost use Rattle.sg_toml_tree.specs.Along.{first};
ghost use Rattle.toml.specs.View.{view};

use indexmap::IndexMap;
use sg_base::Memory;
use sg_toml_keys::Quantity;
use sg_toml_tree::{Kind, add_name, has_function};
use std::alloc::Global;
use toml::Value;

/// Returns the text of an item, and the empty text if it isn't one.
pub fn text_of(item: &Value) -> &str
    ensures { result.now ≡ text_of (view item.now) }
{
    match item.as_str() {
        Some(text) => text,
        None => "",
    }
}

/// Returns whether a text stands twice in a list.
fn has_repeat(alloc: Global, items: &[Value]) -> Result<bool, Memory>
    ensures { IfOk result (λ twice. twice ≡ has_repeat (map text_of (map view items.now))) }
{
    let mut seen = IndexMap::new(alloc);
    for (i, item) in items.iter().enumerate() {
        let text = text_of(item);
        if seen.contains_key(text) {
            return Ok(true);
        }
        add_name(alloc, &mut seen, text, i)?;
    }
    Ok(false)
}

fn are_known(workers: &IndexMap<String, u32>, items: &[Value]) -> bool
    ensures { result
        ≡ list_all (λ name. is_some (get_by_text workers.now name))
        (map text_of (map view items.now)) }
{
    for item in items {
        if !workers.contains_key(text_of(item)) {
            return false;
        }
    }
    true
}

/// Returns whether the items are names of workers: some, and none twice.
#[tactic(auto, unfolding(crate::specs::Arguments::are_workers))]
fn are_workers(
    alloc: Global,
    workers: &IndexMap<String, u32>,
    items: &[Value],
) -> Result<bool, Memory>
    ensures { IfOk result
        (λ fine. fine
        ≡ are_workers (λ name. get_by_text workers.now name) (map text_of (map view items.now))) }
{
    if items.len() == 0 || !are_known(workers, items) {
        return Ok(false);
    }
    let twice = has_repeat(alloc, items)?;
    Ok(!twice)
}

/// The greatest count of tasks.
const GREATEST_TASKS: u64 = 1_000_000_000;

fn is_task_count(item: &Value) -> bool
    ensures { result
        ≡ option_map_or (λ n. nat_le n 1000000000)
        (quantity_value Amount (text_of (view item.now))) false }
{
    match Quantity::Amount.value(text_of(item).as_bytes()) {
        Some(tasks) => tasks <= GREATEST_TASKS,
        None => false,
    }
}

fn is_amount(item: &Value) -> bool
    ensures { result ≡ is_some (quantity_value Amount (text_of (view item.now))) }
{
    Quantity::Amount.value(text_of(item).as_bytes()).is_some()
}

/// Returns whether the items are what a master is given.
fn are_for_master(
    alloc: Global,
    workers: &IndexMap<String, u32>,
    items: &[Value],
) -> Result<bool, Memory>
    ensures { IfOk result
        (λ fine. fine
        ≡ are_for_master (λ name. get_by_text workers.now name)
        (map text_of (map view items.now))) }
{
    match items {
        [tasks, flops, bytes, names @ ..] => {
            if is_task_count(tasks) && is_amount(flops) && is_amount(bytes) {
                are_workers(alloc, workers, names)
            } else {
                Ok(false)
            }
        }
        _ => Ok(false),
    }
}

/// Returns whether an actor of the row's function is given nothing.
fn takes_none(row: &Value) -> bool
    ensures { result ≡ takes_none (view row.now) }
{
    has_function(row, "replay") || has_function(row, "worker")
}

/// Returns what is wrong with the arguments of an actor whose function is known.
#[tactic(auto, unfolding(crate::specs::Arguments::argument_kinds))]
pub fn argument_fault(
    alloc: Global,
    workers: &IndexMap<String, u32>,
    row: &Value,
    items: &[Value],
) -> Result<Option<Kind>, Memory>
    ensures { IfOk result
        (λ fault. fault
        ≡ first (argument_kinds (λ name. get_by_text workers.now name) (view row.now)
        (map view items.now))) }
{
    if takes_none(row) && items.len() != 0 {
        return Ok(Some(Kind::Arguments));
    }
    if !has_function(row, "master") {
        return Ok(None);
    }
    if are_for_master(alloc, workers, items)? {
        Ok(None)
    } else {
        Ok(Some(Kind::Arguments))
    }
}
