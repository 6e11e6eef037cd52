//! What the actors of a tree do, if it has no fault.
ghost use Rattle.std.specs.Prelude.{◌≡◌, IfOk, map};
ghost use Rattle.sg_platform.specs.Functions.{amount_or_zero, function_of, master_of, worker_id};
ghost use Rattle.sg_toml_tree.specs.kept.NamesView.{names_view};
ghost use Rattle.sg_toml_keys.specs.declared.units.Quantity.TheVariants.{Amount};
ghost use Rattle.toml.specs.View.{view};

use sg_base::{ActorId, Ids, Memory};
use sg_platform_rows::Function;
use sg_toml_keys::Quantity;
use sg_toml_rules::{amount_in, items_at, text_of};
use sg_toml_tree::{Names, has_function};
use std::alloc::Global;
use toml::Value;

fn amount_of(item: &Value) -> u64
    ensures { result ≡ amount_or_zero Amount (view item.now) }
{
    amount_in(Quantity::Amount, item).unwrap_or(0)
}

/// Returns the worker that an argument names.
fn worker_id(names: &Names, item: &Value) -> ActorId
    ensures { result ≡ worker_id (names_view names.now) (view item.now) }
{
    match names.workers.get(text_of(item)) {
        Some(id) => ActorId(*id),
        None => ActorId(1),
    }
}

fn worker_ids(alloc: Global, names: &Names, items: &[Value]) -> Result<Ids, Memory>
    ensures { IfOk result
        (λ ids. ids ≡ map (λ d. worker_id (names_view names.now) d) (map view items.now)) }
{
    let mut made = Vec::new(alloc);
    for item in items {
        made.push(worker_id(names, item))?;
    }
    Ok(Ids::from_vec(made))
}

/// Returns the function of a master that is given these arguments.
fn master_of(alloc: Global, names: &Names, items: &[Value]) -> Result<Function, Memory>
    ensures { IfOk result
        (λ function. function ≡ master_of (names_view names.now) (map view items.now)) }
{
    match items {
        [tasks, flops, bytes, workers @ ..] => Ok(Function::Master {
            tasks: amount_of(tasks),
            flops: amount_of(flops),
            bytes: amount_of(bytes),
            workers: worker_ids(alloc, names, workers)?,
        }),
        _ => Ok(Function::Master {
            tasks: 0,
            flops: 0,
            bytes: 0,
            workers: Ids::from_vec(Vec::new(alloc)),
        }),
    }
}

/// Returns what the actor of a row does.
#[tactic(auto, unfolding(crate::specs::Functions::function_of))]
pub fn function_of(alloc: Global, names: &Names, row: &Value) -> Result<Function, Memory>
    ensures { IfOk result
        (λ function. function ≡ function_of (names_view names.now) (view row.now)) }
{
    if has_function(row, "master") {
        master_of(alloc, names, items_at(row, "argument"))
    } else if has_function(row, "worker") {
        Ok(Function::Worker)
    } else {
        Ok(Function::Replay)
    }
}
