//! Finds rows by their names.
ghost use Rattle.std.specs.Prelude.{◌≡◌, ℕ, List, ◌∷◌, [], IfOk, OnOk};
ghost use Rattle.std.specs.HashMap.{get_by_text};
ghost use Rattle.std.specs.Map.{lookup};
ghost use Rattle.std.specs.Str.{bytes_eq};
ghost use Rattle.sg_platform_rows.specs.Deployment.{replay_names};
ghost use Rattle.sg_platform_rows.specs.Index.{host_number, number_by};
ghost use Rattle.sg_platform_rows.specs.kept.Finds.{FindsAs, finds, numbered_names};
ghost use Rattle.sg_toml_tree.specs.Along.{along};
ghost use Rattle.sg_toml_tree.specs.NameSpaces.{Adds, or_else, with_number};

use crate::rows::{ActorRow, Function, HostRow, MutexRow, SemaphoreRow};
use indexmap::IndexMap;
use sg_base::Memory;
use sg_toml_tree::{add_name, small_number};
use std::alloc::Global;

/// Gives the names of hosts the numbers of their rows.
#[tactic(auto, using(sg_toml_tree::proofs::NameSpaceLemmas::along_turn))]
fn add_hosts(
    alloc: Global,
    space: &mut IndexMap<String, u32>,
    hosts: &[HostRow],
) -> Result<(), Memory>
    ensures { OnOk result
        ((q : List ℕ)
        → get_by_text space.new q
        ≡ or_else (get_by_text space.old q)
        (lookup (bytes_eq q) (along (numbered_names (λ host. host.id ∷ [])) 0 hosts.now))) }
{
    for (i, host) in hosts.iter().enumerate() {
        add_name(alloc, space, host.id.as_str(), i)?;
    }
    Ok(())
}

/// Returns the hosts by their names.
pub fn hosts_by_name(alloc: Global, hosts: &[HostRow]) -> Result<IndexMap<String, u32>, Memory>
    ensures { IfOk result (λ made. (q : List ℕ) → get_by_text made q ≡ host_number hosts.now q) }
{
    let mut made = IndexMap::new(alloc);
    add_hosts(alloc, &mut made, hosts)?;
    Ok(made)
}

/// Gives some bytes a number, unless they have one.
fn add_bytes(
    alloc: Global,
    space: &mut IndexMap<Vec<u8>, u32>,
    name: &[u8],
    number: usize,
) -> Result<(), Memory>
    ensures { OnOk result (Adds ((name.now, number) ∷ []) (finds space.old) (finds space.new)) }
{
    if !space.contains_key(name) {
        let number = small_number(number)?;
        let key = Vec::from_slice(alloc, name)?;
        space.insert(key, number)?;
    }
    Ok(())
}

/// A row that is found by its name, or isn't.
pub trait Named {
    /// The names by which it is found.
    ghost names: { Self → List (List ℕ) };

    /// Gives the name of the row a number, if it is found by it and has none yet.
    fn add(
        &self,
        alloc: Global,
        space: &mut IndexMap<Vec<u8>, u32>,
        number: usize,
    ) -> Result<(), Memory>
        ensures { OnOk result
            (Adds (with_number number (names self.now)) (finds space.old) (finds space.new)) };
}

impl Named for ActorRow {
    ghost names = { λ actor. actor.name ∷ [] };

    fn add(
        &self,
        alloc: Global,
        space: &mut IndexMap<Vec<u8>, u32>,
        number: usize,
    ) -> Result<(), Memory> {
        add_bytes(alloc, space, self.name.as_str().as_bytes(), number)
    }
}

impl Named for MutexRow {
    ghost names = { λ mutex. mutex.id ∷ [] };

    fn add(
        &self,
        alloc: Global,
        space: &mut IndexMap<Vec<u8>, u32>,
        number: usize,
    ) -> Result<(), Memory> {
        add_bytes(alloc, space, self.id.as_str().as_bytes(), number)
    }
}

impl Named for SemaphoreRow {
    ghost names = { λ semaphore. semaphore.id ∷ [] };

    fn add(
        &self,
        alloc: Global,
        space: &mut IndexMap<Vec<u8>, u32>,
        number: usize,
    ) -> Result<(), Memory> {
        add_bytes(alloc, space, self.id.as_str().as_bytes(), number)
    }
}

/// Gives the names of rows the numbers of the rows.
fn add_rows<R: Named>(
    alloc: Global,
    space: &mut IndexMap<Vec<u8>, u32>,
    rows: &[R],
) -> Result<(), Memory>
    ensures { OnOk result
        (Adds (along (numbered_names R.names) 0 rows.now) (finds space.old) (finds space.new)) }
{
    for (i, row) in rows.iter().enumerate() {
        row.add(alloc, space, i)?;
    }
    Ok(())
}

/// Returns the rows that are found by their names, with their numbers from 0 on.
pub fn rows_by_name<R: Named>(alloc: Global, rows: &[R]) -> Result<IndexMap<Vec<u8>, u32>, Memory>
    ensures { IfOk result (λ made. FindsAs made (number_by R.names rows.now)) }
{
    let mut made = IndexMap::new(alloc);
    add_rows(alloc, &mut made, rows)?;
    Ok(made)
}

/// Gives the name of an actor the number of its row, if it replays and the name has none yet.
fn add_if_replay(
    alloc: Global,
    space: &mut IndexMap<Vec<u8>, u32>,
    actor: &ActorRow,
    number: usize,
) -> Result<(), Memory>
    ensures { OnOk result
        (Adds (with_number number (replay_names actor.now)) (finds space.old) (finds space.new)) }
{
    match actor.function {
        Function::Replay => add_bytes(alloc, space, actor.name.as_str().as_bytes(), number),
        _ => Ok(()),
    }
}

/// Gives the names of actors that replay the numbers of their rows.
fn add_replay(
    alloc: Global,
    space: &mut IndexMap<Vec<u8>, u32>,
    actors: &[ActorRow],
) -> Result<(), Memory>
    ensures { OnOk result
        (Adds (along (numbered_names replay_names) 0 actors.now) (finds space.old)
        (finds space.new)) }
{
    for (i, actor) in actors.iter().enumerate() {
        add_if_replay(alloc, space, actor, i)?;
    }
    Ok(())
}

/// Returns the actors that replay by their names, with the numbers of their rows.
pub fn replay_by_name(alloc: Global, actors: &[ActorRow]) -> Result<IndexMap<Vec<u8>, u32>, Memory>
    ensures { IfOk result (λ made. FindsAs made (number_by replay_names actors.now)) }
{
    let mut made = IndexMap::new(alloc);
    add_replay(alloc, &mut made, actors)?;
    Ok(made)
}
