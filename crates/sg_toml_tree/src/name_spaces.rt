//! The number under which a name stands first.
ghost use Rattle.std.specs.Prelude.{◌≡◌, ◌+◌, ◌<◌, ◌≤◌, ◌^◌, ℕ, List, Some, None, if◌then◌else◌, IfOk, OnOk, OnErr, length, map, take};
ghost use Rattle.std.specs.HashMap.{get_by, get_by_text, IsUnchanged};
ghost use Rattle.std.specs.Str.{bytes_eq};
ghost use Rattle.sg_toml_tree.specs.Along.{along};
ghost use Rattle.sg_toml_tree.specs.NameSpaces.{Adds, AddsFront, Pair, SameNames, found_in, pair_eq, numbered, with_number, or_else, texts_at};
ghost use Rattle.toml.specs.View.{view};

use crate::tree::text_at;
use indexmap::IndexMap;
use sg_base::Memory;
use std::alloc::Global;
use toml::Value;

/// Returns the number in the 32 bits that a space of names has for it; a greater one counts as out of memory.
pub fn small_number(number: usize) -> Result<u32, Memory>
    ensures { IfOk result (λ small. small ≡ number) }
{
    u32::try_from(number).map_err(|_| Memory)
}

/// Gives a name its number, unless it has one. After `Memory` the space is as before.
pub fn add_name(
    alloc: Global,
    space: &mut IndexMap<String, u32>,
    name: &str,
    number: usize,
) -> Result<(), Memory>
    ensures added { OnOk result ((q : List ℕ) → get_by_text space.new q
        ≡ or_else (get_by_text space.old q) (if bytes_eq q name.now then Some number else None)) }
    ensures memory { OnErr result (IsUnchanged space.old space.new) }
{
    if !space.contains_key(name) {
        let number = small_number(number)?;
        let key = String::from_str(alloc, name)?;
        space.insert(key, number)?;
    }
    Ok(())
}

/// Gives a pair its number, unless it has one. After `Memory` the space is as before.
pub fn add_pair(
    space: &mut IndexMap<(u32, u32), u32>,
    pair: (u32, u32),
    number: usize,
) -> Result<(), Memory>
    ensures added { OnOk result ((q : Pair) → get_by (pair_eq q) space.new
        ≡ or_else (get_by (pair_eq q) space.old) (if pair_eq q pair then Some number else None)) }
    ensures memory { OnErr result (IsUnchanged space.old space.new) }
{
    // Most pairs are new, so that the second insertion is rare.
    if let Some(first) = space.insert(pair, small_number(number)?)? {
        space.insert(pair, first)?;
    }
    Ok(())
}

// Gives the text at a key of a row its number. After `Memory` the space is as before.
fn add_text(
    alloc: Global,
    space: &mut IndexMap<String, u32>,
    key: &str,
    number: usize,
    row: &Value,
) -> Result<(), Memory>
    ensures added { OnOk result
        (Adds (with_number number (texts_at key.now (view row.now))) (get_by_text space.old)
        (get_by_text space.new)) }
    ensures memory { OnErr result (IsUnchanged space.old space.new) }
{
    match text_at(row, key) {
        Some(name) => add_name(alloc, space, name, number),
        None => Ok(()),
    }
}

// Gives the texts at a key of rows the numbers from this one on. After `Memory` some first rows have theirs.
fn add_texts(
    alloc: Global,
    space: &mut IndexMap<String, u32>,
    key: &str,
    before: usize,
    rows: &[Value],
) -> Result<(), Memory>
    requires { before + length rows.now < 2 ^ 64 }
    ensures added { OnOk result
        (Adds (along (λ i row. with_number (before + i) (texts_at key.now (view row))) 0 rows.now)
        (get_by_text space.old) (get_by_text space.new)) }
    ensures memory { OnErr result ((done : ℕ) × (done ≤ length rows.now)
        × Adds (along (λ i row. with_number (before + i) (texts_at key.now (view row))) 0
        (take done rows.now))
        (get_by_text space.old) (get_by_text space.new)) }
{
    for (i, row) in rows.iter().enumerate() {
        add_text(alloc, space, key, before + i, row)?;
    }
    Ok(())
}

/// Gives the names at a key of rows the numbers of the rows, of which the first has this one. A name that has a
/// number keeps it. After `Memory` this is done for some first rows.
pub fn add_names(
    alloc: Global,
    space: &mut IndexMap<String, u32>,
    key: &str,
    before: usize,
    rows: &[Value],
) -> Result<(), Memory>
    requires { before + length rows.now < 2 ^ 64 }
    ensures added { OnOk result
        (Adds (numbered (texts_at key.now) before (map view rows.now)) (get_by_text space.old)
        (get_by_text space.new)) }
    ensures memory { OnErr result
        (AddsFront key.now before (map view rows.now) (get_by_text space.old)
        (get_by_text space.new)) }
{
    add_texts(alloc, space, key, before, rows)?;
    Ok(())
}

/// Returns the names at a key of rows, with the numbers of the rows from 0 on.
pub fn names_at(alloc: Global, key: &str, rows: &[Value]) -> Result<IndexMap<String, u32>, Memory>
    ensures { IfOk result
        (λ made. SameNames (get_by_text made)
        (found_in (numbered (texts_at key.now) 0 (map view rows.now)))) }
{
    let mut made = IndexMap::new(alloc);
    add_names(alloc, &mut made, key, 0, rows)?;
    Ok(made)
}
