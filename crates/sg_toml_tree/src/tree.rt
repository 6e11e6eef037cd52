//! The tree of a text, and what stands at its keys.
ghost use Rattle.std.specs.Prelude.{◌≡◌, ◌∷◌, [], IfOk, IsErrOf, Some, None, map, option_map, option_copied};
ghost use Rattle.std.specs.Option.{option_map_or};
ghost use Rattle.sg_toml_tree.specs.Tree.{list_of, tree_of, rows_at, text_at, text_or_empty};
ghost use Rattle.sg_toml_tree.specs.kept.Rows.{KeepsBut};
ghost use Rattle.toml.specs.Data.{as_array, get_member};
ghost use Rattle.toml.specs.View.{view, table_view};

use std::alloc::Global;
use toml::{Table, Value};

/// Why there is no tree.
#[derive(Clone, Copy)]
pub enum NoTree {
    /// The bytes aren't UTF-8, or the grammar of TOML gives them no tree.
    BadToml,
    Memory,
}

/// Returns the tree of some bytes.
pub fn read_tree(alloc: Global, bytes: &[u8]) -> Result<Table, NoTree>
    ensures ok { IfOk result (λ t. tree_of bytes.now ≡ Some (table_view t)) }
    ensures bad { IsErrOf result NoTree.BadToml → tree_of bytes.now ≡ None }
{
    match toml::table_from_slice(alloc, bytes) {
        Ok(table) => Ok(table),
        Err(e) => {
            if e.is_memory() {
                Err(NoTree::Memory)
            } else {
                Err(NoTree::BadToml)
            }
        }
    }
}

/// Returns the value at a key of the tree.
pub fn value_at<'a>(tree: &'a Table, name: &str) -> Option<&'a Value>
    ensures { option_map (λ v. view v.now) result ≡ get_member name.now (table_view tree.now) }
{
    tree.get(name)
}

/// Returns the rows of a table: none if it is absent or no array.
#[tactic(auto, using(crate::proofs::TreeLemmas::list_of_items), unfolding(crate::specs::Tree::rows_at))]
pub fn rows_at<'a>(tree: &'a Table, name: &str) -> &'a [Value]
    ensures { map view result.now ≡ rows_at name.now (table_view tree.now) }
{
    match value_at(tree, name) {
        Some(value) => match value.as_array() {
            Some(rows) => rows.as_slice(),
            None => &[],
        },
        None => &[],
    }
}

// Takes what stands at a key out of the tree.
fn take_value(tree: &mut Table, name: &str) -> Option<Value>
    ensures value { option_map view result ≡ get_member name.now (table_view tree.old) }
    ensures others { KeepsBut (name.now ∷ []) (table_view tree.old) (table_view tree.new) }
{
    tree.remove(name)
}

// Returns the items of an array: none if it isn't one.
fn items_of(alloc: Global, value: Value) -> Vec<Value>
    ensures { map view result.items ≡ option_map_or list_of (as_array (view value)) [] }
{
    match value {
        Value::Array(items) => items,
        _ => Vec::new(alloc),
    }
}

/// Takes the rows of a table out of the tree: none if it is absent or no array.
#[tactic(auto, unfolding(crate::specs::Tree::rows_at))]
pub fn take_rows(alloc: Global, tree: &mut Table, name: &str) -> Vec<Value>
    ensures rows { map view result.items ≡ rows_at name.now (table_view tree.old) }
    ensures others { KeepsBut (name.now ∷ []) (table_view tree.old) (table_view tree.new) }
{
    match take_value(tree, name) {
        Some(value) => items_of(alloc, value),
        None => Vec::new(alloc),
    }
}

/// Returns the text at a key of a row.
pub fn text_at<'a>(row: &'a Value, key: &str) -> Option<&'a str>
    ensures { option_copied result ≡ text_at key.now (view row.now) }
{
    row.get(key)?.as_str()
}

/// Returns the text at a key of a row, and the empty text if there is no such key.
pub fn text_or_empty<'a>(row: &'a Value, key: &str) -> &'a str
    ensures { result.now ≡ text_or_empty key.now (view row.now) }
{
    match text_at(row, key) {
        Some(text) => text,
        None => "",
    }
}
