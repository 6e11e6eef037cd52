//! Reads a TOML text into its tree, and finds there rows, keys and names; faults with their places.
//! One enters by `read_tree`, and then by `rows_at` and `value_at`; `Fault` is a kind at a `Place`. `platform_names` and
//! `deployment_names` collect all `Names` of a tree: under which number each stands first.
//! It stands on `sg_base`, and on toml and indexmap.
#![tactic(auto)]

mod fault;
mod links;
mod name_spaces;
mod names;
mod pairs;
mod subjects;
mod tree;
mod workers;

pub use fault::{Fault, Kind, Place};
pub use links::is_split;
pub use name_spaces::{add_name, add_names, add_pair, names_at, small_number};
pub use names::{Names, deployment_names, platform_names};
pub use pairs::{is_symmetrical, point_at, truth_at};
pub use subjects::Subjects;
pub use tree::{NoTree, read_tree, rows_at, take_rows, text_at, text_or_empty, value_at};
pub use workers::has_function;
