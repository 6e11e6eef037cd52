//! The rules that a platform text and a deployment text keep, and the first fault of a tree.
//! One enters by `first_fault`, with the tables of the text and the names of its tree.
//! It stands on `sg_toml_keys` for the keys of each table, on `sg_toml_tree` for names, and on what is below these.
#![tactic(auto)]

mod arguments;
mod checks;
mod faults;
mod laws;
mod power;
mod profiles;
mod routes;

pub use arguments::text_of;
pub use faults::first_fault;
pub use laws::{faults_rise, platform_kinds};
pub use power::{Powers, powers_in};
pub use profiles::{amount_in, is_of_host, items_at, quantity_of, state_in};
