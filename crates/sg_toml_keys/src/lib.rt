//! The tables and keys of a platform text and a deployment text as data, and the values that texts give with units.
//! One enters by `PLATFORM` and `DEPLOYMENT`, the tables in their order: `keys` of a `Table` gives each key with its
//! rule.
//! It stands on `sg_units`.
#![tactic(auto)]

mod tables;
mod units;

pub use tables::{DEPLOYMENT, Key, Need, PLATFORM, Rule, Table, TextRule, TextsRule};
pub use units::{Quantity, whole_value};
