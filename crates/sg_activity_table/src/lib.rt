//! What activities are made of, and the running ones, by key and by activity id.
//! The type is `Lives`: `put` gives an activity a key, `get` and `find` return the one of a key or of an id, `set`
//! replaces it, `restamp` changes its rate, and `remove` removes it.
//! It stands on the kit's `slab` for keys, on `sg_queues` for keys by activity id, and on `sg_base`.
#![tactic(auto)]

mod cells;
mod kinds;
mod lives;

pub use kinds::{HostCap, LinkCap, Phase, PhaseKind, Place, Power};
pub use lives::{Live, Lives, UNBEGUN, flows_ahead, is_exec, is_held, takes_share, uses_ahead};
