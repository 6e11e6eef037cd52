//! Containers by number: first-in-first-out queues that also release elements from the middle, and values by activity id.
//! `Queues` has slots with values, `Rings` is for a caller that keeps the values. `BySerial` finds an id in the place under
//! its last digits, which is free if few more ids are in use at once than room was made for at first; the others are in a
//! hash map.
//! It stands on `sg_base`.
#![tactic(auto)]

mod by_serial;
mod links;
mod queues;
mod rings;

pub use by_serial::BySerial;
pub use queues::Queues;
pub use rings::Rings;
