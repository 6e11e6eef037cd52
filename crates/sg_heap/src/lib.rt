//! The event queue: slots with dates, the least of which is found at once.
//! The type is `Agenda`: `set` and `clear` write the date of a slot, `least` returns the first by date and activity id.
//! It stands on `sg_base`.
#![tactic(auto)]

mod agenda;
mod entry;
mod keys;
mod sifting;

pub use agenda::Agenda;
