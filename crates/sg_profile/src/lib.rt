//! How the speeds of hosts and the bandwidths of links change during a run, and when they are turned on or off: which
//! entries come, and when.
//! One enters by `Profiles`: `next` is the entry of least date, `step` goes past it.
//! It stands on `sg_platform_rows` for the rows of a platform, and on `sg_heap` for whose entry is next.
#![tactic(auto)]

mod entry;
mod laws;
mod profile;
mod profiles;
mod slots;
mod turn;

pub use entry::{Entries, Entry};
pub use laws::{
    entries_are_ahead, entries_exist, entries_rise, platforms_promise, rows_are_left, turns_follow,
};
pub use profile::Profile;
pub use profiles::Profiles;
pub use turn::Turn;
