//! Running activities: executions, sleeps and communications, what remains of each, and when the next phase completes.
//! The type is `Activities`: `start_exec`, `start_timer` and `start_comm` begin one, `settle` brings the rates up to
//! date, `next_date` and `advance_to` move the date, `due` and `finish` end a phase.
//! It stands on `sg_lazy` for rates, `sg_heap` for dates, `sg_energy` for powers, `sg_activity_table` for what is running, and
//! what is below these.
#![tactic(auto)]

mod activities;
mod activity_room;
mod activity_state;
mod beginning;
mod capacities;
mod index;
mod laws;
mod phases;
mod power;
mod renewal;
mod routes;
mod switches;

pub use activities::Activities;
pub use laws::{load_fits, load_is_its_own};
pub use sg_activity_table::{HostCap, LinkCap, Phase, PhaseKind, Power};
