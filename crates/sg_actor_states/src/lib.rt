//! What actors do: their states, the run queue, who waits for another to end, and the records of what was answered.
//! The type is `States`: `block` makes an actor wait, `answer` and `reply` make it ready, `begin` and `end` start and
//! end it, and `run_queue` returns who is to take a turn.
//! It stands on `sg_base`.
#![tactic(auto)]

mod crowd;
mod joiners;
mod queue;
mod records;
mod state;
mod states;

pub use state::{Actor, Blocking, State};
pub use states::States;
