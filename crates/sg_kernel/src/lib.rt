//! The kernel of a simulation: it answers the calls of actors, moves the date, and reports when a run has to end.
//! One enters by `Kernel`: `answer` takes the call of an actor, `pass` moves the date to what comes next; both return a
//! `Stop` if the run can't continue.
//! It stands on `sg_kernel_calls` for what is kept and for how each call changes it. The file setup.rt makes what a simulation
//! is made with from the rows of a platform and a deployment.
#![tactic(auto)]

mod beginning;
mod entries;
mod failures;
mod kernel;
mod laws;
mod passes;
mod setup;

pub use kernel::Kernel;
pub use laws::{nothing_off_is_used, roads_are_over};
pub use sg_kernel_calls::Stop;
