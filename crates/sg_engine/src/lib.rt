//! The run of a simulation: a context pool for its slots, scheduling rounds and time advances over the kernel, the
//! script read on demand, and the lines that are written.
//! One enters by `run`, with a `Setup` and `Terms`, and gets back how the run `Ended`.
//! It stands on `sg_actor` for turns, `sg_kernel` for what calls do, `sg_script` for actions, `sg_trace` for lines, and
//! what is below these.
#![tactic(auto)]

mod actor_call;
mod advance;
mod answers;
mod buffer;
mod ended;
mod fault_lines;
mod final_state;
mod finish;
mod laws;
mod output;
mod plan;
mod printing;
mod report;
mod roles;
mod rounds;
mod seating;
mod setup;
mod show;
mod simulation;
mod start;
mod turns;
mod whole_run;

pub use ended::Ended;
pub use laws::more_parts_change_nothing;
pub use output::Output;
pub use plan::Terms;
pub use setup::Setup;
pub use sg_kernel::Stop;
pub use show::Show;
pub use whole_run::run;
