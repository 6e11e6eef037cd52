//! Scripts: what their lines say, and the answers to actors that fetch their next lines, read on demand.
//! One enters by `Script`: `next_of` is the next action of an actor, for which it reads on if need be; `read_line`
//! judges one line.
//! It stands on `sg_edge` for reading, `sg_units` for amounts, `sg_platform_rows` for names, and what is below these.
#![tactic(auto)]

mod arguments;
mod fault;
mod front;
mod judging;
mod laws;
mod line;
mod operation;
mod pending;
mod queues;
mod script;
mod verbs;
mod waiting;
mod words;

pub use fault::{LineFault, ScriptFault};
pub use laws::{collectives_meet, faults_repeat, need_is_most, needs_add_up};
pub use line::{Entry, read_line};
pub use operation::Operation;
pub use script::Script;
