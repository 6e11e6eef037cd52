//! Cases of whole jobs: tables of those that need streams that fail, reads of few bytes, a context pool or threads that
//! meet, and of the jobs that each change is tried on first; how a table is read, its texts, and the loops over it.
//! What does a job is handed in, so that this crate knows no simulation. All other cases are in `tests/cases.d`.
//! One enters by `hold` and a table, as `RUNS`, and by `hold_failing` if each call and each write is to fail in turn.
//! It stands on `sg_edge` for parts and streams in memory, and on `sg_actor` for contexts.
#![tactic(auto)]

mod case;
mod cases;
mod changes;
mod crew;
mod done;
mod failing;
mod failures;
mod faults;
mod jobs;
mod limits;
mod literal;
mod meeter;
mod runs;
mod texts;

pub use case::Case;
pub use cases::hold;
pub use changes::CHANGES;
pub use crew::Kind;
pub use done::Done;
pub use failing::hold_failing;
pub use failures::{EACH_FAILURE, FAILURES};
pub use faults::FAULTS;
pub use jobs::{JOBS, MEETINGS};
pub use limits::{LIMITS, LONG};
pub use meeter::Meeter;
pub use runs::{COMPUTATIONS, RUNS};
