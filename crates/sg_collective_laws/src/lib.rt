//! What collectives mean for whole runs, as laws, each the contract of a function without a body.
//! One begins at `collectives_run`.
//! It stands on `sg_engine`, on `sg_platform` for the texts that runs are of, and what is below these.
#![tactic(auto)]

mod laws;

pub use laws::{
    answers_make_runs, collectives_answer, collectives_run, collectives_write, texts_have_names,
};
