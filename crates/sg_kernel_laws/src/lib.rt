//! How actors begin and end, and whose call is answered as failed, as laws, each the contract of a function without a body.
//! One begins at `the_dead_stay_dead` and `passes_tell`.
//! It stands on `sg_kernel` and what is below it.
#![tactic(auto)]

mod actors;
mod failures;

pub use actors::{answers_stay, creates_are_exact, kills_end, the_dead_stay_dead};
pub use failures::{
    calls_tell, failed_answers_have_records, kills_fail_what_is_awaited, no_other_fails,
    passes_tell, time_advances_fail_what_is_off,
};
