//! What actors await, how runs end, and what failures, kills and energy mean in whole runs, as laws, each the contract of
//! a function without a body.
//! One begins at `named_are_awaited`, `runs_end` and `nothing_off_is_used_in_runs`.
//! It stands on `sg_engine`, on `sg_kernel_laws`, and what is below these.
#![tactic(auto)]

mod awaits;
mod changes;
mod endings;

pub use awaits::{
    ended_are_unnamed, ended_in_runs_are_unnamed, killed_in_runs_are_unnamed, killed_leave_nothing,
    named_are_awaited, named_in_runs_are_awaited, runs_are_reached, starts_are_reached,
};
pub use changes::{
    awaited_are_drawn, ended_actors_stay_ended, energy_is_sum, exits_tell_joiners,
    failed_answers_have_records_in_runs, killed_wait_nowhere, kills_fail_what_is_awaited_in_runs,
    kills_reach, kills_tell_in_order, meetings_tell_both, meetings_tell_both_in_runs,
    no_other_fails_in_runs, nobody_has_two_records, nobody_waits_for_over,
    nothing_off_is_used_in_runs, other_calls_end_nothing, passes_answer,
    time_advances_fail_what_is_off_in_runs, time_advances_record_by_serial,
};
pub use endings::{
    budgets_are_kept, budgets_end_before_events, contexts_are_taken, creates_are_given,
    more_is_the_same, parts_count, runs_end, used_budgets_end, used_budgets_end_anywhere,
};
