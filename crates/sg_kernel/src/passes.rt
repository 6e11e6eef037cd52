//! Passes, and ends of phases.

ghost use Rattle.std.specs.Prelude.{◌≡◌, ◌<◌, IsTrue, MatchOption, None, Some, if◌then◌else◌};
ghost use Rattle.sg_activity.specs.Underway.{is_running};
ghost use Rattle.sg_kernel_calls.specs.Steps.{all_of, each, result_of};
ghost use Rattle.sg_kernel.specs.Passes.{ends, next_span, settled_pass};
ghost use Rattle.sg_kernel.specs.kept.Acts.{phase_ends, CanEnd, Ends, Passes};
ghost use Rattle.sg_kernel.specs.kept.Asks.{CanMoveOn, CanPass};
ghost use Rattle.sg_kernel.specs.kept.Coming.{coming, CountsSome, IsNextDate};
ghost use Rattle.sg_kernel_calls.specs.kept.Sound.{core_of, setup_in, StepsBy};
ghost use Rattle.sg_kernel_calls.specs.kept.Whole.{IsPassing, IsWhole};

use crate::entries::change_due;
use sg_activity::{Activities, Phase, PhaseKind};
use sg_kernel_calls::{Fields, Stop, answer_owners, check_budget, event};
use sg_mailbox::How;

// Returns why there is no next date.
fn none_next(doing: &Activities) -> Stop
    ensures { result ≡ (if is_running doing.now.under then Stop.Starved else Stop.Deadlock) }
{
    if doing.running() {
        Stop::Starved
    } else {
        Stop::Deadlock
    }
}

// Ends the first phase that completes at the date. The flow of a communication follows its latency; any other phase is
// the last one, after which the waiters of the activity are answered.
fn end_phase(fields: &mut Fields, phase: Phase)
    requires { CanEnd fields.old phase }
    ensures { Ends (phase_ends phase.serial.0) fields.old fields.new }
{
    fields.doing.finish();
    match phase.kind {
        PhaseKind::Latency => {}
        _ => {
            let whose = fields.whose.take(phase.serial);
            answer_owners(fields, How::Done, phase.serial, whose);
        }
    }
}

// Ends the phases that complete at the date, as far as the budget goes.
fn end_due(fields: &mut Fields) -> Result<(), Stop>
    requires { IsPassing fields.old }
    ensures passes { Passes (each (ends (setup_in fields.old)) fields.old.doing.due)
        fields.old fields.new result }
    ensures events { CountsSome fields.old.doing.due fields.old fields.new }
{
    while let Some(phase) = fields.doing.due() {
        event(fields)?;
        end_phase(fields, phase);
    }
    Ok(())
}

// Applies all that comes at the date: the entries of profiles, and then the ends of phases, as far as the budget goes.
fn come(fields: &mut Fields) -> Result<(), Stop>
    requires { CanPass fields.old }
    ensures passes { Passes (all_of (coming fields.old)) fields.old fields.new result }
    ensures events { fields.old.events < fields.new.events }
{
    match change_due(fields) {
        Ok(()) => end_due(fields),
        Err(stop) => Err(stop),
    }
}

// Returns the date of the next time advance: where the next phase completes or the next entry comes.
fn next_date(fields: &Fields) -> Option<u128>
    requires settled { IsTrue fields.now.doing.settled }
    requires whole { IsWhole fields.now }
    ensures { MatchOption result (next_span (setup_in fields.now) (core_of fields.now) ≡ None)
        (λ date. IsNextDate fields.now date) }
{
    let Some((entry, _)) = fields.profiles.next() else {
        return fields.doing.next_date();
    };
    match fields.doing.next_date() {
        Some(phase) => Some(phase.min(entry)),
        None => Some(entry),
    }
}

/// Moves the date to what comes next, and applies what comes then. The rates are up to date.
pub(crate) fn move_on(fields: &mut Fields) -> Result<(), Stop>
    requires { CanMoveOn fields.old }
    ensures known { StepsBy (settled_pass (setup_in fields.old)) fields.old fields.new }
    ensures result { result
        ≡ result_of (settled_pass (setup_in fields.old) (core_of fields.old)).stop }
    ensures whole { IsWhole fields.new }
{
    let Some(date) = next_date(fields) else {
        return Err(none_next(&fields.doing));
    };
    check_budget(fields)?;
    fields.doing.advance_to(date);
    fields.states.begin_pass();
    let stopped = come(fields);
    fields.states.end_pass();
    stopped
}
