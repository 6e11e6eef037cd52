//! How events are counted, and the budget.
ghost use Rattle.std.specs.Prelude.{◌≡◌, ◌≢◌, ◌==◌, ◌+◌, MatchResult, OnErr};
ghost use Rattle.sg_kernel_calls.specs.kept.Acts.{CountsOne, IsUsedUp};
ghost use Rattle.sg_kernel_calls.specs.kept.Sound.{IsSound};

use crate::simulation_state::Fields;
use crate::stop::Stop;

/// Returns whether as many events were counted as there may be.
pub fn is_used_up(fields: &Fields) -> bool
    ensures { result ≡ (fields.now.events == fields.now.setup.budget) }
{
    fields.events == fields.setup.budget()
}

/// Stops the run if the budget is used up.
pub fn check_budget(fields: &Fields) -> Result<(), Stop>
    ensures { MatchResult result
        (λ unit. fields.now.events ≢ fields.now.setup.budget)
        (λ stop. IsUsedUp fields.now stop) }
{
    if is_used_up(fields) {
        Err(Stop::Budget)
    } else {
        Ok(())
    }
}

/// Counts an event. The budget isn't used up.
pub fn count(fields: &mut Fields)
    requires sound { IsSound fields.old }
    requires left { fields.old.events ≢ fields.old.setup.budget }
    ensures { fields.new ≡ record fields.old { events = fields.old.events + 1 } }
{
    fields.events += 1;
}

/// Counts the next event, or stops the run if the budget is used up.
pub fn event(fields: &mut Fields) -> Result<(), Stop>
    requires { IsSound fields.old }
    ensures counts { MatchResult result
        (λ unit. CountsOne fields.old fields.new)
        (λ stop. IsUsedUp fields.old stop) }
    ensures stays { OnErr result (fields.new ≡ fields.old) }
{
    check_budget(fields)?;
    count(fields);
    Ok(())
}
