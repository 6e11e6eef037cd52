//! Laws of what actors await.
ghost use Rattle.sg_engine_laws.specs.awaits.Awaits.{EndedAreUnnamed, KilledLeaveNothing, NamedAreAwaited};
ghost use Rattle.sg_engine_laws.specs.awaits.InRuns.{EndedInRunsAreUnnamed, KilledInRunsAreUnnamed, NamedInRunsAreAwaited, RunsAreReached};
ghost use Rattle.sg_engine_laws.specs.awaits.Reached.{StartsAreReached};

/// Each platform and each deployment has a core from which a run sets out.
pub fn starts_are_reached()
    ensures { StartsAreReached }
{}

/// In each core that a run reaches an actor awaits all that names it: each running activity of its own, each of its
/// endpoints in a mailbox and each of its communications is the one on which it is blocked, or among its requests.
pub fn named_are_awaited()
    ensures { NamedAreAwaited }
{}

/// So nothing names an actor that has ended, and has no requests.
pub fn ended_are_unnamed()
    ensures { EndedAreUnnamed }
{}

/// The kill of a living actor leaves nothing that names it, neither a running activity nor an endpoint in a mailbox,
/// and nothing ever names it again.
pub fn killed_leave_nothing()
    ensures { KilledLeaveNothing }
{}

/// Each core of a run is reached, so that all laws of what a run reaches hold in it: an actor that calls in a
/// scheduling round has an answer until its call's turn, or was killed and is skipped.
pub fn runs_are_reached()
    ensures { RunsAreReached }
{}

/// In each core of a run an actor awaits all that names it.
pub fn named_in_runs_are_awaited()
    ensures { NamedInRunsAreAwaited }
{}

/// So nothing in it names an actor that has ended, and has no requests.
pub fn ended_in_runs_are_unnamed()
    ensures { EndedInRunsAreUnnamed }
{}

/// From the kill of a living actor on, nothing in the run names that actor.
pub fn killed_in_runs_are_unnamed()
    ensures { KilledInRunsAreUnnamed }
{}
