//! Laws of whole runs.
ghost use Rattle.sg_engine_laws.specs.endings.Anywhere.{UsedBudgetsEndAnywhere};
ghost use Rattle.sg_engine_laws.specs.endings.Creating.{ContextsAreTaken, CreatesAreGiven};
ghost use Rattle.sg_engine_laws.specs.endings.Ending.{BudgetsAreKept, MoreIsTheSame, PartsCount, RunsEnd, UsedBudgetsEnd};
ghost use Rattle.sg_engine_laws.specs.endings.Left.{BudgetsEndBeforeEvents};

/// Each run continues with scheduling rounds and time advances until it ends, and it ends. So the number of them that
/// its definition has is a way of writing it.
pub fn runs_end()
    ensures { RunsEnd }
{}

/// A run is the same if there may be more scheduling rounds and time advances.
pub fn more_is_the_same()
    ensures { MoreIsTheSame }
{}

/// Each scheduling round and each time advance that doesn't end a run adds an event to its count.
pub fn parts_count()
    ensures { PartsCount }
{}

/// No run has more events than its budget, and one that ends by its budget has as many.
pub fn budgets_are_kept()
    ensures { BudgetsAreKept }
{}

/// A run that has used up its budget after a scheduling round or a time advance ends by it, if an event is next.
pub fn used_budgets_end()
    ensures { UsedBudgetsEnd }
{}

/// A create is refused exactly if the named actor began before, or no context of the pool remains, by what the run has
/// recorded until then.
pub fn creates_are_given()
    ensures { CreatesAreGiven }
{}

/// Anywhere in a run each actor that began has taken a context, and the others are left; and who never began is
/// unstarted.
pub fn contexts_are_taken()
    ensures { ContextsAreTaken }
{}

/// A run that ends by its budget does so where an event is next: the call of an actor in a scheduling round, or in a
/// time advance a profile entry of its date, a failure, or the end of a phase.
pub fn budgets_end_before_events()
    ensures { BudgetsEndBeforeEvents }
{}

/// Where the count of events is the budget and an event is next, the run ends there by its budget, with what it has
/// recorded until then: at each call of a scheduling round, and in a time advance at its start, and at each profile entry,
/// failure and end of a phase.
pub fn used_budgets_end_anywhere()
    ensures { UsedBudgetsEndAnywhere }
{}
