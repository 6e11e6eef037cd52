//! Laws of levels that are kept current. Each function does nothing, and its contract is the law.
ghost use Rattle.sg_maxmin_levels.specs.Changes.{HoldStays, HoldStaysFrom, SlackHoldsNone, SlackIsAbove};
ghost use Rattle.sg_maxmin_levels.specs.Demand.{DemandHoldsNone};
ghost use Rattle.sg_maxmin_levels.specs.Kept.{NotesAddUp, SharesAreNoted, WayBack};
ghost use Rattle.sg_maxmin_levels.specs.Settling.{ChangesKeep, HeldSettles, SettlingEnds};

/// A hold stays as long as no level below it changes.
pub fn hold_stays()
    ensures { HoldStays }
{}

/// A hold doesn't fall below the levels that change.
pub fn hold_stays_from()
    ensures { HoldStaysFrom }
{}

/// A resource whose flows leave enough is above a level.
pub fn slack_is_above()
    ensures { SlackIsAbove }
{}

/// A resource whose flows leave enough holds none of them.
pub fn slack_holds_none()
    ensures { SlackHoldsNone }
{}

/// A resource that offers more than the demand on it holds none of its flows.
pub fn demand_holds_none()
    ensures { DemandHoldsNone }
{}

/// Once no resource is active, all flows are held.
pub fn settling_ends()
    ensures { SettlingEnds }
{}

/// If all flows are held, a rate update may begin.
pub fn held_settles()
    ensures { HeldSettles }
{}

/// A change that makes active what it touches leaves what is written of all else right.
pub fn changes_keep()
    ensures { ChangesKeep }
{}

/// What two stretches of time note, they note together.
pub fn notes_add_up()
    ensures { NotesAddUp }
{}

/// A flow that isn't noted was there before, with the share that it has now.
pub fn shares_are_noted()
    ensures { SharesAreNoted }
{}

/// If the connected components of all that is active or stale are solved, all flows are held.
pub fn way_back()
    ensures { WayBack }
{}
