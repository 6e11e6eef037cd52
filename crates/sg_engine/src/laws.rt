//! Laws of runs, each the contract of a function that does nothing.
ghost use Rattle.sg_engine.specs.Fuel.{MoreChangesNothing};

/// A run that has ended in so many scheduling rounds and time advances is the same if there may be more of them.
pub fn more_parts_change_nothing()
    ensures { MoreChangesNothing }
{}
