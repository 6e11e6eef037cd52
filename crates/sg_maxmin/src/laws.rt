//! Laws of max-min shares, levels and holds, each the contract of a function that does nothing.
ghost use Rattle.sg_maxmin.specs.Balanced.{BalanceIsFilling, FillingBalances};
ghost use Rattle.sg_maxmin.specs.Held.{FillingIsHeld, FullHolds, HeldIsFilling, HoldIsLocal, HoldIsOne, OthersHoldNone};
ghost use Rattle.sg_maxmin.specs.Numbered.{RowTells};
ghost use Rattle.sg_maxmin.specs.Relisted.{FillsInAnyOrder};
ghost use Rattle.sg_maxmin.specs.Unweighted.{FillsEqually};
ghost use Rattle.sg_maxmin.specs.Worked.{AreWorked};
ghost use Rattle.sg_maxmin.specs.Laws.{FillsApart, FillsFairly, FixesAll, FixesOnce, IsHeld, KeepsBound, KeepsShare, LevelIsFixed, LevelRises, SharesSame, SumsChange};

/// Progressive filling is max-min fair in whole units: on each resource the shares add up to at most its capacity,
/// and each flow has its bound as its share, or uses a resource on which its share is the greatest for its weight
/// and on which fewer units are left than the sum of `2w - 1` over the weights w of the flows on it.
pub fn is_fair()
    ensures { FillsFairly }
{}

/// If each flow weighs 1, the weighted max-min shares are the unweighted ones.
pub fn fills_equally()
    ensures { FillsEqually }
{}

/// No flow gets more than its bound.
pub fn keeps_bound()
    ensures { KeepsBound }
{}

/// The max-min solve ends: after as many steps as there are flows each flow is fixed.
pub fn fixes_all()
    ensures { FixesAll }
{}

/// The level of a flow is the one at which the steps fix it.
pub fn level_is_fixed()
    ensures { LevelIsFixed }
{}

/// A flow is fixed once: in whichever step it is, at its level.
pub fn fixes_once()
    ensures { FixesOnce }
{}

/// The lowest level rises strictly from step to step.
pub fn level_rises()
    ensures { LevelRises }
{}

/// The max-min shares of two lists of flows that share no resource are those of each list alone.
pub fn fills_apart()
    ensures { FillsApart }
{}

/// A flow that shares no resource with those that come and go keeps its share.
pub fn keeps_share()
    ensures { KeepsShare }
{}

/// If all sums over two lists of flows are equal, so are the shares: the order of the flows doesn't matter.
pub fn shares_same()
    ensures { SharesSame }
{}

/// The order of the resources doesn't matter: with the capacities at other places, and each flow using the same
/// resources at these places, listed in whatever order, each flow has the share that it had.
pub fn fills_in_any_order()
    ensures { FillsInAnyOrder }
{}

/// A sum over the flows that a system holds changes by what comes or goes.
pub fn sums_change()
    ensures { SumsChange }
{}

/// The flow under a number is one of those that the system holds.
pub fn is_held()
    ensures { IsHeld }
{}

/// Levels that balance at each flow and at each resource are the max-min levels.
pub fn balance_is_filling()
    ensures { BalanceIsFilling }
{}

/// The max-min levels balance.
pub fn filling_balances()
    ensures { FillingBalances }
{}

/// The level of a resource depends on the flows on it alone.
pub fn row_tells()
    ensures { RowTells }
{}

/// If each flow's level is the least of its bound's level and its resources' holds, the levels are the max-min levels.
pub fn held_is_filling()
    ensures { HeldIsFilling }
{}

/// Each flow's max-min level is the least of its bound's level and of its resources' holds.
pub fn filling_is_held()
    ensures { FillingIsHeld }
{}

/// A resource has one hold.
pub fn hold_is_one()
    ensures { HoldIsOne }
{}

/// A hold depends on the capacity, the flows on the resource and their levels alone.
pub fn hold_is_local()
    ensures { HoldIsLocal }
{}

/// After a max-min solve a resource that is at the level of one of its users holds at it.
pub fn full_holds()
    ensures { FullHolds }
{}

/// After a max-min solve a resource that is at the level of none of its users holds none.
pub fn others_hold_none()
    ensures { OthersHoldNone }
{}

/// Max-min shares that were worked out by hand.
pub fn worked_examples()
    ensures { AreWorked }
{}
