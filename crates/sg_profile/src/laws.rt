//! Laws of profiles, each the contract of a function that does nothing.
ghost use Rattle.sg_profile.specs.Laws.{AheadAtFirst, AheadMoves, AheadSteps, EntriesExist, EntriesRise, LoopsComeAgain, NextIsNear, NoneIsBefore, OthersComeOnce, PlatformsPromise, RowsAreLeft};

/// The profiles of a platform are of its hosts and links, and their values and dates keep to the limits.
pub fn platforms_promise()
    ensures { PlatformsPromise }
{}

/// Each entry is of a host or a link, and its value keeps to the limit.
pub fn entries_exist()
    ensures { EntriesExist }
{}

/// If a profile has a gap, entry i of its turn k comes at its own date after k times the last date and the gap; without
/// one its entries come once.
pub fn turns_follow()
    ensures again { LoopsComeAgain }
    ensures once { OthersComeOnce }
{}

/// The next entry of a profile is later, by 2 × 10^18 ns at most.
pub fn entries_rise()
    ensures { EntriesRise }
{}

/// The rows of a date follow one another, until no row remains.
pub fn rows_are_left()
    ensures next { RowsAreLeft }
    ensures none { NoneIsBefore }
{}

/// No entry is ever overdue, or more than 2 × 10^18 ns ahead.
pub fn entries_are_ahead()
    ensures first { AheadAtFirst }
    ensures near { NextIsNear }
    ensures moves { AheadMoves }
    ensures steps { AheadSteps }
{}
