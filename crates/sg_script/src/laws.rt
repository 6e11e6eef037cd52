//! Laws of fetched lines and of collectives, each the contract of a function that does nothing.
ghost use Rattle.sg_script.specs.Laws.{CollectivesMeet, FaultsRepeat, NeedIsMost, NeedsAddUp};

/// The fault that an actor's fetch reports is reported again to each later one.
pub fn faults_repeat()
    ensures { FaultsRepeat }
{}

/// What is read over a run stays within a piece of what its fetches need, as it does for each of them.
pub fn needs_add_up()
    ensures { NeedsAddUp }
{}

/// What is within a piece of what one fetch needs is within a piece of what all need.
pub fn need_is_most()
    ensures { NeedIsMost }
{}

/// For every collective and every two actors, the one sends to the other as often as that one receives from it.
pub fn collectives_meet()
    ensures { CollectivesMeet }
{}
