//! Laws of what members do together.
ghost use Rattle.sg_collectives.specs.Together.{AllreduceIsBoth, AlltoallJoinsEachPair, BcastReachesEachOnce, ReduceTakesEachOnce};

/// In a bcast each member except that of rank 0 receives once, from one of a lower rank, and sends on after that alone; all
/// have the bytes after so many turns as it takes to double 1 until it is the number of members.
pub fn bcast_reaches_each_once()
    ensures { BcastReachesEachOnce }
{}

/// In a reduce each member except that of rank 0 sends once, to one of a lower rank, after all that it receives, and computes
/// once after each message; it is the bcast backwards.
pub fn reduce_takes_each_once()
    ensures { ReduceTakesEachOnce }
{}

/// An allreduce is a reduce, and then a bcast.
pub fn allreduce_is_both()
    ensures { AllreduceIsBoth }
{}

/// In an alltoall each member sends to each other once and receives from each other once, and waits for all of it.
pub fn alltoall_joins_each_pair()
    ensures { AlltoallJoinsEachPair }
{}
