//! Laws of runs in which hosts or links fail, actors are killed, and hosts use energy.
ghost use Rattle.sg_engine_laws.specs.changes.Answers.{FailedAnswersHaveRecordsInRuns};
ghost use Rattle.sg_engine_laws.specs.changes.Ended.{EndedActorsStayEnded};
ghost use Rattle.sg_engine_laws.specs.changes.Energy.{EnergyIsSum};
ghost use Rattle.sg_engine_laws.specs.changes.Failing.{KillsFailWhatIsAwaitedInRuns, MeetingsTellBothInRuns, TimeAdvancesFailWhatIsOffInRuns};
ghost use Rattle.sg_engine_laws.specs.changes.Failures.{NoOtherFailsInRuns, NothingOffIsUsedInRuns};
ghost use Rattle.sg_engine_laws.specs.changes.Meets.{MeetingsTellBoth};
ghost use Rattle.sg_engine_laws.specs.changes.Once.{NobodyHasTwoRecords};
ghost use Rattle.sg_engine_laws.specs.changes.Order.{ExitsTellJoiners, KillsTellInOrder};
ghost use Rattle.sg_engine_laws.specs.changes.Queues.{KilledWaitNowhere};
ghost use Rattle.sg_engine_laws.specs.changes.Rising.{TimeAdvancesRecordBySerial};
ghost use Rattle.sg_engine_laws.specs.changes.Spares.{OtherCallsEndNothing};
ghost use Rattle.sg_engine_laws.specs.changes.Theirs.{AwaitedAreDrawn, NobodyWaitsForOver};
ghost use Rattle.sg_engine_laws.specs.changes.Told.{KillsReach, PassesAnswer};

/// In a run no running activity uses a host or a link that is off: not after a scheduling round or a time advance, even
/// the last one, unless the budget ends the run, and not within a scheduling round.
pub fn nothing_off_is_used_in_runs()
    ensures { NothingOffIsUsedInRuns }
{}

/// In a run no call except a Compute, Send, Recv or Wait is ever answered as failed.
pub fn no_other_fails_in_runs()
    ensures { NoOtherFailsInRuns }
{}

/// In each core of a run an actor that is blocked on an activity takes part in it, and it hasn't ended: whoever was
/// blocked on what failed or completed, in a call, a kill or a time advance, has been answered.
pub fn nobody_waits_for_over()
    ensures { NobodyWaitsForOver }
{}

/// All that an actor awaits in a core of a run was drawn: its activity id is above 0.
pub fn awaited_are_drawn()
    ensures { AwaitedAreDrawn }
{}

/// If a time advance completes or fails an activity, each actor that is blocked on it has then a record of its call and
/// an answer, which both say so.
pub fn passes_answer()
    ensures { PassesAnswer }
{}

/// The kill of a living actor reaches whoever else is blocked, in a core of a run, on an activity that it awaits: there
/// is a record that its call failed, and it has an answer.
pub fn kills_reach()
    ensures { KillsReach }
{}

/// If a meeting fails in a call, the sender and the receiver have a record each, the sender first, and their answers,
/// and their communication has failed.
pub fn meetings_tell_both()
    ensures { MeetingsTellBoth }
{}

/// The kill of a living actor records first its caller, then the other endpoints of what the killed one awaited, in
/// order of activity id, and then those that joined it, by rising id, each of which has its answer.
pub fn kills_tell_in_order()
    ensures { KillsTellInOrder }
{}

/// An exit makes a record of each actor that joined the one that exits, by rising id, and of no other, and each of them
/// has its answer.
pub fn exits_tell_joiners()
    ensures { ExitsTellJoiners }
{}

/// From its kill on, an actor waits in no queue, to the end of the run.
pub fn killed_wait_nowhere()
    ensures { KilledWaitNowhere }
{}

/// The energy of a host at the end of a run, and after each of its scheduling rounds and time advances, is the sum over
/// the stretches between their dates of the power that it has before each, times the nanoseconds of it. A
/// scheduling round takes no time.
pub fn energy_is_sum()
    ensures { EnergyIsSum }
{}

/// An actor that has ended anywhere in a run stays so to the end of the run, has the requests that it had, and no record
/// that the run makes since is of it.
pub fn ended_actors_stay_ended()
    ensures { EndedActorsStayEnded }
{}

/// No actor has two records in one kill, in one exit or in one time advance.
pub fn nobody_has_two_records()
    ensures { NobodyHasTwoRecords }
{}

/// Anywhere in a run each actor that is ready with the answer that its call failed has made a Compute, Send, Recv or
/// Wait, and the run has a record that it failed.
pub fn failed_answers_have_records_in_runs()
    ensures { FailedAnswersHaveRecordsInRuns }
{}

/// A time advance makes the records of the activities that fail after a profile entry by rising id, entry by entry, and
/// then those of the activities that complete, by rising id too.
pub fn time_advances_record_by_serial()
    ensures { TimeAdvancesRecordBySerial }
{}

/// In a run each time advance fails the activities that use a host or a link that is off after a profile entry of its
/// date, and completes those of which the last phase completes then, and ends no other; if the budget ends the run there,
/// some may be left.
pub fn time_advances_fail_what_is_off_in_runs()
    ensures { TimeAdvancesFailWhatIsOffInRuns }
{}

/// Each kill in a run fails the activities that the killed actor awaited and that had not ended, and no other.
pub fn kills_fail_what_is_awaited_in_runs()
    ensures { KillsFailWhatIsAwaitedInRuns }
{}

/// If in a run an arriving endpoint matches another and the way between them is cut, their communication has failed, and
/// no other activity; if the other's actor is blocked on it, both have a record, the sender first, and their answers.
pub fn meetings_tell_both_in_runs()
    ensures { MeetingsTellBothInRuns }
{}

/// No call ends an activity, except the kill of an actor that is alive and a match whose way is cut; nor does a create or
/// the fetch of a line.
pub fn other_calls_end_nothing()
    ensures { OtherCallsEndNothing }
{}
