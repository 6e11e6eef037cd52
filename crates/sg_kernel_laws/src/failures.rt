//! Laws of failures.
ghost use Rattle.sg_kernel_laws.specs.failures.Answers.{FailedAnswersHaveRecords};
ghost use Rattle.sg_kernel_laws.specs.failures.Cut.{TimeAdvancesFailWhatIsOff};
ghost use Rattle.sg_kernel_laws.specs.failures.Given.{KillsFailWhatIsAwaited};
ghost use Rattle.sg_kernel_laws.specs.failures.Laws.{CallsTell, PassesTell};
ghost use Rattle.sg_kernel_laws.specs.failures.Others.{NoOtherFails};

/// Each actor that a time advance answers waited for an activity, and its answer is a failure exactly if that activity
/// failed.
pub fn passes_tell()
    ensures { PassesTell }
{}

/// Whoever a call answers gets a failure exactly if the caller's host is off, the communication of its oldest request
/// has failed, or the route to the other endpoint is cut; so does the caller, if it waits. The kill of a living actor
/// fails the calls of those that were blocked on an activity that it awaited and that hadn't ended.
pub fn calls_tell()
    ensures { CallsTell }
{}

/// No call except a Compute, Send, Recv or Wait is ever answered as failed.
pub fn no_other_fails()
    ensures { NoOtherFails }
{}

/// In a time advance an activity fails only where a host or link that it uses is off after a profile entry of that date,
/// and completes only where none of them is and its last phase completes then; if the budget doesn't end the run, both
/// hold in the other direction too.
pub fn time_advances_fail_what_is_off()
    ensures { TimeAdvancesFailWhatIsOff }
{}

/// Each actor that a step answers that its call failed has a record of that failure in the step: nobody else becomes
/// ready with that answer.
pub fn failed_answers_have_records()
    ensures { FailedAnswersHaveRecords }
{}

/// In a kill of an actor that is alive each activity fails that the actor awaited and that had not ended; all others stay
/// as they were.
pub fn kills_fail_what_is_awaited()
    ensures { KillsFailWhatIsAwaited }
{}
