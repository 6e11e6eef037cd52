//! A law of whole calls, the contract of a function that does nothing.
ghost use Rattle.simgrid_replay.specs.Completion.{OutcomesAreWhole};

/// If no write failed and there was memory, a call has written all that the definition has, with its status; and a run
/// that completes by the definition says so, or that memory ran out.
pub fn outcomes_are_whole()
    ensures { OutcomesAreWhole }
{}
