//! Laws of actors.
ghost use Rattle.sg_kernel_laws.specs.actors.Creates.{CreatesAreExact};
ghost use Rattle.sg_kernel_laws.specs.actors.Dead.{AnswersStay, DeadStayDead};
ghost use Rattle.sg_kernel_laws.specs.actors.Kills.{KillsEnd};

/// An actor that has ended, even by a kill, stays so with each call and each time advance, has the requests that it
/// had, and no record that they make is of it: it is never answered again.
pub fn the_dead_stay_dead()
    ensures { DeadStayDead }
{}

/// An actor that has an answer still has it after each call of another and each time advance, or that call has killed
/// it.
pub fn answers_stay()
    ensures { AnswersStay }
{}

/// A kill of an actor that is alive ends it within the event of the call: it waits for no mutex, semaphore or barrier
/// and has no requests any more, it gets no answer, and it keeps the mutexes that it owns.
pub fn kills_end()
    ensures { KillsEnd }
{}

/// A create is refused exactly if the named actor was given no context; with one it starts, and all others stay as they
/// are except the caller, which is answered.
pub fn creates_are_exact()
    ensures { CreatesAreExact }
{}
