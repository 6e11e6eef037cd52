//! What an actor does.
ghost use Rattle.std.specs.Prelude.{◌≡◌};
ghost use Rattle.sg_actor_states.specs.Actors.{blocked_of, blocking_in, inbox_of, is_alive, is_over, is_ready as is_ready_spec, joined_in};

use sg_base::{ActorId, Answer, Await, Call};

/// What an actor does.
#[derive(Clone, Copy)]
pub enum State {
    /// It waits until another starts it.
    Unstarted,
    /// It is to take a turn, with this answer.
    Ready(Answer),
    /// It is blocked by this call since this date: until its endpoint of an activity is done, or, with none, until the
    /// call of another wakes it.
    Blocked(Call, u128, Option<Await>),
    /// It has made its last call, or another has killed it.
    Ended,
}

/// Why an actor is blocked: its call, the date of the call, and its endpoint of an activity, if it waits for one.
#[derive(Clone, Copy)]
pub struct Blocking {
    /// The call.
    pub what: Call,
    /// When it was made.
    pub since: u128,
    /// The endpoint that it waits for.
    pub on: Option<Await>,
}

/// What an actor does, and whether another has suspended it: then it takes no turn.
#[derive(Clone, Copy)]
pub struct Actor {
    /// What it does.
    pub state: State,
    /// Whether it is suspended.
    pub suspended: bool,
}

impl State {
    /// Returns why it is blocked.
    pub fn blocking(self) -> Option<Blocking>
        ensures { result ≡ blocking_in self }
    {
        match self {
            State::Blocked(what, since, on) => Some(Blocking { what, since, on }),
            _ => None,
        }
    }

    /// Returns the call by which it is blocked.
    pub fn blocked(self) -> Option<Call>
        ensures { result ≡ blocked_of self }
    {
        match self {
            State::Blocked(what, _, _) => Some(what),
            _ => None,
        }
    }

    /// Returns whether it has started and hasn't ended.
    pub fn is_alive(self) -> bool
        ensures { result ≡ is_alive self }
    {
        match self {
            State::Ready(_) | State::Blocked(..) => true,
            State::Unstarted | State::Ended => false,
        }
    }

    /// Returns for whose end it waits.
    pub(crate) fn joined(self) -> Option<ActorId>
        ensures { result ≡ joined_in self }
    {
        match self {
            State::Blocked(Call::Join(of), _, _) => Some(of),
            _ => None,
        }
    }
}

impl Actor {
    /// Returns whether it is to take a turn.
    pub(crate) fn is_ready(self) -> bool
        ensures { result ≡ is_ready_spec self }
    {
        matches!(self.state, State::Ready(_)) && !self.suspended
    }

    /// Returns whether it takes no turn again, unless another starts it.
    pub(crate) fn is_over(self) -> bool
        ensures { result ≡ is_over self }
    {
        !self.state.is_alive()
    }

    /// Returns the answer with which it takes a turn.
    pub(crate) fn inbox(self) -> Option<Answer>
        ensures { result ≡ inbox_of self }
    {
        match self.state {
            State::Ready(answer) if !self.suspended => Some(answer),
            _ => None,
        }
    }
}
