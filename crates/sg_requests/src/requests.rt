//! The requests of all actors.
ghost use Rattle.std.specs.Prelude.{◌≡◌, ◌+◌, ◌-◌, ◌<◌, ◌≤◌, [], length, replicate, IfOk};
ghost use Rattle.sg_requests.specs.Requested.{awaited_with, oldest, queue_at, queues_with_request, queues_without_oldest, without_requests, CanPush, HasReserved};

use crate::serials::{begin, empty, sort};
use sg_base::{ActorId, Await, Memory, Party, Serial};
use sg_queues::Queues;
use std::alloc::Global;
use std::marker::Model;

// What fills the place of a missing request.
const BLANK: Await = Await {
    serial: Serial(0),
    party: Party::Alone,
};

/// What each actor asked for without waiting, and hasn't waited for yet: oldest first.
///
/// Pushing and taking cost the same however many actors and requests there are; releasing all of an actor's requests
/// costs as much as sorting what it awaited. Only `new` and `reserve` take memory.
pub struct Requests {
    /// A queue for each actor.
    queues: Queues<Await>,
    /// How many requests were made in all.
    asked: u64,
    /// How many of them stand in the queues.
    standing: usize,
    /// Room for so many more.
    room: usize,
    /// The activity ids awaited by the last released actor.
    awaited: Vec<u64>,
}

// A function of its own, so that a proof in which one is dropped doesn't go into its parts.
impl Drop for Requests {
    fn drop(self) {
        let Requests {
            queues: _,
            asked: _,
            standing: _,
            room: _,
            awaited: _,
        } = self;
    }
}

impl Model for Requests {
    ghost use Rattle.std.specs.Prelude.{vec_capacity};
    ghost use Rattle.sg_requests.specs.Requested.{Requested};
    ghost use Rattle.sg_requests.specs.kept.Room.{IsRoomy};
    ghost use Rattle.sg_queues.specs.Queues.{values_of};

    ghost Value = { Requested };

    ghost view = { λ s. record {
      queues = values_of s.queues.queues;
      asked = s.asked;
      room = s.room;
      awaited = s.awaited.items;
    } };

    ghost invariant = { λ s. IsRoomy s.queues s.asked s.standing s.room (vec_capacity s.awaited) };
}

// Returns a queue for each of so many actors.
fn queues_of(alloc: Global, actors: usize) -> Result<Queues<Await>, Memory>
    ensures { IfOk result (λ q. q ≡ record { queues = replicate actors []; room = 0 }) }
{
    let mut queues = Queues::new(alloc, BLANK)?;
    for _i in 0..actors {
        queues.add_queue()?;
    }
    Ok(queues)
}

impl Requests {
    /// Makes a state of so many actors, without requests and room.
    pub fn new(alloc: Global, actors: usize) -> Result<Requests, Memory>
        ensures { IfOk result (λ r. r
            ≡ record { queues = replicate actors []; asked = 0; room = 0; awaited = [] }) }
    {
        Ok(Requests {
            queues: queues_of(alloc, actors)?,
            asked: 0,
            standing: 0,
            room: 0,
            awaited: Vec::with_capacity(alloc, 1)?,
        })
    }

    /// Makes room for so many more requests.
    pub fn reserve(&mut self, n: usize) -> Result<(), Memory>
        ensures { HasReserved n result self.old self.new }
    {
        self.queues.reserve(n)?;
        let room = n.max(self.room);
        let Some(most) = room.checked_add(self.standing + 1) else {
            return Err(Memory);
        };
        self.awaited.reserve(most)?;
        self.room = room;
        Ok(())
    }

    /// Adds a request of an actor, which becomes its newest.
    pub fn push(&mut self, actor: ActorId, request: Await)
        requires { CanPush self.old actor.0 }
        ensures { self.new ≡ record self.old {
          queues = queues_with_request self.old.queues actor.0 request;
          asked = self.old.asked + 1;
          room = self.old.room - 1;
        } }
    {
        let _ = self.queues.push_back(actor.index(), request);
        self.asked += 1;
        self.standing += 1;
        self.room -= 1;
    }

    /// Removes and returns the oldest request of an actor: `None` if the actor has none.
    pub fn take(&mut self, actor: ActorId) -> Option<Await>
        requires actor { (0 < actor.0) × (actor.0 ≤ length self.old.queues) }
        ensures oldest { result ≡ oldest (queue_at self.old.queues actor.0) }
        ensures rest { self.new ≡ record self.old {
          queues = queues_without_oldest self.old.queues actor.0;
        } }
    {
        let request = self.queues.pop_front(actor.index())?;
        self.standing -= 1;
        Some(request)
    }

    /// Releases all requests of an actor, which makes none any more. `awaited` returns their activity ids then, with
    /// that of the activity on which the actor is blocked, if there is one.
    pub fn let_go(&mut self, actor: ActorId, on: Option<Await>)
        requires actor { (0 < actor.0) × (actor.0 ≤ length self.old.queues) }
        ensures { self.new ≡ record self.old {
          queues = without_requests self.old.queues actor.0;
          awaited = awaited_with on (queue_at self.old.queues actor.0);
        } }
    {
        begin(&mut self.awaited, on);
        let others = self.awaited.len();
        empty(&mut self.queues, actor.index(), &mut self.awaited);
        self.standing -= self.awaited.len() - others;
        sort(&mut self.awaited);
    }

    /// Returns the activity ids awaited by the last released actor, in rising order, each once.
    pub fn awaited(&self) -> &[u64]
        ensures { result.now ≡ self.now.awaited }
    {
        &self.awaited
    }
}
