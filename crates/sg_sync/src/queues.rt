//! First-in-first-out queues of actors, which also release actors from the middle.
ghost use Rattle.std.specs.Prelude.{◌≡◌, ◌<◌, ◌≤◌, ◌+◌, [], length, replicate, IfOk, IfSome};
ghost use Rattle.sg_sync.specs.Waits.{CanJoin};
ghost use Rattle.sg_queues.specs.Rings.{front, queue_at};
ghost use Rattle.sg_sync.specs.Queues.{IsActor, with_waiter, left, shortened};

use sg_base::{ActorId, Memory};
use sg_queues::Rings;
use std::alloc::Global;
use std::marker::Model;

/// Queues among which each actor waits in one at most.
///
/// Joining and leaving take no memory, and cost the same however long the queues are.
#[derive(Drop)]
pub(crate) struct Queues {
    /// Each actor is a slot, of its own number, which is alone if the actor waits nowhere.
    rings: Rings,
    actors: u32,
}

impl Model for Queues {
    ghost use Rattle.sg_sync.specs.Queues.{Waiting};
    ghost use Rattle.sg_sync.specs.kept.Slots.{waiting_in, AreKept};

    ghost Value = { Waiting };

    ghost view = { λ s. record { actors = s.actors; queues = waiting_in s.rings.queues } };

    ghost invariant = { λ s. AreKept s.actors s.rings };
}

impl Queues {
    /// Makes so many queues, in which nobody waits.
    pub(crate) fn new(alloc: Global, actors: u32, queues: usize) -> Result<Queues, Memory>
        ensures { IfOk result (λ s. s ≡ record { actors = actors; queues = replicate queues [] }) }
    {
        let mut rings = Rings::new(alloc)?;
        for _actor in 0..actors {
            rings.add_slot()?;
        }
        for _queue in 0..queues {
            rings.add_queue()?;
        }
        Ok(Queues { rings, actors })
    }

    /// Puts an actor at the end of a queue.
    pub(crate) fn join(&mut self, queue: u32, actor: ActorId)
        requires queue { queue < length self.old.queues }
        requires joins { CanJoin self.old actor }
        ensures joined { self.new ≡ record self.old {
          queues = with_waiter self.old.queues queue actor;
        } }
        ensures few { length (queue_at self.new.queues queue)
            ≤ self.old.actors + length self.old.queues + 1 }
    {
        self.rings.join(actor.0 as usize, queue as usize);
    }

    /// Removes and returns the first of a queue.
    pub(crate) fn take_first(&mut self, queue: u32) -> Option<ActorId>
        requires { queue < length self.old.queues }
        ensures first { result ≡ front (queue_at self.old.queues queue) }
        ensures shortened { self.new
            ≡ record self.old { queues = shortened self.old.queues queue } }
        ensures actor { IfSome result (λ actor. actor.0 ≤ self.old.actors) }
    {
        let slot = self.rings.front(queue as usize)?;
        self.rings.leave(slot);
        Some(ActorId(slot as u32))
    }

    /// Removes an actor from the queue in which it waits, if it waits.
    pub(crate) fn leave(&mut self, actor: ActorId)
        requires { IsActor self.old.actors actor }
        ensures { self.new ≡ record self.old { queues = left actor self.old.queues } }
    {
        self.rings.leave(actor.0 as usize);
    }
}
