//! Those that have arrived at the barrier.
ghost use Rattle.std.specs.Prelude.{◌≡◌, ◌<◌, ◌≤◌, ◌+◌, ◌^◌, [], ◌∷◌, length, IfOk};
ghost use Rattle.sg_sync.specs.Waits.{CanJoin};
ghost use Rattle.sg_queues.specs.Rings.{front, queue_at};
ghost use Rattle.sg_sync.specs.Queues.{IsActor, with_waiter, left, shortened};

use crate::queues::Queues;
use sg_base::{ActorId, Memory};
use std::alloc::Global;
use std::marker::Model;

/// One queue, of a known length.
#[derive(Drop)]
pub(crate) struct Arrivals {
    queues: Queues,
    /// Whether each actor waits here, at the place of its number.
    here: Vec<bool>,
    len: u32,
}

const QUEUE: u32 = 0;

impl Model for Arrivals {
    ghost use Rattle.sg_sync.specs.Queues.{Waiting};
    ghost use Rattle.sg_sync.specs.kept.Arrivals.{IsCounted};

    ghost Value = { Waiting };

    ghost view = { λ s. s.queues };

    ghost invariant = { λ s. IsCounted s.queues s.here.items s.len };
}

impl Arrivals {
    /// Makes a barrier queue of so many actors, with nobody in it.
    pub(crate) fn new(alloc: Global, actors: u32) -> Result<Arrivals, Memory>
        ensures { IfOk result (λ s. s ≡ record { actors = actors; queues = [] ∷ [] }) }
    {
        let here = vec![in alloc; false; actors as usize + 1]?;
        Ok(Arrivals {
            queues: Queues::new(alloc, actors, 1)?,
            here,
            len: 0,
        })
    }

    /// Returns how many wait.
    pub(crate) fn len(&self) -> u32
        ensures len { result ≡ length (queue_at self.now.queues 0) }
        ensures few { result ≤ self.now.actors + 2 }
    {
        self.len
    }

    /// Puts an actor after all others.
    pub(crate) fn join(&mut self, actor: ActorId)
        requires joins { CanJoin self.old actor }
        requires few { length (queue_at self.old.queues 0) + 1 < 2 ^ 32 }
        ensures { self.new ≡ record self.old { queues = with_waiter self.old.queues 0 actor } }
    {
        self.queues.join(QUEUE, actor);
        self.here[actor.0 as usize] = true;
        self.len += 1;
    }

    /// Removes and returns the first.
    pub(crate) fn take_first(&mut self) -> Option<ActorId>
        ensures first { result ≡ front (queue_at self.old.queues 0) }
        ensures shortened { self.new
            ≡ record self.old { queues = shortened self.old.queues 0 } }
    {
        let first = self.queues.take_first(QUEUE)?;
        self.here[first.0 as usize] = false;
        self.len -= 1;
        Some(first)
    }

    /// Removes an actor, if it waits.
    pub(crate) fn leave(&mut self, actor: ActorId)
        requires { IsActor self.old.actors actor }
        ensures { self.new ≡ record self.old { queues = left actor self.old.queues } }
    {
        self.queues.leave(actor);
        self.len -= u32::from(self.here[actor.0 as usize]);
        self.here[actor.0 as usize] = false;
    }
}
