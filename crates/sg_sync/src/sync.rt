//! The objects at which actors wait for one another.
ghost use Rattle.std.specs.Prelude.{◌≡◌, ◌<◌, ◌≤◌, ◌+◌, ◌∷◌, ◌^◌, [], None, IfOk, length, replicate};
ghost use Rattle.std.specs.Vec.{vec_capacity};
ghost use Rattle.sg_queues.specs.Rings.{queue_at};
ghost use Rattle.sg_sync.specs.Queues.{IsActor};
ghost use Rattle.sg_sync.specs.Objects.{acquired, arrived, count_of, locked, passed_on, released, unlocked, after_withdrawal};
ghost use Rattle.sg_sync.specs.Sync.{Does};
ghost use Rattle.sg_sync.specs.Waits.{CanWait};

use crate::arrivals::Arrivals;
use crate::outcome::Outcome;
use crate::queues::Queues;
use sg_base::{ActorId, Memory};
use std::alloc::Global;
use std::marker::Model;

/// Mutexes and semaphores, each by its place in declared order from 0 on, and the one barrier.
///
/// A waiting actor continues by a later call of another: `others` returns who does. All queues are first in, first out.
/// A waiting actor makes no call; so it waits in one queue at most, and no call takes memory.
pub struct Sync {
    owners: Vec<Option<ActorId>>,
    locking: Queues,
    counts: Vec<u64>,
    acquiring: Queues,
    members: u32,
    arrived: Arrivals,
    others: Vec<ActorId>,
}

// A function of its own, so that a proof in which one is dropped doesn't go into its parts.
impl Drop for Sync {
    fn drop(self) {
        let Sync {
            owners: _,
            locking: _,
            counts: _,
            acquiring: _,
            members: _,
            arrived: _,
            others: _,
        } = self;
    }
}

impl Model for Sync {
    ghost use Rattle.std.specs.Prelude.{◌≡◌, ◌≤◌, length};
    ghost use Rattle.std.specs.Vec.{vec_capacity};
    ghost use Rattle.sg_queues.specs.Rings.{queue_at};
    ghost use Rattle.sg_sync.specs.Sync.{SyncState};
    ghost use Rattle.sg_sync.specs.kept.Objects.{IsKept};

    ghost Value = { SyncState };

    ghost view = { λ s. record {
      objects = record {
        actors = s.arrived.actors;
        owners = s.owners.items;
        locking = s.locking.queues;
        counts = s.counts.items;
        acquiring = s.acquiring.queues;
        members = s.members;
        arrived = queue_at s.arrived.queues 0;
      };
      others = s.others.items;
    } };

    ghost invariant = { λ s. IsKept s.locking s.acquiring s.arrived
        (length s.owners.items) (length s.counts.items) (vec_capacity s.others) };
}

// Removes all from the barrier, in order, and notes that they continue.
fn tell_all(others: &mut Vec<ActorId>, arrived: &mut Arrivals)
    requires queue { length arrived.old.queues ≡ 1 }
    requires none { others.old.items ≡ [] }
    requires few { length (queue_at arrived.old.queues 0) ≤ arrived.old.actors + 2 }
    requires room { arrived.old.actors + 2 ≤ vec_capacity others.old }
    ensures all { others.new.items ≡ queue_at arrived.old.queues 0 }
    ensures capacity { vec_capacity others.old ≤ vec_capacity others.new }
    ensures left { arrived.new ≡ record arrived.old { queues = [] ∷ [] } }
{
    while let Some(actor) = arrived.take_first() {
        others.push_reserved(actor);
    }
}

impl Sync {
    /// Makes free mutexes, semaphores with these capacities, and a barrier of so many members.
    pub fn new(
        alloc: Global,
        actors: u32,
        mutexes: u32,
        semaphores: &[u64],
        members: u32,
    ) -> Result<Sync, Memory>
        ensures { IfOk result (λ s. s ≡ record {
          objects = record {
            actors = actors;
            owners = replicate mutexes None;
            locking = replicate mutexes [];
            counts = semaphores.now;
            acquiring = replicate (length semaphores.now) [];
            members = members;
            arrived = [];
          };
          others = [];
        }) }
    {
        Ok(Sync {
            owners: vec![in alloc; None; mutexes as usize]?,
            locking: Queues::new(alloc, actors, mutexes as usize)?,
            counts: Vec::from_slice(alloc, semaphores)?,
            acquiring: Queues::new(alloc, actors, semaphores.len())?,
            members,
            arrived: Arrivals::new(alloc, actors)?,
            others: Vec::with_capacity(alloc, actors as usize + 2)?,
        })
    }

    /// Locks a mutex: a free one gets its owner; an actor that finds an owner waits, even the owner itself.
    pub fn lock(&mut self, actor: ActorId, mutex: u32) -> Outcome
        requires waits { CanWait self.old.objects actor }
        requires mutex { mutex < length self.old.objects.owners }
        ensures { Does (locked actor mutex self.old.objects) result self.new }
    {
        self.others.clear();
        match self.owners[mutex as usize] {
            None => {
                self.owners[mutex as usize] = Some(actor);
                Outcome::GoesOn
            }
            Some(_) => {
                self.locking.join(mutex, actor);
                Outcome::Waits
            }
        }
    }

    /// Unlocks a mutex for its owner: the first that waits becomes the owner and continues.
    pub fn unlock(&mut self, actor: ActorId, mutex: u32) -> Outcome
        requires mutex { mutex < length self.old.objects.owners }
        ensures { Does (unlocked actor mutex self.old.objects) result self.new }
    {
        self.others.clear();
        match self.owners[mutex as usize] {
            Some(owner) if owner == actor => self.pass_on(mutex),
            _ => Outcome::Refused,
        }
    }

    // Gives the mutex to the first that waits, or to nobody.
    fn pass_on(&mut self, mutex: u32) -> Outcome
        requires mutex { mutex < length self.old.objects.owners }
        requires none { self.old.others ≡ [] }
        ensures { Does (passed_on mutex self.old.objects) result self.new }
    {
        let first = self.locking.take_first(mutex);
        self.owners[mutex as usize] = first;
        if let Some(first) = first {
            self.others.push_reserved(first);
        }
        Outcome::GoesOn
    }

    /// Acquires a semaphore: a count above 0 falls by one, else the actor waits.
    pub fn acquire(&mut self, actor: ActorId, semaphore: u32) -> Outcome
        requires waits { CanWait self.old.objects actor }
        requires semaphore { semaphore < length self.old.objects.counts }
        ensures { Does (acquired actor semaphore self.old.objects) result self.new }
    {
        self.others.clear();
        let count = self.counts[semaphore as usize];
        if count > 0 {
            self.counts[semaphore as usize] = count - 1;
            Outcome::GoesOn
        } else {
            self.acquiring.join(semaphore, actor);
            Outcome::Waits
        }
    }

    /// Releases a semaphore: the first that waits continues, or the count rises by one.
    pub fn release(&mut self, semaphore: u32) -> Outcome
        requires semaphore { semaphore < length self.old.objects.counts }
        requires room { count_of self.old.objects semaphore + 1 < 2 ^ 64 }
        ensures { Does (released semaphore self.old.objects) result self.new }
    {
        self.others.clear();
        match self.acquiring.take_first(semaphore) {
            Some(first) => self.others.push_reserved(first),
            None => self.counts[semaphore as usize] += 1,
        }
        Outcome::GoesOn
    }

    /// Enters the barrier: once all members have arrived, all continue in the order of arrival, this one last. A
    /// barrier of no members blocks nobody.
    pub fn arrive(&mut self, actor: ActorId) -> Outcome
        requires { CanWait self.old.objects actor }
        ensures { Does (arrived actor self.old.objects) result self.new }
    {
        self.others.clear();
        if self.arrived.len() as u64 + 1 < self.members as u64 {
            self.arrived.join(actor);
            Outcome::Waits
        } else {
            tell_all(&mut self.others, &mut self.arrived);
            Outcome::GoesOn
        }
    }

    /// Removes an actor from whatever queue it waits in, at any place, and all others keep their order. It keeps the
    /// mutexes that it owns. Nobody continues by this.
    pub fn leave(&mut self, actor: ActorId)
        requires { IsActor self.old.objects.actors actor }
        ensures { self.new ≡ record {
          objects = after_withdrawal actor self.old.objects;
          others = [];
        } }
    {
        self.others.clear();
        self.locking.leave(actor);
        self.acquiring.leave(actor);
        self.arrived.leave(actor);
    }

    /// Returns who continues by the last call beside its caller, in order. The caller continues before them at a mutex
    /// and a semaphore, and after them at the barrier.
    pub fn others(&self) -> &[ActorId]
        ensures { result.now ≡ self.now.others }
    {
        &self.others
    }
}
