//! Deployments.
ghost use Rattle.std.specs.Prelude.{◌≡◌, ◌≤◌, ◌∷◌, [], All, IfOk, length};
ghost use Rattle.sg_base.specs.Limits.{IsActorIn};
ghost use Rattle.sg_platform_rows.specs.Deployment.{IsDeployment, actor_named, deployment_of_rows, extent_of, members_among, mutex_named, replay_actor_named, replay_names, semaphore_named};
ghost use Rattle.sg_platform_rows.specs.Index.{number_by};
ghost use Rattle.sg_platform_rows.specs.kept.Finds.{FindsAs};

use crate::index::{replay_by_name, rows_by_name};
use crate::names::NameTable;
use crate::rows::{ActorRow, Function, MutexRow, SemaphoreRow};
use indexmap::IndexMap;
use sg_base::{ActorId, Memory};
use sg_collectives::Members;
use std::alloc::Global;
use std::marker::Model;

/// A deployment, which contracts see as its rows.
pub struct Deployment {
    actors: Vec<ActorRow>,
    mutexes: Vec<MutexRow>,
    semaphores: Vec<SemaphoreRow>,
    named_actors: IndexMap<Vec<u8>, u32>,
    replay: NameTable,
    named_mutexes: NameTable,
    named_semaphores: NameTable,
    members: Members,
}

// A function of its own, so that a proof in which one is dropped doesn't go into its parts.
impl Drop for Deployment {
    fn drop(self) {
        let Deployment {
            actors: _,
            mutexes: _,
            semaphores: _,
            named_actors: _,
            replay: _,
            named_mutexes: _,
            named_semaphores: _,
            members: _,
        } = self;
    }
}

impl Model for Deployment {
    ghost use Rattle.sg_platform_rows.specs.Deployment.{Deployed, deployment_of_rows};
    ghost use Rattle.sg_platform_rows.specs.kept.Finds.{IsIndexed};

    ghost Value = { Deployed };

    ghost view = { λ d. deployment_of_rows d.actors.items d.mutexes.items d.semaphores.items };

    ghost invariant = { λ d. IsIndexed d.named_actors d.replay.map d.named_mutexes.map d.named_semaphores.map d.members
        (deployment_of_rows d.actors.items d.mutexes.items d.semaphores.items) };
}

// Returns the actors that replay, by rising identifier.
#[tactic(auto, unfolding(crate::specs::Deployment::members_among), using(crate::proofs::MemberIds::row_more, crate::proofs::MemberIds::no_row))]
fn members_among(alloc: Global, actors: &[ActorRow]) -> Result<Members, Memory>
    requires { length actors.now ≤ 65536 }
    ensures { IfOk result (λ members. members ≡ members_among actors.now) }
{
    let mut members = Members::new(alloc);
    for (place, actor) in actors.iter().enumerate() {
        if let Function::Replay = actor.function {
            members.push(ActorId(place as u32 + 1))?;
        }
    }
    Ok(members)
}

// What finds rows is made in two parts: a function that holds many maps while a call may still fail is dear to prove.

/// Finds actors by their names, and those that replay.
#[derive(Drop)]
struct ActorIndex {
    named: IndexMap<Vec<u8>, u32>,
    replay: NameTable,
    members: Members,
}

impl ActorIndex {
    /// Makes the index of these actors.
    fn new(alloc: Global, actors: &[ActorRow]) -> Result<ActorIndex, Memory>
        requires { length actors.now ≤ 65536 }
        ensures named { IfOk result
            (λ index. FindsAs index.named (number_by (λ actor. actor.name ∷ []) actors.now)) }
        ensures replay { IfOk result
            (λ index. FindsAs index.replay.map (number_by replay_names actors.now)) }
        ensures members { IfOk result (λ index. index.members ≡ members_among actors.now) }
    {
        let named = rows_by_name(alloc, actors)?;
        let replay = NameTable::new(alloc, replay_by_name(alloc, actors)?)?;
        let members = members_among(alloc, actors)?;
        Ok(ActorIndex {
            named,
            replay,
            members,
        })
    }
}

/// Finds mutexes and semaphores by their names.
#[derive(Drop)]
struct LockIndex {
    mutexes: NameTable,
    semaphores: NameTable,
}

impl LockIndex {
    /// Makes the index of these mutexes and semaphores.
    fn new(
        alloc: Global,
        mutexes: &[MutexRow],
        semaphores: &[SemaphoreRow],
    ) -> Result<LockIndex, Memory>
        ensures mutexes { IfOk result
            (λ index. FindsAs index.mutexes.map (number_by (λ mutex. mutex.id ∷ []) mutexes.now)) }
        ensures semaphores { IfOk result
            (λ index. FindsAs index.semaphores.map
            (number_by (λ semaphore. semaphore.id ∷ []) semaphores.now)) }
    {
        let by_mutex = NameTable::new(alloc, rows_by_name(alloc, mutexes)?)?;
        let by_semaphore = NameTable::new(alloc, rows_by_name(alloc, semaphores)?)?;
        Ok(LockIndex {
            mutexes: by_mutex,
            semaphores: by_semaphore,
        })
    }
}

impl Deployment {
    /// Makes the deployment with these rows.
    ///
    /// # Errors
    ///
    /// Out of memory: then the rows are gone.
    pub fn with_rows(
        alloc: Global,
        actors: Vec<ActorRow>,
        mutexes: Vec<MutexRow>,
        semaphores: Vec<SemaphoreRow>,
    ) -> Result<Deployment, Memory>
        requires { IsDeployment
            (deployment_of_rows actors.items mutexes.items semaphores.items) }
        ensures { IfOk result
            (λ d. d ≡ deployment_of_rows actors.items mutexes.items semaphores.items) }
    {
        let of_actors = ActorIndex::new(alloc, actors.as_slice())?;
        let of_locks = LockIndex::new(alloc, mutexes.as_slice(), semaphores.as_slice())?;
        Ok(Deployment {
            actors,
            mutexes,
            semaphores,
            named_actors: of_actors.named,
            replay: of_actors.replay,
            named_mutexes: of_locks.mutexes,
            named_semaphores: of_locks.semaphores,
            members: of_actors.members,
        })
    }

    /// Returns the actors, in declared order. The first has the identifier 1.
    pub fn actors(&self) -> &[ActorRow]
        ensures rows { result.now ≡ self.now.actors }
        ensures kept { IsDeployment self.now }
    {
        self.actors.as_slice()
    }

    /// Returns the mutexes, in declared order from 0 on.
    pub fn mutexes(&self) -> &[MutexRow]
        ensures rows { result.now ≡ self.now.mutexes }
        ensures kept { IsDeployment self.now }
    {
        self.mutexes.as_slice()
    }

    /// Returns the semaphores, in declared order from 0 on.
    pub fn semaphores(&self) -> &[SemaphoreRow]
        ensures rows { result.now ≡ self.now.semaphores }
        ensures kept { IsDeployment self.now }
    {
        self.semaphores.as_slice()
    }

    /// Returns the number of the mutex of this name, from 0 on.
    pub fn mutex_named(&self, name: &[u8]) -> Option<u32>
        ensures { result ≡ mutex_named self.now name.now }
    {
        self.named_mutexes.get(name)
    }

    /// Returns the number of the semaphore of this name, from 0 on.
    pub fn semaphore_named(&self, name: &[u8]) -> Option<u32>
        ensures { result ≡ semaphore_named self.now name.now }
    {
        self.named_semaphores.get(name)
    }

    /// Returns the actor of this name, whatever it does.
    pub fn actor(&self, name: &[u8]) -> Option<ActorId>
        ensures { result ≡ actor_named self.now name.now }
    {
        let row = self.named_actors.get(name)?;
        Some(ActorId(*row + 1))
    }

    /// Returns the actor of this name, if it replays.
    pub fn replay_actor(&self, name: &[u8]) -> Option<ActorId>
        ensures { result ≡ replay_actor_named self.now name.now }
    {
        let row = self.replay.get(name)?;
        Some(ActorId(row + 1))
    }

    /// Returns who takes part in collectives: all actors that replay, by rising identifier.
    pub fn members(&self) -> &Members
        ensures members { result.now ≡ members_among self.now.actors }
        ensures exist { All (IsActorIn (extent_of self.now)) result.now }
    {
        &self.members
    }
}
