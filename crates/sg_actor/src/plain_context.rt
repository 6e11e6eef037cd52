//! A context that keeps its mind in fields.
ghost use Rattle.std.specs.Prelude.{◌≡◌, ◌+◌, ◌^◌, ◌<◌, ◌≤◌, Some, None, IsSome, IfSome, IfOk, false, length, map, slice_index};
ghost use Rattle.sg_base.specs.Mind.{mind, master};
ghost use Rattle.sg_base.specs.Turn.{actor_of, master_turn, turn};
ghost use Rattle.sg_actor.specs.Roles.{mind_of, actor_number, CanCast};
ghost use Rattle.sg_actor.specs.kept.Fields.{fields_mind, is_exit, kind_now, master_numbers, IsKept};

use crate::actor::Actor;
use crate::churn::{Churn, Phase};
use crate::next_call::{replay_call, worker_call};
use crate::role::Role;
use sg_base::{ActorId, Answer, BoxId, Call, Ids, Memory, Msg};
use std::alloc::Global;
use std::marker::Model;

/// The numbers of a mind, by its kind.
#[derive(Drop)]
enum Fields {
    Blank,
    Replay {
        me: ActorId,
    },
    Worker {
        me: ActorId,
    },
    Master {
        tasks: u64,
        flops: u64,
        bytes: u64,
        /// How many messages it has sent.
        next: u64,
        workers: Ids,
    },
    Churn(Churn),
}

/// A context that keeps its mind in fields.
#[derive(Drop)]
pub struct PlainContext {
    alloc: Global,
    /// Whether it has ended.
    over: bool,
    fields: Fields,
}

impl Model for PlainContext {
    ghost use Rattle.std.specs.Prelude.{Option};
    ghost use Rattle.sg_base.specs.Mind.{Mind};

    ghost Value = { Option Mind };

    ghost use Rattle.sg_actor.specs.kept.Fields.{fields_mind, IsKept};

    ghost view = { λ s. fields_mind s.over s.fields };

    ghost invariant = { λ s. IsKept s.fields };
}

impl PlainContext {
    /// Makes a blank context. It takes no memory.
    pub fn new(alloc: Global) -> PlainContext
        ensures { result ≡ None }
    {
        PlainContext {
            alloc,
            over: false,
            fields: Fields::Blank,
        }
    }
}

impl Actor for PlainContext {
    ghost mind = { λ s. s };

    fn is_blank(&self) -> bool {
        matches!(self.fields, Fields::Blank)
    }

    fn cast(&mut self, role: &Role) -> Result<(), Memory> {
        self.fields = fields_of(self.alloc, role)?;
        self.over = false;
        Ok(())
    }

    fn turn(&mut self, answer: Answer) -> Call {
        if self.over {
            return Call::Exit;
        }
        let call = fields_turn(&mut self.fields, answer);
        self.over = matches!(call, Call::Exit);
        call
    }
}

// Returns the fields with which a role begins.
fn fields_of(alloc: Global, role: &Role) -> Result<Fields, Memory>
    requires { CanCast role.now }
    ensures { IfOk result (λ f. IsKept f × (fields_mind false f ≡ Some (mind_of role.now))) }
{
    match role {
        Role::Replay(me) => Ok(Fields::Replay { me: *me }),
        Role::Worker(me) => Ok(Fields::Worker { me: *me }),
        Role::Master {
            tasks,
            flops,
            bytes,
            workers,
        } => {
            let workers = Vec::from_slice(alloc, workers.as_slice())?;
            Ok(Fields::Master {
                tasks: *tasks,
                flops: *flops,
                bytes: *bytes,
                next: 0,
                workers: Ids::from_vec(workers),
            })
        }
        Role::Churn {
            seed,
            steps,
            me,
            next,
            prev,
        } => Ok(Fields::Churn(Churn {
            state: *seed,
            step: 0,
            phase: Phase::Compute,
            steps: *steps,
            me: *me,
            next: *next,
            prev: *prev,
        })),
    }
}

// Runs one turn of an actor that hasn't ended. The actor ends if it calls `Exit`.
fn fields_turn(fields: &mut Fields, answer: Answer) -> Call
    requires kept { IsKept fields.old }
    requires cast { IsSome (fields_mind false fields.old) }
    ensures kept { IsKept fields.new }
    ensures mind { IfSome (fields_mind false fields.old)
        (λ m. fields_mind (is_exit result) fields.new ≡ Some (turn m answer).mind) }
    ensures call { IfSome (fields_mind false fields.old) (λ m. result ≡ (turn m answer).call) }
{
    match fields {
        Fields::Blank => unreachable!(),
        Fields::Replay { me } => replay_call(*me, answer),
        Fields::Worker { me } => worker_call(*me, answer),
        Fields::Master {
            tasks,
            flops,
            bytes,
            next,
            workers,
        } => master_call(*tasks, *flops, *bytes, next, workers.as_slice()),
        Fields::Churn(numbers) => numbers.turn(),
    }
}

// Runs one turn of a master that has sent so many messages.
fn master_call(tasks: u64, flops: u64, bytes: u64, next: &mut u64, workers: &[ActorId]) -> Call
    requires some { 0 < length workers.now }
    requires fit { tasks + length workers.now < 2 ^ 64 }
    requires few { next.old ≤ tasks + length workers.now }
    ensures few { next.new ≤ tasks + length workers.now }
    ensures mind { mind (kind_now (is_exit result) master)
        (master_numbers tasks flops bytes next.new workers.now)
        ≡ (master_turn (master_numbers tasks flops bytes next.old workers.now)).mind }
    ensures call { result
        ≡ (master_turn (master_numbers tasks flops bytes next.old workers.now)).call }
{
    let count = workers.len() as u64;
    if *next < tasks {
        let to = worker_at(workers, *next % count);
        *next += 1;
        return Call::Send(BoxId::Named(to), bytes, Msg::Task(flops), 0);
    }
    if *next - tasks < count {
        let to = worker_at(workers, *next - tasks);
        *next += 1;
        return Call::Send(BoxId::Named(to), 0, Msg::Stop, 0);
    }
    Call::Exit
}

// Returns the worker of this place.
fn worker_at(workers: &[ActorId], place: u64) -> ActorId
    requires { place < length workers.now }
    ensures { result ≡ actor_of (slice_index (map actor_number workers.now) place) }
{
    workers[place as usize]
}
