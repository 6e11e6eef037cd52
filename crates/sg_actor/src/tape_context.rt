//! A context that keeps its mind in a flat list of words.
ghost use Rattle.std.specs.Prelude.{◌≡◌, Some, None, IsSome, IfSome, IfOk, OnOk, ◌++◌, map, vec_len};
ghost use Rattle.sg_base.specs.Mind.{master, churn};
ghost use Rattle.sg_base.specs.Turn.{turn, turn_of, master_turn, churn_turn};
ghost use Rattle.sg_actor.specs.Roles.{mind_of, actor_number, CanCast};
ghost use Rattle.sg_actor.specs.kept.Tape.{tape_mind, kind_of, IsTape, IsTapeOf, FitActorsFrom};
ghost use Rattle.sg_actor.specs.kept.Fields.{is_exit, kind_now};

use crate::actor::Actor;
use crate::churn::{MOST_BYTES, MOST_FLOPS};
use crate::generator::draw;
use crate::next_call::{replay_call, worker_call};
use crate::role::Role;
use sg_base::{ActorId, Answer, BoxId, Call, Memory, Msg};
use std::alloc::Global;
use std::marker::Model;

const REPLAY: u64 = 0;

const WORKER: u64 = 1;

const MASTER: u64 = 2;

const CHURN: u64 = 3;

const ENDED: u64 = 4;

/// A context that keeps its mind in a flat list of words: none while it is blank, else the kind's and then the numbers.
#[derive(Drop)]
pub struct TapeContext {
    alloc: Global,
    words: Vec<u64>,
}

impl Model for TapeContext {
    ghost use Rattle.std.specs.Prelude.{Option};
    ghost use Rattle.sg_base.specs.Mind.{Mind};

    ghost Value = { Option Mind };

    ghost use Rattle.sg_actor.specs.kept.Tape.{tape_mind, IsTape};

    ghost view = { λ s. tape_mind s.words.items };

    ghost invariant = { λ s. IsTape s.words.items };
}

impl TapeContext {
    /// Makes a blank context. It takes no memory.
    pub fn new(alloc: Global) -> TapeContext
        ensures { result ≡ None }
    {
        TapeContext {
            alloc,
            words: Vec::new(alloc),
        }
    }
}

impl Actor for TapeContext {
    ghost mind = { λ s. s };

    fn is_blank(&self) -> bool {
        self.words.is_empty()
    }

    fn cast(&mut self, role: &Role) -> Result<(), Memory> {
        self.words = tape_of(self.alloc, role)?;
        Ok(())
    }

    fn turn(&mut self, answer: Answer) -> Call {
        tape_turn(self.words.as_mut_slice(), answer)
    }
}

// Returns the words with which a role begins.
fn tape_of(alloc: Global, role: &Role) -> Result<Vec<u64>, Memory>
    requires { CanCast role.now }
    ensures { IfOk result (λ v. IsTape v.items × (tape_mind v.items ≡ Some (mind_of role.now))) }
{
    match role {
        Role::Replay(me) => words_of(alloc, &[REPLAY, me.0 as u64]),
        Role::Worker(me) => words_of(alloc, &[WORKER, me.0 as u64]),
        Role::Master {
            tasks,
            flops,
            bytes,
            workers,
        } => {
            let mut words = words_of(alloc, &[MASTER, *tasks, *flops, *bytes, 0])?;
            push_actors(&mut words, workers.as_slice())?;
            Ok(words)
        }
        Role::Churn {
            seed,
            steps,
            me,
            next,
            prev,
        } => {
            let (me, next, prev) = (me.0 as u64, next.0 as u64, prev.0 as u64);
            words_of(alloc, &[CHURN, *seed, 0, 0, *steps as u64, me, next, prev])
        }
    }
}

fn words_of(alloc: Global, words: &[u64]) -> Result<Vec<u64>, Memory>
    ensures { IfOk result (λ v. v.items ≡ words.now) }
{
    Vec::from_slice(alloc, words).map_err(|_| Memory)
}

fn push_actors(words: &mut Vec<u64>, actors: &[ActorId]) -> Result<(), Memory>
    ensures all { OnOk result (words.new.items ≡ words.old.items ++ map actor_number actors.now) }
    ensures fit { OnOk result (FitActorsFrom (vec_len words.old) words.new.items) }
{
    for actor in actors {
        words.push(actor.0 as u64)?;
    }
    Ok(())
}

// Runs one turn.
fn tape_turn(words: &mut [u64], answer: Answer) -> Call
    requires kept { IsTape words.old }
    requires cast { IsSome (tape_mind words.old) }
    ensures kept { IsTape words.new }
    ensures mind { IfSome (tape_mind words.old)
        (λ m. tape_mind words.new ≡ Some (turn m answer).mind) }
    ensures call { IfSome (tape_mind words.old) (λ m. result ≡ (turn m answer).call) }
{
    let kind = words[0];
    let call = numbers_turn(kind, &mut words[1..], answer);
    if matches!(call, Call::Exit) {
        words[0] = ENDED;
    }
    call
}

// Runs one turn on the numbers of a mind of this kind. The actor ends if it calls `Exit`.
fn numbers_turn(kind: u64, numbers: &mut [u64], answer: Answer) -> Call
    requires { IsTapeOf (kind_of kind) numbers.old }
    ensures kept { IsTapeOf (kind_of kind) numbers.new }
    ensures kind { (turn_of (kind_of kind) numbers.old answer).mind.kind
        ≡ kind_now (is_exit result) (kind_of kind) }
    ensures numbers { numbers.new ≡ (turn_of (kind_of kind) numbers.old answer).mind.numbers }
    ensures call { result ≡ (turn_of (kind_of kind) numbers.old answer).call }
{
    match kind {
        REPLAY => replay_call(ActorId(numbers[0] as u32), answer),
        WORKER => worker_call(ActorId(numbers[0] as u32), answer),
        MASTER => master_step(numbers),
        CHURN => churn_step(numbers),
        _ => Call::Exit,
    }
}

// Runs one turn of a master: its numbers are the tasks, the flops, the bytes, the messages sent so far, and the
// workers.
fn master_step(numbers: &mut [u64]) -> Call
    requires { IsTapeOf master numbers.old }
    ensures kept { IsTapeOf master numbers.new }
    ensures numbers { numbers.new ≡ (master_turn numbers.old).mind.numbers }
    ensures call { result ≡ (master_turn numbers.old).call }
{
    let tasks = numbers[0];
    let next = numbers[3];
    let count = numbers.len() as u64 - 4;
    if next < tasks {
        let to = ActorId(numbers[4 + (next % count) as usize] as u32);
        numbers[3] = next + 1;
        return Call::Send(BoxId::Named(to), numbers[2], Msg::Task(numbers[1]), 0);
    }
    if next - tasks < count {
        let to = ActorId(numbers[4 + (next - tasks) as usize] as u32);
        numbers[3] = next + 1;
        return Call::Send(BoxId::Named(to), 0, Msg::Stop, 0);
    }
    Call::Exit
}

// Runs one turn of an actor that churns: its numbers are the state of its generator, its step, its phase, how many
// steps it does, itself, the next actor of the ring, and the one before it.
fn churn_step(numbers: &mut [u64]) -> Call
    requires { IsTapeOf churn numbers.old }
    ensures kept { IsTapeOf churn numbers.new }
    ensures numbers { numbers.new ≡ (churn_turn numbers.old).mind.numbers }
    ensures call { result ≡ (churn_turn numbers.old).call }
{
    let me = ActorId(numbers[4] as u32);
    match numbers[2] {
        0 => {
            if numbers[1] == numbers[3] {
                return Call::Exit;
            }
            numbers[2] = 1;
            Call::Compute(draw(&mut numbers[0], MOST_FLOPS), 1)
        }
        1 => {
            numbers[2] = 2;
            let to = ActorId(numbers[5] as u32);
            Call::ISend(
                BoxId::Pair(me, to),
                draw(&mut numbers[0], MOST_BYTES),
                Msg::Empty,
                0,
            )
        }
        2 => {
            numbers[2] = 3;
            Call::Recv(BoxId::Pair(ActorId(numbers[6] as u32), me))
        }
        _ => {
            numbers[2] = 0;
            numbers[1] += 1;
            Call::Wait
        }
    }
}
