//! The lines that wait for each actor, first in, first out.
ghost use Rattle.std.specs.Prelude.{◌≡◌, ◌<◌, [], ◌∷◌, length, replicate, slice_set, All, IfOk, IfNone, IfSome, MatchOption, MatchResult};
ghost use Rattle.std.specs.List.{flat_map};
ghost use Rattle.sg_script.specs.declared.operation.Operation.TheVariants.{Alone};
ghost use Rattle.sg_base.specs.Limits.{Extent, IsAction, IsActorIn};
ghost use Rattle.sg_script.specs.kept.Queues.{AreOperations, KeepsOperations, left_of, queue_at, waits, with_first, with_line};

use crate::operation::Operation;
use crate::waiting::Waiting;
use sg_base::{Action, ActorId, Memory};
use sg_collectives::Members;
use std::alloc::Global;
use std::collections::VecDeque;
use std::marker::Model;

/// A queue for each actor, at the place of its identifier. No actor has the identifier 0, so that queue is empty.
#[derive(Drop)]
pub struct Queues {
    lists: Vec<VecDeque<Waiting>>,
}

impl Model for Queues {
    ghost use Rattle.std.specs.Prelude.{List, map};
    ghost use Rattle.sg_script.specs.declared.waiting.Waiting.{Waiting};

    ghost Value = { List (List Waiting) };

    ghost view = { λ q. map (λ list. list.items) q.lists.items };
}

// Takes the line at the front, if it asks for an action alone.
fn take_alone(lines: &mut VecDeque<Waiting>) -> Option<Action>
    ensures { MatchOption result (lines.new.items ≡ lines.old.items)
        (λ action. lines.old.items
        ≡ record { operation = Alone action; place = 0 } ∷ lines.new.items) }
{
    let action = match lines.front() {
        Some(
            Waiting {
                operation: Operation::Alone(action),
                place: 0,
            },
        ) => *action,
        _ => return None,
    };
    lines.pop_front();
    Some(action)
}

// Takes the next action of an actor's lines, and drops the lines before it, which have no action left.
fn take_next(lines: &mut VecDeque<Waiting>, actor: ActorId, members: &Members) -> Option<Action>
    ensures first { flat_map (left_of members.now actor.0) lines.old.items
        ≡ with_first result (flat_map (left_of members.now actor.0) lines.new.items) }
    ensures empty { IfNone result (flat_map (left_of members.now actor.0) lines.old.items ≡ []) }
    ensures limited { KeepsOperations members.now lines.old.items result lines.new.items }
{
    while let Some(line) = lines.front_mut() {
        if let Some(action) = line.take(actor, members) {
            return Some(action);
        }
        lines.pop_front();
    }
    None
}

// Does the same. An action alone leaves with its line, so that no line without actions is examined.
#[tactic(auto, using(crate::proofs::QueueLemmas::alone_first))]
fn take_first(lines: &mut VecDeque<Waiting>, actor: ActorId, members: &Members) -> Option<Action>
    ensures first { flat_map (left_of members.now actor.0) lines.old.items
        ≡ with_first result (flat_map (left_of members.now actor.0) lines.new.items) }
    ensures empty { IfNone result (flat_map (left_of members.now actor.0) lines.old.items ≡ []) }
    ensures limited { KeepsOperations members.now lines.old.items result lines.new.items }
{
    if lines.is_empty() {
        return None;
    }
    match take_alone(lines) {
        Some(action) => Some(action),
        None => take_next(lines, actor, members),
    }
}

impl Queues {
    /// Makes so many empty queues.
    pub fn new(alloc: Global, count: usize) -> Result<Queues, Memory>
        ensures { IfOk result (λ q. q ≡ replicate count []) }
    {
        let mut lists = Vec::new(alloc);
        for _i in 0..count {
            lists.push(VecDeque::new(alloc))?;
        }
        Ok(Queues { lists })
    }

    /// Puts a line after those that wait for the actor.
    pub fn push(&mut self, actor: ActorId, operation: Operation) -> Result<(), Memory>
        requires { actor.0 < length self.old }
        ensures { MatchResult result (λ _. self.new ≡ with_line actor.0 operation self.old)
            (λ _. self.new ≡ self.old) }
    {
        match self.lists[actor.0 as usize].push_back(Waiting {
            operation,
            place: 0,
        }) {
            Ok(()) => Ok(()),
            Err(_) => Err(Memory),
        }
    }

    /// Takes the action that has waited longest for the actor.
    pub fn pop(&mut self, actor: ActorId, members: &Members) -> Option<Action>
        requires { actor.0 < length self.old }
        ensures first { waits members.now self.old actor.0
            ≡ with_first result (waits members.now self.new actor.0) }
        ensures empty { IfNone result (waits members.now self.old actor.0 ≡ []) }
        ensures others { self.new ≡ slice_set self.old actor.0 (queue_at self.new actor.0) }
        ensures limited { (extent : Extent) → All (IsActorIn extent) members.now
            → All (AreOperations extent) self.old
            → IfSome result (IsAction extent) × All (AreOperations extent) self.new }
    {
        take_first(&mut self.lists[actor.0 as usize], actor, members)
    }
}
