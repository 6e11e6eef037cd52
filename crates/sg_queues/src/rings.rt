//! Slots that move from queue to queue.
ghost use Rattle.std.specs.Prelude.{◌≡◌, ◌<◌, ◌++◌, ◌∷◌, [], suc, length, IfOk};
ghost use Rattle.sg_queues.specs.Rings.{front, joined, left, queue_at, rows_of, without, AddsQueue, AddsSlot, CanJoin, IsAlone, IsApart, IsSlot};
ghost use Rattle.sg_queues.specs.kept.Links.{head_at};

use crate::links::Links;
use sg_base::Memory;
use std::alloc::Global;
use std::marker::Model;

/// Slots, each of which is alone, idle or in one queue at any time. A slot leaves its place, and then joins another
/// queue at its end.
///
/// Slots and heads are nodes, numbered from 0 on as they are added: node 0 is the head of the idle slots, and each
/// queue has a head of its own. Each move costs the same however long the queues are; only adding takes memory.
#[derive(Drop)]
pub struct Rings {
    // the idle slots, and those of each queue, are a ring, linked both ways, that begins and ends at its head; and so is
    // each slot that is alone
    links: Links,
    // the head of each queue
    heads: Vec<u32>,
}

// The head of the idle slots.
const IDLE: usize = 0;

impl Model for Rings {
    ghost use Rattle.std.specs.Prelude.{◌∷◌, length};
    ghost use Rattle.sg_queues.specs.Rings as spec;
    ghost use Rattle.sg_queues.specs.kept.Links.{queues_of, ring, AreRings};

    ghost Value = { spec.Rings };

    ghost view = { λ s. record {
      nodes = length s.links.next.items;
      heads = 0 ∷ s.heads.items;
      idle = ring s.links.next.items 0;
      queues = queues_of s.links.next.items s.heads.items;
    } };

    ghost invariant = { λ s. AreRings s.links.next.items s.links.prev.items (0 ∷ s.heads.items)
        (queues_of s.links.next.items (0 ∷ s.heads.items)) };
}

impl Rings {
    /// Makes a state without queues and slots.
    pub fn new(alloc: Global) -> Result<Rings, Memory>
        ensures { IfOk result (λ rings. rings
            ≡ record { nodes = 1; heads = 0 ∷ []; idle = []; queues = [] }) }
    {
        let mut links = Links {
            next: Vec::new(alloc),
            prev: Vec::new(alloc),
        };
        links.add()?;
        Ok(Rings {
            links,
            heads: Vec::new(alloc),
        })
    }

    /// Adds an empty queue, and returns its number, which is how many queues there were.
    pub fn add_queue(&mut self) -> Result<usize, Memory>
        ensures { AddsQueue self.old self.new result }
    {
        self.heads.reserve(1)?;
        let head = self.links.add()?;
        let number = self.heads.len();
        self.heads.push_reserved(head as u32);
        Ok(number)
    }

    /// Adds a slot, which is alone, and returns its number, which is how many nodes there were.
    pub fn add_slot(&mut self) -> Result<usize, Memory>
        ensures { AddsSlot self.old self.new result }
    {
        let slot = self.links.add()?;
        Ok(slot)
    }

    fn head_of(&self, queue: usize) -> usize
        requires { queue < length self.now.queues }
        ensures is { result ≡ head_at self.now.heads (suc queue) }
        ensures within { result < self.now.nodes }
    {
        self.heads[queue] as usize
    }

    /// Returns the first slot of a queue.
    pub fn front(&self, queue: usize) -> Option<usize>
        requires { queue < length self.now.queues }
        ensures { result ≡ front (queue_at self.now.queues queue) }
    {
        let head = self.head_of(queue);
        let first = self.links.next[head] as usize;
        if first == head { None } else { Some(first) }
    }

    /// Returns the idle slot that was so for longest.
    pub fn idle(&self) -> Option<usize>
        ensures { result ≡ front self.now.idle }
    {
        let first = self.links.next_of(IDLE);
        if first == IDLE { None } else { Some(first) }
    }

    /// Removes a slot from its place, and makes it alone.
    pub fn leave(&mut self, slot: usize)
        requires { IsSlot self.old.nodes self.old.heads slot }
        ensures left { self.new ≡ record self.old {
          idle = without slot self.old.idle;
          queues = left slot self.old.queues;
        } }
        ensures alone { IsAlone slot (rows_of self.new) }
        ensures apart { IsApart self.new }
    {
        self.links.exchange_before(slot, slot);
    }

    /// Puts a slot that is alone at the end of a queue.
    pub fn join(&mut self, slot: usize, queue: usize)
        requires { CanJoin slot queue self.old }
        ensures joined { self.new ≡ record self.old {
          queues = joined slot queue self.old.queues;
        } }
        ensures apart { IsApart self.new }
    {
        let head = self.head_of(queue);
        self.links.exchange_before(head, slot);
    }

    /// Makes a slot that is alone idle, after all others that are.
    pub fn retire(&mut self, slot: usize)
        requires slot { IsSlot self.old.nodes self.old.heads slot }
        requires alone { IsAlone slot (rows_of self.old) }
        ensures idle { self.new ≡ record self.old { idle = self.old.idle ++ slot ∷ [] } }
        ensures apart { IsApart self.new }
    {
        self.links.exchange_before(IDLE, slot);
    }
}
