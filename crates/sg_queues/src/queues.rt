//! First-in-first-out queues of values.
ghost use Rattle.std.specs.Prelude.{◌≡◌, ◌<◌, ◌+◌, ◌-◌, [], ℕ, false, length, IfOk, MatchResult};
ghost use Rattle.sg_queues.specs.Rings.{front, queue_at};
ghost use Rattle.sg_queues.specs.Queues.{holds, let_go, queued, AddsQueue, AreSlots, CanPush, IsHeld, MakesRoom, PopsFront};

use crate::rings::Rings;
use sg_base::Memory;
use std::alloc::Global;
use std::marker::Model;

/// Queues by number from 0 on, first in, first out, which can also release a value from the middle.
///
/// Each value is in a slot, whose number stays the same as long as the value is there. Each call costs the same however
/// long the queues are. Only `reserve` and `add_queue` take memory.
#[derive(Drop)]
pub struct Queues<T> {
    rings: Rings,
    // by node the place of its value, and `NOWHERE` under a head: heads take no room for values
    homes: Vec<u32>,
    // the value in each place
    values: Vec<T>,
    // what fills the place of a missing value
    blank: T,
    room: usize,
}

// The place of a head; all places are below.
const NOWHERE: u32 = 4_294_967_295;

impl<T> Model for Queues<T> {
    ghost use Rattle.std.specs.Prelude.{length};
    ghost use Rattle.sg_queues.specs.Queues as spec;
    ghost use Rattle.sg_queues.specs.kept.Entries.{by_node, entries_of, AreKept};

    ghost Value = { spec.Queues T };

    ghost coded = { spec.queues_code T.code };

    ghost view = { λ s. record {
      queues = entries_of s.blank (by_node s.blank s.values.items s.homes.items)
          s.rings.queues;
      room = s.room;
    } };

    ghost invariant = { λ s. AreKept s.rings s.homes.items (length s.values.items) s.room };
}

impl<T: Copy + Drop> Queues<T> {
    /// Makes a state without queues and room. The blank is any value.
    pub fn new(alloc: Global, blank: T) -> Result<Queues<T>, Memory>
        ensures { IfOk result (λ q. q ≡ record { queues = []; room = 0 }) }
    {
        let rings = Rings::new(alloc)?;
        let mut homes = Vec::new(alloc);
        homes.push(NOWHERE)?;
        Ok(Queues {
            rings,
            homes,
            values: Vec::new(alloc),
            blank,
            room: 0,
        })
    }

    /// Adds an empty queue, and returns its number, which is how many queues there were.
    pub fn add_queue(&mut self) -> Result<usize, Memory>
        ensures { AddsQueue self.old self.new result }
    {
        self.homes.reserve(1)?;
        let number = self.rings.add_queue()?;
        self.homes.push_reserved(NOWHERE);
        Ok(number)
    }

    // Adds a slot, which is free.
    fn add_slot(&mut self) -> Result<(), Memory>
        ensures { MatchResult result
            (λ _. self.new ≡ record self.old { room = self.old.room + 1 })
            (λ _. self.new ≡ self.old) }
    {
        let place = self.values.len();
        if place >= NOWHERE as usize {
            return Err(Memory);
        }
        self.homes.reserve(1)?;
        self.values.reserve(1)?;
        let slot = self.rings.add_slot()?;
        self.rings.retire(slot);
        self.homes.push_reserved(place as u32);
        self.values.push_reserved(self.blank);
        self.room += 1;
        Ok(())
    }

    /// Makes room for so many more values.
    pub fn reserve(&mut self, n: usize) -> Result<(), Memory>
        ensures { MakesRoom n self.old self.new result }
    {
        while self.room < n {
            self.add_slot()?;
        }
        Ok(())
    }

    /// Puts a value at the end of a queue, and returns its slot.
    pub fn push_back(&mut self, queue: usize, value: T) -> usize
        requires { CanPush queue self.old }
        ensures queues { self.new.queues ≡ queued self.old.queues queue (result, value) }
        ensures room { self.new.room ≡ self.old.room - 1 }
        ensures fresh { (q : ℕ) → holds result (queue_at self.old.queues q) ≡ false }
        ensures slots { AreSlots self.new.queues }
    {
        let Some(slot) = self.rings.idle() else {
            unreachable!()
        };
        let home = self.homes[slot] as usize;
        self.values[home] = value;
        self.rings.leave(slot);
        self.rings.join(slot, queue);
        self.room -= 1;
        slot
    }

    /// Returns the first value of a queue, with its slot.
    pub fn front(&self, queue: usize) -> Option<(usize, T)>
        requires { queue < length self.now.queues }
        ensures first { result ≡ front (queue_at self.now.queues queue) }
        ensures slots { AreSlots self.now.queues }
    {
        let slot = self.rings.front(queue)?;
        let home = self.homes[slot] as usize;
        Some((slot, self.values[home]))
    }

    /// Removes the value in this slot from its queue, from any place.
    pub fn remove(&mut self, slot: usize)
        requires { IsHeld slot self.old.queues }
        ensures queues { self.new.queues ≡ let_go slot self.old.queues }
        ensures room { self.new.room ≡ self.old.room + 1 }
        ensures slots { AreSlots self.new.queues }
    {
        self.rings.leave(slot);
        self.rings.retire(slot);
        self.room += 1;
    }

    /// Takes the first value of a queue away, if there is one.
    pub fn pop_front(&mut self, queue: usize) -> Option<T>
        requires { queue < length self.old.queues }
        ensures { PopsFront queue self.old self.new result }
    {
        let (slot, value) = self.front(queue)?;
        self.remove(slot);
        Some(value)
    }
}
