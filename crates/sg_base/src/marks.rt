//! A set of numbers below a room, in the order in which they came.

ghost use Rattle.std.specs.Prelude.{◌≡◌, ◌≢◌, ◌≤◌, ◌<◌, ◌+◌, ℕ, false, MatchResult, OnOk, [], length, max, AllPairs, All};
ghost use Rattle.sg_base.specs.MarkSet.{with_mark, is_in};

use crate::memory::Memory;
use std::alloc::Global;
use std::marker::Model;

// So many numbers there may be: their places have 32 bits.
const MOST: usize = 1 << 32;

/// Numbers below a room, each once, in the order in which they came.
#[derive(Drop)]
pub struct Marks {
    // the members; there is space for all numbers below the room
    order: Vec<usize>,
    // where each number stood in it last, so that one is a member if it stands there still
    place: Vec<u32>,
}

impl Model for Marks {
    ghost use Rattle.sg_base.specs.MarkSet.{MarkSet};

    ghost Value = { MarkSet };

    ghost use Rattle.std.specs.Prelude.{length, vec_capacity};
    ghost use Rattle.sg_base.specs.kept.Sparse.{IsSparse};

    ghost view = { λ m. record { members = m.order.items; room = length m.place.items } };

    ghost invariant = { λ m. IsSparse m.order.items m.place.items (vec_capacity m.order) };
}

impl Marks {
    /// Makes an empty set, without room.
    pub fn new(alloc: Global) -> Marks
        ensures members { result.members ≡ [] }
        ensures room { result.room ≡ 0 }
    {
        Marks {
            order: Vec::new(alloc),
            place: Vec::new(alloc),
        }
    }

    /// Returns whether the number is a member.
    pub fn contains(&self, number: usize) -> bool
        requires { number < self.now.room }
        ensures { result ≡ is_in number self.now.members }
    {
        let at = self.place[number] as usize;
        at < self.order.len() && self.order[at] == number
    }

    /// Returns the members, in the order in which they came.
    pub fn members(&self) -> &[usize]
        ensures members { result.now ≡ self.now.members }
        ensures once { AllPairs (λ a b. a ≢ b) result.now }
        ensures in_range { All (λ number. number < self.now.room) result.now }
        ensures few { length result.now ≤ self.now.room }
    {
        self.order.as_slice()
    }

    /// Makes the number a member.
    pub fn insert(&mut self, number: usize)
        requires { number < self.old.room }
        ensures { self.new ≡ record self.old { members = with_mark number self.old.members } }
    {
        if !self.contains(number) {
            self.place[number] = self.order.len() as u32;
            self.order.push_reserved(number);
        }
    }

    /// Makes the number no member: the last one takes its place.
    pub fn remove(&mut self, number: usize)
        requires { number < self.old.room }
        ensures gone { is_in number self.new.members ≡ false }
        ensures others { (other : ℕ) → other ≢ number
            → is_in other self.new.members ≡ is_in other self.old.members }
        ensures room { self.new.room ≡ self.old.room }
    {
        if self.contains(number) {
            let at = self.place[number] as usize;
            let last = self.order.len() - 1;
            let other = self.order[last];
            self.order[at] = other;
            self.place[other] = at as u32;
            self.order.truncate(last);
        }
    }

    /// Removes all members.
    pub fn clear(&mut self)
        ensures { self.new ≡ record self.old { members = [] } }
    {
        self.order.clear();
    }

    /// Makes room for the numbers below this one. Only the room changes, even if memory runs out.
    pub fn reserve(&mut self, room: usize) -> Result<(), Memory>
        ensures room { OnOk result (self.new.room ≡ max self.old.room room) }
        ensures kept { self.new ≡ record self.old { room = self.new.room } }
        ensures grows { self.old.room ≤ self.new.room }
    {
        if room <= self.place.len() {
            return Ok(());
        }
        if room > MOST {
            return Err(Memory);
        }
        self.order.reserve(room - self.order.len())?;
        self.place.resize(room, 0)?;
        Ok(())
    }
}
