//! The waiters of each activity.
ghost use Rattle.std.specs.Prelude.{◌≡◌, ◌≢◌, ◌-◌, ◌<◌, ◌++◌, ◌∷◌, [], slice_index_or, slice_set};
ghost use Rattle.sg_mailbox.specs.declared.owners.How.TheVariants as how;
ghost use Rattle.sg_mailbox.specs.declared.owners.Whose.TheVariants.{Over};
ghost use Rattle.sg_mailbox.specs.Owners.{whose_of as whose_of_spec, CanPush, HoldsMore, IsDrawn};

use crate::sides::Side;
use sg_base::{ActorId, BoxId, Memory, Serial};
use sg_queues::BySerial;
use std::alloc::Global;
use std::marker::Model;

/// How an activity ended.
#[derive(Clone, Copy)]
pub enum How {
    /// All of it is done.
    Done,
    /// It failed: something that it used is off, or was turned off.
    Failed,
}

/// The waiters of an activity.
#[derive(Clone, Copy)]
pub enum Whose {
    /// It has no waiter: it completed or failed.
    Over(How),
    /// It is what this actor computes or sleeps.
    Alone(ActorId),
    /// It is a communication with one endpoint, in this mailbox, and whether that one sends.
    Posted(BoxId, bool, Side),
    /// It is a communication of a sender and a receiver.
    Pair(Side, Side),
}

/// The waiters of each activity. It keeps nothing of one that is done, and of one that failed only that it did. Contracts
/// see a list by activity id.
#[derive(Drop)]
pub struct Owners {
    owners: BySerial<Whose>,
    drawn: u64,
    room: usize,
}

impl Model for Owners {
    ghost use Rattle.std.specs.Prelude.{◌≤◌};
    ghost use Rattle.sg_queues.specs.Serials.{at, room as room_in};
    ghost use Rattle.sg_mailbox.specs.Owners.{Owned, table};

    ghost Value = { Owned };

    ghost view = { λ s. record {
      whose = table (at s.owners) 1 s.drawn;
      room = s.room;
    } };

    ghost invariant = { λ s. s.room ≤ room_in s.owners };
}

fn whose_of(owner: Option<Whose>) -> Whose
    ensures { result ≡ whose_of_spec owner }
{
    match owner {
        Some(whose) => whose,
        None => Whose::Over(How::Done),
    }
}

impl Owners {
    /// Makes a state without activities and room.
    pub fn new(alloc: Global) -> Owners
        ensures { result ≡ record { whose = []; room = 0 } }
    {
        Owners {
            owners: BySerial::new(alloc),
            drawn: 0,
            room: 0,
        }
    }

    /// Makes room for this many more activities.
    pub fn reserve(&mut self, n: usize) -> Result<(), Memory>
        ensures { HoldsMore n self.old self.new result }
    {
        let n = n.max(self.room);
        self.owners.reserve(n)?;
        self.room = n;
        Ok(())
    }

    /// Sets the waiters of the activity of the next id.
    pub fn push(&mut self, whose: Whose)
        requires { CanPush self.old }
        ensures { self.new ≡ record {
          whose = self.old.whose ++ whose ∷ [];
          room = self.old.room - 1;
        } }
    {
        self.owners.insert(self.drawn + 1, whose);
        self.drawn += 1;
        self.room -= 1;
    }

    /// Returns the waiters of the activity of this id.
    pub fn of(&self, serial: Serial) -> Whose
        requires { IsDrawn serial.0 self.now }
        ensures { result ≡ slice_index_or self.now.whose (serial.0 - 1) (Over how.Done) }
    {
        whose_of(self.owners.get(serial.0))
    }

    /// Gives the activity of this id these waiters.
    pub fn put(&mut self, serial: Serial, whose: Whose)
        requires drawn { IsDrawn serial.0 self.old }
        requires room { 0 < self.old.room }
        ensures { self.new ≡ record {
          whose = slice_set self.old.whose (serial.0 - 1) whose;
          room = self.old.room - 1;
        } }
    {
        self.owners.insert(serial.0, whose);
        self.room -= 1;
    }

    /// Marks the activity of this id, which hasn't ended, as failed, and returns its waiters.
    pub fn fail(&mut self, serial: Serial) -> Whose
        requires drawn { IsDrawn serial.0 self.old }
        requires under_way { slice_index_or self.old.whose (serial.0 - 1) (Over how.Done)
            ≢ Over how.Done }
        ensures was { result ≡ slice_index_or self.old.whose (serial.0 - 1) (Over how.Done) }
        ensures is { self.new ≡ record self.old {
          whose = slice_set self.old.whose (serial.0 - 1) (Over how.Failed);
        } }
    {
        match self.owners.replace(serial.0, Whose::Over(How::Failed)) {
            Some(was) => was,
            None => unreachable!(),
        }
    }

    /// Marks the activity of this id as done, and returns its waiters.
    pub fn take(&mut self, serial: Serial) -> Whose
        requires { IsDrawn serial.0 self.old }
        ensures was { result ≡ slice_index_or self.old.whose (serial.0 - 1) (Over how.Done) }
        ensures is { self.new ≡ record self.old {
          whose = slice_set self.old.whose (serial.0 - 1) (Over how.Done);
        } }
    {
        whose_of(self.owners.remove(serial.0))
    }
}
