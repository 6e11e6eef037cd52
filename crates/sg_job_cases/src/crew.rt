//! What contexts a job has.
use crate::meeter::Meeter;
use sg_base::Memory;
use std::alloc::Global;
use std::sync::Arc;
use std::sync::atomic::{AtomicU64, Ordering};

/// A kind of contexts.
#[derive(Clone, Copy)]
pub enum Kind {
    Plain,
    Tape,
    /// One that waits for others.
    Meeter,
}

/// Which kinds of contexts a pool has.
#[derive(Clone, Copy)]
pub enum Kinds {
    All(Kind),
    /// Plain ones and ones with a tape, in turn.
    Both,
}

impl Kinds {
    /// Returns the kind of the context at a place, from 0 on.
    pub fn at(self, place: u32) -> Kind {
        match self {
            Kinds::All(kind) => kind,
            Kinds::Both if place % 2 == 1 => Kind::Tape,
            Kinds::Both => Kind::Plain,
        }
    }
}

/// How many contexts wait for one another, and in which of their turns; how many are there, and how many continued
/// alone.
#[derive(Drop)]
pub struct Meeting {
    pub wanted: u64,
    pub turn: u32,
    here: Arc<AtomicU64>,
    missed: Arc<AtomicU64>,
}

impl Meeting {
    /// Makes a meeting for which no context waits.
    pub fn new(alloc: Global) -> Result<Meeting, Memory> {
        Ok(Meeting {
            wanted: 0,
            turn: 0,
            here: Arc::new(alloc, AtomicU64::new(0))?,
            missed: Arc::new(alloc, AtomicU64::new(0))?,
        })
    }

    /// Returns how many came, and how many continued alone.
    pub fn counts(&self) -> (u64, u64) {
        (
            self.here.load(Ordering::SeqCst),
            self.missed.load(Ordering::SeqCst),
        )
    }

    /// Returns a context that waits for the others.
    pub fn meeter(&self, alloc: Global) -> Result<Meeter, Memory> {
        let (here, missed) = (Arc::try_clone(&self.here)?, Arc::try_clone(&self.missed)?);
        Ok(Meeter::new(alloc, self.turn, self.wanted, here, missed))
    }
}
