//! An actor for tests of threads.
ghost use Rattle.std.specs.Prelude.{◌≡◌, None};

use sg_actor::{Actor, PlainContext, Role};
use sg_base::{Answer, Call, Memory};
use std::alloc::Global;
use std::marker::Model;
use std::sync::Arc;
use std::sync::atomic::{AtomicU64, Ordering};

/// A context that waits in one of its turns until so many have come there. If they don't come it continues, and counts
/// that.
#[derive(Drop)]
pub struct Meeter {
    inner: PlainContext,
    /// How many turns are left until that one.
    turns: u32,
    wanted: u64,
    here: Arc<AtomicU64>,
    missed: Arc<AtomicU64>,
}

impl Model for Meeter {
    ghost use Rattle.std.specs.Prelude.{Option};
    ghost use Rattle.sg_base.specs.Mind.{Mind};

    ghost Value = { Option Mind };

    ghost view = { λ s. s.inner };
}

impl Meeter {
    /// Makes a blank one that waits in this turn, counted from 1, until so many are `here`.
    pub fn new(
        alloc: Global,
        turns: u32,
        wanted: u64,
        here: Arc<AtomicU64>,
        missed: Arc<AtomicU64>,
    ) -> Meeter
        ensures { result ≡ None }
    {
        Meeter {
            inner: PlainContext::new(alloc),
            turns,
            wanted,
            here,
            missed,
        }
    }

    // Returns whether all come for whom it waits.
    fn meets(&self) -> bool {
        for _look in 0..100_000_000u32 {
            if self.here.load(Ordering::SeqCst) == self.wanted {
                return true;
            }
        }
        false
    }
}

impl Actor for Meeter {
    ghost mind = { λ s. s };

    fn is_blank(&self) -> bool {
        self.inner.is_blank()
    }

    fn cast(&mut self, role: &Role) -> Result<(), Memory> {
        self.inner.cast(role)
    }

    fn turn(&mut self, answer: Answer) -> Call {
        if self.turns == 1 {
            self.here.fetch_add(1, Ordering::SeqCst);
            if !self.meets() {
                self.missed.fetch_add(1, Ordering::SeqCst);
            }
        }
        self.turns = self.turns.saturating_sub(1);
        self.inner.turn(answer)
    }
}
