//! A scheduling round whose two turns see each other only if they overlap.
ghost use Rattle.std.specs.Prelude.{IfOk};
ghost use Rattle.sg_actor.specs.Seats.{CanTurn, seat_view};

use sg_actor::{Actor, PlainContext, Role, Seat, run_round};
use sg_base::{ActorId, Answer, Call, Memory};
use std::alloc::Global;
use std::sync::Arc;
use std::sync::atomic::{AtomicU64, Ordering};
use std::test::Fail;

/// A context that sets a flag in its turn, and then looks for the flag of another.
#[derive(Drop)]
struct Flagger {
    inner: PlainContext,
    own: Arc<AtomicU64>,
    other: Arc<AtomicU64>,
    /// How many have seen the flag for which they looked.
    seen: Arc<AtomicU64>,
}

impl Flagger {
    // Whether the other's flag is set before it has looked so many times.
    fn sees(&self) -> bool {
        for _look in 0..100_000_000u32 {
            if self.other.load(Ordering::SeqCst) == 1 {
                return true;
            }
        }
        false
    }
}

impl Actor for Flagger {
    ghost mind = { λ s. s.inner };

    fn is_blank(&self) -> bool {
        self.inner.is_blank()
    }

    fn cast(&mut self, role: &Role) -> Result<(), Memory> {
        self.inner.cast(role)
    }

    fn turn(&mut self, answer: Answer) -> Call {
        self.own.store(1, Ordering::SeqCst);
        if self.sees() {
            self.seen.fetch_add(1, Ordering::SeqCst);
        }
        self.inner.turn(answer)
    }
}

// Makes a slot whose actor is ready. In its turn it sets the one flag and looks for the other.
fn ready_seat(
    alloc: Global,
    own: &Arc<AtomicU64>,
    other: &Arc<AtomicU64>,
    seen: &Arc<AtomicU64>,
) -> Result<Seat, Memory>
    ensures { IfOk result (λ seat. CanTurn (seat_view (λ b. mind b) seat)) }
{
    let mut actor = Flagger {
        inner: PlainContext::new(alloc),
        own: Arc::try_clone(own)?,
        other: Arc::try_clone(other)?,
        seen: Arc::try_clone(seen)?,
    };
    actor.cast(&Role::Replay(ActorId(1)))?;
    Ok(Seat {
        actor: Some(Box::new(alloc, actor)?),
        inbox: Answer::Start,
        outbox: Call::Yield,
        ready: true,
    })
}

#[test]
fn two_flags(rt: HostRuntime) -> Result<(), Fail> {
    let alloc = rt.alloc();
    let first = Arc::new(alloc, AtomicU64::new(0))?;
    let second = Arc::new(alloc, AtomicU64::new(0))?;
    let seen = Arc::new(alloc, AtomicU64::new(0))?;
    let mut seats = [
        ready_seat(alloc, &first, &second, &seen)?,
        ready_seat(alloc, &second, &first, &seen)?,
    ];
    run_round(&rt, &mut seats, 2);
    assert_eq!(rt; seen.load(Ordering::SeqCst), 2);
    for seat in &seats {
        assert!(rt; matches!(seat.outbox, Call::Ask));
    }
    Ok(())
}
