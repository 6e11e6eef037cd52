//! Scheduling rounds of boxed contexts: which of them take a turn, which meet in threads, and when a pool is blank.
ghost use Rattle.std.specs.Prelude.{◌≡◌, ◌<◌, All, IsTrue};
ghost use Rattle.sg_actor.specs.Seats.{CanTurn, seat_views, seat_view};

use sg_actor::{Actor, PlainContext, Role, Seat, TapeContext, all_blank, run_round};
use sg_base::{ActorId, Answer, Call, Memory};
use sg_job_cases::Meeter;
use std::alloc::Global;
use std::process::Abort;
use std::sync::Arc;
use std::sync::atomic::{AtomicU64, Ordering};
use std::test::Fail;
use std::thread::Threads;

const ME: ActorId = ActorId(1);

/// An actor that counts its turns.
#[derive(Drop)]
struct Counter {
    inner: TapeContext,
    turns: Arc<AtomicU64>,
}

impl Actor for Counter {
    ghost mind = { λ s. s.inner };

    fn is_blank(&self) -> bool {
        self.inner.is_blank()
    }

    fn cast(&mut self, role: &Role) -> Result<(), Memory> {
        self.inner.cast(role)
    }

    fn turn(&mut self, answer: Answer) -> Call {
        self.turns.fetch_add(1, Ordering::SeqCst);
        self.inner.turn(answer)
    }
}

// Makes a slot with a call in its outbox that no actor of these roles makes.
fn seat(actor: Option<Box<dyn Actor + Send>>, ready: bool) -> Seat {
    Seat {
        actor,
        inbox: Answer::Start,
        outbox: Call::Yield,
        ready,
    }
}

fn plain(alloc: Global) -> Result<PlainContext, Memory> {
    let mut plain = PlainContext::new(alloc);
    plain.cast(&Role::Replay(ME))?;
    Ok(plain)
}

fn counting(alloc: Global, turns: &Arc<AtomicU64>) -> Result<Counter, Fail> {
    let mut counter = Counter {
        inner: TapeContext::new(alloc),
        turns: Arc::try_clone(turns)?,
    };
    counter.cast(&Role::Replay(ME))?;
    Ok(counter)
}

// Makes a context that waits in its turn until all have come that are ready.
fn meeting(
    alloc: Global,
    all: u64,
    here: &Arc<AtomicU64>,
    missed: &Arc<AtomicU64>,
) -> Result<Meeter, Fail> {
    let here = Arc::try_clone(here)?;
    let missed = Arc::try_clone(missed)?;
    let mut meeter = Meeter::new(alloc, 1, all, here, missed);
    meeter.cast(&Role::Replay(ME))?;
    Ok(meeter)
}

// Returns whether no slot that is ready is empty or has a blank actor.
fn are_cast(seats: &[Seat]) -> bool
    ensures { IsTrue result → All CanTurn (seat_views (λ b. mind b) seats.now) }
{
    for seat in seats {
        if !is_cast(seat) {
            return false;
        }
    }
    true
}

// In a function of its own, so that the loop knows what it says of the mind.
fn is_cast(seat: &Seat) -> bool
    ensures { IsTrue result → CanTurn (seat_view (λ b. mind b) seat.now) }
{
    match &seat.actor {
        Some(actor) => !actor.is_blank(),
        None => !seat.ready,
    }
}

// Makes a scheduling round of slots that were filled in a loop, after a check that all are bound.
fn run_cast<R: Abort + Threads + Sync>(rt: &R, seats: &mut [Seat], threads: u32)
    requires { 0 < threads }
{
    assert!(rt; are_cast(seats));
    run_round(rt, seats, threads);
}

/// Which actor a slot has.
#[derive(Clone, Copy)]
enum Kind {
    Plain,
    Counting,
    Nobody,
}

/// The slots of a scheduling round in three threads: which actor each has, and whether it is ready.
const SEATS: [(Kind, bool); 6] = [
    (Kind::Plain, true),
    (Kind::Counting, false),
    (Kind::Plain, false),
    (Kind::Nobody, false),
    (Kind::Counting, true),
    (Kind::Counting, true),
];

#[test]
fn only_ready_seats_take_a_turn(rt: HostRuntime) -> Result<(), Fail> {
    let alloc = rt.alloc();
    let turns = Arc::new(alloc, AtomicU64::new(0))?;
    let mut seats: Vec<Seat> = Vec::new(alloc);
    for (kind, ready) in SEATS {
        let actor: Option<Box<dyn Actor + Send>> = match kind {
            Kind::Plain => Some(Box::new(alloc, plain(alloc)?)?),
            Kind::Counting => Some(Box::new(alloc, counting(alloc, &turns)?)?),
            Kind::Nobody => None,
        };
        seats.push(seat(actor, ready))?;
    }
    run_cast(&rt, seats.as_mut_slice(), 3);
    assert_eq!(rt; seats.len(), SEATS.len());
    for (seat, (_, ready)) in seats.iter().zip(SEATS) {
        assert!(rt; matches!(seat.outbox, Call::Ask) == ready);
    }
    assert_eq!(rt; turns.load(Ordering::SeqCst), 2);
    Ok(())
}

// Returns how many are ready.
fn count(ready: &[bool]) -> u64 {
    let mut count = 0u64;
    for is_ready in ready {
        if *is_ready {
            count = count.saturating_add(1);
        }
    }
    count
}

// Returns how many actors meet all that are ready, in a scheduling round on so many threads.
fn met<R: Abort + Threads + Sync>(
    rt: &R,
    alloc: Global,
    ready: &[bool],
    threads: u32,
) -> Result<u64, Fail>
    requires { 0 < threads }
{
    let here = Arc::new(alloc, AtomicU64::new(0))?;
    let missed = Arc::new(alloc, AtomicU64::new(0))?;
    let all = count(ready);
    let mut seats: Vec<Seat> = Vec::new(alloc);
    for is_ready in ready {
        let meeter = meeting(alloc, all, &here, &missed)?;
        seats.push(seat(Some(Box::new(alloc, meeter)?), *is_ready))?;
    }
    run_cast(rt, seats.as_mut_slice(), threads);
    let here = here.load(Ordering::SeqCst);
    Ok(here.saturating_sub(missed.load(Ordering::SeqCst)))
}

#[test]
fn turns_meet(rt: HostRuntime) -> Result<(), Fail> {
    let three = [true, false, true, false, true];
    let eight = [
        true, false, true, true, false, false, true, true, false, true, true, true,
    ];
    // Which slots are ready, the threads, and how many actors meet all. In one chunk only the last one does.
    let cases: [(&[bool], u32, u64); 7] = [
        (&[true, true], 2, 2),
        (&[true, true], 1, 1),
        (&[true, true, false, false], 2, 1),
        (&[true, false, false, true], 2, 2),
        (&three, 3, 3),
        (&eight, 12, 8),
        (&eight, 64, 8),
    ];
    for (ready, threads, wanted) in cases {
        assert_eq!(rt; met(&rt, rt.alloc(), ready, threads)?, wanted);
    }
    Ok(())
}

#[test]
fn crew_is_blank_until_one_is_cast(rt: HostRuntime) -> Result<(), Fail> {
    let alloc = rt.alloc();
    let mut crew: [Box<dyn Actor + Send>; 2] = [
        Box::new(alloc, PlainContext::new(alloc))?,
        Box::new(alloc, TapeContext::new(alloc))?,
    ];
    assert!(rt; all_blank(&crew));
    assert!(rt; crew[1].is_blank());
    crew[1].cast(&Role::Worker(ME))?;
    assert!(rt; !all_blank(&crew));
    Ok(())
}
