//! The turns of a scheduling round: one of each actor that is ready.
ghost use Rattle.std.specs.Prelude.{◌≡◌, ◌<◌, length, All, map};
ghost use Rattle.std.specs.Thread.{IsSync, IsSend};
ghost use Rattle.sg_actor.specs.kept.Chunks.{chunk_size, seats_before_middle};
ghost use Rattle.sg_actor.specs.Seats.{after, seat_view, seat_views, CanTurn};

use crate::actor::Actor;
use crate::seat::Seat;
use std::thread::{Threads, join_mut};

/// Runs one turn of each actor whose slot is ready, on its inbox, and its call goes into its outbox. Every other slot
/// stays as it is.
///
/// The slots are cut into chunks, one for each worker if there are enough slots, and each is run in a thread of its
/// own; the result doesn't show which worker had which slots. It takes no memory.
pub fn run_round<R: Threads + Sync>(rt: &R, seats: &mut [Seat], workers: u32)
    requires some { 0 < workers }
    requires ready { All CanTurn (seat_views (λ b. mind b) seats.old) }
    ensures { seat_views (λ b. mind b) seats.new ≡ map after (seat_views (λ b. mind b) seats.old) }
{
    if workers == 1 || seats.len() <= 1 {
        run_in_turn(seats);
        return;
    }
    let size = chunk_size(seats.len(), workers);
    run_chunks(rt, size, seats);
}

// Returns how many slots each chunk has, except the last, which may have fewer.
fn chunk_size(seats: usize, workers: u32) -> usize
    requires seats { 0 < seats }
    requires workers { 0 < workers }
    ensures size { result ≡ chunk_size seats workers }
    ensures some { 0 < result }
{
    seats.div_ceil(workers as usize)
}

// Does the same, in a thread for each chunk of so many slots. The chunks are halved at each step, so the stack grows
// with the logarithm of their number.
#[cycle(halves)]
fn run_chunks<R: Threads + Sync, A: Actor + Send>(rt: &R, size: usize, seats: &mut [Seat<A>])
    requires size { 0 < size }
    requires ready { All CanTurn (seat_views A.mind seats.old) }
    ensures { seat_views A.mind seats.new ≡ map after (seat_views A.mind seats.old) }
{
    if seats.len() <= size {
        run_in_turn(seats);
        return;
    }
    let mid = middle(seats.len(), size);
    let (front, back) = seats.split_at_mut(mid);
    run_halves(rt, size, front, back);
}

// Does the same for two halves, in a function of its own, so that what the closures ask is what it asks.
#[cycle(halves)]
fn run_halves<R: Threads + Sync, A: Actor + Send>(
    rt: &R,
    size: usize,
    front: &mut [Seat<A>],
    back: &mut [Seat<A>],
)
    requires size { 0 < size }
    requires some { (0 < length front.old) × (0 < length back.old) }
    requires front { All CanTurn (seat_views A.mind front.old) }
    requires back { All CanTurn (seat_views A.mind back.old) }
    ensures front { seat_views A.mind front.new ≡ map after (seat_views A.mind front.old) }
    ensures back { seat_views A.mind back.new ≡ map after (seat_views A.mind back.old) }
{
    let mut first = ||
        requires { IsSync R.row × IsSend A.row × (0 < size)
            × All CanTurn (seat_views A.mind front.now) }
        ensures { seat_views A.mind front.exit.now ≡ map after (seat_views A.mind front.entry.now) }
    { run_chunks(rt, size, front) };
    let mut second = ||
        requires { IsSync R.row × IsSend A.row × (0 < size)
            × All CanTurn (seat_views A.mind back.now) }
        ensures { seat_views A.mind back.exit.now ≡ map after (seat_views A.mind back.entry.now) }
    { run_chunks(rt, size, back) };
    join_mut(rt, &mut first, &mut second);
}

// Returns where the second half of the chunks begins.
fn middle(seats: usize, size: usize) -> usize
    requires some { 0 < size }
    requires more { size < seats }
    ensures middle { result ≡ seats_before_middle seats size }
    ensures front { 0 < result }
    ensures back { result < seats }
{
    seats.div_ceil(size) / 2 * size
}

// Does the same, one after the other.
fn run_in_turn<A: Actor>(seats: &mut [Seat<A>])
    requires { All CanTurn (seat_views A.mind seats.old) }
    ensures { seat_views A.mind seats.new ≡ map after (seat_views A.mind seats.old) }
{
    for i in 0..seats.len() {
        run_seat(&mut seats[i]);
    }
}

// Runs one turn of the actor of a slot, if it is ready.
fn run_seat<A: Actor>(seat: &mut Seat<A>)
    requires { CanTurn (seat_view A.mind seat.old) }
    ensures { seat_view A.mind seat.new ≡ after (seat_view A.mind seat.old) }
{
    if !seat.ready {
        return;
    }
    match &mut seat.actor {
        Some(actor) => seat.outbox = actor.turn(seat.inbox),
        None => unreachable!(),
    }
}
