//! Actors take their slots, each in a context of the pool.
ghost use Rattle.std.specs.Prelude.{◌≡◌, ◌-◌, if◌then◌else◌, length, slice_get, slice_set, take, true, All, Some, IfOk, OnErr, OnOk};
ghost use Rattle.std.specs.Option.{option_and_then};
ghost use Rattle.sg_base.specs.Limits.{Extent, IsActorIn};
ghost use Rattle.sg_actor.specs.Roles.{mind_of, CanCast, IsRole};
ghost use Rattle.sg_actor.specs.Seats.{seat_view, seat_views};
ghost use Rattle.sg_platform_rows.specs.Deployment.{extent_of};
ghost use Rattle.sg_engine.specs.Roles.{role_of, first_minds, firsts_of};
ghost use Rattle.sg_engine.specs.Run.{minds_if};
ghost use Rattle.sg_engine.specs.RunContract.{HasContexts};
ghost use Rattle.sg_engine.specs.kept.Listed.{first_mind};
ghost use Rattle.sg_engine.specs.kept.Invariant.{AreSeatsOf, CanTake, StartsFrom, StartsUpTo};
ghost use Rattle.sg_engine.specs.kept.SeatRules.{mind_in, minds_of, IsSeated};

use crate::plan::Plan;
use crate::roles::role;
use sg_actor::{Actor, Seat, roles_keep_limits};
use sg_base::{ActorId, Answer, Call, Memory};
use sg_platform_rows::{ActorRow, Deployment, Function};
use std::alloc::Global;

// Takes the next context, the pool's last one, and binds it to the role of an actor. If memory runs out, it is lost.
fn take_context(
    alloc: Global,
    crew: &mut Vec<Box<dyn Actor + Send>>,
    me: ActorId,
    function: &Function,
) -> Result<Box<dyn Actor + Send>, Memory>
    requires crew { CanTake (λ b. mind b) true crew.old.items }
    requires role { CanCast (role_of me.0 function.now) }
    ensures mind { IfOk result (λ context. mind context
        ≡ Some (mind_of (role_of me.0 function.now))) }
    ensures crew { crew.new.items ≡ take (length crew.old.items - 1) crew.old.items }
{
    let Some(context) = crew.pop() else {
        unreachable!()
    };
    let mut actor = context;
    actor.cast(&role(alloc, me, function)?)?;
    Ok(actor)
}

// Makes the actor of a row, if it starts.
fn starter(
    alloc: Global,
    crew: &mut Vec<Box<dyn Actor + Send>>,
    me: ActorId,
    row: &ActorRow,
) -> Result<Option<Box<dyn Actor + Send>>, Memory>
    requires crew { CanTake (λ b. mind b) row.now.start crew.old.items }
    requires role { CanCast (role_of me.0 row.now.function) }
    ensures mind { IfOk result (λ actor. option_and_then (λ b. mind b) actor
        ≡ first_mind me.0 row.now) }
    ensures crew { crew.new.items
        ≡ take (length crew.old.items - (if row.now.start then 1 else 0)) crew.old.items }
{
    if row.start {
        Ok(Some(take_context(alloc, crew, me, &row.function)?))
    } else {
        Ok(None)
    }
}

// Makes the slot of the actor of a row.
fn seat(
    alloc: Global,
    crew: &mut Vec<Box<dyn Actor + Send>>,
    me: ActorId,
    row: &ActorRow,
) -> Result<Seat, Memory>
    requires crew { CanTake (λ b. mind b) row.now.start crew.old.items }
    requires role { CanCast (role_of me.0 row.now.function) }
    ensures mind { IfOk result (λ seat. mind_in (seat_view (λ b. mind b) seat)
        ≡ first_mind me.0 row.now) }
    ensures seated { (extent : Extent) → IsRole extent (role_of me.0 row.now.function) →
        IfOk result (λ seat. IsSeated extent (seat_view (λ b. mind b) seat)) }
    ensures crew { crew.new.items
        ≡ take (length crew.old.items - (if row.now.start then 1 else 0)) crew.old.items }
{
    roles_keep_limits();
    Ok(Seat {
        actor: starter(alloc, crew, me, row)?,
        inbox: Answer::Start,
        outbox: Call::Ask,
        ready: false,
    })
}

/// Makes a slot for each actor of a deployment. One that starts takes the next context of the pool, which is bound to
/// its role.
pub fn seat_all(
    alloc: Global,
    crew: &mut Vec<Box<dyn Actor + Send>>,
    deployment: &Deployment,
) -> Result<Vec<Seat>, Memory>
    requires { HasContexts (λ b. mind b) crew.old.items deployment.now }
    ensures minds { IfOk result (λ seats. minds_of (seat_views (λ b. mind b) seats.items)
        ≡ first_minds deployment.now) }
    ensures seated { IfOk result (λ seats. All (IsSeated (extent_of deployment.now))
        (seat_views (λ b. mind b) seats.items)) }
    ensures crew { OnOk result (StartsFrom deployment.now crew.old.items crew.new.items) }
    ensures left { OnErr result (StartsUpTo deployment.now crew.old.items crew.new.items) }
{
    let rows = deployment.actors();
    let mut seats = Vec::with_capacity(alloc, rows.len())?;
    for (i, row) in rows.iter().enumerate() {
        seats.push_reserved(seat(alloc, crew, ActorId(i as u32 + 1), row)?);
    }
    Ok(seats)
}

// Gives an actor that begins the next context of the pool, and its slot. If memory runs out, the context is lost.
fn take_seat(
    plan: &Plan<'_>,
    crew: &mut Vec<Box<dyn Actor + Send>>,
    seats: &mut [Seat],
    actor: ActorId,
) -> Result<(), Memory>
    requires crew { CanTake (λ b. mind b) true crew.old.items }
    requires actor { IsActorIn (extent_of plan.now.deployment.now) actor }
    requires seats { AreSeatsOf plan.now.deployment.now (seat_views (λ b. mind b) seats.old) }
    ensures minds { OnOk result (minds_of (seat_views (λ b. mind b) seats.new)
        ≡ slice_set (minds_of (seat_views (λ b. mind b) seats.old)) (actor.0 - 1)
        (slice_get (firsts_of plan.now.deployment.now) (actor.0 - 1))) }
    ensures seats { AreSeatsOf plan.now.deployment.now (seat_views (λ b. mind b) seats.new) }
    ensures crew { crew.new.items ≡ take (length crew.old.items - 1) crew.old.items }
{
    roles_keep_limits();
    let place = actor.0 as usize - 1;
    let row = &plan.deployment.actors()[place];
    let context = take_context(plan.alloc, crew, actor, &row.function)?;
    seats[place].actor = Some(context);
    Ok(())
}

/// Does the same if the actor is given its beginning; else all stays as it is.
pub fn seat_if(
    plan: &Plan<'_>,
    crew: &mut Vec<Box<dyn Actor + Send>>,
    seats: &mut [Seat],
    actor: ActorId,
    given: bool,
) -> Result<(), Memory>
    requires crew { CanTake (λ b. mind b) given crew.old.items }
    requires actor { IsActorIn (extent_of plan.now.deployment.now) actor }
    requires seats { AreSeatsOf plan.now.deployment.now (seat_views (λ b. mind b) seats.old) }
    ensures minds { OnOk result (minds_of (seat_views (λ b. mind b) seats.new)
        ≡ minds_if given (firsts_of plan.now.deployment.now) actor.0
        (minds_of (seat_views (λ b. mind b) seats.old))) }
    ensures seats { AreSeatsOf plan.now.deployment.now (seat_views (λ b. mind b) seats.new) }
    ensures crew { crew.new.items
        ≡ take (length crew.old.items - (if given then 1 else 0)) crew.old.items }
{
    if given {
        take_seat(plan, crew, seats, actor)
    } else {
        Ok(())
    }
}
