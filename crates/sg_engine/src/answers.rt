//! The answers of a scheduling round: its calls are answered by rising id.
ghost use Rattle.std.specs.Prelude.{◌≡◌, ◌≢◌, ◌+◌, ◌<◌, ◌≤◌, IfErr, Err, length, All, AllPairs};
ghost use Rattle.sg_base.specs.Limits.{IsActorIn, IsCall};
ghost use Rattle.sg_edge.specs.Files.{PartView};
ghost use Rattle.sg_edge.specs.declared.files.Stage.TheVariants.{Fresh};
ghost use Rattle.sg_kernel_calls.specs.World.{MayCall, extent};
ghost use Rattle.sg_kernel_calls.specs.Roads.{AreOver};
ghost use Rattle.sg_engine.specs.declared.actor_call.ActorCall.{ActorCall};
ghost use Rattle.sg_engine.specs.kept.Invariant.{at_moment, cast_in, may_be_given, unstarted, CanAnswer, CanCreate, FitsNow, GoesOn, KeepsOthers, LeadsTo};
ghost use Rattle.sg_engine.specs.kept.Moments.{cuts, script_moment, call_at, calls_at, created_at, FitsScript, HasFetched, IsFree, LeavesFree, Leads, LeadsCalls, UsesScript};
ghost use Rattle.sg_engine.specs.Run.{ask_step};

use crate::actor_call::ActorCall;
use crate::ended::Ended;
use crate::plan::Plan;
use crate::seating::seat_if;
use crate::simulation::Simulation;
use sg_actor::Actor;
use sg_base::{ActorId, Call};
use sg_edge::{Files, Part};
use sg_kernel::Kernel;
use sg_route::Router;
use sg_script::Script;

// Answers an actor that fetches its next line: with that line, or by the end of the run.
fn answer_ask<F: Files>(
    plan: &Plan<'_>,
    kernel: &mut Kernel,
    script: &mut Script,
    files: &mut F,
    actor: ActorId,
) -> Result<(), Ended>
    requires caller { MayCall kernel.old.core actor.0 }
    requires room { 0 < kernel.old.room }
    requires fits { FitsScript plan.now (F.shows files.old) script.old kernel.old }
    ensures step { LeadsCalls plan.now (λ answers. ask_step kernel.old.setup answers actor.0) result
        (script_moment (F.shows files.old) script.old kernel.old)
        (script_moment (F.shows files.new) script.new kernel.new) }
    ensures fits { FitsScript plan.now (F.shows files.new) script.new kernel.new }
    ensures script { HasFetched result (F.shows files.old) (F.shows files.new) }
    ensures setup { kernel.new.setup ≡ kernel.old.setup }
    ensures room { kernel.old.room ≤ kernel.new.room + 1 }
    ensures free { LeavesFree actor.0 kernel.old.core kernel.new.core }
    ensures begun { unstarted kernel.new.core ≤ unstarted kernel.old.core }
{
    if kernel.is_used_up() {
        return Err(Ended::Budget);
    }
    let action = script.next_of(actor, plan.deployment, files)?;
    Ok(kernel.tell(actor, action)?)
}

// Answers a create that is given or refused: if given, its actor takes a context and its slot first.
fn create(
    plan: &Plan<'_>,
    sim: &mut Simulation,
    actor: ActorId,
    target: ActorId,
    given: bool,
) -> Result<(), Ended>
    requires can { CanCreate (λ b. mind b) plan.now actor target sim.old }
    requires unused { sim.old.kernel.core.events ≢ sim.old.kernel.setup.budget }
    requires given { given ≡ may_be_given target.0 sim.old }
    ensures step { (part : PartView) → part.stage ≢ Fresh →
        Leads plan.now (λ world. world.work)
        (created_at plan.now sim.old.kernel actor target) result
        (cast_in (λ b. mind b) sim.old) (cast_in (λ b. mind b) sim.new)
        (at_moment part sim.old) (at_moment part sim.new) }
    ensures short { IfErr result (λ how. how ≡ Ended.Memory) }
    ensures others { KeepsOthers (λ b. mind b) actor.0 (cuts result) sim.old sim.new }
    ensures script { sim.new.script ≡ sim.old.script }
{
    let seats = sim.seats.as_mut_slice();
    seat_if(plan, &mut sim.crew, seats, target, given)?;
    sim.kernel.create(actor, target, given);
    Ok(())
}

// Answers a create.
fn answer_create(
    plan: &Plan<'_>,
    sim: &mut Simulation,
    actor: ActorId,
    target: ActorId,
) -> Result<(), Ended>
    requires can { CanCreate (λ b. mind b) plan.now actor target sim.old }
    ensures step { (part : PartView) → part.stage ≢ Fresh →
        Leads plan.now (λ world. world.work)
        (created_at plan.now sim.old.kernel actor target) result
        (cast_in (λ b. mind b) sim.old) (cast_in (λ b. mind b) sim.new)
        (at_moment part sim.old) (at_moment part sim.new) }
    ensures unwritten { result ≢ Err Ended.WriteFault }
    ensures read { result ≢ Err Ended.ReadFault }
    ensures others { KeepsOthers (λ b. mind b) actor.0 (cuts result) sim.old sim.new }
    ensures script { sim.new.script ≡ sim.old.script }
{
    let fresh = sim.kernel.may_create(actor, target)?;
    let given = fresh && !sim.crew.is_empty();
    create(plan, sim, actor, target, given)
}

// Answers a call, except that of an actor that was killed in this scheduling round.
fn answer_one<F: Files>(
    plan: &Plan<'_>,
    router: &mut Router,
    sim: &mut Simulation,
    files: &mut F,
    made: ActorCall,
) -> Result<(), Ended>
    requires caller { IsFree sim.old.kernel.core made.actor.0 }
    requires call { IsCall (extent sim.old.kernel.setup) made.call }
    requires room { 0 < sim.old.kernel.room }
    requires can { CanAnswer (λ b. mind b) plan.now (F.shows files.old) router.old sim.old }
    ensures step { LeadsTo (λ b. mind b) plan.now (λ world. world.work)
        (call_at plan.now router.old sim.old.kernel made) result
        (F.shows files.old) (F.shows files.new) sim.old sim.new }
    ensures fits { FitsNow plan.now (F.shows files.new) sim.new }
    ensures script { UsesScript F.shows plan.now.script result files.old files.new
        router.old router.new }
    ensures others { KeepsOthers (λ b. mind b) made.actor.0 (cuts result) sim.old sim.new }
{
    if !sim.kernel.alive(made.actor) {
        return Ok(());
    }
    match made.call {
        Call::Create(target) => answer_create(plan, sim, made.actor, target),
        Call::Ask if plan.script => {
            answer_ask(plan, &mut sim.kernel, &mut sim.script, files, made.actor)
        }
        call => Ok(sim.kernel.answer(made.actor, call, router)?),
    }
}

/// Answers the calls of a scheduling round by rising id.
pub fn answer_calls<F: Files>(
    plan: &Plan<'_>,
    router: &mut Router,
    sim: &mut Simulation,
    files: &mut F,
) -> Result<(), Ended>
    requires callers { All (λ (made : ActorCall). MayCall sim.old.kernel.core made.actor.0
        × IsCall (extent sim.old.kernel.setup) made.call) sim.old.calls.items }
    requires rises { AllPairs (λ (a b : ActorCall). a.actor.0 < b.actor.0) sim.old.calls.items }
    requires room { length sim.old.calls.items ≤ sim.old.kernel.room }
    requires can { CanAnswer (λ b. mind b) plan.now (F.shows files.old) router.old sim.old }
    ensures step { LeadsTo (λ b. mind b) plan.now (λ world. world.work)
        (calls_at plan.now router.old sim.old.kernel sim.old.calls.items) result
        (F.shows files.old) (F.shows files.new) sim.old sim.new }
    ensures goes { GoesOn (λ b. mind b) plan.now F.shows result files.old files.new
        router.old router.new sim.old sim.new }
{
    for place in 0..sim.calls.len() {
        let made = sim.calls.as_slice()[place];
        answer_one(plan, router, sim, files, made)?;
    }
    Ok(())
}
