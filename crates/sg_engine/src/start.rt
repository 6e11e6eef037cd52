//! The beginning of a run.
ghost use Rattle.std.specs.Prelude.{◌≡◌, ◌≢◌, IfOk, OnErr, length};
ghost use Rattle.sg_edge.specs.Files.{PartView};
ghost use Rattle.sg_edge.specs.declared.files.Stage.TheVariants.{Fresh};
ghost use Rattle.sg_engine.specs.RunContract.{HasContexts};
ghost use Rattle.sg_engine.specs.kept.Invariant.{IsFirst, StartsFrom, StartsUpTo};

use crate::buffer::Buffer;
use crate::plan::Plan;
use crate::seating::seat_all;
use crate::simulation::Simulation;
use sg_actor::Actor;
use sg_base::Memory;
use sg_kernel::Kernel;
use sg_script::Script;
use std::mem;

/// Makes the simulation of a plan, in which nothing has happened yet, with the whole context pool: the actors that
/// start have taken contexts from its end. If memory runs out, the pool keeps those that aren't taken.
pub fn start(plan: &Plan<'_>, crew: &mut Vec<Box<dyn Actor + Send>>) -> Result<Simulation, Memory>
    requires { HasContexts (λ b. mind b) crew.old.items plan.now.deployment.now }
    ensures first { IfOk result (λ sim. (part : PartView) → part.stage ≢ Fresh →
        IsFirst (λ b. mind b) plan.now.platform.now plan.now.deployment.now plan.now.terms.budget
        (length crew.old.items) part sim) }
    ensures crew { IfOk result (λ sim. StartsFrom plan.now.deployment.now crew.old.items
        sim.crew.items) }
    ensures left { OnErr result (StartsUpTo plan.now.deployment.now crew.old.items crew.new.items) }
{
    let alloc = plan.alloc;
    let actors = plan.deployment.actors().len();
    let seats = seat_all(alloc, crew, plan.deployment)?;
    Ok(Simulation {
        script: Script::new(alloc, actors as u32)?,
        calls: Vec::with_capacity(alloc, actors)?,
        buffer: Buffer::new(alloc)?,
        kernel: Kernel::new(alloc, plan.platform, plan.deployment, plan.terms.budget)?,
        seats,
        crew: mem::replace(crew, Vec::new(alloc)),
    })
}
