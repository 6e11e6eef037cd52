//! The parts of a run: scheduling rounds, and time advances if no actor is ready.
ghost use Rattle.std.specs.Prelude.{◌≡◌, ◌+◌, ◌≤◌, false};
ghost use Rattle.sg_engine.specs.kept.Invariant.{CanPlay, GoesOn, LeadsTo};
ghost use Rattle.sg_engine.specs.kept.Moments.{part_at, round_at};
ghost use Rattle.sg_engine.specs.Run.{are_completed, next_work, work_behind};

use crate::answers::answer_calls;
use crate::ended::Ended;
use crate::plan::Engine;
use crate::simulation::Simulation;
use crate::turns::take_turns;
use sg_actor::Actor;
use sg_base::Steps;
use sg_edge::{Files, Part};
use sg_route::Router;
use std::sync::ledger::Ledger;
use std::thread::Threads;

// Makes a scheduling round.
fn round<R: Threads + Sync, F: Files>(
    engine: &Engine<'_, '_, R>,
    router: &mut Router,
    sim: &mut Simulation,
    files: &mut F,
) -> Result<(), Ended>
    requires { CanPlay (λ b. mind b) engine.now.plan (F.shows files.old) router.old sim.old }
    ensures step { LeadsTo (λ b. mind b) engine.now.plan (λ world. world.work)
        (round_at engine.now.plan router.old sim.old.kernel) result
        (F.shows files.old) (F.shows files.new) sim.old sim.new }
    ensures goes { GoesOn (λ b. mind b) engine.now.plan F.shows result files.old files.new
        router.old router.new sim.old sim.new }
{
    let seats = sim.seats.as_mut_slice();
    take_turns(engine, &sim.kernel, seats, &mut sim.calls);
    answer_calls(&engine.plan, router, sim, files)
}

/// Makes a scheduling round, or a time advance if no actor is ready. It takes no memory except for lines of the script.
pub fn round_or_pass<R: Threads + Sync, F: Files, L: Ledger>(
    engine: &Engine<'_, '_, R>,
    router: &mut Router,
    sim: &mut Simulation,
    files: &mut F,
    steps: &mut Steps<L>,
) -> Result<(), Ended>
    requires can { CanPlay (λ b. mind b) engine.now.plan (F.shows files.old) router.old sim.old }
    requires going { are_completed sim.old.kernel.core ≡ false }
    ensures step { LeadsTo (λ b. mind b) engine.now.plan work_behind
        (part_at engine.now.plan router.old sim.old.kernel) result
        (F.shows files.old) (F.shows files.new) sim.old sim.new }
    ensures goes { GoesOn (λ b. mind b) engine.now.plan F.shows result files.old files.new
        router.old router.new sim.old sim.new }
    ensures steps { steps.new ≤ steps.old + next_work sim.old.kernel.core }
{
    if sim.kernel.any_ready() {
        round(engine, router, sim, files)
    } else {
        Ok(sim.kernel.pass(steps)?)
    }
}
