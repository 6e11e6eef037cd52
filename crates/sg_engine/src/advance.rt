//! One part of a run, with its lines.
ghost use Rattle.std.specs.Prelude.{◌+◌, ◌≤◌};
ghost use Rattle.sg_engine.specs.kept.Moments.{OnlyReads};
ghost use Rattle.sg_engine.specs.kept.Invariant.{snapshot_of, CanAdvance, IsCaused, LeadsPart, StaysKept};
ghost use Rattle.sg_engine.specs.Run.{next_work};

use crate::ended::{Ended, cuts};
use crate::output::Output;
use crate::plan::Engine;
use crate::printing::write_trace;
use crate::rounds::round_or_pass;
use crate::simulation::Simulation;
use sg_actor::Actor;
use sg_base::Steps;
use sg_edge::{Files, Part, Sinks, Stream};
use sg_route::Router;
use std::sync::ledger::Ledger;
use std::thread::Threads;

/// Makes a scheduling round, or a time advance if no actor is ready, and writes the lines of its records. It fails if
/// that has ended the run. No line waits before or after it, so that none waits while the script is read.
pub fn advance<R: Threads + Sync, F: Files, O: Sinks, L: Ledger>(
    engine: &Engine<'_, '_, R>,
    router: &mut Router,
    sim: &mut Simulation,
    files: &mut F,
    out: &mut Output<'_, O>,
    steps: &mut Steps<L>,
) -> Result<(), Ended>
    requires { CanAdvance (λ b. mind b) engine.now.plan (F.shows files.old) router.old sim.old }
    ensures part { LeadsPart engine.now.plan router.old result
        (snapshot_of (λ b. mind b) engine.now.plan (F.shows files.old)
        (O.contents out.old.sink.now) sim.old)
        (snapshot_of (λ b. mind b) engine.now.plan (F.shows files.new)
        (O.contents out.new.sink.now) sim.new) }
    ensures kept { StaysKept (λ b. mind b) engine.now.plan result (F.shows files.new) sim.old
        sim.new }
    ensures cause { IsCaused O.faults engine.now.plan result (F.shows files.new)
        out.old.sink out.new.sink }
    ensures script { OnlyReads F.shows engine.now.plan.script files.old files.new
        router.old router.new }
    ensures steps { steps.new ≤ steps.old + next_work sim.old.kernel.core }
{
    sim.kernel.reserve_round(sim.seats.len())?;
    let done = round_or_pass(engine, router, sim, files, steps);
    if cuts(done) {
        return done;
    }
    write_trace(&engine.plan, sim.kernel.records(), &mut sim.buffer, out)?;
    sim.kernel.clear_records();
    // So only an error is copied, and nearly no part ends in one.
    done?;
    Ok(())
}
