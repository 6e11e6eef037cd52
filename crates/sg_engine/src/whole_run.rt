//! The whole run.
ghost use Rattle.std.specs.Prelude.{◌≡◌, ◌≢◌, ◌+◌, ◌<◌, ◌≤◌, ⊤, length, IsTrue, MatchBool};
ghost use Rattle.sg_edge.specs.declared.files.Stage.TheVariants.{Fresh, Broken};
ghost use Rattle.sg_engine.specs.RunContract.{is_cut as is_cut_spec, HasContexts, IsEnding, RunsAs, StandsAsBefore, TakesFirst, output_of};
ghost use Rattle.sg_engine.specs.kept.Invariant.{crew_in, AreRoadsOf, HasEnded, Holds, IsBeginning, TakesInAll, TakesLast};
ghost use Rattle.sg_engine.specs.kept.Moments.{script_in, OnlyReads};
ghost use Rattle.sg_engine.specs.Pace.{KeepsPace, pace_in};
ghost use Rattle.sg_engine.specs.kept.Stretches.{planned_output, planned_pace, Simulates};
ghost use Rattle.sg_engine.specs.kept.Writing.{HasReason};

use crate::advance::advance;
use crate::ended::{Ended, is_cut};
use crate::final_state::Final;
use crate::finish::finish;
use crate::output::Output;
use crate::plan::{Engine, Plan, Terms};
use crate::setup::Setup;
use crate::show::Show;
use crate::simulation::Simulation;
use crate::start::start;
use sg_actor::Actor;
use sg_base::{Memory, Steps};
use sg_edge::{Files, Part, Sinks};
use sg_route::Router;
use std::alloc::Global;
use std::mem;
use std::sync::ledger::Ledger;
use std::thread::Threads;

// Simulates to the end of the run. All trace lines are written if the run wasn't cut off.
fn simulate<R: Threads + Sync, F: Files, O: Sinks, L: Ledger>(
    engine: &Engine<'_, '_, R>,
    router: &mut Router,
    sim: &mut Simulation,
    files: &mut F,
    out: &mut Output<'_, O>,
    steps: &mut Steps<L>,
) -> Ended
    requires { IsBeginning (λ b. mind b) engine.now.plan (F.shows files.old) router.old sim.old }
    ensures run { Simulates engine.now.plan (crew_in engine.now.plan sim.old) result sim.new
        steps.old steps.new (F.shows files.old) (F.shows files.new)
        (O.contents out.old.sink.now) (O.contents out.new.sink.now) }
    ensures kept { MatchBool (is_cut_spec result) ⊤
        (Holds (λ b. mind b) engine.now.plan (F.shows files.new) sim.new) }
    ensures crew { TakesInAll sim.old sim.new }
    ensures cause { HasReason O.faults (result ≡ Ended.WriteFault) (result ≡ Ended.ReadFault)
        ((script_in engine.now.plan (F.shows files.new)).stage ≡ Broken)
        out.old.sink out.new.sink }
    ensures script { OnlyReads F.shows engine.now.plan.script files.old files.new
        router.old router.new }
{
    for _turn in 0..engine.plan.terms.budget + 1 {
        if sim.kernel.ending() {
            return Ended::Completed;
        }
        match advance(engine, router, sim, files, out, steps) {
            Ok(()) => {}
            Err(how) => return how,
        }
    }
    Ended::Budget
}

// Simulates, and writes the last lines of a run that wasn't cut off.
fn run_from<R: Threads + Sync, F: Files, O: Sinks, L: Ledger>(
    engine: &Engine<'_, '_, R>,
    router: &mut Router,
    sim: &mut Simulation,
    files: &mut F,
    out: &mut Output<'_, O>,
    steps: &mut Steps<L>,
) -> Ended
    requires { IsBeginning (λ b. mind b) engine.now.plan (F.shows files.old) router.old sim.old }
    ensures output { RunsAs engine.now.plan.script
        (planned_output engine.now.plan (crew_in engine.now.plan sim.old)) result
        (O.contents out.old.sink.now) (O.contents out.new.sink.now)
        (crew_in engine.now.plan sim.old) (length sim.new.crew.items) steps.old steps.new
        (F.shows files.old) (F.shows files.new) }
    ensures pace { KeepsPace engine.now.plan.script
        (planned_pace engine.now.plan (crew_in engine.now.plan sim.old))
        (O.contents out.old.sink.now) (O.contents out.new.sink.now)
        (F.shows files.old) (F.shows files.new) }
    ensures crew { TakesInAll sim.old sim.new }
    ensures ending { HasEnded O.contents O.faults F.shows engine.now.plan.script result
        files.old files.new out.old.sink out.new.sink router.old router.new }
{
    let how = simulate(engine, router, sim, files, out, steps);
    if is_cut(how) {
        how
    } else {
        let end = Final {
            plan: engine.plan,
            kernel: &sim.kernel,
        };
        finish(&end, how, &mut sim.buffer, out)
    }
}

// Runs the actors of a plan to the end of the run. They take contexts from the end of the pool.
fn run_plan<R: Threads + Sync, F: Files, O: Sinks, L: Ledger>(
    engine: &Engine<'_, '_, R>,
    router: &mut Router,
    crew: &mut Vec<Box<dyn Actor + Send>>,
    files: &mut F,
    out: &mut Output<'_, O>,
    steps: &mut Steps<L>,
) -> Ended
    requires begun { IsTrue engine.now.plan.script → (F.shows files.old Part.Script).stage ≢ Fresh }
    requires crew { HasContexts (λ b. mind b) crew.old.items engine.now.plan.deployment.now }
    requires roads { AreRoadsOf engine.now.plan.platform.now router.old }
    ensures output { RunsAs engine.now.plan.script
        (planned_output engine.now.plan (length crew.old.items)) result
        (O.contents out.old.sink.now) (O.contents out.new.sink.now) (length crew.old.items)
        (length crew.new.items) steps.old steps.new (F.shows files.old) (F.shows files.new) }
    ensures pace { KeepsPace engine.now.plan.script
        (planned_pace engine.now.plan (length crew.old.items))
        (O.contents out.old.sink.now) (O.contents out.new.sink.now)
        (F.shows files.old) (F.shows files.new) }
    ensures crew { TakesLast engine.now.plan.deployment.now result crew.old.items crew.new.items }
    ensures ending { HasEnded O.contents O.faults F.shows engine.now.plan.script result
        files.old files.new out.old.sink out.new.sink router.old router.new }
{
    match start(&engine.plan, crew) {
        Ok(mut sim) => {
            let how = run_from(engine, router, &mut sim, files, out, steps);
            mem::swap(crew, &mut sim.crew);
            how
        }
        Err(Memory) => Ended::Memory,
    }
}

/// Runs the actors of a setup to the end of the run, and writes its lines.
///
/// Each actor that starts takes a context of the pool, the first one the first, and each that is created the next;
/// those that aren't taken stay in the pool. Each scheduling round takes its turns by up to so many workers at once;
/// how many can't be seen in the output. The script is read during the run, and only as far as an actor fetches its
/// lines. `budget` is the most events that there may be, and `steps` counts the visits to uses of hosts and links. What
/// the setup stands for stays as it was.
///
/// What is written, the end, and how many contexts are taken are those of the definition, for what the script's part
/// gives, and there are at most as many visits as its time advances may take. Of the script at most 4,095 bytes more
/// are taken than the fetches of the run need, and no read follows one after which all these fetches have their answers,
/// whatever comes next. The lines of each scheduling round and each time advance are written
/// after it: if a write fails, no more of the script was taken than these need up to that write, and 4,095 bytes.
/// Memory is taken at the beginning, before each scheduling round, for actors that are created and for lines of the
/// script, and none once the run has ended.
pub fn run<R: Threads + Sync, F: Files, O: Sinks, L: Ledger>(
    rt: &R,
    alloc: Global,
    setup: &mut Setup,
    files: &mut F,
    crew: &mut Vec<Box<dyn Actor + Send>>,
    workers: u32,
    budget: u64,
    show: Show,
    out: &mut O,
    steps: &mut Steps<L>,
) -> Ended
    requires budget { budget ≤ 1000000000 }
    requires workers { 0 < workers }
    requires begun { IsTrue setup.old.script → (F.shows files.old Part.Script).stage ≢ Fresh }
    requires crew { HasContexts (λ b. mind b) crew.old.items setup.old.deployment }
    requires sound { O.faults out.old ≡ 0 }
    ensures output { RunsAs setup.old.script (output_of setup.old budget (length crew.old.items)
        show) result (O.contents out.old) (O.contents out.new) (length crew.old.items)
        (length crew.new.items) steps.old steps.new (F.shows files.old) (F.shows files.new) }
    ensures pace { KeepsPace setup.old.script
        (pace_in setup.old budget (length crew.old.items) show)
        (O.contents out.old) (O.contents out.new) (F.shows files.old) (F.shows files.new) }
    ensures crew { TakesFirst setup.old.deployment result crew.old.items crew.new.items }
    ensures ending { IsEnding F.shows setup.old.script result files.old files.new
        (O.contents out.old) (O.contents out.new) (O.faults out.old) (O.faults out.new) }
    ensures setup { StandsAsBefore setup.old setup.new }
{
    let plan = Plan {
        alloc,
        platform: &setup.platform,
        deployment: &setup.deployment,
        script: setup.script,
        terms: Terms {
            workers,
            budget,
            show,
        },
    };
    let engine = Engine { rt, plan };
    // The next context is the last one during the run.
    crew.reverse();
    let mut output = Output {
        sink: out,
        broken: false,
    };
    let how = run_plan(&engine, &mut setup.router, crew, files, &mut output, steps);
    crew.reverse();
    how
}
