//! The run of a job whose platform and deployment are there.
ghost use Rattle.std.specs.Prelude.{◌≡◌, ◌≢◌, ◌<◌, ◌≤◌, length, All, None, Ok, false, IsTrue};
ghost use Rattle.sg_edge.specs.declared.files.Stage.TheVariants.{Fresh, Broken, Over};
ghost use Rattle.sg_edge.specs.Sources.{Source};
ghost use Rattle.sg_words.specs.Views.{job_view};
ghost use Rattle.simgrid_replay.specs.Contexts.{TakesFirst};
ghost use Rattle.simgrid_replay.specs.PartSources.{request_of, ScriptGives};
ghost use Rattle.simgrid_replay.specs.kept.Reading.{BeginsScript, Broke, ComesTo, IsCallCause};
ghost use Rattle.simgrid_replay.specs.Outcome.{is_refusal, or_refused};
ghost use Rattle.simgrid_replay.specs.kept.Setups.{setting_in, IsSetupOfJob};
ghost use Rattle.simgrid_replay.specs.Requests.{has_script, show_of};

use crate::host::Host;
use crate::reports::status;
use sg_actor::Actor;
use sg_base::{Status, Steps};
use sg_edge::{Files, Part, Sinks};
use sg_engine::{Setup, Show, Terms, run};
use sg_words::{Command, Job};
use std::sync::ledger::Ledger;
use std::thread::Threads;

// Returns what is shown of a job's run.
fn show(job: &Job) -> Show
    ensures { result ≡ show_of (request_of job.now) job.now.quiet }
{
    match job.command {
        Command::Churn { .. } => Show::Summary,
        Command::Replay { .. } | Command::Run { .. } if job.quiet => Show::Quiet,
        Command::Replay { .. } | Command::Run { .. } => Show::All,
    }
}

// Returns the terms of a job's run.
fn terms_for(job: &Job) -> Terms
    ensures workers { result.workers ≡ job.now.workers }
    ensures budget { result.budget ≡ job.now.budget }
    ensures show { result.show ≡ show_of (request_of job.now) job.now.quiet }
{
    Terms {
        workers: job.workers,
        budget: job.budget,
        show: show(job),
    }
}

// Begins the script of a replay. A script that can't be begun is reported to the fetch that needs it.
fn begin_script<F: Files>(job: &Job, files: &mut F)
    requires { (F.shows files.old Part.Script).stage ≡ Fresh }
    ensures begun { IsTrue (has_script (request_of job.now))
        → (F.shows files.new Part.Script).stage ≢ Fresh }
    ensures unread { (F.shows files.new Part.Script).stage ≢ Over }
    ensures left { (F.shows files.new Part.Script).left ≡ (F.shows files.old Part.Script).left }
    ensures faults { (F.shows files.old Part.Script).faults
        ≤ (F.shows files.new Part.Script).faults }
    ensures cause { (F.shows files.new Part.Script).stage ≡ Broken
        → (F.shows files.old Part.Script).faults < (F.shows files.new Part.Script).faults }
    ensures script { BeginsScript F.shows (request_of job.now) files.old files.new }
{
    match &job.command {
        Command::Replay { script, .. } => {
            let _ = files.begin(Part::Script, script.as_str());
        }
        Command::Run { .. } | Command::Churn { .. } => {}
    }
}

/// A job, and what it runs.
#[derive(Drop)]
pub struct JobSetup<'a> {
    pub job: &'a Job,
    pub setup: Setup,
}

/// Begins the script of a job, if it has one, and runs its setup.
pub fn run_job<R: Threads + Sync, F: Files, O: Sinks, L: Ledger>(
    host: &Host<'_, R>,
    on: JobSetup<'_>,
    files: &mut F,
    out: &mut O,
    crew: &mut Vec<Box<dyn Actor + Send>>,
    steps: &mut Steps<L>,
) -> Status
    requires setup { IsSetupOfJob on.job.now (length crew.old.items) on.setup }
    requires fresh { (F.shows files.old Part.Script).stage ≡ Fresh }
    requires blank { All (λ b. mind b ≡ None) crew.old.items }
    requires sound { O.faults out.old ≡ 0 }
    ensures output { (s : Source) → ScriptGives (request_of on.entry.job.now)
        (F.shows files.old) (F.shows files.new) s → ComesTo (λ given. or_refused
        (job_view on.entry.job.now) (length crew.old.items) given (Ok (setting_in on.entry.setup)))
        s result (O.contents out.old) (O.contents out.new) (length crew.old.items)
        (length crew.new.items) steps.old steps.new (F.shows files.old) (F.shows files.new) }
    ensures crew { TakesFirst (Ok (setting_in on.entry.setup)) result crew.old.items
        crew.new.items }
    ensures unrefused { is_refusal result ≡ false }
    ensures cause { IsCallCause result (O.faults out.old) (O.faults out.new)
        (Broke Part.Script (F.shows files.old) (F.shows files.new)) }
    ensures script { BeginsScript F.shows (request_of on.entry.job.now) files.old files.new }
{
    let JobSetup { job, mut setup } = on;
    begin_script(job, files);
    let terms = terms_for(job);
    let ended = run(
        host.rt,
        host.alloc,
        &mut setup,
        files,
        crew,
        terms.workers,
        terms.budget,
        terms.show,
        out,
        steps,
    );
    status(ended)
}
