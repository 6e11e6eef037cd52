//! The whole program as one call.
ghost use Rattle.std.specs.Prelude.{◌≡◌, ◌≢◌, [], length, map, All, None, IsTrue, string_bytes};
ghost use Rattle.sg_edge.specs.declared.files.Part.{Part};
ghost use Rattle.sg_edge.specs.declared.files.Stage.TheVariants.{Fresh};
ghost use Rattle.sg_edge.specs.Files.{SomeBroke};
ghost use Rattle.sg_edge.specs.Sources.{Source};
ghost use Rattle.sg_words.specs.CommandLine.{Asked, refusals};
ghost use Rattle.sg_words.specs.Views.{job_view};
ghost use Rattle.sg_edge.specs.Cause.{HasCause};
ghost use Rattle.simgrid_replay.specs.PartSources.{request_of, AskFor, ForJob, PartsGive, TextsGive};
ghost use Rattle.simgrid_replay.specs.PartOrder.{IsTextBroken, SparesRest, TakesParts};
ghost use Rattle.simgrid_replay.specs.kept.Reading.{ComesTo, IsCallCause, IsStart, SeatsJob};
ghost use Rattle.simgrid_replay.specs.Contexts.{TakesFirst, TakesFront};
ghost use Rattle.simgrid_replay.specs.Outcome.{is_refusal, outcome, Prints};
ghost use Rattle.simgrid_replay.specs.Settings.{setting};
ghost use Rattle.simgrid_replay.specs.WholeCall.{RefusesWords, TakesForJob};

use crate::host::Host;
use crate::job_run::{JobSetup, run_job};
use crate::laws::outcomes_are_whole;
use crate::reports::{refuse, report_words};
use crate::setups::prepare;
use sg_actor::Actor;
use sg_base::{Status, Steps};
use sg_edge::{Files, Part, Sinks};
use sg_words::{Job, accepted_words_have_a_job, read_words};
use std::alloc::Global;
use std::sync::ledger::Ledger;
use std::thread::Threads;

// Does a job.
fn do_job<R: Threads + Sync, F: Files, O: Sinks, L: Ledger>(
    host: &Host<'_, R>,
    job: &Job,
    files: &mut F,
    out: &mut O,
    crew: &mut Vec<Box<dyn Actor + Send>>,
    steps: &mut Steps<L>,
) -> Status
    requires { IsStart (F.shows files.old) (λ b. mind b) crew.old.items (O.faults out.old) }
    ensures output { (p d s : Source)
        → PartsGive (request_of job.now) (F.shows files.old) (F.shows files.new) p d s
        → ComesTo (outcome (job_view job.now) (length crew.old.items) p d) s result
        (O.contents out.old) (O.contents out.new) (length crew.old.items) (length crew.new.items)
        steps.old steps.new (F.shows files.old) (F.shows files.new) }
    ensures crew { SeatsJob (job_view job.now) result (F.shows files.old) (F.shows files.new)
        crew.old.items crew.new.items }
    ensures parts { TakesParts F.shows (request_of job.now) (length crew.old.items)
        files.old files.new }
    ensures rest { SparesRest result (F.shows files.old) (F.shows files.new) }
    ensures words { result ≢ Status.Words }
    ensures cause { IsCallCause result (O.faults out.old) (O.faults out.new)
        (SomeBroke (F.shows files.old) (F.shows files.new)) }
{
    match prepare(host.alloc, files, job, crew.len()) {
        Ok(setup) => run_job(host, JobSetup { job, setup }, files, out, crew, steps),
        Err(why) => refuse(host.alloc, why, out),
    }
}

/// Does what the words ask for: the whole program.
///
/// `words` are the words of the command line, the program's name first. The platform, the deployment and the script are
/// taken from `files` in this order, as far as the command has them, each only once the one before it was accepted; the
/// script is read during the run, and less than a piece of 4,096 bytes further than its fetches need, with no read once
/// they have their answers, whatever comes next. Each actor that begins takes the next context of `crew`, the context
/// pool, and they take their turns on as many threads as the words say. Lines are written to `out`, and `steps` counts
/// the solver's visits, which are no more than the work of the run.
pub fn simgrid<R: Threads + Sync, F: Files, O: Sinks, L: Ledger>(
    rt: &R,
    alloc: Global,
    words: &[String],
    files: &mut F,
    out: &mut O,
    crew: &mut Vec<Box<dyn Actor + Send>>,
    steps: &mut Steps<L>,
) -> Status
    requires fresh { (part : Part) → (F.shows files.old part).stage ≡ Fresh }
    requires blank { All (λ b. mind b ≡ None) crew.old.items }
    requires sound { O.faults out.old ≡ 0 }

    // Words that are accepted ask for a job.
    ensures job { refusals (map string_bytes words.now) ≡ []
        → (job : Asked) × AskFor (map string_bytes words.now) job }

    // The output and the status are those of the definition for what the input streams gave.
    // A call that was cut off has written a prefix of it.
    ensures output { ForJob (map string_bytes words.now) (F.shows files.old) (F.shows files.new)
        (λ job p d s. Prints (outcome job (length crew.old.items) p d s) result
        (O.contents out.old) (O.contents out.new)) }

    // Visits are at most the work of the run. Of the script less than a piece more is taken than
    // its fetches need, and nothing is read once what was taken answers them all. Of the context
    // pool as many contexts are taken as the definition takes.
    ensures takes { ForJob (map string_bytes words.now) (F.shows files.old) (F.shows files.new)
        (λ job p d s. TakesForJob (outcome job (length crew.old.items) p d) s result
        steps.old steps.new (F.shows files.old) (F.shows files.new)
        crew.old.items crew.new.items) }

    // Each input stream was begun under its name of the words: none after one that is refused or
    // can't be read, and none that the job doesn't have.
    ensures parts { (job : Asked) → AskFor (map string_bytes words.now) job
        → TakesParts F.shows job.request (length crew.old.items) files.old files.new }

    // The actors of a run have taken the first contexts: each that begins with the run has one.
    // If there was no run, no actor has one.
    ensures crew { (job : Asked) → AskFor (map string_bytes words.now) job
        → (p d : Source) → TextsGive job.request (F.shows files.old) (F.shows files.new) p d
        → TakesFirst (setting job.request (length crew.old.items) p d) result
        crew.old.items crew.new.items }

    // For words that ask for no job the reason is printed, and nothing else is done.
    ensures refused { refusals (map string_bytes words.now) ≢ []
        → RefusesWords (refusals (map string_bytes words.now)) result
        (O.contents out.old) (O.contents out.new) files.old files.new
        crew.old.items crew.new.items steps.old steps.new }

    // The status of an invalid command line is given to no other. This and what follows holds even
    // if the contents of the input streams aren't known.
    ensures words { result ≡ Status.Words → refusals (map string_bytes words.now) ≢ [] }

    // If the status is that of a refused platform or deployment, nothing was done after it.
    ensures rest { SparesRest result (F.shows files.old) (F.shows files.new) }

    // If the status is that of a refusal, no actor has taken a context.
    ensures unseated { IsTrue (is_refusal result) → crew.new.items ≡ crew.old.items }

    // Nor has any actor if the platform or the deployment couldn't be begun or read.
    ensures broken_text { IsTextBroken (F.shows files.new) → crew.new.items ≡ crew.old.items }

    // Of the context pool the first contexts were taken, if any.
    ensures front { TakesFront crew.old.items crew.new.items }

    // The causes of a failed write and of a failed read.
    ensures cause { HasCause (result ≡ Status.WriteFault) (result ≡ Status.ReadFault)
        (O.faults out.old) (O.faults out.new) (SomeBroke (F.shows files.old) (F.shows files.new)) }
{
    accepted_words_have_a_job();
    outcomes_are_whole();
    match read_words(alloc, words) {
        Ok(job) => do_job(&Host { rt, alloc }, &job, files, out, crew, steps),
        Err(fault) => report_words(fault, out),
    }
}
