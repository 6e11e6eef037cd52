//! The text of a call that makes no run, and the status of a run.
ghost use Rattle.std.specs.Prelude.{◌≡◌, ◌≢◌, ◌⊎◌, ℕ, List, [], Option, Err, IfOk, IsTrue, false, string_bytes};
ghost use Rattle.sg_words.specs.CommandLine.{Asked};
ghost use Rattle.sg_words.specs.Views.{Answers, Kinds};
ghost use Rattle.simgrid_replay.specs.kept.Reading.{IsCallCause, IsOfPlatform, IsReadFault};
ghost use Rattle.simgrid_replay.specs.Outcome.{one_text, refusal_outcome, status_of, cuts_output_short, is_refusal, Prints};
ghost use Rattle.simgrid_replay.specs.Outcome.{ReportsWords};

use crate::refusal::{
    Refusal, contexts_line, deployment_line, platform_line, replay_line, zone_line,
};
use sg_base::{Memory, Status};
use sg_edge::{Failed, Sinks, Stream, write_all};
use sg_engine::Ended;
use sg_words::WordsFault;
use std::alloc::Global;

// Writes a text, with which a call of this status ends.
fn say<O: Sinks>(to: Stream, text: &str, status: Status, out: &mut O) -> Status
    requires status { cuts_output_short status ≡ false }
    requires sound { O.faults out.old ≡ 0 }
    ensures prints { Prints (one_text to text.now status) result
        (O.contents out.old) (O.contents out.new) }
    ensures cause { IsCallCause result (O.faults out.old) (O.faults out.new)
        (status ≡ Status.ReadFault) }
    ensures status { (result ≡ status) ⊎ IsTrue (cuts_output_short result) }
{
    match write_all(out, to, text.as_bytes()) {
        Ok(()) => status,
        Err(Failed) => Status::WriteFault,
    }
}

// Writes a line on Err that took memory.
fn say_made<O: Sinks>(line: Result<String, Memory>, status: Status, out: &mut O) -> Status
    requires status { cuts_output_short status ≡ false }
    requires sound { O.faults out.old ≡ 0 }
    ensures prints { (want : List ℕ) → IfOk line (λ text. string_bytes text ≡ want)
        → Prints (one_text Stream.Err want status) result
        (O.contents out.old) (O.contents out.new) }
    ensures cause { IsCallCause result (O.faults out.old) (O.faults out.new)
        (status ≡ Status.ReadFault) }
    ensures status { (result ≡ status) ⊎ IsTrue (cuts_output_short result) }
{
    match line {
        Ok(line) => say(Stream::Err, line.as_str(), status, out),
        Err(Memory) => Status::Memory,
    }
}

/// Prints the text for words that ask for no run: help and the version on Out, any other text on Err.
pub fn report_words<O: Sinks>(fault: WordsFault, out: &mut O) -> Status
    requires { O.faults out.old ≡ 0 }
    ensures tells { (kinds : Kinds) (asked : Option Asked) → Answers kinds asked (Err fault)
        → kinds ≢ [] → ReportsWords kinds result (O.contents out.old) (O.contents out.new) }
    ensures silent { (asked : Option Asked) → Answers [] asked (Err fault)
        → (result ≡ Status.Memory)
        × Prints (one_text Stream.Err [] Status.Memory) result
        (O.contents out.old) (O.contents out.new) }
    ensures cause { IsCallCause result (O.faults out.old) (O.faults out.new) ⊥ }
    ensures platform { result ≢ Status.Platform }
    ensures deployment { result ≢ Status.Deployment }
{
    match fault {
        WordsFault::Help(text) => say(Stream::Out, text.as_str(), Status::Completed, out),
        WordsFault::Bad(_, text) => say(Stream::Err, text.as_str(), Status::Words, out),
        WordsFault::Memory => Status::Memory,
    }
}

/// Writes the line of a refusal.
pub fn refuse<O: Sinks>(alloc: Global, refusal: Refusal, out: &mut O) -> Status
    requires { O.faults out.old ≡ 0 }
    ensures prints { Prints (refusal_outcome refusal) result
        (O.contents out.old) (O.contents out.new) }
    ensures memory { refusal ≡ Refusal.Memory → result ≡ Status.Memory }
    ensures words { result ≢ Status.Words }
    ensures platform { result ≡ Status.Platform → IsOfPlatform refusal }
    ensures cause { IsCallCause result (O.faults out.old) (O.faults out.new) (IsReadFault refusal) }
{
    match refusal {
        Refusal::Platform(fault) => say_made(platform_line(alloc, fault), Status::Platform, out),
        Refusal::Zones(fault) => say_made(zone_line(alloc, &fault), Status::Platform, out),
        Refusal::Deployment(fault) => {
            say_made(deployment_line(alloc, fault), Status::Deployment, out)
        }
        Refusal::ReplayUnderRun(row) => say_made(replay_line(alloc, row), Status::Deployment, out),
        Refusal::TooFewContexts(actors, contexts) => {
            say_made(
                contexts_line(alloc, actors, contexts),
                Status::Deployment,
                out,
            )
        }
        Refusal::ReadPlatform => {
            say(
                Stream::Err,
                "cannot read the platform\n",
                Status::ReadFault,
                out,
            )
        }
        Refusal::ReadDeployment => {
            say(
                Stream::Err,
                "cannot read the deployment\n",
                Status::ReadFault,
                out,
            )
        }
        Refusal::Memory => Status::Memory,
    }
}

/// Returns the status of a run that ended so.
pub fn status(ended: Ended) -> Status
    ensures is { result ≡ status_of ended }
    ensures unrefused { is_refusal result ≡ false }
{
    match ended {
        Ended::Completed => Status::Completed,
        Ended::Deadlock => Status::Deadlock,
        Ended::Starved => Status::Starved,
        Ended::Budget => Status::Budget,
        Ended::Script(_, _) => Status::Script,
        Ended::NoRoute { .. } | Ended::TooLong { .. } => Status::Route,
        Ended::ReadFault => Status::ReadFault,
        Ended::WriteFault => Status::WriteFault,
        Ended::Memory => Status::Memory,
    }
}
