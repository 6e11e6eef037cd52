//! The exit status of the whole program.
ghost use Rattle.std.specs.Prelude.{◌≡◌, map, OnErr, OnOk, string_bytes};
ghost use Rattle.std.specs.Process.{exit_status};
ghost use Rattle.sg_base.specs.Status.{status_code};
ghost use Rattle.simgrid_replay.specs.Exit.{DoesCall, Exits};
ghost use Rattle.simgrid_replay.specs.kept.Reading.{IsStart};

use crate::host::Host;
use crate::whole_call::simgrid;
use sg_actor::Actor;
use sg_base::{Status, Steps};
use sg_edge::{Failed, Files, Sinks};
use std::process::ExitCode;
use std::sync::ledger::Ledger;
use std::thread::Threads;

/// Returns the exit code of a status.
pub fn exit_code(status: Status) -> ExitCode
    ensures { exit_status result ≡ status_code status }
{
    ExitCode::from(status.code())
}

/// Returns the exit code at the end of the program: this one, or that of a failed write if the waiting output couldn't
/// be written.
pub fn last_code(told: ExitCode, finished: Result<(), Failed>) -> ExitCode
    ensures written { OnOk finished (exit_status result ≡ exit_status told) }
    ensures failed { OnErr finished (exit_status result ≡ status_code Status.WriteFault) }
{
    match finished {
        Ok(()) => told,
        Err(Failed) => exit_code(Status::WriteFault),
    }
}

/// Does what the words ask for, as `simgrid` does, and returns the exit status: that of a status for which all clauses
/// of `simgrid` hold.
pub fn exit_of<R: Threads + Sync, F: Files, O: Sinks, L: Ledger>(
    host: &Host<'_, R>,
    words: &[String],
    files: &mut F,
    out: &mut O,
    crew: &mut Vec<Box<dyn Actor + Send>>,
    steps: &mut Steps<L>,
) -> ExitCode
    requires { IsStart (F.shows files.old) (λ b. mind b) crew.old.items (O.faults out.old) }
    ensures { Exits (exit_status result) (DoesCall F.shows (map string_bytes words.now)
        files.old files.new (O.contents out.old) (O.contents out.new)
        (O.faults out.old) (O.faults out.new) crew.old.items crew.new.items
        steps.old steps.new) }
{
    exit_code(simgrid(host.rt, host.alloc, words, files, out, crew, steps))
}
