//! SimGrid's S4U simulation kernel and trace replay, in whole numbers, as a program.
//! One enters by `simgrid`, the whole call, over any files and streams: it reads the command line, reads or makes the
//! input of the job, and runs it. `main` calls it over the real ones.
//! It stands on `sg_words` for the job, `sg_platform`, `sg_zones` and `sg_platform_churn` for its input, `sg_engine` for the
//! run; and for its tests on `sg_job_cases`.
#![tactic(auto)]

mod churn_setup;
mod exit;
mod fitting;
mod host;
mod job_run;
mod laws;
mod loading;
mod real_files;
mod real_sinks;
mod refusal;
mod reports;
mod routed_platform;
mod setups;
#[cfg(test)]
mod tests;
#[cfg(test)]
mod unscripted;
mod whole_call;

ghost use Rattle.std.specs.Prelude.{◌≡◌, length, map, All, None, IfOk, IfErr, string_bytes};
ghost use Rattle.std.specs.Process.{exit_status};
ghost use Rattle.std.specs.Vec.Iter.{into_iter_items};
ghost use Rattle.sg_base.specs.Ledgers.{IsBlankOf};
ghost use Rattle.sg_base.specs.Status.{status_code};
ghost use Rattle.sg_edge.specs.Sinks.{one_if};
ghost use Rattle.simgrid_replay.specs.Exit.{Exits, FitsWords, words_in};

use exit::{exit_code, exit_of, last_code};
use host::Host;
use real_files::RealFiles;
use real_sinks::RealSinks;
use sg_actor::{Actor, PlainContext, TapeContext, all_blank};
use sg_base::{Memory, Status, Steps};
use std::alloc::{AllocError, Global};
use std::env::{self, Args};
use std::io::{self, ErrorKind};
use std::marker::Brand;
use std::process::ExitCode;
use std::sync::ledger::{Blank, Ledger};
use std::thread::Threads;

/// How many contexts of each kind there are.
const PAIRS: u32 = 2048;

fn collected(alloc: Global, args: Args) -> Result<Vec<String>, AllocError>
    ensures { IfOk result (λ words. words.items ≡ into_iter_items args) }
{
    args.collect(alloc)
}

// Returns all words of the command line in their order. If one isn't text, they are refused as a whole, like no words
// at all.
fn words_of(alloc: Global, args: io::Result<Args>) -> Result<Vec<String>, Memory>
    ensures { IfOk result (λ words. words.items ≡ words_in args) }
{
    match args {
        Ok(args) => match collected(alloc, args) {
            Ok(words) => Ok(words),
            Err(AllocError) => Err(Memory),
        },
        Err(error) => {
            if error.kind() == ErrorKind::OutOfMemory {
                Err(Memory)
            } else {
                Ok(Vec::new(alloc))
            }
        }
    }
}

// Returns whether each line is written as it comes: whoever feeds the script over standard input may wait for it.
fn is_live(words: &[String]) -> bool {
    words.iter().any(|word| word.as_str() == "-")
}

// Runs the program over the real files and streams, with a counter of its own.
fn start<R: Threads + Sync, L: Ledger>(
    rt: &R,
    host: HostRuntime,
    words: &[String],
    mut out: RealSinks,
    crew: &mut Vec<Box<dyn Actor + Send>>,
    blank: Blank,
) -> ExitCode
    requires sound { one_if out.broken ≡ 0 }
    requires contexts { length crew.old.items ≡ 4096 }
    requires blank { All (λ b. mind b ≡ None) crew.old.items }
    requires ledger { IsBlankOf L.name L.parts blank }
    ensures { Exits (exit_status result) (FitsWords (map string_bytes words.now) 4096) }
{
    let mut files = RealFiles::new(host);
    let mut steps = Steps::<L>::new(blank);
    let alloc = host.alloc();
    let told = exit_of(
        &Host { rt, alloc },
        words,
        &mut files,
        &mut out,
        crew,
        &mut steps,
    );
    last_code(told, out.finish())
}

// Runs the program with these words of its command line, and contexts of both kinds in turn.
fn program<R: Threads + Sync>(
    rt: &R,
    host: HostRuntime,
    words: &[String],
) -> Result<ExitCode, Memory>
    ensures { IfOk result
        (λ code. Exits (exit_status code) (FitsWords (map string_bytes words.now) 4096)) }
{
    let alloc = host.alloc();
    let out = RealSinks::new(host, is_live(words))?;
    let mut crew: Vec<Box<dyn Actor + Send>> = Vec::new(alloc);
    for _pair in 0..PAIRS {
        crew.push(Box::new(alloc, PlainContext::new(alloc))?)?;
        crew.push(Box::new(alloc, TapeContext::new(alloc))?)?;
    }
    // They are blank: no contract of a loop can say it of boxes.
    if !all_blank(crew.as_slice()) {
        return Err(Memory);
    }
    Ok(start::<R, Brand>(rt, host, words, out, &mut crew, Blank::new(1)))
}

// Returns the exit code at the end, even if memory ran out before there was a call.
fn told(ended: Result<ExitCode, Memory>) -> ExitCode
    ensures ended { IfOk ended (λ code. exit_status result ≡ exit_status code) }
    ensures memory { IfErr ended (λ _. exit_status result ≡ status_code Status.Memory) }
{
    match ended {
        Ok(code) => code,
        Err(Memory) => exit_code(Status::Memory),
    }
}

// Runs the whole program with what the system gave as its words: `main` can have no contract.
fn whole<R: Threads + Sync>(rt: &R, host: HostRuntime, args: io::Result<Args>) -> ExitCode
    ensures { Exits (exit_status result) (FitsWords (map string_bytes (words_in args)) 4096) }
{
    match words_of(host.alloc(), args) {
        Ok(words) => told(program(rt, host, words.as_slice())),
        Err(Memory) => exit_code(Status::Memory),
    }
}

fn main(rt: HostRuntime) -> ExitCode {
    whole(&rt, rt, env::args(&rt))
}
