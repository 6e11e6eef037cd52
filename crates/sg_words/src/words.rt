//! The job that the words of a command line ask for.
ghost use Rattle.std.specs.Prelude.{◌≡◌, IfOk, map, string_bytes};
ghost use Rattle.clap.specs.Words.{FailsBy, fault_of, kind_of, subcommand_of, subcommand_rows_of};
ghost use Rattle.sg_words.specs.CommandLine.{asked_of, program_app, refusals};
ghost use Rattle.sg_words.specs.Views.{Answers, IsFaultOf};

use crate::definition::program;
use crate::fault::WordsFault;
use crate::job::Job;
use crate::reading::{asked_in, job_of};
use clap::error::ErrorKind;
use clap::{ArgMatches, Error};
use sg_base::{Memory, Text};
use std::alloc::Global;

// Returns the values of the words, if the definition accepts them.
fn parsed<'a>(alloc: Global, words: &'a [String]) -> Result<ArgMatches<'a>, Error>
    ensures kinds { FailsBy (fault_of program_app (map string_bytes words.entry.now)) result }
    ensures matches { IfOk result (λ m. subcommand_rows_of m
        ≡ subcommand_of program_app (map string_bytes words.entry.now)) }
{
    program(alloc)?.try_get_matches_from(words)
}

// Makes the fault of a failed parse.
fn fault_from(alloc: Global, error: Error) -> Result<WordsFault, Memory>
    ensures { IfOk result (IsFaultOf (kind_of error)) }
{
    let kind = error.kind();
    if kind == ErrorKind::OutOfMemory {
        return Ok(WordsFault::Memory);
    }
    let text = Text::new(alloc, error.to_string(alloc)?.as_str())?;
    if kind == ErrorKind::DisplayHelp || kind == ErrorKind::DisplayVersion {
        Ok(WordsFault::Help(text))
    } else {
        Ok(WordsFault::Bad(kind, text))
    }
}

/// Reads the job that the words ask for, the first of which is the program's name.
///
/// # Errors
///
/// `Help` if help or the version is asked for, `Bad` if the command line is invalid, each with the text for the user;
/// and `Memory`.
pub fn read_words(alloc: Global, words: &[String]) -> Result<Job, WordsFault>
    ensures { Answers (refusals (map string_bytes words.now))
        (asked_of (map string_bytes words.now)) result }
{
    let matches = match parsed(alloc, words) {
        Ok(matches) => matches,
        Err(error) => return Err(fault_from(alloc, error)?),
    };
    match asked_in(&matches) {
        Some(asked) => Ok(job_of(alloc, asked)?),
        None => unreachable!(),
    }
}
