//! The job, read off the values that were found for the arguments.
ghost use Rattle.std.specs.Prelude.{◌≡◌, ◌≤◌, ◌&&◌, Some, None, codes, option_and_then, option_map, IfOk, IfSome, nat_le, if◌then◌else◌};
ghost use Rattle.clap.specs.Words.{first_of, subcommand_rows_of};
ghost use Rattle.sg_words.specs.CommandLine.{with_value, number_at, parts_at, replay, run, churn, seed_rule, actors_rule, steps_rule, request_at, is_quiet, asked_at};
ghost use Rattle.sg_words.specs.Ranges.{IsInRange};
ghost use Rattle.sg_words.specs.Views.{request_view, asked_view, command_view, job_view};
ghost use Rattle.sg_words.specs.kept.Ranged.{number_in, number_between, rows_in};

use crate::job::{Asked, ChurnNumbers, Command, Job, Request};
use clap::ArgMatches;
use sg_base::{Memory, Text};
use std::alloc::Global;

fn within(n: u64, least: u64, most: u64) -> Option<u64>
    ensures value { result ≡ if nat_le least n && nat_le n most then Some n else None }
    ensures within { IfSome result (λ n. (least ≤ n) × (n ≤ most)) }
{
    if least <= n && n <= most {
        Some(n)
    } else {
        None
    }
}

fn number_of(text: &str, least: u64, most: u64) -> Option<u64>
    ensures value { result ≡ number_in least most text.now }
    ensures within { IfSome result (λ n. (least ≤ n) × (n ≤ most)) }
{
    match text.parse::<u64>() {
        Ok(n) => within(n, least, most),
        Err(_) => None,
    }
}

fn text_at<'a>(matches: &ArgMatches<'a>, id: &str) -> Option<&'a str>
    ensures { option_map (λ s. s.now) result ≡ first_of id.now (rows_in matches.now) }
{
    matches.get_str(id)
}

fn number_at(matches: &ArgMatches<'_>, id: &str, least: u64, most: u64) -> Option<u64>
    ensures value { result ≡ number_between least most id.now (rows_in matches.now) }
    ensures within { IfSome result (λ n. (least ≤ n) × (n ≤ most)) }
{
    number_of(text_at(matches, id)?, least, most)
}

fn replay_at<'a>(matches: &ArgMatches<'a>) -> Option<Request<'a>>
    ensures { option_map request_view result
        ≡ with_value (parts_at (λ p d s. replay p d s) (rows_in matches.now))
        (first_of (codes "script") (rows_in matches.now)) }
{
    let platform = text_at(matches, "platform")?;
    let deployment = text_at(matches, "deployment")?;
    let script = text_at(matches, "script")?;
    Some(Request::Replay(platform, deployment, script))
}

fn run_at<'a>(matches: &ArgMatches<'a>) -> Option<Request<'a>>
    ensures { option_map request_view result ≡ parts_at run (rows_in matches.now) }
{
    let platform = text_at(matches, "platform")?;
    let deployment = text_at(matches, "deployment")?;
    Some(Request::Run(platform, deployment))
}

fn churn_at<'a>(matches: &ArgMatches<'a>) -> Option<Request<'a>>
    ensures { option_map request_view result ≡ with_value (with_value (option_map
        (λ s a n. churn s a n) (number_at seed_rule (rows_in matches.now)))
        (number_at actors_rule (rows_in matches.now)))
        (number_at steps_rule (rows_in matches.now)) }
{
    let seed = number_at(matches, "seed", 0, 9_223_372_036_854_775_807)?;
    let actors = number_at(matches, "actors", 2, 4096)? as u32;
    let steps = number_at(matches, "steps", 0, 1_000_000)? as u32;
    Some(Request::Churn(ChurnNumbers {
        seed,
        actors,
        steps,
    }))
}

fn request_at<'a>(name: &str, matches: &ArgMatches<'a>) -> Option<Request<'a>>
    ensures { option_map request_view result ≡ request_at name.now (rows_in matches.now) }
{
    if name == "replay" {
        replay_at(matches)
    } else if name == "run" {
        run_at(matches)
    } else if name == "churn" {
        churn_at(matches)
    } else {
        None
    }
}

fn is_quiet(matches: &ArgMatches<'_>) -> bool
    ensures { result ≡ is_quiet (rows_in matches.now) }
{
    match text_at(matches, "quiet") {
        Some(text) => text == "true",
        None => false,
    }
}

fn asked_at<'a>(name: &str, matches: &ArgMatches<'a>) -> Option<Asked<'a>>
    ensures { option_map asked_view result ≡ asked_at (name.now, rows_in matches.now) }
{
    let request = request_at(name, matches)?;
    let workers = number_at(matches, "nthreads", 1, 64)? as u32;
    let budget = number_at(matches, "budget", 1, 1_000_000_000)?;
    let quiet = is_quiet(matches);
    Some(Asked {
        request,
        workers,
        budget,
        quiet,
    })
}

/// Returns what the command that was given is asked to do.
pub(crate) fn asked_in<'a>(matches: &ArgMatches<'a>) -> Option<Asked<'a>>
    ensures { option_map asked_view result
        ≡ option_and_then asked_at (subcommand_rows_of matches.now) }
{
    let (name, rows) = matches.subcommand()?;
    asked_at(name, rows)
}

fn command_of(alloc: Global, request: Request<'_>) -> Result<Command, Memory>
    ensures shown { IfOk result (λ c. command_view c ≡ request_view request.entry) }
    ensures in_range { IfOk result IsInRange }
{
    match request {
        Request::Replay(platform, deployment, script) => Ok(Command::Replay {
            platform: Text::new(alloc, platform)?,
            deployment: Text::new(alloc, deployment)?,
            script: Text::new(alloc, script)?,
        }),
        Request::Run(platform, deployment) => Ok(Command::Run {
            platform: Text::new(alloc, platform)?,
            deployment: Text::new(alloc, deployment)?,
        }),
        Request::Churn(numbers) => Ok(Command::Churn {
            seed: numbers.seed,
            actors: numbers.actors,
            steps: numbers.steps,
        }),
    }
}

pub(crate) fn job_of(alloc: Global, asked: Asked<'_>) -> Result<Job, Memory>
    ensures { IfOk result (λ job. job_view job ≡ asked_view asked.entry) }
{
    Ok(Job {
        command: command_of(alloc, asked.request)?,
        workers: asked.workers,
        budget: asked.budget,
        quiet: asked.quiet,
    })
}
