//! The definition of the command line, in the words of `clap`.
ghost use Rattle.std.specs.Prelude.{◌≡◌, IfOk, None, Some, codes, false, true};
ghost use Rattle.clap.specs.Words.{app_of, new_app, new_rule, rule_of, with_rule, with_subcommand};
ghost use Rattle.clap.specs.declared.builder.action.ArgAction.TheVariants.{SetTrue};
ghost use Rattle.sg_words.specs.kept.Building.{IsArg, IsLocal, Builds};
ghost use Rattle.sg_words.specs.CommandLine.{argument_rule, seed_rule, actors_rule, steps_rule, workers_rule, budget_rule, with_common_options, with_options, with_parts, replay_app, run_app, churn_app, program_app};

use crate::help;
use clap::builder::ValueParser;
use clap::{Arg, ArgAction, Command, value_parser};
use std::alloc::{AllocError, Global};

fn name_arg<'a>(alloc: Global, id: &'a str, shown: &'a str, help: &'a str) -> Arg<'a>
    ensures { IsArg (argument_rule id.entry.now None) result }
{
    Arg::new(alloc, id)
        .required(true)
        .value_name(shown)
        .help(help)
}

// Returns a number that must be given.
fn number_arg<'a>(
    alloc: Global,
    id: &'a str,
    shown: &'a str,
    parser: ValueParser<'a>,
    help: &'a str,
) -> Arg<'a>
    ensures { IsArg (argument_rule id.entry.now (Some parser.entry)) result }
{
    name_arg(alloc, id, shown, help).value_parser(parser)
}

fn seed_arg<'a>(alloc: Global) -> Arg<'a>
    ensures { IsArg seed_rule result }
{
    let parser = value_parser!(u64).range(0..=9223372036854775807);
    number_arg(alloc, "seed", "SEED", parser, help::SEED)
}

fn actors_arg<'a>(alloc: Global) -> Arg<'a>
    ensures { IsArg actors_rule result }
{
    let parser = value_parser!(u64).range(2..=4096);
    number_arg(alloc, "actors", "ACTORS", parser, help::ACTORS)
}

fn steps_arg<'a>(alloc: Global) -> Arg<'a>
    ensures { IsArg steps_rule result }
{
    let parser = value_parser!(u64).range(0..=1000000);
    number_arg(alloc, "steps", "STEPS", parser, help::STEPS)
}

fn workers_arg<'a>(alloc: Global) -> Arg<'a>
    ensures { IsArg workers_rule result }
{
    Arg::new(alloc, "nthreads")
        .long("nthreads")
        .value_name("N")
        .value_parser(value_parser!(u64).range(1..=64))
        .default_value("1")
        .help(help::WORKERS)
}

fn budget_arg<'a>(alloc: Global) -> Arg<'a>
    ensures { IsArg budget_rule result }
{
    Arg::new(alloc, "budget")
        .long("budget")
        .value_name("N")
        .value_parser(value_parser!(u64).range(1..=1000000000))
        .default_value("1000000")
        .help(help::BUDGET)
}

fn quiet_arg<'a>(alloc: Global) -> Arg<'a>
    ensures { IsArg (record (new_rule (codes "quiet"))
        { long = Some (codes "quiet"); action = Some SetTrue }) result }
{
    Arg::new(alloc, "quiet")
        .long("quiet")
        .action(ArgAction::SetTrue)
        .help(help::QUIET)
}

// Returns the command with one more argument.
fn with_arg<'a>(command: Command<'a>, arg: Arg<'a>) -> Result<Command<'a>, AllocError>
    requires arg { arg.global ≡ false }
    requires command { IsLocal command }
    ensures { Builds (with_rule (app_of command.entry) (rule_of arg.entry)) result }
{
    command.arg(arg)
}

// Returns the command with the names of the platform and of the deployment.
fn with_parts<'a>(alloc: Global, command: Command<'a>) -> Result<Command<'a>, AllocError>
    requires { IsLocal command }
    ensures { Builds (with_parts (app_of command.entry)) result }
{
    let command = with_arg(
        command,
        name_arg(alloc, "platform", "PLATFORM", help::PLATFORM),
    )?;
    with_arg(
        command,
        name_arg(alloc, "deployment", "DEPLOYMENT", help::DEPLOYMENT),
    )
}

// Returns the command with the options that each command has.
fn with_common_options<'a>(alloc: Global, command: Command<'a>) -> Result<Command<'a>, AllocError>
    requires { IsLocal command }
    ensures { Builds (with_common_options (app_of command.entry)) result }
{
    let command = with_arg(command, workers_arg(alloc))?;
    with_arg(command, budget_arg(alloc))
}

// Returns the command with the options of one that prints a line for each action.
fn with_options<'a>(alloc: Global, command: Command<'a>) -> Result<Command<'a>, AllocError>
    requires { IsLocal command }
    ensures { Builds (with_options (app_of command.entry)) result }
{
    let command = with_common_options(alloc, command)?;
    with_arg(command, quiet_arg(alloc))
}

fn replay<'a>(alloc: Global) -> Result<Command<'a>, AllocError>
    ensures { Builds replay_app result }
{
    let command = Command::new(alloc, "replay")
        .about(help::REPLAY)
        .after_help(help::STATUSES);
    let command = with_parts(alloc, command)?;
    let command = with_arg(command, name_arg(alloc, "script", "SCRIPT", help::SCRIPT))?;
    with_options(alloc, command)
}

fn run<'a>(alloc: Global) -> Result<Command<'a>, AllocError>
    ensures { Builds run_app result }
{
    let command = Command::new(alloc, "run")
        .about(help::RUN)
        .after_help(help::STATUSES);
    let command = with_parts(alloc, command)?;
    with_options(alloc, command)
}

fn churn<'a>(alloc: Global) -> Result<Command<'a>, AllocError>
    ensures { Builds churn_app result }
{
    let command = Command::new(alloc, "churn")
        .about(help::CHURN)
        .after_help(help::STATUSES);
    let command = with_arg(command, seed_arg(alloc))?;
    let command = with_arg(command, actors_arg(alloc))?;
    let command = with_arg(command, steps_arg(alloc))?;
    with_common_options(alloc, command)
}

fn bare<'a>(alloc: Global) -> Result<Command<'a>, AllocError>
    ensures { IfOk result (λ c. app_of c ≡ record (new_app (codes "simgrid_replay")) {
      top = record (new_app (codes "simgrid_replay")).top
          { subcommand_required = true; has_version = true };
    }) }
{
    // (whatever the program's file is called)
    let command = Command::new(alloc, "simgrid_replay")
        .bin_name("simgrid_replay")?
        .version(help::VERSION)
        .about(help::PROGRAM)
        .after_help(help::STATUSES)
        .subcommand_required(true);
    Ok(command)
}

// Returns the command with one more subcommand.
fn with_command<'a>(command: Command<'a>, sub: Command<'a>) -> Result<Command<'a>, AllocError>
    requires { IsLocal sub }
    ensures { IfOk result (λ c. app_of c
        ≡ with_subcommand (app_of command.entry) (app_of sub.entry).top) }
{
    command.subcommand(sub)
}

/// Returns the command line.
pub fn program<'a>(alloc: Global) -> Result<Command<'a>, AllocError>
    ensures { IfOk result (λ c. app_of c ≡ program_app) }
{
    let program = with_command(bare(alloc)?, replay(alloc)?)?;
    let program = with_command(program, run(alloc)?)?;
    with_command(program, churn(alloc)?)
}
