//! Why a platform or a deployment isn't there, and the lines that report it.
ghost use Rattle.std.specs.Prelude.{◌≡◌, ◌++◌, IfOk, codes, decimal, option_map, string_bytes};
ghost use Rattle.std.specs.Option.{option_map_or};
ghost use Rattle.sg_toml_tree.specs.Faults.{kind_words};
ghost use Rattle.sg_zones.specs.FaultWords.{zone_words, zone_place};
ghost use Rattle.simgrid_replay.specs.RefusalLines.{refusal_line as refusal_line_spec, text_line};

use sg_base::Memory;
use sg_toml_tree::{Fault, Place};
use sg_zones::ZoneFault;
use std::alloc::Global;

/// Why a platform or a deployment isn't there.
#[derive(Drop)]
pub enum Refusal {
    /// The platform's text breaks this rule, or is no TOML.
    Platform(Option<Fault>),
    /// The platform's zones are no tree, or its rows don't fit it.
    Zones(ZoneFault),
    /// The deployment's text breaks this rule, or is no TOML.
    Deployment(Option<Fault>),
    /// There is no script, and the actor of this row replays. Rows count from 1.
    ReplayUnderRun(u32),
    /// So many actors begin with the run, and there are so many contexts, which are fewer.
    TooFewContexts(usize, usize),
    /// The platform could not be begun or read.
    ReadPlatform,
    /// The deployment could not be begun or read.
    ReadDeployment,
    /// There was no memory for it.
    Memory,
}

fn refusal_line(
    alloc: Global,
    part: &str,
    words: &str,
    place: Option<Place>,
) -> Result<String, Memory>
    ensures { IfOk result (λ line. string_bytes line ≡ refusal_line_spec part.now words.now place) }
{
    let line = match place {
        Some(Place { table, row, key }) => {
            format!(in alloc; "{part}: {words} (table {table}, row {row}, key {key})\n")
        }
        None => format!(in alloc; "{part}: {words}\n"),
    };
    match line {
        Ok(line) => Ok(line),
        Err(_) => Err(Memory),
    }
}

/// Returns what is wrong with a text, in words.
fn fault_words(fault: Option<Fault>) -> &'static str
    ensures { result.now
        ≡ option_map_or (λ rule. kind_words rule.kind) fault (codes "not TOML") }
{
    match fault {
        Some(rule) => rule.kind.words(),
        None => "not TOML",
    }
}

fn place_of(fault: Option<Fault>) -> Option<Place>
    ensures { result ≡ option_map (λ rule. rule.place) fault }
{
    match fault {
        Some(rule) => Some(rule.place),
        None => None,
    }
}

/// Returns the line that reports a platform's fault, with its newline.
pub fn platform_line(alloc: Global, fault: Option<Fault>) -> Result<String, Memory>
    ensures { IfOk result (λ line. string_bytes line ≡ text_line (codes "platform") fault) }
{
    refusal_line(alloc, "platform", fault_words(fault), place_of(fault))
}

/// Returns the line that reports a fault of a platform's zones, with its newline.
pub fn zone_line(alloc: Global, fault: &ZoneFault) -> Result<String, Memory>
    ensures { IfOk result (λ line. string_bytes line ≡ refusal_line_spec (codes "platform")
        (zone_words fault.now) (zone_place fault.now)) }
{
    refusal_line(alloc, "platform", fault.words(), fault.place())
}

/// Returns the line that reports a deployment's fault, with its newline.
pub fn deployment_line(alloc: Global, fault: Option<Fault>) -> Result<String, Memory>
    ensures { IfOk result (λ line. string_bytes line ≡ text_line (codes "deployment") fault) }
{
    refusal_line(alloc, "deployment", fault_words(fault), place_of(fault))
}

/// Returns the line that reports an actor that replays without a script, with its newline.
pub fn replay_line(alloc: Global, row: u32) -> Result<String, Memory>
    ensures { IfOk result (λ line. string_bytes line
        ≡ codes "deployment: replay actor under run (row " ++ (decimal row ++ codes ")\n")) }
{
    match format!(in alloc; "deployment: replay actor under run (row {row})\n") {
        Ok(line) => Ok(line),
        Err(_) => Err(Memory),
    }
}

/// Returns the line that reports that there are too few contexts, with its newline.
pub fn contexts_line(alloc: Global, actors: usize, contexts: usize) -> Result<String, Memory>
    ensures { IfOk result (λ line. string_bytes line ≡ codes "deployment: "
        ++ (decimal actors ++ (codes " actors, " ++ (decimal contexts ++ codes " contexts\n")))) }
{
    match format!(in alloc; "deployment: {actors} actors, {contexts} contexts\n") {
        Ok(line) => Ok(line),
        Err(_) => Err(Memory),
    }
}
