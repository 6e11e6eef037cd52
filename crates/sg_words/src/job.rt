//! The job that a command line asks for.
ghost use Rattle.std.specs.Prelude.{◌≤◌};
ghost use Rattle.sg_words.specs.Ranges.{AreChurnNumbers, IsInRange, IsInRange-prop};

use sg_base::Text;

/// What the program is to do, with the names of the parts if it has any.
#[derive(Drop)]
pub enum Command {
    /// To replay a script.
    Replay {
        platform: Text,
        deployment: Text,
        script: Text,
    },
    /// To run actors that need no script.
    Run {
        platform: Text,
        deployment: Text,
    },
    /// To run a load that is made from these numbers.
    Churn {
        seed: u64,
        actors: u32,
        steps: u32,
    },
}

/// A command line that was accepted: the command, how many worker threads there are, after how many events the run
/// is stopped, and whether the actions are left out of what is printed.
#[derive(Drop)]
pub struct Job {
    pub command: Command,
    pub workers: u32,
    pub budget: u64,
    pub quiet: bool,
    ghost command_in_range: { IsInRange command } by { IsInRange-prop command },
    ghost workers_in_range: { (1 ≤ workers) × (workers ≤ 64) },
    ghost budget_in_range: { (1 ≤ budget) × (budget ≤ 1000000000) },
}

/// The numbers of a churn.
#[derive(Clone, Copy)]
pub(crate) struct ChurnNumbers {
    pub(crate) seed: u64,
    pub(crate) actors: u32,
    pub(crate) steps: u32,
    ghost in_range: { AreChurnNumbers seed actors steps },
}

/// The command, in texts of the words.
#[derive(Clone, Copy)]
pub(crate) enum Request<'a> {
    Replay(&'a str, &'a str, &'a str),
    Run(&'a str, &'a str),
    Churn(ChurnNumbers),
}

/// The job, in texts of the words.
#[derive(Clone, Copy)]
pub(crate) struct Asked<'a> {
    pub(crate) request: Request<'a>,
    pub(crate) workers: u32,
    pub(crate) budget: u64,
    pub(crate) quiet: bool,
    ghost workers_in_range: { (1 ≤ workers) × (workers ≤ 64) },
    ghost budget_in_range: { (1 ≤ budget) × (budget ≤ 1000000000) },
}
