//! Whether a deployment suits a run.
ghost use Rattle.std.specs.Prelude.{◌≡◌, ◌<◌, ◌≤◌, if◌then◌else◌, count_by, length, position, None, IfOk, IfErr, IfSome};
ghost use Rattle.sg_kernel_calls.specs.Setup.{replays};
ghost use Rattle.sg_platform_rows.specs.Deployment.{is_replay as is_replay_spec, starts, started_number};
ghost use Rattle.simgrid_replay.specs.kept.Reading.{IsOfDeployment};
ghost use Rattle.simgrid_replay.specs.Settings.{fitting as fitting_spec};

use crate::refusal::Refusal;
use sg_platform_rows::{ActorRow, Deployment, Function};

fn is_replay(function: &Function) -> bool
    ensures { result ≡ is_replay_spec function.now }
{
    matches!(function, Function::Replay)
}

// Returns the place of the first actor that replays, from 0 on.
fn first_replay(actors: &[ActorRow]) -> Option<usize>
    ensures is { result ≡ position replays actors.now }
    ensures within { IfSome result (λ place. place < length actors.now) }
{
    actors.iter().position(|actor| is_replay(&actor.function))
}

// Returns the place of the first actor that replays, unless there is a script.
fn unscripted_replay(actors: &[ActorRow], script: bool) -> Option<usize>
    ensures is { result ≡ if script then None else position replays actors.now }
    ensures within { IfSome result (λ place. place < length actors.now) }
{
    if script { None } else { first_replay(actors) }
}

// Returns how many actors begin with the run.
fn started(actors: &[ActorRow]) -> usize
    ensures { result ≡ count_by starts actors.now }
{
    actors.iter().filter(|actor| actor.start).count()
}

/// Returns the deployment, if it suits a run with a script or without, and so many contexts.
pub fn fitting(deployment: Deployment, script: bool, contexts: usize) -> Result<Deployment, Refusal>
    ensures given { result ≡ fitting_spec script contexts deployment }
    ensures same { IfOk result (λ d. (d ≡ deployment) × (started_number d ≤ contexts)) }
    ensures refusal { IfErr result IsOfDeployment }
{
    match unscripted_replay(deployment.actors(), script) {
        Some(place) => Err(Refusal::ReplayUnderRun(place as u32 + 1)),
        None => {
            let actors = started(deployment.actors());
            if contexts < actors {
                Err(Refusal::TooFewContexts(actors, contexts))
            } else {
                Ok(deployment)
            }
        }
    }
}
