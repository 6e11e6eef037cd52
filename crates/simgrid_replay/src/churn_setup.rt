//! What a churn runs: it is made from three numbers.
ghost use Rattle.std.specs.Prelude.{◌≡◌, ◌≤◌, false, true, IfOk, IfErr, length};
ghost use Rattle.sg_platform_churn.specs.Generated.{deployed_of_seed, platform_of_seed};
ghost use Rattle.sg_words.specs.Ranges.{AreChurnNumbers};
ghost use Rattle.simgrid_replay.specs.kept.Reading.{IsOfDeployment};
ghost use Rattle.simgrid_replay.specs.Settings.{fitting as fitting_spec, on_platform};
ghost use Rattle.simgrid_replay.specs.kept.Setups.{IsSetupOf, IsSetupFor};

use crate::fitting::fitting;
use crate::refusal::Refusal;
use crate::routed_platform::RoutedPlatform;
use sg_base::Memory;
use sg_engine::Setup;
use sg_platform_churn::{churn_deployment, churn_has_no_zone_fault, churn_platform};
use sg_platform_rows::PlatformText;
use std::alloc::Global;

// Returns the platform of a churn with its routes. It has no zone fault.
fn routed(
    alloc: Global,
    platform: PlatformText,
    seed: u64,
    actors: u32,
) -> Result<RoutedPlatform, Memory>
    requires { platform ≡ platform_of_seed seed actors }
    ensures { IfOk result (λ r. r ≡ platform) }
{
    churn_has_no_zone_fault();
    match RoutedPlatform::new(alloc, platform) {
        Ok(platform) => Ok(platform),
        Err(why) => match why {
            Refusal::Memory => Err(Memory),
            _ => unreachable!(),
        },
    }
}

/// Returns what a churn of so many actors and so many steps of each runs, if there is a context for each actor.
pub fn churn_setup(
    alloc: Global,
    seed: u64,
    actors: u32,
    steps: u32,
    contexts: usize,
) -> Result<Setup, Refusal>
    requires { AreChurnNumbers seed actors steps }
    ensures given { IsSetupOf (on_platform (platform_of_seed seed actors)
        (fitting_spec true contexts (deployed_of_seed seed actors steps))) result }
    ensures fits { IfOk result (IsSetupFor false contexts) }
    ensures refusal { IfErr result IsOfDeployment }
{
    let Ok(platform) = churn_platform(alloc, seed, actors) else {
        return Err(Refusal::Memory);
    };
    let Ok(deployment) = churn_deployment(alloc, seed, actors, steps, &platform) else {
        return Err(Refusal::Memory);
    };
    let deployment = fitting(deployment, true, contexts)?;
    match routed(alloc, platform, seed, actors) {
        Ok(platform) => Ok(platform.with(deployment, false)),
        Err(Memory) => Err(Refusal::Memory),
    }
}
