//! What a job runs: read from a platform and a deployment, or made from numbers.
ghost use Rattle.std.specs.Prelude.{◌≡◌, ◌≢◌, ◌+◌, true, false, IfOk, IfErr, IsOk};
ghost use Rattle.sg_edge.specs.declared.files.Part.{Part};
ghost use Rattle.sg_edge.specs.declared.files.Stage.TheVariants.{Fresh, Broken};
ghost use Rattle.sg_edge.specs.Files.{IsNamed, KeepsTelling, Only, TakesUpTo};
ghost use Rattle.sg_edge.specs.Sources.{Source, Gives};
ghost use Rattle.sg_platform.specs.PlatformOf.{greatest_text};
ghost use Rattle.simgrid_replay.specs.PartOrder.{AreBounded};
ghost use Rattle.simgrid_replay.specs.PartSources.{request_of, IsNamedBy, TextsGive};
ghost use Rattle.simgrid_replay.specs.kept.Reading.{AreRead, Broke, IsOfPlatform, IsReadFault, PlatformDecides};
ghost use Rattle.simgrid_replay.specs.Settings.{platform_given, setting, setting_on, unless_refused};
ghost use Rattle.simgrid_replay.specs.kept.Setups.{IsSetupOf, IsSetupFor};
ghost use Rattle.simgrid_replay.specs.Requests.{has_parts, has_script};

use crate::churn_setup::churn_setup;
use crate::fitting::fitting;
use crate::loading::{load_deployment, load_platform};
use crate::refusal::Refusal;
use crate::routed_platform::RoutedPlatform;
use sg_edge::{Files, Part};
use sg_engine::Setup;
use sg_words::{Command, Job};
use std::alloc::Global;

/// The names of a platform and a deployment, and whether a script goes with them.
#[derive(Clone, Copy)]
struct Texts<'a> {
    platform: &'a str,
    deployment: &'a str,
    script: bool,
}

// Reads the deployment, and puts it on its platform.
fn deployed<F: Files>(
    alloc: Global,
    files: &mut F,
    texts: &Texts<'_>,
    platform: RoutedPlatform,
    contexts: usize,
) -> Result<Setup, Refusal>
    requires { (F.shows files.old Part.Deployment).stage ≡ Fresh }
    ensures given { (d : Source)
        → Gives (F.shows files.old Part.Deployment) (F.shows files.new Part.Deployment) d
        → IsSetupOf (setting_on texts.now.script contexts d platform) result }
    ensures fits { IfOk result (IsSetupFor texts.now.script contexts) }
    ensures platform { IfErr result (λ why. ¬ IsOfPlatform why) }
    ensures cause { IfErr result (λ why. IsReadFault why
        → Broke Part.Deployment (F.shows files.old) (F.shows files.new)) }
    ensures whole { IsOk result → (F.shows files.new Part.Deployment).stage ≢ Broken }
    ensures named { IsNamed texts.now.deployment.now (F.shows files.new Part.Deployment) }
    ensures bounded { TakesUpTo (greatest_text + 1) (F.shows files.old Part.Deployment)
        (F.shows files.new Part.Deployment) }
    ensures telling { KeepsTelling (F.shows files.old Part.Deployment)
        (F.shows files.new Part.Deployment) }
    ensures others { Only Part.Deployment (F.shows files.old) (F.shows files.new) }
{
    match load_deployment(alloc, files, texts.deployment, platform.platform()) {
        Ok(deployment) => {
            let deployment = fitting(deployment, texts.script, contexts)?;
            Ok(platform.with(deployment, texts.script))
        }
        Err(why) => Err(why),
    }
}

// Reads the platform, and what is deployed on it.
fn read_setup<F: Files>(
    alloc: Global,
    files: &mut F,
    texts: &Texts<'_>,
    contexts: usize,
) -> Result<Setup, Refusal>
    requires platform { (F.shows files.old Part.Platform).stage ≡ Fresh }
    requires deployment { (F.shows files.old Part.Deployment).stage ≡ Fresh }
    ensures given { (p d : Source)
        → Gives (F.shows files.old Part.Platform) (F.shows files.new Part.Platform) p
        → Gives (F.shows files.old Part.Deployment) (F.shows files.new Part.Deployment) d
        → IsSetupOf (unless_refused (setting_on texts.now.script contexts d) (platform_given p))
        result }
    ensures fits { IfOk result (IsSetupFor texts.now.script contexts) }
    ensures read { AreRead result (F.shows files.old) (F.shows files.new) }
    ensures decided { PlatformDecides true result (F.shows files.old) (F.shows files.new) }
    ensures platform { IsNamed texts.now.platform.now (F.shows files.new Part.Platform) }
    ensures deployment { IsNamed texts.now.deployment.now (F.shows files.new Part.Deployment) }
    ensures bounded { AreBounded (F.shows files.old) (F.shows files.new) }
    ensures telling { (q : Part) → KeepsTelling (F.shows files.old q) (F.shows files.new q) }
{
    match load_platform(alloc, files, texts.platform) {
        Ok(platform) => deployed(alloc, files, texts, platform, contexts),
        Err(why) => Err(why),
    }
}

/// Returns what a job runs, with so many contexts for its actors. The script isn't begun yet.
pub fn prepare<F: Files>(
    alloc: Global,
    files: &mut F,
    job: &Job,
    contexts: usize,
) -> Result<Setup, Refusal>
    requires { (part : Part) → (F.shows files.old part).stage ≡ Fresh }
    ensures given { (p d : Source)
        → TextsGive (request_of job.now) (F.shows files.old) (F.shows files.new) p d
        → IsSetupOf (setting (request_of job.now) contexts p d) result }
    ensures fits { IfOk result (IsSetupFor (has_script (request_of job.now)) contexts) }
    ensures read { AreRead result (F.shows files.old) (F.shows files.new) }
    ensures decided { PlatformDecides (has_parts (request_of job.now)) result
        (F.shows files.old) (F.shows files.new) }
    ensures platform { IsNamedBy (request_of job.now) Part.Platform
        (F.shows files.new Part.Platform) }
    ensures deployment { IsNamedBy (request_of job.now) Part.Deployment
        (F.shows files.new Part.Deployment) }
    ensures bounded { AreBounded (F.shows files.old) (F.shows files.new) }
    ensures telling { (q : Part) → KeepsTelling (F.shows files.old q) (F.shows files.new q) }
    ensures unread { has_parts (request_of job.now) ≡ false → files.new ≡ files.old }
{
    match &job.command {
        Command::Replay {
            platform,
            deployment,
            ..
        } => {
            let texts = Texts {
                platform: platform.as_str(),
                deployment: deployment.as_str(),
                script: true,
            };
            read_setup(alloc, files, &texts, contexts)
        }
        Command::Run {
            platform,
            deployment,
        } => {
            let texts = Texts {
                platform: platform.as_str(),
                deployment: deployment.as_str(),
                script: false,
            };
            read_setup(alloc, files, &texts, contexts)
        }
        Command::Churn {
            seed,
            actors,
            steps,
        } => churn_setup(alloc, *seed, *actors, *steps, contexts),
    }
}
