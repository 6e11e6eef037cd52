//! The platform and the deployment, each begun, read whole and judged.
ghost use Rattle.std.specs.Prelude.{◌≡◌, ◌≢◌, ◌+◌, IfOk, IfErr, IsOk};
ghost use Rattle.std.specs.Result.{result_map_both};
ghost use Rattle.sg_edge.specs.declared.files.Stage.TheVariants.{Fresh, Broken};
ghost use Rattle.sg_edge.specs.Files.{IsNamed, KeepsTelling, Only, TakesUpTo};
ghost use Rattle.sg_edge.specs.Sources.{Source, Gives};
ghost use Rattle.sg_platform_rows.specs.Deployment.{IsDeployedOn};
ghost use Rattle.sg_platform.specs.DeploymentOf.{deployment_of as deployment_of_text};
ghost use Rattle.sg_platform.specs.PlatformOf.{greatest_text, platform_of as platform_of_text};
ghost use Rattle.simgrid_replay.specs.kept.Reading.{Broke, IsOfDeployment, IsOfPlatform, IsReadFault};
ghost use Rattle.simgrid_replay.specs.Settings.{platform_given, deployment_given, or_platform_fault};

use crate::refusal::Refusal;
use crate::routed_platform::RoutedPlatform;
use sg_edge::{Files, Loaded, Part, load};
use sg_platform::{DeploymentFault, GREATEST_TEXT, PlatformFault, read_deployment, take_platform};
use sg_platform_rows::{Deployment, PlatformText};
use sg_toml_tree::{Fault, Kind, Place};
use std::alloc::Global;

/// A text is over the limit as a whole.
const TOO_LONG: Fault = Fault {
    place: Place {
        table: 0,
        row: 0,
        key: 0,
    },
    kind: Kind::Limit,
};

fn platform_of(alloc: Global, text: Vec<u8>) -> Result<RoutedPlatform, Refusal>
    ensures given { result ≢ Err Refusal.Memory
        → result ≡ or_platform_fault (platform_of_text text.items) }
    ensures read { IfErr result (λ why. ¬ IsReadFault why) }
{
    match take_platform(alloc, text) {
        Ok(platform) => RoutedPlatform::new(alloc, platform),
        Err(PlatformFault::Memory) => Err(Refusal::Memory),
        Err(fault) => Err(Refusal::Platform(fault.rule())),
    }
}

fn deployment_of(alloc: Global, text: &[u8], platform: &PlatformText) -> Result<Deployment, Refusal>
    ensures given { result ≢ Err Refusal.Memory
        → result ≡ result_map_both (λ deployed. deployed) (λ fault. Refusal.Deployment fault)
        (deployment_of_text text.now platform.now) }
    ensures deployed { IfOk result (IsDeployedOn platform.now) }
    ensures refusal { IfErr result IsOfDeployment }
{
    match read_deployment(alloc, text, platform) {
        Ok(deployment) => Ok(deployment),
        Err(DeploymentFault::Memory) => Err(Refusal::Memory),
        Err(fault) => Err(Refusal::Deployment(fault.rule())),
    }
}

/// Loads the platform, with its routes.
pub fn load_platform<F: Files>(
    alloc: Global,
    files: &mut F,
    name: &str,
) -> Result<RoutedPlatform, Refusal>
    requires { (F.shows files.old Part.Platform).stage ≡ Fresh }
    ensures given { (source : Source)
        → Gives (F.shows files.old Part.Platform) (F.shows files.new Part.Platform) source
        → result ≢ Err Refusal.Memory → result ≡ platform_given source }
    ensures cause { IfErr result (λ why. IsReadFault why
        → Broke Part.Platform (F.shows files.old) (F.shows files.new)) }
    ensures whole { IsOk result → (F.shows files.new Part.Platform).stage ≢ Broken }
    ensures named { IsNamed name.now (F.shows files.new Part.Platform) }
    ensures bounded { TakesUpTo (greatest_text + 1) (F.shows files.old Part.Platform)
        (F.shows files.new Part.Platform) }
    ensures telling { KeepsTelling (F.shows files.old Part.Platform)
        (F.shows files.new Part.Platform) }
    ensures others { Only Part.Platform (F.shows files.old) (F.shows files.new) }
{
    match load(alloc, files, Part::Platform, name, GREATEST_TEXT) {
        Loaded::Whole(text) => platform_of(alloc, text),
        Loaded::TooLong => Err(Refusal::Platform(Some(TOO_LONG))),
        Loaded::Fault => Err(Refusal::ReadPlatform),
        Loaded::Memory => Err(Refusal::Memory),
    }
}

/// Loads the deployment, on this platform.
pub fn load_deployment<F: Files>(
    alloc: Global,
    files: &mut F,
    name: &str,
    platform: &PlatformText,
) -> Result<Deployment, Refusal>
    requires { (F.shows files.old Part.Deployment).stage ≡ Fresh }
    ensures given { (source : Source)
        → Gives (F.shows files.old Part.Deployment) (F.shows files.new Part.Deployment) source
        → result ≢ Err Refusal.Memory → result ≡ deployment_given platform.now source }
    ensures deployed { IfOk result (IsDeployedOn platform.now) }
    ensures platform { IfErr result (λ why. ¬ IsOfPlatform why) }
    ensures cause { IfErr result (λ why. IsReadFault why
        → Broke Part.Deployment (F.shows files.old) (F.shows files.new)) }
    ensures whole { IsOk result → (F.shows files.new Part.Deployment).stage ≢ Broken }
    ensures named { IsNamed name.now (F.shows files.new Part.Deployment) }
    ensures bounded { TakesUpTo (greatest_text + 1) (F.shows files.old Part.Deployment)
        (F.shows files.new Part.Deployment) }
    ensures telling { KeepsTelling (F.shows files.old Part.Deployment)
        (F.shows files.new Part.Deployment) }
    ensures others { Only Part.Deployment (F.shows files.old) (F.shows files.new) }
{
    match load(alloc, files, Part::Deployment, name, GREATEST_TEXT) {
        Loaded::Whole(text) => deployment_of(alloc, &text, platform),
        Loaded::TooLong => Err(Refusal::Deployment(Some(TOO_LONG))),
        Loaded::Fault => Err(Refusal::ReadDeployment),
        Loaded::Memory => Err(Refusal::Memory),
    }
}
