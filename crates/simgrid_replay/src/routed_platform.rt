//! A platform and its routes.
ghost use Rattle.std.specs.Prelude.{◌≡◌, ◌≢◌};
ghost use Rattle.std.specs.Result.{result_map_both};
ghost use Rattle.sg_platform_rows.specs.Deployment.{IsDeployedOn};
ghost use Rattle.sg_route.specs.Roads.{roads_of};
ghost use Rattle.sg_zones.specs.Faults.{zones_of};

use crate::refusal::Refusal;
use sg_base::Memory;
use sg_engine::Setup;
use sg_platform_rows::{Deployment, PlatformText};
use sg_route::Router;
use sg_zones::{ZoneFault, Zones};
use std::alloc::Global;
use std::marker::Model;

/// A platform whose zones have no fault, with the routes between its hosts. Contracts see the platform.
#[derive(Drop)]
pub struct RoutedPlatform {
    platform: PlatformText,
    router: Router,
}

impl Model for RoutedPlatform {
    ghost use Rattle.std.specs.Prelude.{◌≡◌};
    ghost use Rattle.sg_platform_rows.specs.Platform.{Platform};
    ghost use Rattle.sg_route.specs.Roads.{roads_of};

    ghost Value = { Platform };

    ghost view = { λ r. r.platform };

    ghost invariant = { λ r. r.router ≡ roads_of r.platform };
}

impl RoutedPlatform {
    /// Makes the platform, if its zones have no fault.
    #[tactic(auto, using(crate::proofs::ZoneLemmas::zones_are, crate::proofs::ZoneLemmas::no_zone_fault))]
    pub fn new(alloc: Global, platform: PlatformText) -> Result<RoutedPlatform, Refusal>
        ensures { result ≢ Err Refusal.Memory → result ≡ result_map_both
            (λ tree. platform) (λ fault. Refusal.Zones fault) (zones_of platform) }
    {
        let zones = match Zones::build(alloc, &platform) {
            Ok(zones) => zones,
            Err(ZoneFault::Memory) => return Err(Refusal::Memory),
            Err(fault) => return Err(Refusal::Zones(fault)),
        };
        match Router::build(alloc, &platform, &zones) {
            Ok(router) => Ok(RoutedPlatform { platform, router }),
            Err(Memory) => Err(Refusal::Memory),
        }
    }

    /// Returns the platform alone.
    pub fn platform(&self) -> &PlatformText
        ensures { result.now ≡ self.now }
    {
        &self.platform
    }

    /// Returns what a run of this deployment is of, with a script or without.
    pub fn with(self, deployment: Deployment, script: bool) -> Setup
        requires { IsDeployedOn self deployment }
        ensures platform { result.platform ≡ self }
        ensures deployment { result.deployment ≡ deployment }
        ensures script { result.script ≡ script }
    {
        Setup::new(self.platform, deployment, self.router, script)
    }
}
