//! Platforms and deployments of rows that were made otherwise than from a text.
ghost use Rattle.std.specs.Prelude.{◌≡◌, IfOk};
ghost use Rattle.sg_platform_rows.specs.Deployment.{IsDeployedOn};
ghost use Rattle.sg_platform_rows.specs.OfRows.{AreActors, AreRows, deployed_with, platform_with};

use crate::deployment::Deployment;
use crate::network::Network;
use crate::platform::PlatformText;
use crate::rows::{ActorRow, HostRow, LinkRow, PlatformRows, SpokeRow, ZoneRow};
use sg_base::Memory;
use std::alloc::Global;

impl PlatformText {
    /// Makes the platform with these rows and no others, which break no rule of platform texts.
    ///
    /// # Errors
    ///
    /// Out of memory: then the rows are gone.
    pub fn of_rows(
        alloc: Global,
        zones: Vec<ZoneRow>,
        hosts: Vec<HostRow>,
        links: Vec<LinkRow>,
        spokes: Vec<SpokeRow>,
    ) -> Result<PlatformText, Memory>
        requires { AreRows zones.items hosts.items links.items spokes.items }
        ensures { IfOk result
            (λ platform. platform
            ≡ platform_with zones.items hosts.items links.items spokes.items) }
    {
        Ok(PlatformText::with_rows(PlatformRows {
            zones,
            hosts,
            routers: Vec::new(alloc),
            links,
            routes: Vec::new(alloc),
            zone_routes: Vec::new(alloc),
            spokes,
            network: Network::plain(),
            profiles: Vec::new(alloc),
            state_profiles: Vec::new(alloc),
        }))
    }
}

impl Deployment {
    /// Makes the deployment with these actors and nothing else, which break no rule of deployment texts on the
    /// platform, except that they may churn.
    ///
    /// # Errors
    ///
    /// Out of memory: then the rows are gone.
    pub fn of_rows(
        alloc: Global,
        actors: Vec<ActorRow>,
        _platform: &PlatformText,
    ) -> Result<Deployment, Memory>
        requires { AreActors _platform.now actors.items }
        ensures deployment { IfOk result (λ deployment. deployment ≡ deployed_with actors.items) }
        ensures deployed { IfOk result (IsDeployedOn _platform.now) }
    {
        Deployment::with_rows(alloc, actors, Vec::new(alloc), Vec::new(alloc))
    }
}
