//! What a run is of.
ghost use Rattle.std.specs.Prelude.{◌≡◌, length};
ghost use Rattle.sg_kernel_calls.specs.Roads.{AreOver};
ghost use Rattle.sg_platform_rows.specs.Deployment.{IsDeployedOn};
ghost use Rattle.sg_platform_rows.specs.Ends.{link_ends};
ghost use Rattle.sg_route.specs.Roads.{roads_of};

use sg_kernel::roads_are_over;
use sg_platform_rows::{Deployment, PlatformText};
use sg_route::Router;

/// A platform with its profiles, the actors that are deployed on it, the routes between its hosts, and whether there is a script.
#[derive(Drop)]
pub struct Setup {
    pub platform: PlatformText,
    pub deployment: Deployment,
    pub router: Router,
    /// Without one each fetch of a line is refused.
    pub script: bool,
    ghost deployed: { IsDeployedOn platform deployment },
    ghost roads: { router ≡ roads_of platform },
    ghost over: { AreOver (length (link_ends platform.links)) router },
}

impl Setup {
    /// Makes the setup of these, if the router has the routes of the platform.
    pub fn new(
        platform: PlatformText,
        deployment: Deployment,
        router: Router,
        script: bool,
    ) -> Setup
        requires deployed { IsDeployedOn platform deployment }
        requires roads { router ≡ roads_of platform }
        ensures platform { result.platform ≡ platform }
        ensures deployment { result.deployment ≡ deployment }
        ensures script { result.script ≡ script }
    {
        roads_are_over(&platform, &router);
        Setup {
            platform,
            deployment,
            router,
            script,
        }
    }
}
