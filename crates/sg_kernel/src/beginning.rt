//! What a simulation begins with.

ghost use Rattle.std.specs.Prelude.{◌≡◌, IfOk, map};
ghost use Rattle.sg_activity.specs.Doing.{idle_on};
ghost use Rattle.sg_kernel.specs.Start.{first_objects};
ghost use Rattle.sg_kernel_calls.specs.Setup.{host_cap, link_caps};
ghost use Rattle.sg_kernel.specs.kept.First.{first_states};

use crate::setup::{hosts, links};
use sg_activity::Activities;
use sg_actor_states::States;
use sg_base::Memory;
use sg_kernel_calls::Setup;
use sg_platform_rows::PlatformText;
use sg_sync::Sync;
use std::alloc::Global;

/// Makes the hosts and links of the platform without any activity.
pub(crate) fn make_doing(alloc: Global, platform: &PlatformText) -> Result<Activities, Memory>
    ensures { IfOk result (λ doing. doing
        ≡ idle_on (map host_cap platform.now.hosts)
        (link_caps platform.now.network platform.now.links)) }
{
    let hosts = hosts(alloc, platform.hosts())?;
    let links = links(alloc, platform.network(), platform.links())?;
    Activities::new(alloc, &hosts, &links)
}

/// Makes the actors before any of them ran.
pub(crate) fn make_states(alloc: Global, setup: &Setup) -> Result<States, Memory>
    ensures { IfOk result (λ states. states ≡ first_states setup.now) }
{
    States::new(alloc, &setup.starts, setup.mutexes, setup.semaphores.len())
}

/// Makes the mutexes, semaphores and the barrier, at which no actor waits.
pub(crate) fn make_objects(alloc: Global, setup: &Setup) -> Result<Sync, Memory>
    ensures { IfOk result (λ objects. objects.objects ≡ first_objects setup.now) }
{
    let actors = setup.homes.len() as u32;
    let mutexes = setup.mutexes as u32;
    Sync::new(alloc, actors, mutexes, &setup.semaphores, setup.members)
}
