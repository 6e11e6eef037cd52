//! The names in a line.
ghost use Rattle.std.specs.Prelude.{◌≡◌, ◌-◌, ◌<◌, ◌≤◌, ◌++◌, [], length, slice_get};
ghost use Rattle.std.specs.Option.{option_map_or};
ghost use Rattle.sg_base.specs.Limits.{IsActorIn, IsMutexIn, IsSemaphoreIn};
ghost use Rattle.sg_platform_rows.specs.Deployment.{IsDeployedOn, extent_of};
ghost use Rattle.sg_trace.specs.Names.{actor_label, actor_name, host_name, mutex_id, semaphore_id};
ghost use Rattle.sg_trace.specs.kept.Room.{HasRoom, GrowsBy};

use crate::pieces::push_number;
use arrayvec::ArrayString;
use sg_base::{ActorId, PointId, Text};
use sg_platform_rows::{Deployment, PlatformText};

/// A name that a platform or a deployment declares.
#[derive(Clone, Copy)]
pub struct Name<'a> {
    text: &'a Text,
    ghost short: { length text.now ≤ 64 },
}

pub fn push_name<const N: usize>(lines: &mut ArrayString<N>, name: Name<'_>)
    requires room { HasRoom N lines.old 64 }
    ensures bytes { lines.new.bytes ≡ lines.old.bytes ++ name.entry.text.now }
    ensures len { GrowsBy lines.old lines.new 64 }
{
    lines.push_str(name.text.as_str());
}

pub fn host_name(platform: &PlatformText, host: PointId) -> Name<'_>
    requires { host.0 < length platform.now.hosts }
    ensures { result.text.now ≡ host_name platform.now host }
{
    Name {
        text: &platform.hosts()[host.0 as usize].id,
    }
}

fn actor_host<'a>(platform: &'a PlatformText, deployment: &Deployment, actor: ActorId) -> Name<'a>
    requires actor { IsActorIn (extent_of deployment.now) actor }
    requires deployed { IsDeployedOn platform.now deployment.now }
    ensures { result.text.now ≡ option_map_or (λ row. host_name platform.now row.host)
        (slice_get deployment.now.actors (actor.0 - 1)) [] }
{
    host_name(platform, deployment.actors()[actor.index()].host)
}

pub fn actor_name(deployment: &Deployment, actor: ActorId) -> Name<'_>
    requires { IsActorIn (extent_of deployment.now) actor }
    ensures { result.text.now ≡ actor_name deployment.now actor }
{
    Name {
        text: &deployment.actors()[actor.index()].name,
    }
}

pub fn mutex_name(deployment: &Deployment, mutex: u32) -> Name<'_>
    requires { IsMutexIn (extent_of deployment.now) mutex }
    ensures { result.text.now ≡ mutex_id deployment.now mutex }
{
    Name {
        text: &deployment.mutexes()[mutex as usize].id,
    }
}

pub fn semaphore_name(deployment: &Deployment, semaphore: u32) -> Name<'_>
    requires { IsSemaphoreIn (extent_of deployment.now) semaphore }
    ensures { result.text.now ≡ semaphore_id deployment.now semaphore }
{
    Name {
        text: &deployment.semaphores()[semaphore as usize].id,
    }
}

/// Adds the actor with its host and its identifier.
pub fn push_actor<const N: usize>(
    lines: &mut ArrayString<N>,
    platform: &PlatformText,
    deployment: &Deployment,
    actor: ActorId,
)
    requires actor { IsActorIn (extent_of deployment.now) actor }
    requires deployed { IsDeployedOn platform.now deployment.now }
    requires room { HasRoom N lines.old 212 }
    ensures bytes { lines.new.bytes
        ≡ lines.old.bytes ++ actor_label platform.now deployment.now actor }
    ensures len { GrowsBy lines.old lines.new 152 }
{
    push_name(lines, actor_host(platform, deployment, actor));
    lines.push_str(":");
    push_name(lines, actor_name(deployment, actor));
    lines.push_str(":(");
    push_number(lines, u64::from(actor.0));
    lines.push_str(")");
}
