//! The actors of a churn.
ghost use Rattle.std.specs.Prelude.{◌≡◌, ◌<◌, ◌≤◌, ◌^◌, IfOk};
ghost use Rattle.sg_platform_churn.specs.Generated.{ring_actor, deployed_of_seed, platform_of_seed, rows};
ghost use Rattle.sg_platform_rows.specs.Deployment.{IsDeployedOn};

use crate::names::row_name;
use sg_base::{ActorId, Memory, PointId};
use sg_platform_rows::{ActorRow, Deployment, Function, PlatformText};
use std::alloc::Global;

fn actor_row(
    alloc: Global,
    seed: u64,
    actors: u16,
    steps: u32,
    row: u16,
) -> Result<ActorRow, Memory>
    requires { row < actors }
    ensures { IfOk result (λ actor. actor ≡ ring_actor seed actors steps row) }
{
    let name = row_name(alloc, "a", row)?;
    let (row, actors) = (u32::from(row), u32::from(actors));
    Ok(ActorRow {
        name,
        host: PointId(row),
        function: Function::Churn {
            seed: seed.wrapping_add(u64::from(row + 1)),
            next: ActorId(1 + (row + 1) % actors),
            prev: ActorId(1 + (row + (actors - 1)) % actors),
            steps,
        },
        start: true,
    })
}

fn actor_rows(alloc: Global, seed: u64, actors: u16, steps: u32) -> Result<Vec<ActorRow>, Memory>
    ensures { IfOk result (λ made. made.items ≡ rows (ring_actor seed actors steps) actors) }
{
    let mut made = Vec::new(alloc);
    for row in 0..actors {
        made.push(actor_row(alloc, seed, actors, steps, row)?)?;
    }
    Ok(made)
}

/// Makes the actors of a churn with this seed, so many actors and so many steps, on its platform.
///
/// # Errors
///
/// Out of memory.
#[tactic(auto, unfolding(crate::specs::Generated::deployed_of_seed))]
pub fn churn_deployment(
    alloc: Global,
    seed: u64,
    actors: u32,
    steps: u32,
    platform: &PlatformText,
) -> Result<Deployment, Memory>
    requires platform { platform.now ≡ platform_of_seed seed actors }
    requires seed { seed < 2 ^ 63 }
    requires ring { 2 ≤ actors }
    requires few { actors ≤ 4096 }
    requires steps { steps ≤ 1000000 }
    ensures deployment { IfOk result
        (λ deployment. deployment ≡ deployed_of_seed seed actors steps) }
    ensures deployed { IfOk result (IsDeployedOn platform.now) }
{
    let rows = actor_rows(alloc, seed, actors as u16, steps)?;
    Deployment::of_rows(alloc, rows, platform)
}
