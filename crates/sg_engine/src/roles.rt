//! What actors are to be.
ghost use Rattle.std.specs.Prelude.{◌≡◌, IfOk};
ghost use Rattle.sg_engine.specs.Roles.{role_of};

use sg_actor::Role;
use sg_base::{ActorId, Ids, Memory};
use sg_platform_rows::Function;
use std::alloc::Global;

/// Returns what an actor is to be, by what its row says.
pub fn role(alloc: Global, me: ActorId, function: &Function) -> Result<Role, Memory>
    ensures { IfOk result (λ role. role ≡ role_of me.0 function.now) }
{
    match function {
        Function::Replay => Ok(Role::Replay(me)),
        Function::Worker => Ok(Role::Worker(me)),
        Function::Master {
            tasks,
            flops,
            bytes,
            workers,
        } => Ok(Role::Master {
            tasks: *tasks,
            flops: *flops,
            bytes: *bytes,
            workers: copy_of(alloc, workers)?,
        }),
        Function::Churn {
            seed,
            next,
            prev,
            steps,
        } => Ok(Role::Churn {
            seed: *seed,
            steps: *steps,
            me,
            next: *next,
            prev: *prev,
        }),
    }
}

fn copy_of(alloc: Global, actors: &Ids) -> Result<Ids, Memory>
    ensures { IfOk result (λ copy. copy ≡ actors.now) }
{
    Ok(Ids::from_vec(actors.as_slice().to_vec(alloc)?))
}
