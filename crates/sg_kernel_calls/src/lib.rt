//! What a simulation is made of, and how each call of an actor changes it.
//! One enters by `Fields`, in which a simulation is kept, and by `answer_call`. `event` counts an event, within the
//! budget. `go_on` answers an actor that fetched its next line, `create` one that starts another, and `answer_owners`
//! the waiters of an activity that ended.
//! It stands on one crate for each thing that it keeps: `sg_actor_states`, `sg_activity`, `sg_mailbox`,
//! `sg_requests`, `sg_sync` and `sg_profile`; and on `sg_route` for routes.
#![tactic(auto)]

mod answers;
mod at_once;
mod calls;
mod creating;
mod events;
mod executions;
mod holding;
mod joining;
mod killing;
mod locks;
mod meetings;
mod network;
mod setup;
mod simulation_state;
mod stop;

pub use answers::answer_owners;
pub use at_once::go_on;
pub use calls::answer_call;
pub use creating::create;
pub use events::{check_budget, count, event, is_used_up};
pub use setup::Setup;
pub use simulation_state::Fields;
pub use stop::Stop;
