//! What is kept of a simulation.
use crate::setup::Setup;
use sg_activity::Activities;
use sg_actor_states::States;
use sg_mailbox::{Boxes, Owners};
use sg_profile::Profiles;
use sg_requests::Requests;
use sg_sync::Sync;

/// What is kept of a simulation: what stays, and what calls and time advances change.
#[derive(Drop)]
pub struct Fields {
    /// What stays, except for the profiles.
    pub setup: Setup,
    /// The running activities.
    pub doing: Activities,
    /// What each actor does, and the records that aren't cleared.
    pub states: States,
    /// Whose each activity is.
    pub whose: Owners,
    /// The endpoints that wait for their match.
    pub boxes: Boxes,
    /// What each actor may wait for.
    pub requests: Requests,
    /// The mutexes, the semaphores and the barrier.
    pub objects: Sync,
    /// The profiles of hosts and links, and how far each is.
    pub profiles: Profiles,
    /// How many events there were.
    pub events: u64,
}
