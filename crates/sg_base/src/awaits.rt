//! What actors wait for.
use crate::ids::Serial;

/// As what an actor takes part in an activity.
#[derive(Clone, Copy, PartialEq, Eq)]
pub enum Party {
    /// It computes or sleeps.
    Alone,
    Sender,
    Receiver,
}

/// What an actor waits for, or may wait for: the completion of its endpoint of the activity with this id.
#[derive(Clone, Copy)]
pub struct Await {
    pub serial: Serial,
    pub party: Party,
}
