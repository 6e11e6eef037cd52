//! What a call at a mutex, a semaphore or the barrier returns.

/// What happens to the calling actor.
#[derive(Clone, Copy)]
pub enum Outcome {
    GoesOn,
    /// Until another call names it among those that continue.
    Waits,
    /// The call has no effect: an unlock by another than the owner.
    Refused,
}
