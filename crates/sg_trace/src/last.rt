//! What is reported at the end of a run.
use sg_base::{ActorId, Call, PointId};

/// What a line at the end of a run reports. Dates are in nanoseconds.
#[derive(Clone, Copy)]
pub enum Last {
    /// All actors had ended at this date.
    Time(u128),
    /// No actor was ready, and no activity was running.
    Deadlock(u128),
    /// No actor was ready, and no running activity would ever end.
    Starved(u128),
    /// The budget, of so many events, was used up at this date.
    Budget(u64, u128),
    /// An actor that was blocked on this call.
    Blocked(ActorId, Call),
    /// An actor that was suspended.
    Suspended(ActorId),
    /// So many actors had so many events.
    Summary(u64, u64),
    /// What a host consumed: whole joules, and the rest in units of 10^-12 J.
    Energy(PointId, u128, u64),
}
