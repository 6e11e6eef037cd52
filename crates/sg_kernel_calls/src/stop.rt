//! Why a run stops.
use sg_base::{Child, PointId, ZoneId};

/// Why a run stops before all actors have ended.
#[derive(Clone, Copy)]
pub enum Stop {
    /// An event is next, and as many as there may be were counted.
    Budget,
    /// A communication has no route from the host `from` to the host `to`: in this zone there is none from its child
    /// `a` to its child `b`.
    NoRoute {
        from: PointId,
        to: PointId,
        zone: ZoneId,
        a: Child,
        b: Child,
    },
    /// The route of a communication from the host `from` to the host `to` has more than 64 links.
    TooLong {
        from: PointId,
        to: PointId,
    },
    /// No actor is ready, no activity is running, and no profile entry is pending.
    Deadlock,
    /// No actor is ready, no running activity will ever end, and no profile entry is pending.
    Starved,
}
