//! Identifiers: each is a place in the order in which its kind was declared.
ghost use Rattle.std.specs.Prelude.{◌≡◌, ◌-◌, ◌<◌};

/// An actor: the first actor of the deployment has the number 1.
#[derive(Clone, Copy, PartialEq, Eq, Hash)]
pub struct ActorId(pub u32);

impl ActorId {
    /// Returns the row of the actor among those of the deployment, from 0 on.
    pub fn index(self) -> usize
        requires { 0 < self.0 }
        ensures { result ≡ self.0 - 1 }
    {
        self.0 as usize - 1
    }
}

/// A point of the platform: the hosts in declared order from 0 on, then the routers.
#[derive(Clone, Copy, PartialEq, Eq, PartialOrd, Ord)]
pub struct PointId(pub u32);

/// A link, from 0 on in declared order. A SPLITDUPLEX row gives two, up and then down; the last one of all is
/// the loopback.
#[derive(Clone, Copy, Default)]
pub struct LinkId(pub u32);

/// A zone, from 0 on in declared order.
#[derive(Clone, Copy, PartialEq, Eq, PartialOrd, Ord)]
pub struct ZoneId(pub u32);

/// A child of a zone.
#[derive(Clone, Copy, PartialEq, Eq, PartialOrd, Ord)]
pub enum Child {
    Point(PointId),
    Zone(ZoneId),
}

/// The id of an activity, counted up from 1 over the whole run.
#[derive(Clone, Copy)]
pub struct Serial(pub u64);

/// A mailbox, where a send and a receive meet.
#[derive(Clone, Copy, PartialEq, Eq, Hash)]
pub enum BoxId {
    /// The one for what the first actor sends to the second.
    Pair(ActorId, ActorId),
    /// The one under the name of an actor, whoever sends to it.
    Named(ActorId),
}
