//! The rows of platforms and deployments, with resolved names.
use crate::network::Network;
use crate::number_list::Numbers;
use crate::states::States;
use sg_base::{ActorId, Child, Ids, LinkId, Links, PointId, Text, ZoneId};

/// How a zone finds the routes between its children.
#[derive(Clone, Copy)]
pub enum Routing {
    /// Each pair has a route of its own.
    Full,
    /// Each child has a route to and from the centre.
    Star,
    /// Each pair has the shortest path over the routes between points that stand in the zone.
    Dijkstra,
}

/// A zone.
#[derive(Drop)]
pub struct ZoneRow {
    pub id: Text,
    /// `None` for the root.
    pub parent: Option<ZoneId>,
    pub routing: Routing,
}

/// What a host draws, in milliwatts.
#[derive(Clone, Copy)]
pub struct Power {
    /// While it computes nothing.
    pub idle: u64,
    /// While it computes with nearly none of its capacity.
    pub epsilon: u64,
    /// While it computes with all of its capacity.
    pub all: u64,
    /// While it is off.
    pub off: u64,
}

/// A host.
#[derive(Drop)]
pub struct HostRow {
    pub id: Text,
    pub zone: ZoneId,
    /// What one execution gets at most, in flops per second.
    pub speed: u64,
    pub cores: u32,
    /// `None` if nothing is said of it.
    pub power: Option<Power>,
}

/// A router: a point that no actor is on.
#[derive(Drop)]
pub struct RouterRow {
    pub id: Text,
    pub zone: ZoneId,
}

/// How flows share a link.
#[derive(Clone, Copy)]
pub enum Policy {
    /// All flows together get at most the bandwidth.
    Shared,
    /// Each flow gets at most the bandwidth.
    Fatpipe,
    /// Two shared links, `id_UP` and `id_DOWN`.
    SplitDuplex,
}

/// A link, or the two of a SPLITDUPLEX row.
#[derive(Drop)]
pub struct LinkRow {
    pub id: Text,
    /// In bytes per second.
    pub bandwidth: u64,
    /// In nanoseconds.
    pub latency: u64,
    pub policy: Policy,
}

/// A route between two points.
#[derive(Drop)]
pub struct RouteRow {
    pub src: PointId,
    pub dst: PointId,
    pub links: Links,
    /// Whether it also serves the reverse direction.
    pub symmetrical: bool,
}

/// A route between two children of a zone, at least one of them a zone.
#[derive(Drop)]
pub struct ZoneRouteRow {
    pub src: Child,
    pub dst: Child,
    /// Where the route begins: a point of `src`, or `src` itself.
    pub gw_src: PointId,
    /// Where it ends: a point of `dst`, or `dst` itself.
    pub gw_dst: PointId,
    pub links: Links,
    /// Whether it also serves the reverse direction.
    pub symmetrical: bool,
}

/// What joins a child of a Star zone to its centre.
#[derive(Drop)]
pub struct SpokeRow {
    pub zone: ZoneId,
    pub child: Child,
    /// Where the spoke begins: a point of the child, or the child itself.
    pub gateway: PointId,
    pub up: Links,
    pub down: Links,
}

/// What a profile is of.
#[derive(Clone, Copy)]
pub enum Profiled {
    Host(PointId),
    Link(LinkId),
}

/// How the speed of a host or the bandwidth of a link changes during a run.
#[derive(Drop)]
pub struct ProfileRow {
    pub of: Profiled,
    /// When it changes, in nanoseconds, each later than the one before.
    pub dates: Numbers,
    /// What it is from each date on, in flops or bytes per second.
    pub values: Numbers,
    /// How long after the last date the next turn begins, in nanoseconds, if all comes again.
    pub gap: Option<u64>,
}

/// When a host or a link is turned on or off during a run.
#[derive(Drop)]
pub struct StateProfileRow {
    pub of: Profiled,
    /// When it is turned on or off, in nanoseconds, each later than the one before.
    pub dates: Numbers,
    /// Whether it is on from each date on.
    pub states: States,
    /// How long after the last date the next turn begins, in nanoseconds, if all comes again.
    pub gap: Option<u64>,
}

/// The rows of a platform's tables, in declared order.
pub struct PlatformRows {
    pub zones: Vec<ZoneRow>,
    pub hosts: Vec<HostRow>,
    /// Routers are points after the hosts.
    pub routers: Vec<RouterRow>,
    pub links: Vec<LinkRow>,
    pub routes: Vec<RouteRow>,
    pub zone_routes: Vec<ZoneRouteRow>,
    pub spokes: Vec<SpokeRow>,
    /// That of the one row, or the plain one.
    pub network: Network,
    pub profiles: Vec<ProfileRow>,
    pub state_profiles: Vec<StateProfileRow>,
}

// A function of its own, so that a proof in which one is dropped doesn't go into its parts.
impl Drop for PlatformRows {
    fn drop(self) {
        let PlatformRows {
            zones: _,
            hosts: _,
            routers: _,
            links: _,
            routes: _,
            zone_routes: _,
            spokes: _,
            network: _,
            profiles: _,
            state_profiles: _,
        } = self;
    }
}

/// What an actor does.
#[derive(Drop)]
pub enum Function {
    /// It does what the script says.
    Replay,
    /// It does the tasks that a master sends it.
    Worker,
    /// It hands so many tasks out, of so many flops and bytes each, to its workers in turn.
    Master {
        tasks: u64,
        flops: u64,
        bytes: u64,
        workers: Ids,
    },
    /// It computes and sends messages around a ring, by numbers that it draws: no text can name it.
    Churn {
        /// The state with which its generator begins.
        seed: u64,
        next: ActorId,
        prev: ActorId,
        steps: u32,
    },
}

/// An actor.
#[derive(Drop)]
pub struct ActorRow {
    pub name: Text,
    pub host: PointId,
    pub function: Function,
    /// Whether it begins with the run; else it begins when another actor creates it.
    pub start: bool,
}

/// A mutex.
#[derive(Drop)]
pub struct MutexRow {
    pub id: Text,
}

/// A semaphore.
#[derive(Drop)]
pub struct SemaphoreRow {
    pub id: Text,
    /// How many may acquire it at once.
    pub capacity: u64,
}
