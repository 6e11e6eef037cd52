//! The tables of both texts, and their keys.
ghost use Rattle.std.specs.Prelude.{◌≡◌, map};
ghost use Rattle.sg_toml_keys.specs.Tables.{heading, keys_of};
ghost use Rattle.sg_toml_keys.specs.kept.Shown.{key_of};

use crate::units::Quantity::{self, Amount, Bandwidth, Factor, Latency, Speed, Time};
use Need::{IfZone, Optional, Required, Unless};
use Rule::{Powers, Text, Texts, Truth, Whole};
use TextRule::{
    AnyValue, EndName, FunctionWord, HostName, NewActor, NewLink, NewMutex, NewPoint, NewSemaphore,
    PointName, PolicyWord, PositiveValue, ProfiledHost, ProfiledLink, RouteEnd, RoutingWord,
    SpokeChild, SwitchedHost, SwitchedLink, ZoneName, ZoneRouteEnd,
};
use TextsRule::{ArgumentList, DateList, LinkList, StateList, ValueList};

/// Whether a row must have a key. Keys have texts as names here, and the bytes of texts in the definitions.
#[derive(Clone, Copy)]
pub enum Need<Name> {
    Required,
    Optional,
    /// Required if this other key of the row names a zone.
    IfZone(Name),
    /// Required if the row doesn't have this other key.
    Unless(Name),
}

/// What the value of a key must be.
#[derive(Clone, Copy)]
pub enum Rule {
    /// A text.
    Text(TextRule),
    /// A whole number from the first to the second.
    Whole(u64, u64),
    /// `true` or `false`.
    Truth,
    /// A list of texts.
    Texts(TextsRule),
    /// Three numbers of milliwatts, the third not less than the second.
    Powers,
}

/// What a text must be.
#[derive(Clone, Copy)]
pub enum TextRule {
    /// A new name among zones, hosts and routers.
    NewPoint,
    /// A new name among links; a SPLITDUPLEX link takes three.
    NewLink,
    /// A new name among actors.
    NewActor,
    /// A new name among mutexes.
    NewMutex,
    /// A new name among semaphores.
    NewSemaphore,
    /// The name of a zone.
    ZoneName,
    /// The name of a host or a router.
    PointName,
    /// The name of a zone, a host or a router.
    EndName,
    /// The name of a host.
    HostName,
    /// The name of a point, if no earlier route row gave the pair.
    RouteEnd,
    /// The name of a zone or point, if no earlier zone route row gave the pair.
    ZoneRouteEnd,
    /// The name of a zone or point that no earlier spoke row has.
    SpokeChild,
    /// `Full`, `Star` or `Dijkstra`.
    RoutingWord,
    /// `SHARED`, `FATPIPE` or `SPLITDUPLEX`.
    PolicyWord,
    /// What an actor does.
    FunctionWord,
    /// A value above zero.
    PositiveValue(Quantity),
    /// A value.
    AnyValue(Quantity),
    /// The name of a host, if no earlier profile row has it.
    ProfiledHost,
    /// The name of a link, if no earlier profile row has it, nor this row a host.
    ProfiledLink,
    /// The name of a host, if no earlier row of states has it.
    SwitchedHost,
    /// The name of a link, if no earlier row of states has it, nor this row a host.
    SwitchedLink,
}

/// What a list of texts must be.
#[derive(Clone, Copy)]
pub enum TextsRule {
    /// The names of 1 to 64 links.
    LinkList,
    /// 1 to 1,024 times, each later than the one before.
    DateList,
    /// A speed or a bandwidth for each date.
    ValueList,
    /// `on` or `off` for each date.
    StateList,
    /// The texts that an actor is given.
    ArgumentList,
}

/// A key of a table.
#[derive(Clone, Copy)]
pub struct Key<Name> {
    /// As a text writes it.
    pub name: Name,
    pub need: Need<Name>,
    pub rule: Rule,
}

/// A table of one of the texts.
#[derive(Clone, Copy)]
pub enum Table {
    Zone,
    Host,
    Router,
    Link,
    Route,
    ZoneRoute,
    Spoke,
    Network,
    Profile,
    StateProfile,
    Actor,
    Mutex,
    Semaphore,
}

/// The tables of a platform text, in order.
pub const PLATFORM: [Table; 10] = [
    Table::Zone,
    Table::Host,
    Table::Router,
    Table::Link,
    Table::Route,
    Table::ZoneRoute,
    Table::Spoke,
    Table::Network,
    Table::Profile,
    Table::StateProfile,
];

/// The tables of a deployment text, in order.
pub const DEPLOYMENT: [Table; 3] = [Table::Actor, Table::Mutex, Table::Semaphore];

macro_rules! key {
    ($name:literal, $need:expr, $rule:expr) => {
        Key { name: $name, need: $need, rule: $rule }
    };
}

// The keys of each table, in order. They are statics, since a constant that holds texts is not lent as `'static`.

static ZONE_KEYS: [Key<&'static str>; 3] = [
    key!("id", Required, Text(NewPoint)),
    key!("parent", Optional, Text(ZoneName)),
    key!("routing", Required, Text(RoutingWord)),
];

static HOST_KEYS: [Key<&'static str>; 6] = [
    key!("id", Required, Text(NewPoint)),
    key!("zone", Required, Text(ZoneName)),
    key!("speed", Required, Text(PositiveValue(Speed))),
    key!("core", Optional, Whole(1, 1024)),
    key!("power", Optional, Powers),
    key!("power_off", Optional, Whole(0, 1_000_000_000)),
];

static ROUTER_KEYS: [Key<&'static str>; 2] = [
    key!("id", Required, Text(NewPoint)),
    key!("zone", Required, Text(ZoneName)),
];

static LINK_KEYS: [Key<&'static str>; 4] = [
    key!("id", Required, Text(NewLink)),
    key!("bandwidth", Required, Text(PositiveValue(Bandwidth))),
    key!("latency", Optional, Text(AnyValue(Latency))),
    key!("sharing_policy", Optional, Text(PolicyWord)),
];

static ROUTE_KEYS: [Key<&'static str>; 4] = [
    key!("src", Required, Text(PointName)),
    key!("dst", Required, Text(RouteEnd)),
    key!("links", Required, Texts(LinkList)),
    key!("symmetrical", Optional, Truth),
];

static ZONE_ROUTE_KEYS: [Key<&'static str>; 6] = [
    key!("src", Required, Text(EndName)),
    key!("dst", Required, Text(ZoneRouteEnd)),
    key!("gw_src", IfZone("src"), Text(PointName)),
    key!("gw_dst", IfZone("dst"), Text(PointName)),
    key!("links", Required, Texts(LinkList)),
    key!("symmetrical", Optional, Truth),
];

static SPOKE_KEYS: [Key<&'static str>; 5] = [
    key!("zone", Required, Text(ZoneName)),
    key!("child", Required, Text(SpokeChild)),
    key!("gateway", IfZone("child"), Text(PointName)),
    key!("up", Required, Texts(LinkList)),
    key!("down", Optional, Texts(LinkList)),
];

static NETWORK_KEYS: [Key<&'static str>; 3] = [
    key!("latency_factor", Optional, Text(AnyValue(Factor))),
    key!("bandwidth_factor", Optional, Text(PositiveValue(Factor))),
    key!("window", Optional, Text(AnyValue(Amount))),
];

static PROFILE_KEYS: [Key<&'static str>; 5] = [
    key!("host", Unless("link"), Text(ProfiledHost)),
    key!("link", Optional, Text(ProfiledLink)),
    key!("dates", Required, Texts(DateList)),
    key!("values", Required, Texts(ValueList)),
    key!("loop", Optional, Text(PositiveValue(Time))),
];

static STATE_PROFILE_KEYS: [Key<&'static str>; 5] = [
    key!("host", Unless("link"), Text(SwitchedHost)),
    key!("link", Optional, Text(SwitchedLink)),
    key!("dates", Required, Texts(DateList)),
    key!("states", Required, Texts(StateList)),
    key!("loop", Optional, Text(PositiveValue(Time))),
];

static ACTOR_KEYS: [Key<&'static str>; 5] = [
    key!("name", Required, Text(NewActor)),
    key!("host", Required, Text(HostName)),
    key!("function", Required, Text(FunctionWord)),
    key!("argument", Optional, Texts(ArgumentList)),
    key!("start", Optional, Truth),
];

static MUTEX_KEYS: [Key<&'static str>; 1] = [key!("id", Required, Text(NewMutex))];

static SEMAPHORE_KEYS: [Key<&'static str>; 2] = [
    key!("id", Required, Text(NewSemaphore)),
    key!("capacity", Required, Whole(0, 1_000_000_000)),
];

impl Table {
    /// Returns the table as a text writes it.
    pub fn text(self) -> &'static str
        ensures { result.now ≡ (heading self).name }
    {
        match self {
            Table::Zone => "zone",
            Table::Host => "host",
            Table::Router => "router",
            Table::Link => "link",
            Table::Route => "route",
            Table::ZoneRoute => "zone_route",
            Table::Spoke => "spoke",
            Table::Network => "network",
            Table::Profile => "profile",
            Table::StateProfile => "state_profile",
            Table::Actor => "actor",
            Table::Mutex => "mutex",
            Table::Semaphore => "semaphore",
        }
    }

    /// Returns how many rows it may have.
    pub fn row_limit(self) -> usize
        ensures { result ≡ (heading self).limit }
    {
        match self {
            Table::Network => 1,
            Table::Zone => 1024,
            Table::Profile | Table::StateProfile => 4096,
            Table::Host | Table::Router => 16384,
            Table::Spoke => 32768,
            Table::Link | Table::Actor | Table::Mutex | Table::Semaphore => 65536,
            Table::Route | Table::ZoneRoute => 262144,
        }
    }

    /// Its keys, in order.
    pub fn keys(self) -> &'static [Key<&'static str>]
        ensures { map key_of result.now ≡ keys_of self }
    {
        match self {
            Table::Zone => &ZONE_KEYS,
            Table::Host => &HOST_KEYS,
            Table::Router => &ROUTER_KEYS,
            Table::Link => &LINK_KEYS,
            Table::Route => &ROUTE_KEYS,
            Table::ZoneRoute => &ZONE_ROUTE_KEYS,
            Table::Spoke => &SPOKE_KEYS,
            Table::Network => &NETWORK_KEYS,
            Table::Profile => &PROFILE_KEYS,
            Table::StateProfile => &STATE_PROFILE_KEYS,
            Table::Actor => &ACTOR_KEYS,
            Table::Mutex => &MUTEX_KEYS,
            Table::Semaphore => &SEMAPHORE_KEYS,
        }
    }
}
