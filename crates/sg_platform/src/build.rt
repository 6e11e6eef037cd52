//! Makes rows of a tree that has no fault.
ghost use Rattle.std.specs.Prelude.{◌≡◌, ◌∷◌, [], List, IfOk, codes, false, map, option_and_then, unwrap_or};
ghost use Rattle.std.specs.Option.{option_map_or};
ghost use Rattle.std.specs.HashMap.{get_by_text};
ghost use Rattle.sg_platform.specs.Build.{actor_row, amounts_at, child_of, gateway, host_row, link_id, link_row, links_at, mutex_row, network_row, point_id, policy_of, host_power, profile_row, route_row, router_row, routing_of, semaphore_row, spoke_row, state_profile_row, subject_of, value_at, whole_at, zone_id, zone_route_row, zone_row};
ghost use Rattle.sg_platform_rows.specs.Ends.{way_back};
ghost use Rattle.sg_platform_rows.specs.Network.{plain_network};
ghost use Rattle.sg_platform_rows.specs.declared.ends.LinkEnd.{LinkEnd};
ghost use Rattle.sg_toml_rules.specs.Profiles.{items_at, state_in};
ghost use Rattle.sg_toml_tree.specs.Names.{Known};
ghost use Rattle.sg_toml_keys.specs.Units.{quantity_value};
ghost use Rattle.sg_toml_keys.specs.declared.units.Quantity.TheVariants as quantity;
ghost use Rattle.sg_toml_tree.specs.kept.NamesView.{names_view};
ghost use Rattle.sg_toml_tree.specs.Along.{first};
ghost use Rattle.sg_toml_tree.specs.Tree.{rows_at, text_at};
ghost use Rattle.sg_toml_tree.specs.kept.Rows.{KeepsBut};
ghost use Rattle.toml.specs.Data.{Data, get};
ghost use Rattle.toml.specs.View.{table_view, view};

use crate::functions::function_of;
use indexmap::IndexMap;
use sg_base::{Child, LinkId, Links, Memory, PointId, Text, ZoneId};
use sg_platform_rows::{
    ActorRow, HostRow, LinkEnd, LinkRow, MutexRow, Network, Numbers, Policy, Power, ProfileRow,
    Profiled, RouteRow, RouterRow, Routing, SemaphoreRow, SpokeRow, StateProfileRow, States,
    ZoneRouteRow, ZoneRow, way_back,
};
use sg_toml_keys::{Quantity, whole_value};
use sg_toml_rules::{amount_in, items_at, powers_in, quantity_of, state_in, text_of};
use sg_toml_tree::{Names, is_symmetrical, take_rows, text_at, text_or_empty, truth_at};
use std::alloc::Global;
use toml::{Table, Value};

fn number_of(space: &IndexMap<String, u32>, name: &str) -> u32
    ensures { result ≡ unwrap_or (get_by_text space.now name.now) 0 }
{
    match space.get(name) {
        Some(number) => *number,
        None => 0,
    }
}

fn zone_id(names: &Names, name: &str) -> ZoneId
    ensures { result ≡ zone_id (names_view names.now) name.now }
{
    ZoneId(number_of(&names.points, name))
}

fn point_id(names: &Names, name: &str) -> PointId
    ensures { result ≡ point_id (names_view names.now) name.now }
{
    let number = number_of(&names.points, name);
    PointId(number.saturating_sub(names.zones))
}

fn routing_of(text: &str) -> Routing
    ensures { result ≡ routing_of text.now }
{
    match text {
        "Star" => Routing::Star,
        "Dijkstra" => Routing::Dijkstra,
        _ => Routing::Full,
    }
}

fn core_count(row: &Value) -> u32
    ensures { result ≡ whole_at 1 1024 1 (codes "core") (view row.now) }
{
    match row.get("core") {
        Some(value) => match value.as_integer() {
            Some(count) => {
                if count >= 1 && count <= 1024 {
                    count as u32
                } else {
                    1
                }
            }
            None => 1,
        },
        None => 1,
    }
}

/// Returns the whole number at a key, if it is from the least to the greatest, or this default.
fn whole_at(least: u64, greatest: u64, default: u64, row: &Value, key: &str) -> u64
    ensures { result ≡ whole_at least greatest default key.now (view row.now) }
{
    match row.get(key) {
        Some(value) => match value.as_integer() {
            Some(number) => whole_value(least, greatest, number).unwrap_or(default),
            None => default,
        },
        None => default,
    }
}

/// Returns the amount at a key, or this default.
fn value_at(quantity: Quantity, default: u64, row: &Value, key: &str) -> u64
    ensures { result ≡ value_at quantity default key.now (view row.now) }
{
    match text_at(row, key) {
        Some(text) => quantity.value(text.as_bytes()).unwrap_or(default),
        None => default,
    }
}

/// Returns what a host draws, if the row says it.
fn power_of(row: &Value) -> Option<Power>
    ensures { result ≡ host_power (view row.now) }
{
    let off = whole_at(0, 1_000_000_000, 0, row, "power_off");
    let powers = powers_in(items_at(row, "power"))?;
    Some(Power {
        idle: powers.idle,
        epsilon: powers.epsilon,
        all: powers.all,
        off,
    })
}

fn link_id(names: &Names, name: &str) -> LinkId
    ensures { result ≡ link_id (names_view names.now) name.now }
{
    LinkId(number_of(&names.links, name))
}

fn child_of(names: &Names, name: &str) -> Child
    ensures { result ≡ child_of (names_view names.now) name.now }
{
    let number = number_of(&names.points, name);
    if number < names.zones {
        Child::Zone(ZoneId(number))
    } else {
        Child::Point(PointId(number.saturating_sub(names.zones)))
    }
}

/// Returns the point that a key names; if it is absent, the end is its own gateway.
fn gateway(names: &Names, row: &Value, key: &str, end: &str) -> PointId
    ensures { result ≡ gateway (names_view names.now) (view row.now) key.now end.now }
{
    match text_at(row, key) {
        Some(name) => point_id(names, name),
        None => point_id(names, text_or_empty(row, end)),
    }
}

fn policy_of(text: &str) -> Policy
    ensures { result ≡ policy_of text.now }
{
    if text == "SPLITDUPLEX" {
        Policy::SplitDuplex
    } else if text == "FATPIPE" {
        Policy::Fatpipe
    } else {
        Policy::Shared
    }
}

/// Returns the links that a list at a key names.
fn links_at(alloc: Global, names: &Names, row: &Value, key: &str) -> Result<Links, Memory>
    ensures { IfOk result
        (λ links. links ≡ links_at (names_view names.now) key.now (view row.now)) }
{
    let items = items_at(row, key);
    let mut made = Vec::with_capacity(alloc, items.len())?;
    for item in items {
        made.push(link_id(names, text_of(item)))?;
    }
    Ok(Links::from_vec(made))
}

/// Returns the amounts that the items of the array at a key give.
fn amounts_at(alloc: Global, quantity: Quantity, row: &Value, key: &str) -> Result<Numbers, Memory>
    ensures { IfOk result (λ amounts. amounts ≡ amounts_at quantity key.now (view row.now)) }
{
    let items = items_at(row, key);
    let mut made = Vec::new(alloc);
    for item in items {
        made.push(amount_in(quantity, item).unwrap_or(0))?;
    }
    Ok(Numbers::from_vec(made))
}

/// Returns the states that the items of the array at a key give.
fn states_at(alloc: Global, row: &Value, key: &str) -> Result<States, Memory>
    ensures { IfOk result (λ states. states
        ≡ map (λ item. unwrap_or (state_in item) false) (items_at key.now (view row.now))) }
{
    let items = items_at(row, key);
    let mut made = Vec::new(alloc);
    for item in items {
        made.push(state_in(item).unwrap_or(false))?;
    }
    Ok(States::from_vec(made))
}

fn subject_of(names: &Names, row: &Value) -> Profiled
    ensures { result ≡ subject_of (names_view names.now) (view row.now) }
{
    match text_at(row, "host") {
        Some(host) => Profiled::Host(point_id(names, host)),
        None => Profiled::Link(link_id(names, text_or_empty(row, "link"))),
    }
}

/// Returns how long after its last date a profile begins anew, if it does.
fn gap_of(row: &Value) -> Option<u64>
    ensures { result
        ≡ option_and_then (quantity_value quantity.Time)
        (text_at (codes "loop") (view row.now)) }
{
    Quantity::Time.value(text_at(row, "loop")?.as_bytes())
}

/// Returns the links down to a child: by default the reverse of those up.
fn down_links(
    alloc: Global,
    names: &Names,
    ends: &[LinkEnd],
    row: &Value,
    up: &[LinkId],
) -> Result<Links, Memory>
    ensures { IfOk result
        (λ links. links
        ≡ option_map_or (λ d. links_at (names_view names.now) (codes "down") (view row.now))
        (get (codes "down") (view row.now)) (way_back ends.now up.now)) }
{
    match row.get("down") {
        Some(_) => links_at(alloc, names, row, "down"),
        None => way_back(alloc, ends, up),
    }
}

#[tactic(auto, unfolding(crate::specs::Build::network_row))]
fn network_row(row: &Value) -> Network
    ensures { result ≡ network_row (view row.now) }
{
    Network {
        latency_factor: value_at(Quantity::Factor, 1_000_000, row, "latency_factor"),
        bandwidth_factor: value_at(Quantity::Factor, 1_000_000, row, "bandwidth_factor"),
        window: value_at(Quantity::Amount, 0, row, "window"),
    }
}

/// Returns the network of the one row that there may be.
pub fn network_of(rows: &[Value]) -> Network
    ensures { result ≡ option_map_or network_row (first (map view rows.now)) plain_network }
{
    match rows {
        [row, ..] => network_row(row),
        [] => Network::plain(),
    }
}

/// A row that a row of a tree gives, by the names of the whole tree and the ends of its links.
pub trait Row: Sized {
    ghost row_of: { Known → List LinkEnd → Data → Self };

    fn read(alloc: Global, names: &Names, ends: &[LinkEnd], row: &Value) -> Result<Self, Memory>
        ensures { IfOk result
            (λ made. made ≡ row_of (names_view names.now) ends.now (view row.now)) };
}

/// Reads rows of a tree; each of them is dropped once it is read.
fn read_rows<R: Row + Drop>(
    alloc: Global,
    names: &Names,
    ends: &[LinkEnd],
    rows: Vec<Value>,
) -> Result<Vec<R>, Memory>
    ensures { IfOk result
        (λ made. made.items
        ≡ map (R.row_of (names_view names.now) ends.now) (map view rows.items)) }
{
    // All room at once: a list that grows amid the pieces that rows leave has the allocator look through them.
    let mut made = Vec::with_capacity(alloc, rows.len())?;
    for row in rows {
        made.push(R::read(alloc, names, ends, &row)?)?;
    }
    Ok(made)
}

/// Returns the rows of a table, which is taken out of the tree.
pub fn read_table<R: Row + Drop>(
    alloc: Global,
    names: &Names,
    ends: &[LinkEnd],
    tree: &mut Table,
    name: &str,
) -> Result<Vec<R>, Memory>
    ensures rows { IfOk result
        (λ made. made.items
        ≡ map (R.row_of (names_view names.now) ends.now)
        (rows_at name.now (table_view tree.old))) }
    ensures others { KeepsBut (name.now ∷ []) (table_view tree.old) (table_view tree.new) }
{
    let rows = take_rows(alloc, tree, name);
    read_rows::<R>(alloc, names, ends, rows)
}

impl Row for ZoneRow {
    ghost row_of = { λ names _ row. zone_row names row };

    #[tactic(auto, unfolding(crate::specs::Build::zone_row))]
    fn read(
        alloc: Global,
        names: &Names,
        _ends: &[LinkEnd],
        row: &Value,
    ) -> Result<ZoneRow, Memory> {
        let id = Text::new(alloc, text_or_empty(row, "id"))?;
        let parent = text_at(row, "parent").map(|name| zone_id(names, name));
        let routing = routing_of(text_or_empty(row, "routing"));
        Ok(ZoneRow {
            id,
            parent,
            routing,
        })
    }
}

impl Row for HostRow {
    ghost row_of = { λ names _ row. host_row names row };

    #[tactic(auto, unfolding(crate::specs::Build::host_row))]
    fn read(
        alloc: Global,
        names: &Names,
        _ends: &[LinkEnd],
        row: &Value,
    ) -> Result<HostRow, Memory> {
        let id = Text::new(alloc, text_or_empty(row, "id"))?;
        let zone = zone_id(names, text_or_empty(row, "zone"));
        let speed = value_at(Quantity::Speed, 0, row, "speed");
        let cores = core_count(row);
        Ok(HostRow {
            id,
            zone,
            speed,
            cores,
            power: power_of(row),
        })
    }
}

impl Row for RouterRow {
    ghost row_of = { λ names _ row. router_row names row };

    #[tactic(auto, unfolding(crate::specs::Build::router_row))]
    fn read(
        alloc: Global,
        names: &Names,
        _ends: &[LinkEnd],
        row: &Value,
    ) -> Result<RouterRow, Memory> {
        let id = Text::new(alloc, text_or_empty(row, "id"))?;
        let zone = zone_id(names, text_or_empty(row, "zone"));
        Ok(RouterRow { id, zone })
    }
}

impl Row for LinkRow {
    ghost row_of = { λ _ _ row. link_row row };

    #[tactic(auto, unfolding(crate::specs::Build::link_row))]
    fn read(
        alloc: Global,
        _names: &Names,
        _ends: &[LinkEnd],
        row: &Value,
    ) -> Result<LinkRow, Memory> {
        let id = Text::new(alloc, text_or_empty(row, "id"))?;
        let bandwidth = value_at(Quantity::Bandwidth, 0, row, "bandwidth");
        let latency = value_at(Quantity::Latency, 0, row, "latency");
        let policy = policy_of(text_or_empty(row, "sharing_policy"));
        Ok(LinkRow {
            id,
            bandwidth,
            latency,
            policy,
        })
    }
}

impl Row for RouteRow {
    ghost row_of = { λ names _ row. route_row names row };

    #[tactic(auto, unfolding(crate::specs::Build::route_row))]
    fn read(
        alloc: Global,
        names: &Names,
        _ends: &[LinkEnd],
        row: &Value,
    ) -> Result<RouteRow, Memory> {
        let src = point_id(names, text_or_empty(row, "src"));
        let dst = point_id(names, text_or_empty(row, "dst"));
        let links = links_at(alloc, names, row, "links")?;
        Ok(RouteRow {
            src,
            dst,
            links,
            symmetrical: is_symmetrical(row),
        })
    }
}

impl Row for ZoneRouteRow {
    ghost row_of = { λ names _ row. zone_route_row names row };

    #[tactic(auto, unfolding(crate::specs::Build::zone_route_row))]
    fn read(
        alloc: Global,
        names: &Names,
        _ends: &[LinkEnd],
        row: &Value,
    ) -> Result<ZoneRouteRow, Memory> {
        let src = child_of(names, text_or_empty(row, "src"));
        let dst = child_of(names, text_or_empty(row, "dst"));
        let gw_src = gateway(names, row, "gw_src", "src");
        let gw_dst = gateway(names, row, "gw_dst", "dst");
        let links = links_at(alloc, names, row, "links")?;
        Ok(ZoneRouteRow {
            src,
            dst,
            gw_src,
            gw_dst,
            links,
            symmetrical: is_symmetrical(row),
        })
    }
}

impl Row for SpokeRow {
    ghost row_of = { λ names ends row. spoke_row names ends row };

    #[tactic(auto, unfolding(crate::specs::Build::spoke_row))]
    fn read(
        alloc: Global,
        names: &Names,
        ends: &[LinkEnd],
        row: &Value,
    ) -> Result<SpokeRow, Memory> {
        let zone = zone_id(names, text_or_empty(row, "zone"));
        let child = child_of(names, text_or_empty(row, "child"));
        let gateway = gateway(names, row, "gateway", "child");
        let up = links_at(alloc, names, row, "up")?;
        let down = down_links(alloc, names, ends, row, up.as_slice())?;
        Ok(SpokeRow {
            zone,
            child,
            gateway,
            up,
            down,
        })
    }
}

impl Row for ProfileRow {
    ghost row_of = { λ names _ row. profile_row names row };

    #[tactic(auto, unfolding(crate::specs::Build::profile_row))]
    fn read(
        alloc: Global,
        names: &Names,
        _ends: &[LinkEnd],
        row: &Value,
    ) -> Result<ProfileRow, Memory> {
        let of = subject_of(names, row);
        let dates = amounts_at(alloc, Quantity::Time, row, "dates")?;
        let values = amounts_at(alloc, quantity_of(row), row, "values")?;
        Ok(ProfileRow {
            of,
            dates,
            values,
            gap: gap_of(row),
        })
    }
}

impl Row for StateProfileRow {
    ghost row_of = { λ names _ row. state_profile_row names row };

    #[tactic(auto, unfolding(crate::specs::Build::state_profile_row))]
    fn read(
        alloc: Global,
        names: &Names,
        _ends: &[LinkEnd],
        row: &Value,
    ) -> Result<StateProfileRow, Memory> {
        let of = subject_of(names, row);
        let dates = amounts_at(alloc, Quantity::Time, row, "dates")?;
        let states = states_at(alloc, row, "states")?;
        Ok(StateProfileRow {
            of,
            dates,
            states,
            gap: gap_of(row),
        })
    }
}

impl Row for ActorRow {
    ghost row_of = { λ names _ row. actor_row names row };

    #[tactic(auto, unfolding(crate::specs::Build::actor_row))]
    fn read(
        alloc: Global,
        names: &Names,
        _ends: &[LinkEnd],
        row: &Value,
    ) -> Result<ActorRow, Memory> {
        let name = Text::new(alloc, text_or_empty(row, "name"))?;
        let host = point_id(names, text_or_empty(row, "host"));
        let function = function_of(alloc, names, row)?;
        Ok(ActorRow {
            name,
            host,
            function,
            start: truth_at(row, "start"),
        })
    }
}

impl Row for MutexRow {
    ghost row_of = { λ _ _ row. mutex_row row };

    #[tactic(auto, unfolding(crate::specs::Build::mutex_row))]
    fn read(
        alloc: Global,
        _names: &Names,
        _ends: &[LinkEnd],
        row: &Value,
    ) -> Result<MutexRow, Memory> {
        let id = Text::new(alloc, text_or_empty(row, "id"))?;
        Ok(MutexRow { id })
    }
}

impl Row for SemaphoreRow {
    ghost row_of = { λ _ _ row. semaphore_row row };

    #[tactic(auto, unfolding(crate::specs::Build::semaphore_row))]
    fn read(
        alloc: Global,
        _names: &Names,
        _ends: &[LinkEnd],
        row: &Value,
    ) -> Result<SemaphoreRow, Memory> {
        let id = Text::new(alloc, text_or_empty(row, "id"))?;
        Ok(SemaphoreRow {
            id,
            capacity: whole_at(0, 1_000_000_000, 0, row, "capacity"),
        })
    }
}
