//! Reads platforms.
ghost use Rattle.std.specs.Prelude.{◌≡◌, ◌≢◌, ◌≤◌, ◌∷◌, [], Err, IfErr, IfOk, OnOk, Some, codes, length, map};
ghost use Rattle.std.specs.Result.{result_map_both};
ghost use Rattle.sg_platform_rows.specs.Platform.{IsPlatform, rows_view};
ghost use Rattle.sg_platform_rows.specs.Ends.{link_ends};
ghost use Rattle.sg_platform.specs.Build.{host_row, profile_row, route_row, router_row, spoke_row, state_profile_row, zone_route_row, zone_row};
ghost use Rattle.sg_platform.specs.BrokenRules.{platform_rule};
ghost use Rattle.sg_platform.specs.PlatformOf.{links_of, platform_of, platform_rows, tree_by};
ghost use Rattle.sg_platform.specs.declared.platform.PlatformFault.TheVariants.{Memory};
ghost use Rattle.sg_toml_tree.specs.Names.{platform_known};
ghost use Rattle.sg_toml_rules.specs.PlatformKinds.{IsPlatformFault};
ghost use Rattle.sg_toml_keys.specs.Tables.{platform_tables};
ghost use Rattle.sg_toml_tree.specs.kept.NamesView.{names_view};
ghost use Rattle.sg_toml_tree.specs.Tree.{rows_at};
ghost use Rattle.sg_toml_tree.specs.kept.Rows.{KeepsBut};
ghost use Rattle.toml.specs.View.{table_view};

use crate::build::{network_of, read_table};
use sg_platform_rows::{
    HostRow, LinkEnd, LinkRow, PlatformRows, PlatformText, ProfileRow, RouteRow, RouterRow,
    SpokeRow, StateProfileRow, ZoneRouteRow, ZoneRow, link_ends,
};
use sg_toml_keys::PLATFORM;
use sg_toml_rules::first_fault;
use sg_toml_tree::{Fault, Kind, Names, NoTree, Place, platform_names, read_tree, rows_at};
use std::alloc::Global;
use std::mem;
use thiserror::Error;

/// Why a text is no platform.
#[derive(Debug, Drop, Error)]
pub enum PlatformFault {
    #[error("not TOML")]
    BadToml,
    #[error("{words}", words = Kind::MissingKey.words())]
    MissingKey(Place),
    #[error("{words}", words = Kind::WrongType.words())]
    WrongType(Place),
    #[error("{words}", words = Kind::BadValue.words())]
    BadValue(Place),
    #[error("{words}", words = Kind::BadName.words())]
    BadName(Place),
    #[error("{words}", words = Kind::Duplicate.words())]
    Duplicate(Place),
    #[error("{words}", words = Kind::Unknown.words())]
    Unknown(Place),
    #[error("{words}", words = Kind::Limit.words())]
    Limit(Place),
    #[error("out of memory")]
    Memory,
}

impl From<sg_base::Memory> for PlatformFault {
    ghost from_gives = { λ _ e. e ≡ Memory };

    fn from(_: sg_base::Memory) -> PlatformFault {
        PlatformFault::Memory
    }
}

impl PlatformFault {
    /// Returns the rule that the text breaks, if it breaks one.
    pub fn rule(&self) -> Option<Fault>
        ensures { result ≡ platform_rule self.now }
    {
        let (kind, place) = match self {
            PlatformFault::BadToml | PlatformFault::Memory => return None,
            PlatformFault::MissingKey(place) => (Kind::MissingKey, *place),
            PlatformFault::WrongType(place) => (Kind::WrongType, *place),
            PlatformFault::BadValue(place) => (Kind::BadValue, *place),
            PlatformFault::BadName(place) => (Kind::BadName, *place),
            PlatformFault::Duplicate(place) => (Kind::Duplicate, *place),
            PlatformFault::Unknown(place) => (Kind::Unknown, *place),
            PlatformFault::Limit(place) => (Kind::Limit, *place),
        };
        Some(Fault { place, kind })
    }
}

fn fault_of(fault: Fault) -> PlatformFault
    requires { IsPlatformFault fault }
    ensures { platform_rule result ≡ Some fault }
{
    let place = fault.place;
    match fault.kind {
        Kind::MissingKey => PlatformFault::MissingKey(place),
        Kind::WrongType => PlatformFault::WrongType(place),
        Kind::BadName => PlatformFault::BadName(place),
        Kind::Duplicate => PlatformFault::Duplicate(place),
        Kind::Unknown => PlatformFault::Unknown(place),
        Kind::Limit => PlatformFault::Limit(place),
        // The rules of actors are no rules of platforms.
        Kind::BadValue | Kind::Function | Kind::Arguments => PlatformFault::BadValue(place),
    }
}

// The rows are read in parts: a function that holds many lists while a call may still fail is dear to prove.

/// The rows of zones, hosts and routers.
#[derive(Drop)]
struct Places {
    zones: Vec<ZoneRow>,
    hosts: Vec<HostRow>,
    routers: Vec<RouterRow>,
}

fn read_places(
    alloc: Global,
    names: &Names,
    tree: &mut toml::Table,
) -> Result<Places, sg_base::Memory>
    ensures zones { IfOk result
        (λ made. made.zones.items
        ≡ map (zone_row (names_view names.now)) (rows_at (codes "zone") (table_view tree.old))) }
    ensures hosts { IfOk result
        (λ made. made.hosts.items
        ≡ map (host_row (names_view names.now)) (rows_at (codes "host") (table_view tree.old))) }
    ensures routers { IfOk result
        (λ made. made.routers.items
        ≡ map (router_row (names_view names.now))
        (rows_at (codes "router") (table_view tree.old))) }
    ensures others { OnOk result
        (KeepsBut (codes "zone" ∷ codes "host" ∷ codes "router" ∷ [])
        (table_view tree.old) (table_view tree.new)) }
{
    let zones = read_table::<ZoneRow>(alloc, names, &[], tree, "zone")?;
    let hosts = read_table::<HostRow>(alloc, names, &[], tree, "host")?;
    let routers = read_table::<RouterRow>(alloc, names, &[], tree, "router")?;
    Ok(Places {
        zones,
        hosts,
        routers,
    })
}

/// The rows of routes, zone routes and spokes.
#[derive(Drop)]
struct Routes {
    routes: Vec<RouteRow>,
    zone_routes: Vec<ZoneRouteRow>,
    spokes: Vec<SpokeRow>,
}

fn read_routes(
    alloc: Global,
    names: &Names,
    ends: &[LinkEnd],
    tree: &mut toml::Table,
) -> Result<Routes, sg_base::Memory>
    ensures routes { IfOk result
        (λ made. made.routes.items
        ≡ map (route_row (names_view names.now)) (rows_at (codes "route") (table_view tree.old))) }
    ensures zone_routes { IfOk result
        (λ made. made.zone_routes.items
        ≡ map (zone_route_row (names_view names.now))
        (rows_at (codes "zone_route") (table_view tree.old))) }
    ensures spokes { IfOk result
        (λ made. made.spokes.items
        ≡ map (spoke_row (names_view names.now) ends.now)
        (rows_at (codes "spoke") (table_view tree.old))) }
    ensures others { OnOk result
        (KeepsBut (codes "route" ∷ codes "zone_route" ∷ codes "spoke" ∷ [])
        (table_view tree.old) (table_view tree.new)) }
{
    let routes = read_table::<RouteRow>(alloc, names, &[], tree, "route")?;
    let zone_routes = read_table::<ZoneRouteRow>(alloc, names, &[], tree, "zone_route")?;
    let spokes = read_table::<SpokeRow>(alloc, names, ends, tree, "spoke")?;
    Ok(Routes {
        routes,
        zone_routes,
        spokes,
    })
}

/// Returns the rows of links, and those of routes over them.
fn read_ways(
    alloc: Global,
    names: &Names,
    tree: &mut toml::Table,
) -> Result<(Vec<LinkRow>, Routes), sg_base::Memory>
    requires { length (links_of (table_view tree.old)) ≤ 65536 }
    ensures links { IfOk result (λ made. made.0.items ≡ links_of (table_view tree.old)) }
    ensures routes { IfOk result (λ made. made.1.routes.items
        ≡ map (route_row (names_view names.now)) (rows_at (codes "route") (table_view tree.old))) }
    ensures zone_routes { IfOk result
        (λ made. made.1.zone_routes.items
        ≡ map (zone_route_row (names_view names.now))
        (rows_at (codes "zone_route") (table_view tree.old))) }
    ensures spokes { IfOk result
        (λ made. made.1.spokes.items
        ≡ map (spoke_row (names_view names.now) (link_ends made.0.items))
        (rows_at (codes "spoke") (table_view tree.old))) }
    ensures others { OnOk result
        (KeepsBut (codes "link" ∷ codes "route" ∷ codes "zone_route" ∷ codes "spoke" ∷ [])
        (table_view tree.old) (table_view tree.new)) }
{
    let links = read_table::<LinkRow>(alloc, names, &[], tree, "link")?;
    let ends = link_ends(alloc, links.as_slice())?;
    let routes = read_routes(alloc, names, ends.as_slice(), tree)?;
    Ok((links, routes))
}

/// The rows of profiles and of state profiles.
#[derive(Drop)]
struct Profiles {
    profiles: Vec<ProfileRow>,
    state_profiles: Vec<StateProfileRow>,
}

fn read_profiles(
    alloc: Global,
    names: &Names,
    tree: &mut toml::Table,
) -> Result<Profiles, sg_base::Memory>
    ensures profiles { IfOk result
        (λ made. made.profiles.items
        ≡ map (profile_row (names_view names.now))
        (rows_at (codes "profile") (table_view tree.old))) }
    ensures state_profiles { IfOk result
        (λ made. made.state_profiles.items
        ≡ map (state_profile_row (names_view names.now))
        (rows_at (codes "state_profile") (table_view tree.old))) }
{
    let profiles = read_table::<ProfileRow>(alloc, names, &[], tree, "profile")?;
    let state_profiles = read_table::<StateProfileRow>(alloc, names, &[], tree, "state_profile")?;
    Ok(Profiles {
        profiles,
        state_profiles,
    })
}

/// Returns the rows of a tree, all of whose tables are taken out of it.
fn read_all(
    alloc: Global,
    names: &Names,
    tree: &mut toml::Table,
) -> Result<PlatformRows, sg_base::Memory>
    requires { length (links_of (table_view tree.old)) ≤ 65536 }
    ensures { IfOk result
        (λ rows. rows_view rows ≡ platform_rows (names_view names.now) (table_view tree.old)) }
{
    let network = network_of(rows_at(tree, "network"));
    let places = read_places(alloc, names, tree)?;
    let ways = read_ways(alloc, names, tree)?;
    let profiles = read_profiles(alloc, names, tree)?;
    Ok(PlatformRows {
        zones: places.zones,
        hosts: places.hosts,
        routers: places.routers,
        links: ways.0,
        routes: ways.1.routes,
        zone_routes: ways.1.zone_routes,
        spokes: ways.1.spokes,
        network,
        profiles: profiles.profiles,
        state_profiles: profiles.state_profiles,
    })
}

fn rows_of(
    alloc: Global,
    names: &Names,
    tree: &mut toml::Table,
) -> Result<PlatformText, sg_base::Memory>
    requires { IsPlatform (platform_rows (names_view names.now) (table_view tree.old)) }
    ensures { IfOk result (λ p. p ≡ platform_rows (names_view names.now) (table_view tree.old)) }
{
    let rows = read_all(alloc, names, tree)?;
    Ok(PlatformText::with_rows(rows))
}

/// Returns the platform of a tree whose names these are. Its tables are taken out of it.
#[tactic(auto, unfolding(crate::specs::PlatformOf::tree_by))]
fn platform_in(
    alloc: Global,
    names: &Names,
    tree: &mut toml::Table,
) -> Result<PlatformText, PlatformFault>
    requires { names_view names.now ≡ platform_known (table_view tree.old) }
    ensures { result ≢ Err Memory
        → result_map_both (λ p. p) platform_rule result
        ≡ tree_by platform_known platform_tables platform_rows (table_view tree.old) }
{
    match first_fault(alloc, names, &PLATFORM, tree)? {
        Some(fault) => Err(fault_of(fault)),
        None => Ok(rows_of(alloc, names, tree)?),
    }
}

fn tree_platform(alloc: Global, tree: &mut toml::Table) -> Result<PlatformText, PlatformFault>
    ensures { result ≢ Err Memory
        → result_map_both (λ p. p) platform_rule result
        ≡ tree_by platform_known platform_tables platform_rows (table_view tree.old) }
{
    let names = platform_names(alloc, tree)?;
    platform_in(alloc, &names, tree)
}

/// The greatest text that is read, in bytes.
pub const GREATEST_TEXT: usize = 16_777_216;

/// Returns the tree of a text that is not too long.
#[tactic(auto, unfolding(crate::specs::PlatformOf::platform_of))]
fn text_tree(alloc: Global, bytes: &[u8]) -> Result<toml::Table, PlatformFault>
    ensures tree { IfOk result (λ tree. platform_of bytes.now
        ≡ tree_by platform_known platform_tables platform_rows (table_view tree)) }
    ensures fault { IfErr result
        (λ why. why ≢ Memory → Err (platform_rule why) ≡ platform_of bytes.now) }
{
    if bytes.len() > GREATEST_TEXT {
        let place = Place {
            table: 0,
            row: 0,
            key: 0,
        };
        return Err(PlatformFault::Limit(place));
    }
    match read_tree(alloc, bytes) {
        Ok(tree) => Ok(tree),
        Err(NoTree::BadToml) => Err(PlatformFault::BadToml),
        Err(NoTree::Memory) => Err(PlatformFault::Memory),
    }
}

/// Reads a platform.
///
/// # Errors
///
/// The text's fault of least place, and there of least kind, or out of memory.
pub fn read_platform(alloc: Global, bytes: &[u8]) -> Result<PlatformText, PlatformFault>
    ensures { result ≢ Err Memory
        → result_map_both (λ p. p) platform_rule result ≡ platform_of bytes.now }
{
    let mut tree = text_tree(alloc, bytes)?;
    tree_platform(alloc, &mut tree)
}

/// Reads a platform as `read_platform` does, and drops its text as soon as its tree is there.
///
/// # Errors
///
/// Those of `read_platform`.
pub fn take_platform(alloc: Global, text: Vec<u8>) -> Result<PlatformText, PlatformFault>
    ensures { result ≢ Err Memory
        → result_map_both (λ p. p) platform_rule result ≡ platform_of text.items }
{
    let tree = text_tree(alloc, &text);
    mem::drop(text);
    tree_platform(alloc, &mut tree?)
}
