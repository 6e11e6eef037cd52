//! The names that the rows of a tree give.
ghost use Rattle.std.specs.Prelude.{◌≡◌, ◌++◌, IfOk, codes, length, map};
ghost use Rattle.std.specs.HashMap.{get_by, get_by_text};
ghost use Rattle.sg_toml_tree.specs.Names.{known_by, platform_known, point_rows, rows_by};
ghost use Rattle.sg_toml_tree.specs.NameSpaces.{SameNames, SamePairs, pair_eq};
ghost use Rattle.sg_toml_tree.specs.Tree.{rows_at};
ghost use Rattle.sg_toml_tree.specs.kept.NamesView.{names_view};
ghost use Rattle.sg_toml_tree.specs.kept.Parts.{AreActors, AreLinks, AreLocks, ArePoints, AreProfiled, AreRoutes, AreSubjects, pair_rows, parts_view};
ghost use Rattle.toml.specs.View.{view, table_view};

use crate::links::{declared_links, taken_links};
use crate::name_spaces::{add_names, names_at, small_number};
use crate::pairs::pairs_in;
use crate::subjects::Subjects;
use crate::tree::rows_at;
use crate::workers::workers_in;
use indexmap::IndexMap;
use sg_base::Memory;
use std::alloc::Global;
use toml::{Table, Value};

/// What is known of the names of a whole tree: under which number each stands first. Zones, hosts and routers are
/// numbered one after the other.
pub struct Names {
    /// How many rows zones have.
    pub zones: u32,
    /// How many rows hosts have.
    pub hosts: u32,
    pub points: IndexMap<String, u32>,
    /// All names that link rows take, by rows.
    pub taken: IndexMap<String, u32>,
    /// The names by which lists name links, by links.
    pub links: IndexMap<String, u32>,
    /// The ordered pairs of points that route rows give.
    pub pairs: IndexMap<(u32, u32), u32>,
    /// The ordered pairs that zone route rows give.
    pub zone_pairs: IndexMap<(u32, u32), u32>,
    /// The children of spoke rows.
    pub children: IndexMap<String, u32>,
    /// What profile rows are of.
    pub profiles: Subjects,
    /// What rows of states are of.
    pub state_profiles: Subjects,
    pub actors: IndexMap<String, u32>,
    /// The actors of function `worker`, by their identifiers.
    pub workers: IndexMap<String, u32>,
    pub mutexes: IndexMap<String, u32>,
    pub semaphores: IndexMap<String, u32>,
}

// A function of its own, so that a proof in which one is dropped doesn't go into its parts.
impl Drop for Names {
    fn drop(self) {
        let Names {
            zones: _,
            hosts: _,
            points: _,
            taken: _,
            links: _,
            pairs: _,
            zone_pairs: _,
            children: _,
            profiles: _,
            state_profiles: _,
            actors: _,
            workers: _,
            mutexes: _,
            semaphores: _,
        } = self;
    }
}

// The parts of `Names`. They are made apart: a function that holds many maps while a call may still fail is dear to
// prove.

/// The names of zones, hosts and routers.
#[derive(Drop)]
pub struct Points {
    pub zones: u32,
    pub hosts: u32,
    pub numbers: IndexMap<String, u32>,
}

/// The names of links.
#[derive(Drop)]
pub struct Links {
    pub taken: IndexMap<String, u32>,
    pub declared: IndexMap<String, u32>,
}

/// What routes and spokes give.
#[derive(Drop)]
pub struct Routes {
    pub pairs: IndexMap<(u32, u32), u32>,
    pub zone_pairs: IndexMap<(u32, u32), u32>,
    pub children: IndexMap<String, u32>,
}

/// What profiles and rows of states are of.
#[derive(Drop)]
pub struct Profiled {
    pub speeds: Subjects,
    pub states: Subjects,
}

/// The names of actors.
#[derive(Drop)]
pub struct Actors {
    pub actors: IndexMap<String, u32>,
    pub workers: IndexMap<String, u32>,
}

/// The names of mutexes and semaphores.
#[derive(Drop)]
pub struct Locks {
    pub mutexes: IndexMap<String, u32>,
    pub semaphores: IndexMap<String, u32>,
}

/// Puts the parts together.
fn names_of(
    points: Points,
    links: Links,
    routes: Routes,
    profiled: Profiled,
    actors: Actors,
    locks: Locks,
) -> Names
    ensures { names_view result ≡ parts_view points links routes profiled actors locks }
{
    Names {
        zones: points.zones,
        hosts: points.hosts,
        points: points.numbers,
        taken: links.taken,
        links: links.declared,
        pairs: routes.pairs,
        zone_pairs: routes.zone_pairs,
        children: routes.children,
        profiles: profiled.speeds,
        state_profiles: profiled.states,
        actors: actors.actors,
        workers: actors.workers,
        mutexes: locks.mutexes,
        semaphores: locks.semaphores,
    }
}

/// Returns the names at a key of the rows of a table.
fn names_in(
    alloc: Global,
    tree: &Table,
    table: &str,
    key: &str,
) -> Result<IndexMap<String, u32>, Memory>
    ensures { IfOk result
        (λ made. SameNames (get_by_text made)
        (rows_by key.now (rows_at table.now (table_view tree.now)))) }
{
    names_at(alloc, key, rows_at(tree, table))
}

/// Returns how many rows a table has.
fn count_of(tree: &Table, table: &str) -> Result<u32, Memory>
    ensures { IfOk result (λ count. count ≡ length (rows_at table.now (table_view tree.now))) }
{
    small_number(rows_at(tree, table).len())
}

/// Returns the numbers of zones, hosts and routers, from their rows.
fn points_of(
    alloc: Global,
    zones: &[Value],
    hosts: &[Value],
    routers: &[Value],
) -> Result<IndexMap<String, u32>, Memory>
    ensures { IfOk result
        (λ made. SameNames (get_by_text made)
        (rows_by (codes "id") (map view zones.now ++ map view hosts.now ++ map view routers.now))) }
{
    let mut made = names_at(alloc, "id", zones)?;
    add_names(alloc, &mut made, "id", zones.len(), hosts)?;
    add_names(alloc, &mut made, "id", zones.len() + hosts.len(), routers)?;
    Ok(made)
}

/// Returns the numbers of zones, hosts and routers.
fn numbers_in(alloc: Global, tree: &Table) -> Result<IndexMap<String, u32>, Memory>
    ensures { IfOk result
        (λ made. SameNames (get_by_text made)
        (rows_by (codes "id") (point_rows (table_view tree.now)))) }
{
    let zones = rows_at(tree, "zone");
    let hosts = rows_at(tree, "host");
    points_of(alloc, zones, hosts, rows_at(tree, "router"))
}

/// Returns the names of zones, hosts and routers, with the counts of zones and hosts.
fn counted_points(alloc: Global, tree: &Table) -> Result<Points, Memory>
    ensures { IfOk result (ArePoints (table_view tree.now)) }
{
    let zones = count_of(tree, "zone")?;
    let hosts = count_of(tree, "host")?;
    let numbers = numbers_in(alloc, tree)?;
    Ok(Points {
        zones,
        hosts,
        numbers,
    })
}

/// Returns the names that link rows take, and those by which lists name links.
fn links_in(alloc: Global, tree: &Table) -> Result<Links, Memory>
    ensures { IfOk result (AreLinks (table_view tree.now)) }
{
    let rows = rows_at(tree, "link");
    let taken = taken_links(alloc, rows)?;
    let declared = declared_links(alloc, rows)?;
    Ok(Links { taken, declared })
}

/// Returns the pairs that the rows of a table give.
fn pairs_at(
    alloc: Global,
    points: &IndexMap<String, u32>,
    tree: &Table,
    table: &str,
) -> Result<IndexMap<(u32, u32), u32>, Memory>
    ensures { IfOk result
        (λ made. SamePairs (λ q. get_by (pair_eq q) made)
        (pair_rows (λ q. get_by_text points.now q) (rows_at table.now (table_view tree.now)))) }
{
    pairs_in(alloc, points, rows_at(tree, table))
}

/// Returns the pairs that route rows and zone route rows give.
fn route_pairs(
    alloc: Global,
    points: &IndexMap<String, u32>,
    tree: &Table,
) -> Result<(IndexMap<(u32, u32), u32>, IndexMap<(u32, u32), u32>), Memory>
    ensures pairs { IfOk result
        (λ made. SamePairs (λ q. get_by (pair_eq q) made.0)
        (pair_rows (λ q. get_by_text points.now q)
        (rows_at (codes "route") (table_view tree.now)))) }
    ensures zone_pairs { IfOk result
        (λ made. SamePairs (λ q. get_by (pair_eq q) made.1)
        (pair_rows (λ q. get_by_text points.now q)
        (rows_at (codes "zone_route") (table_view tree.now)))) }
{
    let pairs = pairs_at(alloc, points, tree, "route")?;
    let zone_pairs = pairs_at(alloc, points, tree, "zone_route")?;
    Ok((pairs, zone_pairs))
}

/// Returns what routes and spokes give.
fn routes_in(alloc: Global, points: &IndexMap<String, u32>, tree: &Table) -> Result<Routes, Memory>
    ensures { IfOk result (AreRoutes (table_view tree.now) (λ q. get_by_text points.now q)) }
{
    let pairs = route_pairs(alloc, points, tree)?;
    let children = names_in(alloc, tree, "spoke", "child")?;
    Ok(Routes {
        pairs: pairs.0,
        zone_pairs: pairs.1,
        children,
    })
}

/// Returns the hosts and links that the rows of a table are of.
fn subjects_at(alloc: Global, tree: &Table, table: &str) -> Result<Subjects, Memory>
    ensures { IfOk result (AreSubjects (rows_at table.now (table_view tree.now))) }
{
    Subjects::of_rows(alloc, rows_at(tree, table))
}

/// Returns what profiles and rows of states are of.
fn profiled_in(alloc: Global, tree: &Table) -> Result<Profiled, Memory>
    ensures { IfOk result (AreProfiled (table_view tree.now)) }
{
    let speeds = subjects_at(alloc, tree, "profile")?;
    let states = subjects_at(alloc, tree, "state_profile")?;
    Ok(Profiled { speeds, states })
}

/// Returns the names of actors.
fn actors_in(alloc: Global, tree: &Table) -> Result<Actors, Memory>
    ensures { IfOk result (AreActors (table_view tree.now)) }
{
    let actors = names_in(alloc, tree, "actor", "name")?;
    let workers = workers_in(alloc, rows_at(tree, "actor"))?;
    Ok(Actors { actors, workers })
}

/// Returns the names of mutexes and semaphores.
fn locks_in(alloc: Global, tree: &Table) -> Result<Locks, Memory>
    ensures { IfOk result (AreLocks (table_view tree.now)) }
{
    let mutexes = names_in(alloc, tree, "mutex", "id")?;
    let semaphores = names_in(alloc, tree, "semaphore", "id")?;
    Ok(Locks {
        mutexes,
        semaphores,
    })
}

/// Returns the names of links, and what routes between these points give.
fn ways_in(
    alloc: Global,
    points: &IndexMap<String, u32>,
    tree: &Table,
) -> Result<(Links, Routes), Memory>
    ensures links { IfOk result (λ made. AreLinks (table_view tree.now) made.0) }
    ensures routes { IfOk result
        (λ made. AreRoutes (table_view tree.now) (λ q. get_by_text points.now q) made.1) }
{
    let links = links_in(alloc, tree)?;
    let routes = routes_in(alloc, points, tree)?;
    Ok((links, routes))
}

/// Returns the names of actors, and of what they hold.
fn owners_in(alloc: Global, tree: &Table) -> Result<(Actors, Locks), Memory>
    ensures actors { IfOk result (λ made. AreActors (table_view tree.now) made.0) }
    ensures locks { IfOk result (λ made. AreLocks (table_view tree.now) made.1) }
{
    let actors = actors_in(alloc, tree)?;
    let locks = locks_in(alloc, tree)?;
    Ok((actors, locks))
}

/// Returns the names of a text that may name these points.
fn names_with(alloc: Global, tree: &Table, points: Points) -> Result<Names, Memory>
    ensures { IfOk result
        (λ names. names_view names
        ≡ known_by points.zones points.hosts (λ q. get_by_text points.numbers q)
        (table_view tree.now)) }
{
    let ways = ways_in(alloc, &points.numbers, tree)?;
    let profiled = profiled_in(alloc, tree)?;
    let owners = owners_in(alloc, tree)?;
    Ok(names_of(points, ways.0, ways.1, profiled, owners.0, owners.1))
}

/// Returns the names of a platform text.
pub fn platform_names(alloc: Global, tree: &Table) -> Result<Names, Memory>
    ensures { IfOk result (λ names. names_view names ≡ platform_known (table_view tree.now)) }
{
    let points = counted_points(alloc, tree)?;
    names_with(alloc, tree, points)
}

/// Returns the names of a deployment text, on a platform that has so many hosts with these names.
pub fn deployment_names(
    alloc: Global,
    tree: &Table,
    hosts: usize,
    points: IndexMap<String, u32>,
) -> Result<Names, Memory>
    ensures { IfOk result
        (λ names. names_view names
        ≡ known_by 0 hosts (λ q. get_by_text points q) (table_view tree.now)) }
{
    let hosts = small_number(hosts)?;
    let points = Points {
        zones: 0,
        hosts,
        numbers: points,
    };
    names_with(alloc, tree, points)
}
