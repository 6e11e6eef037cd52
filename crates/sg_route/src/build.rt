//! A router from the rows of a platform.
ghost use Rattle.std.specs.Prelude.{◌≡◌, ◌++◌, IfOk, OnOk};
ghost use Rattle.std.specs.List.{flat_map};
ghost use Rattle.sg_route.specs.Local.{local_back, route_local, row_locals, zone_route_local};
ghost use Rattle.sg_route.specs.Roads.{roads_of};
ghost use Rattle.sg_route.specs.PathRoutes.{net_of, path_routes_between, path_routes};
ghost use Rattle.sg_zones.specs.Tree.{zone_tree};

use crate::locals::{Local, Locals, Pair};
use crate::router::Router;
use crate::spokes::Spokes;
use crate::ways::Ways;
use sg_base::{Child, LinkId, Links, Memory};
use sg_paths::{PathRoute, Paths};
use sg_platform_rows::{
    LinkEnd, PlatformText, RouteRow, Routing, SpokeRow, ZoneRouteRow, link_ends, way_back,
};
use sg_zones::Zones;
use std::alloc::Global;

/// Returns a copy of these links.
fn copy_of(alloc: Global, links: &Links) -> Result<Links, Memory>
    ensures { IfOk result (λ copy. copy ≡ links.now) }
{
    Ok(Links::from_vec(Vec::from_slice(alloc, links.as_slice())?))
}

/// Returns the reverse of a local route.
fn local_back(alloc: Global, ends: &[LinkEnd], local: &Local) -> Result<Local, Memory>
    ensures { IfOk result (λ back. back ≡ local_back ends.now local.now) }
{
    Ok(Local {
        pair: Pair {
            from: local.pair.to,
            to: local.pair.from,
        },
        start: local.end,
        end: local.start,
        links: way_back(alloc, ends, local.links.as_slice())?,
    })
}

/// Adds a local route, and its reverse if it is symmetrical.
fn add_declared(
    alloc: Global,
    ends: &[LinkEnd],
    symmetrical: bool,
    local: Local,
    locals: &mut Vec<Local>,
) -> Result<(), Memory>
    ensures { OnOk result
        (locals.new.items ≡ locals.old.items ++ row_locals ends.now symmetrical local) }
{
    if symmetrical {
        let back = local_back(alloc, ends, &local)?;
        locals.push(local)?;
        locals.push(back)?;
        return Ok(());
    }
    locals.push(local)?;
    Ok(())
}

/// Adds what routes between points declare.
fn add_routes(
    alloc: Global,
    ends: &[LinkEnd],
    rows: &[RouteRow],
    locals: &mut Vec<Local>,
) -> Result<(), Memory>
    ensures { OnOk result
        (locals.new.items ≡ locals.old.items
        ++ flat_map (λ row. row_locals ends.now row.symmetrical (route_local row)) rows.now) }
{
    for row in rows {
        let local = Local {
            pair: Pair {
                from: Child::Point(row.src),
                to: Child::Point(row.dst),
            },
            start: row.src,
            end: row.dst,
            links: copy_of(alloc, &row.links)?,
        };
        add_declared(alloc, ends, row.symmetrical, local, locals)?;
    }
    Ok(())
}

/// Adds what routes between zones declare.
fn add_zone_routes(
    alloc: Global,
    ends: &[LinkEnd],
    rows: &[ZoneRouteRow],
    locals: &mut Vec<Local>,
) -> Result<(), Memory>
    ensures { OnOk result
        (locals.new.items ≡ locals.old.items
        ++ flat_map (λ row. row_locals ends.now row.symmetrical (zone_route_local row)) rows.now) }
{
    for row in rows {
        let local = Local {
            pair: Pair {
                from: row.src,
                to: row.dst,
            },
            start: row.gw_src,
            end: row.gw_dst,
            links: copy_of(alloc, &row.links)?,
        };
        add_declared(alloc, ends, row.symmetrical, local, locals)?;
    }
    Ok(())
}

/// Returns all local routes that rows declare.
fn locals_of(
    alloc: Global,
    ends: &[LinkEnd],
    routes: &[RouteRow],
    zone_routes: &[ZoneRouteRow],
) -> Result<Vec<Local>, Memory>
    ensures { IfOk result (λ locals. locals.items
        ≡ flat_map (λ row. row_locals ends.now row.symmetrical (route_local row)) routes.now
        ++ flat_map (λ row. row_locals ends.now row.symmetrical (zone_route_local row))
        zone_routes.now) }
{
    let mut locals = Vec::new(alloc);
    add_routes(alloc, ends, routes, &mut locals)?;
    add_zone_routes(alloc, ends, zone_routes, &mut locals)?;
    Ok(locals)
}

/// Returns a copy of these spokes.
fn copies_of(alloc: Global, rows: &[SpokeRow]) -> Result<Vec<SpokeRow>, Memory>
    ensures { IfOk result (λ copies. copies.items ≡ rows.now) }
{
    let mut copies = Vec::new(alloc);
    for row in rows {
        copies.push(SpokeRow {
            zone: row.zone,
            child: row.child,
            gateway: row.gateway,
            up: copy_of(alloc, &row.up)?,
            down: copy_of(alloc, &row.down)?,
        })?;
    }
    Ok(copies)
}

/// Adds the route between two points of a Dijkstra zone, if this is one.
fn add_steps(
    alloc: Global,
    zones: &Zones,
    local: &Local,
    steps: &mut Vec<PathRoute>,
) -> Result<(), Memory>
    ensures { OnOk result (steps.new.items ≡ steps.old.items
        ++ path_routes_between zones.now local.now.pair.from local.now.pair.to local.now.links) }
{
    let (Child::Point(from), Child::Point(to)) = (local.pair.from, local.pair.to) else {
        return Ok(());
    };
    if let Routing::Dijkstra = zones.routing(zones.home(from)) {
        steps.push(PathRoute {
            from: from.0,
            to: to.0,
            links: copy_of(alloc, &local.links)?,
        })?;
        return Ok(());
    }
    Ok(())
}

/// Returns the routes over which paths go.
fn path_routes(alloc: Global, zones: &Zones, locals: &[Local]) -> Result<Vec<PathRoute>, Memory>
    ensures { IfOk result (λ steps. steps.items ≡ path_routes zones.now locals.now) }
{
    let mut steps = Vec::new(alloc);
    for local in locals {
        add_steps(alloc, zones, local, &mut steps)?;
    }
    Ok(steps)
}

/// Returns the points of a platform, and the routes over which paths go between them.
fn paths_of(
    alloc: Global,
    platform: &PlatformText,
    zones: &Zones,
    rows: &[Local],
) -> Result<Paths, Memory>
    requires zones { zones.now ≡ zone_tree platform.now }
    requires rows { rows.now ≡ (roads_of platform.now).locals }
    ensures { IfOk result (λ paths. paths ≡ net_of (roads_of platform.now)) }
{
    let points = platform.hosts().len() as u32 + platform.routers().len() as u32;
    let steps = path_routes(alloc, zones, rows)?;
    Paths::build(alloc, points, steps.as_slice())
}

/// Returns what a router knows of a platform, with its local routes.
fn ways_of(
    alloc: Global,
    platform: &PlatformText,
    zones: &Zones,
    ends: Vec<LinkEnd>,
    rows: Vec<Local>,
) -> Result<Ways, Memory>
    requires zones { zones.now ≡ zone_tree platform.now }
    requires ends { ends.items ≡ (roads_of platform.now).ends }
    requires rows { rows.items ≡ (roads_of platform.now).locals }
    ensures { IfOk result (λ ways. ways ≡ roads_of platform.now) }
{
    platform.rows_are_valid();
    let copies = copies_of(alloc, platform.spokes())?;
    let loopback = LinkId(ends.len() as u32 - 1);
    let locals = Locals::from_rows(alloc, rows)?;
    let spokes = Spokes::from_rows(alloc, copies)?;
    let zones = zones.copy(alloc)?;
    Ok(Ways {
        zones,
        locals,
        spokes,
        ends,
        loopback,
    })
}

impl Router {
    /// Makes the router of a platform, with the zones that were made from it.
    ///
    /// # Errors
    ///
    /// Out of memory.
    pub fn build(alloc: Global, platform: &PlatformText, zones: &Zones) -> Result<Router, Memory>
        requires { zones.now ≡ zone_tree platform.now }
        ensures { IfOk result (λ router. router ≡ roads_of platform.now) }
    {
        platform.rows_are_valid();
        let ends = link_ends(alloc, platform.links())?;
        let rows = locals_of(
            alloc,
            ends.as_slice(),
            platform.routes(),
            platform.zone_routes(),
        )?;
        let paths = paths_of(alloc, platform, zones, rows.as_slice())?;
        let ways = ways_of(alloc, platform, zones, ends, rows)?;
        Ok(Router { ways, paths })
    }
}
