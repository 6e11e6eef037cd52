//! The trees of shortest paths that earlier searches found.
ghost use Rattle.std.specs.Prelude.{◌≡◌, ◌+◌, ◌<◌, IfOk, IfSome, vec_len};
ghost use Rattle.sg_paths.specs.Crossing.{AreWithin};
ghost use Rattle.sg_paths.specs.Trees.{AreEmpty, AreOnward, GoesOver, MayWrite, StayOnward, TakeTree};

use crate::route::PathRoute;
use crate::trail::Settled;
use sg_base::Memory;
use std::alloc::Global;

/// How many hops are stored at most.
const MOST: usize = 1 << 24;

/// How the shortest path to a point begins: with the route of this number less one, or, if it is 0, nothing is known.
#[derive(Clone, Copy)]
pub struct Hop {
    pub to: u32,
    pub route: u32,
}

/// Which point's tree a row has, and how many points are in it.
#[derive(Clone, Copy)]
pub struct Row {
    pub to: u32,
    pub points: usize,
}

/// For each point its column in each row, if a route begins there; and the number of columns.
#[derive(Drop)]
pub struct Columns {
    pub of: Vec<usize>,
    pub count: usize,
}

/// Rows of hops, one for each tree. A hop says itself where its path ends, and its route where it begins, so none has to
/// be removed when a row is used again.
#[derive(Drop)]
pub struct Trees {
    pub hops: Vec<Hop>,
    pub rows: Vec<Row>,
    pub row_of: Vec<usize>,
    pub columns: Columns,
    pub oldest: usize,
}

/// Numbers the points at which routes begin.
fn columns_of(alloc: Global, points: usize, routes: &[PathRoute]) -> Result<Columns, Memory>
    requires { AreWithin points routes.now }
{
    let mut of = vec![in alloc; usize::MAX; points]?;
    let mut count: usize = 0;
    for i in 0..routes.len() {
        let from = routes[i].from as usize;
        if of[from] == usize::MAX {
            of[from] = count;
            count = count.saturating_add(1);
        }
    }
    Ok(Columns { of, count })
}

/// Makes room for no tree.
fn no_trees(alloc: Global) -> Trees
    ensures { AreEmpty result.hops.items }
{
    Trees {
        hops: Vec::new(alloc),
        rows: Vec::new(alloc),
        row_of: Vec::new(alloc),
        columns: Columns {
            of: Vec::new(alloc),
            count: 0,
        },
        oldest: 0,
    }
}

/// Makes room for trees: one for each point at which a route begins, if there are few enough.
pub fn trees_for(alloc: Global, points: usize, routes: &[PathRoute]) -> Result<Trees, Memory>
    requires { AreWithin points routes.now }
    ensures { IfOk result (λ trees. AreEmpty trees.hops.items) }
{
    if routes.is_empty() {
        return Ok(no_trees(alloc));
    }
    let columns = columns_of(alloc, points, routes)?;
    let count = columns.count;
    let rows = MOST.checked_div(count).map_or(0, |rows| rows.min(count));
    Ok(Trees {
        hops: Vec::with_capacity(alloc, rows.saturating_mul(count))?,
        rows: Vec::with_capacity(alloc, rows)?,
        row_of: vec![in alloc; 0; points]?,
        columns,
        oldest: 0,
    })
}

/// Returns the row of a point's tree.
fn row_of(trees: &Trees, to: u32) -> Option<usize>
    ensures { IfSome result (λ row. row < vec_len trees.now.rows) }
{
    let row = *trees.row_of.get(to as usize)?;
    match trees.rows.get(row) {
        Some(one) if one.to == to => Some(row),
        _ => None,
    }
}

/// Returns how many points are in a point's tree.
pub fn points_in(trees: &Trees, to: u32) -> usize {
    match row_of(trees, to) {
        Some(row) => trees.rows[row].points,
        None => 0,
    }
}

/// Returns the place of the hop from a point.
fn place(columns: &Columns, row: usize, point: u32) -> usize {
    match columns.of.get(point as usize) {
        Some(column) => row.saturating_mul(columns.count).saturating_add(*column),
        None => usize::MAX,
    }
}

/// Returns the number of the route with which the shortest path from a point to another begins, if it is stored.
pub fn hop_from(routes: &[PathRoute], trees: &Trees, from: u32, to: u32) -> Option<usize>
    requires { AreOnward routes.now trees.now.hops.items }
    ensures { IfSome result (GoesOver routes.now from to) }
{
    let row = row_of(trees, to)?;
    let hop = trees.hops.get(place(&trees.columns, row, from))?;
    if hop.to != to || hop.route == 0 {
        return None;
    }
    let i = hop.route as usize - 1;
    match routes.get(i) {
        Some(route) if route.from == from => Some(i),
        _ => None,
    }
}

/// Adds a row, as far as there is room.
fn add_row(hops: &mut Vec<Hop>, count: usize)
    ensures { StayOnward hops.old.items hops.new.items }
{
    let room = hops.capacity() - hops.len();
    'adding: for _column in 0..count.min(room) {
        hops.push_reserved(Hop { to: 0, route: 0 });
    }
}

/// Returns a new row, or the oldest if there is no room for another.
fn new_row(trees: &mut Trees) -> usize
    ensures { StayOnward trees.old.hops.items trees.new.hops.items }
{
    let row = trees.rows.len();
    if row < trees.rows.capacity() {
        trees.rows.push_reserved(Row { to: 0, points: 0 });
        add_row(&mut trees.hops, trees.columns.count);
        return row;
    }
    let oldest = trees.oldest;
    trees.oldest = oldest.wrapping_add(1).checked_rem(row).unwrap_or(0);
    oldest
}

/// Returns the row for a point's tree.
fn row_for(trees: &mut Trees, to: u32) -> usize
    ensures { StayOnward trees.old.hops.items trees.new.hops.items }
{
    if let Some(row) = row_of(trees, to) {
        return row;
    }
    let row = new_row(trees);
    if (to as usize) < trees.row_of.len() {
        trees.row_of[to as usize] = row;
    }
    row
}

/// Returns the number of a route and one, or 0 if that is too great.
fn numbered(route: usize) -> u32
    ensures { 0 < result → result ≡ route + 1 }
{
    match u32::try_from(route) {
        Ok(number) if number < u32::MAX => number + 1,
        _ => 0,
    }
}

/// Writes a hop, if there is a place for it.
fn write_hop(hops: &mut Vec<Hop>, place: usize, hop: Hop)
    ensures { MayWrite hops.old.items hops.new.items hop }
{
    if place < hops.len() {
        hops[place] = hop;
    }
}

/// Writes the hops of a tree into a row.
fn write_hops(hops: &mut Vec<Hop>, columns: &Columns, row: usize, settled: &[Settled], to: u32)
    ensures { TakeTree settled.now to hops.old.items hops.new.items }
{
    'writing: for k in 1..settled.len() {
        let one = settled[k];
        let at = place(columns, row, one.point);
        let route = numbered(one.route);
        write_hop(hops, at, Hop { to, route });
    }
}

/// Stores the tree of the shortest paths from finalized points to the first of them.
pub fn keep(trees: &mut Trees, settled: &[Settled], to: u32)
    ensures { TakeTree settled.now to trees.old.hops.items trees.new.hops.items }
{
    let row = row_for(trees, to);
    write_hops(&mut trees.hops, &trees.columns, row, settled, to);
    if row < trees.rows.len() {
        let points = settled.len();
        trees.rows[row] = Row { to, points };
    }
}
