//! What a system keeps of a flow.
ghost use Rattle.std.specs.Prelude.{◌≡◌, ◌<◌, ◌^◌, None, Some, IfSome};
ghost use Rattle.sg_maxmin.specs.kept.Cells.{row_in as row_in_spec};

/// A flow: its uses are the chain of `count` uses that begins at `first`.
#[derive(Clone, Copy)]
pub(crate) struct FlowRow {
    pub(crate) first: Option<usize>,
    pub(crate) count: usize,
    pub(crate) weight: u32,
    pub(crate) bound: Option<u64>,
    /// None before the first `solve`, and in one while the flow isn't fixed.
    pub(crate) level: Option<u64>,
    /// As the last `solve` gave it, and 0 before: the bound may have changed since.
    pub(crate) share: u64,
}

/// A place for a flow, in 48 bytes: an option has its own byte beside the others'.
#[derive(Clone, Copy)]
pub(crate) struct Cell {
    first: usize,
    count: usize,
    bound: u64,
    level: u64,
    share: u64,
    weight: u32,
    is_held: bool,
    has_first: bool,
    has_bound: bool,
    has_level: bool,
}

/// Returns the flow in a place, if there is one.
pub(crate) fn row_in(cell: Cell) -> Option<FlowRow>
    ensures { result ≡ row_in_spec cell }
{
    if !cell.is_held {
        return None;
    }
    Some(FlowRow {
        first: cell.has_first.then_some(cell.first),
        count: cell.count,
        weight: cell.weight,
        bound: cell.has_bound.then_some(cell.bound),
        level: cell.has_level.then_some(cell.level),
        share: cell.share,
    })
}

/// Returns a place with this flow.
pub(crate) fn cell_with(row: FlowRow) -> Cell
    ensures { row_in_spec result ≡ Some row }
{
    Cell {
        first: row.first.unwrap_or(0),
        count: row.count,
        bound: row.bound.unwrap_or(0),
        level: row.level.unwrap_or(0),
        share: row.share,
        weight: row.weight,
        is_held: true,
        has_first: row.first.is_some(),
        has_bound: row.bound.is_some(),
        has_level: row.level.is_some(),
    }
}

/// Returns a place without a flow.
pub(crate) fn free_cell() -> Cell
    ensures { row_in_spec result ≡ None }
{
    Cell {
        first: 0,
        count: 0,
        bound: 0,
        level: 0,
        share: 0,
        weight: 0,
        is_held: false,
        has_first: false,
        has_bound: false,
        has_level: false,
    }
}

impl FlowRow {
    /// Makes a flow that isn't fixed, and of which no use is known yet.
    pub(crate) fn new(count: usize, weight: u32, bound: Option<u64>) -> FlowRow
        ensures count { result.count ≡ count }
        ensures weight { result.weight ≡ weight }
        ensures bound { result.bound ≡ bound }
        ensures fits { IfSome result.bound (λ bound. bound < 2 ^ 64) }
        ensures level { result.level ≡ None }
        ensures share { result.share ≡ 0 }
    {
        // a contract doesn't see inside an `Option` that the number fits its type
        let bound = match bound {
            None => None,
            Some(bound) => Some(bound),
        };
        FlowRow {
            first: None,
            count,
            weight,
            bound,
            level: None,
            share: 0,
        }
    }
}
