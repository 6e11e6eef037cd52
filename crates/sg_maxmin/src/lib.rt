//! Max-min fair shares of flows on resources, by progressive filling in whole numbers: what `sg_lazy` is measured by.
//! The type is `System`: `add` and `remove` start and end flows, `solve` computes all shares anew, `share` returns one.
//! `Chains` has the uses of resources by flows, in chains both ways: those of each flow, and those on each resource.
//! The laws, such as `is_fair`, say what holds of the shares, and of the levels at which resources hold their flows.
//! `rounding` has the arithmetic of all solvers, and `Filled` is the result of one that solves connected components.
//! It stands on `sg_base`, and keeps uses in the kit's `slab`.
#![tactic(auto)]

mod cells;
mod chains;
mod filled;
mod filling;
mod flow_row;
mod laws;
mod links;
mod numbered_rows;
pub mod rounding;
mod slots;
mod system;
mod uses;
mod visits;

pub use chains::Chains;
pub use filled::Filled;
pub use laws::{
    balance_is_filling, filling_balances, filling_is_held, fills_apart, fills_equally,
    fills_in_any_order, fixes_all, fixes_once, full_holds, held_is_filling, hold_is_local,
    hold_is_one, is_fair, is_held, keeps_bound, keeps_share, level_rises, others_hold_none,
    row_tells, shares_same, sums_change, worked_examples,
};
pub use system::{FlowId, System};
pub use uses::Use;
