//! Max-min levels that are kept up to date: what each change leaves of levels and holds, and a rate update that makes
//! all flows held again, one resource at a time.
//! The type is `Levels`, updated by `Levels::settle`; the law `held_is_filling` of `sg_maxmin` is that on which it rests.
//! It stands on `sg_base`, and on the holds and the `System` of `sg_maxmin`.
#![tactic(auto)]

mod allowance;
mod changes;
mod hold;
mod laws;
mod levels;
mod refill;
mod rounds;
mod settling;

pub use laws::{
    changes_keep, demand_holds_none, held_settles, hold_stays, hold_stays_from, notes_add_up,
    settling_ends, shares_are_noted, slack_holds_none, slack_is_above, way_back,
};
pub use levels::Levels;
