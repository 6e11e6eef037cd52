//! Room for more activities.
ghost use Rattle.std.specs.Prelude.{◌≡◌, ◌≤◌, ◌+◌, ◌*◌, ℕ, OnOk, length, slice_index};
ghost use Rattle.sg_activity.specs.kept.Sound.{IsSound};
ghost use Rattle.sg_activity.specs.kept.Grows.{Grows};

use crate::activity_state::Kept;
use sg_base::Memory;

// Makes so many keys, the new ones 0.
fn grow_keys(keys: &mut Vec<usize>, n: usize) -> Result<(), Memory>
    ensures same { (id : ℕ) → slice_index keys.new.items id ≡ slice_index keys.old.items id }
    ensures longer { length keys.old.items ≤ length keys.new.items }
    ensures long { OnOk result (n ≤ length keys.new.items) }
{
    for _id in keys.len()..n {
        keys.push(0)?;
    }
    Ok(())
}

/// Makes so many keys free, each with room for a route in the index, and room for so many flows with so many uses.
pub(crate) fn grow(kept: &mut Kept, n: usize, flows: usize, uses: usize) -> Result<(), Memory>
    requires { IsSound kept.old }
    ensures grows { Grows kept.old kept.new }
    ensures few { length kept.new.lives.slots ≤ length kept.old.lives.slots + n }
    ensures keys { OnOk result (n ≤ kept.new.lives.room) }
    ensures flows { OnOk result (flows ≤ kept.new.lazy.flow_room) }
    ensures uses { OnOk result (uses ≤ kept.new.lazy.use_room) }
    ensures ways { OnOk result (66 * n ≤ kept.new.index.room) }
{
    let Some(keys) = kept.lives.numbers().checked_add(n) else {
        return Err(Memory);
    };
    let more = flows.saturating_sub(kept.lazy.spare());
    let Some(numbers) = kept.lazy.numbers().checked_add(more) else {
        return Err(Memory);
    };
    let Some(ways) = n.checked_mul(66) else {
        return Err(Memory);
    };
    kept.index.reserve(keys, ways)?;
    grow_keys(&mut kept.by_flow, numbers)?;
    kept.agenda.reserve(keys)?;
    kept.fresh.reserve(keys)?;
    kept.lives.reserve(n)?;
    kept.lazy.reserve(flows, uses)
}
