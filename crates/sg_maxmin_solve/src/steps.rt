//! The steps of a max-min solve.
ghost use Rattle.std.specs.Prelude.{◌≡◌, ◌≤◌, ◌<◌, ◌+◌, ◌*◌, ◌/◌, ℕ, false, All, length, slice_index};
ghost use Rattle.sg_base.specs.MarkSet.{is_in};
ghost use Rattle.sg_maxmin.specs.Sharing.{uses_at};
ghost use Rattle.sg_maxmin_solve.specs.Component.{lengths};
ghost use Rattle.sg_maxmin_solve.specs.Dates.{AreDated, IsIdle, StayDated};
ghost use Rattle.sg_maxmin_solve.specs.Filling.{AreJoined, AreLeveled, AreLevels, AreStepped, HasPlaces, KeepsFixed, KeepsHolds};
ghost use Rattle.sg_maxmin_solve.specs.Holds.{AreNoted, CanStep, CountsOnce, IsBegun, NotesHolds};

use crate::dates::{date_all, has_keys, is_late};
use crate::filling::Filling;
use crate::fixes::fix_all;
use crate::last_step::{fix_rest, is_last};
use crate::limits::{Low, lowest};
use sg_base::Steps;
use sg_maxmin::System;
use sg_maxmin::rounding::level_of;
use std::sync::ledger::Ledger;

/// Computes the levels of the listed resources.
pub fn set_levels(listed: &[usize], left: &[u64], waiting: &[u64], levels: &mut [u64])
    requires left { All (λ c. c < length left.now) listed.now }
    requires waiting { All (λ c. c < length waiting.now) listed.now }
    requires levels { All (λ c. c < length levels.old) listed.now }
    ensures listed { (i : ℕ) → i < length listed.now
        → slice_index levels.new (slice_index listed.now i)
        ≡ slice_index left.now (slice_index listed.now i)
        / slice_index waiting.now (slice_index listed.now i) }
    ensures others { (c : ℕ) → is_in c listed.now ≡ false
        → slice_index levels.new c ≡ slice_index levels.old c }
{
    for c in listed {
        levels[*c] = level_of(left[*c], waiting[*c]);
    }
}

// Divides the levels of the stale resources again.
fn renew(system: &System, filling: &mut Filling)
    requires { HasPlaces system.now filling.old }
    ensures places { HasPlaces system.now filling.new }
    ensures kept { (filling.new.fixed.items ≡ filling.old.fixed.items)
        × (filling.new.left.items ≡ filling.old.left.items)
        × (filling.new.waiting.items ≡ filling.old.waiting.items)
        × (filling.new.holds.items ≡ filling.old.holds.items) }
    ensures levels { AreLevels filling.old.stale.members filling.new }
    ensures others { (c : ℕ) → is_in c filling.old.stale.members ≡ false
        → slice_index filling.new.levels.items c ≡ slice_index filling.old.levels.items c }
    ensures dated { StayDated filling.old.stale.members filling.old.agenda filling.new }
{
    set_levels(
        filling.stale.members(),
        &filling.left,
        &filling.waiting,
        &mut filling.levels,
    );
    date_all(
        has_keys(&filling.agenda),
        filling.stale.members(),
        &filling.waiting,
        &filling.levels,
        &mut filling.agenda,
    );
    filling.stale.clear();
}

/// Runs one step: fixes each unfixed flow that is at this level.
pub fn step<L: Ledger>(
    system: &System,
    touched: &[usize],
    reached: &[usize],
    low: Low,
    filling: &mut Filling,
    steps: &mut Steps<L>,
)
    requires { CanStep system.now touched.now reached.now low filling.old }
    ensures places { HasPlaces system.now filling.new }
    ensures noted { NotesHolds reached.now low.level filling.old filling.new }
    ensures stepped { AreStepped system.now touched.now low.level filling.old filling.new }
    ensures levels { AreLevels reached.now filling.new }
    ensures dated { AreDated reached.now filling.new }
    ensures kept { KeepsFixed filling.old filling.new }
    ensures count { CountsOnce system.now touched.now reached.now filling.old filling.new
        steps.old steps.new }
{
    fix_all(system, touched, reached, low, filling, steps);
    renew(system, filling);
}

/// Runs the steps of a max-min solve, from no flow fixed on, until all touched flows are fixed.
pub fn fill_steps<L: Ledger>(
    system: &System,
    touched: &[usize],
    reached: &[usize],
    filling: &mut Filling,
    steps: &mut Steps<L>,
)
    requires joined { AreJoined system.now touched.now reached.now }
    requires places { HasPlaces system.now filling.old }
    requires begun { IsBegun system.now touched.now reached.now filling.old }
    ensures places { HasPlaces system.now filling.new }
    ensures idle { IsIdle filling.new }
    ensures kept { KeepsFixed filling.old filling.new }
    ensures holds_kept { KeepsHolds reached.now filling.old filling.new }
    ensures fixed { AreLeveled system.now touched.now filling.new }
    ensures noted { AreNoted system.now reached.now filling.new }
    ensures looks { steps.new ≤ steps.old + 3 * lengths (uses_at system.now.slots) touched.now }
{
    let mut floor = Some(0);
    for n in 0..touched.len() {
        date_all(
            is_late(n, reached),
            reached,
            &filling.waiting,
            &filling.levels,
            &mut filling.agenda,
        );
        match lowest(system, touched, reached, filling, floor) {
            None => return,
            Some(low) => {
                if is_last(n, system, touched, reached, low, filling) {
                    fix_rest(system, touched, reached, low.level, filling);
                    return;
                }
                step(system, touched, reached, low, filling, steps);
                floor = low.floor;
            }
        }
    }
}
