//! Turns of rows, and the dates of their next entries in slots.
ghost use Rattle.std.specs.Prelude.{◌≡◌, ◌≤◌, ◌<◌, ◌^◌, All, IfOk, IsSomeAnd, length, slice_set};
ghost use Rattle.sg_profile.specs.Profiles.{IsSchedule, next_entry_date, dates_of, first_turns, profile_at, turns_after_row, turn_at};
ghost use Rattle.sg_profile.specs.kept.Slots.{AreKeys, IsKept, key_by, table_of};

use crate::profile::Profile;
use crate::turn::{FIRST, Turn, date_of, turn_after};
use sg_base::{Memory, Serial};
use sg_heap::Agenda;
use std::alloc::Global;

/// Returns the turns of so many rows, each at the first entry of its first turn.
pub(crate) fn first_turns(alloc: Global, profiles: &[Profile]) -> Result<Vec<Turn>, Memory>
    ensures { IfOk result (λ turns. turns.items ≡ first_turns profiles.now) }
{
    Ok(vec![in alloc; FIRST; profiles.len()]?)
}

/// Writes the date of a row's next entry into its slot, or that there is none.
fn enter(agenda: &mut Agenda, row: usize, date: Option<u128>)
    requires { row < length agenda.old }
    ensures { agenda.new ≡ slice_set agenda.old row (key_by row date) }
{
    match date {
        Some(date) => agenda.set(row, date, Serial(row as u64)),
        None => agenda.clear(row),
    }
}

/// Writes the dates of all rows into their slots.
fn enter_all(profiles: &[Profile], turns: &[Turn], agenda: &mut Agenda)
    requires schedules { All IsSchedule profiles.now }
    requires first { turns.now ≡ first_turns profiles.now }
    requires slots { length agenda.old ≡ length profiles.now }
    ensures slots { length agenda.new ≡ length profiles.now }
    ensures keys { AreKeys (dates_of profiles.now turns.now) agenda.new }
{
    for row in 0..profiles.len() {
        enter(agenda, row, date_of(&profiles[row], turns[row]));
    }
}

/// Returns a slot for each row, with the date of its first entry.
pub(crate) fn agenda_of(
    alloc: Global,
    profiles: &[Profile],
    turns: &[Turn],
) -> Result<Agenda, Memory>
    requires few { length profiles.now ≤ 8192 }
    requires schedules { All IsSchedule profiles.now }
    requires first { turns.now ≡ first_turns profiles.now }
    ensures { IfOk result (λ agenda. IsKept (table_of profiles.now turns.now) agenda) }
{
    let mut agenda = Agenda::new(alloc)?;
    agenda.reserve(profiles.len())?;
    enter_all(profiles, turns, &mut agenda);
    Ok(agenda)
}

/// Moves a row past its next entry.
pub(crate) fn step_row(profiles: &[Profile], turns: &mut [Turn], agenda: &mut Agenda, row: usize)
    requires kept { IsKept (table_of profiles.now turns.old) agenda.old }
    requires row { row < length profiles.now }
    requires date { IsSomeAnd
        (next_entry_date (profile_at profiles.now row) (turn_at turns.old row))
        (λ date. date < 10 ^ 33) }
    ensures turns { turns.new ≡ turns_after_row profiles.now row turns.old }
    ensures kept { IsKept (table_of profiles.now turns.new) agenda.new }
{
    let turn = turn_after(&profiles[row], turns[row]);
    turns[row] = turn;
    enter(agenda, row, date_of(&profiles[row], turn));
}
