//! A profile, of a speed, a bandwidth or a state.
ghost use Rattle.std.specs.Prelude.{◌≡◌, ◌<◌, ◌++◌, IfOk, Some, length, map, slice_get};
ghost use Rattle.sg_profile.specs.Profiles.{entry_by, profile_of, state_profile_of};
ghost use Rattle.sg_profile.specs.declared.entry.Entry.TheVariants.{Bandwidth, HostOn, LinkOn, Speed};

use crate::entry::{Entries, Entry};
use crate::turn::Turn;
use sg_base::Memory;
use sg_platform_rows::{Numbers, ProfileRow, Profiled, StateProfileRow};
use std::alloc::Global;

/// What changes of a host or a link during a run, and when.
#[derive(Drop)]
pub struct Profile {
    /// The dates of a turn, in nanoseconds.
    pub dates: Numbers,
    /// The entry of each of them.
    pub entries: Entries,
    /// How long after the last date the next turn begins, in nanoseconds; `None`: there is one turn alone.
    pub gap: Option<u64>,
}

/// Returns the next entry of a profile.
pub(crate) fn entry_at(profile: &Profile, turn: Turn) -> Entry
    requires { turn.entry < length profile.now.entries }
    ensures { slice_get profile.now.entries turn.entry ≡ Some result }
{
    profile.entries.as_slice()[turn.entry]
}

// ---- of the rows of a platform
fn entry_by(of: Profiled, value: u64) -> Entry
    ensures { result ≡ entry_by Speed Bandwidth of value }
{
    match of {
        Profiled::Host(host) => Entry::Speed(host, value),
        Profiled::Link(link) => Entry::Bandwidth(link, value),
    }
}

fn state_entry_by(of: Profiled, on: bool) -> Entry
    ensures { result ≡ entry_by HostOn LinkOn of on }
{
    match of {
        Profiled::Host(host) => Entry::HostOn(host, on),
        Profiled::Link(link) => Entry::LinkOn(link, on),
    }
}

fn entries_of(alloc: Global, of: Profiled, values: &[u64]) -> Result<Entries, Memory>
    ensures { IfOk result (λ entries. entries ≡ map (entry_by Speed Bandwidth of) values.now) }
{
    let mut entries = Vec::new(alloc);
    for value in values {
        entries.push(entry_by(of, *value))?;
    }
    Ok(Entries::from_vec(entries))
}

fn state_entries_of(alloc: Global, of: Profiled, states: &[bool]) -> Result<Entries, Memory>
    ensures { IfOk result (λ entries. entries ≡ map (entry_by HostOn LinkOn of) states.now) }
{
    let mut entries = Vec::new(alloc);
    for on in states {
        entries.push(state_entry_by(of, *on))?;
    }
    Ok(Entries::from_vec(entries))
}

fn dates_of(alloc: Global, dates: &Numbers) -> Result<Numbers, Memory>
    ensures { IfOk result (λ copy. copy ≡ dates.now) }
{
    Ok(Numbers::from_vec(Vec::from_slice(alloc, dates.as_slice())?))
}

fn profile_of(alloc: Global, row: &ProfileRow) -> Result<Profile, Memory>
    ensures { IfOk result (λ profile. profile ≡ profile_of row.now) }
{
    Ok(Profile {
        dates: dates_of(alloc, &row.dates)?,
        entries: entries_of(alloc, row.of, row.values.as_slice())?,
        gap: row.gap,
    })
}

fn state_profile_of(alloc: Global, row: &StateProfileRow) -> Result<Profile, Memory>
    ensures { IfOk result (λ profile. profile ≡ state_profile_of row.now) }
{
    Ok(Profile {
        dates: dates_of(alloc, &row.dates)?,
        entries: state_entries_of(alloc, row.of, row.states.as_slice())?,
        gap: row.gap,
    })
}

/// Returns the profiles of these rows: those of states come last.
pub(crate) fn profiles_of(
    alloc: Global,
    rows: &[ProfileRow],
    states: &[StateProfileRow],
) -> Result<Vec<Profile>, Memory>
    ensures { IfOk result (λ profiles. profiles.items
        ≡ map profile_of rows.now ++ map state_profile_of states.now) }
{
    let mut profiles = Vec::new(alloc);
    for row in rows {
        profiles.push(profile_of(alloc, row)?)?;
    }
    for row in states {
        profiles.push(state_profile_of(alloc, row)?)?;
    }
    Ok(profiles)
}
