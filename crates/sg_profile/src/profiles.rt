//! The profiles of a platform.
ghost use Rattle.std.specs.Prelude.{◌≡◌, ◌≤◌, ◌<◌, ◌^◌, ℕ, All, IfOk, IfSome, IsSomeAnd, MatchOption, vec_len};
ghost use Rattle.sg_profile.specs.Profiles.{AreProfiles, IsEntry, IsNextEntry, IsSchedule, first_table, next_date, past_next, profiles_in};
ghost use Rattle.sg_platform_rows.specs.Platform.{counts_of};

use crate::entry::Entry;
use crate::profile::{Profile, entry_at, profiles_of};
use crate::slots::{agenda_of, first_turns, step_row};
use crate::turn::Turn;
use sg_base::Memory;
use sg_heap::Agenda;
use sg_platform_rows::PlatformText;
use std::alloc::Global;
use std::marker::Model;

/// The profiles of hosts and links, and how far each is. Dates are in nanoseconds.
///
/// Contracts see for each row its profile and its turn: first the rows of speeds and bandwidths in declared order, then
/// those of states. A call costs the logarithm of the rows, and only `new` takes memory.
pub struct Profiles {
    profiles: Vec<Profile>,
    turns: Vec<Turn>,
    // for each row a slot with the date of its next entry, if one is left
    agenda: Agenda,
}

// A function of its own, so that a proof in which one is dropped doesn't go into its parts.
impl Drop for Profiles {
    fn drop(self) {
        let Profiles {
            profiles: _,
            turns: _,
            agenda: _,
        } = self;
    }
}

impl Model for Profiles {
    ghost use Rattle.sg_profile.specs.Profiles.{Timetable};
    ghost use Rattle.sg_profile.specs.kept.Slots.{IsKept, table_of};

    ghost Value = { Timetable };

    ghost view = { λ p. table_of p.profiles.items p.turns.items };

    ghost invariant = { λ p. IsKept (table_of p.profiles.items p.turns.items) p.agenda };
}

impl Profiles {
    /// Makes the profiles of a platform, each at its first entry.
    ///
    /// # Errors
    ///
    /// Out of memory.
    pub fn new(alloc: Global, platform: &PlatformText) -> Result<Profiles, Memory>
        ensures table { IfOk result
            (λ profiles. profiles ≡ first_table (profiles_in platform.now)) }
        ensures kept { IfOk result (λ profiles. AreProfiles (counts_of platform.now).hosts
            (counts_of platform.now).links profiles.profiles) }
    {
        platform.rows_are_valid();
        let profiles = profiles_of(alloc, platform.profiles(), platform.state_profiles())?;
        Profiles::with_profiles(alloc, profiles)
    }

    /// Returns these profiles, each at its first entry.
    pub(crate) fn with_profiles(alloc: Global, profiles: Vec<Profile>) -> Result<Profiles, Memory>
        requires few { vec_len profiles ≤ 8192 }
        requires schedules { All IsSchedule profiles.items }
        ensures { IfOk result (λ made. made ≡ first_table profiles.items) }
    {
        let turns = first_turns(alloc, profiles.as_slice())?;
        let agenda = agenda_of(alloc, profiles.as_slice(), turns.as_slice())?;
        Ok(Profiles {
            profiles,
            turns,
            agenda,
        })
    }

    /// Returns the next entry of all, with its date in nanoseconds: the one of the least date, and there that of the
    /// first row. `None` if no entry is left.
    pub fn next(&self) -> Option<(u128, Entry)>
        ensures next { MatchOption result (next_date self.now.profiles self.now.turns ≡ None)
            (λ next. IsNextEntry self.now next.0 next.1) }
        ensures exists { IfSome result (λ next. (hosts links : ℕ)
            → AreProfiles hosts links self.now.profiles → IsEntry hosts links next.1) }
    {
        let (row, date, _) = self.agenda.least()?;
        Some((date, entry_at(&self.profiles[row], self.turns[row])))
    }

    /// Goes past the next entry. There is one, of a date below 10^33.
    pub fn step(&mut self)
        requires { IsSomeAnd (next_date self.old.profiles self.old.turns)
            (λ date. date < 10 ^ 33) }
        ensures { self.new ≡ past_next self.old }
    {
        if let Some((row, _, _)) = self.agenda.least() {
            step_row(
                self.profiles.as_slice(),
                self.turns.as_mut_slice(),
                &mut self.agenda,
                row,
            );
        }
    }
}
