//! How far a profile is.
ghost use Rattle.std.specs.Prelude.{◌≡◌, ◌≤◌, ◌<◌, ◌+◌, ◌*◌, ◌^◌, length};
ghost use Rattle.sg_profile.specs.Profiles.{IsSchedule, next_entry_date, turn_after, turn_time};

use crate::profile::Profile;

/// The number of the turn, from 0 on, and the number of the next entry in it, from 0 on.
#[derive(Clone, Copy)]
pub struct Turn {
    pub number: u128,
    pub entry: usize,
}

/// The first entry of the first turn.
pub(crate) const FIRST: Turn = Turn {
    number: 0,
    entry: 0,
};

/// Returns how long a turn takes in nanoseconds, if another one follows.
fn turn_time(profile: &Profile) -> u128
    requires { IsSchedule profile.now }
    ensures time { result ≡ turn_time profile.now }
    ensures short { result ≤ 2 * 10 ^ 18 }
{
    match profile.gap {
        Some(gap) => {
            let dates = profile.dates.as_slice();
            u128::from(dates[dates.len() - 1]) + u128::from(gap)
        }
        None => 0,
    }
}

/// Returns the date of the next entry in nanoseconds; `None` if no entry remains.
pub(crate) fn date_of(profile: &Profile, turn: Turn) -> Option<u128>
    requires schedule { IsSchedule profile.now }
    requires small { turn.number * turn_time profile.now < 10 ^ 34 }
    ensures { result ≡ next_entry_date profile.now turn }
{
    let date = *profile.dates.as_slice().get(turn.entry)?;
    Some(turn.number * turn_time(profile) + u128::from(date))
}

/// Returns the turn past the next entry.
pub(crate) fn turn_after(profile: &Profile, turn: Turn) -> Turn
    requires schedule { IsSchedule profile.now }
    requires entry { turn.entry < length profile.now.dates }
    requires small { turn.number * turn_time profile.now < 10 ^ 33 }
    ensures { result ≡ turn_after profile.now turn }
{
    let was_last = turn.entry + 1 == profile.dates.as_slice().len();
    if was_last && profile.gap.is_some() {
        Turn {
            number: turn.number + 1,
            entry: 0,
        }
    } else {
        Turn {
            entry: turn.entry + 1,
            ..turn
        }
    }
}
