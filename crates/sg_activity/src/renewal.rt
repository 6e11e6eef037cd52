//! What remains of activities, and when they complete, as their rates change.

ghost use Rattle.std.specs.Prelude.{◌≡◌, ◌^◌, ◌<◌, ◌≤◌, ℕ, All, length, slice_index, slice_set};
ghost use Rattle.std.specs.Int.{div_ceil};
ghost use Rattle.sg_activity.specs.Underway.{wait as wait_spec};
ghost use Rattle.sg_activity.specs.kept.Stamps.{due_of as due_of_spec, left_at as left_at_spec};
ghost use Rattle.sg_activity.specs.kept.Renewal.{AreRedated, AreRenewed, AreRestamped, AreSmall, AreUnmarked, HaveKeys, IsSmall};
ghost use Rattle.sg_activity.specs.kept.State.{date_of, due_at};

use sg_activity_table::{Live, Lives, PhaseKind};
use sg_base::{Marks, Serial};
use sg_heap::Agenda;
use sg_lazy::Lazy;

// Returns the quotient, rounded up. Most amounts are small, and short division is several times as fast.
fn span_of(left: u128, rate: u64) -> u128
    requires { 0 < rate }
    ensures { result ≡ div_ceil left rate }
{
    if left < 1 << 64 {
        u128::from((left as u64).div_ceil(rate))
    } else {
        left.div_ceil(u128::from(rate))
    }
}

// Returns in how many nanoseconds no work remains.
fn wait(rate: u64, left: u128) -> Option<u128>
    ensures { result ≡ wait_spec rate left }
{
    if left == 0 {
        Some(0)
    } else if rate == 0 {
        None
    } else {
        Some(span_of(left, rate))
    }
}

// Returns when no work of an activity remains.
fn spent_at(live: &Live) -> Option<u128>
    requires { IsSmall live.now }
    ensures { result ≡ due_of_spec live.now.stamp live.now.kept live.now.rate }
{
    let span = wait(live.rate, live.kept)?;
    Some(live.stamp + span)
}

// Returns when a phase completes.
fn due_of(live: &Live) -> Option<u128>
    requires { IsSmall live.now }
    ensures { result ≡ due_at live.now }
{
    match live.kind {
        PhaseKind::Latency | PhaseKind::Flow | PhaseKind::Exec | PhaseKind::Timer => {
            spent_at(live)
        }
        PhaseKind::Kept => None,
    }
}

/// Returns the remaining work of an activity at a date.
pub(crate) fn left_at(live: &Live, date: u128) -> u128
    requires { live.now.stamp ≤ date }
    ensures { result ≡ left_at_spec live.now.kept live.now.rate live.now.stamp date }
{
    live.kept
        .saturating_sub(u128::from(live.rate).saturating_mul(date - live.stamp))
}

// Returns the key of the activity of a flow.
fn key_of(by_flow: &[usize], id: usize) -> usize
    requires { id < length by_flow.now }
    ensures { result ≡ slice_index by_flow.now id }
{
    by_flow[id]
}

/// Notes the new rates of the flows whose rates changed, with the remaining work of their activities now, and dates
/// these anew. They are no longer fresh, so `renew` leaves them out.
pub(crate) fn restamp(
    lives: &mut Lives,
    agenda: &mut Agenda,
    fresh: &mut Marks,
    by_flow: &[usize],
    lazy: &Lazy,
    date: u128,
)
    requires keys { HaveKeys lives.old.slots by_flow.now lazy.now date }
    requires fresh { length lives.old.slots ≤ fresh.old.room }
    requires agenda { length lives.old.slots ≤ length agenda.old }
    requires small { AreSmall lives.old.slots × (date < 10 ^ 34) }
    ensures stamps { AreRestamped lives.old lives.new lazy.now date }
    ensures dates { AreRedated agenda.old agenda.new lives.old lives.new lazy.now }
    ensures fresh { AreUnmarked lives.old fresh.old fresh.new lazy.now }
{
    let changed = lazy.changed();
    for id in changed {
        let key = key_of(by_flow, *id);
        let Some(live) = lives.get(key) else {
            unreachable!()
        };
        let now = Live {
            kept: left_at(&live, date),
            stamp: date,
            rate: lazy.rate(*id),
            ..live
        };
        lives.restamp(key, now.kept, date, now.rate);
        date_anew(agenda, key, &now);
        fresh.remove(key);
    }
}

/// Dates the activities under these keys anew.
pub(crate) fn renew(agenda: &mut Agenda, lives: &Lives, keys: &[usize])
    requires below { All (λ key. key < length lives.now.slots) keys.now }
    requires agenda { length lives.now.slots ≤ length agenda.old }
    requires small { AreSmall lives.now.slots }
    ensures dates { AreRenewed agenda.old agenda.new lives.now.slots keys.now }
    ensures long { length agenda.new ≡ length agenda.old }
{
    for key in keys {
        match lives.get(*key) {
            Some(live) => date_anew(agenda, *key, &live),
            None => agenda.clear(*key),
        }
    }
}

// Dates an activity: in the agenda it has the date at which it completes, if it ever does.
fn date_anew(agenda: &mut Agenda, key: usize, live: &Live)
    requires key { key < length agenda.old }
    requires small { IsSmall live.now }
    ensures { agenda.new ≡ slice_set agenda.old key (date_of live.now) }
{
    match due_of(live) {
        Some(date) => agenda.set(key, date, Serial(live.serial)),
        None => agenda.clear(key),
    }
}
