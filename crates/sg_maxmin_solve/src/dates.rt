//! The keys of a long solve: each resource on which a flow waits has its level as its date, so the least is found at
//! once.
ghost use Rattle.std.specs.Prelude.{◌≡◌, ◌<◌, ℕ, true, false, IfNone, IfSome, IsSome, Some, All, length, slice_index, slice_set};
ghost use Rattle.sg_base.specs.MarkSet.{is_in};
ghost use Rattle.sg_heap.specs.Agenda.{Key, key_at};
ghost use Rattle.sg_maxmin_solve.specs.Dates.{HaveKeys, HaveNone, key_where};

use sg_base::Serial;
use sg_heap::Agenda;

// Scanning few resources, or those of a solve of few steps, costs less than keeping keys.
const FEW: usize = 16;

const STEPS: usize = 8;

/// Returns whether these resources are given keys before this step of a max-min solve.
pub fn is_late(step: usize, reached: &[usize]) -> bool {
    step == STEPS && reached.len() > FEW
}

/// Returns whether a resource has a key.
pub fn has_keys(agenda: &Agenda) -> bool
    ensures some { result ≡ true → HaveKeys agenda.now }
    ensures none { result ≡ false → HaveNone agenda.now }
{
    match agenda.least() {
        None => false,
        Some(_) => true,
    }
}

// Gives a resource the key of its level, if a flow waits there, and else none.
fn date_anew(agenda: &mut Agenda, resource: usize, waiting: u64, level: u64)
    requires { resource < length agenda.old }
    ensures { agenda.new ≡ slice_set agenda.old resource (key_where waiting level) }
{
    if waiting == 0 {
        agenda.clear(resource);
    } else {
        agenda.set(resource, level as u128, Serial(0));
    }
}

/// Gives the listed resources their keys, if any are kept.
pub fn date_all(kept: bool, listed: &[usize], waiting: &[u64], levels: &[u64], agenda: &mut Agenda)
    requires waiting { All (λ c. c < length waiting.now) listed.now }
    requires levels { All (λ c. c < length levels.now) listed.now }
    requires slots { All (λ c. c < length agenda.old) listed.now }
    ensures slots { length agenda.new ≡ length agenda.old }
    ensures listed { kept ≡ true → (c : ℕ) → is_in c listed.now ≡ true
        → key_at agenda.new c ≡ key_where (slice_index waiting.now c) (slice_index levels.now c) }
    ensures others { (c : ℕ) → is_in c listed.now ≡ false
        → key_at agenda.new c ≡ key_at agenda.old c }
    ensures none { kept ≡ false → agenda.new ≡ agenda.old }
{
    if !kept {
        return;
    }
    for c in listed {
        date_anew(agenda, *c, waiting[*c], levels[*c]);
    }
}

/// Returns the resource whose level comes first, if that is this level or below.
pub fn due(agenda: &Agenda, low: u64) -> Option<usize>
    ensures first { IfSome result (λ c. IsSome (key_at agenda.now c)) }
    ensures none { IfNone result
        ((c : ℕ) (key : Key) → key_at agenda.now c ≡ Some key → low < key.date) }
{
    match agenda.least() {
        None => None,
        Some((c, date, _)) => { if date <= low as u128 { Some(c) } else { None } }
    }
}
