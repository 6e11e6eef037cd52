//! Entries of profiles.

ghost use Rattle.std.specs.Prelude.{◌≡◌, ◌<◌, [], MatchOption, Ok, OnOk, drop, length};
ghost use Rattle.sg_profile.specs.Profiles.{IsEntry};
ghost use Rattle.sg_platform_rows.specs.Network.{IsNetwork};
ghost use Rattle.sg_kernel_calls.specs.Steps.{each, goes_on};
ghost use Rattle.sg_kernel.specs.Passes.{changes, enters};
ghost use Rattle.sg_kernel.specs.kept.Acts.{CanEnter, Changes, Enters};
ghost use Rattle.sg_kernel.specs.kept.Coming.{CountsSome, IsApplied, IsDueEntry, row_next, rows_now};
ghost use Rattle.sg_kernel_calls.specs.kept.Sound.{setup_in, IsTimely};
ghost use Rattle.sg_kernel_calls.specs.kept.Whole.{IsPassing};

use crate::failures::fail_all;
use sg_activity::Activities;
use sg_kernel_calls::{Fields, Stop, event};
use sg_platform_rows::Network;
use sg_profile::Entry;

// Returns the next entry of all, if it is of this date.
fn due_entry(fields: &Fields) -> Option<Entry>
    requires timely { IsTimely fields.now }
    ensures { MatchOption result (rows_now fields.now ≡ [])
        (λ entry. IsDueEntry fields.now entry) }
{
    let Some((date, entry)) = fields.profiles.next() else {
        return None;
    };
    if date == fields.doing.date() {
        Some(entry)
    } else {
        None
    }
}

// Applies what an entry changes.
fn apply(doing: &mut Activities, network: Network, entry: Entry)
    requires network { IsNetwork network }
    requires entry { IsEntry (length doing.old.under.capacities.hosts)
        (length doing.old.under.capacities.links) entry }
    ensures { IsApplied network entry doing.old doing.new }
{
    match entry {
        Entry::Speed(host, speed) => doing.set_speed(host, speed),
        Entry::HostOn(host, on) => doing.set_host_on(host, on),
        Entry::LinkOn(link, on) => doing.set_link_on(link, on),
        Entry::Bandwidth(link, bandwidth) => {
            doing.set_bandwidth(link, network.bandwidth_over(bandwidth));
        }
    }
}

// Applies the next entry, and moves its row past it.
fn enter(fields: &mut Fields, entry: Entry)
    requires { CanEnter fields.old entry }
    ensures enters { Enters
        (λ core. goes_on (enters (setup_in fields.old) (row_next fields.old) core) [])
        fields.old fields.new }
    ensures rows { rows_now fields.new ≡ drop 1 (rows_now fields.old) }
{
    apply(&mut fields.doing, fields.setup.network(), entry);
    fields.profiles.step();
}

// Applies the next entry, with all that comes with it, as far as the budget goes.
fn change(fields: &mut Fields, entry: Entry) -> Result<(), Stop>
    requires { CanEnter fields.old entry }
    ensures changes { Changes (changes (setup_in fields.old) (row_next fields.old))
        fields.old fields.new result }
    ensures rows { OnOk result (rows_now fields.new ≡ drop 1 (rows_now fields.old)) }
    ensures events { CountsSome (rows_now fields.old) fields.old fields.new }
{
    event(fields)?;
    enter(fields, entry);
    fail_all(fields)
}

/// Applies the entries of the date in order of rows, as far as the budget goes.
pub(crate) fn change_due(fields: &mut Fields) -> Result<(), Stop>
    requires { IsPassing fields.old }
    ensures changes { Changes (each (changes (setup_in fields.old)) (rows_now fields.old))
        fields.old fields.new result }
    ensures idle { rows_now fields.old ≡ [] → fields.new.doing.due ≡ fields.old.doing.due }
    ensures events { CountsSome (rows_now fields.old) fields.old fields.new }
{
    while let Some(entry) = due_entry(fields) {
        match change(fields, entry) {
            Ok(()) => {}
            Err(stop) => return Err(stop),
        }
    }
    Ok(())
}
