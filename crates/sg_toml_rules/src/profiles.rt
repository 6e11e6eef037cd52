//! Profiles: when the speed of a host, the bandwidth of a link or the state of one of them changes, and what it is from
//! then on.
ghost use Rattle.std.specs.Prelude.{◌≡◌, codes, is_some, map};
ghost use Rattle.std.specs.List.{list_all};
ghost use Rattle.sg_toml_tree.specs.Along.{first};
ghost use Rattle.sg_toml_rules.specs.Profiles.{amount_in, are_rising, dates_kinds, each_date_kinds, items_at, quantity_of, state_in};
ghost use Rattle.sg_toml_keys.specs.declared.units.Quantity.TheVariants.{Time};
ghost use Rattle.toml.specs.View.{view};
ghost use Rattle.toml.specs.Data.{get};

use crate::arguments::text_of;
use sg_toml_keys::Quantity;
use sg_toml_tree::Kind;
use toml::Value;

/// Returns whether the row of a profile names a host.
pub fn is_of_host(row: &Value) -> bool
    ensures { result ≡ is_some (get (codes "host") (view row.now)) }
{
    row.get("host").is_some()
}

/// Returns what the values of a profile are.
pub fn quantity_of(row: &Value) -> Quantity
    ensures { result ≡ quantity_of (view row.now) }
{
    if is_of_host(row) {
        Quantity::Speed
    } else {
        Quantity::Bandwidth
    }
}

/// Returns the items of the array at a key of a row: none if it is absent or no array.
#[tactic(auto, using(sg_toml_tree::proofs::TreeLemmas::list_of_items))]
pub fn items_at<'a>(row: &'a Value, key: &str) -> &'a [Value]
    ensures { map view result.now ≡ items_at key.now (view row.now) }
{
    match row.get(key) {
        Some(value) => match value.as_array() {
            Some(items) => items.as_slice(),
            None => &[],
        },
        None => &[],
    }
}

/// Returns the amount that an item gives.
pub fn amount_in(quantity: Quantity, item: &Value) -> Option<u64>
    ensures { result ≡ amount_in quantity (view item.now) }
{
    quantity.value(text_of(item).as_bytes())
}

/// Returns the state that an item gives: whether it is on.
pub fn state_in(item: &Value) -> Option<bool>
    ensures { result ≡ state_in (view item.now) }
{
    match text_of(item) {
        "on" => Some(true),
        "off" => Some(false),
        _ => None,
    }
}

/// Returns whether the items are one date or more, each later than the one before.
fn are_rising(items: &[Value]) -> bool
    ensures { result ≡ are_rising (map (amount_in Time) (map view items.now)) }
{
    let mut last: Option<u64> = None;
    for item in items {
        match (last, amount_in(Quantity::Time, item)) {
            (_, None) => return false,
            (Some(last), Some(date)) if date <= last => return false,
            (_, Some(date)) => last = Some(date),
        }
    }
    last.is_some()
}

/// Returns what is wrong with the dates of a profile.
#[tactic(auto, unfolding(crate::specs::Profiles::dates_kinds))]
pub fn dates_fault(items: &[Value]) -> Option<Kind>
    ensures { result ≡ first (dates_kinds (map view items.now)) }
{
    if !are_rising(items) {
        Some(Kind::BadValue)
    } else if items.len() > 1024 {
        Some(Kind::Limit)
    } else {
        None
    }
}

fn are_amounts(quantity: Quantity, items: &[Value]) -> bool
    ensures { result
        ≡ list_all (λ item. is_some (amount_in quantity item)) (map view items.now) }
{
    for item in items {
        if amount_in(quantity, item).is_none() {
            return false;
        }
    }
    true
}

fn are_states(items: &[Value]) -> bool
    ensures { result ≡ list_all (λ item. is_some (state_in item)) (map view items.now) }
{
    for item in items {
        if state_in(item).is_none() {
            return false;
        }
    }
    true
}

/// Returns what is wrong with the items of a row of which there is one for each date, if they fit their key.
#[tactic(auto, unfolding(crate::specs::Profiles::each_date_kinds))]
fn each_date_fault(row: &Value, items: &[Value], fit: bool) -> Option<Kind>
    ensures { result ≡ first (each_date_kinds (view row.now) (map view items.now) fit) }
{
    if items.len() != items_at(row, "dates").len() || !fit {
        Some(Kind::BadValue)
    } else if items.len() > 1024 {
        Some(Kind::Limit)
    } else {
        None
    }
}

/// Returns what is wrong with the values of a profile.
pub fn values_fault(row: &Value, items: &[Value]) -> Option<Kind>
    ensures { result
        ≡ first (each_date_kinds (view row.now) (map view items.now)
        (list_all (λ item. is_some (amount_in (quantity_of (view row.now)) item))
        (map view items.now))) }
{
    each_date_fault(row, items, are_amounts(quantity_of(row), items))
}

/// Returns what is wrong with the states of a profile.
pub fn states_fault(row: &Value, items: &[Value]) -> Option<Kind>
    ensures { result
        ≡ first (each_date_kinds (view row.now) (map view items.now)
        (list_all (λ item. is_some (state_in item)) (map view items.now))) }
{
    each_date_fault(row, items, are_states(items))
}
