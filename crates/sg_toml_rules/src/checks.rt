//! The first rule that a key of a row breaks.
ghost use Rattle.std.specs.Prelude.{◌≡◌, IfOk, IfSome, Some, ◌≤◌, ◌+◌, ◌++◌, ◌∷◌, [], codes, false, is_none, is_some, length, map, nat_lt, not, option_and_then};
ghost use Rattle.std.specs.HashMap.{get_by, get_by_text};
ghost use Rattle.std.specs.List.{list_all, list_any};
ghost use Rattle.std.specs.Option.{option_map_or};
ghost use Rattle.sg_toml_tree.specs.Along.{first};
ghost use Rattle.sg_toml_tree.specs.Faults.{kind_if};
ghost use Rattle.sg_toml_tree.specs.declared.fault.Kind.TheVariants as kind;
ghost use Rattle.sg_toml_tree.specs.kept.NamesView.{names_view};
ghost use Rattle.sg_toml_tree.specs.Pairs.{pairs_of};
ghost use Rattle.sg_toml_keys.specs.Units.{whole_value};
ghost use Rattle.sg_toml_keys.specs.kept.Shown.{key_of, need_of};
ghost use Rattle.sg_toml_keys.specs.declared.tables.TextRule.TheVariants as rule;
ghost use Rattle.sg_toml_tree.specs.NameSpaces.{pair_eq};
ghost use Rattle.sg_toml_tree.specs.Spelling.{is_name, is_name_byte, split_names};
ghost use Rattle.sg_toml_tree.specs.Tree.{text_at};
ghost use Rattle.toml.specs.Data.{as_integer, as_str};
ghost use Rattle.sg_toml_rules.specs.Arguments.{text_of};
ghost use Rattle.sg_toml_rules.specs.Power.{powers_in};
ghost use Rattle.sg_toml_rules.specs.Rules.{default_kinds, end_kinds, host_kinds, id_kinds, is_pair_taken, is_required, is_below, key_kinds, link_id_kinds, link_list_kinds, list_kinds, point_kinds, profiled_link_kinds, text_kinds, texts_kinds, value_kinds, word_kinds};
ghost use Rattle.toml.specs.View.{view};

use crate::arguments::{argument_fault, text_of};
use crate::power::powers_fault;
use crate::profiles::{dates_fault, is_of_host, states_fault, values_fault};
use arrayvec::ArrayString;
use indexmap::IndexMap;
use sg_base::Memory;
use sg_toml_keys::{Key, Need, Rule, TextRule, TextsRule, whole_value};
use sg_toml_tree::{Kind, Names, is_split, is_symmetrical, point_at};
use std::alloc::Global;
use toml::Value;

fn is_name_byte(byte: u8) -> bool
    ensures { result ≡ is_name_byte byte }
{
    byte.is_ascii_alphanumeric() || byte == b'_' || byte == b'.' || byte == b'-'
}

fn are_name_bytes(text: &[u8]) -> bool
    ensures { result ≡ list_all is_name_byte text.now }
{
    text.iter().all(|byte| is_name_byte(*byte))
}

/// Returns whether a text is a name: 1 to 64 letters, digits, underscores, points and hyphens.
#[tactic(auto, unfolding(sg_toml_tree::specs::Spelling::is_name))]
fn is_name(text: &[u8]) -> bool
    ensures { result ≡ is_name text.now }
{
    let fits = are_name_bytes(text);
    text.len() != 0 && text.len() <= 64 && fits
}

/// Returns whether an earlier row than this has the name.
fn is_given(space: &IndexMap<String, u32>, number: usize, name: &str) -> bool
    ensures { result ≡ is_below (get_by_text space.now name.now) number }
{
    match space.get(name) {
        Some(first) => (*first as usize) < number,
        None => false,
    }
}

#[tactic(auto, unfolding(crate::specs::Rules::id_kinds))]
fn id_fault(space: &IndexMap<String, u32>, number: usize, name: &str) -> Option<Kind>
    ensures { result ≡ first (id_kinds (λ name. get_by_text space.now name) number name.now) }
{
    if !is_name(name.as_bytes()) {
        Some(Kind::BadName)
    } else if is_given(space, number, name) {
        Some(Kind::Duplicate)
    } else {
        None
    }
}

/// Returns whether an earlier row than this has the name with an end.
fn is_end_given(space: &IndexMap<String, u32>, number: usize, name: &str, end: &str) -> bool
    requires { length name.now + length end.now ≤ 64 }
    ensures { result ≡ is_below (get_by_text space.now (name.now ++ end.now)) number }
{
    let mut text = ArrayString::<64>::new();
    text.push_str(name);
    text.push_str(end);
    is_given(space, number, text.as_str())
}

/// Returns whether an earlier row than this has a name of a direction of the link.
fn is_split_given(space: &IndexMap<String, u32>, number: usize, id: &str) -> bool
    requires { length id.now ≤ 59 }
    ensures { result
        ≡ list_any (λ name. is_below (get_by_text space.now name) number) (split_names id.now) }
{
    let up = is_end_given(space, number, id, "_UP");
    let down = is_end_given(space, number, id, "_DOWN");
    up || down
}

#[tactic(auto, unfolding(crate::specs::Rules::link_id_kinds))]
fn link_id_fault(
    taken: &IndexMap<String, u32>,
    number: usize,
    split: bool,
    id: &str,
) -> Option<Kind>
    ensures { result
        ≡ first (link_id_kinds (λ name. get_by_text taken.now name) number split id.now) }
{
    if !is_name(id.as_bytes()) {
        return Some(Kind::BadName);
    }
    if split {
        if id.len() > 59 {
            return Some(Kind::BadName);
        }
        if is_given(taken, number, id) || is_split_given(taken, number, id) {
            return Some(Kind::Duplicate);
        }
        None
    } else if is_given(taken, number, id) {
        Some(Kind::Duplicate)
    } else {
        None
    }
}

fn zone_fault(names: &Names, name: &str) -> Option<Kind>
    ensures { result
        ≡ first (kind_if
        (not (is_below ((names_view names.now).points name.now) names.now.zones))
        kind.Unknown) }
{
    match names.points.get(name) {
        Some(first) if *first < names.zones => None,
        _ => Some(Kind::Unknown),
    }
}

#[tactic(auto, unfolding(crate::specs::Rules::point_kinds))]
fn point_fault(names: &Names, name: &str) -> Option<Kind>
    ensures { result ≡ first (point_kinds (names_view names.now) name.now) }
{
    match names.points.get(name) {
        Some(first) if *first >= names.zones => None,
        _ => Some(Kind::Unknown),
    }
}

#[tactic(auto, unfolding(crate::specs::Rules::end_kinds))]
fn end_fault(names: &Names, name: &str) -> Option<Kind>
    ensures { result ≡ first (end_kinds (names_view names.now) name.now) }
{
    match names.points.get(name) {
        Some(_) => None,
        None => Some(Kind::Unknown),
    }
}

/// Returns the number of the row that gave the pair first, if the entry at this index is that of the pair.
fn first_at(pairs: &IndexMap<(u32, u32), u32>, index: usize, pair: (u32, u32)) -> Option<u32>
    ensures { IfSome result (λ first. get_by (pair_eq pair) pairs.now ≡ Some first) }
{
    match pairs.get_index(index) {
        Some((there, first)) if there.0 == pair.0 && there.1 == pair.1 => Some(*first),
        _ => None,
    }
}

/// Returns the number of the row that gave the pair first, which may be the row of this number.
fn first_row(pairs: &IndexMap<(u32, u32), u32>, number: usize, pair: (u32, u32)) -> Option<u32>
    ensures { result ≡ get_by (pair_eq pair) pairs.now }
{
    // Most rows give two pairs that no other row gives. Then theirs are the entries at twice their number and the next
    // one, and a walk over rows finds them in order. Anywhere else a hash finds them, far apart.
    let index = number.wrapping_mul(2);
    if let Some(first) = first_at(pairs, index, pair) {
        return Some(first);
    }
    match first_at(pairs, index.wrapping_add(1), pair) {
        Some(first) => Some(first),
        None => pairs.get(&pair).copied(),
    }
}

/// Returns whether an earlier row than this gave the pair.
pub fn is_given_pair(pairs: &IndexMap<(u32, u32), u32>, number: usize, pair: (u32, u32)) -> bool
    ensures { result ≡ is_below (get_by (pair_eq pair) pairs.now) number }
{
    match first_row(pairs, number, pair) {
        Some(first) => (first as usize) < number,
        None => false,
    }
}

/// Returns whether an earlier row than this gave a pair that the row gives.
#[tactic(auto, unfolding(sg_toml_tree::specs::Pairs::pairs_of, crate::specs::Rules::is_pair_taken))]
fn is_pair_taken(
    pairs: &IndexMap<(u32, u32), u32>,
    points: &IndexMap<String, u32>,
    number: usize,
    row: &Value,
) -> bool
    ensures { result
        ≡ is_pair_taken (λ p. get_by (pair_eq p) pairs.now) (λ q. get_by_text points.now q) number
        (view row.now) }
{
    match (point_at(points, row, "src"), point_at(points, row, "dst")) {
        (Some(a), Some(b)) => {
            let there = is_given_pair(pairs, number, (a, b));
            if is_symmetrical(row) {
                there || is_given_pair(pairs, number, (b, a))
            } else {
                there
            }
        }
        _ => false,
    }
}

fn route_end_fault(names: &Names, number: usize, row: &Value, name: &str) -> Option<Kind>
    ensures { result
        ≡ first (text_kinds (names_view names.now) number (view row.now) rule.RouteEnd name.now) }
{
    if is_pair_taken(&names.pairs, &names.points, number, row) {
        Some(Kind::Duplicate)
    } else {
        point_fault(names, name)
    }
}

fn zone_route_end_fault(names: &Names, number: usize, row: &Value, name: &str) -> Option<Kind>
    ensures { result
        ≡ first (text_kinds (names_view names.now) number (view row.now) rule.ZoneRouteEnd
        name.now) }
{
    if is_pair_taken(&names.zone_pairs, &names.points, number, row) {
        Some(Kind::Duplicate)
    } else {
        end_fault(names, name)
    }
}

fn child_fault(names: &Names, number: usize, name: &str) -> Option<Kind>
    ensures { result
        ≡ first (kind_if (is_below (get_by_text names.now.children name.now) number) kind.Duplicate
        ++ end_kinds (names_view names.now) name.now) }
{
    if is_given(&names.children, number, name) {
        Some(Kind::Duplicate)
    } else {
        end_fault(names, name)
    }
}

#[tactic(auto, unfolding(crate::specs::Rules::host_kinds))]
fn host_fault(names: &Names, name: &str) -> Option<Kind>
    ensures { result ≡ first (host_kinds (names_view names.now) name.now) }
{
    match names.points.get(name) {
        Some(first) if *first >= names.zones && *first - names.zones < names.hosts => None,
        _ => Some(Kind::Unknown),
    }
}

/// Returns what is wrong with the name of a host that no earlier row of a table of profiles may have.
fn profiled_host_fault(
    names: &Names,
    earlier: &IndexMap<String, u32>,
    number: usize,
    name: &str,
) -> Option<Kind>
    ensures { result
        ≡ first (kind_if (is_below (get_by_text earlier.now name.now) number) kind.Duplicate
        ++ host_kinds (names_view names.now) name.now) }
{
    if is_given(earlier, number, name) {
        Some(Kind::Duplicate)
    } else {
        host_fault(names, name)
    }
}

#[tactic(auto, unfolding(crate::specs::Rules::profiled_link_kinds))]
fn profiled_link_fault(
    names: &Names,
    earlier: &IndexMap<String, u32>,
    number: usize,
    row: &Value,
    name: &str,
) -> Option<Kind>
    ensures { result
        ≡ first (profiled_link_kinds (names_view names.now) (λ q. get_by_text earlier.now q) number
        (view row.now) name.now) }
{
    if is_of_host(row) {
        Some(Kind::BadValue)
    } else if is_given(earlier, number, name) {
        Some(Kind::Duplicate)
    } else if names.links.contains_key(name) {
        None
    } else {
        Some(Kind::Unknown)
    }
}

fn positive_fault(value: Option<u64>) -> Option<Kind>
    ensures { result
        ≡ first (kind_if (not (option_map_or (nat_lt 0) value false)) kind.BadValue) }
{
    match value {
        Some(value) if value > 0 => None,
        _ => Some(Kind::BadValue),
    }
}

#[tactic(auto, unfolding(crate::specs::Rules::word_kinds))]
fn routing_fault(text: &str) -> Option<Kind>
    ensures { result
        ≡ first (word_kinds (codes "Full" ∷ codes "Star" ∷ codes "Dijkstra" ∷ []) kind.BadValue
        text.now) }
{
    match text {
        "Full" | "Star" | "Dijkstra" => None,
        _ => Some(Kind::BadValue),
    }
}

fn refused_fault(value: Option<u64>) -> Option<Kind>
    ensures { result ≡ first (kind_if (is_none value) kind.BadValue) }
{
    match value {
        Some(_) => None,
        None => Some(Kind::BadValue),
    }
}

#[tactic(auto, unfolding(crate::specs::Rules::word_kinds))]
fn policy_fault(text: &str) -> Option<Kind>
    ensures { result
        ≡ first (word_kinds (codes "SHARED" ∷ codes "FATPIPE" ∷ codes "SPLITDUPLEX" ∷ [])
        kind.BadValue text.now) }
{
    if text == "SHARED" || text == "FATPIPE" || text == "SPLITDUPLEX" {
        None
    } else {
        Some(Kind::BadValue)
    }
}

#[tactic(auto, unfolding(crate::specs::Rules::word_kinds))]
fn function_fault(text: &str) -> Option<Kind>
    ensures { result
        ≡ first (word_kinds (codes "replay" ∷ codes "master" ∷ codes "worker" ∷ []) kind.Function
        text.now) }
{
    match text {
        "replay" | "master" | "worker" => None,
        _ => Some(Kind::Function),
    }
}

fn text_fault(names: &Names, number: usize, row: &Value, rule: TextRule, text: &str) -> Option<Kind>
    ensures { result
        ≡ first (text_kinds (names_view names.now) number (view row.now) rule text.now) }
{
    match rule {
        TextRule::NewPoint => id_fault(&names.points, number, text),
        TextRule::NewLink => link_id_fault(&names.taken, number, is_split(row), text),
        TextRule::NewActor => id_fault(&names.actors, number, text),
        TextRule::NewMutex => id_fault(&names.mutexes, number, text),
        TextRule::NewSemaphore => id_fault(&names.semaphores, number, text),
        TextRule::ZoneName => zone_fault(names, text),
        TextRule::PointName => point_fault(names, text),
        TextRule::EndName => end_fault(names, text),
        TextRule::HostName => host_fault(names, text),
        TextRule::RouteEnd => route_end_fault(names, number, row, text),
        TextRule::ZoneRouteEnd => zone_route_end_fault(names, number, row, text),
        TextRule::SpokeChild => child_fault(names, number, text),
        TextRule::RoutingWord => routing_fault(text),
        TextRule::PolicyWord => policy_fault(text),
        TextRule::FunctionWord => function_fault(text),
        TextRule::PositiveValue(quantity) => positive_fault(quantity.value(text.as_bytes())),
        TextRule::AnyValue(quantity) => refused_fault(quantity.value(text.as_bytes())),
        TextRule::ProfiledHost => profiled_host_fault(names, &names.profiles.hosts, number, text),
        TextRule::ProfiledLink => profiled_link_fault(
            names,
            &names.profiles.links,
            number,
            row,
            text,
        ),
        TextRule::SwitchedHost => profiled_host_fault(
            names,
            &names.state_profiles.hosts,
            number,
            text,
        ),
        TextRule::SwitchedLink => profiled_link_fault(
            names,
            &names.state_profiles.links,
            number,
            row,
            text,
        ),
    }
}

fn whole_fault(least: u64, greatest: u64, number: i64) -> Option<Kind>
    ensures { result
        ≡ first (kind_if (is_none (whole_value least greatest number)) kind.BadValue) }
{
    match whole_value(least, greatest, number) {
        Some(_) => None,
        None => Some(Kind::BadValue),
    }
}

pub fn are_texts(items: &[Value]) -> bool
    ensures { result ≡ list_all (λ d. is_some (as_str d)) (map view items.now) }
{
    for item in items {
        if item.as_str().is_none() {
            return false;
        }
    }
    true
}

fn is_unknown(links: &IndexMap<String, u32>, item: &Value) -> bool
    ensures { result ≡ is_none (get_by_text links.now (text_of (view item.now))) }
{
    match links.get(text_of(item)) {
        Some(_) => false,
        None => true,
    }
}

fn has_unknown(links: &IndexMap<String, u32>, items: &[Value]) -> bool
    ensures { result
        ≡ list_any (λ d. is_none (get_by_text links.now (text_of d))) (map view items.now) }
{
    for item in items {
        if is_unknown(links, item) {
            return true;
        }
    }
    false
}

#[tactic(auto, unfolding(crate::specs::Rules::link_list_kinds))]
pub fn link_list_fault(links: &IndexMap<String, u32>, items: &[Value]) -> Option<Kind>
    ensures { result
        ≡ first (link_list_kinds (λ name. get_by_text links.now name) (map view items.now)) }
{
    if items.len() == 0 {
        Some(Kind::BadValue)
    } else if has_unknown(links, items) {
        Some(Kind::Unknown)
    } else if items.len() > 64 {
        Some(Kind::Limit)
    } else {
        None
    }
}

fn texts_fault(
    alloc: Global,
    names: &Names,
    row: &Value,
    rule: TextsRule,
    items: &[Value],
) -> Result<Option<Kind>, Memory>
    ensures { IfOk result
        (λ fault. fault
        ≡ first (texts_kinds (names_view names.now) (view row.now) rule (map view items.now))) }
{
    match rule {
        TextsRule::LinkList => Ok(link_list_fault(&names.links, items)),
        TextsRule::DateList => Ok(dates_fault(items)),
        TextsRule::ValueList => Ok(values_fault(row, items)),
        TextsRule::StateList => Ok(states_fault(row, items)),
        TextsRule::ArgumentList => argument_fault(alloc, &names.workers, row, items),
    }
}

fn list_fault(
    alloc: Global,
    names: &Names,
    row: &Value,
    rule: TextsRule,
    items: &[Value],
) -> Result<Option<Kind>, Memory>
    ensures { IfOk result
        (λ fault. fault
        ≡ first (list_kinds (λ d. is_some (as_str d))
        (texts_kinds (names_view names.now) (view row.now) rule) (map view items.now))) }
{
    if are_texts(items) {
        texts_fault(alloc, names, row, rule, items)
    } else {
        Ok(Some(Kind::WrongType))
    }
}

fn are_wholes(items: &[Value]) -> bool
    ensures { result ≡ list_all (λ d. is_some (as_integer d)) (map view items.now) }
{
    for item in items {
        if item.as_integer().is_none() {
            return false;
        }
    }
    true
}

fn whole_list_fault(items: &[Value]) -> Option<Kind>
    ensures { result
        ≡ first (list_kinds (λ d. is_some (as_integer d))
        (λ ds. kind_if (is_none (powers_in ds)) kind.BadValue) (map view items.now)) }
{
    if are_wholes(items) {
        powers_fault(items)
    } else {
        Some(Kind::WrongType)
    }
}

#[tactic(auto, unfolding(crate::specs::Rules::value_kinds), using(sg_toml_tree::proofs::TreeLemmas::list_of_items))]
fn value_fault(
    alloc: Global,
    names: &Names,
    number: usize,
    row: &Value,
    rule: Rule,
    value: &Value,
) -> Result<Option<Kind>, Memory>
    ensures { IfOk result
        (λ fault. fault
        ≡ first (value_kinds (names_view names.now) number (view row.now) rule (view value.now))) }
{
    match rule {
        Rule::Text(rule) => match value.as_str() {
            None => Ok(Some(Kind::WrongType)),
            Some(text) => Ok(text_fault(names, number, row, rule, text)),
        },
        Rule::Whole(least, greatest) => match value.as_integer() {
            None => Ok(Some(Kind::WrongType)),
            Some(number) => Ok(whole_fault(least, greatest, number)),
        },
        Rule::Truth => if value.as_bool().is_some() {
            Ok(None)
        } else {
            Ok(Some(Kind::WrongType))
        },
        Rule::Texts(rule) => match value.as_array() {
            None => Ok(Some(Kind::WrongType)),
            Some(items) => list_fault(alloc, names, row, rule, items.as_slice()),
        },
        Rule::Powers => match value.as_array() {
            None => Ok(Some(Kind::WrongType)),
            Some(items) => Ok(whole_list_fault(items.as_slice())),
        },
    }
}

/// Returns whether a key of the row is there and names a zone.
fn names_zone(names: &Names, row: &Value, key: &str) -> bool
    ensures { result
        ≡ is_below (option_and_then (names_view names.now).points (text_at key.now (view row.now)))
        names.now.zones }
{
    match point_at(&names.points, row, key) {
        Some(number) => number < names.zones,
        None => false,
    }
}

fn is_required(names: &Names, row: &Value, need: Need<&'static str>) -> bool
    ensures { result ≡ is_required (names_view names.now) (view row.now) (need_of need.entry) }
{
    match need {
        Need::Required => true,
        Need::Optional => false,
        Need::IfZone(name) => names_zone(names, row, name),
        Need::Unless(name) => row.get(name).is_none(),
    }
}

/// Returns what is wrong if an optional key is left out.
fn default_fault(
    alloc: Global,
    names: &Names,
    row: &Value,
    rule: Rule,
) -> Result<Option<Kind>, Memory>
    ensures { IfOk result
        (λ fault. fault ≡ first (default_kinds (names_view names.now) (view row.now) rule)) }
{
    match rule {
        Rule::Texts(TextsRule::ArgumentList) => argument_fault(alloc, &names.workers, row, &[]),
        _ => Ok(None),
    }
}

/// Returns the first rule that a key of a row breaks. The row has this number among the rows that share its space of
/// names.
#[tactic(auto, unfolding(crate::specs::Rules::key_kinds))]
pub fn key_fault(
    alloc: Global,
    names: &Names,
    number: usize,
    row: &Value,
    key: Key<&'static str>,
) -> Result<Option<Kind>, Memory>
    ensures { IfOk result
        (λ fault. fault
        ≡ first (key_kinds (names_view names.now) number (view row.now) (key_of key.entry))) }
{
    match row.get(key.name) {
        None => if is_required(names, row, key.need) {
            Ok(Some(Kind::MissingKey))
        } else {
            default_fault(alloc, names, row, key.rule)
        },
        Some(value) => value_fault(alloc, names, number, row, key.rule, value),
    }
}
