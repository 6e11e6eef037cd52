//! What hosts draw, in milliwatts.
ghost use Rattle.std.specs.Prelude.{◌≡◌, is_none, map};
ghost use Rattle.sg_toml_rules.specs.Power.{milliwatts_in, powers_in, powers_of};
ghost use Rattle.sg_toml_tree.specs.Along.{first};
ghost use Rattle.sg_toml_tree.specs.Faults.{kind_if};
ghost use Rattle.sg_toml_tree.specs.declared.fault.Kind.TheVariants.{BadValue};
ghost use Rattle.toml.specs.View.{view};

use sg_toml_keys::whole_value;
use sg_toml_tree::Kind;
use toml::Value;

/// What a host that is on draws, in milliwatts.
#[derive(Clone, Copy)]
pub struct Powers {
    /// While it computes nothing.
    pub idle: u64,
    /// While it computes with nearly none of its capacity.
    pub epsilon: u64,
    /// While it computes with all of its capacity.
    pub all: u64,
}

fn milliwatts_in(item: &Value) -> Option<u64>
    ensures { result ≡ milliwatts_in (view item.now) }
{
    whole_value(0, 1_000_000_000, item.as_integer()?)
}

fn powers_of(idle: Option<u64>, epsilon: Option<u64>, all: Option<u64>) -> Option<Powers>
    ensures { result ≡ powers_of idle epsilon all }
{
    match (idle, epsilon, all) {
        (Some(idle), Some(epsilon), Some(all)) if epsilon <= all => {
            Some(Powers { idle, epsilon, all })
        }
        _ => None,
    }
}

/// Returns what three items give, of which the third is not less than the second.
pub fn powers_in(items: &[Value]) -> Option<Powers>
    ensures { result ≡ powers_in (map view items.now) }
{
    match items {
        [idle, epsilon, all] => {
            powers_of(
                milliwatts_in(idle),
                milliwatts_in(epsilon),
                milliwatts_in(all),
            )
        }
        _ => None,
    }
}

pub fn powers_fault(items: &[Value]) -> Option<Kind>
    ensures { result ≡ first (kind_if (is_none (powers_in (map view items.now))) BadValue) }
{
    match powers_in(items) {
        Some(_) => None,
        None => Some(Kind::BadValue),
    }
}
