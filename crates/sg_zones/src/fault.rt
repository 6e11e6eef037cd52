//! Why rows give no zone tree.
ghost use Rattle.std.specs.Prelude.{◌≡◌, ◌+◌, ◌<◌, ◌-◌, ◌^◌};
ghost use Rattle.sg_zones.specs.FaultWords.{zone_place, zone_words};
ghost use Rattle.sg_zones.specs.declared.fault.ZoneFault.TheVariants.{Memory};

use sg_toml_tree::Place;
use thiserror::Error;

/// Why rows give no zone tree.
#[derive(Debug, Drop, Error)]
pub enum ZoneFault {
    /// Each zone has a parent.
    #[error("no root zone")]
    NoRoot(Place),
    /// A second zone has none.
    #[error("two root zones")]
    TwoRoots(Place),
    /// Going up from the zone never reaches the root.
    #[error("zone cycle")]
    ParentCycle(Place),
    /// The zone's depth is above 16; the root has depth 1.
    #[error("zones too deep")]
    TooDeep(Place),
    /// A gateway isn't a point of the end that it stands for.
    #[error("gateway outside")]
    GatewayOutside(Place),
    /// The routing of the zone isn't that which the row needs, or the row's ends aren't children of it.
    #[error("wrong routing")]
    WrongRouting(Place),
    #[error("out of memory")]
    Memory,
}

impl ZoneFault {
    /// Returns in words what is wrong; nothing if memory ran out.
    pub fn words(&self) -> &'static str
        ensures { result.now ≡ zone_words self.now }
    {
        match self {
            ZoneFault::NoRoot(_) => "no root zone",
            ZoneFault::TwoRoots(_) => "two root zones",
            ZoneFault::ParentCycle(_) => "zone cycle",
            ZoneFault::TooDeep(_) => "zones too deep",
            ZoneFault::GatewayOutside(_) => "gateway outside",
            ZoneFault::WrongRouting(_) => "wrong routing",
            ZoneFault::Memory => "",
        }
    }

    /// Returns where it stands.
    pub fn place(&self) -> Option<Place>
        ensures { result ≡ zone_place self.now }
    {
        match self {
            ZoneFault::NoRoot(place)
            | ZoneFault::TwoRoots(place)
            | ZoneFault::ParentCycle(place)
            | ZoneFault::TooDeep(place)
            | ZoneFault::GatewayOutside(place)
            | ZoneFault::WrongRouting(place) => Some(*place),
            ZoneFault::Memory => None,
        }
    }
}

impl From<sg_base::Memory> for ZoneFault {
    ghost from_gives = { λ _ e. e ≡ Memory };

    fn from(_: sg_base::Memory) -> ZoneFault {
        ZoneFault::Memory
    }
}

/// Returns the place of a key in the row of this index.
pub(crate) fn place(table: u32, index: usize, key: u32) -> Place
    requires { index < 2 ^ 32 - 1 }
    ensures { result ≡ record { table = table; row = index + 1; key = key } }
{
    Place {
        table,
        row: index as u32 + 1,
        key,
    }
}
