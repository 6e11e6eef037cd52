//! Platforms.
ghost use Rattle.std.specs.Prelude.{◌≡◌};
ghost use Rattle.sg_platform_rows.specs.Platform.{IsPlatform, rows_view};

use crate::network::Network;
use crate::rows::{
    HostRow, LinkRow, PlatformRows, ProfileRow, RouteRow, RouterRow, SpokeRow, StateProfileRow,
    ZoneRouteRow, ZoneRow,
};
use std::marker::Model;

/// A platform, which contracts see as its rows.
pub struct PlatformText {
    rows: PlatformRows,
}

// A function of its own, so that a proof in which one is dropped doesn't go into its parts.
impl Drop for PlatformText {
    fn drop(self) {
        let PlatformText { rows: _ } = self;
    }
}

impl Model for PlatformText {
    ghost use Rattle.sg_platform_rows.specs.Platform.{IsPlatform, Platform, rows_view};

    ghost Value = { Platform };

    ghost view = { λ p. rows_view p.rows };

    ghost invariant = { λ p. IsPlatform (rows_view p.rows) };
}

impl PlatformText {
    /// Returns the platform with these rows.
    pub fn with_rows(rows: PlatformRows) -> PlatformText
        requires { IsPlatform (rows_view rows) }
        ensures { result ≡ rows_view rows }
    {
        PlatformText { rows }
    }

    /// The rows of a platform keep its limits, and each number in one is that of something declared. `zones` and `hosts`
    /// say so as well.
    pub fn rows_are_valid(&self)
        ensures { IsPlatform self.now }
    {
        let _rows = &self.rows;
    }

    /// Returns the zones, in declared order.
    pub fn zones(&self) -> &[ZoneRow]
        ensures rows { result.now ≡ self.now.zones }
        ensures kept { IsPlatform self.now }
    {
        self.rows.zones.as_slice()
    }

    /// Returns the hosts, in declared order.
    pub fn hosts(&self) -> &[HostRow]
        ensures rows { result.now ≡ self.now.hosts }
        ensures kept { IsPlatform self.now }
    {
        self.rows.hosts.as_slice()
    }

    /// Returns the routers, in declared order. They are points after the hosts.
    pub fn routers(&self) -> &[RouterRow]
        ensures rows { result.now ≡ self.now.routers }
    {
        self.rows.routers.as_slice()
    }

    /// Returns the links, in declared order.
    pub fn links(&self) -> &[LinkRow]
        ensures rows { result.now ≡ self.now.links }
    {
        self.rows.links.as_slice()
    }

    /// Returns the routes between points.
    pub fn routes(&self) -> &[RouteRow]
        ensures rows { result.now ≡ self.now.routes }
    {
        self.rows.routes.as_slice()
    }

    /// Returns the routes between children of a zone, of which at least one is a zone.
    pub fn zone_routes(&self) -> &[ZoneRouteRow]
        ensures rows { result.now ≡ self.now.zone_routes }
    {
        self.rows.zone_routes.as_slice()
    }

    /// Returns the spokes of Star zones.
    pub fn spokes(&self) -> &[SpokeRow]
        ensures rows { result.now ≡ self.now.spokes }
    {
        self.rows.spokes.as_slice()
    }

    /// Returns what it makes of latencies and bandwidths.
    pub fn network(&self) -> Network
        ensures value { result ≡ self.now.network }
    {
        self.rows.network
    }

    /// Returns the profiles of speeds and bandwidths, in declared order.
    pub fn profiles(&self) -> &[ProfileRow]
        ensures rows { result.now ≡ self.now.profiles }
    {
        self.rows.profiles.as_slice()
    }

    /// Returns the profiles of states, in declared order.
    pub fn state_profiles(&self) -> &[StateProfileRow]
        ensures rows { result.now ≡ self.now.state_profiles }
    {
        self.rows.state_profiles.as_slice()
    }
}
