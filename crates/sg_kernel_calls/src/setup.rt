//! What stays of a simulation.
ghost use Rattle.std.specs.Prelude.{◌≡◌, ◌<◌};
ghost use Rattle.sg_base.specs.Limits.{IsActorIn};
ghost use Rattle.sg_platform_rows.specs.Network.{IsNetwork};
ghost use Rattle.sg_kernel_calls.specs.World.{extent, host_of};

use sg_base::{ActorId, PointId};
use sg_platform_rows::Network;
use std::marker::Model;

/// What stays of a simulation, except for the profiles, which `Profiles` holds.
///
/// Contracts see the setup of the definition, without its profiles.
pub struct Setup {
    /// How many hosts there are.
    pub hosts: usize,
    /// How many links there are, with the loopback.
    pub links: usize,
    /// What the network does to latencies and bandwidths.
    pub network: Network,
    /// The host of each actor.
    pub homes: Vec<PointId>,
    /// Whether each actor starts with the run.
    pub starts: Vec<bool>,
    /// How many mutexes there are.
    pub mutexes: usize,
    /// The capacity of each semaphore.
    pub semaphores: Vec<u64>,
    /// How many members the barrier has.
    pub members: u32,
    /// How many events there may be.
    pub budget: u64,
}

// A function of its own, so that a proof in which one is dropped doesn't go into its parts.
impl Drop for Setup {
    fn drop(self) {
        let Setup {
            hosts: _,
            links: _,
            network: _,
            homes: _,
            starts: _,
            mutexes: _,
            semaphores: _,
            members: _,
            budget: _,
        } = self;
    }
}

impl Model for Setup {
    ghost use Rattle.sg_kernel_calls.specs.Setup.{Setup};

    ghost Value = { Setup };

    ghost use Rattle.sg_kernel_calls.specs.kept.Constants.{setup_from, IsSetup};

    ghost view = { setup_from };

    ghost invariant = { λ s. IsSetup (setup_from s) };
}

impl Setup {
    /// Returns the host of an actor.
    pub(crate) fn host(&self, actor: ActorId) -> PointId
        requires { IsActorIn (extent self.now) actor }
        ensures is { result.0 ≡ host_of self.now actor.0 }
        ensures exists { result.0 < self.now.hosts }
    {
        self.homes[actor.index()]
    }

    /// Returns what the network does to latencies and bandwidths.
    pub fn network(&self) -> Network
        ensures value { result ≡ self.now.network }
        ensures kept { IsNetwork result }
    {
        self.network
    }

    /// Returns how many events there may be.
    pub(crate) fn budget(&self) -> u64
        ensures { result ≡ self.now.budget }
    {
        self.budget
    }
}
