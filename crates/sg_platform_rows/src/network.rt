//! What a platform makes of latencies and bandwidths.
ghost use Rattle.std.specs.Prelude.{◌≡◌, ◌≤◌, ◌*◌, ◌^◌, if◌then◌else◌, nat_le, None, Some};
ghost use Rattle.sg_platform_rows.specs.Network.{IsNetwork, bandwidth_over, latency_over, plain_network, window_bound};

/// Factors, and a window. The route from a host to itself has none of them.
#[derive(Clone, Copy)]
pub struct Network {
    /// What latencies are multiplied by, in millionths.
    pub latency_factor: u64,
    /// What bandwidths are multiplied by, in millionths.
    pub bandwidth_factor: u64,
    /// How many bytes a flow sends at most before the first of them is acknowledged, if that isn't 0.
    pub window: u64,
}

/// How many millionths one is.
const ONE: u64 = 1_000_000;

/// The greatest bound of a flow, in bytes per second.
const GREATEST_BOUND: u128 = 1_000_000_000_000_000;

fn if_bound(bound: u128) -> Option<u64>
    ensures { result ≡ (if nat_le bound (10 ^ 15) then Some bound else None) }
{
    if bound <= GREATEST_BOUND {
        Some(bound as u64)
    } else {
        None
    }
}

impl Network {
    /// Returns the network of a platform that says nothing of it: both factors are 1, and there is no window.
    pub fn plain() -> Network
        ensures { result ≡ plain_network }
    {
        Network {
            latency_factor: ONE,
            bandwidth_factor: ONE,
            window: 0,
        }
    }

    /// Returns the latency of a communication over a route of this latency, both in nanoseconds.
    pub fn latency_over(self, latency: u128) -> u128
        requires kept { IsNetwork self }
        requires short { latency ≤ 10 ^ 20 }
        ensures value { result ≡ latency_over self latency }
        ensures limit { result ≤ latency * 1000 }
    {
        latency * u128::from(self.latency_factor) / u128::from(ONE)
    }

    /// Returns what a declared link of this bandwidth carries, both in bytes per second.
    pub fn bandwidth_over(self, bandwidth: u64) -> u64
        requires kept { IsNetwork self }
        requires bandwidth { bandwidth ≤ 10 ^ 15 }
        ensures value { result ≡ bandwidth_over self bandwidth }
        ensures limit { result ≤ 10 ^ 18 }
    {
        (u128::from(bandwidth) * u128::from(self.bandwidth_factor) / u128::from(ONE)) as u64
    }

    /// Returns the bound that the window gives a flow over a route of this latency, which is that before the factor.
    pub fn window_bound(self, latency: u128) -> Option<u64>
        requires kept { IsNetwork self }
        requires short { latency ≤ 10 ^ 20 }
        ensures { result ≡ window_bound self latency }
    {
        if self.window == 0 || latency == 0 {
            return None;
        }
        if_bound(u128::from(self.window) * 1_000_000_000 / (2 * latency))
    }
}
