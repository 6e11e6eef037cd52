//! What the network does to a communication over a route.
ghost use Rattle.std.specs.Prelude.{◌≡◌, ◌==◌, ◌≤◌, ◌^◌, None, Some, if◌then◌else◌};
ghost use Rattle.sg_activity_table.specs.Slots.{sooner};
ghost use Rattle.sg_platform_rows.specs.Network.{window_bound};
ghost use Rattle.sg_kernel_calls.specs.Network.{is_loopback, route_latency, own_bound};

use crate::setup::Setup;
use sg_base::LinkId;

fn is_loopback(count: usize, links: &[LinkId]) -> bool
    ensures { result ≡ is_loopback count links.now }
{
    match links {
        [link] => link.0 as usize + 1 == count,
        _ => false,
    }
}

fn sooner(a: Option<u64>, b: Option<u64>) -> Option<u64>
    ensures { result ≡ sooner a b }
{
    match (a, b) {
        (None, _) => b,
        (Some(_), None) => a,
        (Some(a), Some(b)) => Some(a.min(b)),
    }
}

// Returns the most that a rate allows; 0 stands for no rate.
fn rate_bound(rate: u64) -> Option<u64>
    ensures { result ≡ (if rate == 0 then None else Some rate) }
{
    if rate == 0 { None } else { Some(rate) }
}

impl Setup {
    // Returns the most that the window allows over a route. The loopback has no window.
    fn window_bound(&self, links: &[LinkId], latency: u128) -> Option<u64>
        requires short { latency ≤ 64000000000000000 }
        ensures { result ≡ (if is_loopback self.now.links links.now then None
            else window_bound self.now.network latency) }
    {
        if is_loopback(self.links, links) {
            None
        } else {
            self.network.window_bound(latency)
        }
    }

    /// Returns how long the latency of a route over these links lasts.
    pub(crate) fn latency_over(&self, links: &[LinkId], latency: u128) -> u128
        requires short { latency ≤ 64000000000000000 }
        ensures value { result ≡ route_latency self.now
            (record { links = links.now; latency = latency }) }
        ensures limit { result ≤ 10 ^ 20 }
    {
        if is_loopback(self.links, links) {
            latency
        } else {
            self.network.latency_over(latency)
        }
    }

    /// Returns what bounds a message of a rate over a route, beside its links.
    pub(crate) fn own_bound(&self, links: &[LinkId], latency: u128, rate: u64) -> Option<u64>
        requires short { latency ≤ 64000000000000000 }
        ensures { result ≡ own_bound self.now
            (record { links = links.now; latency = latency }) rate }
    {
        sooner(rate_bound(rate), self.window_bound(links, latency))
    }
}
