//! The links that rows give, and their reverse.
ghost use Rattle.std.specs.Prelude.{◌≡◌, ◌≤◌, length, IfOk};
ghost use Rattle.sg_platform_rows.specs.Ends.{back_of, link_ends, way_back};

use crate::rows::{LinkRow, Policy};
use sg_base::{LinkId, Links, Memory};
use std::alloc::Global;

/// A link: its latency in nanoseconds, and the link that replaces it on the reverse route.
#[derive(Clone, Copy)]
pub struct LinkEnd {
    pub back: LinkId,
    pub latency: u64,
}

/// The latency of the loopback, in nanoseconds.
const LOOPBACK_LATENCY: u64 = 15_000;

fn link_end(back: u32, latency: u64) -> LinkEnd
    ensures { result ≡ record { back = record { 0 = back }; latency = latency } }
{
    LinkEnd {
        back: LinkId(back),
        latency,
    }
}

/// Returns the links of these rows in declared order, and last the loopback.
pub fn link_ends(alloc: Global, rows: &[LinkRow]) -> Result<Vec<LinkEnd>, Memory>
    requires { length rows.now ≤ 65536 }
    ensures { IfOk result (λ ends. ends.items ≡ link_ends rows.now) }
{
    let mut ends = Vec::new(alloc);
    let mut first: u32 = 0;
    for row in rows {
        match row.policy {
            Policy::Shared | Policy::Fatpipe => {
                ends.push(link_end(first, row.latency))?;
                first += 1;
            }
            Policy::SplitDuplex => {
                ends.push(link_end(first + 1, row.latency))?;
                ends.push(link_end(first, row.latency))?;
                first += 2;
            }
        }
    }
    ends.push(link_end(first, LOOPBACK_LATENCY))?;
    Ok(ends)
}

/// Returns the link that replaces this one on the reverse route.
fn back_of(ends: &[LinkEnd], link: LinkId) -> LinkId
    ensures { result ≡ back_of ends.now link }
{
    ends.get(link.0 as usize).map_or(LinkId(0), |end| end.back)
}

/// Returns the reverse of links: in reverse order, each replaced by that of its other direction.
#[tactic(auto, using(crate::proofs::WayBack::back_last))]
pub fn way_back(alloc: Global, ends: &[LinkEnd], links: &[LinkId]) -> Result<Links, Memory>
    ensures { IfOk result (λ back. back ≡ way_back ends.now links.now) }
{
    let mut back = Vec::new(alloc);
    let mut left = links;
    while let [rest @ .., link] = left {
        back.push(back_of(ends, *link))?;
        left = rest;
    }
    Ok(Links::from_vec(back))
}
