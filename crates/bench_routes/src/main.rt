//! Finds routes between hosts of a platform: `bench_routes PLATFORM COUNT [PAIRS]`. The hosts are drawn by a linear
//! congruential sequence, which begins anew after so many pairs. It prints how many routes there were, and how many
//! links they had in all.
//! It is entered by `main`.
//! It stands on `sg_platform` and `sg_route`.
#![tactic(auto)]

ghost use Rattle.std.specs.Prelude.{◌<◌};

use anyhow::{Context, bail};
use arrayvec::ArrayVec;
use sg_base::{LinkId, PointId};
use sg_platform::read_platform;
use sg_platform_rows::PlatformText;
use sg_route::Router;
use sg_zones::Zones;
use std::alloc::Global;
use std::{env, fs};

/// Returns the number after this one in the sequence.
fn next(x: u64) -> u64 {
    x.wrapping_mul(6_364_136_223_846_793_005)
        .wrapping_add(1_442_695_040_888_963_407)
}

/// Returns a host, by a number of the sequence.
fn host(x: u64, hosts: u64) -> PointId
    requires { 0 < hosts }
{
    PointId(((x >> 33) % hosts) as u32)
}

/// How many routes are asked for, and how many pairs of hosts there are.
#[derive(Clone, Copy)]
struct Load {
    count: u64,
    pairs: u64,
}

/// Returns how many of so many routes there are, and how many links they have in all.
fn ask(router: &mut Router, hosts: u64, load: Load) -> (u64, u64)
    requires { 0 < hosts }
{
    let mut links: ArrayVec<LinkId, 64> = ArrayVec::new();
    let mut routes: u64 = 0;
    let mut all: u64 = 0;
    let mut from: u64 = 1;
    let mut left = load.pairs;
    for _ in 0..load.count {
        if left == 0 {
            from = 1;
            left = load.pairs;
        }
        left = left.wrapping_sub(1);
        let to = next(from);
        if router
            .route(host(from, hosts), host(to, hosts), &mut links)
            .is_ok()
        {
            routes = routes.wrapping_add(1);
            all = all.wrapping_add(links.len() as u64);
        }
        from = next(to);
    }
    (routes, all)
}

/// Makes the router of a platform.
fn router_of(alloc: Global, platform: &PlatformText) -> anyhow::Result<Router> {
    let zones = Zones::build(alloc, platform)?;
    let Ok(router) = Router::build(alloc, platform, &zones) else {
        bail!("out of memory");
    };
    Ok(router)
}

fn main(rt: HostRuntime) -> anyhow::Result<()> {
    let alloc = rt.alloc();
    let mut words = env::args(&rt)?.skip(1);
    let path = words.next().context("no platform")?;
    let count = words.next().context("no count")?;
    let count: u64 = count.as_str().parse()?;
    let pairs: u64 = match words.next() {
        Some(word) => word.as_str().parse()?,
        None => count,
    };
    let text = fs::read_to_string(&rt, path.as_str())?;
    let platform = read_platform(alloc, text.as_bytes())?;
    let mut router = router_of(alloc, &platform)?;
    let hosts = platform.hosts().len() as u64;
    if hosts == 0 {
        bail!("no host");
    }
    let (routes, all) = ask(&mut router, hosts, Load { count, pairs });
    println!(rt; "{routes} routes, {all} links")?;
    Ok(())
}
