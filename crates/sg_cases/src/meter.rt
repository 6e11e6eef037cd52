//! What runs of one execution cost, and the greatest amounts.
use sg_base::{Memory, PointId};
use sg_energy::Meter;
use std::alloc::Global;
use std::test::Fail;

const HOST: PointId = PointId(1);

const SECOND: u64 = 1_000_000_000;

// A power in watts, and a span in nanoseconds.
type Stretch = (u16, u64);

// Returns what a host has used after two stretches.
fn told(alloc: Global, first: Stretch, second: Stretch) -> Result<(u128, u64), Memory> {
    let mut meter = Meter::new(alloc, 2)?;
    let change = u128::from(first.1);
    let end = change + u128::from(second.1);
    meter.set(HOST, u64::from(first.0) * 1000, 0);
    meter.set(HOST, u64::from(second.0) * 1000, change);
    Ok(meter.energy(HOST, end))
}

// The last date, and the energy of a gigawatt until then.
const LAST: u128 = 9_999_999_999_999_999_999_999_999_999_999_999;

const GREATEST: (u128, u64) = (9_999_999_999_999_999_999_999_999_999_999, 999_000_000_000);

// Returns what a host has used at the last date, and another one.
fn greatest(alloc: Global) -> Result<[(u128, u64); 2], Memory> {
    let mut meter = Meter::new(alloc, 2)?;
    meter.set(HOST, SECOND, 0);
    meter.set(HOST, 0, LAST);
    Ok([meter.energy(HOST, LAST), meter.energy(PointId(0), LAST)])
}

#[test]
fn runs_cost_so_much(rt: HostRuntime) -> Result<(), Fail> {
    // of a host of 200 W when it is busy, 120 W if an execution gets nothing, 100 W when idle, 5 W when off
    let table = [
        // busy for a second; the same with two cores, of which one is busy
        ((200, SECOND), (100, 0), (200, 0)),
        ((160, SECOND), (100, 0), (160, 0)),
        // nine tenths busy for 3.333333334 s
        ((192, 3_333_333_334), (100, 0), (640, 128_000)),
        // a second with another power, then a busy one: of speed 0, off, idle
        ((120, SECOND), (200, SECOND), (320, 0)),
        ((5, SECOND), (200, SECOND), (205, 0)),
        ((100, SECOND), (200, SECOND), (300, 0)),
        // busy for half a second, and for a whole one at half the speed
        ((200, SECOND / 2), (200, SECOND), (300, 0)),
        // what is missing to a joule comes after the change
        ((1, SECOND - 2), (2, SECOND + 1), (3, 0)),
    ];
    for (first, second, want) in table {
        assert_eq!(rt; told(rt.alloc(), first, second)?, want);
    }
    assert_eq!(rt; greatest(rt.alloc())?, [GREATEST, (0, 0)]);
    Ok(())
}
