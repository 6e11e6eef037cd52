//! What activities are made of.
use sg_base::{PointId, Serial};

/// What an activity does in one of its phases.
#[derive(Clone, Copy)]
pub enum PhaseKind {
    /// A communication lets the latency of its route pass.
    Latency,
    /// The bytes of a communication flow over its route.
    Flow,
    /// It computes on its host.
    Exec,
    /// It lets a time pass.
    Timer,
    /// Its execution is suspended: it keeps its remaining work, and gets nothing until it is resumed.
    Kept,
}

/// The place of a phase.
#[derive(Clone, Copy)]
pub enum Place {
    /// A sleep uses no resource.
    Nowhere,
    /// An execution is on its host.
    OnHost(PointId),
    /// A communication is over a route of so many links, from the host of its sender to that of its receiver.
    Over {
        sender: PointId,
        receiver: PointId,
        links: u32,
    },
}

/// A phase that completes.
#[derive(Clone, Copy)]
pub struct Phase {
    pub serial: Serial,
    pub kind: PhaseKind,
}

/// What a host takes, in milliwatts: without an execution, at the least load, at full load, and while it is off.
#[derive(Clone, Copy)]
pub struct Power {
    pub idle: u64,
    pub epsilon: u64,
    pub all: u64,
    pub off: u64,
}

/// What a host offers: so many flops a second on each of its cores. Executions get together at most what all
/// the cores offer, and one execution at most what one core offers. Its energy is counted if its power is known.
#[derive(Clone, Copy)]
pub struct HostCap {
    pub speed: u64,
    pub cores: u32,
    pub power: Option<Power>,
}

/// What a link offers, in bytes a second: the flows over a link get together at most its bandwidth, and on a FATPIPE
/// link each flow gets at most the bandwidth, whatever the others get.
#[derive(Clone, Copy)]
pub struct LinkCap {
    pub bandwidth: u64,
    pub fatpipe: bool,
}
