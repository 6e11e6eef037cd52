//! What is run, and how.
ghost use Rattle.std.specs.Prelude.{◌<◌, ◌≤◌};
ghost use Rattle.sg_platform_rows.specs.Deployment.{IsDeployedOn};

use crate::show::Show;
use sg_platform_rows::{Deployment, PlatformText};
use std::alloc::Global;

/// How a run is made: by up to so many workers at once, with so many events at most, and how much is written.
#[derive(Clone, Copy)]
pub struct Terms {
    pub workers: u32,
    pub budget: u64,
    pub show: Show,
    ghost some: { 0 < workers },
    ghost few: { budget ≤ 1000000000 },
}

/// What is run, and how: a setup without its router, which is used only to answer calls, and the terms.
#[derive(Clone, Copy)]
pub struct Plan<'a> {
    /// Where memory is taken.
    pub alloc: Global,
    pub platform: &'a PlatformText,
    pub deployment: &'a Deployment,
    /// Without one each fetch of a line is refused.
    pub script: bool,
    pub terms: Terms,
    ghost deployed: { IsDeployedOn platform.now deployment.now },
}

/// What a plan is carried out by: with it the threads on which actors take their turns.
#[derive(Drop)]
pub struct Engine<'t, 'p, R> {
    pub rt: &'t R,
    pub plan: Plan<'p>,
}
