//! What the lines at the end of a run report.
ghost use Rattle.sg_engine.specs.kept.Invariant.{IsOfSetup};

use crate::plan::Plan;
use sg_kernel::Kernel;

/// The plan of a run, and the kernel as its end has left it.
#[derive(Clone, Copy)]
pub struct Final<'p, 'k> {
    pub plan: Plan<'p>,
    pub kernel: &'k Kernel,
    ghost of: { IsOfSetup plan.platform.now plan.deployment.now kernel.now },
}
