//! A flow's chain of uses is read by `look` alone, which counts.
ghost use Rattle.std.specs.Prelude.{◌<◌};
ghost use Rattle.sg_maxmin.specs.kept.Uses.{GoesOn, IsOneChain};

use crate::chains::Chains;
use crate::uses::Use;
use sg_base::Steps;
use std::sync::ledger::Ledger;

/// Returns the first use of a chain of `count` uses.
pub(crate) fn look<L: Ledger>(
    chains: &Chains,
    at: Option<usize>,
    count: usize,
    steps: &mut Steps<L>,
) -> Use
    requires some { 0 < count }
    requires chain { IsOneChain count chains.now.uses at }
    ensures { GoesOn count chains.now.uses at result steps.old steps.new }
{
    let Some(i) = at else { unreachable!() };
    chains.look(i, steps)
}
