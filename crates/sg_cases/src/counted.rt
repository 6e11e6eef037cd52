//! Tests that count visits, each with a counter of its own.
ghost use Rattle.sg_base.specs.Ledgers.{IsBlankOf};

use sg_base::{Memory, Steps};
use std::alloc::Global;
use std::marker::Brand;
use std::process::Abort;
use std::sync::ledger::{Blank, Ledger};
use std::test::Fail;

/// A test that counts visits.
pub(crate) trait Counted {
    /// Runs the test, and stops the program if it fails.
    fn run<R: Abort, L: Ledger>(
        &self,
        rt: &R,
        alloc: Global,
        steps: &mut Steps<L>,
    ) -> Result<(), Memory>;
}

// Runs a test with a counter that begins with this ledger.
fn run_from<C: Counted, R: Abort, L: Ledger>(
    test: &C,
    rt: &R,
    alloc: Global,
    blank: Blank,
) -> Result<(), Memory>
    requires { IsBlankOf L.name L.parts blank }
{
    let mut steps = Steps::<L>::new(blank);
    test.run(rt, alloc, &mut steps)
}

/// Runs a test with a counter of its own.
pub(crate) fn run<C: Counted, R: Abort>(test: &C, rt: &R, alloc: Global) -> Result<(), Fail> {
    run_from::<C, R, Brand>(test, rt, alloc, Blank::new(1))?;
    Ok(())
}
