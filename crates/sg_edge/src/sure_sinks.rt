//! Streams that never fail.
ghost use Rattle.std.specs.Prelude.{◌≡◌, ◌<◌, ◌≤◌, ℕ, List, Option, length, take, IfOk, OnOk, OnErr, None, Ok};
ghost use Rattle.sg_edge.specs.Sinks.{gain, SameBut};

use crate::files::Failed;
use crate::sinks::{Sinks, Stream};

/// Streams that take each piece whole, keep nothing and report no contents. No write to them ever fails.
#[derive(Drop)]
pub struct SureSinks;

impl SureSinks {
    pub fn new() -> SureSinks {
        SureSinks
    }
}

impl Sinks for SureSinks {
    ghost use Rattle.sg_edge.specs.SureSinks.{sure_contents, sure_faults};

    ghost contents = { sure_contents };

    ghost faults = { sure_faults };

    fn write(&mut self, to: Stream, piece: &[u8]) -> Result<usize, Failed>
        requires sound { sure_faults self.old ≡ 0 }
        ensures wrote { IfOk result
            (λ n. sure_contents self.new to ≡ gain (sure_contents self.old to) (take n piece.now)) }
        ensures sound { OnOk result (sure_faults self.new ≡ sure_faults self.old) }
        ensures nothing { OnErr result (sure_contents self.new to ≡ sure_contents self.old to) }
        ensures failed { OnErr result (sure_faults self.old < sure_faults self.new) }
        ensures other { SameBut to (sure_contents self.old) (sure_contents self.new) }
        ensures sure { result ≡ Ok (length piece.now) }
    {
        Ok(piece.len())
    }
}
