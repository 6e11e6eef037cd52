//! How a run ends.
ghost use Rattle.std.specs.Prelude.{◌≡◌};
ghost use Rattle.sg_engine.specs.declared.ended.Ended.TheVariants as ended;
ghost use Rattle.sg_engine.specs.RunContract.{is_cut as is_cut_spec};
ghost use Rattle.sg_engine.specs.Run.{ended_at, ended_by};
ghost use Rattle.sg_engine.specs.kept.Moments.{cuts as cuts_spec};

use sg_base::{Child, Memory, PointId, ZoneId};
use sg_edge::Failed;
use sg_kernel::Stop;
use sg_script::{LineFault, ScriptFault};

/// How a run ended.
#[derive(Clone, Copy)]
pub enum Ended {
    /// All actors have ended.
    Completed,
    /// No actor was ready, and no activity was running.
    Deadlock,
    /// No actor was ready, and no running activity would ever end.
    Starved,
    /// An event was next, and the budget was used up.
    Budget,
    /// A communication between these two hosts had no route: in this zone there is none from the one of its children
    /// to the other.
    NoRoute {
        from: PointId,
        to: PointId,
        zone: ZoneId,
        a: Child,
        b: Child,
    },
    /// The route of a communication between these two hosts had more than 64 links.
    TooLong {
        from: PointId,
        to: PointId,
    },
    /// A fetch met the bad line of this number.
    Script(u64, LineFault),
    /// A fetch met the end of a script that could not be read further.
    ReadFault,
    /// A write failed. What was written is a prefix.
    WriteFault,
    /// Memory ran out. What was written is a prefix.
    Memory,
}

impl From<Stop> for Ended {
    ghost from_gives = { λ stop how. how ≡ ended_by stop };

    fn from(stop: Stop) -> Ended {
        match stop {
            Stop::Budget => Ended::Budget,
            Stop::NoRoute {
                from,
                to,
                zone,
                a,
                b,
            } => Ended::NoRoute {
                from,
                to,
                zone,
                a,
                b,
            },
            Stop::TooLong { from, to } => Ended::TooLong { from, to },
            Stop::Deadlock => Ended::Deadlock,
            Stop::Starved => Ended::Starved,
        }
    }
}

impl From<ScriptFault> for Ended {
    ghost from_gives = { λ fault how. how ≡ ended_at fault };

    fn from(fault: ScriptFault) -> Ended {
        match fault {
            ScriptFault::Line(number, kind) => Ended::Script(number, kind),
            ScriptFault::Read => Ended::ReadFault,
            ScriptFault::Memory => Ended::Memory,
        }
    }
}

impl From<Memory> for Ended {
    ghost from_gives = { λ _ how. how ≡ ended.Memory };

    fn from(_: Memory) -> Ended {
        Ended::Memory
    }
}

// Of what a run calls itself, only a write fails so.
impl From<Failed> for Ended {
    ghost from_gives = { λ _ how. how ≡ ended.WriteFault };

    fn from(_: Failed) -> Ended {
        Ended::WriteFault
    }
}

/// Returns whether a run that ended so was cut off.
pub fn is_cut(how: Ended) -> bool
    ensures { result ≡ is_cut_spec how }
{
    matches!(how, Ended::WriteFault | Ended::Memory)
}

/// Returns whether a part of a run has cut it off.
pub fn cuts(done: Result<(), Ended>) -> bool
    ensures { result ≡ cuts_spec done }
{
    match done {
        Ok(()) => false,
        Err(how) => is_cut(how),
    }
}
