//! How the program ends.

/// How a call of the whole program ended.
#[derive(Clone, Copy)]
pub enum Status {
    /// All actors have ended.
    Completed,
    /// The words of the command line were refused.
    Words,
    /// The platform was refused.
    Platform,
    /// The deployment was refused.
    Deployment,
    /// A bad script line was met.
    Script,
    /// No actor was ready, and no activity was running.
    Deadlock,
    /// No actor was ready, and no running activity would ever complete.
    Starved,
    /// An event was next, and the budget of events was used up.
    Budget,
    /// There was no route between two hosts, or it was too long.
    Route,
    /// A part could not be read.
    ReadFault,
    /// A write failed.
    WriteFault,
    /// Memory ran out.
    Memory,
}

impl Status {
    ghost use Rattle.std.specs.Prelude.{◌≡◌};
    ghost use Rattle.sg_base.specs.Status.{status_code};

    /// Returns the exit status of the program.
    pub fn code(self) -> u8
        ensures { result ≡ status_code self }
    {
        match self {
            Status::Completed => 0,
            Status::Words => 2,
            Status::Platform => 3,
            Status::Deployment => 4,
            Status::Script => 5,
            Status::Deadlock => 6,
            Status::Starved => 7,
            Status::Budget => 8,
            Status::Route => 9,
            Status::ReadFault => 10,
            Status::WriteFault => 11,
            Status::Memory => 12,
        }
    }
}
