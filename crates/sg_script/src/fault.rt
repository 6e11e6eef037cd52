//! Why a line is bad, and why a fetch of the next line has no answer.

/// Why a script line is bad. If several reasons hold, the first in this order is reported, except that arguments are
/// judged from left to right.
#[derive(Clone, Copy)]
pub enum LineFault {
    /// It has more than 4,096 bytes, its newline not counted.
    TooLong,
    /// It has a byte that is neither a tab nor in 0x20 to 0x7E.
    NotAscii,
    /// Its first word isn't a replay actor, or an argument doesn't name an actor: one that replays if the line sends to
    /// it or receives from it.
    UnknownActor,
    /// It has no second word, or one that isn't an action.
    UnknownAction,
    /// The action has more or fewer arguments.
    ArgumentCount,
    /// An amount or a time that its reader refuses.
    BadAmount,
    /// It is line 100,000,001. This is reported before all else.
    TooManyLines,
    /// An argument that isn't the name of a mutex, or of a semaphore.
    UnknownObject,
}

/// Why a fetch of the next line has no answer.
#[derive(Clone, Copy)]
pub enum ScriptFault {
    /// The first bad line: its number, counted from 1, and why it is bad.
    Line(u64, LineFault),
    /// The script could not be read further.
    Read,
    /// There was no memory for a line that waits for its actor.
    Memory,
}
