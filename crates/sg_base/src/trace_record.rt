//! Records.
use crate::call::Call;
use crate::ids::ActorId;

/// How an action ended.
#[derive(Clone, Copy)]
pub enum End {
    /// It is done, and took so many nanoseconds.
    Done(u128),
    /// It isn't possible.
    Refused,
    /// Something that it uses is off, or was turned off.
    Failed,
}

/// An action that was answered: the content of a trace line.
#[derive(Clone, Copy)]
pub struct Record {
    pub actor: ActorId,
    /// When it was answered, in nanoseconds.
    pub date: u128,
    pub what: Call,
    /// The bytes of the communication, and 0 for any other call.
    pub bytes: u64,
    pub end: End,
}
