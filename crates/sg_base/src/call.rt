//! What actors ask for, and what they are answered.

use crate::ids::{ActorId, BoxId};

/// What an actor asks of the simulator. An actor makes one call a turn.
#[derive(Clone, Copy)]
pub enum Call {
    /// For its next script line.
    Ask,
    /// To compute this many flops at a priority, and continue after completion.
    Compute(u64, u32),
    /// To sleep for so many nanoseconds.
    Sleep(u64),
    /// To send this many bytes and a message into a mailbox at no more than a rate in bytes a second (0: unlimited), and
    /// continue after they have arrived.
    Send(BoxId, u64, Msg, u64),
    /// To receive from a mailbox, and continue after the bytes have arrived.
    Recv(BoxId),
    /// To send without waiting: the communication becomes its newest request.
    ISend(BoxId, u64, Msg, u64),
    /// To receive without waiting: the communication becomes its newest request.
    IRecv(BoxId),
    /// To wait until the communication of its oldest request is done.
    Wait,
    /// To own a mutex, and continue once it does. Mutexes are numbered from 0 on in declared order.
    Lock(u32),
    /// To give a mutex up.
    Unlock(u32),
    /// To take one from the count of a semaphore, and continue once it did. They are numbered from 0 on.
    Acquire(u32),
    /// To wake the first actor that waits for a semaphore, or to add one to its count.
    Release(u32),
    /// To wait at the barrier until all members have arrived.
    Barrier,
    /// To let an actor begin that has not started.
    Create(ActorId),
    /// To wait until an actor has ended.
    Join(ActorId),
    /// To end an actor.
    Kill(ActorId),
    /// To let an actor take no turns until it is resumed.
    Suspend(ActorId),
    /// To let a suspended actor take turns again.
    Resume(ActorId),
    /// To let the others take their turns.
    Yield,
    /// To end.
    Exit,
}

/// What a communication brings beside its bytes.
#[derive(Clone, Copy)]
pub enum Msg {
    /// Nothing: scripts send bytes alone.
    Empty,
    /// To compute so many flops.
    Task(u64),
    /// That there is no more work.
    Stop,
}

/// A script line, without the name of its actor.
#[derive(Clone, Copy)]
pub enum Action {
    /// So many flops, at a priority.
    Compute(u64, u32),
    Sleep(u64),
    /// To an actor so many bytes, at no more than a rate in bytes a second (0: at any).
    Send(ActorId, u64, u64),
    Recv(ActorId),
    ISend(ActorId, u64, u64),
    IRecv(ActorId),
    Wait,
    Lock(u32),
    Unlock(u32),
    Acquire(u32),
    Release(u32),
    Barrier,
    Create(ActorId),
    Join(ActorId),
    Kill(ActorId),
    Suspend(ActorId),
    Resume(ActorId),
    Yield,
}

/// What an actor is answered.
#[derive(Clone, Copy)]
pub enum Answer {
    /// Before its first turn.
    Start,
    /// To `Ask`: the actor's next line.
    Act(Action),
    /// To `Ask`: there is no further line.
    NoMore,
    /// What it asked for is done.
    Done,
    /// What it received brought this message.
    Got(Msg),
    /// What it asked for isn't possible.
    Refused,
    /// What it asked for failed: something that it uses is off, or was turned off.
    Failed,
}
