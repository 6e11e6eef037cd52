//! The endpoints of a communication.
use sg_base::{ActorId, BoxId, Msg, Serial};

/// An endpoint of a communication: the sender, or the receiver.
#[derive(Clone, Copy)]
pub struct Side {
    pub actor: ActorId,
    /// The size of what is sent; a receive has none.
    pub bytes: u64,
    pub msg: Msg,
    /// The greatest rate of what is sent, in bytes a second: 0 for none, as a receive has it.
    pub rate: u64,
}

/// What became of an endpoint that arrived at a mailbox.
#[derive(Clone, Copy)]
pub enum Meeting {
    /// It waits there, as the communication of this activity id.
    Posted(Serial),
    /// It matched the waiting endpoint of this communication.
    Met(Serial, Side),
}

/// What an endpoint arriving at a mailbox finds there.
#[derive(Clone, Copy)]
pub struct Found {
    /// The queue of the mailbox, if somebody waits there.
    pub queue: Option<usize>,
    /// Whom the endpoint matches.
    pub met: Option<(Serial, Side)>,
}

/// A waiting endpoint: the activity id of its communication, and whether it sends.
#[derive(Clone, Copy)]
pub struct Post {
    pub serial: Serial,
    pub sends: bool,
    pub side: Side,
}

/// The place where an endpoint waits.
#[derive(Clone, Copy)]
pub(crate) struct Place {
    pub(crate) mailbox: BoxId,
    /// The queue of the mailbox.
    pub(crate) queue: usize,
    pub(crate) slot: usize,
}
