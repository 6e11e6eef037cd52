//! What a member does for a collective.
ghost use Rattle.std.specs.Prelude.{◌≡◌, length};
ghost use Rattle.sg_collectives.specs.Actions.{action_of, NamesMember};

use sg_base::{Action, ActorId};

/// One action of a member, which names its peer by rank. Members have the ranks from 0 on.
#[derive(Clone, Copy)]
pub enum Step {
    /// To receive from a peer, and continue after the bytes have arrived.
    Recv(u32),
    /// To send a peer this many bytes, and continue after they have arrived.
    Send(u32, u64),
    /// To compute so many flops.
    Compute(u64),
    /// To receive from a peer without waiting.
    IRecv(u32),
    /// To send a peer so many bytes without waiting.
    ISend(u32, u64),
    /// To wait for the oldest request.
    Wait,
}

impl Step {
    /// Returns the action of an actor: the list has the member of each rank.
    pub fn action(self, members: &[ActorId]) -> Action
        requires { NamesMember (length members.now) self }
        ensures { result ≡ action_of members.now self }
    {
        match self {
            Step::Recv(peer) => Action::Recv(members[peer as usize]),
            Step::Send(peer, bytes) => Action::Send(members[peer as usize], bytes, 0),
            Step::Compute(flops) => Action::Compute(flops, 1),
            Step::IRecv(peer) => Action::IRecv(members[peer as usize]),
            Step::ISend(peer, bytes) => Action::ISend(members[peer as usize], bytes, 0),
            Step::Wait => Action::Wait,
        }
    }
}
