//! The numbers of an actor that churns, in fields.
ghost use Rattle.std.specs.Prelude.{◌≡◌};
ghost use Rattle.sg_base.specs.Mind.{mind, churn};
ghost use Rattle.sg_base.specs.Turn.{churn_turn};
ghost use Rattle.sg_actor.specs.kept.Fields.{churn_numbers, is_exit, kind_now, IsChurnKept};

use crate::generator::draw;
use sg_base::{ActorId, BoxId, Call, Msg};

/// The most flops that a step computes.
pub(crate) const MOST_FLOPS: u64 = 1_000_000_000;

/// The most bytes that a step sends.
pub(crate) const MOST_BYTES: u64 = 1_000_000;

/// What an actor that churns does in its next turn. A step is one of each.
#[derive(Clone, Copy)]
pub(crate) enum Phase {
    Compute,
    Send,
    Receive,
    Wait,
}

/// The numbers of an actor that churns.
#[derive(Drop)]
pub(crate) struct Churn {
    /// Of its generator.
    pub(crate) state: u64,
    /// How many steps it has done.
    pub(crate) step: u32,
    pub(crate) phase: Phase,
    /// How many steps it does.
    pub(crate) steps: u32,
    pub(crate) me: ActorId,
    pub(crate) next: ActorId,
    pub(crate) prev: ActorId,
}

impl Churn {
    /// Runs one turn, before it has ended.
    pub(crate) fn turn(&mut self) -> Call
        requires { IsChurnKept self.old }
        ensures kept { IsChurnKept self.new }
        ensures mind { mind (kind_now (is_exit result) churn) (churn_numbers self.new)
            ≡ (churn_turn (churn_numbers self.old)).mind }
        ensures call { result ≡ (churn_turn (churn_numbers self.old)).call }
    {
        match self.phase {
            Phase::Compute => {
                if self.step == self.steps {
                    return Call::Exit;
                }
                self.phase = Phase::Send;
                Call::Compute(draw(&mut self.state, MOST_FLOPS), 1)
            }
            Phase::Send => {
                self.phase = Phase::Receive;
                let bytes = draw(&mut self.state, MOST_BYTES);
                Call::ISend(BoxId::Pair(self.me, self.next), bytes, Msg::Empty, 0)
            }
            Phase::Receive => {
                self.phase = Phase::Wait;
                Call::Recv(BoxId::Pair(self.prev, self.me))
            }
            Phase::Wait => {
                self.phase = Phase::Compute;
                self.step += 1;
                Call::Wait
            }
        }
    }
}
