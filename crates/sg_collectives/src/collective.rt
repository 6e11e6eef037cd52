//! Collectives, and what each member does for them.
ghost use Rattle.std.specs.Prelude.{◌≡◌, ◌+◌, ◌^◌, ◌<◌, All, IfSome, length, slice_get};
ghost use Rattle.sg_base.specs.Limits.{Extent, IsAction, IsActorIn};
ghost use Rattle.sg_collectives.specs.Expansion.{expansion};
ghost use Rattle.sg_collectives.specs.Members.{HasAmounts, actions_of};

use crate::alltoall::{alltoall_len, alltoall_step};
use crate::bcast::{bcast_len, bcast_step};
use crate::members::Members;
use crate::reduce::{reduce_len, reduce_step};
use crate::step::Step;
use crate::tree::Rank;
use sg_base::{Action, ActorId};

/// What all members do together, with amounts of bytes and flops. Members have the ranks from 0 on.
#[derive(Clone, Copy)]
pub enum Collective {
    /// Rank 0 sends so many bytes to all, over a tree.
    Bcast { bytes: u64 },
    /// All send so many bytes to rank 0, over the same tree. Who receives them computes so many flops after each
    /// receive.
    Reduce { bytes: u64, flops: u64 },
    /// A reduce, and then a bcast.
    Allreduce { bytes: u64, flops: u64 },
    /// Each sends so many bytes to each other.
    Alltoall { bytes: u64 },
}

impl Collective {
    /// Returns the step at this place, from 0 on, of what the member of a rank does; none after the last. It takes no
    /// memory, and about as many instructions as the number of members has binary digits.
    #[tactic(auto, using(crate::proofs::Places::allreduce_first, crate::proofs::Places::allreduce_behind))]
    pub fn step(self, rank: Rank, place: u64) -> Option<Step>
        ensures { result ≡ slice_get (expansion self rank.number rank.members) place }
    {
        match self {
            Collective::Bcast { bytes } => bcast_step(bytes, rank, place),
            Collective::Reduce { bytes, flops } => reduce_step(bytes, flops, rank, place),
            Collective::Allreduce { bytes, flops } => {
                let behind = reduce_len(rank);
                if place < behind {
                    reduce_step(bytes, flops, rank, place)
                } else {
                    bcast_step(bytes, rank, place - behind)
                }
            }
            Collective::Alltoall { bytes } => alltoall_step(bytes, rank, place),
        }
    }

    /// Returns how many steps the member of a rank does.
    pub fn steps(self, rank: Rank) -> u64
        ensures { result ≡ length (expansion self rank.number rank.members) }
    {
        match self {
            Collective::Bcast { .. } => bcast_len(rank),
            Collective::Reduce { .. } => reduce_len(rank),
            Collective::Allreduce { .. } => reduce_len(rank) + bcast_len(rank),
            Collective::Alltoall { .. } => alltoall_len(rank.members),
        }
    }

    /// Returns an actor's action at this place, from 0 on; none after the last, nor if the actor is no member.
    #[tactic(auto, using(crate::proofs::MemberLemmas::nobody_acts, crate::proofs::MemberLemmas::rank_below, crate::proofs::MemberLemmas::past_acts, crate::proofs::MemberLemmas::no_step_acts, crate::proofs::MemberLemmas::a_step_acts, crate::proofs::MemberLemmas::step_names_member, crate::proofs::Limited::step_keeps_limits))]
    pub fn action(self, actor: ActorId, members: &Members, place: u64) -> Option<Action>
        ensures action { result ≡ slice_get (actions_of members.now actor.0 self) place }
        ensures few { IfSome result (λ _. place + 1 < 2 ^ 64) }
        ensures limited { (extent : Extent) → All (IsActorIn extent) members.now
            → HasAmounts self → IfSome result (IsAction extent) }
    {
        let list = members.as_slice();
        let number = members.rank_of(actor)?;
        let rank = Rank {
            number,
            members: list.len() as u32,
        };
        if place >= self.steps(rank) {
            return None;
        }
        Some(self.step(rank, place)?.action(list))
    }
}
