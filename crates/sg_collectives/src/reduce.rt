//! From all to rank 0.
ghost use Rattle.std.specs.Prelude.{◌≡◌, ℕ, ◌^◌, ◌<◌, [], ◌∷◌, if◌then◌else◌, length, nat_lt, slice_get};
ghost use Rattle.sg_collectives.specs.Expansion.{reduce};
ghost use Rattle.sg_collectives.specs.Tree.{parent_rank};
ghost use Rattle.sg_collectives.specs.declared.step.Step.TheVariants.{Send};

use crate::step::Step;
use crate::tree::{Rank, child_count, parent};

// Returns what a rank sends to its parent.
#[tactic(auto, using(crate::proofs::Places::to_parent_first, crate::proofs::Places::to_parent_behind, crate::proofs::Places::to_parent_none))]
fn to_parent(bytes: u64, rank: u32, place: u64) -> Option<Step>
    ensures { result
        ≡ slice_get (if nat_lt 0 rank then Send (parent_rank rank) bytes ∷ [] else []) place }
{
    if rank > 0 && place == 0 {
        Some(Step::Send(parent(rank), bytes))
    } else {
        None
    }
}

#[tactic(auto, using(crate::proofs::Places::reduce_recv, crate::proofs::Places::reduce_compute, crate::proofs::Places::reduce_behind))]
pub fn reduce_step(bytes: u64, flops: u64, rank: Rank, place: u64) -> Option<Step>
    ensures { result ≡ slice_get (reduce bytes flops rank.number rank.members) place }
{
    let behind = 2 * u64::from(child_count(rank));
    if place >= behind {
        return to_parent(bytes, rank.number, place - behind);
    }
    if place % 2 == 1 {
        return Some(Step::Compute(flops));
    }
    let child = (place / 2) as u32;
    Some(Step::Recv(rank.number + 2u32.pow(child)))
}

#[tactic(auto, using(crate::proofs::Places::length_reduce_root, crate::proofs::Places::length_reduce_other))]
pub fn reduce_len(rank: Rank) -> u64
    ensures counted { (bytes flops : ℕ)
        → result ≡ length (reduce bytes flops rank.number rank.members) }
    ensures few { result < 2 ^ 33 }
{
    let received = 2 * u64::from(child_count(rank));
    if rank.number == 0 {
        received
    } else {
        received + 1
    }
}
