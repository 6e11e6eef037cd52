//! From rank 0 to all.
ghost use Rattle.std.specs.Prelude.{◌≡◌, ℕ, ◌^◌, ◌<◌, ◌≤◌, length, map, reverse, slice_get};
ghost use Rattle.sg_collectives.specs.Expansion.{bcast};
ghost use Rattle.sg_collectives.specs.Tree.{children};
ghost use Rattle.sg_collectives.specs.declared.step.Step.TheVariants.{Send};

use crate::step::Step;
use crate::tree::{Rank, child_count, parent};

// Returns what a rank sends to its children, the farthest first.
#[tactic(auto, using(crate::proofs::Places::to_child_at, crate::proofs::Places::to_child_past))]
fn to_child(bytes: u64, rank: Rank, place: u64) -> Option<Step>
    ensures { result ≡ slice_get
        (map (λ child. Send child bytes) (reverse (children rank.number rank.members))) place }
{
    let count = u64::from(child_count(rank));
    if place >= count {
        return None;
    }
    let nearer = (count - 1 - place) as u32;
    Some(Step::Send(rank.number + 2u32.pow(nearer), bytes))
}

#[tactic(auto, using(crate::proofs::Places::bcast_root, crate::proofs::Places::bcast_first, crate::proofs::Places::bcast_behind))]
pub fn bcast_step(bytes: u64, rank: Rank, place: u64) -> Option<Step>
    ensures { result ≡ slice_get (bcast bytes rank.number rank.members) place }
{
    if rank.number == 0 {
        return to_child(bytes, rank, place);
    }
    if place == 0 {
        return Some(Step::Recv(parent(rank.number)));
    }
    to_child(bytes, rank, place - 1)
}

#[tactic(auto, using(crate::proofs::Places::length_bcast_root, crate::proofs::Places::length_bcast_other))]
pub fn bcast_len(rank: Rank) -> u64
    ensures counted { (bytes : ℕ) → result ≡ length (bcast bytes rank.number rank.members) }
    ensures few { result ≤ 2 ^ 32 }
{
    let children = u64::from(child_count(rank));
    if rank.number == 0 {
        children
    } else {
        children + 1
    }
}
