//! From each to each.
ghost use Rattle.std.specs.Prelude.{◌≡◌, ℕ, ◌%◌, ◌<◌, length, slice_get};
ghost use Rattle.sg_collectives.specs.Expansion.{alltoall};

use crate::step::Step;
use crate::tree::Rank;

// Returns the rank found there by counting around all members.
fn around(way: u64, members: u32) -> u32
    requires { 0 < members }
    ensures { result ≡ way % members }
{
    (way % u64::from(members)) as u32
}

#[tactic(auto, using(crate::proofs::Places::alltoall_recv, crate::proofs::Places::alltoall_send, crate::proofs::Places::alltoall_wait, crate::proofs::Places::alltoall_past))]
pub fn alltoall_step(bytes: u64, rank: Rank, place: u64) -> Option<Step>
    ensures { result ≡ slice_get (alltoall bytes rank.number rank.members) place }
{
    let members = rank.members;
    let at = u64::from(rank.number);
    let all = u64::from(members);
    let others = all - 1;
    if place < others {
        return Some(Step::IRecv(around(at + all - (place + 1), members)));
    }
    if place < 2 * others {
        return Some(Step::ISend(around(at + (place + 1 - others), members), bytes));
    }
    if place < 4 * others {
        return Some(Step::Wait);
    }
    None
}

#[tactic(auto, using(crate::proofs::Places::length_alltoall))]
pub fn alltoall_len(members: u32) -> u64
    requires { 0 < members }
    ensures { (bytes rank : ℕ) → result ≡ length (alltoall bytes rank members) }
{
    4 * (u64::from(members) - 1)
}
