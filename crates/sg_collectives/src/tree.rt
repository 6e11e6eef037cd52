//! The tree of the ranks: whom each one stands below, and which ones stand below it.
ghost use Rattle.std.specs.Prelude.{◌≡◌, ℕ, ◌+◌, ◌^◌, ◌<◌};
ghost use Rattle.sg_collectives.specs.Tree.{children, doubling_from, parent_rank};

/// A rank among so many members.
#[derive(Clone, Copy)]
pub struct Rank {
    pub number: u32,
    pub members: u32,
    ghost below: { number < members },
}

/// Returns the rank that a rank above 0 stands below: it without its lowest set bit.
pub fn parent(rank: u32) -> u32
    requires { 0 < rank }
    ensures { result ≡ parent_rank rank }
{
    rank - 2u32.pow(rank.trailing_zeros())
}

/// Returns how many ranks stand right below this one; the k-th of them, from 0 on, is 2^k above it.
#[tactic(auto, using(crate::proofs::TreeLemmas::counted_none, crate::proofs::TreeLemmas::counted_more, crate::proofs::TreeLemmas::counted_all, crate::proofs::TreeLemmas::few_doublings))]
pub fn child_count(rank: Rank) -> u32
    ensures counted { children rank.number rank.members ≡ doubling_from rank.number result }
    ensures below { (k : ℕ) → k < result → rank.number + 2 ^ k < rank.members }
{
    let (at, end) = (u64::from(rank.number), u64::from(rank.members));
    let mut count = 0;
    let mut distance = 1;
    while at % (2 * distance) == 0 && at + distance < end {
        count += 1;
        distance *= 2;
    }
    count
}
