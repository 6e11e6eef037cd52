//! Who takes part in collectives.
ghost use Rattle.std.specs.Prelude.{◌≡◌, ◌+◌, ◌++◌, ◌∷◌, ◌^◌, ◌<◌, ◌≤◌, ℕ, [], All, MatchResult, None, OnOk, length, slice_index_or};
ghost use Rattle.sg_collectives.specs.Members.{rank_of};

use sg_base::{ActorId, Memory};
use std::alloc::Global;
use std::marker::Model;

/// The actors that take part, which contracts see as a list. The rank of each is its place there, from 0 on.
#[derive(Drop)]
pub struct Members {
    list: Vec<ActorId>,
    ranks: Vec<Option<u32>>,
}

impl Model for Members {
    ghost use Rattle.std.specs.Prelude.{List, length, ◌^◌, ◌<◌};
    ghost use Rattle.sg_base.specs.declared.ids.ActorId.{ActorId};
    ghost use Rattle.sg_collectives.specs.Members.{IsRanked};

    ghost Value = { List ActorId };

    ghost view = { λ m. m.list.items };

    ghost invariant = { λ m. (length m.list.items < 2 ^ 32)
        × IsRanked m.list.items m.ranks.items };
}

// Makes a list longer by places without a rank.
#[tactic(auto, using(crate::proofs::MemberLemmas::padded))]
fn lengthen(ranks: &mut Vec<Option<u32>>, count: usize) -> Result<(), Memory>
    ensures same { (number : ℕ) → slice_index_or ranks.new.items number None
        ≡ slice_index_or ranks.old.items number None }
    ensures long { OnOk result (count ≤ length ranks.new.items) }
{
    for _i in ranks.len()..count {
        ranks.push(None)?;
    }
    Ok(())
}

impl Members {
    /// Makes an empty list of members.
    #[tactic(auto, using(crate::proofs::MemberLemmas::ranked_none))]
    pub fn new(alloc: Global) -> Members
        ensures { result ≡ [] }
    {
        Members {
            list: Vec::new(alloc),
            ranks: Vec::new(alloc),
        }
    }

    /// Adds an actor after those that are members, whose numbers are all smaller.
    ///
    /// # Errors
    ///
    /// Out of memory: then the members stay.
    #[tactic(auto, using(crate::proofs::MemberLemmas::ranked_same, crate::proofs::MemberLemmas::ranked_more))]
    pub fn push(&mut self, actor: ActorId) -> Result<(), Memory>
        requires rising { All (λ member. member.0 < actor.0) self.old }
        requires few { length self.old + 1 < 2 ^ 32 }
        ensures { MatchResult result (λ _. self.new ≡ self.old ++ actor ∷ [])
            (λ _. self.new ≡ self.old) }
    {
        let number = actor.0 as usize;
        lengthen(&mut self.ranks, number + 1)?;
        let rank = self.list.len() as u32;
        self.list.push(actor)?;
        self.ranks[number] = Some(rank);
        Ok(())
    }

    /// Returns the rank of an actor, if it is a member.
    pub fn rank_of(&self, actor: ActorId) -> Option<u32>
        ensures { result ≡ rank_of self.now actor.0 }
    {
        *self.ranks.get(actor.0 as usize)?
    }

    /// Returns the members by rank.
    pub fn as_slice(&self) -> &[ActorId]
        ensures value { result.now ≡ self.now }
        ensures few { length result.now < 2 ^ 32 }
    {
        self.list.as_slice()
    }
}
