//! Laws of turns and draws.
ghost use Rattle.std.specs.Prelude.{◌≡◌, ◌<◌, ◌^◌, ℕ};
ghost use Rattle.sg_base.specs.declared.call.Answer.{Answer};
ghost use Rattle.sg_base.specs.Draw.{drawn};
ghost use Rattle.sg_base.specs.Limits.{Extent, IsAnswer, IsCall};
ghost use Rattle.sg_base.specs.Mind.{Mind, IsMind};
ghost use Rattle.sg_base.specs.Turn.{turn};

/// A mind keeps its shape. If the amounts of an answer keep to their limits and what it names exists, the same
/// holds of the call that follows it.
pub fn turns_keep_limits()
    ensures mind { (extent : Extent) (mind : Mind) (answer : Answer) → IsMind extent mind
        → IsMind extent (turn mind answer).mind }
    ensures call { (extent : Extent) (mind : Mind) (answer : Answer) → IsMind extent mind
        → IsAnswer extent answer → IsCall extent (turn mind answer).call }
{}

/// The number that is drawn from the state 0, and the size of all that are drawn.
pub fn draws_are_small()
    ensures first { drawn 0 ≡ 167951807 }
    ensures small { (state : ℕ) → drawn state < 2 ^ 31 }
{}
