//! The contexts of a context pool.
ghost use Rattle.std.specs.Prelude.{◌≡◌, ◌↔◌, All, None, IsTrue};

use crate::actor::Actor;

/// Returns whether all contexts of a pool are blank.
pub fn all_blank(crew: &[Box<dyn Actor + Send>]) -> bool
    ensures { IsTrue result ↔ All (λ b. mind b ≡ None) crew.now }
{
    for actor in crew {
        if !is_blank(actor) {
            return false;
        }
    }
    true
}

// Returns whether a context is blank, in a function of its own, so that the loop knows what it says of the mind.
fn is_blank(actor: &Box<dyn Actor + Send>) -> bool
    ensures { IsTrue result ↔ (mind actor.now ≡ None) }
{
    actor.is_blank()
}
