//! Lists of actors.
ghost use Rattle.std.specs.Prelude.{◌≡◌, List};

use crate::ids::ActorId;
use std::marker::Model;

/// A list of actors, which contracts see as that list.
#[derive(Drop)]
pub struct Ids {
    actors: Vec<ActorId>,
}

impl Model for Ids {
    ghost use Rattle.std.specs.Prelude.{List};
    ghost use Rattle.sg_base.specs.declared.ids.ActorId.{ActorId};

    ghost Value = { List ActorId };

    ghost view = { λ l. l.actors.items };
}

impl Ids {
    /// Makes these actors. It takes no memory.
    pub fn from_vec(actors: Vec<ActorId>) -> Ids
        ensures { result ≡ actors.items }
    {
        Ids { actors }
    }

    /// Gives the actors back, without taking memory.
    pub fn into_vec(self) -> Vec<ActorId>
        ensures { result.items ≡ self }
    {
        self.actors
    }

    /// Returns the actors.
    pub fn as_slice(&self) -> &[ActorId]
        ensures { result.now ≡ self.now }
    {
        self.actors.as_slice()
    }
}
