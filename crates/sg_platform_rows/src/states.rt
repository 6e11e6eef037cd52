//! Lists of states.
ghost use Rattle.std.specs.Prelude.{◌≡◌};

use std::marker::Model;

/// A list of states, on (`true`) or off, which contracts see as that list.
#[derive(Drop)]
pub struct States {
    states: Vec<bool>,
}

impl Model for States {
    ghost use Rattle.std.specs.Prelude.{Bool, List};

    ghost Value = { List Bool };

    ghost view = { λ s. s.states.items };
}

impl States {
    /// Returns these states. It takes no memory.
    pub fn from_vec(states: Vec<bool>) -> States
        ensures { result ≡ states.items }
    {
        States { states }
    }

    /// Returns the states.
    pub fn as_slice(&self) -> &[bool]
        ensures { result.now ≡ self.now }
    {
        self.states.as_slice()
    }
}
