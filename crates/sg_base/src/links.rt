//! Lists of links.
ghost use Rattle.std.specs.Prelude.{◌≡◌, List};

use crate::ids::LinkId;
use std::marker::Model;

/// A list of links, which contracts see as that list.
#[derive(Drop)]
pub struct Links {
    links: Vec<LinkId>,
}

impl Model for Links {
    ghost use Rattle.std.specs.Prelude.{List};
    ghost use Rattle.sg_base.specs.declared.ids.LinkId.{LinkId};

    ghost Value = { List LinkId };

    ghost view = { λ l. l.links.items };
}

impl Links {
    /// Makes these links. It takes no memory.
    pub fn from_vec(links: Vec<LinkId>) -> Links
        ensures { result ≡ links.items }
    {
        Links { links }
    }

    /// Gives the links back, without taking memory.
    pub fn into_vec(self) -> Vec<LinkId>
        ensures { result.items ≡ self }
    {
        self.links
    }

    /// Returns the links.
    pub fn as_slice(&self) -> &[LinkId]
        ensures { result.now ≡ self.now }
    {
        self.links.as_slice()
    }
}
