//! Entries of profiles.
ghost use Rattle.std.specs.Prelude.{◌≡◌};

use sg_base::{LinkId, PointId};
use std::marker::Model;

/// What changes, and to what.
#[derive(Clone, Copy)]
pub enum Entry {
    /// The speed of a host, in flops per second.
    Speed(PointId, u64),
    /// The bandwidth of a link, in bytes per second, before the factor of the network.
    Bandwidth(LinkId, u64),
    /// Whether a host is on.
    HostOn(PointId, bool),
    /// Whether a link is on.
    LinkOn(LinkId, bool),
}

/// A list of entries, which contracts see as that list.
#[derive(Drop)]
pub struct Entries {
    entries: Vec<Entry>,
}

impl Model for Entries {
    ghost use Rattle.std.specs.Prelude.{List};
    ghost use Rattle.sg_profile.specs.declared.entry.Entry.{Entry};

    ghost Value = { List Entry };

    ghost view = { λ e. e.entries.items };
}

impl Entries {
    /// Returns these entries. It takes no memory.
    pub(crate) fn from_vec(entries: Vec<Entry>) -> Entries
        ensures { result ≡ entries.items }
    {
        Entries { entries }
    }

    /// Returns the entries.
    pub fn as_slice(&self) -> &[Entry]
        ensures { result.now ≡ self.now }
    {
        self.entries.as_slice()
    }
}
