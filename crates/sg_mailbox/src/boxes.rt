//! The mailboxes.
ghost use Rattle.std.specs.Prelude.{◌≡◌, [], true, false, IfOk};
ghost use Rattle.sg_base.specs.declared.ids.BoxId.{BoxId};
ghost use Rattle.sg_mailbox.specs.Posts.{waiters, partner, partner_side, posts_without, AcceptsMore, AreBelow, AreRising, CanCome, CanEnter, Comes, IsFound};

use crate::box_queues::{Kept, enter, first, look, reserve, withdraw};
use crate::sides::{Found, Meeting, Side};
use sg_base::{BoxId, Memory, Serial};
use std::alloc::Global;
use std::marker::Model;

/// Communications with one endpoint, mailbox by mailbox.
///
/// An arriving endpoint matches the one of the other kind that has waited longest; if none waits, it waits itself. No
/// other mailbox is searched. The cost of a call doesn't depend on the number of mailboxes or of waiting endpoints, and
/// only `new` and `reserve` take memory.
pub struct Boxes {
    kept: Kept,
}

// A function of its own, so that a proof in which one is dropped doesn't go into its parts.
impl Drop for Boxes {
    fn drop(self) {
        let Boxes { kept: _ } = self;
    }
}

impl Model for Boxes {
    ghost use Rattle.sg_mailbox.specs.Posts.{Posts};
    ghost use Rattle.sg_mailbox.specs.kept.Queues.{posts_of, IsKept};

    ghost Value = { Posts };

    ghost view = { λ s. posts_of s.kept };

    ghost invariant = { λ s. IsKept s.kept };
}

impl Boxes {
    /// Makes mailboxes in which nobody waits, without room.
    pub fn new(alloc: Global) -> Result<Boxes, Memory>
        ensures empty { IfOk result (λ boxes. (mailbox : BoxId) → waiters boxes mailbox ≡ []) }
        ensures room { IfOk result (λ boxes. boxes.room ≡ 0) }
    {
        Ok(Boxes {
            kept: first(alloc)?,
        })
    }

    /// Makes room for so many arriving endpoints.
    pub fn reserve(&mut self, n: usize) -> Result<(), Memory>
        ensures { AcceptsMore n self.old self.new result }
    {
        reserve(&mut self.kept, n)
    }

    /// Returns what an endpoint arriving at a mailbox finds; nothing changes.
    pub fn look(&self, mailbox: BoxId, sends: bool) -> Found
        ensures found { IsFound self.now mailbox sends result }
        ensures rising { AreRising (waiters self.now mailbox) }
    {
        look(&self.kept, mailbox, sends)
    }

    /// Enters an arriving endpoint that found this. If it matches nobody it waits under the activity id.
    pub fn enter(
        &mut self,
        mailbox: BoxId,
        sends: bool,
        found: Found,
        side: Side,
        serial: Serial,
    ) -> Meeting
        requires able { CanEnter mailbox sends found self.old }
        requires above { AreBelow serial.0 self.old }
        ensures { Comes mailbox sends side serial self.old self.new result }
    {
        enter(&mut self.kept, mailbox, sends, found, side, serial)
    }

    /// Removes the endpoint of this activity id from its mailbox, from wherever it waits there. Nothing changes if no
    /// endpoint of this id waits.
    pub fn withdraw(&mut self, serial: Serial)
        ensures left { (mailbox : BoxId) → waiters self.new mailbox
            ≡ posts_without serial (waiters self.old mailbox) }
        ensures room { self.new.room ≡ self.old.room }
    {
        withdraw(&mut self.kept, serial);
    }

    /// Enters an arriving sender.
    pub fn send(&mut self, mailbox: BoxId, side: Side, serial: Serial) -> Meeting
        requires { CanCome serial.0 self.old }
        ensures { Comes mailbox true side serial self.old self.new result }
    {
        let found = self.look(mailbox, true);
        self.enter(mailbox, true, found, side, serial)
    }

    /// Enters an arriving receiver.
    pub fn recv(&mut self, mailbox: BoxId, side: Side, serial: Serial) -> Meeting
        requires { CanCome serial.0 self.old }
        ensures { Comes mailbox false side serial self.old self.new result }
    {
        let found = self.look(mailbox, false);
        self.enter(mailbox, false, found, side, serial)
    }

    /// Returns whom `send` would match: nothing changes.
    pub fn meets_send(&self, mailbox: BoxId) -> Option<(Serial, Side)>
        ensures is { result ≡ partner_side (partner true (waiters self.now mailbox)) }
        ensures rising { AreRising (waiters self.now mailbox) }
    {
        self.look(mailbox, true).met
    }

    /// Returns whom `recv` would match: nothing changes.
    pub fn meets_recv(&self, mailbox: BoxId) -> Option<(Serial, Side)>
        ensures is { result ≡ partner_side (partner false (waiters self.now mailbox)) }
        ensures rising { AreRising (waiters self.now mailbox) }
    {
        self.look(mailbox, false).met
    }
}
