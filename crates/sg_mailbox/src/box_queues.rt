//! What the mailboxes keep: a queue for each in which somebody waits.
ghost use Rattle.std.specs.Prelude.{◌≡◌, ◌+◌, ◌-◌, ◌<◌, ◌≤◌, [], None, Some, IfOk, IsTrue, OnOk, All, length, min};
ghost use Rattle.std.specs.HashMap.{get, hash_map_len, spare};
ghost use Rattle.sg_base.specs.declared.ids.BoxId.{BoxId};
ghost use Rattle.sg_queues.specs.Serials as serials;
ghost use Rattle.sg_mailbox.specs.declared.sides.Post.{Post as PostSpec};
ghost use Rattle.sg_mailbox.specs.Posts.{box_eq, partner, posts_after, meeting, waiters, posts_without, AllStay, AreBelow, AreRising, IsFound, OthersStay};
ghost use Rattle.sg_mailbox.specs.kept.Queues.{number, posts_of, IsKept, IsKeptBut};
ghost use Rattle.sg_mailbox.specs.kept.Acts.{CanGrow, CanTake, Keeps, Opens, Stays, Waits};

use crate::sides::{Found, Meeting, Place, Post, Side};
use sg_base::{ActorId, BoxId, Memory, Msg, Serial};
use sg_queues::{BySerial, Queues};
use std::alloc::Global;
use std::collections::HashMap;

/// The fields of the mailboxes.
#[derive(Drop)]
pub(crate) struct Kept {
    /// The queue of each mailbox in which somebody waits.
    pub(crate) numbers: HashMap<BoxId, usize>,
    pub(crate) queues: Queues<Post>,
    /// The queues that are no mailbox's.
    pub(crate) empty: Vec<usize>,
    /// The place where the endpoint of each activity id waits.
    pub(crate) places: BySerial<Place>,
    /// Room for so many arriving endpoints.
    pub(crate) room: usize,
}

// What fills a slot in which nobody waits.
const BLANK: Post = Post {
    serial: Serial(0),
    sends: false,
    side: Side {
        actor: ActorId(0),
        bytes: 0,
        msg: Msg::Empty,
        rate: 0,
    },
};

/// Makes mailboxes in which nobody waits, without room.
pub(crate) fn first(alloc: Global) -> Result<Kept, Memory>
    ensures nobody { IfOk result (λ kept. (mailbox : BoxId) →
        waiters (posts_of kept) mailbox ≡ []) }
    ensures room { IfOk result (λ kept. kept.room ≡ 0) }
    ensures kept { IfOk result IsKept }
{
    Ok(Kept {
        numbers: HashMap::new(alloc),
        queues: Queues::new(alloc, BLANK)?,
        empty: Vec::new(alloc),
        places: BySerial::new(alloc),
        room: 0,
    })
}

// Makes room for so many endpoints, except for the queues of so many mailboxes.
fn grow(kept: &mut Kept, n: usize) -> Result<(), Memory>
    requires { CanGrow n kept.old }
    ensures numbers { OnOk result (n ≤ spare kept.new.numbers) }
    ensures places { OnOk result (n ≤ serials.room kept.new.places) }
    ensures queues { OnOk result (n ≤ kept.new.queues.room) }
    ensures stays { Stays kept.old kept.new }
{
    kept.numbers.reserve(n)?;
    kept.places.reserve(n)?;
    kept.queues.reserve(n)?;
    Ok(())
}

// Adds a queue that is no mailbox's.
fn add_queue(kept: &mut Kept) -> Result<(), Memory>
    requires kept { IsKept kept.old }
    ensures one { OnOk result (length kept.new.empty.items ≡ length kept.old.empty.items + 1) }
    ensures rest { kept.new ≡ record kept.old {
      queues = kept.new.queues;
      empty = kept.new.empty;
    } }
    ensures queues { kept.new.queues.room ≡ kept.old.queues.room }
    ensures same { AllStay (posts_of kept.old) (posts_of kept.new) }
    ensures kept { IsKept kept.new }
{
    kept.empty.reserve(kept.numbers.len() + 1)?;
    let queue = kept.queues.add_queue()?;
    kept.empty.push_reserved(queue);
    Ok(())
}

// Frees most of the memory of a map that has few of the many entries it had; room for so many more stays.
fn trim(numbers: &mut HashMap<BoxId, usize>, room: usize)
    ensures same { (mailbox : BoxId) → get box_eq numbers.new mailbox
        ≡ get box_eq numbers.old mailbox }
    ensures count { hash_map_len numbers.new ≡ hash_map_len numbers.old }
    ensures room { min room (spare numbers.old) ≤ spare numbers.new }
{
    let wanted = numbers.len().saturating_add(room);
    if wanted < numbers.capacity() / 4 {
        numbers.shrink_to(wanted);
    }
}

// Frees the memory of the maps that isn't needed for so much room.
fn shrink(kept: &mut Kept, room: usize)
    requires { CanGrow room kept.old }
    ensures { Stays kept.old kept.new }
{
    trim(&mut kept.numbers, room);
    kept.places.trim(room);
}

// Makes room for so many arriving endpoints, and not less than there was.
fn make_room(kept: &mut Kept, room: usize) -> Result<(), Memory>
    requires { CanGrow room kept.old }
    ensures room { OnOk result (kept.new.room ≡ room) }
    ensures keeps { Keeps kept.old kept.new }
{
    grow(kept, room)?;
    while kept.empty.len() < room {
        add_queue(kept)?;
    }
    kept.room = room;
    Ok(())
}

// Returns whether nobody waits, and there were many more queues at once than are wanted.
fn is_wide(kept: &Kept, room: usize) -> bool
    ensures { IsTrue result → hash_map_len kept.now.numbers ≡ 0 }
{
    kept.numbers.is_empty() && kept.empty.len() / 4 > room
}

// Takes memory anew for so many arriving endpoints, if nobody waits, and frees the old.
fn renew(kept: &mut Kept, room: usize) -> Result<(), Memory>
    requires grows { CanGrow room kept.old }
    requires nobody { hash_map_len kept.old.numbers ≡ 0 }
    ensures room { OnOk result (kept.new.room ≡ room) }
    ensures keeps { Keeps kept.old kept.new }
{
    let mut other = first(*kept.empty.allocator())?;
    make_room(&mut other, room)?;
    *kept = other;
    Ok(())
}

/// Makes room for so many arriving endpoints. If many waited at once and few do any more, it frees memory that they took,
/// and all of it if nobody waits.
pub(crate) fn reserve(kept: &mut Kept, n: usize) -> Result<(), Memory>
    requires kept { IsKept kept.old }
    ensures room { OnOk result (n ≤ kept.new.room) }
    ensures keeps { Keeps kept.old kept.new }
{
    let room = n.max(kept.room);
    if is_wide(kept, room) {
        return renew(kept, room);
    }
    shrink(kept, room);
    make_room(kept, room)
}

/// Returns what an endpoint arriving at this mailbox finds.
pub(crate) fn look(kept: &Kept, mailbox: BoxId, sends: bool) -> Found
    requires kept { IsKept kept.now }
    ensures found { IsFound (posts_of kept.now) mailbox sends result }
    ensures rising { AreRising (waiters (posts_of kept.now) mailbox) }
{
    let Some(queue) = kept.numbers.get(&mailbox).copied() else {
        return Found {
            queue: None,
            met: None,
        };
    };
    let met = match kept.queues.front(queue) {
        Some((_, first)) if first.sends != sends => Some((first.serial, first.side)),
        _ => None,
    };
    Found {
        queue: Some(queue),
        met,
    }
}

// Gives a mailbox a queue, and returns it.
fn open(kept: &mut Kept, mailbox: BoxId) -> usize
    requires able { CanTake kept.old }
    requires nobody { number kept.old mailbox ≡ None }
    ensures { Opens mailbox result kept.old kept.new }
{
    let Some(queue) = kept.empty.pop() else {
        unreachable!()
    };
    match kept.numbers.insert(mailbox, queue) {
        Ok(_) => {}
        Err(_) => unreachable!(),
    }
    queue
}

// Returns the queue of a mailbox, and gives it one if it had none.
fn queue_for(kept: &mut Kept, mailbox: BoxId, queue: Option<usize>) -> usize
    requires able { CanTake kept.old }
    requires queue { queue ≡ number kept.old mailbox }
    ensures { Opens mailbox result kept.old kept.new }
{
    match queue {
        Some(queue) => queue,
        None => open(kept, mailbox),
    }
}

// Puts an endpoint at the end of the queue of its mailbox.
fn put(kept: &mut Kept, mailbox: BoxId, queue: usize, post: Post)
    requires kept { IsKeptBut mailbox (kept.old.room - 1) kept.old }
    requires room { 0 < kept.old.room }
    requires queue { number kept.old mailbox ≡ Some queue }
    requires above { AreBelow post.serial.0 (posts_of kept.old) }
    requires alike { All (λ (first : PostSpec). first.sends ≡ post.sends)
        (waiters (posts_of kept.old) mailbox) }
    ensures { Waits mailbox post kept.old kept.new }
{
    let slot = kept.queues.push_back(queue, post);
    let place = Place {
        mailbox,
        queue,
        slot,
    };
    kept.places.insert(post.serial.0, place);
    kept.room -= 1;
}

// Frees the queue of a mailbox in which nobody waits any more.
fn close(kept: &mut Kept, mailbox: BoxId, queue: usize)
    requires kept { IsKeptBut mailbox kept.old.room kept.old }
    requires queue { number kept.old mailbox ≡ Some queue }
    ensures { Stays kept.old kept.new }
{
    if kept.queues.front(queue).is_none() {
        kept.numbers.remove(&mailbox);
        kept.empty.push_reserved(queue);
    }
}

/// Removes the endpoint of this activity id from its mailbox, if it waits in one.
pub(crate) fn withdraw(kept: &mut Kept, serial: Serial)
    requires kept { IsKept kept.old }
    ensures left { (mailbox : BoxId) → waiters (posts_of kept.new) mailbox
        ≡ posts_without serial (waiters (posts_of kept.old) mailbox) }
    ensures room { kept.new.room ≡ kept.old.room }
    ensures kept { IsKept kept.new }
{
    if let Some(place) = kept.places.remove(serial.0) {
        kept.queues.remove(place.slot);
        close(kept, place.mailbox, place.queue);
    }
}

/// Enters an arriving endpoint that found this.
pub(crate) fn enter(
    kept: &mut Kept,
    mailbox: BoxId,
    sends: bool,
    found: Found,
    side: Side,
    serial: Serial,
) -> Meeting
    requires able { CanTake kept.old }
    requires found { IsFound (posts_of kept.old) mailbox sends found }
    requires above { AreBelow serial.0 (posts_of kept.old) }
    ensures meeting { result
        ≡ meeting (partner sends (waiters (posts_of kept.old) mailbox)) serial }
    ensures there { waiters (posts_of kept.new) mailbox
        ≡ posts_after sends side serial (waiters (posts_of kept.old) mailbox) }
    ensures elsewhere { OthersStay mailbox (posts_of kept.old) (posts_of kept.new) }
    ensures room { kept.new.room ≡ kept.old.room - 1 }
    ensures kept { IsKept kept.new }
{
    match found.met {
        Some((met, other)) => {
            kept.room -= 1;
            withdraw(kept, met);
            Meeting::Met(met, other)
        }
        None => {
            let queue = queue_for(kept, mailbox, found.queue);
            put(
                kept,
                mailbox,
                queue,
                Post {
                    serial,
                    sends,
                    side,
                },
            );
            Meeting::Posted(serial)
        }
    }
}
