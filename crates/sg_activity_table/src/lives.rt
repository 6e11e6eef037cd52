//! The running activities, by key.

ghost use Rattle.std.specs.Prelude.{◌≡◌, ◌≢◌, ◌<◌, ◌≤◌, ◌+◌, ◌-◌, ◌==◌, ℕ, None, Some, IfSome, IsSome, MatchOption, [], if◌then◌else◌, not, count_by, length, option_map, slice_set};
ghost use Rattle.slab.specs.Slab.{get, slab_len, Updates};
ghost use Rattle.sg_activity_table.specs.Slots.{passes};
ghost use Rattle.sg_activity_table.specs.Kinds.{is_exec as is_exec_spec, is_held as is_held_spec, takes_share as takes_share_spec};
ghost use Rattle.sg_activity_table.specs.Pool.{CanPut, HasFree, IsFound, IsMissing, IsSet, MakesRoom, goes_on, slot_at, uses_ahead as uses_ahead_spec, with_stamp};
ghost use Rattle.sg_activity_table.specs.Kinds.{flows_ahead as flows_ahead_spec};

use crate::cells::{Cell, cell_of, live_of};
use crate::kinds::{PhaseKind, Place};
use sg_base::{Memory, Serial};
use sg_queues::BySerial;
use slab::Slab;
use std::alloc::Global;
use std::marker::Model;

/// A running activity, as it was at a stamp.
#[derive(Clone, Copy)]
pub struct Live {
    pub serial: u64,
    pub kind: PhaseKind,
    pub place: Place,
    /// What was left of its phase at the stamp.
    pub kept: u128,
    /// A date.
    pub stamp: u128,
    /// How much a nanosecond takes of it since.
    pub rate: u64,
    /// What it weighs among those that share with it.
    pub weight: u32,
    /// What its rate is to be at most.
    pub bound: Option<u64>,
    /// The bytes of a communication.
    pub bytes: u64,
    /// The number of its flow, if its phase takes a share.
    pub flow: usize,
}

/// What is to be filled in of an activity that begins: it weighs 1, and has no bound, no bytes and no flow.
pub const UNBEGUN: Live = Live {
    serial: 0,
    kind: PhaseKind::Timer,
    place: Place::Nowhere,
    kept: 0,
    stamp: 0,
    rate: 0,
    weight: 1,
    bound: None,
    bytes: 0,
    flow: 0,
};

/// Returns whether phases of this kind take shares of resources.
pub fn takes_share(kind: PhaseKind) -> bool
    ensures { result ≡ takes_share_spec kind }
{
    match kind {
        PhaseKind::Flow | PhaseKind::Exec => true,
        PhaseKind::Latency | PhaseKind::Timer | PhaseKind::Kept => false,
    }
}

/// Returns how many flows begin once a phase of this kind completes.
pub fn flows_ahead(kind: PhaseKind) -> usize
    ensures { result ≡ flows_ahead_spec kind }
{
    match kind {
        PhaseKind::Latency => 1,
        PhaseKind::Flow | PhaseKind::Exec | PhaseKind::Timer | PhaseKind::Kept => 0,
    }
}

/// Returns how many uses the flow takes that begins once the phase of this activity completes.
pub fn uses_ahead(live: &Live) -> usize
    ensures { result ≡ uses_ahead_spec live.now.kind live.now.place }
{
    match (live.kind, live.place) {
        (PhaseKind::Latency, Place::Over { links, .. }) => links as usize,
        _ => 0,
    }
}

/// Returns whether it is an execution that isn't suspended.
pub fn is_exec(kind: PhaseKind) -> bool
    ensures { result ≡ is_exec_spec kind }
{
    match kind {
        PhaseKind::Exec => true,
        PhaseKind::Latency | PhaseKind::Flow | PhaseKind::Timer | PhaseKind::Kept => false,
    }
}

/// Returns whether it is a suspended execution.
pub fn is_held(kind: PhaseKind) -> bool
    ensures { result ≡ is_held_spec kind }
{
    match kind {
        PhaseKind::Kept => true,
        PhaseKind::Latency | PhaseKind::Flow | PhaseKind::Exec | PhaseKind::Timer => false,
    }
}

// Returns 1 if a phase of this kind progresses, and else 0.
fn going_by(kind: PhaseKind) -> usize
    ensures { result ≡ (if not (is_held_spec kind) then 1 else 0) }
{
    match kind {
        PhaseKind::Latency | PhaseKind::Flow | PhaseKind::Exec | PhaseKind::Timer => 1,
        PhaseKind::Kept => 0,
    }
}

// Puts an activity under a free key below this number. A slab promises a key below its capacity, which may be more than
// was asked for, and callers have no place for a key from there: it is replaced. It isn't recursive itself, so that it
// can be inlined.
fn insert_below(slab: &mut Slab<Cell>, keys: usize, cell: Cell) -> usize
    requires { HasFree keys slab.old }
    ensures below { result < keys }
    ensures vacant { get slab.old result ≡ None }
    ensures updates { Updates slab.old slab.new result (Some cell) }
    ensures len { slab_len slab.new ≡ slab_len slab.old + 1 }
    ensures capacity { slab.new.capacity ≡ slab.old.capacity }
{
    let _most = slab.capacity();
    let key = slab.insert_reserved(cell);
    if key < keys {
        return key;
    }
    replace_above(slab, keys, key)
}

// Moves the activity under a key that isn't below this number to a free one that is. Its old key is given back only
// once another was found, since the slab would give it again.
#[cold]
fn replace_above(slab: &mut Slab<Cell>, keys: usize, above: usize) -> usize
    requires free { HasFree keys slab.old }
    requires there { IsSome (get slab.old above) }
    requires large { keys ≤ above }
    ensures below { result < keys }
    ensures vacant { get slab.old result ≡ None }
    ensures moved { get slab.new result ≡ get slab.old above }
    ensures gone { get slab.new above ≡ None }
    ensures others { (k : ℕ) → k ≢ above → k ≢ result → get slab.new k ≡ get slab.old k }
    ensures len { slab_len slab.new ≡ slab_len slab.old }
    ensures capacity { slab.new.capacity ≡ slab.old.capacity }
{
    let _most = slab.capacity();
    let cell = slab[above];
    let key = slab.insert_reserved(cell);
    let below = if key < keys {
        key
    } else {
        replace_above(slab, keys, key)
    };
    slab.remove(above);
    below
}

/// Activities under keys from 0 on, as many as there were at once at most. The key of one that is done is given to
/// another. Only `reserve` takes memory.
#[derive(Drop)]
pub struct Lives {
    slab: Slab<Cell>,
    // keys are below it
    keys: usize,
    // by activity id the key of its activity
    by_serial: BySerial<usize>,
    // how many progress
    going: usize,
    // room for so many more
    room: usize,
}

impl Model for Lives {
    ghost use Rattle.sg_activity_table.specs.Pool.{Pool};

    ghost Value = { Pool };

    ghost use Rattle.sg_queues.specs.Serials as serials;
    ghost use Rattle.sg_activity_table.specs.Cells.{lives_in};
    ghost use Rattle.sg_activity_table.specs.Pool.{IsLives};

    ghost view = { λ s. record {
      slots = lives_in s.keys s.slab;
      room = s.room;
    } };

    ghost invariant = { λ s. IsLives s.keys s.slab
        (serials.at s.by_serial) (serials.room s.by_serial) s.going s.room };
}

impl Lives {
    /// Makes a state without activities and keys.
    pub fn new(alloc: Global) -> Lives
        ensures slots { result.slots ≡ [] }
        ensures room { result.room ≡ 0 }
    {
        Lives {
            slab: Slab::new(alloc),
            keys: 0,
            by_serial: BySerial::new(alloc),
            going: 0,
            room: 0,
        }
    }

    /// Returns how many keys there are.
    pub fn numbers(&self) -> usize
        ensures { result ≡ length self.now.slots }
    {
        self.keys
    }

    /// Returns whether no activity progresses.
    pub fn is_idle(&self) -> bool
        ensures { result ≡ (count_by (passes goes_on) self.now.slots == 0) }
    {
        self.going == 0
    }

    /// Returns the activity under a key.
    pub fn get(&self, key: usize) -> Option<Live>
        requires { key < length self.now.slots }
        ensures { result ≡ slot_at self.now.slots key }
    {
        let cell = self.slab.get(key)?;
        Some(live_of(cell))
    }

    /// Returns the activity of an id, and its key.
    pub fn find(&self, serial: Serial) -> Option<(usize, Live)>
        ensures { MatchOption result (IsMissing self.now.slots serial.0)
            (λ found. IsFound self.now.slots serial.0 found.0 found.1) }
    {
        let key = self.by_serial.get(serial.0)?;
        let Some(cell) = self.slab.get(key) else {
            unreachable!()
        };
        Some((key, live_of(cell)))
    }

    /// Puts an activity under a free key, and returns the key. No other has its id.
    pub fn put(&mut self, live: Live) -> usize
        requires { CanPut live.serial self.old }
        ensures free { slot_at self.old.slots result ≡ None }
        ensures in_range { result < length self.old.slots }
        ensures slots { self.new.slots ≡ slice_set self.old.slots result (Some live) }
        ensures room { self.new.room + 1 ≡ self.old.room }
    {
        let key = insert_below(&mut self.slab, self.keys, cell_of(live));
        self.by_serial.insert(live.serial, key);
        self.going += going_by(live.kind);
        self.room -= 1;
        key
    }

    /// Puts an activity of the same id in place of the one under a key.
    pub fn set(&mut self, key: usize, live: Live)
        requires there { IsSome (slot_at self.old.slots key) }
        requires same { IfSome (slot_at self.old.slots key) (λ old. old.serial ≡ live.serial) }
        ensures { IsSet self.old self.new key (Some live) }
    {
        let Some(cell) = self.slab.get_mut(key) else {
            unreachable!()
        };
        let kind = cell.kind;
        *cell = cell_of(live);
        self.going = self.going - going_by(kind) + going_by(live.kind);
    }

    /// Notes what is left of the activity under a key at another stamp, and its rate since. Nothing else is written.
    pub fn restamp(&mut self, key: usize, kept: u128, stamp: u128, rate: u64)
        requires { IsSome (slot_at self.old.slots key) }
        ensures { IsSet self.old self.new key
            (option_map (with_stamp kept stamp rate) (slot_at self.old.slots key)) }
    {
        let Some(cell) = self.slab.get_mut(key) else {
            unreachable!()
        };
        cell.kept = kept;
        cell.stamp = stamp;
        cell.rate = rate;
    }

    /// Takes away the activity under a key, which is then free.
    pub fn remove(&mut self, key: usize)
        requires { IsSome (slot_at self.old.slots key) }
        ensures { IsSet self.old self.new key None }
    {
        let cell = self.slab.remove(key);
        self.by_serial.remove(cell.serial);
        self.going -= going_by(cell.kind);
    }

    /// Makes room for so many more.
    pub fn reserve(&mut self, n: usize) -> Result<(), Memory>
        ensures { MakesRoom n self.old self.new result }
    {
        self.slab.reserve(n)?;
        self.by_serial.reserve(n)?;
        let _most = self.slab.capacity();
        self.keys = self.keys.max(self.slab.len() + n);
        self.room = self.room.max(n);
        Ok(())
    }
}
