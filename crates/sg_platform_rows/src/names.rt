//! Numbers of names, most of which are found without the map that has them all.
ghost use Rattle.std.specs.Prelude.{◌≡◌, ◌≤◌, ◌+◌, ℕ, List, All, IfOk, IfSome, Some, length};
ghost use Rattle.std.specs.Int.{to_le_bytes, w64};
ghost use Rattle.sg_platform_rows.specs.kept.Finds.{finds};
ghost use Rattle.sg_platform_rows.specs.kept.Slots.{IsKey, IsSlot, IsSlotOf};

use indexmap::IndexMap;
use sg_base::Memory;
use std::alloc::Global;

/// The most names that the table has; the map finds any others.
const MOST_NAMES: usize = 65_536;

/// The most bytes of a short name, which fit into the key of a slot.
const SHORT: usize = 8;

/// The length that longer names have in their slots.
const LONG: u32 = 9;

/// An odd number with about as many ones as zeros, which spreads what it multiplies over the high bits.
const SPREAD: u64 = 0x9e37_79b9_7f4a_7c15;

/// A slot of the table.
#[derive(Clone, Copy)]
struct Slot {
    /// The bytes of a short name, the hash of a longer one.
    key: u64,
    /// How many bytes a short name has; else `LONG`.
    len: u32,
    /// The number of a short name; the index in the map of a longer one.
    number: u32,
}

/// A slot without a name.
const FREE: Slot = Slot {
    key: 0,
    len: LONG,
    number: u32::MAX,
};

/// Numbers by name. The map hashes a name byte by byte, so a table whose hash reads eight bytes at a time finds most names.
/// A short name is found by the slot alone.
#[derive(Drop)]
pub struct NameTable {
    pub map: IndexMap<Vec<u8>, u32>,
    /// A name is at the place of its hash, or at the next one. If it isn't there, the map decides.
    slots: Vec<Slot>,
    ghost known: { All (IsSlot map) slots.items },
}

// Returns these bytes as one number.
fn key_of(bytes: [u8; 8]) -> u64
    ensures { to_le_bytes w64 result ≡ bytes }
{
    u64::from_le_bytes(bytes)
}

// Returns the bytes of a short name, padded with zeros, as one number.
fn short_key(name: &[u8]) -> u64
    requires { length name.now ≤ 8 }
    ensures { IsKey name.now result }
{
    match name {
        [a] => key_of([*a, 0, 0, 0, 0, 0, 0, 0]),
        [a, b] => key_of([*a, *b, 0, 0, 0, 0, 0, 0]),
        [a, b, c] => key_of([*a, *b, *c, 0, 0, 0, 0, 0]),
        [a, b, c, d] => key_of([*a, *b, *c, *d, 0, 0, 0, 0]),
        [a, b, c, d, e] => key_of([*a, *b, *c, *d, *e, 0, 0, 0]),
        [a, b, c, d, e, f] => key_of([*a, *b, *c, *d, *e, *f, 0, 0]),
        [a, b, c, d, e, f, g] => key_of([*a, *b, *c, *d, *e, *f, *g, 0]),
        [a, b, c, d, e, f, g, h] => key_of([*a, *b, *c, *d, *e, *f, *g, *h]),
        _ => key_of([0, 0, 0, 0, 0, 0, 0, 0]),
    }
}

fn eight_at(name: &[u8], at: usize) -> u64
    requires { at + 8 ≤ length name.now }
{
    u64::from_le_bytes([
        name[at],
        name[at + 1],
        name[at + 2],
        name[at + 3],
        name[at + 4],
        name[at + 5],
        name[at + 6],
        name[at + 7],
    ])
}

// Returns a number that depends on all bytes of a name, of which it reads eight at a time.
fn hash_of(name: &[u8]) -> u64
    requires { 8 ≤ length name.now }
{
    let mut mixed = eight_at(name, name.len() - 8);
    for word in 0..name.len() / 8 {
        mixed = mixed.wrapping_mul(SPREAD).rotate_left(29) ^ eight_at(name, 8 * word);
    }
    mixed ^ name.len() as u64
}

// Returns the place of a name in a table of so many places.
fn place_of(key: u64, len: u32, places: usize) -> usize {
    let mixed = (key ^ u64::from(len)).wrapping_mul(SPREAD);
    ((mixed >> 32).wrapping_mul(places as u64) >> 32) as usize
}

// Returns the slot of a name with this number and this index in the map.
#[tactic(auto, using(crate::proofs::SlotLemmas::short_slot, crate::proofs::SlotLemmas::long_slot))]
fn slot_of(name: &[u8], number: u32, index: u32) -> Slot
    ensures { IsSlotOf name.now number result }
{
    if name.len() <= SHORT {
        Slot {
            key: short_key(name),
            len: name.len() as u32,
            number,
        }
    } else {
        Slot {
            key: hash_of(name),
            len: LONG,
            number: index,
        }
    }
}

// Returns where a slot goes: its place, or the next one if that place is taken. A third name replaces the second.
fn place_for(slots: &[Slot], slot: Slot) -> usize {
    let place = place_of(slot.key, slot.len, slots.len());
    match slots.get(place) {
        Some(there) if there.number != u32::MAX => place.wrapping_add(1),
        _ => place,
    }
}

// Returns the slots of the names of a map.
#[tactic(auto, using(crate::proofs::SlotLemmas::free_slot, crate::proofs::SlotLemmas::all_same))]
fn slots_of(alloc: Global, map: &IndexMap<Vec<u8>, u32>) -> Result<Vec<Slot>, Memory>
    ensures { IfOk result (λ slots. All (IsSlot map.now) slots.items) }
{
    let count = map.len().min(MOST_NAMES);
    let mut slots = vec![in alloc; FREE; 4 * count]?;
    for index in 0..count {
        if let Some((name, number)) = map.get_index(index) {
            let slot = slot_of(name.as_slice(), *number, index as u32);
            let place = place_for(&slots, slot);
            if place < slots.len() {
                slots[place] = slot;
            }
        }
    }
    Ok(slots)
}

impl NameTable {
    /// Makes the table of the names of a map.
    pub fn new(alloc: Global, map: IndexMap<Vec<u8>, u32>) -> Result<NameTable, Memory>
        ensures { IfOk result (λ table. table.map ≡ map) }
    {
        let slots = slots_of(alloc, &map)?;
        Ok(NameTable { map, slots })
    }

    // Returns the number of the short name of this key and this length, if its slot is at this place.
    fn short_at(&self, place: usize, key: u64, len: u32) -> Option<u32>
        requires { len ≤ 8 }
        ensures { IfSome result (λ number. (name : List ℕ) → IsKey name key → length name ≡ len
            → finds self.now.map name ≡ Some number) }
    {
        match self.slots.get(place) {
            Some(slot) if slot.key == key && slot.len == len => Some(slot.number),
            _ => None,
        }
    }

    // Returns the number of a short name, if it has a slot.
    fn short_number(&self, name: &[u8]) -> Option<u32>
        requires { length name.now ≤ 8 }
        ensures { IfSome result (λ number. finds self.now.map name.now ≡ Some number) }
    {
        let key = short_key(name);
        let len = name.len() as u32;
        let place = place_of(key, len, self.slots.len());
        self.short_at(place, key, len)
            .or_else(|| self.short_at(place.wrapping_add(1), key, len))
    }

    // Returns the number of a longer name, if its slot is at this place.
    fn long_at(&self, place: usize, name: &[u8]) -> Option<u32>
        ensures { IfSome result (λ number. finds self.now.map name.now ≡ Some number) }
    {
        let slot = self.slots.get(place)?;
        let entry = self.map.get_index(slot.number as usize)?;
        let same = entry.0.as_slice() == name;
        if same { Some(*entry.1) } else { None }
    }

    // Returns the number of a longer name, if it has a slot.
    fn long_number(&self, name: &[u8]) -> Option<u32>
        requires { 8 ≤ length name.now }
        ensures { IfSome result (λ number. finds self.now.map name.now ≡ Some number) }
    {
        let place = place_of(hash_of(name), LONG, self.slots.len());
        self.long_at(place, name)
            .or_else(|| self.long_at(place.wrapping_add(1), name))
    }

    // Returns the number of a name by the map. It stays out of line, so that its hash takes no registers from `get`.
    #[cold]
    #[inline(never)]
    fn number_in_map(&self, name: &[u8]) -> Option<u32>
        ensures { result ≡ finds self.now.map name.now }
    {
        self.map.get(name).copied()
    }

    /// Returns the number of a name.
    pub fn get(&self, name: &[u8]) -> Option<u32>
        ensures { result ≡ finds self.now.map name.now }
    {
        let in_slots = if name.len() <= SHORT {
            self.short_number(name)
        } else {
            self.long_number(name)
        };
        in_slots.or_else(|| self.number_in_map(name))
    }
}
