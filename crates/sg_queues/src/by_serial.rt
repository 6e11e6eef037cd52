//! Values by activity id.
ghost use Rattle.std.specs.Prelude.{◌≡◌, ◌≤◌, ◌<◌, ◌+◌, ◌^◌, ℕ, nat_eq, None, Some, IsSome, IsNone, OnOk, true, false, if◌then◌else◌, length, min, slice_index_or, slice_set};
ghost use Rattle.std.specs.HashMap as hash;
ghost use Rattle.sg_queues.specs.Serials.{at, place as place_spec, room, value_in as value_in_spec, Puts};

use sg_base::Memory;
use std::alloc::Global;
use std::collections::HashMap;

/// The most places.
const MOST_PLACES: usize = 8192;

/// A value and its activity id.
#[derive(Clone, Copy)]
pub struct Entry<T> {
    pub(crate) serial: u64,
    pub(crate) value: T,
}

/// Values by activity id. Contracts see for each id its value or none, and for how many there is room.
///
/// Consecutive ids have places side by side, under their last digits; an id whose place is taken is in a map, as all are
/// before places are made. Only `reserve` takes memory.
#[derive(Drop)]
pub struct BySerial<T> {
    near: Vec<Option<Entry<T>>>,
    // the last digits, in binary: one less than how many places there are
    mask: u64,
    far: HashMap<u64, T>,
}

fn place(mask: u64, serial: u64) -> usize
    ensures { result ≡ place_spec mask serial }
{
    (serial & mask) as usize
}

// Returns the value of an entry, if it has this id.
fn value_in<T: Copy>(entry: &Option<Entry<T>>, serial: u64) -> Option<T>
    ensures { result ≡ value_in_spec entry.now serial }
{
    match entry {
        Some(entry) if entry.serial == serial => Some(entry.value),
        _ => None,
    }
}

// Returns the value in a place, if its entry has this id.
fn near_value<T: Copy>(near: &[Option<Entry<T>>], at: usize, serial: u64) -> Option<T>
    ensures { result ≡ value_in_spec (slice_index_or near.now at None) serial }
{
    if at < near.len() {
        value_in(&near[at], serial)
    } else {
        None
    }
}

// Returns whether a place may take an entry of this id: it exists, and has no other id's entry.
fn is_open<T: Copy>(near: &[Option<Entry<T>>], at: usize, serial: u64) -> bool
    ensures there { result ≡ true → at < length near.now }
    ensures free { result ≡ true → (other : ℕ) → nat_eq serial other ≡ false
        → value_in_spec (slice_index_or near.now at None) other ≡ None }
    ensures closed { result ≡ false
        → value_in_spec (slice_index_or near.now at None) serial ≡ None }
{
    if at < near.len() {
        match &near[at] {
            Some(entry) => entry.serial == serial,
            None => true,
        }
    } else {
        false
    }
}

// Takes the entry out of a place, if it is there.
fn clear_place<T: Copy + Drop>(near: &mut [Option<Entry<T>>], at: usize)
    ensures { near.new ≡ slice_set near.old at None }
{
    if at < near.len() {
        near[at] = None;
    }
}

// Puts an entry into a place, if it is there.
fn put_place<T: Copy + Drop>(near: &mut [Option<Entry<T>>], at: usize, entry: Entry<T>)
    ensures { near.new ≡ slice_set near.old at (Some entry) }
{
    if at < near.len() {
        near[at] = Some(entry);
    }
}

// Returns the value in the map.
fn far_value<T: Copy>(far: &HashMap<u64, T>, serial: u64) -> Option<T>
    ensures { result ≡ hash.get nat_eq far.now serial }
{
    if far.is_empty() {
        return None;
    }
    far.get(&serial).copied()
}

// Takes the value out of the map.
fn remove_far<T: Copy + Drop>(far: &mut HashMap<u64, T>, serial: u64) -> Option<T>
    ensures was { result ≡ hash.get nat_eq far.old serial }
    ensures is { (other : ℕ) → hash.get nat_eq far.new other
        ≡ (if nat_eq serial other then None else hash.get nat_eq far.old other) }
    ensures room { hash.spare far.old ≤ hash.spare far.new }
{
    if far.is_empty() {
        return None;
    }
    far.remove(&serial)
}

// Writes a value over the one in the map, if there is one, and returns what was there.
fn replace_far<T: Copy + Drop>(far: &mut HashMap<u64, T>, serial: u64, value: T) -> Option<T>
    ensures was { result ≡ hash.get nat_eq far.old serial }
    ensures is { IsSome result → (other : ℕ) → hash.get nat_eq far.new other
        ≡ (if nat_eq serial other then Some value else hash.get nat_eq far.old other) }
    ensures kept { IsNone result → far.new ≡ far.old }
    ensures room { hash.spare far.new ≡ hash.spare far.old }
{
    let there = far.get_mut(&serial)?;
    let was = *there;
    *there = value;
    Some(was)
}

// Puts a value into the map.
fn put_far<T: Copy + Drop>(far: &mut HashMap<u64, T>, serial: u64, value: T)
    requires { 0 < hash.spare far.old }
    ensures is { (other : ℕ) → hash.get nat_eq far.new other
        ≡ (if nat_eq serial other then Some value else hash.get nat_eq far.old other) }
    ensures room { hash.spare far.old ≤ hash.spare far.new + 1 }
{
    match far.insert(serial, value) {
        Ok(_) => {}
        Err(_) => unreachable!(),
    }
}

// Returns how many places are made for so many values: a power of two, at least twice as many, at most `MOST_PLACES`.
fn count_for(n: usize) -> usize
    ensures { 0 < result }
{
    let mut count = 64;
    while count < MOST_PLACES && count / 2 < n {
        count *= 2;
    }
    count
}

// Adds so many places that no entry has.
fn add_places<T: Copy + Drop>(near: &mut Vec<Option<Entry<T>>>, n: usize) -> Result<(), Memory>
    ensures { (at : ℕ) → slice_index_or near.new.items at None
        ≡ slice_index_or near.old.items at None }
{
    for _at in near.len()..n {
        near.push(None)?;
    }
    Ok(())
}

impl<T: Copy + Drop> BySerial<T> {
    /// Makes a state without values and room.
    pub fn new(alloc: Global) -> BySerial<T>
        ensures { (serial : ℕ) → at result serial ≡ None }
    {
        BySerial {
            near: Vec::new(alloc),
            mask: 0,
            far: HashMap::new(alloc),
        }
    }

    // Makes places, if there are none yet.
    fn make_places(&mut self, n: usize) -> Result<(), Memory>
        ensures same { (serial : ℕ) → at self.new serial ≡ at self.old serial }
        ensures room { room self.new ≡ room self.old }
    {
        if !self.near.is_empty() {
            return Ok(());
        }
        let count = count_for(n);
        add_places(&mut self.near, count)?;
        self.mask = count as u64 - 1;
        Ok(())
    }

    /// Makes room for so many more values. If it is made for the first time, its number says how many places there are.
    pub fn reserve(&mut self, n: usize) -> Result<(), Memory>
        ensures same { (serial : ℕ) → at self.new serial ≡ at self.old serial }
        ensures room { OnOk result (n ≤ room self.new) }
        ensures grows { room self.old ≤ room self.new }
    {
        self.far.reserve(n)?;
        self.make_places(n)
    }

    /// Lets most of the memory go if there are few of the many values that there were; room for so many more stays.
    pub fn trim(&mut self, n: usize)
        ensures same { (serial : ℕ) → at self.new serial ≡ at self.old serial }
        ensures room { min n (room self.old) ≤ room self.new }
    {
        let wanted = self.far.len().saturating_add(n);
        if wanted < self.far.capacity() / 4 {
            self.far.shrink_to(wanted);
        }
    }

    /// Returns the value of an activity id.
    pub fn get(&self, serial: u64) -> Option<T>
        ensures { result ≡ at self.now serial }
    {
        match near_value(&self.near, place(self.mask, serial), serial) {
            Some(value) => Some(value),
            None => far_value(&self.far, serial),
        }
    }

    /// Gives an activity id a value, in place of the one that it has, if any.
    pub fn insert(&mut self, serial: u64, value: T)
        requires { 0 < room self.old }
        ensures puts { Puts serial (Some value) self.old self.new }
        ensures room { room self.old ≤ room self.new + 1 }
    {
        let at = place(self.mask, serial);
        if is_open(&self.near, at, serial) {
            put_place(&mut self.near, at, Entry { serial, value });
        } else {
            put_far(&mut self.far, serial, value);
        }
    }

    /// Gives an activity id that has a value another, which takes no room, and returns the old one.
    pub fn replace(&mut self, serial: u64, value: T) -> Option<T>
        ensures was { result ≡ at self.old serial }
        ensures puts { IsSome result → Puts serial (Some value) self.old self.new }
        ensures kept { IsNone result → self.new ≡ self.old }
        ensures room { room self.new ≡ room self.old }
    {
        let at = place(self.mask, serial);
        match near_value(&self.near, at, serial) {
            Some(was) => {
                put_place(&mut self.near, at, Entry { serial, value });
                Some(was)
            }
            None => replace_far(&mut self.far, serial, value),
        }
    }

    /// Removes and returns the value of an activity id, if it has one.
    pub fn remove(&mut self, serial: u64) -> Option<T>
        ensures was { result ≡ at self.old serial }
        ensures puts { Puts serial None self.old self.new }
        ensures room { room self.old ≤ room self.new }
    {
        let at = place(self.mask, serial);
        let far = remove_far(&mut self.far, serial);
        match near_value(&self.near, at, serial) {
            Some(value) => {
                clear_place(&mut self.near, at);
                Some(value)
            }
            None => far,
        }
    }
}
