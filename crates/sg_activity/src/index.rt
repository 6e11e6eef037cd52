//! Which activities use which hosts and links.

ghost use Rattle.std.specs.Prelude.{◌≡◌, ◌≤◌, ◌<◌, ◌+◌, ℕ, [], All, IfOk, IsSome, None, OnOk, Some, length, max, slice_index_or};
ghost use Rattle.sg_base.specs.Ledgers.{IsBlankOf};
ghost use Rattle.sg_maxmin.specs.Chained.{times, users_on};
ghost use Rattle.sg_maxmin.specs.Walk.{Leads, next_of_flow, next_on, resource_of, user_of};
ghost use Rattle.sg_activity.specs.kept.Rows.{IsEntered, IsWider, row_at, uses_at};

use sg_base::{Memory, Steps};
use sg_maxmin::{Chains, Use};
use std::alloc::Global;
use std::marker::{Brand, Model};
use std::sync::ledger::{Blank, Ledger};

// The uses of an activity: so many, from the first one on.
#[derive(Clone, Copy)]
pub(crate) struct Uses {
    first: Option<usize>,
    count: usize,
}

const NO_USES: Uses = Uses {
    first: None,
    count: 0,
};

// Keys have 32 bits.
const MOST_KEYS: usize = 4_294_967_296;

/// The things, hosts or links, that the activity under each key uses, and the keys of those that use each thing.
/// Only `reserve` takes memory.
#[derive(Drop)]
pub(crate) struct Index {
    chains: Chains,
    // by key
    rows: Vec<Uses>,
}

impl Model for Index {
    ghost use Rattle.sg_activity.specs.kept.Rows.{Indexed};

    ghost Value = { Indexed };

    ghost use Rattle.std.specs.Prelude.{map};
    ghost use Rattle.sg_activity.specs.kept.Rows.{IsIndex, things_of};

    ghost view = { λ s. record {
      rows = map (things_of s.chains.uses) s.rows.items;
      uses = s.chains.uses;
      users = s.chains.users;
      room = s.chains.room;
    } };

    ghost invariant = { λ s. IsIndex s.rows.items s.chains };
}

// Makes so many rows, the new ones without uses.
fn grow_rows(rows: &mut Vec<Uses>, n: usize) -> Result<(), Memory>
    ensures same { (key : ℕ) → uses_at rows.new.items key ≡ uses_at rows.old.items key }
    ensures longer { length rows.old.items ≤ length rows.new.items }
    ensures few { length rows.new.items ≤ max (length rows.old.items) n }
    ensures long { OnOk result (n ≤ length rows.new.items) }
{
    while rows.len() < n {
        rows.push(NO_USES)?;
    }
    Ok(())
}

// Returns the use under a number of these chains, counted for nobody.
fn look_from<L: Ledger>(chains: &Chains, i: usize, blank: Blank) -> Use
    requires there { IsSome (slice_index_or chains.now.uses i None) }
    requires blank { IsBlankOf L.name L.parts blank }
    ensures { slice_index_or chains.now.uses i None ≡ Some result }
{
    let mut steps = Steps::<L>::new(blank);
    chains.look(i, &mut steps)
}

impl Index {
    /// Makes an index of so many things, which nothing uses.
    pub(crate) fn new(alloc: Global, things: usize) -> Result<Index, Memory>
        ensures rows { IfOk result (λ index. index.rows ≡ []) }
        ensures things { IfOk result (λ index. length index.users ≡ things) }
    {
        Ok(Index {
            chains: Chains::new(alloc, things)?,
            rows: Vec::new(alloc),
        })
    }

    /// Makes room for so many keys, and for so many more uses.
    pub(crate) fn reserve(&mut self, keys: usize, uses: usize) -> Result<(), Memory>
        ensures wider { IsWider self.old self.new }
        ensures keys { OnOk result (keys ≤ length self.new.rows) }
        ensures uses { OnOk result (uses ≤ self.new.room) }
    {
        if keys > MOST_KEYS {
            return Err(Memory);
        }
        grow_rows(&mut self.rows, keys)?;
        self.chains.reserve(uses)
    }

    /// Enters that the activity under a key, which used nothing, uses these things.
    pub(crate) fn enter(&mut self, key: usize, things: &[usize])
        requires key { key < length self.old.rows }
        requires idle { row_at self.old.rows key ≡ [] }
        requires exist { All (λ thing. thing < length self.old.users) things.now }
        requires room { length things.now ≤ self.old.room }
        ensures { IsEntered self.old self.new key things.now }
    {
        let first = self.chains.add(key as u32, things);
        self.rows[key] = Uses {
            first,
            count: things.len(),
        };
    }

    /// Removes all uses of the activity under a key.
    pub(crate) fn leave(&mut self, key: usize)
        requires { key < length self.old.rows }
        ensures { IsEntered self.old self.new key [] }
    {
        let row = self.rows[key];
        self.chains.remove(key, row.count, row.first);
        self.rows[key] = NO_USES;
    }

    /// Returns the first use of the activity under a key; `None` if it uses nothing.
    pub(crate) fn first_of(&self, key: usize) -> Option<usize>
        requires { key < length self.now.rows }
        ensures leads { Leads next_of_flow resource_of self.now.uses result
            (row_at self.now.rows key) }
        ensures few { length (row_at self.now.rows key) ≤ length self.now.uses }
    {
        self.rows[key].first
    }

    /// Returns the first use of a thing; `None` if nothing uses it.
    pub(crate) fn first_on(&self, thing: usize) -> Option<usize>
        requires { thing < length self.now.users }
        ensures leads { Leads next_on user_of self.now.uses result
            (users_on self.now.users thing) }
        ensures few { length (users_on self.now.users thing) ≤ length self.now.uses }
    {
        self.chains.first_on(thing)
    }

    /// Returns the use under a number. No visit is counted here.
    pub(crate) fn look(&self, i: usize) -> Use
        requires { IsSome (slice_index_or self.now.uses i None) }
        ensures { slice_index_or self.now.uses i None ≡ Some result }
    {
        look_from::<Brand>(&self.chains, i, Blank::new(1))
    }

    /// States that a thing is used under a key as often as the key is among its users.
    pub(crate) fn is_both_ways(&self)
        ensures { (key thing : ℕ) →
            times key (users_on self.now.users thing) ≡ times thing (row_at self.now.rows key) }
    {
        let _keys = self.rows.len();
    }
}
