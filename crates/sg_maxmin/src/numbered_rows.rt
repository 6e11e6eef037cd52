//! Rows of flows under numbers, of which there are as many as were asked for. A number that is free again is the
//! next one to be given.
ghost use Rattle.std.specs.Prelude.{◌≡◌, ◌≢◌, ◌≤◌, ◌<◌, ◌+◌, ◌-◌, ◌^◌, [], ◌∷◌, ◌++◌, ℕ, None, Some, IsSome, is_some, length, count_by, MatchResult, OnOk, slice_index_or, slice_set};
ghost use Rattle.sg_maxmin.specs.kept.Numbers.{row_at, free_count};

use crate::flow_row::{Cell, FlowRow, cell_with, free_cell, row_in};
use crate::system::FlowId;
use sg_base::Memory;
use std::alloc::Global;
use std::marker::Model;

// how many numbers there may be: a sum of so many weights fits 64 bits
const MOST: usize = 1 << 32;

/// Under each number a row or nothing.
#[derive(Drop)]
pub(crate) struct Rows {
    rows: Vec<Cell>,
    // the first `count` are the numbers without a row
    free: Vec<u32>,
    count: usize,
}

impl Model for Rows {
    ghost use Rattle.std.specs.Prelude.{List, Option};
    ghost use Rattle.sg_maxmin.specs.declared.flow_row.FlowRow.{FlowRow};

    ghost Value = { List (Option FlowRow) };

    ghost use Rattle.sg_maxmin.specs.kept.Cells.{rows_in};
    ghost use Rattle.sg_maxmin.specs.kept.Numbers.{AreFree};

    ghost view = { λ r. rows_in r.rows.items };

    ghost invariant = { λ r. AreFree (rows_in r.rows.items) r.free.items r.count };
}

impl Rows {
    pub(crate) fn new(alloc: Global) -> Rows
        ensures { result ≡ [] }
    {
        Rows {
            rows: Vec::new(alloc),
            free: Vec::new(alloc),
            count: 0,
        }
    }

    // Adds one number.
    fn grow(&mut self) -> Result<(), Memory>
        ensures { MatchResult result (λ _. self.new ≡ self.old ++ None ∷ [])
            (λ _. self.new ≡ self.old) }
    {
        let number = self.rows.len();
        if number >= MOST {
            return Err(Memory);
        }
        self.free.push(number as u32)?;
        if self.rows.push(free_cell()).is_err() {
            self.free.truncate(number);
            return Err(Memory);
        }
        self.free[self.count] = number as u32;
        self.count += 1;
        Ok(())
    }

    /// Makes numbers until so many are free. What there was stays.
    pub(crate) fn reserve(&mut self, more: usize) -> Result<(), Memory>
        ensures room { OnOk result (more ≤ free_count self.new) }
        ensures kept { (id : ℕ) → row_at self.new id ≡ row_at self.old id }
        ensures longer { length self.old ≤ length self.new }
        ensures few { length self.new ≤ length self.old + (more - free_count self.old) }
        ensures same { count_by is_some self.new ≡ count_by is_some self.old }
    {
        for _number in 0..more.saturating_sub(self.count) {
            self.grow()?;
        }
        Ok(())
    }

    /// Puts a row under a free number, and returns the number.
    pub(crate) fn insert(&mut self, row: FlowRow) -> FlowId
        requires { 0 < free_count self.old }
        ensures free { row_at self.old result ≡ None }
        ensures in_range { result < length self.old }
        ensures put { self.new ≡ slice_set self.old result (Some row) }
        ensures count { count_by is_some self.new ≡ count_by is_some self.old + 1 }
    {
        self.count -= 1;
        let id = self.free[self.count] as usize;
        self.rows[id] = cell_with(row);
        id
    }

    /// Takes the row away, and its number is free.
    pub(crate) fn remove(&mut self, id: FlowId) -> FlowRow
        requires { IsSome (row_at self.old id) }
        ensures value { row_at self.old id ≡ Some result }
        ensures taken { self.new ≡ slice_set self.old id None }
        ensures count { count_by is_some self.new + 1 ≡ count_by is_some self.old }
    {
        let Some(row) = row_in(self.rows[id]) else {
            unreachable!()
        };
        self.rows[id] = free_cell();
        self.free[self.count] = id as u32;
        self.count += 1;
        row
    }

    /// Returns the row under a number, if there is one.
    pub(crate) fn get(&self, id: FlowId) -> Option<FlowRow>
        ensures { result ≡ row_at self.now id }
    {
        if id < self.rows.len() {
            row_in(self.rows[id])
        } else {
            None
        }
    }

    /// Returns how many numbers there are.
    pub(crate) fn numbers(&self) -> usize
        ensures numbers { result ≡ length self.now }
        ensures few { result ≤ 2 ^ 32 }
    {
        self.rows.len()
    }

    /// Returns how many numbers are free.
    pub(crate) fn spare(&self) -> usize
        ensures { result ≡ free_count self.now }
    {
        self.count
    }

    /// Returns how many rows there are.
    pub(crate) fn held(&self) -> usize
        ensures { result ≡ count_by is_some self.now }
    {
        self.rows.len() - self.count
    }

    /// Puts a row in the place of another.
    pub(crate) fn replace(&mut self, id: FlowId, row: FlowRow)
        requires { IsSome (row_at self.old id) }
        ensures put { self.new ≡ slice_set self.old id (Some row) }
        ensures count { count_by is_some self.new ≡ count_by is_some self.old }
    {
        self.rows[id] = cell_with(row);
    }
}
