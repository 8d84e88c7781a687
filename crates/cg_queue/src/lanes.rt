//! Things in a row for each creator.

ghost use Rattle.std.specs.Prelude.{◌≡◌, ◌<◌, ◌≤◌, ℕ, List, [], ◌∷◌, ◌++◌, length, drop, slice_get, OnOk, OnErr, vec_len, map};
ghost use Rattle.std.specs.Option.{option_copied};
ghost use Rattle.std.specs.VecDeque.{deque_items};
ghost use Rattle.cg_queue.specs.Lanes.{HasRoom, lane_at, rows_of, with_lane, front_of, marked_at};

use crate::red::Red;
use cg_base::NoMemory;
use std::alloc::Global;
use std::collections::VecDeque;

/// For each slot, counted from 0, things in a row.
#[derive(Drop)]
pub(crate) struct Lanes<T> {
    // a slot behind the last of these has an empty row
    rows: Vec<VecDeque<T>>,
    alloc: Global,
}

impl<T> Lanes<T> {
    pub(crate) fn new(alloc: Global) -> Lanes<T>
        ensures { (slot : ℕ) → rows_of result slot ≡ [] }
    {
        Lanes {
            rows: Vec::new(alloc),
            alloc,
        }
    }

    pub(crate) fn len(&self, slot: usize) -> usize
        ensures { result ≡ length (rows_of self.now slot) }
    {
        if slot < self.rows.len() {
            self.rows[slot].len()
        } else {
            0
        }
    }

    pub(crate) fn get(&self, slot: usize, i: usize) -> Option<&T>
        ensures { option_copied result ≡ slice_get (rows_of self.now slot) i }
    {
        if slot < self.rows.len() {
            item_in(&self.rows[slot], i)
        } else {
            None
        }
    }

    /// The rows of the slots from here on are empty.
    pub(crate) fn used(&self) -> usize
        ensures most { result ≤ 32 }
        ensures rest { (slot : ℕ) → result ≤ slot → slot < 32 → rows_of self.now slot ≡ [] }
    {
        let count = self.rows.len();
        if count < 32 { count } else { 32 }
    }

    /// Puts a thing at the end of a row.
    pub(crate) fn push(&mut self, slot: usize, item: T) -> Result<(), NoMemory>
    where
        T: Drop,
        requires { slot < 32 }
        ensures ok { OnOk result (rows_of self.new ≡
            with_lane (rows_of self.old) slot (rows_of self.old slot ++ item ∷ [])) }
        ensures err { OnErr result (rows_of self.new ≡ rows_of self.old) }
    {
        self.make_room(slot)?;
        self.push_reserved(slot, item);
        Ok(())
    }

    /// Makes room for one thing more in a row.
    pub(crate) fn make_room(&mut self, slot: usize) -> Result<(), NoMemory>
    where
        T: Drop,
        requires { slot < 32 }
        ensures same { rows_of self.new ≡ rows_of self.old }
        ensures room { OnOk result (HasRoom self.new slot) }
    {
        grow(&mut self.rows, self.alloc, slot)?;
        self.rows[slot].reserve(1)?;
        Ok(())
    }

    /// Puts a thing at the end of a row that has room for it.
    pub(crate) fn push_reserved(&mut self, slot: usize, item: T)
        requires { HasRoom self.old slot }
        ensures { rows_of self.new ≡ with_lane (rows_of self.old) slot (rows_of self.old slot ++ item ∷ []) }
    {
        self.rows[slot].push_back_reserved(item);
    }

    /// Takes the first thing of a row, if there is one.
    pub(crate) fn take_first(&mut self, slot: usize) -> Option<T>
        ensures first { result ≡ slice_get (rows_of self.old slot) 0 }
        ensures rest { rows_of self.new ≡ with_lane (rows_of self.old) slot (drop 1 (rows_of self.old slot)) }
    {
        if slot < self.rows.len() {
            self.rows[slot].pop_front()
        } else {
            None
        }
    }

    /// Takes the first thing of a row away, if there is one.
    pub(crate) fn drop_first(&mut self, slot: usize)
    where
        T: Drop,
        ensures { rows_of self.new ≡ with_lane (rows_of self.old) slot (drop 1 (rows_of self.old slot)) }
    {
        let _ = self.take_first(slot);
    }

    /// Takes the last thing of a row away, if there is one.
    pub(crate) fn drop_last(&mut self, slot: usize)
    where
        T: Drop,
        ensures { rows_of self.new ≡ with_lane (rows_of self.old) slot (front_of (rows_of self.old slot)) }
    {
        if slot < self.rows.len() {
            let _ = self.rows[slot].pop_back();
        }
    }
}

/// The thing at an index, counted from 0.
pub(crate) fn item_in<T>(row: &VecDeque<T>, i: usize) -> Option<&T>
    ensures { option_copied result ≡ slice_get row.now.items i }
{
    row.get(i)
}

// rows for the slots up to this one, all but those that were there empty
fn grow<T>(rows: &mut Vec<VecDeque<T>>, alloc: Global, slot: usize) -> Result<(), NoMemory>
where
    T: Drop,
    requires { slot < 32 }
    ensures same { (k : ℕ) → lane_at deque_items rows.new.items k ≡ lane_at deque_items rows.old.items k }
    ensures ok { OnOk result (slot < vec_len rows.new) }
{
    while rows.len() <= slot {
        rows.push(VecDeque::new(alloc))?;
    }
    Ok(())
}

impl Lanes<Red> {
    /// Says of a red action whether it is yellow.
    pub(crate) fn mark(&mut self, slot: usize, i: usize, is_yellow: bool)
        ensures { rows_of self.new ≡ with_lane (rows_of self.old) slot (marked_at (rows_of self.old slot) i is_yellow) }
    {
        if slot < self.rows.len() && i < self.rows[slot].len() {
            self.rows[slot][i].is_yellow = is_yellow;
        }
    }
}
