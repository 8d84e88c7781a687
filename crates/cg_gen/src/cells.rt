ghost use Rattle.std.specs.Prelude.{◌≡◌, ◌≤◌, ◌<◌, ◌+◌, ◌∷◌, [], length, filter, find, nat_lt, IfOk, OnOk, OnErr};
ghost use Rattle.std.specs.List.{prefix_len};
ghost use Rattle.std.specs.Option.{option_copied};
ghost use Rattle.std.specs.Vec.{vec_len, vec_capacity};
ghost use Rattle.cg_base.specs.Sets.{has};
ghost use Rattle.cg_gen.specs.Generated.{are_apart, first_of, placed, with_cell, cell_at, cell_of};

use cg_base::{IdSet, NoMemory, ReplicaId};
use std::alloc::Global;
use std::marker::Model;

/// The cells into which the replicas are parted, at least one. Clauses see them in the order of their least members.
#[derive(Drop)]
pub(crate) struct Cells {
    sets: Vec<IdSet>,
}

impl Model for Cells {
    ghost use Rattle.std.specs.Prelude.{ℕ, List, ◌≤◌, length};

    ghost Value = { List (List ℕ) };

    ghost view = { λ cells. cells.sets.items };

    ghost invariant = { λ cells. 1 ≤ length cells.sets.items };
}

impl Cells {
    pub(crate) fn one(alloc: Global, all: IdSet) -> Result<Cells, NoMemory>
        ensures { IfOk result (λ cells. cells ≡ all ∷ []) }
    {
        let sets = Vec::from_slice(alloc, &[all])?;
        Ok(Cells { sets })
    }

    pub(crate) fn count(&self) -> usize
        ensures { result ≡ length self.now }
    {
        self.sets.as_slice().len()
    }

    /// What always holds of cells: there is at least one.
    pub(crate) fn holds(&self)
        ensures { 1 ≤ length self.now }
    {
        let _ = &self.sets;
    }

    /// The cell of this number, counted from 0.
    pub(crate) fn at(&self, i: usize) -> IdSet
        ensures { result ≡ cell_at self.now i }
    {
        self.sets
            .as_slice()
            .get(i)
            .copied()
            .unwrap_or(IdSet::empty())
    }

    /// The cell of a replica.
    pub(crate) fn of(&self, p: ReplicaId) -> IdSet
        ensures { result ≡ cell_of self.now p }
    {
        find_cell(self.sets.as_slice(), p)
            .copied()
            .unwrap_or(IdSet::empty())
    }

    /// The set becomes a cell.
    pub(crate) fn put(&mut self, set: IdSet) -> Result<(), NoMemory>
        ensures ok { OnOk result (self.new ≡ with_cell self.old set) }
        ensures err { OnErr result (self.new ≡ self.old) }
    {
        self.sets.reserve(1)?;
        put_in_room(&mut self.sets, set);
        Ok(())
    }

    /// The sets become cells, one and then the other.
    pub(crate) fn put_both(&mut self, first: IdSet, second: IdSet) -> Result<(), NoMemory>
        ensures ok { OnOk result (self.new ≡ with_cell (with_cell self.old first) second) }
        ensures err { OnErr result (self.new ≡ self.old) }
    {
        self.sets.reserve(2)?;
        put_in_room(&mut self.sets, first);
        put_in_room(&mut self.sets, second);
        Ok(())
    }
}

fn find_cell(cells: &[IdSet], p: ReplicaId) -> Option<&IdSet>
    ensures { option_copied result ≡ find (λ cell. has cell p) cells.now }
{
    cells.iter().find(|cell| cell.contains(p))
}

#[tactic(auto, unfolding(crate::specs::Generated::with_cell))]
fn put_in_room(sets: &mut Vec<IdSet>, set: IdSet)
    requires some { 1 ≤ length sets.old.items }
    requires room { vec_len sets.old < vec_capacity sets.old }
    ensures items { sets.new.items ≡ with_cell sets.old.items set }
    ensures some { 1 ≤ length sets.new.items }
    ensures len { vec_len sets.new ≤ vec_len sets.old + 1 }
    ensures capacity { vec_capacity sets.old ≤ vec_capacity sets.new }
{
    if set.is_empty() {
        return;
    }
    keep_apart(sets, &set);
    insert_in_room(sets, set);
}

fn keep_apart(sets: &mut Vec<IdSet>, set: &IdSet)
    ensures items { sets.new.items ≡ filter (are_apart set.now) sets.old.items }
    ensures len { vec_len sets.new ≤ vec_len sets.old }
    ensures capacity { vec_capacity sets.new ≡ vec_capacity sets.old }
{
    sets.retain(|cell| are_apart(set, cell));
}

fn are_apart(set: &IdSet, other: &IdSet) -> bool
    ensures { result ≡ are_apart set.now other.now }
{
    other.common(set).is_empty()
}

fn insert_in_room(sets: &mut Vec<IdSet>, set: IdSet)
    requires { vec_len sets.old < vec_capacity sets.old }
    ensures items { sets.new.items ≡ placed sets.old.items set }
    ensures len { vec_len sets.new ≡ vec_len sets.old + 1 }
    ensures capacity { vec_capacity sets.old ≤ vec_capacity sets.new }
{
    let place = place_of(sets.as_slice(), &set);
    let _done = sets.insert(place, set);
}

// where a set belongs among the cells, from 0
fn place_of(cells: &[IdSet], set: &IdSet) -> usize
    ensures value { result ≡ prefix_len (λ cell. nat_lt (first_of cell) (first_of set.now)) cells.now }
    ensures range { result ≤ length cells.now }
{
    let first = first_of(set);
    cells
        .iter()
        .take_while(|cell| first_of(cell) < first)
        .count()
}

fn first_of(set: &IdSet) -> u8
    ensures { result ≡ first_of set.now }
{
    set.least().map_or(0, |p| p.get())
}
