//! Things that wait in a row.
ghost use Rattle.std.specs.Prelude.{◌≡◌, ◌∷◌, ◌++◌, ◌-◌, [], drop, take, length, slice_get, OnOk, OnErr};
ghost use Rattle.std.specs.Option.{option_copied};
ghost use Rattle.cg_base.specs.Text.{is_nil};

use cg_base::NoMemory;
use std::alloc::Global;
use std::collections::VecDeque;
use std::marker::Model;

/// Things that wait in a row. Clauses see the list of them.
#[derive(Drop)]
pub struct Fifo<T> {
    items: VecDeque<T>,
}

impl<T> Model for Fifo<T> {
    ghost use Rattle.std.specs.Prelude.{List};

    ghost Value = { List T };

    ghost view = { λ w. w.items.items };
}

impl<T> Fifo<T> {
    /// Nothing waits yet.
    pub fn new(alloc: Global) -> Fifo<T>
        ensures { result ≡ [] }
    {
        Fifo {
            items: VecDeque::new(alloc),
        }
    }

    /// One more thing comes behind the others.
    pub fn push(&mut self, item: T) -> Result<(), NoMemory>
    where
        T: Drop,
        ensures ok { OnOk result (self.new ≡ self.old ++ item ∷ []) }
        ensures err { OnErr result (self.new ≡ self.old) }
    {
        self.items.push_back(item)?;
        Ok(())
    }

    /// The first thing, if there is one.
    pub fn first(&self) -> Option<&T>
        ensures { option_copied result ≡ slice_get self.now 0 }
    {
        self.items.front()
    }

    /// The last thing, if there is one.
    pub fn last(&self) -> Option<&T>
        ensures { option_copied result ≡ slice_get self.now (length self.now - 1) }
    {
        let count = self.items.len();
        if count == 0 {
            return None;
        }
        self.items.get(count - 1)
    }

    /// The thing at a place, counted from 0.
    pub fn get(&self, i: usize) -> Option<&T>
        ensures { option_copied result ≡ slice_get self.now i }
    {
        self.items.get(i)
    }

    /// How many things wait.
    pub fn len(&self) -> usize
        ensures { result ≡ length self.now }
    {
        self.items.len()
    }

    /// Nothing waits.
    pub fn is_empty(&self) -> bool
        ensures { result ≡ is_nil self.now }
    {
        self.items.is_empty()
    }

    /// The things themselves. It takes no memory.
    pub fn into_deque(self) -> VecDeque<T>
        ensures { result.items ≡ self }
    {
        let Fifo { items } = self;
        items
    }

    /// Takes the last thing away, if there is one.
    pub fn drop_last(&mut self)
    where
        T: Drop,
        ensures { self.new ≡ take (length self.old - 1) self.old }
    {
        let _ = self.items.pop_back();
    }

    /// Takes the first thing away, if there is one.
    pub fn drop_first(&mut self)
    where
        T: Drop,
        ensures { self.new ≡ drop 1 self.old }
    {
        let _ = self.items.pop_front();
    }
}
