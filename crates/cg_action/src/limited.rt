//! Things in a row, each within the limits of its type.
ghost use Rattle.std.specs.Prelude.{◌≡◌, ◌≤◌, ◌++◌, ◌∷◌, [], length, slice_get, OnOk, OnErr, IfOk, IfSome};
ghost use Rattle.std.specs.Option.{option_copied};
ghost use Rattle.cg_base.specs.declared.limits.TheConstants.{COUNT_LIMIT};
ghost use Rattle.cg_base.specs.Lists.{Each};

use crate::Action;
use cg_base::{ActionId, COUNT_LIMIT, NoMemory, Row};
use std::alloc::Global;
use std::marker::Model;

/// What a thing of the type may be.
pub trait Limits {
    ghost limit: { Self → Type 0 };
}

impl Limits for Action {
    ghost use Rattle.cg_action.specs.ActionLimits.{IsAction};

    ghost limit = { IsAction };
}

impl Limits for ActionId {
    ghost use Rattle.cg_action.specs.ActionLimits.{IsActionId};

    ghost limit = { IsActionId };
}

/// Things in a row, each within the limits of its type, and at most 2^62 of them. Clauses see the list of them.
pub struct Limited<T: Limits> {
    list: Row<T>,
}

impl<T: Limits + Drop> Drop for Limited<T> {
    fn drop(self) {
        let Limited { list: _ } = self;
    }
}

impl<T: Limits> Model for Limited<T> {
    ghost use Rattle.std.specs.Prelude.{◌≤◌, List, length};
    ghost use Rattle.cg_base.specs.declared.limits.TheConstants.{COUNT_LIMIT};
    ghost use Rattle.cg_base.specs.Lists.{Each};

    ghost Value = { List T };

    ghost view = { λ s. s.list };

    ghost invariant = { λ s. Each T.limit s.list × (length s.list ≤ COUNT_LIMIT) };
}

impl<T: Limits> Limited<T> {
    /// Nothing yet.
    pub fn new(alloc: Global) -> Limited<T>
        ensures { result ≡ [] }
    {
        Limited {
            list: Row::new(alloc),
        }
    }

    /// Nothing yet, with room for so many.
    pub fn with_capacity(alloc: Global, capacity: usize) -> Result<Limited<T>, NoMemory>
        ensures { IfOk result (λ limited. limited ≡ []) }
    {
        let list = Row::with_capacity(alloc, capacity)?;
        Ok(Limited { list })
    }

    /// One more thing comes behind the others.
    pub fn push(&mut self, item: T) -> Result<(), NoMemory>
    where
        T: Drop,
        requires { T.limit item }
        ensures ok { OnOk result (self.new ≡ self.old ++ item ∷ []) }
        ensures err { OnErr result (self.new ≡ self.old) }
    {
        if self.list.len() as u64 >= COUNT_LIMIT {
            return Err(NoMemory);
        }
        self.list.push(item)
    }

    /// All of these come behind the others.
    pub fn add_all(&mut self, items: Row<T>) -> Result<(), NoMemory>
    where
        T: Drop,
        requires { Each T.limit items }
        ensures { OnOk result (self.new ≡ self.old ++ items) }
    {
        for item in items.into_vec() {
            self.push(item)?;
        }
        Ok(())
    }

    pub fn len(&self) -> u64
        ensures value { result ≡ length self.now }
        ensures most { length self.now ≤ COUNT_LIMIT }
    {
        self.list.len() as u64
    }

    /// The thing at a place, counted from 0.
    pub fn get(&self, i: usize) -> Option<&T>
        ensures value { option_copied result ≡ slice_get self.now i }
        ensures limit { IfSome (slice_get self.now i) T.limit }
    {
        self.list.get(i)
    }

    /// The things, in their order.
    pub fn as_slice(&self) -> &[T]
        ensures value { result.now ≡ self.now }
        ensures each { Each T.limit self.now }
    {
        self.list.as_slice()
    }

    /// The things themselves. It takes no memory.
    pub fn into_list(self) -> Row<T>
        ensures value { result ≡ self }
        ensures each { Each T.limit self }
    {
        let Limited { list } = self;
        list
    }
}
