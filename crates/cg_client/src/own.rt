//! The own actions that weren't delivered yet.
ghost use Rattle.std.specs.Prelude.{◌≡◌, ◌∷◌, ◌++◌, ◌-◌, [], drop, length, slice_get, OnOk, IfOk, IfSome};
ghost use Rattle.std.specs.Option.{option_copied};
ghost use Rattle.cg_base.specs.Text.{is_nil};
ghost use Rattle.cg_action.specs.ActionLimits.{IsAction};
ghost use Rattle.cg_queue.specs.Queue.{names_of};
ghost use Rattle.cg_base.specs.Lists.{Each};

use crate::fifo::Fifo;
use cg_action::Action;
use cg_base::{IdRuns, NoMemory};
use std::alloc::Global;
use std::collections::VecDeque;
use std::marker::Model;

/// Actions that wait, and their names. Clauses see the list of the actions; each is within the limits of an action.
pub struct Own {
    actions: Fifo<Action>,
    names: IdRuns,
}

impl Drop for Own {
    fn drop(self) {
        let Own {
            actions: _,
            names: _,
        } = self;
    }
}

impl Model for Own {
    ghost use Rattle.std.specs.Prelude.{◌≡◌, List};
    ghost use Rattle.cg_action.specs.declared.action.Action.{Action};
    ghost use Rattle.cg_action.specs.ActionLimits.{IsAction};
    ghost use Rattle.cg_queue.specs.Queue.{names_of};
    ghost use Rattle.cg_base.specs.Lists.{Each};

    ghost Value = { List Action };

    ghost view = { λ o. o.actions };

    ghost invariant = { λ o. Each IsAction o.actions × (o.names ≡ names_of o.actions) };
}

impl Own {
    /// No action waits yet.
    pub fn new(alloc: Global) -> Own
        ensures { result ≡ [] }
    {
        Own {
            actions: Fifo::new(alloc),
            names: IdRuns::new(alloc),
        }
    }

    /// One more action comes behind the others.
    pub fn push(&mut self, a: Action) -> Result<(), NoMemory>
        requires { IsAction a }
        ensures { OnOk result (self.new ≡ self.old ++ a ∷ []) }
    {
        let id = a.id;
        self.actions.push(a)?;
        if self.names.push(&id).is_err() {
            self.actions.drop_last();
            return Err(NoMemory);
        }
        Ok(())
    }

    /// The first action, if there is one.
    pub fn first(&self) -> Option<&Action>
        ensures { option_copied result ≡ slice_get self.now 0 }
    {
        self.actions.first()
    }

    /// The last action, if there is one.
    pub fn last(&self) -> Option<&Action>
        ensures { option_copied result ≡ slice_get self.now (length self.now - 1) }
    {
        self.actions.last()
    }

    /// The action at a place, counted from 0.
    pub fn get(&self, i: usize) -> Option<&Action>
        ensures value { option_copied result ≡ slice_get self.now i }
        ensures action { IfSome (slice_get self.now i) IsAction }
        ensures each { Each IsAction self.now }
    {
        self.actions.get(i)
    }

    /// What always holds of the actions that wait.
    pub(crate) fn holds(&self)
        ensures { Each IsAction self.now }
    {
        let _ = &self.actions;
    }

    /// How many actions wait.
    pub fn len(&self) -> usize
        ensures { result ≡ length self.now }
    {
        self.actions.len()
    }

    /// The names of the actions, in the time of their runs: the names of what one replica creates are one run.
    pub fn names(&self, alloc: Global) -> Result<IdRuns, NoMemory>
        ensures { IfOk result (λ ids. ids ≡ names_of self.now) }
    {
        self.names.copy(alloc)
    }

    /// No action waits.
    pub fn is_empty(&self) -> bool
        ensures { result ≡ is_nil self.now }
    {
        self.actions.is_empty()
    }

    /// Takes the first action away, if there is one.
    pub fn drop_first(&mut self)
        ensures { self.new ≡ drop 1 self.old }
    {
        self.actions.drop_first();
        self.names.drop_first();
    }

    /// The actions themselves. It takes no memory.
    pub fn into_actions(self) -> VecDeque<Action>
        ensures value { result.items ≡ self }
        ensures each { Each IsAction self }
    {
        let Own {
            actions,
            names: _names,
        } = self;
        actions.into_deque()
    }
}
