ghost use Rattle.std.specs.Prelude.{◌≡◌, [], IfOk, OnOk, OnErr};
ghost use Rattle.cg_base.specs.Calls.{greatest_cut};
ghost use Rattle.cg_made_rows.specs.Rows.{with_made, cell_at};

use crate::rows::{append, is_next};
use crate::values::{bring, cell_of_both, cell_of_one};
use cg_action::{Action, ActionList};
use cg_base::{Cut, NoMemory, ReplicaId};
use cg_relaxed::{Cell, Relaxed};
use cg_text::Txt;
use std::alloc::Global;
use std::marker::Model;

/// The actions that a run has shown as made, in a row for each creator. Clauses see the rows.
///
/// What a replica knew when it was last asked is kept as a value of the relaxed database, which goes on from there: a
/// question costs what the replica knows more, and costs all that it knows only where its cut fell.
pub struct MadeRows {
    rows: Vec<ActionList>,
    // at a replica's number, what it knew when it was last asked
    values: Vec<Relaxed>,
    alloc: Global,
}

impl Drop for MadeRows {
    fn drop(self) {
        let MadeRows {
            rows: _,
            values: _,
            alloc: _,
        } = self;
    }
}

impl Model for MadeRows {
    ghost use Rattle.std.specs.Prelude.{List};
    ghost use Rattle.cg_action.specs.declared.action.Action.{Action};
    ghost use Rattle.cg_made_rows.specs.Kept.{AreKept};

    ghost Value = { List (List Action) };

    ghost view = { λ m. m.rows.items };

    ghost invariant = { λ m. AreKept m.rows.items m.values.items };
}

impl MadeRows {
    /// No actions.
    pub fn new(alloc: Global) -> MadeRows
        ensures { result ≡ [] }
    {
        MadeRows {
            rows: Vec::new(alloc),
            values: Vec::new(alloc),
            alloc,
        }
    }

    /// Puts an action behind the others of its creator's row. `NoMemory` also comes where no replica makes such an
    /// action: it isn't within the limits of actions, or isn't the next one of its creator. It also comes at index 2^40.
    pub fn add(&mut self, action: Action) -> Result<(), NoMemory>
        ensures ok { OnOk result (self.new ≡ with_made self.old action.id.creator action) }
        ensures err { OnErr result (self.new ≡ self.old) }
    {
        if !is_next(&self.rows, &action) {
            return Err(NoMemory);
        }
        append(self.alloc, &mut self.rows, action)?;
        Ok(())
    }

    /// What stands at a key where a replica knows the actions that the cut names. `NoMemory` also comes where the cut
    /// names an action that isn't here.
    pub fn one(&mut self, p: ReplicaId, cut: &Cut, key: &Txt) -> Result<Cell, NoMemory>
        ensures cell { IfOk result (λ cell. cell ≡ cell_at self.old cut.now key.now) }
        ensures same { self.new ≡ self.old }
    {
        bring(self.alloc, &self.rows, &mut self.values, p, cut)?;
        cell_of_one(&self.values, p, cut, key)
    }

    /// What stands at a key in what two replicas know together, each the actions that its cut names. `NoMemory` also
    /// comes as in `one`, and where the two are one replica with two cuts.
    pub fn both(
        &mut self,
        p: ReplicaId,
        cut: &Cut,
        q: ReplicaId,
        other: &Cut,
        key: &Txt,
    ) -> Result<Cell, NoMemory>
        ensures cell { IfOk result (λ cell. cell ≡ cell_at self.old (greatest_cut cut.now other.now) key.now) }
        ensures same { self.new ≡ self.old }
    {
        bring(self.alloc, &self.rows, &mut self.values, p, cut)?;
        bring(self.alloc, &self.rows, &mut self.values, q, other)?;
        cell_of_both(&self.values, p, cut, q, other, key)
    }
}
