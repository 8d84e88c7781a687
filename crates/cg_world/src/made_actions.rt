//! The actions that were shown as made.
ghost use Rattle.std.specs.Prelude.{◌≡◌, ◌≤◌, ◌<◌, ℕ, [], ◌∷◌, ◌++◌, map, vec_len, IfOk, OnOk};
ghost use Rattle.std.specs.Option.{option_copied};
ghost use Rattle.cg_model.specs.Making.{made_as};
ghost use Rattle.cg_world.specs.MadeActions.{row_at, action_at};

use crate::all_made::AllMade;
use cg_action::{Action, ActionList};
use cg_base::{ActionId, NoMemory, Row};
use cg_report::Made;
use cg_world_events::WorldState;
use std::alloc::Global;
use std::marker::Model;

/// The actions that were made, kept in a row for each creator. Clauses see the list of them in the order of their
/// making.
pub(crate) struct MadeActions {
    // of each creator, the one with number 1 first; a creator behind the last of these has made none
    rows: Vec<ActionList>,
    all: AllMade,
}

impl Drop for MadeActions {
    fn drop(self) {
        let MadeActions { rows: _, all: _ } = self;
    }
}

impl Model for MadeActions {
    ghost use Rattle.std.specs.Prelude.{List};
    ghost use Rattle.cg_action.specs.declared.action.Action.{Action};
    ghost use Rattle.cg_model.specs.MadeRowLaws.{AreRowsOf};

    ghost Value = { List Action };

    ghost view = { λ m. m.all };

    ghost invariant = { λ m. AreRowsOf m.all m.rows.items };
}

impl MadeActions {
    /// Nothing was made yet.
    pub(crate) fn new(alloc: Global) -> MadeActions
        ensures { result ≡ [] }
    {
        MadeActions {
            rows: Vec::new(alloc),
            all: AllMade::nothing(),
        }
    }

    /// The action of this number among those of its creator. It takes no memory.
    pub(crate) fn get(&self, id: ActionId) -> Option<&Action>
        ensures { option_copied result ≡ action_at self.now id }
    {
        let ActionId { creator, index } = id;
        if index == 0 {
            return None;
        }
        let slot = creator.get() as usize;
        if self.rows.len() <= slot {
            return None;
        }
        self.rows[slot].get((index - 1) as usize)
    }

    /// What the step to this world shows as made is made too. An action's green line is its creator's position there.
    pub(crate) fn add_all(
        &mut self,
        alloc: Global,
        state: &WorldState,
        list: &[Made],
    ) -> Result<(), NoMemory>
        ensures { OnOk result (self.new ≡ self.old ++ map (made_as state.now) list.now) }
    {
        for m in list {
            self.push(action_of(alloc, state, m)?)?;
        }
        Ok(())
    }

    // The action is made as the last one.
    fn push(&mut self, a: Action) -> Result<(), NoMemory>
        ensures { OnOk result (self.new ≡ self.old ++ a ∷ []) }
    {
        let slot = slot_of(&a);
        grow(&mut self.rows, slot)?;
        let all = self.all.with(&a);
        self.rows[slot].push(a)?;
        self.all = all;
        Ok(())
    }
}

fn slot_of(a: &Action) -> usize
    ensures slot { result ≡ a.now.id.creator }
    ensures small { result ≤ 32 }
{
    a.id.creator.get() as usize
}

// There are rows up to this slot; all but those that were there are empty.
fn grow(rows: &mut Vec<ActionList>, slot: usize) -> Result<(), NoMemory>
    requires { slot ≤ 32 }
    ensures same { (p : ℕ) → row_at rows.new.items p ≡ row_at rows.old.items p }
    ensures ok { OnOk result (slot < vec_len rows.new) }
{
    while rows.len() <= slot {
        let alloc = *rows.allocator();
        rows.push(Row::new(alloc))?;
    }
    Ok(())
}

// The action as it was made, in the step that leads to this world.
fn action_of(alloc: Global, state: &WorldState, m: &Made) -> Result<Action, NoMemory>
    ensures { IfOk result (λ a. a ≡ made_as state.now m.now) }
{
    let kind = m.kind.copy(alloc)?;
    let green_line = state.printed_position(m.id.creator);
    Ok(Action {
        id: m.id,
        green_line,
        kind,
    })
}
