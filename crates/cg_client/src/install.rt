//! The installation of a primary component.
ghost use Rattle.std.specs.Prelude.{◌≡◌, fold, option_map, OnOk, IfOk, Some};
ghost use Rattle.cg_action.specs.ActionLimits.{IsAction};
ghost use Rattle.cg_base.specs.Lists.{Each};
ghost use Rattle.cg_client.specs.Replica.{State};
ghost use Rattle.cg_client.specs.Turn.{with_held};
ghost use Rattle.cg_client.specs.Marks.{mark_green};
ghost use Rattle.cg_client.specs.Install.{yellow_green, reds_green, with_prim, prim_after, install};
ghost use Rattle.cg_client.specs.Drafts.{turn_with};

use crate::{Components, Core, Draft, actions_named, weigh};
use cg_action::ActionList;
use cg_base::{IdSet, NoMemory, Row};
use cg_records::Primary;
use std::marker::Model;

impl Core {
    fn green_all(&mut self, draft: &mut Draft, actions: ActionList) -> Result<(), NoMemory>
        requires { Each IsAction actions }
        ensures { OnOk result ((state : State) →
            turn_with self.new state draft.new ≡ fold mark_green (turn_with self.old state draft.old) actions) }
    {
        for a in actions.into_vec() {
            self.mark_green(draft, a)?;
        }
        Ok(())
    }

    fn reds_green(&mut self, draft: &mut Draft) -> Result<(), NoMemory>
        ensures { OnOk result ((state : State) →
            turn_with self.new state draft.new ≡ reds_green (turn_with self.old state draft.old)) }
    {
        let reds = self.held.queue.reds()?;
        self.green_all(draft, reds)
    }

    fn yellow_green(&mut self, draft: &mut Draft) -> Result<(), NoMemory>
        ensures { OnOk result ((state : State) →
            turn_with self.new state draft.new ≡ yellow_green (turn_with self.old state draft.old)) }
    {
        if !self.held.yellow_valid {
            return Ok(());
        }
        let yellow = self.held.queue.yellow()?;
        let actions = actions_named(self.held.alloc, &self.held.queue, yellow.as_slice())?;
        self.green_all(draft, actions.into_list())
    }

    fn set_prim(&mut self, prim: Primary) -> Result<(), NoMemory>
        ensures { OnOk result (self.new ≡ with_prim self.old prim) }
    {
        let none = Row::new(self.held.alloc);
        self.held.queue.set_yellow(&none)?;
        self.held.yellow_valid = false;
        self.held.components = Components::of(prim, 0, self.held.components.vulnerable())?;
        Ok(())
    }

    // the primary component that the attempt forms
    fn prim_after(&self) -> Result<Primary, NoMemory>
        ensures { IfOk result (λ prim. prim ≡ prim_after self.now self.now.vulnerable) }
    {
        let prim = self.held.components.prim();
        let Some(v) = self.held.components.vulnerable() else {
            return Ok(prim);
        };
        // more primary components than any run makes
        let Some(index) = prim.index.checked_add(1) else {
            return Err(NoMemory);
        };
        Ok(Primary {
            index,
            conf: v.attempt,
            set: weigh(&self.held.members, &v.set),
        })
    }

    // the yellow actions become green, and then the other reds; the weights are those before
    #[tactic(auto, unfolding(crate::specs::Install::install))]
    fn install(&mut self, draft: &mut Draft) -> Result<(), NoMemory>
        ensures { OnOk result ((state : State) →
            turn_with self.new state draft.new ≡ install (turn_with self.old state draft.old)) }
    {
        let prim = self.prim_after()?;
        self.mark_all(draft, prim)
    }

    fn mark_all(&mut self, draft: &mut Draft, prim: Primary) -> Result<(), NoMemory>
        ensures { OnOk result ((state : State) →
            (let done = reds_green (yellow_green (turn_with self.old state draft.old)) in
            turn_with self.new state draft.new ≡ with_held done (with_prim done.replica.held prim))) }
    {
        self.yellow_green(draft)?;
        self.reds_green(draft)?;
        self.set_prim(prim)
    }
}

/// An attempt that was installed here. Clauses see what the replica holds behind it. `RegPrim` and `TransPrim` behind an
/// installation are made of it alone.
pub struct Installed {
    core: Core,
}

impl Drop for Installed {
    fn drop(self) {
        let Installed { core: _ } = self;
    }
}

impl Model for Installed {
    ghost use Rattle.cg_client.specs.Replica.{Held};

    ghost Value = { Held };

    ghost view = { λ i. i.core };
}

impl Installed {
    /// Installs the attempt whose members have all been heard: the yellow actions become green, where the yellow list
    /// counts, and then the other reds.
    pub fn make(mut core: Core, draft: &mut Draft, heard: IdSet) -> Result<Installed, NoMemory>
        requires { option_map (λ v. v.set) core.vulnerable ≡ Some heard }
        ensures { IfOk result (λ i. (state : State) →
            turn_with i state draft.new ≡ install (turn_with core state draft.old)) }
    {
        core.install(draft)?;
        Ok(Installed { core })
    }

    /// What the replica holds. It takes no memory.
    pub fn into_core(self) -> Core
        ensures { result ≡ self }
    {
        let Installed { core } = self;
        core
    }
}
