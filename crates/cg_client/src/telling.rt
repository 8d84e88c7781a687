//! What becomes of a primary component and of attempts, and what a replica tells the others as it enters an exchange.
ghost use Rattle.std.specs.Prelude.{◌≡◌, ◌∷◌, ◌<◌, [], suc, fold, true, Some, None, OnOk, IfOk};
ghost use Rattle.cg_queue.specs.Answers.{AreReds};
ghost use Rattle.cg_queue.specs.Distinct.{is_distinct};
ghost use Rattle.cg_records.specs.Limits.{IsNumber};
ghost use Rattle.cg_wire.specs.Limits.{IsSummary};
ghost use Rattle.cg_client.specs.Drafts.{turn_with};
ghost use Rattle.cg_client.specs.Replica.{State, ExchangeStates};
ghost use Rattle.cg_client.specs.Summary.{redden, own_to_red, summary_of, enter_exchange};

use crate::{Components, Core, Draft, Own, is_number};
use cg_base::{IdSet, LIST_LIMIT, NoMemory};
use cg_knowledge::Summary;
use cg_records::{Primary, Vulnerable, Yellow};
use cg_wire::{BoxedSummary, Msg};
use std::mem::replace;

impl Core {
    /// The primary component is over: no record stays, and the yellow list counts.
    pub fn end_prim(&mut self)
        ensures { self.new ≡ record self.old { vulnerable = None; yellow_valid = true } }
    {
        self.held.components.forget_record();
        self.held.yellow_valid = true;
    }

    /// Nobody has installed the attempt: its record goes.
    pub fn forget_record(&mut self)
        ensures { self.new ≡ record self.old { vulnerable = None } }
    {
        self.held.components.forget_record();
    }

    /// Takes over what an exchange has decided, or what stands in a record. Each yellow name is one of a red action, and
    /// none stands twice.
    pub fn take_over(
        &mut self,
        prim: Primary,
        attempt_index: u64,
        vulnerable: Option<Vulnerable>,
        yellow: &Yellow,
    ) -> Result<(), NoMemory>
        requires reds { AreReds self.old.queue yellow.now.list }
        requires distinct { is_distinct yellow.now.list ≡ true }
        ensures { OnOk result (self.new ≡ (let q = self.old.queue in
            record self.old {
              queue = record q { yellow = yellow.now.list };
              yellow_valid = yellow.now.valid;
              prim = prim;
              attempt_index = attempt_index;
              vulnerable = vulnerable;
            })) }
    {
        let components = Components::of(prim, attempt_index, vulnerable)?;
        self.held.queue.set_yellow(&yellow.list)?;
        self.held.yellow_valid = yellow.valid;
        self.held.components = components;
        Ok(())
    }

    /// An attempt of these members in a configuration begins, of which the replica's own end alone is known.
    pub fn begin_attempt(&mut self, conf: u64, set: IdSet) -> Result<(), NoMemory>
        ensures value { OnOk result (self.new ≡ record self.old {
          attempt_index = suc self.old.attempt_index;
          vulnerable =
              Some (record { attempt = conf; from = self.old.prim.index; set = set; bits = self.old.id ∷ [] });
        }) }
        ensures conf { OnOk result (IsNumber conf) }
    {
        let prim = self.held.components.prim();
        // more attempts than any run makes
        let Some(next) = self.held.components.attempt_index().checked_add(1) else {
            return Err(NoMemory);
        };
        let mut bits = IdSet::empty();
        bits.add(self.held.id);
        let record = Vulnerable {
            attempt: conf,
            from: prim.index,
            set,
            bits,
        };
        self.held.components = Components::of(prim, next, Some(record))?;
        Ok(())
    }

    /// The own actions that weren't delivered become red.
    #[tactic(auto, unfolding(crate::specs::Summary::own_to_red))]
    pub fn own_to_red(&mut self, draft: &mut Draft) -> Result<(), NoMemory>
        ensures { OnOk result ((state : State) →
            turn_with self.new state draft.new ≡ own_to_red (turn_with self.old state draft.old)) }
    {
        let none = Own::new(self.held.alloc);
        let own = replace(&mut self.held.own, none);
        draft.marked_own = draft.marked_own || !own.is_empty();
        self.redden_all(draft, own)
    }

    fn redden_all(&mut self, draft: &mut Draft, own: Own) -> Result<(), NoMemory>
        ensures { OnOk result ((state : State) →
            turn_with self.new state draft.new ≡ fold redden (turn_with self.old state draft.old) own) }
    {
        for a in own.into_actions() {
            self.place_red(draft, a)?;
        }
        Ok(())
    }

    /// What it tells in a configuration. A number of a configuration that has no bytes is refused.
    #[tactic(auto, unfolding(crate::specs::Summary::summary_of))]
    pub fn summary(&self, conf: u64) -> Result<Summary, NoMemory>
        ensures value { IfOk result (λ s. s ≡ summary_of self.now conf) }
        ensures limits { IfOk result IsSummary }
    {
        let list = self.held.queue.yellow()?;
        if list.len() >= LIST_LIMIT {
            return Err(NoMemory);
        }
        if !is_number(conf) {
            return Err(NoMemory);
        }
        let left = self.held.members.left();
        self.held.id.holds();
        left.holds();
        Ok(Summary {
            id: self.held.id,
            conf,
            prim: self.held.components.prim(),
            attempt_index: self.held.components.attempt_index(),
            vulnerable: self.held.components.vulnerable(),
            yellow: Yellow {
                valid: self.held.yellow_valid,
                list,
            },
            green_count: self.held.queue.green_count(),
            green_cut: self.held.queue.green_cut(),
            red_cut: self.held.queue.red_cut(),
            left,
        })
    }

    /// The own actions become red, and the replica tells what it holds; what is left is to wait for the others.
    #[tactic(auto, unfolding(crate::specs::Summary::enter_exchange))]
    pub fn enter_exchange(
        &mut self,
        draft: &mut Draft,
        conf: u64,
        set: IdSet,
    ) -> Result<(), NoMemory>
        ensures { OnOk result ((state : State) → turn_with self.new (ExchangeStates conf set []) draft.new ≡
            enter_exchange (turn_with self.old state draft.old) conf set) }
    {
        self.own_to_red(draft)?;
        let summary = BoxedSummary::new(self.held.alloc, self.summary(conf)?)?;
        draft.send(Msg::State(summary))
    }
}
