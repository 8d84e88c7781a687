//! What a store rebuilds and changes: a replica from the parts of a checkpoint, and each part of a change.
ghost use Rattle.std.specs.Prelude.{◌≡◌, ◌≤◌, ◌<◌, ◌++◌, ◌∷◌, ◌↔◌, [], suc, false, IsTrue, MatchOption, OnOk, IfOk};
ghost use Rattle.cg_base.specs.declared.limits.TheConstants.{COUNT_LIMIT};
ghost use Rattle.cg_base.specs.Cuts.{index_in};
ghost use Rattle.cg_action.specs.ActionLimits.{IsAction};
ghost use Rattle.cg_db.specs.Limits.{AreEntries};
ghost use Rattle.cg_base.specs.Lists.{Each};
ghost use Rattle.cg_records.specs.Limits.{IsIndex, IsNumber, IsStable};
ghost use Rattle.cg_queue.specs.Queue.{resumed, placed_red, placed_green, green_count, action_of};
ghost use Rattle.cg_client.specs.Own.{after_first};
ghost use Rattle.cg_client.specs.Marks.{with_green};
ghost use Rattle.cg_client.specs.Replica.{created, yellow_of};
ghost use Rattle.cg_client.specs.Whitening.{with_white};
ghost use Rattle.cg_client.specs.Calls.{IsLineGreen};

use crate::entries::Entries;
use crate::held::Holding;
use crate::marks::drop_owed;
use crate::{
    CheckedQueue, CheckedServers, Components, Core, Fifo, Own, drop_own, is_number, name_of,
    put_green, put_red,
};
use cg_action::Action;
use cg_base::{ActionId, COUNT_LIMIT, Cut, LIST_LIMIT, NoMemory, ReplicaId, Row};
use cg_db::Db;
use cg_members::Members;
use cg_records::{Primary, Stable, Vulnerable, Yellow};
use std::alloc::Global;

/// What a replica holds of which every green is discarded.
#[derive(Drop)]
pub struct WhiteState {
    /// How many were discarded.
    pub white: u64,
    /// How far they reach.
    pub cut: Cut,
    /// What all greens have made of the database, those still to be put among them.
    pub db: Db,
    /// What they have made of the members.
    pub members: Members,
    /// The last primary component that is known.
    pub prim: Primary,
    /// The number of its last attempt.
    pub attempt_index: u64,
    /// The record of an attempt whose end isn't known.
    pub vulnerable: Option<Vulnerable>,
}

impl Core {
    /// What a replica holds that knows no action but those that were discarded. A number of the primary component or of the
    /// record that has no bytes is refused.
    pub fn stored(alloc: Global, id: ReplicaId, state: WhiteState) -> Result<Core, NoMemory>
        requires white { state.white ≤ COUNT_LIMIT }
        requires cut { Each (λ top. IsIndex top.index) state.cut }
        requires db { AreEntries state.db }
        requires lines { Each (λ server. IsNumber server.line) state.members.servers }
        ensures { IfOk result (λ core. core ≡ record {
          id = id;
          queue = resumed state.white state.cut;
          yellow_valid = false;
          own = [];
          db = state.db;
          members = state.members;
          prim = state.prim;
          attempt_index =
              state.attempt_index;
          vulnerable = state.vulnerable;
          buffered = [];
          owed = [];
        }) }
    {
        let WhiteState {
            white,
            cut,
            db,
            members,
            prim,
            attempt_index,
            vulnerable,
        } = state;
        let components = Components::of(prim, attempt_index, vulnerable)?;
        let holding = Holding {
            id,
            queue: CheckedQueue::resume(alloc, white, cut),
            yellow_valid: false,
            own: Own::new(alloc),
            db: Entries::of(db),
            members: CheckedServers::of(members),
            components,
            buffered: Row::new(alloc),
            owed: Fifo::new(alloc),
            alloc,
        };
        let held = Box::new(alloc, holding)?;
        Ok(Core { held })
    }

    /// Puts a kept green action behind those that stand; the database and the members have it already.
    pub fn put_green(&mut self, a: Action) -> Result<(), NoMemory>
        requires action { IsAction a }
        requires next { a.id.index ≡ suc (index_in self.old.queue.green_cut a.id.creator) }
        ensures { OnOk result (self.new ≡ record self.old { queue = placed_green self.old.queue a }) }
    {
        let count = self.held.queue.green_count();
        if count >= COUNT_LIMIT {
            return Err(NoMemory);
        }
        put_green(&mut self.held.queue, count + 1, a)
    }

    /// An action becomes known as red, the next of its creator. Where it is the first own one, it is waited for no more.
    pub fn know(&mut self, a: Action) -> Result<(), NoMemory>
        requires action { IsAction a }
        requires next { a.id.index ≡ suc (index_in self.old.queue.red_cut a.id.creator) }
        ensures { OnOk result (self.new ≡ record self.old {
          queue = placed_red self.old.queue a;
          own = after_first self.old.own a.id;
        }) }
    {
        let id = name_of(&a);
        drop_own(&mut self.held.own, &id);
        put_red(&mut self.held.queue, a)
    }

    /// The action of a name becomes green at the next place, if it is known: it is the next green one of its creator. No reply
    /// is given, and the action isn't copied.
    pub fn turn_green(&mut self, id: ActionId) -> Result<(), NoMemory>
        requires { id.index ≡ suc (index_in self.old.queue.green_cut id.creator) }
        ensures { OnOk result (MatchOption (action_of self.old.queue id) (self.new ≡ self.old) (λ a. self.new ≡
            with_green self.old a)) }
    {
        let count = self.held.queue.green_count();
        if count >= COUNT_LIMIT {
            return Err(NoMemory);
        }
        let held = &mut *self.held;
        let Some(a) = held.queue.get(id) else {
            return Ok(());
        };
        let _ = held.db.apply(a)?;
        held.members.note_green(count + 1, a);
        drop_owed(&mut held.owed, &id);
        drop_own(&mut held.own, &id);
        held.queue.turn_green(id)?;
        Ok(())
    }

    /// The action is one more of the replica's own, which wasn't delivered yet; no reply is owed.
    pub fn make(&mut self, a: Action) -> Result<(), NoMemory>
        requires { IsAction a }
        ensures { OnOk result (self.new ≡ record self.old { own = self.old.own ++ a ∷ [] }) }
    {
        self.held.own.push(a)
    }

    /// The white count rises to the white line, where that is greater, and the greens up to it are discarded. It takes no
    /// memory.
    pub fn whiten(&mut self)
        requires { IsLineGreen self.old }
        ensures { self.new ≡ with_white self.old }
    {
        let white = self.held.queue.white_count();
        let line = self.held.members.white_line().unwrap_or(0).max(white);
        self.held.queue.discard_white(line);
    }

    /// The white line is at most the green count, as `whiten` asks. It takes no memory.
    pub fn is_line_green(&self) -> bool
        ensures { IsTrue result ↔ IsLineGreen self.now }
    {
        self.held.members.white_line().unwrap_or(0) <= self.held.queue.green_count()
    }

    /// What stands in each record of a commit.
    pub fn stable(&self) -> Result<Stable, NoMemory>
        ensures value { IfOk result (λ s. s ≡ record {
          prim = self.now.prim;
          attempt_index = self.now.attempt_index;
          vulnerable = self.now.vulnerable;
          yellow = yellow_of self.now;
          created = created self.now;
        }) }
        ensures limits { IfOk result IsStable }
    {
        let list = self.held.queue.yellow()?;
        if list.len() >= LIST_LIMIT {
            return Err(NoMemory);
        }
        let created = self.last_created();
        if !is_number(created) {
            return Err(NoMemory);
        }
        Ok(Stable {
            prim: self.held.components.prim(),
            attempt_index: self.held.components.attempt_index(),
            vulnerable: self.held.components.vulnerable(),
            yellow: Yellow {
                valid: self.held.yellow_valid,
                list,
            },
            created,
        })
    }
}
