//! The actions that are known, each within the limits of an action.
ghost use Rattle.std.specs.Prelude.{◌≡◌, ◌≤◌, ◌<◌, ◌-◌, suc, filter, not, true, IfOk, IfSome, IsSome, MatchOption, OnOk};
ghost use Rattle.std.specs.Option.{option_copied};
ghost use Rattle.cg_base.specs.declared.limits.TheConstants.{COUNT_LIMIT};
ghost use Rattle.cg_base.specs.Cuts.{index_in};
ghost use Rattle.cg_base.specs.Ids.{has_name};
ghost use Rattle.cg_base.specs.Lists.{at_place, Each};
ghost use Rattle.cg_action.specs.ActionLimits.{IsAction};
ghost use Rattle.cg_records.specs.Limits.{IsIndex, IsName, IsSmallCut};
ghost use Rattle.cg_client.specs.Kept.{AreKept};
ghost use Rattle.cg_queue.specs.Answers.{Answers, AreReds, marked_green};
ghost use Rattle.cg_queue.specs.Distinct.{is_distinct};
ghost use Rattle.cg_queue.specs.Queue.{resumed, marked_red, marked_yellow, placed_green, discarded, green_count, action_of, names_of};

use cg_action::{Action, ActionList};
use cg_base::{ActionId, Cut, IdList, IdRuns, NoMemory, ReplicaId};
use cg_queue::{Mark, Queue, QueueFault};
use std::alloc::Global;
use std::marker::Model;

/// A queue. Clauses see what it holds.
pub struct CheckedQueue {
    queue: Queue,
}

impl Drop for CheckedQueue {
    fn drop(self) {
        let CheckedQueue { queue: _ } = self;
    }
}

impl Model for CheckedQueue {
    ghost use Rattle.cg_queue.specs.Queue.{QueueView};
    ghost use Rattle.cg_client.specs.Kept.{AreKept};

    ghost Value = { QueueView };

    ghost view = { λ k. k.queue };

    ghost invariant = { λ k. AreKept k.queue };
}

impl CheckedQueue {
    /// No action but those that were discarded: so many, and so far.
    pub fn resume(alloc: Global, white: u64, cut: Cut) -> CheckedQueue
        requires few { white ≤ COUNT_LIMIT }
        requires cut { Each (λ top. IsIndex top.index) cut }
        ensures { result ≡ resumed white cut }
    {
        CheckedQueue {
            queue: Queue::resume(alloc, white, cut),
        }
    }

    /// Marks an action red, where it is the next of its creator.
    pub fn mark_red(&mut self, a: Action) -> Result<Mark, QueueFault>
        requires { IsAction a }
        ensures { Answers (marked_red self.old a) self.old self.new result }
    {
        self.queue.mark_red(a)
    }

    /// Marks an action red, and its name yellow.
    pub fn mark_yellow(&mut self, a: Action) -> Result<Mark, QueueFault>
        requires { IsAction a }
        ensures { Answers (marked_yellow self.old a) self.old self.new result }
    {
        self.queue.mark_yellow(a)
    }

    /// Marks an action green at a place: the next one, or one that is green already.
    pub fn mark_green(&mut self, at: u64, a: Action) -> Result<Mark, QueueFault>
        requires action { IsAction a }
        requires place { at ≤ suc (green_count self.old) }
        requires few { green_count self.old < COUNT_LIMIT }
        requires next { at ≡ suc (green_count self.old) → a.id.index ≡ suc (index_in self.old.green_cut a.id.creator) }
        ensures { Answers (marked_green self.old at a) self.old self.new result }
    {
        self.queue.mark_green(at, a)
    }

    /// The action of a name becomes green at the next place, if it is known. It isn't copied.
    pub fn turn_green(&mut self, id: ActionId) -> Result<(), NoMemory>
        requires few { green_count self.old < COUNT_LIMIT }
        requires next { id.index ≡ suc (index_in self.old.green_cut id.creator) }
        ensures { OnOk result (MatchOption (action_of self.old id) (self.new ≡ self.old) (λ a. self.new ≡
            placed_green self.old a)) }
    {
        self.queue.turn_green(id)
    }

    /// Puts other names into the place of the yellow ones.
    pub fn set_yellow(&mut self, list: &IdList) -> Result<(), NoMemory>
        requires reds { AreReds self.old list.now }
        requires distinct { is_distinct list.now ≡ true }
        ensures { OnOk result (self.new ≡ record self.old { yellow = list.now }) }
    {
        self.queue.set_yellow(list)
    }

    /// Discards the greens up to a place. It takes no memory.
    pub fn discard_white(&mut self, n: u64)
        requires more { self.old.white ≤ n }
        requires there { n ≤ green_count self.old }
        ensures { self.new ≡ discarded self.old n }
    {
        self.queue.discard_white(n);
    }

    /// The queue itself, lent.
    pub fn queue(&self) -> &Queue
        ensures value { result.now ≡ self.now }
        ensures kept { AreKept self.now }
    {
        &self.queue
    }

    /// The kept greens, in their order.
    pub fn greens(&self) -> Result<ActionList, NoMemory>
        ensures value { IfOk result (λ list. list ≡ self.now.greens) }
        ensures each { Each IsAction self.now.greens }
    {
        self.queue.holds();
        self.queue.greens_from(self.queue.white_count() + 1)
    }

    /// The reds, by name.
    pub fn reds(&self) -> Result<ActionList, NoMemory>
        ensures value { IfOk result (λ list. list ≡ self.now.reds) }
        ensures each { Each IsAction self.now.reds }
    {
        self.queue.reds()
    }

    /// The names of the reds that aren't yellow, in their order.
    pub fn plain_red_names(&self) -> Result<IdRuns, NoMemory>
        ensures { IfOk result (λ ids. ids ≡ filter (λ id. not (has_name self.now.yellow id)) (names_of self.now.reds)) }
    {
        self.queue.plain_red_names()
    }

    /// The yellow names, in their order.
    pub fn yellow(&self) -> Result<IdList, NoMemory>
        ensures value { IfOk result (λ list. list ≡ self.now.yellow) }
        ensures each { Each IsName self.now.yellow }
    {
        self.queue.yellow()
    }

    /// The kept action of a name: a green one that isn't discarded, or a red one.
    pub fn get(&self, id: ActionId) -> Option<&Action>
        ensures value { option_copied result ≡ action_of self.now id }
        ensures action { IfSome (action_of self.now id) IsAction }
        ensures name { IfSome (action_of self.now id) (λ a. a.id ≡ id) }
    {
        self.queue.get(id)
    }

    /// The green action at a place, counted from 1, if it is kept.
    pub fn green_at(&self, at: u64) -> Option<&Action>
        ensures value { option_copied result ≡ at_place self.now.greens (at - self.now.white) }
        ensures action { IfSome (at_place self.now.greens (at - self.now.white)) IsAction }
        ensures small { IsSome result → at ≤ COUNT_LIMIT }
    {
        if at > self.green_count() {
            return None;
        }
        self.queue.green_at(at)
    }

    /// The name is yellow.
    pub fn is_yellow(&self, id: ActionId) -> bool
        ensures { result ≡ has_name self.now.yellow id }
    {
        self.queue.is_yellow(id)
    }

    /// The name is one of a red action.
    pub fn is_red(&self, id: ActionId) -> bool
        ensures { result ≡ has_name (names_of self.now.reds) id }
    {
        self.queue.is_red(id)
    }

    /// How far the known actions of each creator reach.
    pub fn red_cut(&self) -> Cut
        ensures value { result ≡ self.now.red_cut }
        ensures small { IsSmallCut self.now.red_cut }
    {
        let cut = self.queue.red_cut();
        cut.holds();
        cut
    }

    /// The index of the creator's last known action, 0 where it has none.
    pub fn red_index(&self, creator: ReplicaId) -> u64
        ensures { result ≡ index_in self.now.red_cut creator }
    {
        self.queue.red_index(creator)
    }

    /// How far the green actions of each creator reach.
    pub fn green_cut(&self) -> Cut
        ensures value { result ≡ self.now.green_cut }
        ensures small { IsSmallCut self.now.green_cut }
    {
        let cut = self.queue.green_cut();
        cut.holds();
        cut
    }

    /// The index of the creator's last green action, 0 where it has none.
    pub fn green_index(&self, creator: ReplicaId) -> u64
        ensures { result ≡ index_in self.now.green_cut creator }
    {
        self.queue.green_index(creator)
    }

    /// What always holds of the actions that are known.
    pub(crate) fn holds(&self)
        ensures most { green_count self.now ≤ COUNT_LIMIT }
        ensures kept { AreKept self.now }
        ensures green_cut { IsSmallCut self.now.green_cut }
        ensures red_cut { IsSmallCut self.now.red_cut }
    {
        self.queue.holds();
    }

    /// The number of greens, discarded ones counted.
    pub fn green_count(&self) -> u64
        ensures count { result ≡ green_count self.now }
        ensures most { result ≤ COUNT_LIMIT }
    {
        self.queue.green_count()
    }

    /// The number of greens that are discarded.
    pub fn white_count(&self) -> u64
        ensures { result ≡ self.now.white }
    {
        self.queue.white_count()
    }
}
