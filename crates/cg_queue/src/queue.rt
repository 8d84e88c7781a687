ghost use Rattle.std.specs.Prelude.{◌≡◌, ◌≤◌, ◌<◌, ◌-◌, ◌++◌, ◌∷◌, ◌==◌, ◌&&◌, [], nat_lt, suc, drop, filter, not, true, length, slice_get, IfOk, OnOk, OnErr, MatchOption};
ghost use Rattle.std.specs.Option.{option_copied};
ghost use Rattle.cg_base.specs.declared.limits.TheConstants.{COUNT_LIMIT, LIST_LIMIT};
ghost use Rattle.cg_base.specs.Cuts.{index_in};
ghost use Rattle.cg_base.specs.Lists.{at_place};
ghost use Rattle.cg_queue.specs.Lanes.{rows_of};
ghost use Rattle.cg_queue.specs.Body.{parts_of, seen, actions_in, all_reds, flag_of, unless, IsLane};
ghost use Rattle.cg_base.specs.Ids.{has_name};
ghost use Rattle.cg_queue.specs.Queue.{names_of};

use crate::body::{
    Body, add_green, add_name, add_red, add_yellow, drop_green, empty_body, forget_green,
    is_flagged, lane_of, make_red_room, make_yellow_room, name_of, rename, starts_yellow,
    turn_first,
};
use crate::lanes::{Lanes, item_in};
use crate::red::Red;
use crate::{Mark, QueueFault};
use cg_action::{Action, ActionList};
use cg_base::{ActionId, Cut, IdList, IdRuns, NoMemory, ReplicaId, Row};
use std::alloc::Global;
use std::collections::VecDeque;
use std::marker::Model;

/// The actions that a replica knows.
pub struct Queue {
    body: Body,
    alloc: Global,
}

impl Drop for Queue {
    fn drop(self) {
        let Queue { body: _, alloc: _ } = self;
    }
}

impl Model for Queue {
    ghost use Rattle.cg_queue.specs.Queue.{QueueView};
    ghost use Rattle.cg_queue.specs.Body.{parts_of, seen, IsSound};

    ghost Value = { QueueView };

    ghost view = { λ q. seen (parts_of q.body) };

    ghost invariant = { λ q. IsSound (parts_of q.body) };
}

impl Queue {
    ghost use Rattle.cg_queue.specs.Queue.{resumed, marked_red, marked_yellow, placed_green, green_count, discarded, with_yellow, names_of, action_of};
    ghost use Rattle.cg_queue.specs.Answers.{marked_green, Answers, AreReds};
    ghost use Rattle.cg_queue.specs.Shown.{IsShown};
    ghost use Rattle.cg_queue.specs.Distinct.{is_distinct};

    /// A queue that knows no action.
    pub fn new(alloc: Global) -> Queue
        ensures { result ≡ resumed 0 [] }
    {
        Queue::resume(alloc, 0, Cut::zero())
    }

    /// A queue that knows no action but those that were discarded: so many greens, of each creator those up to the cut.
    pub fn resume(alloc: Global, white: u64, cut: Cut) -> Queue
        requires { white ≤ COUNT_LIMIT }
        ensures { result ≡ resumed white cut }
    {
        Queue {
            body: empty_body(alloc, white, cut),
            alloc,
        }
    }

    /// Marks an action red, where it is its creator's next one. Known says exactly that its index is at most the red
    /// cut, and Gap that it is above the next one.
    pub fn mark_red(&mut self, a: Action) -> Result<Mark, QueueFault>
        ensures { Answers (marked_red self.old a) self.old self.new result }
    {
        let id = name_of(&a);
        let cut = self.body.red_cut.get(id.creator);
        if id.index <= cut {
            return Ok(Mark::Known);
        }
        if id.index - 1 > cut {
            return Err(QueueFault::Gap { cut });
        }
        let Ok(()) = make_red_room(&mut self.body, &id) else {
            return Err(QueueFault::NoMemory);
        };
        add_red(&mut self.body, a, false);
        Ok(Mark::Placed)
    }

    /// Marks an action red as `mark_red` does, and puts its name at the end of the yellow list, where it is neither green
    /// nor yellow.
    pub fn mark_yellow(&mut self, a: Action) -> Result<Mark, QueueFault>
        ensures { Answers (marked_yellow self.old a) self.old self.new result }
    {
        let id = name_of(&a);
        let known = self.body.red_cut.get(id.creator);
        if id.index <= known {
            return match self.name_known(&id) {
                Ok(()) => Ok(Mark::Known),
                Err(_) => Err(QueueFault::NoMemory),
            };
        }
        if id.index - 1 > known {
            return Err(QueueFault::Gap { cut: known });
        }
        let Ok(()) = make_yellow_room(&mut self.body, &id) else {
            return Err(QueueFault::NoMemory);
        };
        add_yellow(&mut self.body, a);
        Ok(Mark::Placed)
    }

    // a known action's name comes to the end of the yellow list, where it is neither green nor yellow
    fn name_known(&mut self, id: &ActionId) -> Result<(), NoMemory>
        requires { id.now.index ≤ index_in self.old.red_cut id.now.creator }
        ensures ok { OnOk result (self.new ≡ with_yellow self.old id.now) }
        ensures err { OnErr result (self.new ≡ self.old) }
    {
        let green = self.body.green_cut.get(id.creator);
        if id.index <= green {
            return Ok(());
        }
        let slot = lane_of(id);
        let i = (id.index - green - 1) as usize;
        if is_flagged(&self.body, slot, i) {
            return Ok(());
        }
        let Ok(()) = add_name(&mut self.body, id, slot, i) else {
            return Err(NoMemory);
        };
        Ok(())
    }

    /// Marks an action green at a place, counted from 1 and at most the next one. At the next place it is its creator's
    /// next green one; it is then no more red or yellow. Known says exactly that the place is at most the count.
    pub fn mark_green(&mut self, at: u64, a: Action) -> Result<Mark, QueueFault>
        requires position { at ≤ suc (green_count self.old) }
        requires few { green_count self.old < COUNT_LIMIT }
        requires next { at ≡ suc (green_count self.old) → a.id.index ≡ suc (index_in self.old.green_cut a.id.creator) }
        ensures { Answers (marked_green self.old at a) self.old self.new result }
    {
        if at <= self.green_count() {
            return Ok(Mark::Known);
        }
        let was_yellow = starts_yellow(&self.body, &name_of(&a));
        match add_green(&mut self.body, a) {
            Ok(()) => {
                if was_yellow {
                    forget_green(&mut self.body);
                }
                Ok(Mark::Placed)
            }
            Err(_) => Err(QueueFault::NoMemory),
        }
    }

    /// The action of a name becomes green at the next place, as by `mark_green`, if it is red: it is its creator's next green
    /// one. It isn't copied.
    pub fn turn_green(&mut self, id: ActionId) -> Result<(), NoMemory>
        requires few { green_count self.old < COUNT_LIMIT }
        requires next { id.index ≡ suc (index_in self.old.green_cut id.creator) }
        ensures ok { OnOk result (MatchOption (action_of self.old id) (self.new ≡ self.old) (λ a. self.new ≡
            placed_green self.old a)) }
        ensures err { OnErr result (self.new ≡ self.old) }
    {
        let was_yellow = starts_yellow(&self.body, &id);
        turn_first(&mut self.body, lane_of(&id))?;
        if was_yellow {
            forget_green(&mut self.body);
        }
        Ok(())
    }

    /// These names, each that of a red action and none twice, are the yellow list.
    pub fn set_yellow(&mut self, list: &IdList) -> Result<(), NoMemory>
        requires reds { AreReds self.old list.now }
        requires distinct { is_distinct list.now ≡ true }
        ensures ok { OnOk result (self.new ≡ record self.old { yellow = list.now }) }
        ensures err { OnErr result (self.new ≡ self.old) }
    {
        let names = Vec::from_slice(self.alloc, list.as_slice())?;
        rename(&mut self.body, names);
        Ok(())
    }

    /// Discards the greens up to this count.
    pub fn discard_white(&mut self, n: u64)
        requires more { self.old.white ≤ n }
        requires there { n ≤ green_count self.old }
        ensures { self.new ≡ discarded self.old n }
    {
        while self.white_count() < n {
            self.discard_first();
        }
    }

    fn discard_first(&mut self)
        requires { self.old.white < green_count self.old }
        ensures { self.new ≡ discarded self.old (suc self.old.white) }
    {
        drop_green(&mut self.body);
    }

    /// The greens from a place on, which isn't discarded.
    pub fn greens_from(&self, at: u64) -> Result<ActionList, NoMemory>
        requires { self.now.white < at }
        ensures { IfOk result (λ list. list ≡ drop (at - suc self.now.white) self.now.greens) }
    {
        let first = (at - self.body.white - 1) as usize;
        copy_greens(self.alloc, &self.body.greens, first)
    }

    /// The green action at a place, counted from 1, if it is kept. It is found at once.
    pub fn green_at(&self, at: u64) -> Option<&Action>
        ensures { option_copied result ≡ at_place self.now.greens (at - self.now.white) }
    {
        if at <= self.body.white {
            return None;
        }
        item_in(&self.body.greens, (at - self.body.white - 1) as usize)
    }

    /// The reds, by name.
    pub fn reds(&self) -> Result<ActionList, NoMemory>
        ensures { IfOk result (λ list. list ≡ self.now.reds) }
    {
        let mut list = Row::new(self.alloc);
        for slot in 0..32 {
            copy_reds_from(self.alloc, &self.body.reds, slot, 0, &mut list)?;
        }
        Ok(list)
    }

    /// The reds of a creator whose index is above this one, in order. Its time doesn't depend on how many others there
    /// are.
    pub fn reds_above(&self, creator: ReplicaId, index: u64) -> Result<ActionList, NoMemory>
        ensures { IfOk result (λ list. list ≡
            filter (λ a. (a.id.creator == creator) && nat_lt index a.id.index) self.now.reds) }
    {
        let slot = lane_of(&ActionId { creator, index });
        let first = index.saturating_sub(self.body.green_cut.get(creator)) as usize;
        let mut list = Row::new(self.alloc);
        copy_reds_from(self.alloc, &self.body.reds, slot, first, &mut list)?;
        Ok(list)
    }

    /// The names of the reds that aren't yellow, in the same order. Where no name is yellow its time doesn't depend on
    /// how many reds there are.
    pub fn plain_red_names(&self) -> Result<IdRuns, NoMemory>
        ensures { IfOk result (λ ids. ids ≡ filter (λ id. not (has_name self.now.yellow id)) (names_of self.now.reds)) }
    {
        let mut ids = IdRuns::new(self.alloc);
        let used = self.body.reds.used();
        for slot in 0..used {
            add_plain_names(&self.body, slot, &mut ids)?;
        }
        Ok(ids)
    }

    /// A red, by its place among them by name, counted from 0.
    pub fn red_at(&self, i: usize) -> Option<&Action>
        ensures { option_copied result ≡ slice_get self.now.reds i }
    {
        red_in(&self.body.reds, i)
    }

    /// The number of reds. None says that there are 2^32 or more.
    pub fn red_count(&self) -> Option<u32>
        ensures { MatchOption result (LIST_LIMIT ≤ length self.now.reds) (λ count. count ≡ length self.now.reds) }
    {
        count_in(&self.body.reds)
    }

    /// The yellow names, in their order.
    pub fn yellow(&self) -> Result<IdList, NoMemory>
        ensures { IfOk result (λ list. list ≡ self.now.yellow) }
    {
        let mut list = Row::new(self.alloc);
        for id in self.body.yellow.as_slice() {
            if self.body.green_cut.get(id.creator) < id.index {
                list.push(*id)?;
            }
        }
        Ok(list)
    }

    /// The action of a name, if it is kept.
    pub fn get(&self, id: ActionId) -> Option<&Action>
        ensures { option_copied result ≡ action_of self.now id }
    {
        let slot = lane_of(&id);
        let green = self.body.green_cut.get(id.creator);
        if green < id.index {
            return match self.body.reds.get(slot, (id.index - green - 1) as usize) {
                Some(red) => Some(&red.action),
                None => None,
            };
        }
        let kept = self.body.positions.len(slot) as u64;
        let behind = green - id.index;
        if kept <= behind {
            return None;
        }
        match self.body.positions.get(slot, (kept - behind - 1) as usize) {
            Some(at) => item_in(&self.body.greens, (*at - self.body.white - 1) as usize),
            None => None,
        }
    }

    /// The name is one of a red action.
    pub fn is_red(&self, id: ActionId) -> bool
        ensures { result ≡ has_name (names_of self.now.reds) id }
    {
        let slot = lane_of(&id);
        let cut = self.body.green_cut.get(id.creator);
        if cut >= id.index {
            return false;
        }
        let i = (id.index - cut - 1) as usize;
        i < self.body.reds.len(slot)
    }

    /// The name is one of a yellow action. It is found at once.
    pub fn is_yellow(&self, id: ActionId) -> bool
        ensures { result ≡ has_name self.now.yellow id }
    {
        let known = self.body.red_cut.get(id.creator);
        if known < id.index {
            return false;
        }
        let cut = self.body.green_cut.get(id.creator);
        if cut >= id.index {
            return false;
        }
        let slot = lane_of(&id);
        is_flagged(&self.body, slot, (id.index - cut - 1) as usize)
    }

    /// How far each creator's actions are known: red or green, discarded ones too.
    pub fn red_cut(&self) -> Cut
        ensures { result ≡ self.now.red_cut }
    {
        self.body.red_cut
    }

    /// How far each creator's actions are green, discarded ones too.
    pub fn green_cut(&self) -> Cut
        ensures { result ≡ self.now.green_cut }
    {
        self.body.green_cut
    }

    /// The index of the creator's last known action, 0 where it has none.
    pub fn red_index(&self, creator: ReplicaId) -> u64
        ensures { result ≡ index_in self.now.red_cut creator }
    {
        self.body.red_cut.get(creator)
    }

    /// The index of the creator's last green action, 0 where it has none.
    pub fn green_index(&self, creator: ReplicaId) -> u64
        ensures { result ≡ index_in self.now.green_cut creator }
    {
        self.body.green_cut.get(creator)
    }

    /// What always holds of a queue: its reds are exactly those between its two cuts, what is yellow is red, and no
    /// yellow name stands twice.
    pub fn holds(&self)
        ensures most { green_count self.now ≤ COUNT_LIMIT }
        ensures shown { IsShown self.now }
    {
        let _ = &self.body;
    }

    /// The number of greens, discarded ones counted.
    pub fn green_count(&self) -> u64
        ensures count { result ≡ green_count self.now }
        ensures most { result ≤ COUNT_LIMIT }
    {
        self.body.white + self.body.greens.len() as u64
    }

    /// The number of greens that are discarded.
    pub fn white_count(&self) -> u64
        ensures { result ≡ self.now.white }
    {
        self.body.white
    }
}

// the red at a place among all, by name
fn red_in(reds: &Lanes<Red>, i: usize) -> Option<&Action>
    ensures { option_copied result ≡ slice_get (all_reds (rows_of reds.now)) i }
{
    let mut left = i;
    for slot in 0..32 {
        let count = reds.len(slot);
        if left < count {
            return action_at(reds, slot, left);
        }
        left -= count;
    }
    None
}

fn action_at(reds: &Lanes<Red>, slot: usize, i: usize) -> Option<&Action>
    ensures { option_copied result ≡ slice_get (actions_in (rows_of reds.now slot)) i }
{
    match reds.get(slot, i) {
        Some(red) => Some(&red.action),
        None => None,
    }
}

fn count_in(reds: &Lanes<Red>) -> Option<u32>
    ensures { MatchOption result (LIST_LIMIT ≤ length (all_reds (rows_of reds.now))) (λ count. count ≡
        length (all_reds (rows_of reds.now))) }
{
    let mut count: usize = 0;
    for slot in 0..32 {
        let more = reds.len(slot);
        if more > u32::MAX as usize - count {
            return None;
        }
        count += more;
    }
    Some(count as u32)
}

// the greens from a place on, counted from 0
fn copy_greens(
    alloc: Global,
    greens: &VecDeque<Action>,
    first: usize,
) -> Result<ActionList, NoMemory>
    ensures { IfOk result (λ list. list ≡ drop first greens.now.items) }
{
    let mut list = Row::new(alloc);
    for i in first..greens.len() {
        push_green_at(alloc, greens, i, &mut list)?;
    }
    Ok(list)
}

// the reds of a slot from a place on, counted from 0, behind those that are listed
fn copy_reds_from(
    alloc: Global,
    reds: &Lanes<Red>,
    slot: usize,
    first: usize,
    list: &mut ActionList,
) -> Result<(), NoMemory>
    ensures { OnOk result (list.new ≡ list.old ++ actions_in (drop first (rows_of reds.now slot))) }
{
    for i in first..reds.len(slot) {
        push_red_at(alloc, reds, slot, i, list)?;
    }
    Ok(())
}

// the names of the reds of a slot that aren't yellow, behind those that are listed. They lie between the two cuts
fn add_plain_names(body: &Body, slot: usize, ids: &mut IdRuns) -> Result<(), NoMemory>
    requires slot { slot < 32 }
    requires lane { IsLane (parts_of body.now) slot }
    ensures { OnOk result (ids.new ≡ ids.old
        ++ filter (λ id. not (has_name (seen (parts_of body.now)).yellow id))
        (names_of (actions_in (rows_of body.now.reds slot)))) }
{
    let creator = ReplicaId::known(slot as u8 + 1);
    let low = body.green_cut.get(creator);
    let high = body.red_cut.get(creator);
    if body.yellow.is_empty() {
        return ids.push_run(creator, low, high);
    }
    for index in low..high {
        let id = ActionId {
            creator,
            index: index + 1,
        };
        push_plain(body, slot, (index - low) as usize, &id, ids)?;
    }
    Ok(())
}

// the name of the red at an index of a row, where it isn't yellow
fn push_plain(
    body: &Body,
    slot: usize,
    i: usize,
    id: &ActionId,
    ids: &mut IdRuns,
) -> Result<(), NoMemory>
    ensures { OnOk result (ids.new ≡ ids.old ++ unless (flag_of (slice_get (rows_of body.now.reds slot) i)) id.now) }
{
    if is_flagged(body, slot, i) {
        return Ok(());
    }
    ids.push(id)
}

fn push_green_at(
    alloc: Global,
    greens: &VecDeque<Action>,
    i: usize,
    list: &mut ActionList,
) -> Result<(), NoMemory>
    ensures { OnOk result (list.new ++ drop (suc i) greens.now.items ≡ list.old ++ drop i greens.now.items) }
{
    match item_in(greens, i) {
        Some(action) => push_copy(alloc, action, list),
        None => Ok(()),
    }
}

fn push_red_at(
    alloc: Global,
    reds: &Lanes<Red>,
    slot: usize,
    i: usize,
    list: &mut ActionList,
) -> Result<(), NoMemory>
    ensures { OnOk result (list.new ++ actions_in (drop (suc i) (rows_of reds.now slot)) ≡
        list.old ++ actions_in (drop i (rows_of reds.now slot))) }
{
    match reds.get(slot, i) {
        Some(red) => push_copy(alloc, &red.action, list),
        None => Ok(()),
    }
}

fn push_copy(alloc: Global, action: &Action, list: &mut ActionList) -> Result<(), NoMemory>
    ensures { OnOk result (list.new ≡ list.old ++ action.now ∷ []) }
{
    let action = action.copy(alloc)?;
    list.push(action)
}
