//! What stands in a replica: for the states, the store and the layers above.
ghost use Rattle.std.specs.Prelude.{◌≡◌, ◌≤◌, ◌-◌, length, slice_get, IfOk, IfSome, IsSome};
ghost use Rattle.std.specs.Option.{option_copied};
ghost use Rattle.cg_base.specs.declared.limits.TheConstants.{COUNT_LIMIT};
ghost use Rattle.cg_base.specs.Cuts.{index_in};
ghost use Rattle.cg_base.specs.Ids.{has_name};
ghost use Rattle.cg_base.specs.Lists.{at_place, Each};
ghost use Rattle.cg_base.specs.Sets.{IsId, IsSet};
ghost use Rattle.cg_action.specs.ActionLimits.{IsAction};
ghost use Rattle.cg_db.specs.Limits.{AreEntries};
ghost use Rattle.cg_db.specs.Ascending.{Ascends};
ghost use Rattle.cg_members.specs.Listed.{AreServers};
ghost use Rattle.cg_records.specs.Limits.{IsNumber, IsSmallCut, IsPrimary, IsMaybeVulnerable};
ghost use Rattle.cg_queue.specs.Queue.{action_of, green_count, names_of};
ghost use Rattle.cg_client.specs.Kept.{AreKept};
ghost use Rattle.cg_client.specs.Replica.{created};

use crate::Core;
use cg_action::{Action, ActionList, EntryList};
use cg_base::{ActionId, Cut, IdSet, NoMemory, ReplicaId};
use cg_members::Members;
use cg_records::{Primary, Vulnerable};
use std::alloc::Global;

impl Core {
    /// What always holds of a replica.
    pub fn holds(&self)
        ensures id { IsId self.now.id }
        ensures count { green_count self.now.queue ≤ COUNT_LIMIT }
        ensures kept { AreKept self.now.queue }
        ensures green_cut { IsSmallCut self.now.queue.green_cut }
        ensures red_cut { IsSmallCut self.now.queue.red_cut }
        ensures own { Each IsAction self.now.own }
        ensures entries { AreEntries self.now.db }
        ensures ascends { Ascends self.now.db }
        ensures servers { AreServers self.now.members.servers }
        ensures lines { Each (λ server. IsNumber server.line) self.now.members.servers }
        ensures left { IsSet self.now.members.left }
    {
        self.held.id.holds();
        self.held.queue.holds();
        self.held.own.holds();
        self.held.db.holds();
        self.held.members.holds();
    }

    pub fn id(&self) -> ReplicaId
        ensures { result ≡ self.now.id }
    {
        self.held.id
    }

    /// From where its memory is taken.
    pub fn alloc(&self) -> Global {
        self.held.alloc
    }

    /// The last known primary component.
    pub fn prim(&self) -> Primary
        ensures value { result ≡ self.now.prim }
        ensures limits { IsPrimary self.now.prim }
    {
        self.held.components.prim()
    }

    pub fn attempt_index(&self) -> u64
        ensures value { result ≡ self.now.attempt_index }
        ensures limits { IsNumber self.now.attempt_index }
    {
        self.held.components.attempt_index()
    }

    pub fn vulnerable(&self) -> Option<Vulnerable>
        ensures value { result ≡ self.now.vulnerable }
        ensures limits { IsMaybeVulnerable self.now.vulnerable }
    {
        self.held.components.vulnerable()
    }

    /// The kept action of a name: a green one that isn't discarded, or a red one.
    pub fn get(&self, id: ActionId) -> Option<&Action>
        ensures value { option_copied result ≡ action_of self.now.queue id }
        ensures action { IfSome (action_of self.now.queue id) IsAction }
        ensures name { IfSome (action_of self.now.queue id) (λ a. a.id ≡ id) }
    {
        self.held.queue.get(id)
    }

    /// The green action at a place, counted from 1, if it is kept. It is found at once.
    pub fn green_at(&self, at: u64) -> Option<&Action>
        ensures value { option_copied result ≡ at_place self.now.queue.greens (at - self.now.queue.white) }
        ensures action { IfSome (at_place self.now.queue.greens (at - self.now.queue.white)) IsAction }
        ensures small { IsSome result → at ≤ COUNT_LIMIT }
    {
        self.held.queue.green_at(at)
    }

    /// The name is one of a red action.
    pub fn is_red(&self, id: ActionId) -> bool
        ensures { result ≡ has_name (names_of self.now.queue.reds) id }
    {
        self.held.queue.is_red(id)
    }

    /// The kept greens, in their order.
    pub fn greens(&self) -> Result<ActionList, NoMemory>
        ensures value { IfOk result (λ list. list ≡ self.now.queue.greens) }
        ensures each { Each IsAction self.now.queue.greens }
    {
        self.held.queue.greens()
    }

    /// The reds, by name.
    pub fn reds(&self) -> Result<ActionList, NoMemory>
        ensures value { IfOk result (λ list. list ≡ self.now.queue.reds) }
        ensures each { Each IsAction self.now.queue.reds }
    {
        self.held.queue.reds()
    }

    pub fn green_cut(&self) -> Cut
        ensures value { result ≡ self.now.queue.green_cut }
        ensures small { IsSmallCut self.now.queue.green_cut }
    {
        self.held.queue.green_cut()
    }

    /// The index of the creator's last green action, 0 where it has none.
    pub fn green_index(&self, creator: ReplicaId) -> u64
        ensures { result ≡ index_in self.now.queue.green_cut creator }
    {
        self.held.queue.green_index(creator)
    }

    pub fn red_cut(&self) -> Cut
        ensures value { result ≡ self.now.queue.red_cut }
        ensures small { IsSmallCut self.now.queue.red_cut }
    {
        self.held.queue.red_cut()
    }

    /// The index of the creator's last known action, 0 where it has none.
    pub fn red_index(&self, creator: ReplicaId) -> u64
        ensures { result ≡ index_in self.now.queue.red_cut creator }
    {
        self.held.queue.red_index(creator)
    }

    /// The number of greens, discarded ones counted.
    pub fn green_count(&self) -> u64
        ensures value { result ≡ green_count self.now.queue }
        ensures most { result ≤ COUNT_LIMIT }
    {
        self.held.queue.green_count()
    }

    /// The number of greens that are discarded.
    pub fn white_count(&self) -> u64
        ensures { result ≡ self.now.queue.white }
    {
        self.held.queue.white_count()
    }

    /// The index of the last action that the replica created.
    pub fn created(&self) -> u64
        ensures { result ≡ created self.now }
    {
        self.last_created()
    }

    /// The own action at a place, counted from 0, of those that weren't delivered yet.
    pub fn own_at(&self, i: usize) -> Option<&Action>
        ensures value { option_copied result ≡ slice_get self.now.own i }
        ensures action { IfSome (slice_get self.now.own i) IsAction }
        ensures each { Each IsAction self.now.own }
    {
        self.held.own.get(i)
    }

    /// How many own actions weren't delivered yet.
    pub fn own_count(&self) -> usize
        ensures { result ≡ length self.now.own }
    {
        self.held.own.len()
    }

    /// The servers, with their lines and weights, and those that have left.
    pub fn members(&self) -> &Members
        ensures value { result.now ≡ self.now.members }
        ensures lines { Each (λ server. IsNumber server.line) self.now.members.servers }
    {
        self.held.members.members()
    }

    /// The servers that have left.
    pub fn left(&self) -> IdSet
        ensures { result ≡ self.now.members.left }
    {
        self.held.members.left()
    }

    /// The entries of the database, ascending by key.
    pub fn entries(&self) -> Result<EntryList, NoMemory>
        ensures value { IfOk result (λ list. list ≡ self.now.db) }
        ensures ascends { IfOk result Ascends }
        ensures limits { AreEntries self.now.db }
    {
        self.held.db.list()
    }
}
