ghost use Rattle.std.specs.Prelude.{◌≡◌, ◌+◌, ◌<◌, ◌^◌, true, false, [], ◌∷◌, ◌++◌, suc, length, IfOk, OnOk, OnErr, MatchOption};
ghost use Rattle.std.specs.Option.{option_copied};
ghost use Rattle.cg_group.specs.State.{GroupState, no_group, no_configuration, standing_of, is_up, is_regular, regular_in, phase_of, delivered_to, unordered_of, home};
ghost use Rattle.cg_group.specs.Ready.{ready};
ghost use Rattle.cg_group.specs.Events.{with_delivered, become_regular, become_transitional, come_up, go_down, send, order, receive, gather, deliver, split, merge};
ghost use Rattle.cg_group.specs.Refusals.{order_refusal, receive_refusal, deliver_refusal, split_refusal, merge_refusal};
ghost use Rattle.cg_group.specs.Answers.{IsAnswer};

use crate::configuration_log::ConfigurationLog;
use crate::gathering::{self, order_oldest};
use crate::logs::reserve_at;
use crate::member::Member;
use crate::place::at_place;
use crate::roster::Roster;
use crate::{Delivery, GroupErr, Handed, Phase, TryClone};
use cg_base::{Bytes, IdSet, NoMemory, ReplicaId, Row};
use std::alloc::Global;
use std::marker::Model;

/// The group: its configurations, and the replicas that are up. A replica that was never added isn't up.
///
/// A configuration goes by its number, from 1, and a message by its place in its configuration, from 1. After a
/// refusal and after want of memory the group is as before the call.
#[derive(Drop)]
pub struct Group<M = Bytes> {
    alloc: Global,
    logs: Vec<ConfigurationLog<M>>,
    roster: Roster<M>,
}

impl<M> Model for Group<M> {
    ghost use Rattle.cg_group.specs.State.{GroupState};
    ghost use Rattle.cg_group.specs.Logs.{configurations_of};

    ghost Value = { GroupState M };

    ghost view = { λ g. record { configurations = configurations_of g.logs.items; replicas = g.roster } };
}

impl<M> Group<M> {
    /// No replica is up, and there is no configuration.
    pub fn new(alloc: Global) -> Group<M>
        ensures { result ≡ no_group }
    {
        Group {
            alloc,
            logs: Vec::new(alloc),
            roster: Roster::new(alloc),
        }
    }

    /// Where the replica stands, `Down` where it isn't up.
    pub fn phase(&self, p: ReplicaId) -> Phase
        ensures { result ≡ phase_of self.now p }
    {
        match self.standing(p) {
            Some(member) => member.phase(),
            None => Phase::Down,
        }
    }

    /// How many places in a row may be delivered to the replica next, 0 where it isn't regular.
    pub fn ready(&self, p: ReplicaId) -> u64
        ensures count { result ≡ ready self.now p }
        ensures fits { delivered_to self.now p + result < 2 ^ 64 }
    {
        let delivered = self.delivered(p);
        match self.home(p) {
            Some(log) => log.ready(delivered),
            None => 0,
        }
    }

    /// The replica is up.
    pub fn is_up(&self, p: ReplicaId) -> bool
        ensures { result ≡ is_up self.now p }
    {
        self.standing(p).is_some()
    }

    /// The replica is regular in a configuration.
    pub fn is_regular(&self, p: ReplicaId) -> bool
        ensures { result ≡ is_regular self.now p }
    {
        self.regular_in(p) != 0
    }

    /// How many messages of the replica wait for a place.
    pub fn waiting(&self, p: ReplicaId) -> usize
        ensures { result ≡ length (unordered_of self.now p) }
    {
        match self.standing(p) {
            Some(member) => member.unordered(),
            None => 0,
        }
    }

    // the last place of the configuration in which the replica is regular
    pub(crate) fn last_place(&self, p: ReplicaId) -> u64
        ensures { result ≡ length (home self.now p).ordered }
    {
        match self.home(p) {
            Some(log) => log.len() as u64,
            None => 0,
        }
    }

    pub(crate) fn alloc(&self) -> Global {
        self.alloc
    }

    // the number that the next configuration gets
    pub(crate) fn next_conf(&self) -> u64
        ensures { result ≡ suc (length self.now.configurations) }
    {
        self.logs.len() as u64 + 1
    }

    // the replicas that are up, ascending
    pub(crate) fn members(&self) -> &[Member<M>]
        ensures { result.now ≡ self.now.replicas }
    {
        self.roster.as_slice()
    }

    // the replica, where it is up
    #[tactic(auto, unfolding(crate::specs::State::standing_of))]
    fn standing(&self, p: ReplicaId) -> Option<&Member<M>>
        ensures { option_copied result ≡ standing_of self.now p }
    {
        self.roster.find(p)
    }

    // the configuration in which the replica is regular, 0 for none
    pub(crate) fn regular_in(&self, p: ReplicaId) -> u64
        ensures { result ≡ regular_in (phase_of self.now p) }
    {
        match self.standing(p) {
            Some(member) => member.regular_in(),
            None => 0,
        }
    }

    // how many places of its configuration the replica was handed
    pub(crate) fn delivered(&self, p: ReplicaId) -> u64
        ensures { result ≡ delivered_to self.now p }
    {
        match self.standing(p) {
            Some(member) => member.delivered(),
            None => 0,
        }
    }

    // the configuration in which the replica is regular
    pub(crate) fn home(&self, p: ReplicaId) -> Option<&ConfigurationLog<M>>
        ensures { MatchOption result (home self.now p ≡ no_configuration) (λ log. home self.now p ≡
            log.now.configuration) }
    {
        at_place(self.logs.as_slice(), self.regular_in(p))
    }
}

impl<M: Drop> Group<M> {
    /// The replica comes up, and is alone. It wasn't up.
    #[tactic(auto, unfolding(crate::specs::State::standing_of, crate::specs::State::set_standing, crate::specs::Events::come_up))]
    pub fn add(&mut self, p: ReplicaId) -> Result<(), NoMemory>
        requires { is_up self.old p ≡ false }
        ensures ok { OnOk result (self.new ≡ come_up self.old p) }
        ensures err { OnErr result (self.new ≡ self.old) }
    {
        self.roster.add(Member::alone(self.alloc, p))
    }

    /// The replica goes down, where it is up: it leaves its phase, and its messages without a place are dropped. What it has
    /// received stays received. It takes no memory.
    #[tactic(auto, unfolding(crate::specs::Events::go_down))]
    pub fn down(&mut self, p: ReplicaId)
        ensures { self.new ≡ go_down self.old p }
    {
        self.roster.remove(p);
    }

    /// A message of a regular replica waits for a place, behind those that wait already; of any other replica it is dropped.
    /// The answer says whether it waits.
    #[tactic(auto, unfolding(crate::specs::State::standing_of, crate::specs::State::set_standing, crate::specs::Events::send, crate::specs::Events::send_from))]
    pub fn send(&mut self, p: ReplicaId, message: M) -> Result<bool, NoMemory>
        ensures ok { IfOk result (λ waits. (waits ≡ is_regular self.old p) × (self.new ≡ send self.old p message)) }
        ensures err { OnErr result (self.new ≡ self.old) }
    {
        if self.regular_in(p) == 0 {
            return Ok(false);
        }
        self.roster.send(p, message)?;
        Ok(true)
    }

    // a replica that is up begins the regular phase of a configuration
    #[tactic(auto, unfolding(crate::specs::State::standing_of, crate::specs::State::set_standing, crate::specs::Events::become_regular))]
    pub(crate) fn become_regular(&mut self, p: ReplicaId, conf: u64)
        requires { is_up self.old p ≡ true }
        ensures { self.new ≡ become_regular conf self.old p }
    {
        self.roster.enter(p, Phase::Regular { conf }, 0);
    }

    // a new configuration of these members
    pub(crate) fn open(&mut self, members: IdSet) -> Result<(), NoMemory>
        ensures ok { OnOk result
            (self.new ≡ record self.old {
              configurations = self.old.configurations ++ record {
                members = members;
                ordered = [];
                received = [];
              } ∷ [];
            }) }
        ensures err { OnErr result (self.new ≡ self.old) }
    {
        self.logs.push(ConfigurationLog::new(self.alloc, members))?;
        Ok(())
    }

    // a replica that is up was handed so many places
    #[tactic(auto, unfolding(crate::specs::State::standing_of, crate::specs::State::set_standing))]
    pub(crate) fn hand_out(&mut self, p: ReplicaId, count: u64)
        ensures { self.new ≡ with_delivered self.old p count }
    {
        self.roster.hand_out(p, count);
    }

    /// Each regular replica, ascending, orders all its messages, oldest first; then each of them receives every place of its
    /// configuration.
    pub fn gather(&mut self) -> Result<(), NoMemory>
        ensures ok { OnOk result (self.new ≡ gather self.old) }
        ensures err { OnErr result (self.new ≡ self.old) }
    {
        gathering::gather(&mut self.logs, &mut self.roster)
    }

    // the oldest message of a replica gets the next place, where it has one
    pub(crate) fn order_next(&mut self, p: ReplicaId) -> Result<(), NoMemory>
        ensures ok { OnOk result (self.new ≡ order self.old p) }
        ensures err { OnErr result (self.new ≡ self.old) }
    {
        reserve_at(&mut self.logs, self.roster.regular_in(p), 1)?;
        order_oldest(&mut self.logs, &mut self.roster, p);
        Ok(())
    }

    // a replica has received a place
    pub(crate) fn receive_place(&mut self, p: ReplicaId, place: u64)
        ensures { self.new ≡ receive self.old p place }
    {
        gathering::receive_place(&mut self.logs, &self.roster, p, place);
    }

    // a replica that is up leaves its configuration together with the set
    #[tactic(auto, unfolding(crate::specs::State::standing_of, crate::specs::State::set_standing, crate::specs::Events::become_transitional))]
    pub(crate) fn become_transitional(&mut self, p: ReplicaId, set: &IdSet)
        requires { is_up self.old p ≡ true }
        ensures { self.new ≡ become_transitional set.now self.old p }
    {
        let conf = self.regular_in(p);
        let delivered = self.delivered(p);
        self.roster
            .enter(p, Phase::Transitional { conf, set: *set }, delivered);
    }
}
