ghost use Rattle.std.specs.Prelude.{◌≡◌, ◌≤◌};
ghost use Rattle.cg_action.specs.ActionLimits.{IsAction};

use crate::ServerSet;
use cg_action::{Action, Kind};
use cg_base::{IdSet, ReplicaId, WeightSet};
use std::marker::Model;

/// The servers, and those that have left. Clauses see both lists.
#[derive(Drop)]
pub struct Members {
    servers: ServerSet,
    left: IdSet,
}

impl Model for Members {
    ghost use Rattle.cg_members.specs.Members.{Members};

    ghost Value = { Members };

    ghost view = { λ m. record { servers = m.servers; left = m.left } };
}

impl Members {
    ghost use Rattle.cg_base.specs.Sets.{IsSet};
    ghost use Rattle.cg_members.specs.Listed.{AreServers};
    ghost use Rattle.cg_members.specs.Servers.{starting, is_server, was_ever, with_joiner, departed, raise_line, after_green, weight_of, white_line};

    /// The members before the first green action: these servers, each with line 0.
    pub fn start(servers: WeightSet) -> Members
        ensures { result ≡ starting servers }
    {
        Members {
            servers: ServerSet::of(servers),
            left: IdSet::empty(),
        }
    }

    /// These servers, and these that have left.
    pub fn of(servers: ServerSet, left: IdSet) -> Members
        ensures { result ≡ record { servers = servers; left = left } }
    {
        Members { servers, left }
    }

    /// Other members that are the same.
    pub fn copy(&self) -> Members
        ensures { result ≡ self.now }
    {
        Members {
            servers: self.servers.copy(),
            left: self.left,
        }
    }

    /// A green action at this place, from 1: the whole step of the fold over green actions.
    pub fn note_green(&mut self, at: u64, action: &Action)
        requires { IsAction action.now }
        ensures { self.new ≡ after_green self.old at action.now }
    {
        match action.kind.get() {
            Kind::Update { .. } => {}
            Kind::Join(joiner, weight) => self.join(*joiner, at, *weight),
            Kind::Leave(server) => self.leave(*server),
        }
        self.note_line(action.id.creator, action.green_line.min(at));
    }

    /// A green join at this place: a replica that neither is nor was a server becomes one, with the place as its line.
    pub fn join(&mut self, id: ReplicaId, at: u64, weight: u8)
        requires { 1 ≤ weight }
        ensures { self.new ≡ with_joiner self.old id weight at }
    {
        if !self.was_ever(id) {
            self.servers.put(id, at, weight);
        }
    }

    /// A green leave: a server becomes one that has left.
    pub fn leave(&mut self, id: ReplicaId)
        ensures { self.new ≡ departed self.old id }
    {
        if self.is_member(id) {
            self.servers.remove(id);
            self.left.add(id);
        }
    }

    /// A server is known to have reached this green count; its line never falls.
    pub fn note_line(&mut self, id: ReplicaId, line: u64)
        ensures { self.new ≡ raise_line self.old id line }
    {
        self.servers.raise(id, line);
    }

    /// The green actions that every server is known to have: the least line. None says that there is no server.
    pub fn white_line(&self) -> Option<u64>
        ensures { result ≡ white_line self.now }
    {
        self.servers.least_line()
    }

    /// The replica is a server.
    pub fn is_member(&self, id: ReplicaId) -> bool
        ensures { result ≡ is_server self.now id }
    {
        self.servers.contains(id)
    }

    /// The servers.
    pub fn servers(&self) -> &ServerSet
        ensures { result.now ≡ self.now.servers }
    {
        &self.servers
    }

    /// The replicas that have left. They never join again.
    pub fn left(&self) -> IdSet
        ensures { result ≡ self.now.left }
    {
        self.left
    }

    /// What always holds of members.
    pub fn holds(&self)
        ensures servers { AreServers self.now.servers }
        ensures left { IsSet self.now.left }
    {
        self.servers.holds();
        self.left.holds();
    }

    /// The replica is or was a server.
    pub fn was_ever(&self, id: ReplicaId) -> bool
        ensures { result ≡ was_ever self.now id }
    {
        self.servers.contains(id) || self.left.contains(id)
    }

    /// The weight of a server, 0 where the replica is none.
    pub fn weight(&self, id: ReplicaId) -> u8
        ensures { result ≡ weight_of self.now.servers id }
    {
        self.servers.weight(id)
    }
}
