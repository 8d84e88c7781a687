ghost use Rattle.std.specs.Prelude.{◌≡◌, ◌≤◌, [], map};

use crate::Server;
use cg_base::{IdSet, ReplicaId, WeightIter, WeightSet, lesser};
use std::marker::Model;

/// Servers, each with its line and its weight. Clauses see the list of them, ascending.
#[derive(Drop)]
pub struct ServerSet {
    weights: WeightSet,
    // the same members, kept beside since the white line goes over them at every record
    members: IdSet,
    // slot p - 1 has the line of p, where p is a server
    lines: [u64; 32],
}

impl Model for ServerSet {
    ghost use Rattle.std.specs.Prelude.{◌≡◌, List, map};
    ghost use Rattle.cg_members.specs.declared.server.Server.{Server};
    ghost use Rattle.cg_base.specs.Weights.{IsWeightSet, ids};
    ghost use Rattle.cg_members.specs.View.{server_with};

    ghost Value = { List Server };

    ghost view = { λ s. map (server_with s.lines) s.weights };

    ghost invariant = { λ s. IsWeightSet s.weights × (s.members ≡ ids s.weights) };
}

impl ServerSet {
    ghost use Rattle.cg_base.specs.Lists.{least_of};
    ghost use Rattle.cg_members.specs.Servers.{is_among, weight_of, first_line, with_server, without_server, with_line};
    ghost use Rattle.cg_members.specs.Listed.{server_ids, line_of};

    pub fn empty() -> ServerSet
        ensures { result ≡ [] }
    {
        ServerSet {
            weights: WeightSet::empty(),
            members: IdSet::empty(),
            lines: [0; 32],
        }
    }

    /// These members, each with line 0.
    pub fn of(set: WeightSet) -> ServerSet
        ensures { result ≡ map first_line set }
    {
        set.holds();
        ServerSet {
            weights: set,
            members: set.ids(),
            lines: [0; 32],
        }
    }

    /// Other servers that are the same.
    pub fn copy(&self) -> ServerSet
        ensures { result ≡ self.now }
    {
        ServerSet {
            weights: self.weights,
            members: self.members,
            lines: self.lines,
        }
    }

    /// Makes the replica a server with this line and this weight, which take the place of those that it had.
    pub fn put(&mut self, id: ReplicaId, line: u64, weight: u8)
        requires { 1 ≤ weight }
        ensures { self.new ≡ with_server self.old (record { id = id; line = line; weight = weight }) }
    {
        self.weights.put(id, weight);
        self.members = self.weights.ids();
        self.lines[usize::from(id.get() - 1)] = line;
    }

    pub fn remove(&mut self, id: ReplicaId)
        ensures { self.new ≡ without_server self.old id }
    {
        let mut kept = WeightSet::empty();
        for member in self.weights.iter() {
            if member.id != id {
                kept.put(member.id, member.weight);
            }
        }
        self.weights = kept;
        self.members = kept.ids();
    }

    /// Raises a server's line to the given one. It never lowers; a replica that is no server stays none.
    pub fn raise(&mut self, id: ReplicaId, line: u64)
        ensures { self.new ≡ map (with_line id line) self.old }
    {
        let place = usize::from(id.get() - 1);
        self.lines[place] = self.lines[place].max(line);
    }

    pub fn contains(&self, id: ReplicaId) -> bool
        ensures { result ≡ is_among self.now id }
    {
        self.weights.contains(id)
    }

    /// 0 where the replica is no server.
    pub fn weight(&self, id: ReplicaId) -> u8
        ensures { result ≡ weight_of self.now id }
    {
        self.weights.weight(id)
    }

    /// 0 where the replica is no server.
    pub fn line(&self, id: ReplicaId) -> u64
        ensures { result ≡ line_of self.now id }
    {
        if self.weights.contains(id) {
            self.lines[usize::from(id.get() - 1)]
        } else {
            0
        }
    }

    /// The servers without their lines and weights.
    pub fn ids(&self) -> IdSet
        ensures { result ≡ server_ids self.now }
    {
        self.members
    }

    /// The least of the lines, if there is a server.
    pub fn least_line(&self) -> Option<u64>
        ensures { result ≡ least_of (map (λ s. s.line) self.now) }
    {
        let mut least = None;
        for id in self.members.iter() {
            least = lesser(least, self.lines[usize::from(id.get() - 1)]);
        }
        least
    }
}

/// The servers of a set, ascending.
#[derive(Drop)]
pub struct ServerIter {
    weights: WeightIter,
    lines: [u64; 32],
}

impl ServerSet {
    ghost use Rattle.cg_members.specs.Listed.{AreServers};
    ghost use Rattle.cg_members.specs.View.{servers_left};

    /// The servers, ascending.
    pub fn iter(&self) -> ServerIter
        ensures { servers_left result ≡ self.now }
    {
        ServerIter {
            weights: self.weights.iter(),
            lines: self.lines,
        }
    }

    /// What always holds of a set of servers.
    pub fn holds(&self)
        ensures { AreServers self.now }
    {
        let _ = &self.weights;
    }
}

impl Iterator for ServerIter {
    type Item = Server;

    ghost use Rattle.std.specs.Iterator.{YieldsFirst, item_count};
    ghost use Rattle.cg_members.specs.View.{servers_left};

    ghost next_gives = { YieldsFirst servers_left };

    ghost remaining = { item_count servers_left };

    fn next(&mut self) -> Option<Server> {
        let member = self.weights.next()?;
        let id = member.id;
        Some(Server {
            id,
            line: self.lines[usize::from(id.get() - 1)],
            weight: member.weight,
        })
    }
}
